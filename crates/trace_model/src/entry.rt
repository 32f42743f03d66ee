//! An entry of a trace.

use link_frames::Note;

/// An item of a trace with the tick at which it stands, in ticks of 100 ms from the start of the script.
#[derive(Clone, Copy, Debug, PartialEq, Eq)]
pub struct Entry {
    pub tick: u64,
    pub note: Note,
}
