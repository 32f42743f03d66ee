//! What comes out of a floor.

use trace_model::Entry;

/// An entry of the trace of a floor, and the number of the vehicle whose entry it is: 1 to 64, or 0 where it is of none.
#[derive(Clone, Copy, Debug, PartialEq, Eq)]
pub struct FloorEntry {
    pub vehicle: u8,
    pub entry: Entry,
}
