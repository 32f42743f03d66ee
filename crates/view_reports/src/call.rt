//! A call, as both its legs have it.
ghost use Rattle.std.specs.Prelude.{◌≡◌};
ghost use Rattle.view_reports.specs.Calls.{call_behind, no_call, side_of, with_side};

use crate::side::Side;
use link_frames::{End, Note};

/// What is kept of a call: its leg at each end.
#[derive(Clone, Copy)]
pub(crate) struct Call {
    pub(crate) vehicle: Side,
    pub(crate) point: Side,
}

impl Call {
    /// A call of whose legs nothing was heard.
    pub(crate) fn new() -> Call
        ensures { result ≡ no_call }
    {
        Call {
            vehicle: Side::new(),
            point: Side::new(),
        }
    }

    /// Its leg at an end.
    pub(crate) fn side(&self, end: End) -> Side
        ensures { result ≡ side_of self.now end }
    {
        match end {
            End::Vehicle => self.vehicle,
            End::Point => self.point,
        }
    }

    /// It with another leg at an end.
    fn with(&self, end: End, side: Side) -> Call
        ensures { result ≡ with_side self.now end side }
    {
        match end {
            End::Vehicle => Call {
                vehicle: side,
                point: self.point,
            },
            End::Point => Call {
                vehicle: self.vehicle,
                point: side,
            },
        }
    }

    /// It behind an item of its leg at this end, in this line at this tick.
    pub(crate) fn behind(&self, end: End, note: &Note, line: u64, now: u64) -> Call
        ensures { result ≡ call_behind self.now end note.now line now }
    {
        self.with(end, self.side(end).behind(note, line, now))
    }
}
