//! How an entry breaks a rule.
ghost use Rattle.std.specs.Prelude.{◌≡◌};
ghost use Rattle.view_reports.specs.BreakTexts.{bound_of, call_of, end_of_break, muted_of, open_of, rule_of};

use crate::limits::{LEAST_OPENING, muting_limit};
use link_frames::End;
use trace_model::Rule;

/// How an entry breaks a rule, at which end of which call.
#[derive(Clone, Copy)]
pub(crate) enum Break {
    /// A set is acknowledged that was not shown.
    Unshown { call: u32 },
    /// The voice that must open isn't opened. It was muted for so many ticks.
    Unopened { end: End, call: u32, muted: u64 },
    /// The voice is muted so many ticks behind its opening.
    Soon { end: End, call: u32, open: u64 },
    /// The voice is muted for so many ticks. It is told in the first line behind the bound.
    Long { end: End, call: u32, muted: u64 },
}

impl Break {
    /// The rule that is broken.
    pub(crate) fn rule(&self) -> Rule
        ensures { result ≡ rule_of self.now }
    {
        match self {
            Break::Unshown { .. } => Rule::Agreed,
            Break::Unopened { .. } => Rule::Opened,
            Break::Soon { .. } | Break::Long { .. } => Rule::Bounded,
        }
    }

    /// The end at which it is broken: a set is acknowledged at the vehicle.
    pub(crate) fn end(&self) -> End
        ensures { result ≡ end_of_break self.now }
    {
        match self {
            Break::Unshown { .. } => End::Vehicle,
            Break::Unopened { end, .. } | Break::Soon { end, .. } | Break::Long { end, .. } => *end,
        }
    }

    /// The call in which it is broken.
    pub(crate) fn call(&self) -> u32
        ensures { result ≡ call_of self.now }
    {
        match self {
            Break::Unshown { call }
            | Break::Unopened { call, .. }
            | Break::Soon { call, .. }
            | Break::Long { call, .. } => *call,
        }
    }

    /// For how many ticks the voice was muted.
    pub(crate) fn muted(&self) -> Option<u64>
        ensures { result ≡ muted_of self.now }
    {
        match self {
            Break::Unopened { muted, .. } | Break::Long { muted, .. } => Some(*muted),
            Break::Unshown { .. } | Break::Soon { .. } => None,
        }
    }

    /// For how many ticks it was open.
    pub(crate) fn open(&self) -> Option<u64>
        ensures { result ≡ open_of self.now }
    {
        match self {
            Break::Soon { open, .. } => Some(*open),
            _ => None,
        }
    }

    /// The bound that is passed.
    pub(crate) fn bound(&self) -> Option<u64>
        ensures { result ≡ bound_of self.now }
    {
        match self {
            Break::Soon { .. } => Some(LEAST_OPENING),
            Break::Long { end, .. } => Some(muting_limit(*end)),
            Break::Unshown { .. } | Break::Unopened { .. } => None,
        }
    }
}
