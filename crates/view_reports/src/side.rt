//! An end's leg of a call.
ghost use Rattle.std.specs.Prelude.{◌≡◌};
ghost use Rattle.view_reports.specs.Sides.{is_muted, lowered, no_side, raised, side_behind, turned};

use link_frames::{Note, Why};

/// What is kept of an end's leg of a call: whether it is up, and whether its voice is open both ways; the tick and the line
/// at which this stretch of an open or a muted voice began; and when it first came up, and when and why it first went down.
#[derive(Clone, Copy)]
pub(crate) struct Side {
    pub(crate) is_up: bool,
    pub(crate) talks: bool,
    pub(crate) since: u64,
    pub(crate) line: u64,
    pub(crate) came: Option<u64>,
    pub(crate) went: Option<u64>,
    pub(crate) why: Option<Why>,
}

impl Side {
    /// A leg of which nothing was heard.
    pub(crate) fn new() -> Side
        ensures { result ≡ no_side }
    {
        Side {
            is_up: false,
            talks: false,
            since: 0,
            line: 0,
            came: None,
            went: None,
            why: None,
        }
    }

    /// Whether it is up, and its voice isn't open both ways.
    pub(crate) fn is_muted(&self) -> bool
        ensures { result ≡ is_muted self.now }
    {
        self.is_up && !self.talks
    }

    /// The leg that comes up in this line at this tick. It is muted at first; one that is up stays as it is.
    fn raised(&self, line: u64, now: u64) -> Side
        ensures { result ≡ raised self.now line now }
    {
        if self.is_up {
            return *self;
        }
        Side {
            is_up: true,
            talks: false,
            since: now,
            line,
            came: Some(self.came.unwrap_or(now)),
            went: self.went,
            why: self.why,
        }
    }

    /// The leg that goes down at this tick.
    fn lowered(&self, now: u64, why: Why) -> Side
        ensures { result ≡ lowered self.now now why }
    {
        Side {
            is_up: false,
            talks: self.talks,
            since: self.since,
            line: self.line,
            came: self.came,
            went: Some(self.went.unwrap_or(now)),
            why: Some(self.why.unwrap_or(why)),
        }
    }

    /// The leg whose voice turns so in this line at this tick. A voice that stays as it was goes on, and a leg that isn't up
    /// has none.
    fn turned(&self, line: u64, now: u64, talks: bool) -> Side
        ensures { result ≡ turned self.now line now talks }
    {
        if !self.is_up || self.talks == talks {
            return *self;
        }
        Side {
            is_up: true,
            talks,
            since: now,
            line,
            came: self.came,
            went: self.went,
            why: self.why,
        }
    }

    /// What an item of its leg makes of it.
    pub(crate) fn behind(&self, note: &Note, line: u64, now: u64) -> Side
        ensures { result ≡ side_behind self.now note.now line now }
    {
        match note {
            Note::Up { .. } => self.raised(line, now),
            Note::Down { why, .. } => self.lowered(now, *why),
            Note::Voice { up, down, .. } => self.turned(line, now, *up && *down),
            _ => *self,
        }
    }
}
