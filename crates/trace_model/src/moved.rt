//! Which leg an item moves.

ghost use Rattle.std.specs.Prelude.{◌≡◌};
ghost use Rattle.trace_model.specs.LegsMoved.{IsMoved};

use link_frames::{End, Note};

/// The leg of an end in a call.
#[derive(Clone, Copy, Debug, PartialEq, Eq)]
pub struct LegOf {
    pub of: End,
    pub call: u32,
}

/// The leg that an item raises or ends, or whose voice it turns.
pub fn leg_of(note: &Note) -> Option<LegOf>
    ensures { IsMoved result note.now }
{
    match note {
        Note::Up { end, call } => Some(leg(*end, *call)),
        Note::Down { end, call, .. } => Some(leg(*end, *call)),
        Note::Voice { end, call, .. } => Some(leg(*end, *call)),
        _ => None,
    }
}

fn leg(of: End, call: u32) -> LegOf
    ensures { result ≡ record { of = of; call = call } }
{
    LegOf { of, call }
}
