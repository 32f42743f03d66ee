//! What an item of an end gives to send.

ghost use Rattle.std.specs.Prelude.{◌≡◌, [], ◌∷◌, MatchOption};
ghost use Rattle.link_parts.specs.Messages.{part_left, part_of};

use crate::part::Part;
use link_frames::{Note, Why};

/// The part that an item of this end gives to send, if it gives one. `followed` says that the item comes of the other
/// end's having left the call, which that end isn't told again.
pub fn part_of_item(followed: bool, item: &Note) -> Option<Part>
    ensures { MatchOption result (part_of followed item.now ≡ []) (λ part. part_of followed item.now ≡ part ∷ []) }
{
    match item {
        Note::Dial(_) => Some(Part::Dials),
        Note::Send { call, frame, .. } => Some(Part::Carries(*call, *frame)),
        Note::Down { call, why, .. } => left(followed, *call, *why),
        _ => None,
    }
}

/// What an end that left a call gives to send.
fn left(followed: bool, call: u32, why: Why) -> Option<Part>
    ensures { MatchOption result (part_left followed call why ≡ []) (λ part. part_left followed call why ≡ part ∷ []) }
{
    match why {
        Why::Release | Why::Hangup if !followed => Some(Part::Leaves(call)),
        _ => None,
    }
}
