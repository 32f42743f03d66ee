//! What an item of one end has the other end hear.

ghost use Rattle.std.specs.Prelude.{◌≡◌};
ghost use Rattle.channel_sim.specs.World.{consequence};
ghost use Rattle.channel_sim.specs.inner.Acts.{acts_of};

use link_frames::{End, Note, Why};

/// What an item has the other end hear.
pub(crate) enum Consequence {
    Nothing,
    /// The vehicle let the session of this call go.
    Releases(u32),
    /// The session of this call hung up, or let the vehicle go.
    HangsUp(u32),
}

/// What this item has the other end hear.
pub(crate) fn consequence_of(note: &Note) -> Consequence
    ensures { consequence note.now ≡ acts_of result }
{
    match note {
        Note::Down { end, call, why } => match end {
            End::Vehicle => match why {
                Why::Release => Consequence::Releases(*call),
                Why::Hangup | Why::Lost => Consequence::Nothing,
            },
            End::Point => match why {
                Why::Release | Why::Hangup => Consequence::HangsUp(*call),
                Why::Lost => Consequence::Nothing,
            },
        },
        _ => Consequence::Nothing,
    }
}
