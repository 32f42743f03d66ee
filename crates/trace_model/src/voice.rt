//! The voice of a leg that is up, and what an item does to it.

ghost use Rattle.std.specs.Prelude.{◌≡◌};
ghost use Rattle.trace_model.specs.LegsMoved.{raised, turned, voice_behind};
ghost use Rattle.trace_model.specs.inner.Mutings.{is_muted_since};

use link_frames::Note;

/// The voice of a leg that is up: whether it is open both ways, and the tick at which this stretch of an open or a
/// muted voice began.
#[derive(Clone, Copy, Debug, PartialEq, Eq)]
pub struct Voice {
    pub talks: bool,
    pub since: u64,
}

/// What an item of its leg makes of a voice at this tick; None is a leg that isn't up.
pub(crate) fn behind(voice: Option<Voice>, note: &Note, now: u64) -> Option<Voice>
    ensures { result ≡ voice_behind voice note.now now }
{
    match note {
        Note::Up { .. } => Some(raise(voice, now)),
        Note::Down { .. } => None,
        Note::Voice { up, down, .. } => turn(voice, *up && *down, now),
        _ => voice,
    }
}

fn raise(voice: Option<Voice>, now: u64) -> Voice
    ensures { result ≡ raised voice now }
{
    match voice {
        Some(voice) => voice,
        None => Voice {
            talks: false,
            since: now,
        },
    }
}

fn turn(voice: Option<Voice>, talks: bool, now: u64) -> Option<Voice>
    ensures { result ≡ turned voice talks now }
{
    let voice = voice?;
    if voice.talks == talks {
        Some(voice)
    } else {
        Some(Voice { talks, since: now })
    }
}

/// Whether this voice is muted since this tick.
pub(crate) fn is_muted(voice: Option<Voice>, since: u64) -> bool
    ensures { result ≡ is_muted_since voice since }
{
    match voice {
        Some(voice) => !voice.talks && voice.since == since,
        None => false,
    }
}
