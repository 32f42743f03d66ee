//! The listener of `tones`.

ghost use Rattle.std.specs.Prelude.{◌≡◌};
ghost use Rattle.tones_command.specs.inner.Hearing.{ToneGrew, ToneGrewPartly, frames_name, tone_sink, tone_sink_name};
ghost use Rattle.tones_command.specs.inner.Hearing.{ToneGrew-nothing, ToneGrew-append, ToneGrewPartly-whole, ToneGrewPartly-after, ToneGrewPartly-longer};

use crate::sent::SentFrames;
use call_io::Sink;
use std::alloc::Global;
use trace_model::{Deaf, Entry, Listener};
use trace_text::write_entry;

/// Writes the line of each entry that it hears, and keeps the frames that the entries send.
#[derive(Drop)]
pub(crate) struct ToneOut<'a, O> {
    out: &'a mut O,
    frames: &'a mut SentFrames,
}

impl<'a, O> ToneOut<'a, O> {
    /// Writes to this sink, and keeps the frames among these.
    pub(crate) fn over(out: &'a mut O, frames: &'a mut SentFrames) -> ToneOut<'a, O>
        ensures same_sink { tone_sink_name result ≡ out.entry.ghost_name }
        ensures value { tone_sink result ≡ out.old }
        ensures same_frames { frames_name result ≡ frames.entry.ghost_name }
        ensures frames { result.frames.now ≡ frames.old }
    {
        ToneOut { out, frames }
    }
}

impl<'a, O: Sink> Listener for ToneOut<'a, O> {
    ghost grew = { ToneGrew O.held O.way };

    ghost partly = { ToneGrewPartly O.held O.way };

    ghost faults = { λ to. O.faults (tone_sink to) };

    fn hear(&mut self, alloc: Global, entry: &Entry) -> Result<(), Deaf> {
        match self.frames.keep(alloc, entry) {
            Ok(()) => match write_entry(entry, self.out) {
                Ok(()) => Ok(()),
                Err(_) => Err(Deaf::Write),
            },
            Err(_) => Err(Deaf::Memory),
        }
    }

    ghost unchanged = { ToneGrew-nothing O.held O.way };

    ghost twice = { ToneGrew-append O.held O.way };

    ghost whole = { ToneGrewPartly-whole O.held O.way };

    ghost then_partly = { ToneGrewPartly-after O.held O.way };

    ghost longer = { ToneGrewPartly-longer O.held O.way };
}
