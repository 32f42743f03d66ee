//! The listener that writes each entry's line.
ghost use Rattle.std.specs.Prelude.{◌≡◌, ◌≤◌, [], ◌∷◌, OnOk, OnErr, IfErr};
ghost use Rattle.trace_model.specs.Listener.{DeafCause};
ghost use Rattle.trace_text.specs.TextListener.{sink, sink_name, TextGrew, TextGrewPartly};
ghost use Rattle.trace_text.specs.inner.TextListenerLaws.{TextGrew-nothing, TextGrew-append, TextGrewPartly-whole, TextGrewPartly-after, TextGrewPartly-longer};

use crate::write::write_item;
use call_io::Sink;
use link_frames::Note;
use std::alloc::Global;
use trace_model::{Deaf, Entry, Listener};

/// Writes the line of each entry that it hears to a sink that it borrows. It keeps nothing and takes no memory.
#[derive(Drop)]
pub struct TextOut<'a, O> {
    out: &'a mut O,
}

impl<'a, O> TextOut<'a, O> {
    /// Writes to this sink.
    pub fn over(out: &'a mut O) -> TextOut<'a, O>
        ensures same_sink { sink_name result ≡ out.entry.ghost_name }
        ensures value { sink result ≡ out.old }
    {
        TextOut { out }
    }
}

impl<'a, O: Sink> Listener for TextOut<'a, O> {
    ghost grew = { TextGrew O.held O.way };

    ghost partly = { TextGrewPartly O.held O.way };

    ghost faults = { λ to. O.faults (sink to) };

    fn hear(&mut self, alloc: Global, entry: &Entry) -> Result<(), Deaf>
        ensures ok { OnOk result (TextGrew O.held O.way self.old self.new (entry.now ∷ [])) }
        ensures err { OnErr result (TextGrewPartly O.held O.way self.old self.new (entry.now ∷ [])) }
        ensures write { IfErr result (λ e. e ≡ Deaf.Write) }
        ensures stood { OnOk result (O.faults (sink self.new) ≡ O.faults (sink self.old)) }
        ensures cause { IfErr result (λ e. DeafCause e (O.faults (sink self.old)) (O.faults (sink self.new))) }
        ensures counted { O.faults (sink self.old) ≤ O.faults (sink self.new) }
    {
        self.hear_item(alloc, entry.tick, &entry.note)
    }

    fn hear_item(&mut self, _alloc: Global, tick: u64, item: &Note) -> Result<(), Deaf>
        ensures ok { OnOk result
            (TextGrew O.held O.way self.old self.new (record { tick = tick; note = item.now } ∷ [])) }
        ensures err { OnErr result
            (TextGrewPartly O.held O.way self.old self.new (record { tick = tick; note = item.now } ∷ [])) }
        ensures write { IfErr result (λ e. e ≡ Deaf.Write) }
        ensures stood { OnOk result (O.faults (sink self.new) ≡ O.faults (sink self.old)) }
        ensures cause { IfErr result (λ e. DeafCause e (O.faults (sink self.old)) (O.faults (sink self.new))) }
        ensures counted { O.faults (sink self.old) ≤ O.faults (sink self.new) }
    {
        match write_item(tick, item, self.out) {
            Ok(()) => Ok(()),
            Err(_) => Err(Deaf::Write),
        }
    }

    ghost unchanged = { TextGrew-nothing O.held O.way };

    ghost twice = { TextGrew-append O.held O.way };

    ghost whole = { TextGrewPartly-whole O.held O.way };

    ghost then_partly = { TextGrewPartly-after O.held O.way };

    ghost longer = { TextGrewPartly-longer O.held O.way };
}
