//! The listener that writes the entries of the world, and between them the items of the relay desk.

ghost use Rattle.std.specs.Prelude.{◌≡◌, ◌≤◌, [], ◌∷◌, ◌-◌, OnOk, OnErr, IfErr};
ghost use Rattle.trace_model.specs.Listener.{DeafCause};
ghost use Rattle.relay_watch.specs.Watching.{WatchGrew, WatchGrewPartly, desk_in, sink};
ghost use Rattle.relay_watch.specs.inner.WatchLaws.{WatchGrew-append, WatchGrew-nothing, WatchGrewPartly-after, WatchGrewPartly-longer, WatchGrewPartly-whole};

use crate::clock::DeskClock;
use call_io::Sink;
use std::alloc::Global;
use trace_model::{Deaf, Entry, Listener};

/// Writes the line of each entry that it hears to a sink that it borrows, behind the items of the desk before that
/// entry's tick. The desk hears of each set that is shown.
#[derive(Drop)]
pub struct Watch<'a, O> {
    out: &'a mut O,
    desk: &'a mut DeskClock,
}

impl<'a, O> Watch<'a, O> {
    /// Writes to this sink, with this desk.
    pub fn over(out: &'a mut O, desk: &'a mut DeskClock) -> Watch<'a, O>
        ensures same_sink { result.out.ghost_name ≡ out.entry.ghost_name }
        ensures same_desk { result.desk.ghost_name ≡ desk.entry.ghost_name }
        ensures sink { sink result ≡ out.old }
        ensures desk { desk_in result ≡ desk.old }
    {
        Watch { out, desk }
    }
}

impl<'a, O: Sink> Listener for Watch<'a, O> {
    ghost grew = { WatchGrew O.held O.way };

    ghost partly = { WatchGrewPartly O.held O.way };

    ghost faults = { λ to. O.faults (sink to) };

    fn hear(&mut self, alloc: Global, entry: &Entry) -> Result<(), Deaf>
        ensures ok { OnOk result (WatchGrew O.held O.way self.old self.new (entry.now ∷ [])) }
        ensures err { OnErr result (WatchGrewPartly O.held O.way self.old self.new (entry.now ∷ [])) }
        ensures stood { OnOk result (O.faults (sink self.new) ≡ O.faults (sink self.old)) }
        ensures cause { IfErr result (λ e. DeafCause e (O.faults (sink self.old)) (O.faults (sink self.new))) }
        ensures counted { O.faults (sink self.old) ≤ O.faults (sink self.new) }
    {
        self.desk.meet(alloc, entry, self.out)
    }

    ghost unchanged = { WatchGrew-nothing O.held O.way };

    ghost twice = { WatchGrew-append O.held O.way };

    ghost whole = { WatchGrewPartly-whole O.held O.way };

    ghost then_partly = { WatchGrewPartly-after O.held O.way };

    ghost longer = { WatchGrewPartly-longer O.held O.way };
}
