//! The world of a script that is played to its end, of which nobody asks how a session stands.

use crate::channel::{Channel, Passing};
use crate::fault::SimFault;
use crate::happening::happening_of;
use crate::room::Room;
use link_frames::Steps;
use msd_fit::Facts;
use std::alloc::Global;
use std::sync::ledger::Ledger;
use trace_model::{Event, Listener};

/// A world as `World`, in which a session that only talks isn't passed over elapsed time, since it goes on as it is.
/// It lends none of its ends.
#[derive(Drop)]
pub struct Play {
    channel: Channel,
    room: Room,
}

impl Play {
    ghost use Rattle.std.specs.Prelude.{◌≡◌, ◌+◌, ◌^◌, ◌<◌, ◌≤◌, ℕ, OnOk, OnErr, IfErr};
    ghost use Rattle.channel_sim.specs.World as model;
    ghost use Rattle.channel_sim.specs.Lines as lines;
    ghost use Rattle.channel_sim.specs.PlayStands.{CameInPlace, PlayStandsFor, calls_drawn, ticks_reached};
    ghost use Rattle.channel_sim.specs.SimFault.{SimFaultCause};
    ghost use Rattle.channel_sim.specs.WorldStands.{NeedsCall};

    /// The world before anything happened, with a vehicle that knows these facts. It takes no memory.
    pub fn new(alloc: Global, facts: Facts) -> Play
        ensures stands { PlayStandsFor result (model.first_world facts) }
        ensures calls { calls_drawn result ≡ 0 }
        ensures reached { ticks_reached result ≡ 0 }
    {
        Play {
            channel: Channel::new(alloc, facts),
            room: Room::new(alloc),
        }
    }

    /// The tick that the world has reached, in ticks of 100 ms.
    pub fn tick(&self) -> u64
        ensures reached { result ≡ ticks_reached self.now }
        ensures tick { (w : model.World) → PlayStandsFor self.now w → result ≡ w.tick }
    {
        self.channel.tick
    }

    /// What one event line does, as `World::advance`. After a failure the world is spent: its ticks and call numbers
    /// are those in front of the line, and of its ends and calls nothing is known.
    pub fn advance<H: Listener, L: Ledger>(
        &mut self,
        alloc: Global,
        event: &Event,
        to: &mut H,
        moments: &mut Steps<L>,
    ) -> Result<(), SimFault>
        requires calls { NeedsCall event.now → calls_drawn self.old < 4294967295 }
        requires time { (n : ℕ) → event.now ≡ Event.Tick n → ticks_reached self.old + n < 2 ^ 64 }
        ensures step { (w : model.World) → PlayStandsFor self.old w →
            CameInPlace (H.grew to.old to.new) (H.partly to.old to.new) result self.new (lines.step w event.now) }
        ensures calls { (w : model.World) → PlayStandsFor self.old w →
            OnOk result (calls_drawn self.new ≤ calls_drawn self.old + 1) }
        ensures reached { (w : model.World) → PlayStandsFor self.old w →
            OnOk result (ticks_reached self.new ≤ ticks_reached self.old + 4294967295) }
        ensures spent { OnErr result
            ((ticks_reached self.new ≡ ticks_reached self.old) × (calls_drawn self.new ≡ calls_drawn self.old)) }
        ensures stood { OnOk result (H.faults to.new ≡ H.faults to.old) }
        ensures cause { IfErr result (λ e. SimFaultCause e (H.faults to.old) (H.faults to.new)) }
        ensures counted { H.faults to.old ≤ H.faults to.new }
        ensures passes { (w : model.World) → PlayStandsFor self.old w →
            moments.new ≤ moments.old + lines.passes_within w event.now }
    {
        let happening = happening_of(event);
        let (tick, drawn) = (self.channel.tick, self.channel.drawn);
        match self.channel.plays(
            alloc,
            &happening,
            Passing::Waking,
            &mut self.room,
            to,
            moments,
        ) {
            Ok(()) => Ok(()),
            Err(fault) => {
                self.channel.tick = tick;
                self.channel.drawn = drawn;
                Err(fault)
            }
        }
    }
}
