//! The world, and what one event line does in it.

use crate::calls::find;
use crate::channel::{Channel, Passing};
use crate::fault::SimFault;
use crate::happening::happening_of;
use crate::room::Room;
use ivs_machine::Ivs;
use link_frames::Steps;
use msd_fit::Facts;
use psap_machine::Session;
use std::alloc::Global;
use std::sync::ledger::Ledger;
use trace_model::{Event, Listener};

/// A vehicle, the calls with a leg up, and all that was ever sent in them.
#[derive(Drop)]
pub struct World {
    pub(crate) channel: Channel,
    pub(crate) room: Room,
}

impl World {
    ghost use Rattle.std.specs.Prelude.{◌≡◌, ◌+◌, ◌^◌, ◌<◌, ◌≤◌, ℕ, OnOk, OnErr, IfOk, IfErr, ◌++◌, List};
    ghost use Rattle.std.specs.Option.{option_copied};
    ghost use Rattle.ivs_machine.specs.IvsStands.{IvsStandsFor};
    ghost use Rattle.ivs_machine.specs.Vehicle.{vehicle_call};
    ghost use Rattle.trace_model.specs.declared.entry.Entry.{Entry};
    ghost use Rattle.channel_sim.specs.Fit.{Fit};
    ghost use Rattle.channel_sim.specs.World as model;
    ghost use Rattle.channel_sim.specs.Lines as lines;
    ghost use Rattle.channel_sim.specs.SimFault.{SimFaultCause};
    ghost use Rattle.channel_sim.specs.WorldStands.{WorldStandsFor, CameTo, CameInPlace, FoundStandsFor, NeedsCall, calls_drawn, ticks_reached};

    /// The world before anything happened, with a vehicle that knows these facts. It takes no memory.
    pub fn new(alloc: Global, facts: Facts) -> World
        ensures stands { WorldStandsFor result (model.first_world facts) }
        ensures calls { calls_drawn result ≡ 0 }
        ensures reached { ticks_reached result ≡ 0 }
    {
        World {
            channel: Channel::new(alloc, facts),
            room: Room::new(alloc),
        }
    }

    /// The tick that the world has reached, in ticks of 100 ms.
    pub fn tick(&self) -> u64
        ensures reached { result ≡ ticks_reached self.now }
        ensures tick { (w : model.World) → WorldStandsFor self.now w → result ≡ w.tick }
    {
        self.channel.tick
    }

    /// The last call number drawn, and 0 before the first.
    pub fn calls(&self) -> u32
        ensures drawn { result ≡ calls_drawn self.now }
        ensures calls { (w : model.World) → WorldStandsFor self.now w → result ≡ w.drawn }
    {
        self.channel.drawn
    }

    /// The number of the call that the vehicle is in; `None` exactly where it is in none.
    pub fn vehicle_call(&self) -> Option<u32>
        ensures { (w : model.World) → WorldStandsFor self.now w → result ≡ vehicle_call w.vehicle }
    {
        self.channel.vehicle.call()
    }

    /// The world's vehicle.
    pub fn vehicle(&self) -> &Ivs
        ensures { (w : model.World) → WorldStandsFor self.now w → IvsStandsFor result.now w.vehicle }
    {
        self.channel.vehicle.ivs()
    }

    /// The world's session of a call; `None` exactly where there is none.
    pub fn session(&self, call: u32) -> Option<&Session>
        ensures { (w : model.World) → WorldStandsFor self.now w →
            FoundStandsFor (option_copied result) (model.session_of call w.calls) }
    {
        let calls = self.channel.calls.all();
        let i = find(calls, call)?;
        calls[i].session.session()
    }

    /// What one event line does: the listener hears each entry of the step, in order. After a failure the world is
    /// spent.
    pub fn step<H: Listener, L: Ledger>(
        mut self,
        alloc: Global,
        event: &Event,
        to: &mut H,
        moments: &mut Steps<L>,
    ) -> Result<World, SimFault>
        requires calls { NeedsCall event.now → calls_drawn self < 4294967295 }
        requires time { (n : ℕ) → event.now ≡ Event.Tick n → ticks_reached self + n < 2 ^ 64 }
        ensures step { (w : model.World) → WorldStandsFor self w →
            CameTo (H.grew to.old to.new) (H.partly to.old to.new) result (lines.step w event.now) }
        // Where the entries so far fit the world before the step, those of the step behind them fit the world behind
        // it.
        ensures fits { (w : model.World) (entries : List Entry) → WorldStandsFor self w → Fit w entries →
            OnOk result (Fit (lines.step w event.now).world (entries ++ (lines.step w event.now).entries)) }
        ensures calls { (w : model.World) → WorldStandsFor self w →
            IfOk result (λ kept. calls_drawn kept ≤ calls_drawn self + 1) }
        ensures reached { (w : model.World) → WorldStandsFor self w →
            IfOk result (λ kept. ticks_reached kept ≤ ticks_reached self + 4294967295) }
        ensures stood { OnOk result (H.faults to.new ≡ H.faults to.old) }
        ensures cause { IfErr result (λ e. SimFaultCause e (H.faults to.old) (H.faults to.new)) }
        ensures counted { H.faults to.old ≤ H.faults to.new }
        ensures passes { (w : model.World) → WorldStandsFor self w →
            moments.new ≤ moments.old + lines.passes_within w event.now }
    {
        self.advance(alloc, event, to, moments)?;
        Ok(self)
    }

    /// As `step`, in place. After a failure the world is spent: its ticks and call numbers are those in front of the
    /// line, and of its ends and calls nothing is known.
    pub fn advance<H: Listener, L: Ledger>(
        &mut self,
        alloc: Global,
        event: &Event,
        to: &mut H,
        moments: &mut Steps<L>,
    ) -> Result<(), SimFault>
        requires calls { NeedsCall event.now → calls_drawn self.old < 4294967295 }
        requires time { (n : ℕ) → event.now ≡ Event.Tick n → ticks_reached self.old + n < 2 ^ 64 }
        ensures step { (w : model.World) → WorldStandsFor self.old w →
            CameInPlace (H.grew to.old to.new) (H.partly to.old to.new) result self.new (lines.step w event.now) }
        ensures fits { (w : model.World) (entries : List Entry) → WorldStandsFor self.old w → Fit w entries →
            OnOk result (Fit (lines.step w event.now).world (entries ++ (lines.step w event.now).entries)) }
        ensures calls { (w : model.World) → WorldStandsFor self.old w →
            OnOk result (calls_drawn self.new ≤ calls_drawn self.old + 1) }
        ensures reached { (w : model.World) → WorldStandsFor self.old w →
            OnOk result (ticks_reached self.new ≤ ticks_reached self.old + 4294967295) }
        ensures spent { OnErr result
            ((ticks_reached self.new ≡ ticks_reached self.old) × (calls_drawn self.new ≡ calls_drawn self.old)) }
        ensures stood { OnOk result (H.faults to.new ≡ H.faults to.old) }
        ensures cause { IfErr result (λ e. SimFaultCause e (H.faults to.old) (H.faults to.new)) }
        ensures counted { H.faults to.old ≤ H.faults to.new }
        ensures passes { (w : model.World) → WorldStandsFor self.old w →
            moments.new ≤ moments.old + lines.passes_within w event.now }
    {
        let happening = happening_of(event);
        let (tick, drawn) = (self.channel.tick, self.channel.drawn);
        match self.channel.plays(alloc, &happening, Passing::All, &mut self.room, to, moments) {
            Ok(()) => Ok(()),
            Err(fault) => {
                self.channel.tick = tick;
                self.channel.drawn = drawn;
                Err(fault)
            }
        }
    }
}
