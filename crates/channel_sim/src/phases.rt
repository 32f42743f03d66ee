//! The parts of elapsed time, for what plays several worlds side by side: it says when each part comes.

use crate::calls::Due;
use crate::channel::Passing;
use crate::fault::SimFault;
use crate::world::World;
use link_frames::Steps;
use std::alloc::{AllocError, Global};
use std::sync::ledger::Ledger;
use trace_model::Listener;

impl World {
    ghost use Rattle.std.specs.Prelude.{◌≡◌, ◌+◌, ◌^◌, ◌<◌, ◌≤◌, ◌++◌, ℕ, OnOk, IfErr, map};
    ghost use Rattle.channel_sim.specs.Handing.{due_in_call, due_of, hands_way};
    ghost use Rattle.channel_sim.specs.Lag.{LeastPassed, AreSameBut, CameAt, StandsAt};
    ghost use Rattle.channel_sim.specs.Passes.{passes_of};
    ghost use Rattle.channel_sim.specs.Quiet.{QuietFor};
    ghost use Rattle.channel_sim.specs.SimFault.{CountsFaults};
    ghost use Rattle.channel_sim.specs.World as model;
    ghost use Rattle.channel_sim.specs.WorldStands.{WorldStandsFor, calls_drawn, ticks_reached};

    /// The last call number drawn is this one from now on: those between were drawn elsewhere.
    pub fn draw_on(&mut self, last: u32)
        ensures same { self.new ≡ record self.old { channel = record (self.old.channel) { drawn = last } } }
        ensures stands { (w : model.World) → WorldStandsFor self.old w → w.drawn ≤ last →
            WorldStandsFor self.new (record w { drawn = last }) }
        ensures drawn { calls_drawn self.new ≡ last }
    {
        self.channel.drawn = last;
    }

    /// The tick is this one from now on, and the parts of its unit tick follow.
    pub fn reach(&mut self, tick: u64)
        ensures { self.new ≡ record self.old { channel = record (self.old.channel) { tick = tick } } }
    {
        self.channel.tick = tick;
    }

    /// A tick, at most `end`, up to which no end acts and no frame is handed over: at it one may. An earlier one would
    /// be right too, and cost a look at each tick between.
    pub fn next_tick(&self, end: u64) -> u64
        ensures most { result ≤ end }
        ensures quiet { (floor : LeastPassed) (n : ℕ) (w : model.World) →
            StandsAt (ticks_reached self.now) floor (λ c. ticks_reached self.now) self.now.channel w →
            ticks_reached self.now + n < result → QuietFor n w }
    {
        self.channel.next_tick(&self.room.near, end)
    }

    /// The vehicle's unit tick.
    pub fn vehicle_turn<H: Listener, L: Ledger>(
        &mut self,
        alloc: Global,
        to: &mut H,
        moments: &mut Steps<L>,
    ) -> Result<(), SimFault>
        ensures step { (floor : LeastPassed) (before : ℕ) (w : model.World) →
            StandsAt before floor (λ c. before) self.old.channel w →
            before + 1 ≡ ticks_reached self.old →
            CameAt (H.grew to.old to.new) (H.partly to.old to.new) result (ticks_reached self.old) floor (λ c. before)
            self.new.channel (model.vehicle_passes w) }
        ensures tick { ticks_reached self.new ≡ ticks_reached self.old }
        ensures faults { CountsFaults result (H.faults to.old) (H.faults to.new) }
        ensures passes { (floor : LeastPassed) (before : ℕ) (w : model.World) →
            StandsAt before floor (λ c. before) self.old.channel w → before + 1 ≡ ticks_reached self.old →
            ticks_reached self.old < floor.waking + 2 ^ 32 →
            moments.new ≤ moments.old + passes_of (model.vehicle_passes w) }
    {
        self.channel
            .vehicle_passes(alloc, &mut self.room.given, to, moments)
    }

    /// The unit tick of the session of a call.
    pub fn session_turn<H: Listener, L: Ledger>(
        &mut self,
        alloc: Global,
        number: u32,
        to: &mut H,
        moments: &mut Steps<L>,
    ) -> Result<(), SimFault>
        ensures step { (ahead : ℕ) (floor : LeastPassed) (before after : ℕ → ℕ) (w : model.World) →
            StandsAt ahead floor before self.old.channel w →
            ahead ≡ ticks_reached self.old → before number + 1 ≡ ahead → after number ≡ ahead →
            AreSameBut number before after →
            CameAt (H.grew to.old to.new) (H.partly to.old to.new) result ahead floor after self.new.channel
            (model.session_passes number w) }
        ensures tick { ticks_reached self.new ≡ ticks_reached self.old }
        ensures faults { CountsFaults result (H.faults to.old) (H.faults to.new) }
        ensures passes { (ahead : ℕ) (floor : LeastPassed) (before after : ℕ → ℕ) (w : model.World) →
            StandsAt ahead floor before self.old.channel w →
            ahead ≡ ticks_reached self.old → before number + 1 ≡ ahead → after number ≡ ahead →
            AreSameBut number before after → ticks_reached self.old < floor.waking + 2 ^ 32 →
            moments.new ≤ moments.old + passes_of (model.session_passes number w) }
    {
        self.channel
            .session_passes(alloc, number, &mut self.room.given, to, moments)
    }

    /// Adds the frames of a call that its flow up, or down, hands over at this tick.
    pub fn list_due(&mut self, number: u32, up: bool, due: &mut Vec<Due>) -> Result<(), AllocError>
        ensures same { self.new.channel ≡ self.old.channel }
        ensures due { (ahead : ℕ) (floor : LeastPassed) (clock : ℕ → ℕ) (w : model.World) →
            StandsAt ahead floor clock self.old.channel w → OnOk result
            (map due_of due.new.items ≡ map due_of due.old.items ++ due_in_call up number w) }
    {
        self.channel.call_due(number, up, due)
    }

    /// Hands a frame that is due to the point's session of its call, or to the vehicle, if that end is in this call.
    pub fn hand<H: Listener, L: Ledger>(
        &mut self,
        alloc: Global,
        up: bool,
        due: &Due,
        to: &mut H,
        moments: &mut Steps<L>,
    ) -> Result<(), SimFault>
        ensures step { (ahead : ℕ) (floor : LeastPassed) (w : model.World) →
            StandsAt ahead floor (λ c. ahead) self.old.channel w → ahead ≡ ticks_reached self.old →
            CameAt (H.grew to.old to.new) (H.partly to.old to.new) result ahead floor (λ c. ahead) self.new.channel
            (hands_way up (due_of due.now) w) }
        ensures tick { ticks_reached self.new ≡ ticks_reached self.old }
        ensures faults { CountsFaults result (H.faults to.old) (H.faults to.new) }
        ensures passes { (ahead : ℕ) (floor : LeastPassed) (w : model.World) →
            StandsAt ahead floor (λ c. ahead) self.old.channel w → ahead ≡ ticks_reached self.old →
            ticks_reached self.old < floor.waking + 2 ^ 32 →
            moments.new ≤ moments.old + passes_of (hands_way up (due_of due.now) w) }
    {
        self.channel
            .hand(alloc, up, due, &mut self.room.given, to, moments)
    }

    /// Passes each end that lags up to this tick: from now on the world stands as between lines.
    pub fn catch_all_up<L: Ledger>(&mut self, moments: &mut Steps<L>)
        ensures stands { (floor : LeastPassed) (w : model.World) →
            StandsAt (ticks_reached self.old) floor (λ c. ticks_reached self.old) self.old.channel w →
            WorldStandsFor self.new w }
        ensures tick { ticks_reached self.new ≡ ticks_reached self.old }
        ensures passes { (floor : LeastPassed) (w : model.World) →
            StandsAt (ticks_reached self.old) floor (λ c. ticks_reached self.old) self.old.channel w →
            ticks_reached self.old < floor.waking + 2 ^ 32 → ticks_reached self.old < floor.settled + 2 ^ 32 →
            moments.new ≤ moments.old + model.ends w }
    {
        self.channel
            .catch_up(Passing::All, &mut self.room.given.own, moments);
    }
}
