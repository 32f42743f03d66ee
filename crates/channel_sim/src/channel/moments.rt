//! Elapsed time: from one tick at which something happens to the next.
ghost use Rattle.std.specs.Prelude.{◌≡◌, ◌≤◌, ◌+◌, ◌-◌, ◌^◌, ◌<◌, ℕ, Some, None, IfSome};

use super::{Channel, Passing};
use crate::calls::{act_session, catch_up};
use crate::fault::SimFault;
use crate::quiet::vehicle_due_at;
use crate::room::{Given, Nears, Room};
use link_frames::{Items, Steps};
use std::alloc::Global;
use std::sync::ledger::Ledger;
use trace_model::Listener;

/// The tick at which an end acts that was passed up to here; at most `end`.
fn acts_at(passed: u64, due: Option<u32>, end: u64) -> u64
    ensures most { result ≤ end }
    ensures due { IfSome due (λ d. result ≤ passed + d) }
{
    match due {
        Some(ticks) => passed.saturating_add(u64::from(ticks)).min(end),
        None => end,
    }
}

/// The next ticks at which an end acts, and at which frames are handed over, up and down.
#[derive(Drop)]
struct Next {
    acts: u64,
    up: u64,
    down: u64,
}

/// The first of these ticks.
fn first_of(next: &Next) -> u64
    ensures acts { result ≤ next.now.acts }
    ensures up { result ≤ next.now.up }
    ensures down { result ≤ next.now.down }
{
    next.acts.min(next.up).min(next.down)
}

impl Channel {
    ghost use Rattle.std.specs.Option.{is_some};
    ghost use Rattle.ivs_machine.specs.IvsStands.{IvsStandsFor};
    ghost use Rattle.ivs_machine.specs.Vehicle.{Vehicle};
    ghost use Rattle.ivs_machine.specs.VehicleRows as vehicle;
    ghost use Rattle.channel_sim.specs.Lag.{LeastPassed, VehicleLags, AreSameBut, CameAt, CameNow, StandsAt, StandsNow};
    ghost use Rattle.std.specs.Prelude.{true, false, IfSome, ◌≡◌, ◌+◌, ◌-◌, ◌^◌, ◌<◌, ◌≤◌, ℕ, List, [], ◌∷◌, Some, None, map, OnOk, OnErr, IfOk, IfErr, length};
    ghost use Rattle.channel_sim.specs.World as model;
    ghost use Rattle.channel_sim.specs.SimFault.{CountsFaults};
    ghost use Rattle.channel_sim.specs.inner.Acts.{flows_by};
    ghost use Rattle.channel_sim.specs.inner.Happenings.{IfAll, IfWaking, settled_by};
    ghost use Rattle.channel_sim.specs.Quiet.{QuietFor, EndsRest, UpRests, DownRests};
    ghost use Rattle.channel_sim.specs.Passes.{passes_of};

    /// Passes the vehicle up to this tick, up to which it does nothing. `items` is room.
    pub(super) fn catch_vehicle_up<L: Ledger>(&mut self, items: &mut Items, moments: &mut Steps<L>)
        ensures same { self.new ≡ record self.old { vehicle = self.new.vehicle; passed = self.old.tick } }
        ensures caught { (ahead : ℕ) (floor : LeastPassed) (clock : ℕ → ℕ) (w : model.World) →
            StandsAt ahead floor clock self.old w →
            ahead ≡ self.old.tick → StandsAt ahead floor clock self.new w }
        ensures passes { (ahead : ℕ) (floor : LeastPassed) (clock : ℕ → ℕ) (w : model.World) →
            StandsAt ahead floor clock self.old w →
            ahead ≡ self.old.tick → self.old.tick < floor.waking + 2 ^ 32 → moments.new ≤ moments.old + 1 }
        ensures still { self.old.passed ≡ self.old.tick → moments.new ≡ moments.old }
    {
        let lag = self.tick.saturating_sub(self.passed);
        self.vehicle.pass_quietly(lag, items, moments);
        self.passed = self.tick;
    }

    /// The next ticks at which something happens, each at most `end`.
    #[inline(always)]
    fn next_moment(&self, near: &Nears, end: u64) -> Next
        ensures most { result.acts ≤ end }
        ensures acts { (floor : LeastPassed) (n : ℕ) (w : model.World) →
            StandsAt self.now.tick floor (λ c. self.now.tick) self.now w →
            self.now.tick + n < result.acts → EndsRest n w }
        ensures up { (floor : LeastPassed) (n : ℕ) (w : model.World) →
            StandsAt self.now.tick floor (λ c. self.now.tick) self.now w →
            self.now.tick + n < result.up → UpRests n w }
        ensures down { (floor : LeastPassed) (n : ℕ) (w : model.World) →
            StandsAt self.now.tick floor (λ c. self.now.tick) self.now w →
            self.now.tick + n < result.down → DownRests n w }
    {
        let due = acts_at(self.passed, self.vehicle.due(), end);
        Next {
            acts: self.calls.act_at(due),
            up: self
                .calls
                .hand_at(true, self.up_flow, self.tick, near.up.sending, end),
            down: self
                .calls
                .hand_at(false, self.down_flow, self.tick, near.down.sending, end),
        }
    }

    /// The next tick at which something happens; at most `end`.
    pub(crate) fn next_tick(&self, near: &Nears, end: u64) -> u64
        ensures most { result ≤ end }
        ensures quiet { (floor : LeastPassed) (n : ℕ) (w : model.World) →
            StandsAt self.now.tick floor (λ c. self.now.tick) self.now w →
            self.now.tick + n < result → QuietFor n w }
    {
        first_of(&self.next_moment(near, end))
    }

    /// Passes the vehicle up to this tick, if it does something at it: whether it did.
    fn vehicle_act<L: Ledger>(&mut self, items: &mut Items, moments: &mut Steps<L>) -> bool
        ensures same { self.new ≡ record self.old { vehicle = self.new.vehicle; passed = self.new.passed } }
        ensures some { result ≡ true → self.new.passed ≡ self.old.tick }
        ensures none { result ≡ false → (self.new ≡ self.old) × (moments.new ≡ moments.old) }
        ensures acts { (before : ℕ) (v : Vehicle) → VehicleLags (before - self.old.passed) self.old.vehicle v →
            self.old.passed ≤ before → before + 1 ≡ self.old.tick → result ≡ true →
            (items.new.items ≡ (vehicle.unit_row v).items)
            × IvsStandsFor self.new.vehicle (vehicle.unit_row v).new }
        ensures rests { (before : ℕ) (v : Vehicle) → VehicleLags (before - self.old.passed) self.old.vehicle v →
            self.old.passed ≤ before → before + 1 ≡ self.old.tick → result ≡ false →
            IfSome (vehicle.due_of v) (λ due. 1 < due)
            × VehicleLags (self.old.tick - self.old.passed) self.old.vehicle (vehicle.aged 1 v) }
        ensures passes { (n : ℕ) (v : Vehicle) → VehicleLags n self.old.vehicle v → result ≡ true →
            moments.new ≤ moments.old + length items.new.items }
    {
        match vehicle_due_at(&self.vehicle, self.tick.saturating_sub(self.passed)) {
            Some(due) => {
                self.passed = self.tick;
                self.vehicle.pass_into(due, moments, items);
                true
            }
            None => false,
        }
    }

    /// The vehicle's unit tick.
    pub(crate) fn vehicle_passes<H: Listener, L: Ledger>(
        &mut self,
        alloc: Global,
        given: &mut Given,
        to: &mut H,
        moments: &mut Steps<L>,
    ) -> Result<(), SimFault>
        ensures step { (floor : LeastPassed) (before : ℕ) (w : model.World) →
            StandsAt before floor (λ c. before) self.old w →
            before + 1 ≡ self.old.tick →
            CameAt (H.grew to.old to.new) (H.partly to.old to.new) result self.old.tick floor (λ c. before) self.new
            (model.vehicle_passes w) }
        ensures tick { self.new.tick ≡ self.old.tick }
        ensures faults { CountsFaults result (H.faults to.old) (H.faults to.new) }
        ensures passes { (floor : LeastPassed) (before : ℕ) (w : model.World) →
            StandsAt before floor (λ c. before) self.old w →
            before + 1 ≡ self.old.tick → self.old.tick < floor.waking + 2 ^ 32 →
            moments.new ≤ moments.old + passes_of (model.vehicle_passes w) }
    {
        let call = self.vehicle.call();
        if self.vehicle_act(&mut given.own, moments) {
            let items = given.own.as_slice();
            self.settles(alloc, items, &mut given.other, call, to, moments)
        } else {
            Ok(())
        }
    }

    /// The unit tick of the session of a call.
    pub(crate) fn session_passes<H: Listener, L: Ledger>(
        &mut self,
        alloc: Global,
        number: u32,
        given: &mut Given,
        to: &mut H,
        moments: &mut Steps<L>,
    ) -> Result<(), SimFault>
        ensures step { (ahead : ℕ) (floor : LeastPassed) (before after : ℕ → ℕ) (w : model.World) →
            StandsAt ahead floor before self.old w →
            ahead ≡ self.old.tick → before number + 1 ≡ ahead → after number ≡ ahead → AreSameBut number before after →
            CameAt (H.grew to.old to.new) (H.partly to.old to.new) result ahead floor after self.new
            (model.session_passes number w) }
        ensures tick { self.new.tick ≡ self.old.tick }
        ensures faults { CountsFaults result (H.faults to.old) (H.faults to.new) }
        ensures passes { (ahead : ℕ) (floor : LeastPassed) (before after : ℕ → ℕ) (w : model.World) →
            StandsAt ahead floor before self.old w →
            ahead ≡ self.old.tick → before number + 1 ≡ ahead → after number ≡ ahead → AreSameBut number before after →
            self.old.tick < floor.waking + 2 ^ 32 → moments.new ≤ moments.old + passes_of
            (model.session_passes number w) }
    {
        if act_session(&mut self.calls, number, self.tick, &mut given.own, moments)? {
            let items = given.own.as_slice();
            self.settles(alloc, items, &mut given.other, Some(number), to, moments)
        } else {
            Ok(())
        }
    }

    /// The unit tick of each session, by call.
    fn sessions_pass<H: Listener, L: Ledger>(
        &mut self,
        alloc: Global,
        given: &mut Given,
        to: &mut H,
        moments: &mut Steps<L>,
    ) -> Result<(), SimFault>
        ensures step { (ahead : ℕ) (floor : LeastPassed) (before : ℕ) (w : model.World) →
            StandsAt ahead floor (λ c. before) self.old w →
            ahead ≡ self.old.tick → before + 1 ≡ ahead →
            CameAt (H.grew to.old to.new) (H.partly to.old to.new) result ahead floor (λ c. ahead) self.new
            (model.sessions_pass w) }
        ensures tick { self.new.tick ≡ self.old.tick }
        ensures faults { CountsFaults result (H.faults to.old) (H.faults to.new) }
        ensures passes { (ahead : ℕ) (floor : LeastPassed) (before : ℕ) (w : model.World) →
            StandsAt ahead floor (λ c. before) self.old w →
            ahead ≡ self.old.tick → before + 1 ≡ ahead → self.old.tick < floor.waking + 2 ^ 32 →
            moments.new ≤ moments.old + passes_of (model.sessions_pass w) }
    {
        let mut from = 0;
        while let Some(number) = self.calls.next_acting(from, self.tick) {
            self.session_passes(alloc, number, given, to, moments)?;
            from = u64::from(number) + 1;
        }
        Ok(())
    }

    /// The unit tick of the vehicle, and then of each session, unless the next of them acts after this tick.
    fn ends_from<H: Listener, L: Ledger>(
        &mut self,
        alloc: Global,
        next: u64,
        room: &mut Room,
        to: &mut H,
        moments: &mut Steps<L>,
    ) -> Result<(), SimFault>
        ensures step { (floor : LeastPassed) (before : ℕ) (w : model.World) →
            StandsAt before floor (λ c. before) self.old w →
            before + 1 ≡ self.old.tick → (self.old.tick < next → EndsRest 1 w) →
            CameAt (H.grew to.old to.new) (H.partly to.old to.new) result self.old.tick floor (λ c. self.old.tick)
            self.new (model.and_then (model.vehicle_passes w) model.sessions_pass) }
        ensures tick { self.new.tick ≡ self.old.tick }
        ensures faults { CountsFaults result (H.faults to.old) (H.faults to.new) }
        ensures passes { (floor : LeastPassed) (before : ℕ) (w : model.World) →
            StandsAt before floor (λ c. before) self.old w →
            before + 1 ≡ self.old.tick → self.old.tick < floor.waking + 2 ^ 32 →
            moments.new ≤ moments.old + passes_of (model.and_then (model.vehicle_passes w) model.sessions_pass) }
    {
        if next > self.tick {
            return Ok(());
        }
        self.vehicle_passes(alloc, &mut room.given, to, moments)?;
        self.sessions_pass(alloc, &mut room.given, to, moments)
    }

    /// Hands over what was sent up, or down, so many ticks ago, unless the next frame comes after this tick.
    #[inline]
    fn flows_from<H: Listener, L: Ledger>(
        &mut self,
        alloc: Global,
        up: bool,
        next: u64,
        room: &mut Room,
        to: &mut H,
        moments: &mut Steps<L>,
    ) -> Result<(), SimFault>
        ensures step { (ahead : ℕ) (floor : LeastPassed) (w : model.World) →
            StandsAt ahead floor (λ c. ahead) self.old w →
            ahead ≡ self.old.tick → (self.old.tick < next → flows_by up w ≡ model.quiet_step w) →
            CameAt (H.grew to.old to.new) (H.partly to.old to.new) result ahead floor (λ c. ahead) self.new
            (flows_by up w) }
        ensures tick { self.new.tick ≡ self.old.tick }
        ensures faults { CountsFaults result (H.faults to.old) (H.faults to.new) }
        ensures passes { (ahead : ℕ) (floor : LeastPassed) (w : model.World) →
            StandsAt ahead floor (λ c. ahead) self.old w →
            ahead ≡ self.old.tick → self.old.tick < floor.waking + 2 ^ 32 →
            moments.new ≤ moments.old + passes_of (flows_by up w) }
    {
        if self.tick < next {
            return Ok(());
        }
        self.flows(alloc, up, room, to, moments)
    }

    /// The world jumps to this tick: nothing happens before it, and then its unit tick is played.
    fn moment<H: Listener, L: Ledger>(
        &mut self,
        alloc: Global,
        tick: u64,
        next: &Next,
        room: &mut Room,
        to: &mut H,
        moments: &mut Steps<L>,
    ) -> Result<(), SimFault>
        ensures step { (floor : LeastPassed) (n : ℕ) (w : model.World) →
            StandsAt self.old.tick floor (λ c. self.old.tick) self.old w →
            self.old.tick + n + 1 ≡ tick → QuietFor n w →
            (tick < next.now.acts → EndsRest (n + 1) w) → (tick < next.now.up → UpRests (n + 1) w) →
            (tick < next.now.down → DownRests (n + 1) w) →
            CameAt (H.grew to.old to.new) (H.partly to.old to.new) result tick floor (λ c. tick) self.new
            (model.units (n + 1) w) }
        ensures tick { self.new.tick ≡ tick }
        ensures faults { CountsFaults result (H.faults to.old) (H.faults to.new) }
        ensures passes { (floor : LeastPassed) (n : ℕ) (w : model.World) → StandsAt self.old.tick floor
            (λ c. self.old.tick) self.old w →
            self.old.tick + n + 1 ≡ tick → QuietFor n w →
            (tick < next.now.acts → EndsRest (n + 1) w) → (tick < next.now.up → UpRests (n + 1) w) →
            (tick < next.now.down → DownRests (n + 1) w) →
            tick < floor.waking + 2 ^ 32 → moments.new ≤ moments.old + passes_of (model.units (n + 1) w) }
    {
        self.tick = tick;
        self.ends_from(alloc, next.acts, room, to, moments)?;
        self.flows_from(alloc, true, next.up, room, to, moments)?;
        self.flows_from(alloc, false, next.down, room, to, moments)
    }

    /// Passes the ends that lag up to this tick: all, or those that are not settled. `items` is room.
    #[inline]
    pub(crate) fn catch_up<L: Ledger>(
        &mut self,
        passing: Passing,
        items: &mut Items,
        moments: &mut Steps<L>,
    )
        ensures tick { self.new.tick ≡ self.old.tick }
        ensures caught { (floor : LeastPassed) (w : model.World) →
            StandsAt self.old.tick floor (λ c. self.old.tick) self.old w →
            IfWaking passing (floor.settled ≤ floor.waking) →
            StandsNow (settled_by passing floor.settled self.old.tick) self.new w }
        ensures passes { (floor : LeastPassed) (w : model.World) →
            StandsAt self.old.tick floor (λ c. self.old.tick) self.old w →
            self.old.tick < floor.waking + 2 ^ 32 → IfAll passing (self.old.tick < floor.settled + 2 ^ 32) →
            moments.new ≤ moments.old + model.ends w }
    {
        self.catch_vehicle_up(items, moments);
        catch_up(&mut self.calls, passing, self.tick, items, moments);
    }

    /// So many ticks elapse.
    pub(super) fn elapses<H: Listener, L: Ledger>(
        &mut self,
        alloc: Global,
        n: u32,
        passing: Passing,
        room: &mut Room,
        to: &mut H,
        moments: &mut Steps<L>,
    ) -> Result<(), SimFault>
        requires { self.old.tick + n < 2 ^ 64 }
        ensures step { (settled : ℕ) (w : model.World) → StandsNow settled self.old w → settled ≤ self.old.tick →
            CameNow (H.grew to.old to.new) (H.partly to.old to.new) result
            (settled_by passing settled self.new.tick) self.new (model.units n w) }
        ensures faults { CountsFaults result (H.faults to.old) (H.faults to.new) }
        ensures passes { (settled : ℕ) (w : model.World) → StandsNow settled self.old w → settled ≤ self.old.tick →
            IfAll passing (self.old.tick ≤ settled) →
            moments.new ≤ moments.old + (passes_of (model.units n w) + model.ends w) }
    {
        let end = self.tick + u64::from(n);
        while self.tick < end {
            let next = self.next_moment(&room.near, end.saturating_add(1));
            let tick = first_of(&next).max(self.tick + 1);
            if tick > end {
                self.tick = end;
            } else {
                self.moment(alloc, tick, &next, room, to, moments)?;
            }
        }
        self.catch_up(passing, &mut room.given.own, moments);
        Ok(())
    }
}
