//! What an end does: it is told and posted, and has its consequences at the other end.

use super::Channel;
use crate::calls::{drop_without_session, hear_session, post};
use crate::consequence::{Consequence, consequence_of};
use crate::fault::SimFault;
use crate::room::Given;
use crate::telling::tell;
use ivs_machine::VehicleEvent;
use link_frames::{Items, Note, Steps, Why};
use psap_machine::PointEvent;
use std::alloc::Global;
use std::sync::ledger::Ledger;
use trace_model::Listener;

impl Channel {
    ghost use Rattle.std.specs.Prelude.{true, false, ◌≡◌, ◌+◌, ◌<◌, ◌≤◌, ℕ, List, [], ◌∷◌, Some, None, map, OnOk, OnErr, IfOk, IfErr, ◌^◌, length};
    ghost use Rattle.std.specs.List.{AllByRecursion};
    ghost use Rattle.ivs_machine.specs.Vehicle.{Vehicle, vehicle_call};
    ghost use Rattle.ivs_machine.specs.VehicleRows as vehicle;
    ghost use Rattle.psap_machine.specs.PointRows as point;
    ghost use Rattle.trace_model.specs.History.{told};
    ghost use Rattle.channel_sim.specs.World as model;
    ghost use Rattle.channel_sim.specs.SimFault.{CountsFaults};
    ghost use Rattle.channel_sim.specs.inner.Acts.{IsCaught, IsReady, OtherHasLeg};
    ghost use Rattle.channel_sim.specs.Lag.{LeastPassed, CameAt, CallsLag, StandsAt, VehicleLags};
    ghost use Rattle.channel_sim.specs.Tidy.{AreAbove, numbers_of};
    ghost use Rattle.channel_sim.specs.Passes.{passes_of};

    /// A call is gone once both its legs are down.
    fn drop_call(&mut self, number: u32)
        ensures same { self.new ≡ record self.old { calls = self.new.calls } }
        ensures calls { (n : ℕ) (floor : LeastPassed) (clock : ℕ → ℕ) (v : Vehicle) (ks : List model.Call) →
            VehicleLags n self.old.vehicle v →
            CallsLag floor clock self.old.calls ks → AreAbove 0 (numbers_of ks) →
            AllByRecursion (OtherHasLeg (vehicle_call v) (Some number)) ks →
            CallsLag floor clock self.new.calls (model.with_legs (vehicle_call v) ks) }
    {
        if self.vehicle.call() != Some(number) {
            drop_without_session(&mut self.calls, number);
        }
    }

    /// The call that is concerned, if any, is gone once both its legs are down.
    fn drop_concerned(&mut self, call: Option<u32>)
        ensures same { self.new ≡ record self.old { calls = self.new.calls } }
        ensures calls { (n : ℕ) (floor : LeastPassed) (clock : ℕ → ℕ) (v : Vehicle) (ks : List model.Call) →
            VehicleLags n self.old.vehicle v →
            CallsLag floor clock self.old.calls ks → AreAbove 0 (numbers_of ks) →
            AllByRecursion (OtherHasLeg (vehicle_call v) call) ks →
            CallsLag floor clock self.new.calls (model.with_legs (vehicle_call v) ks) }
    {
        if let Some(number) = call {
            self.drop_call(number);
        }
    }

    /// Tells what an end did and posts what it sent. Only this call may have lost a leg.
    pub(super) fn did<H: Listener>(
        &mut self,
        alloc: Global,
        items: &[Note],
        call: Option<u32>,
        to: &mut H,
    ) -> Result<(), SimFault>
        ensures step { (ahead : ℕ) (floor : LeastPassed) (clock : ℕ → ℕ) (w : model.World) (v : Vehicle)
            (ks : List model.Call) →
            IsReady ahead floor clock self.old w v ks call →
            CameAt (H.grew to.old to.new) (H.partly to.old to.new) result ahead floor clock self.new
            (model.did w items.now v ks) }
        ensures tick { self.new.tick ≡ self.old.tick }
        ensures faults { CountsFaults result (H.faults to.old) (H.faults to.new) }
        ensures passed { self.new.passed ≡ self.old.passed }
    {
        tell(alloc, self.tick, items, to)?;
        post(&mut self.calls, alloc, self.tick, items)?;
        self.drop_concerned(call);
        Ok(())
    }

    /// Tells what an end did and posts what it sent, and then comes what follows from it. Only this call may have lost
    /// a leg.
    pub(super) fn settles<H: Listener, L: Ledger>(
        &mut self,
        alloc: Global,
        items: &[Note],
        other: &mut Items,
        call: Option<u32>,
        to: &mut H,
        moments: &mut Steps<L>,
    ) -> Result<(), SimFault>
        ensures step { (ahead : ℕ) (floor : LeastPassed) (clock : ℕ → ℕ) (w : model.World) (v : Vehicle)
            (ks : List model.Call) →
            IsReady ahead floor clock self.old w v ks call → ahead ≡ self.old.tick →
            CameAt (H.grew to.old to.new) (H.partly to.old to.new) result ahead floor clock self.new
            (model.settled (model.did w items.now v ks)) }
        ensures tick { self.new.tick ≡ self.old.tick }
        ensures faults { CountsFaults result (H.faults to.old) (H.faults to.new) }
        ensures passes { (ahead : ℕ) (floor : LeastPassed) (clock : ℕ → ℕ) (w : model.World) (v : Vehicle)
            (ks : List model.Call) →
            IsReady ahead floor clock self.old w v ks call → ahead ≡ self.old.tick →
            self.old.tick < floor.waking + 2 ^ 32 →
            moments.new + length items.now ≤ moments.old + passes_of (model.settled (model.did w items.now v ks)) }
        ensures still { self.old.passed ≡ self.old.tick → (self.new.passed ≡ self.new.tick)
            × (moments.new ≡ moments.old) }
    {
        self.did(alloc, items, call, to)?;
        self.follow(alloc, items, other, to, moments)
    }

    /// The vehicle hears this.
    pub(super) fn vehicle_hears<H: Listener>(
        &mut self,
        alloc: Global,
        event: &VehicleEvent<'_>,
        items: &mut Items,
        to: &mut H,
    ) -> Result<(), SimFault>
        ensures step { (ahead : ℕ) (floor : LeastPassed) (clock : ℕ → ℕ) (w : model.World) →
            StandsAt ahead floor clock self.old w →
            ahead ≡ self.old.passed →
            CameAt (H.grew to.old to.new) (H.partly to.old to.new) result ahead floor clock self.new
            (model.vehicle_did w (vehicle.vehicle_row w.vehicle (vehicle.heard event.now))) }
        ensures tick { self.new.tick ≡ self.old.tick }
        ensures faults { CountsFaults result (H.faults to.old) (H.faults to.new) }
        ensures passed { self.new.passed ≡ self.old.passed }
    {
        let call = self.vehicle.call();
        self.vehicle.hear_into(event, items);
        self.did(alloc, items.as_slice(), call, to)
    }

    /// The vehicle hears this, and then comes what follows from it.
    pub(super) fn vehicle_performs<H: Listener, L: Ledger>(
        &mut self,
        alloc: Global,
        event: &VehicleEvent<'_>,
        given: &mut Given,
        to: &mut H,
        moments: &mut Steps<L>,
    ) -> Result<(), SimFault>
        ensures step { (ahead : ℕ) (floor : LeastPassed) (clock : ℕ → ℕ) (w : model.World) →
            StandsAt ahead floor clock self.old w →
            ahead ≡ self.old.passed → ahead ≡ self.old.tick →
            CameAt (H.grew to.old to.new) (H.partly to.old to.new) result ahead floor clock self.new
            (model.performs (model.Hears (vehicle.heard event.now)) w) }
        ensures tick { self.new.tick ≡ self.old.tick }
        ensures faults { CountsFaults result (H.faults to.old) (H.faults to.new) }
        ensures still { self.old.passed ≡ self.old.tick → (self.new.passed ≡ self.new.tick)
            × (moments.new ≡ moments.old) }
    {
        let call = self.vehicle.call();
        self.vehicle.hear_into(event, &mut given.own);
        let items = given.own.as_slice();
        self.settles(alloc, items, &mut given.other, call, to, moments)
    }

    /// The vehicle is passed up to this tick, up to which it does nothing, and hears this, and then comes what follows
    /// from it.
    pub(super) fn vehicle_reaches<H: Listener, L: Ledger>(
        &mut self,
        alloc: Global,
        event: &VehicleEvent<'_>,
        given: &mut Given,
        to: &mut H,
        moments: &mut Steps<L>,
    ) -> Result<(), SimFault>
        ensures step { (ahead : ℕ) (floor : LeastPassed) (clock : ℕ → ℕ) (w : model.World) →
            StandsAt ahead floor clock self.old w → ahead ≡ self.old.tick →
            CameAt (H.grew to.old to.new) (H.partly to.old to.new) result ahead floor clock self.new
            (model.performs (model.Hears (vehicle.heard event.now)) w) }
        ensures tick { self.new.tick ≡ self.old.tick }
        ensures faults { CountsFaults result (H.faults to.old) (H.faults to.new) }
        ensures passes { (ahead : ℕ) (floor : LeastPassed) (clock : ℕ → ℕ) (w : model.World) →
            StandsAt ahead floor clock self.old w → ahead ≡ self.old.tick →
            self.old.tick < floor.waking + 2 ^ 32 → moments.new ≤ moments.old + 1 }
    {
        let call = self.vehicle.call();
        let lag = self.tick.saturating_sub(self.passed);
        self.vehicle.reach_into(lag, event, &mut given.own, moments);
        self.passed = self.tick;
        let items = given.own.as_slice();
        self.settles(alloc, items, &mut given.other, call, to, moments)
    }

    /// The session of a call is let go, if it is there.
    fn session_released<H: Listener>(
        &mut self,
        alloc: Global,
        number: u32,
        items: &mut Items,
        to: &mut H,
    ) -> Result<(), SimFault>
        ensures step { (ahead : ℕ) (floor : LeastPassed) (clock : ℕ → ℕ) (w : model.World) →
            StandsAt ahead floor clock self.old w →
            CameAt (H.grew to.old to.new) (H.partly to.old to.new) result ahead floor clock self.new
            (model.does (model.Session number (point.Ended Why.Release)) w) }
        ensures tick { self.new.tick ≡ self.old.tick }
        ensures faults { CountsFaults result (H.faults to.old) (H.faults to.new) }
        ensures passed { self.new.passed ≡ self.old.passed }
    {
        let event = PointEvent::Ended(Why::Release);
        if hear_session(&mut self.calls, number, self.tick, &event, items)? {
            self.did(alloc, items.as_slice(), Some(number), to)
        } else {
            Ok(())
        }
    }

    /// The session of a call hears this, if it is there, and then comes what follows from it.
    pub(super) fn session_performs<H: Listener, L: Ledger>(
        &mut self,
        alloc: Global,
        number: u32,
        event: &PointEvent<'_>,
        given: &mut Given,
        to: &mut H,
        moments: &mut Steps<L>,
    ) -> Result<(), SimFault>
        ensures step { (ahead : ℕ) (floor : LeastPassed) (clock : ℕ → ℕ) (w : model.World) →
            StandsAt ahead floor clock self.old w →
            ahead ≡ self.old.tick → clock number ≡ ahead → IsCaught clock number self.old.calls →
            CameAt (H.grew to.old to.new) (H.partly to.old to.new) result ahead floor clock self.new
            (model.performs (model.Session number (point.heard event.now)) w) }
        ensures tick { self.new.tick ≡ self.old.tick }
        ensures faults { CountsFaults result (H.faults to.old) (H.faults to.new) }
        ensures passes { (ahead : ℕ) (floor : LeastPassed) (clock : ℕ → ℕ) (w : model.World) →
            StandsAt ahead floor clock self.old w →
            ahead ≡ self.old.tick → clock number ≡ ahead → IsCaught clock number self.old.calls →
            self.old.tick < floor.waking + 2 ^ 32 →
            moments.new ≤ moments.old + passes_of (model.performs (model.Session number (point.heard event.now)) w) }
        ensures still { self.old.passed ≡ self.old.tick → (self.new.passed ≡ self.new.tick)
            × (moments.new ≡ moments.old) }
    {
        if hear_session(&mut self.calls, number, self.tick, event, &mut given.own)? {
            let items = given.own.as_slice();
            self.settles(alloc, items, &mut given.other, Some(number), to, moments)
        } else {
            Ok(())
        }
    }

    /// What one item has the other end hear.
    fn follow_one<H: Listener, L: Ledger>(
        &mut self,
        alloc: Global,
        note: &Note,
        items: &mut Items,
        to: &mut H,
        moments: &mut Steps<L>,
    ) -> Result<(), SimFault>
        ensures step { (ahead : ℕ) (floor : LeastPassed) (clock : ℕ → ℕ) (w : model.World) →
            StandsAt ahead floor clock self.old w →
            ahead ≡ self.old.tick →
            CameAt (H.grew to.old to.new) (H.partly to.old to.new) result ahead floor clock self.new
            (model.does_each (model.consequence note.now) w) }
        ensures tick { self.new.tick ≡ self.old.tick }
        ensures faults { CountsFaults result (H.faults to.old) (H.faults to.new) }
        ensures passes { (ahead : ℕ) (floor : LeastPassed) (clock : ℕ → ℕ) (w : model.World) →
            StandsAt ahead floor clock self.old w →
            ahead ≡ self.old.tick → self.old.tick < floor.waking + 2 ^ 32 →
            moments.new ≤ moments.old + passes_of (model.does_each (model.consequence note.now) w) }
        ensures still { self.old.passed ≡ self.old.tick → (self.new.passed ≡ self.new.tick)
            × (moments.new ≡ moments.old) }
    {
        match consequence_of(note) {
            Consequence::Nothing => Ok(()),
            Consequence::Releases(call) => self.session_released(alloc, call, items, to),
            Consequence::HangsUp(call) => {
                if self.vehicle.call() != Some(call) {
                    return Ok(());
                }
                self.catch_vehicle_up(items, moments);
                self.vehicle_hears(alloc, &VehicleEvent::Hangup, items, to)
            }
        }
    }

    /// What these items have the other end hear.
    pub(super) fn follow<H: Listener, L: Ledger>(
        &mut self,
        alloc: Global,
        items: &[Note],
        other: &mut Items,
        to: &mut H,
        moments: &mut Steps<L>,
    ) -> Result<(), SimFault>
        ensures step { (ahead : ℕ) (floor : LeastPassed) (clock : ℕ → ℕ) (w : model.World) →
            StandsAt ahead floor clock self.old w →
            ahead ≡ self.old.tick →
            CameAt (H.grew to.old to.new) (H.partly to.old to.new) result ahead floor clock self.new
            (model.does_each (model.consequences (told w.tick items.now)) w) }
        ensures tick { self.new.tick ≡ self.old.tick }
        ensures faults { CountsFaults result (H.faults to.old) (H.faults to.new) }
        ensures passes { (ahead : ℕ) (floor : LeastPassed) (clock : ℕ → ℕ) (w : model.World) →
            StandsAt ahead floor clock self.old w →
            ahead ≡ self.old.tick → self.old.tick < floor.waking + 2 ^ 32 →
            moments.new ≤ moments.old + passes_of (model.does_each (model.consequences (told w.tick items.now)) w) }
        ensures still { self.old.passed ≡ self.old.tick → (self.new.passed ≡ self.new.tick)
            × (moments.new ≡ moments.old) }
    {
        for note in items {
            self.follow_one(alloc, note, other, to, moments)?;
        }
        Ok(())
    }
}
