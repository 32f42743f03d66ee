//! What the flows hand over at a tick.

use super::Channel;
use crate::calls::{Due, Handover, all_due, call_due, find, only_due, reach_session};
use crate::fault::SimFault;
use crate::kept::KeptFrame;
use crate::room::{Given, Near, Room};
use ivs_machine::VehicleEvent;
use link_frames::Steps;
use psap_machine::PointEvent;
use std::alloc::{AllocError, Global};
use std::sync::ledger::Ledger;
use trace_model::Listener;

impl Channel {
    ghost use Rattle.std.specs.Prelude.{true, false, ◌≡◌, ◌+◌, ◌++◌, ◌<◌, ◌≤◌, ℕ, List, [], ◌∷◌, Some, None, map, OnOk, OnErr, IfOk, IfErr, ◌^◌, if◌then◌else◌};
    ghost use Rattle.channel_sim.specs.World as model;
    ghost use Rattle.channel_sim.specs.SimFault.{CountsFaults};
    ghost use Rattle.channel_sim.specs.inner.Acts.{flows_by};
    ghost use Rattle.channel_sim.specs.inner.Handovers.{IsHandover};
    ghost use Rattle.channel_sim.specs.Handing.{due_in_call, due_of, flow_way, full, hands_way, sent_way};
    ghost use Rattle.channel_sim.specs.Lag.{LeastPassed, CameAt, StandsAt};
    ghost use Rattle.channel_sim.specs.Passes.{passes_of};

    /// After how many ticks the flow up, or down, hands a frame over; 0 is off.
    pub(crate) fn flow(&self, up: bool) -> u32
        ensures { result ≡ (if up then self.now.up_flow else self.now.down_flow) }
    {
        if up { self.up_flow } else { self.down_flow }
    }

    /// The frames that the flow up, or down, hands over at this tick, in place of what stood there.
    #[inline(always)]
    fn list_due(
        &self,
        up: bool,
        due: &mut Vec<Due>,
        numbers: &mut Vec<u32>,
        near: &mut Near,
    ) -> Result<(), AllocError>
        ensures { (ahead : ℕ) (floor : LeastPassed) (w : model.World) → StandsAt ahead floor (λ c. ahead) self.now w →
            OnOk result
            (map due_of due.new.items ≡ model.due_in (sent_way up) (flow_way up w) w.tick w.calls) }
    {
        all_due(
            &self.calls,
            up,
            self.flow(up),
            self.tick,
            due,
            numbers,
            near,
        )
    }

    /// What the flow up, or down, hands over at this tick, where that is known to be one frame or nothing.
    #[inline(always)]
    fn only_due(&self, up: bool, near: &mut Near) -> Result<Handover, AllocError>
        ensures { (ahead : ℕ) (floor : LeastPassed) (w : model.World) → StandsAt ahead floor (λ c. ahead) self.now w →
            IfOk result (λ handover. IsHandover handover
            (model.due_in (sent_way up) (flow_way up w) w.tick w.calls)) }
    {
        only_due(&self.calls, up, self.flow(up), self.tick, near)
    }

    /// Adds the frames of a call that its flow up, or down, hands over at this tick.
    pub(crate) fn call_due(
        &self,
        number: u32,
        up: bool,
        due: &mut Vec<Due>,
    ) -> Result<(), AllocError>
        ensures { (ahead : ℕ) (floor : LeastPassed) (clock : ℕ → ℕ) (w : model.World) →
            StandsAt ahead floor clock self.now w →
            OnOk result (map due_of due.new.items ≡ map due_of due.old.items ++ due_in_call up number w) }
    {
        let calls = self.calls.all();
        match find(calls, number) {
            Some(i) => call_due(due, &calls[i], up, self.flow(up), self.tick),
            None => Ok(()),
        }
    }

    /// Hands a frame to the point's session of a call, if it is there.
    fn hand_up<H: Listener, L: Ledger>(
        &mut self,
        alloc: Global,
        number: u32,
        frame: &KeptFrame,
        given: &mut Given,
        to: &mut H,
        moments: &mut Steps<L>,
    ) -> Result<(), SimFault>
        ensures step { (ahead : ℕ) (floor : LeastPassed) (w : model.World) →
            StandsAt ahead floor (λ c. ahead) self.old w →
            ahead ≡ self.old.tick →
            CameAt (H.grew to.old to.new) (H.partly to.old to.new) result ahead floor (λ c. ahead) self.new
            (model.hands_up (record { call = number; frame = full frame.now }) w) }
        ensures tick { self.new.tick ≡ self.old.tick }
        ensures faults { CountsFaults result (H.faults to.old) (H.faults to.new) }
        ensures passes { (ahead : ℕ) (floor : LeastPassed) (w : model.World) →
            StandsAt ahead floor (λ c. ahead) self.old w →
            ahead ≡ self.old.tick →
            self.old.tick < floor.waking + 2 ^ 32 → moments.new ≤ moments.old +
            passes_of (model.hands_up (record { call = number; frame = full frame.now }) w) }
    {
        let event = PointEvent::Frame(frame.lend());
        if reach_session(
            &mut self.calls,
            number,
            self.tick,
            &event,
            &mut given.own,
            moments,
        )? {
            let items = given.own.as_slice();
            self.settles(alloc, items, &mut given.other, Some(number), to, moments)
        } else {
            Ok(())
        }
    }

    /// Hands a frame to the vehicle, if it is in this call.
    fn hand_down<H: Listener, L: Ledger>(
        &mut self,
        alloc: Global,
        number: u32,
        frame: &KeptFrame,
        given: &mut Given,
        to: &mut H,
        moments: &mut Steps<L>,
    ) -> Result<(), SimFault>
        ensures step { (ahead : ℕ) (floor : LeastPassed) (w : model.World) →
            StandsAt ahead floor (λ c. ahead) self.old w →
            ahead ≡ self.old.tick →
            CameAt (H.grew to.old to.new) (H.partly to.old to.new) result ahead floor (λ c. ahead) self.new
            (model.hands_down (record { call = number; frame = full frame.now }) w) }
        ensures tick { self.new.tick ≡ self.old.tick }
        ensures faults { CountsFaults result (H.faults to.old) (H.faults to.new) }
        ensures passes { (ahead : ℕ) (floor : LeastPassed) (w : model.World) →
            StandsAt ahead floor (λ c. ahead) self.old w →
            ahead ≡ self.old.tick →
            self.old.tick < floor.waking + 2 ^ 32 → moments.new ≤ moments.old +
            passes_of (model.hands_down (record { call = number; frame = full frame.now }) w) }
    {
        if self.vehicle.call() != Some(number) {
            return Ok(());
        }
        let event = VehicleEvent::Frame(frame.lend());
        self.vehicle_reaches(alloc, &event, given, to, moments)
    }

    /// Hands a frame that is due to the point's session of its call, or to the vehicle, if that end is in this call.
    #[inline(always)]
    pub(crate) fn hand<H: Listener, L: Ledger>(
        &mut self,
        alloc: Global,
        up: bool,
        due: &Due,
        given: &mut Given,
        to: &mut H,
        moments: &mut Steps<L>,
    ) -> Result<(), SimFault>
        ensures step { (ahead : ℕ) (floor : LeastPassed) (w : model.World) →
            StandsAt ahead floor (λ c. ahead) self.old w →
            ahead ≡ self.old.tick →
            CameAt (H.grew to.old to.new) (H.partly to.old to.new) result ahead floor (λ c. ahead) self.new
            (hands_way up (due_of due.now) w) }
        ensures tick { self.new.tick ≡ self.old.tick }
        ensures faults { CountsFaults result (H.faults to.old) (H.faults to.new) }
        ensures passes { (ahead : ℕ) (floor : LeastPassed) (w : model.World) →
            StandsAt ahead floor (λ c. ahead) self.old w →
            ahead ≡ self.old.tick →
            self.old.tick < floor.waking + 2 ^ 32 → moments.new ≤ moments.old +
            passes_of (hands_way up (due_of due.now) w) }
    {
        if up {
            self.hand_up(alloc, due.call, &due.frame, given, to, moments)
        } else {
            self.hand_down(alloc, due.call, &due.frame, given, to, moments)
        }
    }

    /// Hands over these frames, which were sent up, or down.
    fn hand_each<H: Listener, L: Ledger>(
        &mut self,
        alloc: Global,
        up: bool,
        due: &[Due],
        given: &mut Given,
        to: &mut H,
        moments: &mut Steps<L>,
    ) -> Result<(), SimFault>
        ensures step { (ahead : ℕ) (floor : LeastPassed) (w : model.World) →
            StandsAt ahead floor (λ c. ahead) self.old w →
            ahead ≡ self.old.tick →
            CameAt (H.grew to.old to.new) (H.partly to.old to.new) result ahead floor (λ c. ahead) self.new
            (model.each (hands_way up) (map due_of due.now) w) }
        ensures tick { self.new.tick ≡ self.old.tick }
        ensures faults { CountsFaults result (H.faults to.old) (H.faults to.new) }
        ensures passes { (ahead : ℕ) (floor : LeastPassed) (w : model.World) →
            StandsAt ahead floor (λ c. ahead) self.old w →
            ahead ≡ self.old.tick →
            self.old.tick < floor.waking + 2 ^ 32 → moments.new ≤ moments.old + passes_of
            (model.each (hands_way up) (map due_of due.now) w) }
    {
        for one in due {
            self.hand(alloc, up, one, given, to, moments)?;
        }
        Ok(())
    }

    /// Hands over what was sent up, or down, so many ticks ago, by a list of it.
    #[inline(never)]
    fn flows_listed<H: Listener, L: Ledger>(
        &mut self,
        alloc: Global,
        up: bool,
        room: &mut Room,
        to: &mut H,
        moments: &mut Steps<L>,
    ) -> Result<(), SimFault>
        ensures step { (ahead : ℕ) (floor : LeastPassed) (w : model.World) →
            StandsAt ahead floor (λ c. ahead) self.old w →
            ahead ≡ self.old.tick →
            CameAt (H.grew to.old to.new) (H.partly to.old to.new) result ahead floor (λ c. ahead) self.new
            (flows_by up w) }
        ensures tick { self.new.tick ≡ self.old.tick }
        ensures faults { CountsFaults result (H.faults to.old) (H.faults to.new) }
        ensures passes { (ahead : ℕ) (floor : LeastPassed) (w : model.World) →
            StandsAt ahead floor (λ c. ahead) self.old w →
            ahead ≡ self.old.tick → self.old.tick < floor.waking + 2 ^ 32 →
            moments.new ≤ moments.old + passes_of (flows_by up w) }
    {
        let mut near = room.near.at(up);
        self.list_due(up, &mut room.due, &mut room.numbers, &mut near)?;
        room.near.set(up, near);
        self.hand_each(alloc, up, &room.due, &mut room.given, to, moments)
    }

    /// Hands over what was sent up, or down, so many ticks ago.
    #[inline(never)]
    pub(super) fn flows<H: Listener, L: Ledger>(
        &mut self,
        alloc: Global,
        up: bool,
        room: &mut Room,
        to: &mut H,
        moments: &mut Steps<L>,
    ) -> Result<(), SimFault>
        ensures step { (ahead : ℕ) (floor : LeastPassed) (w : model.World) →
            StandsAt ahead floor (λ c. ahead) self.old w →
            ahead ≡ self.old.tick →
            CameAt (H.grew to.old to.new) (H.partly to.old to.new) result ahead floor (λ c. ahead) self.new
            (flows_by up w) }
        ensures tick { self.new.tick ≡ self.old.tick }
        ensures faults { CountsFaults result (H.faults to.old) (H.faults to.new) }
        ensures passes { (ahead : ℕ) (floor : LeastPassed) (w : model.World) →
            StandsAt ahead floor (λ c. ahead) self.old w →
            ahead ≡ self.old.tick → self.old.tick < floor.waking + 2 ^ 32 →
            moments.new ≤ moments.old + passes_of (flows_by up w) }
    {
        let mut near = room.near.at(up);
        match self.only_due(up, &mut near)? {
            Handover::Nothing => {
                room.near.set(up, near);
                Ok(())
            }
            Handover::One(due) => {
                room.near.set(up, near);
                self.hand(alloc, up, &due, &mut room.given, to, moments)
            }
            Handover::Many => self.flows_listed(alloc, up, room, to, moments),
        }
    }
}
