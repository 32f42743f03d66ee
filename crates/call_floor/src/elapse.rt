//! Elapsed time: from one tick at which something happens on the floor to the next.

use crate::fault::FloorFault;
use crate::floor::Floor;
use crate::listener::{FloorListener, Tagged};
use crate::live::prune;
use link_frames::Steps;
use std::alloc::Global;
use std::sync::ledger::Ledger;
use trace_model::Positive;

impl Floor {
    ghost use Rattle.std.specs.Prelude.{◌≡◌, ◌+◌, ◌^◌, ◌<◌, ◌≤◌, ◌⊎◌, ℕ, OnOk};
    ghost use Rattle.std.specs.List.{AllByRecursion};
    ghost use Rattle.call_floor.specs.Floor as model;
    ghost use Rattle.call_floor.specs.FloorFault.{CountsFloorFaults};
    ghost use Rattle.call_floor.specs.FloorKept.{IsKept};
    ghost use Rattle.call_floor.specs.FloorLines.{ends};
    ghost use Rattle.call_floor.specs.FloorStands.{AreLive};
    ghost use Rattle.call_floor.specs.Tagged.{heard, FloorGrew};
    ghost use Rattle.call_floor.specs.inner.FloorAt.{Came, CameNow, FloorIs, FloorNow, Now, Resting, passes_of};

    /// The floor jumps to this tick: nothing happens before it, and then its unit tick is played.
    fn moment<H: FloorListener, L: Ledger>(
        &mut self,
        alloc: Global,
        tick: u64,
        limit: u64,
        to: &mut Tagged<'_, H>,
        moments: &mut Steps<L>,
    ) -> Result<(), FloorFault>
        ensures step { (floor n : ℕ) (w : model.Floor) → FloorIs (Resting floor) self.old.seats.list.items w →
            w.tick + n + 1 ≡ tick → AllByRecursion (λ x. (n ≡ 0) ⊎ (tick ≤ x.next)) self.old.seats.list.items →
            IsKept w → AreLive w.stands 1 w.drawn self.old.live.items →
            Came (FloorGrew H.grew to.old to.new) (FloorGrew H.partly to.old to.new) result (Resting floor)
            self.new.seats.list.items (model.units (n + 1) w) }
        ensures same { self.new ≡ record self.old { tick = tick; seats = self.new.seats; room = self.new.room } }
        ensures faults { CountsFloorFaults result (H.faults (heard to.old)) (H.faults (heard to.new)) }
        ensures passes { (floor n : ℕ) (w : model.Floor) → FloorIs (Resting floor) self.old.seats.list.items w →
            w.tick + n + 1 ≡ tick → AllByRecursion (λ x. (n ≡ 0) ⊎ (tick ≤ x.next)) self.old.seats.list.items →
            IsKept w → AreLive w.stands 1 w.drawn self.old.live.items → tick < floor + 2 ^ 32 →
            moments.new ≤ moments.old + passes_of (model.units (n + 1) w) }
    {
        self.tick = tick;
        self.seats.wake(tick);
        self.seats
            .unit(alloc, &self.live, tick, &mut self.room, to, moments)?;
        self.seats.plan(tick, limit);
        Ok(())
    }

    /// So many ticks elapse.
    pub(crate) fn elapses<H: FloorListener, L: Ledger>(
        &mut self,
        alloc: Global,
        n: u32,
        to: &mut Tagged<'_, H>,
        moments: &mut Steps<L>,
    ) -> Result<(), FloorFault>
        requires { self.old.tick + n < 2 ^ 64 }
        ensures step { (w : model.Floor) → FloorIs Now self.old.seats.list.items w → w.tick ≡ self.old.tick → IsKept w →
            AreLive w.stands 1 w.drawn self.old.live.items →
            Came (FloorGrew H.grew to.old to.new) (FloorGrew H.partly to.old to.new) result Now
            self.new.seats.list.items (model.units n w) }
        ensures same { self.new ≡ record self.old { tick = self.new.tick; seats = self.new.seats; room = self.new.room } }
        ensures tick { OnOk result (self.new.tick ≡ self.old.tick + n) }
        ensures faults { CountsFloorFaults result (H.faults (heard to.old)) (H.faults (heard to.new)) }
        ensures passes { (w : model.Floor) → FloorIs Now self.old.seats.list.items w → w.tick ≡ self.old.tick → IsKept w →
            AreLive w.stands 1 w.drawn self.old.live.items →
            moments.new ≤ moments.old + (passes_of (model.units n w) + ends w.stands) }
    {
        let end = self.tick + u64::from(n);
        let limit = end.saturating_add(1);
        self.seats.ask(limit);
        while self.tick < end {
            let tick = self.seats.soonest(limit).max(self.tick + 1);
            if tick > end {
                self.tick = end;
            } else {
                self.moment(alloc, tick, limit, to, moments)?;
            }
        }
        self.seats.catch_up(end, moments);
        Ok(())
    }

    /// What a line of elapsed ticks does.
    pub(crate) fn tick_line<H: FloorListener, L: Ledger>(
        &mut self,
        alloc: Global,
        n: Positive,
        to: &mut Tagged<'_, H>,
        moments: &mut Steps<L>,
    ) -> Result<(), FloorFault>
        requires { self.old.tick + n < 2 ^ 64 }
        ensures step { (w : model.Floor) → FloorNow self.old w → IsKept w →
            CameNow (FloorGrew H.grew to.old to.new) (FloorGrew H.partly to.old to.new) result self.new (model.units n w) }
        ensures faults { CountsFloorFaults result (H.faults (heard to.old)) (H.faults (heard to.new)) }
        ensures passes { (w : model.Floor) → FloorNow self.old w → IsKept w →
            moments.new ≤ moments.old + (passes_of (model.units n w) + ends w.stands) }
        ensures tick { OnOk result (self.new.tick ≤ self.old.tick + 4294967295) }
    {
        prune(&mut self.live, &self.seats);
        self.elapses(alloc, n.number(), to, moments)
    }
}
