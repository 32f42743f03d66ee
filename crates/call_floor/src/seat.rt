//! A vehicle that stands on a floor, and what it does at a tick.

use crate::fault::FloorFault;
use crate::listener::{FloorListener, Tagged};
use crate::live::{Live, is_in_call};
use channel_sim::{Due, World};
use link_frames::Steps;
use std::alloc::Global;
use std::sync::ledger::Ledger;

/// A vehicle on the floor: its number, and its own world, in which calls have the numbers that they have on the floor.
#[derive(Drop)]
pub(crate) struct Seat {
    pub(crate) number: u8,
    /// Within elapsed time: at the ticks before this one nothing happens in its world.
    pub(crate) next: u64,
    pub(crate) world: World,
}

/// The vehicles on the floor, by number.
#[derive(Drop)]
pub(crate) struct Seats {
    pub(crate) list: Vec<Seat>,
}

impl Seats {
    ghost use Rattle.std.specs.Prelude.{◌≡◌, ◌≢◌, ◌≤◌, ◌<◌, ◌+◌, ◌^◌, ℕ, Bool, true, false, Some, None, IfSome, slice_get, length};
    ghost use Rattle.std.specs.List.{AllByRecursion};
    ghost use Rattle.channel_sim.specs.Handing.{due_of, hands_way};
    ghost use Rattle.channel_sim.specs.Lag.{AreSameBut};
    ghost use Rattle.channel_sim.specs.World as world;
    ghost use Rattle.call_floor.specs.Floor as model;
    ghost use Rattle.call_floor.specs.FloorFault.{CountsFloorFaults};
    ghost use Rattle.call_floor.specs.Tagged.{heard, FloorGrew};
    ghost use Rattle.call_floor.specs.FloorStands.{IsDown};
    ghost use Rattle.call_floor.specs.inner.FloorAt.{Amid, AreSameBelow, Came, FloorIs, IsSeat, Now, numbers_of, passes_of, turn_if};

    /// Whether the vehicle at this place acts at this tick.
    pub(crate) fn is_awake(&self, place: usize, tick: u64) -> bool
        ensures within { result ≡ true → place < length self.now.list.items }
        ensures due { result ≡ true → IfSome (slice_get self.now.list.items place) (λ x. x.next ≤ tick) }
        ensures later { result ≡ false → IfSome (slice_get self.now.list.items place) (λ x. tick < x.next) }
    {
        if place < self.list.len() {
            self.list[place].next <= tick
        } else {
            false
        }
    }

    /// The unit tick of the vehicle at this place, if it acts.
    pub(crate) fn vehicle_turn<H: FloorListener, L: Ledger>(
        &mut self,
        alloc: Global,
        place: usize,
        tick: u64,
        to: &mut Tagged<'_, H>,
        moments: &mut Steps<L>,
    ) -> Result<(), FloorFault>
        ensures step { (acts : ℕ → Bool) (floor before v : ℕ) (ahead after : ℕ → ℕ) (clock : ℕ → ℕ → ℕ) (w : model.Floor) →
            FloorIs (Amid acts tick floor ahead clock) self.old.list.items w → IsSeat w place v → w.tick ≡ tick →
            ahead v ≡ before → before + 1 ≡ tick → after v ≡ tick → AreSameBut v ahead after → clock v ≡ (λ c. before) →
            Came (FloorGrew H.grew to.old to.new) (FloorGrew H.partly to.old to.new) result
            (Amid acts tick floor after clock) self.new.list.items (turn_if acts v world.vehicle_passes w) }
        ensures faults { CountsFloorFaults result (H.faults (heard to.old)) (H.faults (heard to.new)) }
        ensures passes { (acts : ℕ → Bool) (floor before v : ℕ) (ahead : ℕ → ℕ) (clock : ℕ → ℕ → ℕ) (w : model.Floor) →
            FloorIs (Amid acts tick floor ahead clock) self.old.list.items w → IsSeat w place v → w.tick ≡ tick →
            ahead v ≡ before → before + 1 ≡ tick → clock v ≡ (λ c. before) → tick < floor + 2 ^ 32 →
            moments.new ≤ moments.old + passes_of (turn_if acts v world.vehicle_passes w) }
    {
        if !self.is_awake(place, tick) {
            return Ok(());
        }
        let seat = &mut self.list[place];
        to.speak_for(seat.number);
        seat.world.vehicle_turn(alloc, to, moments)?;
        Ok(())
    }

    /// The unit tick of the session of a call, which was drawn for the vehicle at this place, if that acts.
    pub(crate) fn session_turn<H: FloorListener, L: Ledger>(
        &mut self,
        alloc: Global,
        place: usize,
        call: u32,
        tick: u64,
        to: &mut Tagged<'_, H>,
        moments: &mut Steps<L>,
    ) -> Result<(), FloorFault>
        ensures step { (acts : ℕ → Bool) (floor v : ℕ) (ahead : ℕ → ℕ) (before after : ℕ → ℕ → ℕ) (w : model.Floor) →
            FloorIs (Amid acts tick floor ahead before) self.old.list.items w → IsSeat w place v → w.tick ≡ tick →
            ahead v ≡ tick → before v call + 1 ≡ tick → after v call ≡ tick →
            AreSameBut call (before v) (after v) → AreSameBelow v before after →
            Came (FloorGrew H.grew to.old to.new) (FloorGrew H.partly to.old to.new) result
            (Amid acts tick floor ahead after) self.new.list.items (turn_if acts v (world.session_passes call) w) }
        ensures faults { CountsFloorFaults result (H.faults (heard to.old)) (H.faults (heard to.new)) }
        ensures passes { (acts : ℕ → Bool) (floor v : ℕ) (ahead : ℕ → ℕ) (before after : ℕ → ℕ → ℕ) (w : model.Floor) →
            FloorIs (Amid acts tick floor ahead before) self.old.list.items w → IsSeat w place v → w.tick ≡ tick →
            ahead v ≡ tick → before v call + 1 ≡ tick → after v call ≡ tick →
            AreSameBut call (before v) (after v) → tick < floor + 2 ^ 32 →
            moments.new ≤ moments.old + passes_of (turn_if acts v (world.session_passes call) w) }
    {
        if !self.is_awake(place, tick) {
            return Ok(());
        }
        let seat = &mut self.list[place];
        to.speak_for(seat.number);
        seat.world.session_turn(alloc, call, to, moments)?;
        Ok(())
    }

    /// A frame that is due is handed over in a call of the vehicle at this place, if that acts.
    pub(crate) fn hand_turn<H: FloorListener, L: Ledger>(
        &mut self,
        alloc: Global,
        place: usize,
        up: bool,
        due: &Due,
        tick: u64,
        to: &mut Tagged<'_, H>,
        moments: &mut Steps<L>,
    ) -> Result<(), FloorFault>
        ensures step { (acts : ℕ → Bool) (floor v : ℕ) (w : model.Floor) →
            FloorIs (Amid acts tick floor (λ a. tick) (λ a c. tick)) self.old.list.items w → IsSeat w place v → w.tick ≡ tick →
            Came (FloorGrew H.grew to.old to.new) (FloorGrew H.partly to.old to.new) result
            (Amid acts tick floor (λ a. tick) (λ a c. tick)) self.new.list.items (turn_if acts v (hands_way up (due_of due.now)) w) }
        ensures faults { CountsFloorFaults result (H.faults (heard to.old)) (H.faults (heard to.new)) }
        ensures passes { (acts : ℕ → Bool) (floor v : ℕ) (w : model.Floor) →
            FloorIs (Amid acts tick floor (λ a. tick) (λ a c. tick)) self.old.list.items w → IsSeat w place v → w.tick ≡ tick →
            tick < floor + 2 ^ 32 →
            moments.new ≤ moments.old + passes_of (turn_if acts v (hands_way up (due_of due.now)) w) }
    {
        if !self.is_awake(place, tick) {
            return Ok(());
        }
        let seat = &mut self.list[place];
        to.speak_for(seat.number);
        seat.world.hand(alloc, up, due, to, moments)?;
        Ok(())
    }

    /// Whether a leg of the call may be up.
    pub(crate) fn may_be_up(&self, one: Live) -> bool
        ensures { result ≡ false → (w : model.Floor) (v : ℕ) → FloorIs Now self.now.list.items w →
            slice_get (numbers_of w.stands) one.place ≡ Some v → IsDown w.stands v one.call }
    {
        if one.place >= self.list.len() {
            return true;
        }
        let world = &self.list[one.place].world;
        if is_in_call(world, one.call) {
            return true;
        }
        world.session(one.call).is_some()
    }

    /// Where the vehicle of a number stands, if it is there.
    pub(crate) fn find(&self, number: u8) -> Option<usize>
        ensures within { IfSome result (λ i. i < length self.now.list.items) }
        ensures some { IfSome result (λ i. IfSome (slice_get self.now.list.items i) (λ x. x.number ≡ number)) }
        ensures none { result ≡ None → AllByRecursion (λ x. x.number ≢ number) self.now.list.items }
    {
        for place in 0..self.list.len() {
            if self.list[place].number == number {
                return Some(place);
            }
        }
        None
    }
}
