//! The phases of a unit tick, over those vehicles that act at it.

use crate::fault::FloorFault;
use crate::listener::{FloorListener, Tagged};
use crate::live::Live;
use crate::seat::Seats;
use channel_sim::Due;
use link_frames::Steps;
use std::alloc::{AllocError, Global};
use std::sync::ledger::Ledger;

/// The frames that are due, and for each the place of the vehicle to whose call it belongs. It is room that is used again.
#[derive(Drop)]
pub(crate) struct Room {
    due: Vec<Due>,
    owners: Vec<usize>,
}

ghost use Rattle.std.specs.Prelude.{◌≡◌, ◌≤◌, ◌<◌, ◌+◌, ◌++◌, ◌^◌, ℕ, List, Bool, OnOk, length, get_or, replicate, ◌-◌};
ghost use Rattle.call_floor.specs.Floor as model;
ghost use Rattle.call_floor.specs.FloorFault.{CountsFloorFaults};
ghost use Rattle.call_floor.specs.inner.Placed.{IsReady};
ghost use Rattle.call_floor.specs.Tagged.{heard, FloorGrew};
ghost use Rattle.call_floor.specs.inner.FloorAt.{Amid, Came, FloorIs, IsSeat, call_turns, ends_if, flow_turns, flows_if, listed_turns, numbers_of, passes_of, plays_if, sessions_if, unit_if, vehicles_if};

impl Room {
    /// Empty room. It takes no memory.
    pub(crate) fn new(alloc: Global) -> Room {
        Room {
            due: Vec::new(alloc),
            owners: Vec::new(alloc),
        }
    }

    /// The place of the owner of a frame.
    fn owner(&self, k: usize) -> usize
        ensures { k < length self.now.owners.items → result ≡ get_or self.now.owners.items k 0 }
    {
        if k < self.owners.len() {
            self.owners[k]
        } else {
            0
        }
    }
}

/// So many frames have this owner, behind those that have theirs.
fn own_all(owners: &mut Vec<usize>, count: usize, place: usize) -> Result<(), AllocError>
    ensures { OnOk result (owners.new.items ≡ owners.old.items ++ replicate (count - length owners.old.items) place) }
{
    let from = owners.len();
    for _ in from..count {
        owners.push(place)?;
    }
    Ok(())
}

impl Seats {
    /// The unit tick of each vehicle that acts, by number.
    fn vehicles_pass<H: FloorListener, L: Ledger>(
        &mut self,
        alloc: Global,
        tick: u64,
        to: &mut Tagged<'_, H>,
        moments: &mut Steps<L>,
    ) -> Result<(), FloorFault>
        ensures step { (acts : ℕ → Bool) (floor before : ℕ) (w : model.Floor) →
            FloorIs (Amid acts tick floor (λ v. before) (λ v c. before)) self.old.list.items w → w.tick ≡ tick → before + 1 ≡ tick →
            Came (FloorGrew H.grew to.old to.new) (FloorGrew H.partly to.old to.new) result
            (Amid acts tick floor (λ v. tick) (λ v c. before)) self.new.list.items (vehicles_if acts w) }
        ensures faults { CountsFloorFaults result (H.faults (heard to.old)) (H.faults (heard to.new)) }
        ensures passes { (acts : ℕ → Bool) (floor before : ℕ) (w : model.Floor) →
            FloorIs (Amid acts tick floor (λ v. before) (λ v c. before)) self.old.list.items w → w.tick ≡ tick → before + 1 ≡ tick →
            tick < floor + 2 ^ 32 → moments.new ≤ moments.old + passes_of (vehicles_if acts w) }
    {
        for place in 0..self.list.len() {
            self.vehicle_turn(alloc, place, tick, to, moments)?;
        }
        Ok(())
    }

    /// The unit tick of each session of a vehicle that acts, by call.
    fn sessions_pass<H: FloorListener, L: Ledger>(
        &mut self,
        alloc: Global,
        live: &[Live],
        tick: u64,
        to: &mut Tagged<'_, H>,
        moments: &mut Steps<L>,
    ) -> Result<(), FloorFault>
        ensures step { (acts : ℕ → Bool) (floor before : ℕ) (w : model.Floor) →
            FloorIs (Amid acts tick floor (λ v. tick) (λ v c. before)) self.old.list.items w → w.tick ≡ tick → before + 1 ≡ tick →
            IsReady w live.now →
            Came (FloorGrew H.grew to.old to.new) (FloorGrew H.partly to.old to.new) result
            (Amid acts tick floor (λ v. tick) (λ v c. tick)) self.new.list.items (sessions_if acts w) }
        ensures faults { CountsFloorFaults result (H.faults (heard to.old)) (H.faults (heard to.new)) }
        ensures passes { (acts : ℕ → Bool) (floor before : ℕ) (w : model.Floor) →
            FloorIs (Amid acts tick floor (λ v. tick) (λ v c. before)) self.old.list.items w → w.tick ≡ tick → before + 1 ≡ tick →
            IsReady w live.now → tick < floor + 2 ^ 32 →
            moments.new ≤ moments.old + passes_of (sessions_if acts w) }
    {
        for one in live {
            self.session_turn(alloc, one.place, one.call, tick, to, moments)?;
        }
        Ok(())
    }

    /// Adds the frames of a call that its flow up, or down, hands over at this tick, if its vehicle acts.
    fn list_call(
        &mut self,
        one: Live,
        tick: u64,
        up: bool,
        room: &mut Room,
    ) -> Result<(), AllocError>
        ensures lengths { (acts : ℕ → Bool) (floor : ℕ) (w : model.Floor) →
            FloorIs (Amid acts tick floor (λ a. tick) (λ a c. tick)) self.old.list.items w →
            length room.old.owners.items ≡ length room.old.due.items →
            OnOk result (length room.new.owners.items ≡ length room.new.due.items) }
        ensures same { (acts : ℕ → Bool) (floor : ℕ) (w : model.Floor) →
            FloorIs (Amid acts tick floor (λ a. tick) (λ a c. tick)) self.old.list.items w →
            FloorIs (Amid acts tick floor (λ a. tick) (λ a c. tick)) self.new.list.items w }
        ensures listed { (acts : ℕ → Bool) (floor v : ℕ) (w : model.Floor) →
            FloorIs (Amid acts tick floor (λ a. tick) (λ a c. tick)) self.old.list.items w → IsSeat w one.place v →
            length room.old.owners.items ≡ length room.old.due.items →
            OnOk result (listed_turns (numbers_of w.stands) up room.new.owners.items room.new.due.items ≡
            listed_turns (numbers_of w.stands) up room.old.owners.items room.old.due.items ++
            call_turns acts up v one.call w) }
    {
        if !self.is_awake(one.place, tick) {
            return Ok(());
        }
        self.list[one.place]
            .world
            .list_due(one.call, up, &mut room.due)?;
        own_all(&mut room.owners, room.due.len(), one.place)
    }

    /// The frames that the flow up, or down, hands over at this tick in the calls of the vehicles that act, in place of what
    /// stood there.
    fn list_due(
        &mut self,
        live: &[Live],
        tick: u64,
        up: bool,
        room: &mut Room,
    ) -> Result<(), AllocError>
        ensures lengths { (acts : ℕ → Bool) (floor : ℕ) (w : model.Floor) →
            FloorIs (Amid acts tick floor (λ a. tick) (λ a c. tick)) self.old.list.items w →
            OnOk result (length room.new.owners.items ≡ length room.new.due.items) }
        ensures same { (acts : ℕ → Bool) (floor : ℕ) (w : model.Floor) →
            FloorIs (Amid acts tick floor (λ a. tick) (λ a c. tick)) self.old.list.items w →
            FloorIs (Amid acts tick floor (λ a. tick) (λ a c. tick)) self.new.list.items w }
        ensures listed { (acts : ℕ → Bool) (floor : ℕ) (w : model.Floor) →
            FloorIs (Amid acts tick floor (λ a. tick) (λ a c. tick)) self.old.list.items w →
            IsReady w live.now → OnOk result
            ((u : model.Floor) → plays_if acts (listed_turns (numbers_of w.stands) up room.new.owners.items room.new.due.items) u
            ≡ plays_if acts (flow_turns up w) u) }
    {
        room.due.clear();
        room.owners.clear();
        for one in live {
            self.list_call(*one, tick, up, room)?;
        }
        Ok(())
    }

    /// Hands over these frames, which were sent up, or down.
    fn hand_each<H: FloorListener, L: Ledger>(
        &mut self,
        alloc: Global,
        room: &Room,
        up: bool,
        tick: u64,
        to: &mut Tagged<'_, H>,
        moments: &mut Steps<L>,
    ) -> Result<(), FloorFault>
        ensures step { (acts : ℕ → Bool) (floor : ℕ) (w : model.Floor) →
            FloorIs (Amid acts tick floor (λ a. tick) (λ a c. tick)) self.old.list.items w → w.tick ≡ tick →
            length room.now.owners.items ≡ length room.now.due.items →
            Came (FloorGrew H.grew to.old to.new) (FloorGrew H.partly to.old to.new) result
            (Amid acts tick floor (λ a. tick) (λ a c. tick)) self.new.list.items
            (plays_if acts (listed_turns (numbers_of w.stands) up room.now.owners.items room.now.due.items) w) }
        ensures faults { CountsFloorFaults result (H.faults (heard to.old)) (H.faults (heard to.new)) }
        ensures passes { (acts : ℕ → Bool) (floor : ℕ) (w : model.Floor) →
            FloorIs (Amid acts tick floor (λ a. tick) (λ a c. tick)) self.old.list.items w → w.tick ≡ tick →
            length room.now.owners.items ≡ length room.now.due.items → tick < floor + 2 ^ 32 →
            moments.new ≤ moments.old + passes_of
            (plays_if acts (listed_turns (numbers_of w.stands) up room.now.owners.items room.now.due.items) w) }
    {
        for k in 0..room.due.len() {
            let place = room.owner(k);
            self.hand_turn(alloc, place, up, &room.due[k], tick, to, moments)?;
        }
        Ok(())
    }

    /// Hands over what was sent up, or down, so many ticks ago, in the calls of the vehicles that act.
    fn flows<H: FloorListener, L: Ledger>(
        &mut self,
        alloc: Global,
        live: &[Live],
        tick: u64,
        up: bool,
        room: &mut Room,
        to: &mut Tagged<'_, H>,
        moments: &mut Steps<L>,
    ) -> Result<(), FloorFault>
        ensures step { (acts : ℕ → Bool) (floor : ℕ) (w : model.Floor) →
            FloorIs (Amid acts tick floor (λ a. tick) (λ a c. tick)) self.old.list.items w → w.tick ≡ tick →
            IsReady w live.now →
            Came (FloorGrew H.grew to.old to.new) (FloorGrew H.partly to.old to.new) result
            (Amid acts tick floor (λ a. tick) (λ a c. tick)) self.new.list.items (flows_if acts up w) }
        ensures faults { CountsFloorFaults result (H.faults (heard to.old)) (H.faults (heard to.new)) }
        ensures passes { (acts : ℕ → Bool) (floor : ℕ) (w : model.Floor) →
            FloorIs (Amid acts tick floor (λ a. tick) (λ a c. tick)) self.old.list.items w → w.tick ≡ tick →
            IsReady w live.now → tick < floor + 2 ^ 32 →
            moments.new ≤ moments.old + passes_of (flows_if acts up w) }
    {
        self.list_due(live, tick, up, room)?;
        self.hand_each(alloc, room, up, tick, to, moments)
    }

    /// The unit tick of the vehicles that act, and of their sessions, which are among the live ones.
    fn ends_pass<H: FloorListener, L: Ledger>(
        &mut self,
        alloc: Global,
        live: &[Live],
        tick: u64,
        to: &mut Tagged<'_, H>,
        moments: &mut Steps<L>,
    ) -> Result<(), FloorFault>
        ensures step { (acts : ℕ → Bool) (floor before : ℕ) (w : model.Floor) →
            FloorIs (Amid acts tick floor (λ v. before) (λ v c. before)) self.old.list.items w → w.tick ≡ tick → before + 1 ≡ tick →
            IsReady w live.now →
            Came (FloorGrew H.grew to.old to.new) (FloorGrew H.partly to.old to.new) result
            (Amid acts tick floor (λ v. tick) (λ v c. tick)) self.new.list.items (ends_if acts w) }
        ensures faults { CountsFloorFaults result (H.faults (heard to.old)) (H.faults (heard to.new)) }
        ensures passes { (acts : ℕ → Bool) (floor before : ℕ) (w : model.Floor) →
            FloorIs (Amid acts tick floor (λ v. before) (λ v c. before)) self.old.list.items w → w.tick ≡ tick → before + 1 ≡ tick →
            IsReady w live.now → tick < floor + 2 ^ 32 →
            moments.new ≤ moments.old + passes_of (ends_if acts w) }
    {
        self.vehicles_pass(alloc, tick, to, moments)?;
        self.sessions_pass(alloc, live, tick, to, moments)
    }

    /// The unit tick of the vehicles that act at this tick.
    pub(crate) fn unit<H: FloorListener, L: Ledger>(
        &mut self,
        alloc: Global,
        live: &[Live],
        tick: u64,
        room: &mut Room,
        to: &mut Tagged<'_, H>,
        moments: &mut Steps<L>,
    ) -> Result<(), FloorFault>
        ensures step { (acts : ℕ → Bool) (floor before : ℕ) (w : model.Floor) →
            FloorIs (Amid acts tick floor (λ v. before) (λ v c. before)) self.old.list.items w → w.tick ≡ tick → before + 1 ≡ tick →
            IsReady w live.now →
            Came (FloorGrew H.grew to.old to.new) (FloorGrew H.partly to.old to.new) result
            (Amid acts tick floor (λ v. tick) (λ v c. tick)) self.new.list.items (unit_if acts w) }
        ensures faults { CountsFloorFaults result (H.faults (heard to.old)) (H.faults (heard to.new)) }
        ensures passes { (acts : ℕ → Bool) (floor before : ℕ) (w : model.Floor) →
            FloorIs (Amid acts tick floor (λ v. before) (λ v c. before)) self.old.list.items w → w.tick ≡ tick → before + 1 ≡ tick →
            IsReady w live.now → tick < floor + 2 ^ 32 →
            moments.new ≤ moments.old + passes_of (unit_if acts w) }
    {
        self.ends_pass(alloc, live, tick, to, moments)?;
        self.flows(alloc, live, tick, true, room, to, moments)?;
        self.flows(alloc, live, tick, false, room, to, moments)
    }
}
