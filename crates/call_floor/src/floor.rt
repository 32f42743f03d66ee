//! Vehicles at one point.

ghost use Rattle.std.specs.Prelude.{◌<◌, ◌≤◌, IfSome, List, OnOk, length, slice_get, take};
ghost use Rattle.std.specs.List.{AllByRecursion};
ghost use Rattle.call_floor.specs.Floor as model;
ghost use Rattle.call_floor.specs.Floor.{first_stand, floor_with, joined};
ghost use Rattle.call_floor.specs.FloorStands.{SeatsStandFor};

use crate::event::{FloorEvent, VehicleNumber};
use crate::fault::FloorFault;
use crate::listener::{FloorListener, Tagged};
use crate::live::Live;
use crate::phases::Room;
use crate::seat::{Seat, Seats};
use channel_sim::World;
use link_frames::Steps;
use msd_fit::Facts;
use std::alloc::{AllocError, Global};
use std::sync::ledger::Ledger;
use trace_model::Event;

/// Vehicles at one point, and for each call number drawn the vehicle for which it was drawn.
#[derive(Drop)]
pub struct Floor {
    pub(crate) tick: u64,
    /// The last call number drawn.
    pub(crate) last: u32,
    pub(crate) drawn: Vec<u8>,
    /// The vehicles, by number.
    pub(crate) seats: Seats,
    /// The calls that may have a leg up, by number.
    pub(crate) live: Vec<Live>,
    pub(crate) room: Room,
}

/// Where a vehicle of this number takes its place: behind those of lower numbers.
fn place_for(seats: &[Seat], number: u8) -> usize
    ensures within { result ≤ length seats.now }
    ensures front { AllByRecursion (λ x. x.number ≤ number) (take result seats.now) }
    ensures next { IfSome (slice_get seats.now result) (λ x. number < x.number) }
{
    for place in 0..seats.len() {
        if seats[place].number > number {
            return place;
        }
    }
    seats.len()
}

/// A vehicle takes its place, which knows these facts.
fn join(seats: &mut Vec<Seat>, alloc: Global, number: u8, facts: Facts) -> Result<(), AllocError>
    ensures { (stands : List model.Stand) → SeatsStandFor (floor_with stands) seats.old.items stands → OnOk result
        (SeatsStandFor (floor_with (joined (first_stand number facts) stands)) seats.new.items
        (joined (first_stand number facts) stands)) }
{
    let place = place_for(seats, number);
    seats.insert(
        place,
        Seat {
            number,
            next: 0,
            world: World::new(alloc, facts),
        },
    )?;
    Ok(())
}

impl Floor {
    ghost use Rattle.std.specs.Prelude.{◌≡◌, ◌+◌, ◌^◌, ◌<◌, ◌≤◌, ℕ, List, [], length, None, Some, OnOk, OnErr, IfOk, IfErr};
    ghost use Rattle.channel_sim.specs.World as world;
    ghost use Rattle.call_floor.specs.Floor as model;
    ghost use Rattle.call_floor.specs.Floor.{first_stand, floor_with, joined, stand_of};
    ghost use Rattle.call_floor.specs.FloorFault.{CountsFloorFaults, FloorFaultCause};
    ghost use Rattle.call_floor.specs.FloorKept.{IsKept};
    ghost use Rattle.call_floor.specs.FloorLines.{floor_step, passes_within};
    ghost use Rattle.call_floor.specs.FloorStands.{CameInPlace, CameTo, FloorStandsFor, NeedsNumber, numbers_drawn, ticks_elapsed};
    ghost use Rattle.call_floor.specs.Tagged.{heard, FloorGrew};
    ghost use Rattle.call_floor.specs.inner.FloorAt.{CameNow, FloorNow};
    ghost use Rattle.call_floor.specs.Parts.{IsPart, mine_one, only, step_if};

    /// The floor before anything happened, with no vehicle. It takes no memory.
    pub fn new(alloc: Global) -> Floor
        ensures stands { FloorStandsFor result (floor_with []) }
        ensures calls { numbers_drawn result ≡ 0 }
        ensures reached { ticks_elapsed result ≡ 0 }
    {
        Floor {
            tick: 0,
            last: 0,
            drawn: Vec::new(alloc),
            seats: Seats {
                list: Vec::new(alloc),
            },
            live: Vec::new(alloc),
            room: Room::new(alloc),
        }
    }

    /// The same floor with one vehicle more, which knows these facts. That is known where no step was made, and no vehicle
    /// of this number is there. On an error the floor is spent.
    pub fn add(
        self,
        alloc: Global,
        number: VehicleNumber,
        facts: Facts,
    ) -> Result<Floor, AllocError>
        ensures stands { (stands : List model.Stand) → FloorStandsFor self (floor_with stands) →
            stand_of number stands ≡ None →
            IfOk result (λ kept. FloorStandsFor kept (floor_with (joined (first_stand number facts) stands))) }
        ensures calls { IfOk result (λ kept. numbers_drawn kept ≡ numbers_drawn self) }
        ensures reached { IfOk result (λ kept. ticks_elapsed kept ≡ ticks_elapsed self) }
    {
        let Floor {
            tick,
            last,
            drawn,
            mut seats,
            live,
            room,
        } = self;
        join(&mut seats.list, alloc, number.number(), facts)?;
        Ok(Floor {
            tick,
            last,
            drawn,
            seats,
            live,
            room,
        })
    }

    /// The tick that the floor has reached, in ticks of 100 ms.
    pub fn tick(&self) -> u64
        ensures reached { result ≡ ticks_elapsed self.now }
        ensures tick { (w : model.Floor) → FloorStandsFor self.now w → result ≡ w.tick }
    {
        self.tick
    }

    /// The last call number drawn, of all vehicles, and 0 before the first.
    pub fn calls(&self) -> u32
        ensures drawn { result ≡ numbers_drawn self.now }
        ensures calls { (w : model.Floor) → FloorStandsFor self.now w → result ≡ length w.drawn }
    {
        self.last
    }

    /// What one event line does: the listener hears each entry of the step, in order. A line of a vehicle that isn't there
    /// does nothing. After a failure the floor is spent.
    pub fn step<H: FloorListener, L: Ledger>(
        mut self,
        alloc: Global,
        event: &FloorEvent,
        to: &mut H,
        moments: &mut Steps<L>,
    ) -> Result<Floor, FloorFault>
        requires calls { NeedsNumber event.now → numbers_drawn self < 4294967295 }
        requires time { (n : ℕ) → event.now ≡ FloorEvent.Tick n → ticks_elapsed self + n < 2 ^ 64 }
        ensures step { (w : model.Floor) → FloorStandsFor self w →
            CameTo (H.grew to.old to.new) (H.partly to.old to.new) result (floor_step w event.now) }
        // For each vehicle the step is that of the world in which it is alone, where the line is kept for it, and else
        // nothing.
        ensures parts { (w : model.Floor) (v : ℕ) (u : world.World) → FloorStandsFor self w → only v w ≡ Some u →
            IsPart v (floor_step w event.now).floor (floor_step w event.now).entries
            (step_if (mine_one v w event.now) u) }
        ensures calls { (w : model.Floor) → FloorStandsFor self w →
            IfOk result (λ kept. numbers_drawn kept ≤ numbers_drawn self + 1) }
        ensures reached { (w : model.Floor) → FloorStandsFor self w →
            IfOk result (λ kept. ticks_elapsed kept ≤ ticks_elapsed self + 4294967295) }
        ensures stood { (w : model.Floor) → FloorStandsFor self w →
            OnOk result (H.faults to.new ≡ H.faults to.old) }
        ensures cause { (w : model.Floor) → FloorStandsFor self w →
            IfErr result (λ e. FloorFaultCause e (H.faults to.old) (H.faults to.new)) }
        ensures counted { (w : model.Floor) → FloorStandsFor self w → H.faults to.old ≤ H.faults to.new }
        ensures passes { (w : model.Floor) → FloorStandsFor self w →
            moments.new ≤ moments.old + passes_within w event.now }
    {
        self.advance(alloc, event, to, moments)?;
        Ok(self)
    }

    /// As `step`, in place. After a failure the floor is spent: its ticks and call numbers are those in front of the line,
    /// and of its vehicles and calls nothing is known.
    pub fn advance<H: FloorListener, L: Ledger>(
        &mut self,
        alloc: Global,
        event: &FloorEvent,
        to: &mut H,
        moments: &mut Steps<L>,
    ) -> Result<(), FloorFault>
        requires calls { NeedsNumber event.now → numbers_drawn self.old < 4294967295 }
        requires time { (n : ℕ) → event.now ≡ FloorEvent.Tick n → ticks_elapsed self.old + n < 2 ^ 64 }
        ensures step { (w : model.Floor) → FloorStandsFor self.old w →
            CameInPlace (H.grew to.old to.new) (H.partly to.old to.new) result self.new (floor_step w event.now) }
        ensures parts { (w : model.Floor) (v : ℕ) (u : world.World) → FloorStandsFor self.old w → only v w ≡ Some u →
            IsPart v (floor_step w event.now).floor (floor_step w event.now).entries
            (step_if (mine_one v w event.now) u) }
        ensures calls { (w : model.Floor) → FloorStandsFor self.old w →
            OnOk result (numbers_drawn self.new ≤ numbers_drawn self.old + 1) }
        ensures reached { (w : model.Floor) → FloorStandsFor self.old w →
            OnOk result (ticks_elapsed self.new ≤ ticks_elapsed self.old + 4294967295) }
        ensures spent { OnErr result
            ((ticks_elapsed self.new ≡ ticks_elapsed self.old) × (numbers_drawn self.new ≡ numbers_drawn self.old)) }
        ensures stood { (w : model.Floor) → FloorStandsFor self.old w →
            OnOk result (H.faults to.new ≡ H.faults to.old) }
        ensures cause { (w : model.Floor) → FloorStandsFor self.old w →
            IfErr result (λ e. FloorFaultCause e (H.faults to.old) (H.faults to.new)) }
        ensures counted { (w : model.Floor) → FloorStandsFor self.old w → H.faults to.old ≤ H.faults to.new }
        ensures passes { (w : model.Floor) → FloorStandsFor self.old w →
            moments.new ≤ moments.old + passes_within w event.now }
    {
        let (tick, last) = (self.tick, self.last);
        match self.obeys(alloc, event, &mut Tagged::over(to, 0), moments) {
            Ok(()) => Ok(()),
            Err(fault) => {
                self.tick = tick;
                self.last = last;
                Err(fault)
            }
        }
    }

    /// What one event line does.
    fn obeys<H: FloorListener, L: Ledger>(
        &mut self,
        alloc: Global,
        event: &FloorEvent,
        to: &mut Tagged<'_, H>,
        moments: &mut Steps<L>,
    ) -> Result<(), FloorFault>
        requires calls { NeedsNumber event.now → self.old.last < 4294967295 }
        requires time { (n : ℕ) → event.now ≡ FloorEvent.Tick n → self.old.tick + n < 2 ^ 64 }
        ensures step { (w : model.Floor) → FloorNow self.old w → IsKept w →
            CameNow (FloorGrew H.grew to.old to.new) (FloorGrew H.partly to.old to.new) result self.new
            (floor_step w event.now) }
        ensures faults { CountsFloorFaults result (H.faults (heard to.old)) (H.faults (heard to.new)) }
        ensures passes { (w : model.Floor) → FloorNow self.old w → IsKept w →
            moments.new ≤ moments.old + passes_within w event.now }
        ensures tick { OnOk result (self.new.tick ≤ self.old.tick + 4294967295) }
    {
        match event {
            FloorEvent::Vehicle { vehicle, line } => {
                self.vehicle_line(alloc, *vehicle, line, to, moments)
            }
            FloorEvent::Call { call, line } => self.call_line(alloc, *call, line, to, moments),
            FloorEvent::Flow { up, delay } => {
                let event = Event::Flow {
                    up: *up,
                    delay: *delay,
                };
                self.set_flow(alloc, &event, to, moments)
            }
            FloorEvent::Tick(n) => self.tick_line(alloc, *n, to, moments),
        }
    }
}
