//! What a floor's script that is being played has come to.

ghost use Rattle.std.specs.Prelude.{◌≡◌, ℕ, ◌+◌, ◌^◌, ◌<◌, ◌≤◌, true, List, [], length, slice_get, None, Some};
ghost use Rattle.call_floor.specs.Floor as model;
ghost use Rattle.call_floor.specs.FloorLines as lines;
ghost use Rattle.call_floor.specs.FloorStands.{FloorStandsFor, numbers_drawn, ticks_elapsed};
ghost use Rattle.call_floor.specs.declared.event.FloorEvent.{FloorEvent as Line};
ghost use Rattle.floor_text.specs.VehicleFacts.{DraftsStandFor, VehicleFacts};
ghost use Rattle.floor_command.specs.FloorScript.{FloorSaid, is_there, nothing_said};
ghost use Rattle.floor_command.specs.declared.says.FloorLine.TheVariants as line;
ghost use Rattle.floor_command.specs.inner.FloorStage.{AreDistinct, Builds, HaltWriteCause, Joins, Learns, Obeys, PlaysEvent, StageStandsFor, calls_in, ticks_in};

use crate::says::FloorLine;
use call_floor::{Floor, FloorEvent, FloorFault, FloorListener, VehicleNumber};
use floor_text::Drafts;
use line_input::Reason;
use link_frames::Steps;
use std::alloc::Global;
use std::sync::ledger::Ledger;
use trace_text::FactLine;

/// What the lines so far have come to: facts by vehicle, and from the first event line on a floor.
#[derive(Drop)]
pub(crate) struct FloorStage {
    drafts: Drafts,
    floor: Option<Floor>,
}

/// Why a line isn't played to its end.
#[derive(Clone, Copy, Debug, PartialEq, Eq)]
pub(crate) enum Halt {
    Refused(Reason),
    /// There was no memory for a vehicle's facts, or for its place on the floor.
    Memory,
    Floor(FloorFault),
}

/// Adds a fact line in front of the first event line.
fn learn(drafts: &mut Drafts, vehicle: VehicleNumber, fact: &FactLine) -> Result<(), Halt>
    requires { (known : List VehicleFacts) × DraftsStandFor drafts.old known }
    ensures { Learns drafts.old drafts.new vehicle fact.now result }
{
    match drafts.add(vehicle.number(), fact) {
        Ok(true) => Ok(()),
        Ok(false) => Err(Halt::Refused(Reason::Many)),
        Err(_) => Err(Halt::Memory),
    }
}

/// Whether the vehicle of an event has a fact line, or the event is of none.
fn is_of_one_there(drafts: &Drafts, event: &FloorEvent) -> bool
    ensures { (known : List VehicleFacts) → DraftsStandFor drafts.now known → result ≡ is_there known event.now }
{
    match event {
        FloorEvent::Vehicle { vehicle, .. } => drafts.has(vehicle.number()),
        _ => true,
    }
}

/// The floor of the vehicles that have facts, before anything happened.
fn build(alloc: Global, drafts: &Drafts) -> Result<Floor, Halt>
    requires { (known : List VehicleFacts) × DraftsStandFor drafts.now known × AreDistinct known }
    ensures { (known : List VehicleFacts) → DraftsStandFor drafts.now known → AreDistinct known → Builds known result }
{
    let mut floor = Floor::new(alloc);
    for place in 0..drafts.len() {
        floor = join(alloc, floor, drafts, place)?;
    }
    Ok(floor)
}

/// The floor with the vehicle more whose facts stand at this place.
fn join(alloc: Global, floor: Floor, drafts: &Drafts, place: usize) -> Result<Floor, Halt>
    requires place { (known : List VehicleFacts) × DraftsStandFor drafts.now known × (place < length known) }
    ensures joins { (known : List VehicleFacts) (k : VehicleFacts) (stands : List model.Stand) →
        DraftsStandFor drafts.now known → slice_get known place ≡ Some k →
        FloorStandsFor floor (model.floor_with stands) → model.stand_of k.number stands ≡ None →
        Joins k stands floor result }
{
    let Some(facts) = drafts.facts(place) else {
        return Err(Halt::Refused(Reason::Missing));
    };
    let number = VehicleNumber::new(drafts.number(place)).unwrap();
    match floor.add(alloc, number, facts) {
        Ok(kept) => Ok(kept),
        Err(_) => Err(Halt::Memory),
    }
}

/// A line lets fewer than 2^32 ticks pass. This does nothing: its contract is that law.
fn ticks_are_few(event: &FloorEvent)
    ensures { (n : ℕ) → event.now ≡ FloorEvent.Tick n → n < 2 ^ 32 }
{
    if let FloorEvent::Tick(n) = event {
        n.number();
    }
}

impl FloorStage {
    /// Before any line.
    pub(crate) fn new(alloc: Global) -> FloorStage
        ensures stands { StageStandsFor result nothing_said [] }
        ensures calls { calls_in result ≡ 0 }
        ensures ticks { ticks_in result ≡ 0 }
    {
        FloorStage {
            drafts: Drafts::new(alloc),
            floor: None,
        }
    }

    /// Plays one line: a fact in front of the first event, or an event. Where memory is wanted, or a fault of the floor is
    /// answered, the stage is spent.
    pub(crate) fn obey<H: FloorListener, L: Ledger>(
        &mut self,
        alloc: Global,
        says: &FloorLine,
        to: &mut H,
        moments: &mut Steps<L>,
    ) -> Result<(), Halt>
        requires stands { (said : FloorSaid) × (events : List Line) × StageStandsFor self.old said events }
        requires few { calls_in self.old < 4294967295 }
        requires soon { ticks_in self.old + 4294967295 < 2 ^ 64 }
        ensures obeys { (said : FloorSaid) (events : List Line) → StageStandsFor self.old said events →
            Obeys (H.grew to.old to.new) (H.partly to.old to.new) (λ n. moments.new ≤ moments.old + n)
            self.old self.new said events says.now result }
        ensures unwritten { (said : FloorSaid) (events : List Line) → StageStandsFor self.old said events →
            HaltWriteCause result (H.faults to.old) (H.faults to.new) }
        ensures counted { (said : FloorSaid) (events : List Line) → StageStandsFor self.old said events →
            H.faults to.old ≤ H.faults to.new }
    {
        match says {
            FloorLine::Fact { vehicle, fact } => match self.floor {
                Some(_) => Err(Halt::Refused(Reason::Late)),
                None => learn(&mut self.drafts, *vehicle, fact),
            },
            FloorLine::Event(event) => self.happen(alloc, event, to, moments),
        }
    }

    /// Plays an event, if it is of no vehicle or of one that has a fact line.
    fn happen<H: FloorListener, L: Ledger>(
        &mut self,
        alloc: Global,
        event: &FloorEvent,
        to: &mut H,
        moments: &mut Steps<L>,
    ) -> Result<(), Halt>
        requires stands { (said : FloorSaid) × (events : List Line) × StageStandsFor self.old said events }
        requires few { calls_in self.old < 4294967295 }
        requires soon { ticks_in self.old + 4294967295 < 2 ^ 64 }
        ensures obeys { (said : FloorSaid) (events : List Line) → StageStandsFor self.old said events →
            Obeys (H.grew to.old to.new) (H.partly to.old to.new) (λ n. moments.new ≤ moments.old + n)
            self.old self.new said events (line.Event event.now) result }
        ensures unwritten { (said : FloorSaid) (events : List Line) → StageStandsFor self.old said events →
            HaltWriteCause result (H.faults to.old) (H.faults to.new) }
        ensures counted { (said : FloorSaid) (events : List Line) → StageStandsFor self.old said events →
            H.faults to.old ≤ H.faults to.new }
    {
        if is_of_one_there(&self.drafts, event) {
            self.go_on(alloc, event, to, moments)
        } else {
            Err(Halt::Refused(Reason::Missing))
        }
    }

    /// Plays an event of one that is there: on the floor, or on the first one, whose vehicles know the facts so far.
    fn go_on<H: FloorListener, L: Ledger>(
        &mut self,
        alloc: Global,
        event: &FloorEvent,
        to: &mut H,
        moments: &mut Steps<L>,
    ) -> Result<(), Halt>
        requires stands { (said : FloorSaid) × (events : List Line) × StageStandsFor self.old said events }
        requires few { calls_in self.old < 4294967295 }
        requires soon { ticks_in self.old + 4294967295 < 2 ^ 64 }
        ensures obeys { (said : FloorSaid) (events : List Line) → StageStandsFor self.old said events →
            is_there said.known event.now ≡ true →
            Obeys (H.grew to.old to.new) (H.partly to.old to.new) (λ n. moments.new ≤ moments.old + n)
            self.old self.new said events (line.Event event.now) result }
        ensures unwritten { (said : FloorSaid) (events : List Line) → StageStandsFor self.old said events →
            HaltWriteCause result (H.faults to.old) (H.faults to.new) }
        ensures counted { (said : FloorSaid) (events : List Line) → StageStandsFor self.old said events →
            H.faults to.old ≤ H.faults to.new }
    {
        match &mut self.floor {
            Some(floor) => play(floor, alloc, event, to, moments),
            None => self.begin(alloc, event, to, moments),
        }
    }

    /// Plays the first event, on the first floor, whose vehicles know the facts so far.
    fn begin<H: FloorListener, L: Ledger>(
        &mut self,
        alloc: Global,
        event: &FloorEvent,
        to: &mut H,
        moments: &mut Steps<L>,
    ) -> Result<(), Halt>
        requires stands { (said : FloorSaid) × (events : List Line) × StageStandsFor self.old said events }
        requires first { self.old.floor ≡ None }
        ensures obeys { (said : FloorSaid) (events : List Line) → StageStandsFor self.old said events →
            is_there said.known event.now ≡ true →
            Obeys (H.grew to.old to.new) (H.partly to.old to.new) (λ n. moments.new ≤ moments.old + n)
            self.old self.new said events (line.Event event.now) result }
        ensures unwritten { (said : FloorSaid) (events : List Line) → StageStandsFor self.old said events →
            HaltWriteCause result (H.faults to.old) (H.faults to.new) }
        ensures counted { (said : FloorSaid) (events : List Line) → StageStandsFor self.old said events →
            H.faults to.old ≤ H.faults to.new }
    {
        match build(alloc, &self.drafts) {
            Ok(floor) => self.open(floor, alloc, event, to, moments),
            Err(halt) => Err(halt),
        }
    }

    /// Plays the first event, on this floor.
    fn open<H: FloorListener, L: Ledger>(
        &mut self,
        floor: Floor,
        alloc: Global,
        event: &FloorEvent,
        to: &mut H,
        moments: &mut Steps<L>,
    ) -> Result<(), Halt>
        requires few { numbers_drawn floor < 4294967295 }
        requires soon { ticks_elapsed floor + 4294967295 < 2 ^ 64 }
        ensures played { (w : model.Floor) → FloorStandsFor floor w →
            PlaysEvent (H.grew to.old to.new) (H.partly to.old to.new) (λ n. moments.new ≤ moments.old + n)
            floor self.new.floor (lines.floor_step w event.now) (lines.passes_within w event.now) result }
        ensures drafts { self.new.drafts ≡ self.old.drafts }
        ensures unwritten { (w : model.Floor) → FloorStandsFor floor w →
            HaltWriteCause result (H.faults to.old) (H.faults to.new) }
        ensures counted { (w : model.Floor) → FloorStandsFor floor w → H.faults to.old ≤ H.faults to.new }
    {
        let mut floor = floor;
        let played = play(&mut floor, alloc, event, to, moments);
        self.floor = Some(floor);
        played
    }
}

/// Plays an event on a floor.
pub(crate) fn play<H: FloorListener, L: Ledger>(
    floor: &mut Floor,
    alloc: Global,
    event: &FloorEvent,
    to: &mut H,
    moments: &mut Steps<L>,
) -> Result<(), Halt>
    requires few { numbers_drawn floor.old < 4294967295 }
    requires soon { ticks_elapsed floor.old + 4294967295 < 2 ^ 64 }
    ensures played { (w : model.Floor) → FloorStandsFor floor.old w →
        PlaysEvent (H.grew to.old to.new) (H.partly to.old to.new) (λ n. moments.new ≤ moments.old + n)
        floor.old (Some floor.new) (lines.floor_step w event.now) (lines.passes_within w event.now) result }
    ensures unwritten { (w : model.Floor) → FloorStandsFor floor.old w →
        HaltWriteCause result (H.faults to.old) (H.faults to.new) }
    ensures counted { (w : model.Floor) → FloorStandsFor floor.old w → H.faults to.old ≤ H.faults to.new }
{
    ticks_are_few(event);
    match floor.advance(alloc, event, to, moments) {
        Ok(()) => Ok(()),
        Err(fault) => Err(Halt::Floor(fault)),
    }
}
