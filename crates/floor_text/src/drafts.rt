//! What the fact lines of a floor's script said so far, by vehicle.

ghost use Rattle.std.specs.Prelude.{◌≡◌, ◌==◌, ◌<◌, ◌∷◌, ◌++◌, List, [], length, not, position, true, IfOk, OnOk, Some, slice_get};
ghost use Rattle.trace_text.specs.Drafts.{DraftOf};
ghost use Rattle.trace_text.specs.Facts.{is_one_too_many, facts_in};
ghost use Rattle.trace_text.specs.declared.draft.Draft.{Draft as Kept};
ghost use Rattle.trace_text.specs.declared.fact_line.FactLine.{FactLine as Line};
ghost use Rattle.floor_text.specs.VehicleFacts.{DraftsStandFor, VehicleFacts, has_facts, lines_for, with_fact};
ghost use Rattle.floor_text.specs.VehicleNumbers.{IsVehicle};
ghost use Rattle.floor_text.specs.inner.DraftAt.{AddsAt, IsBehind};

use memchr::memchr;
use msd_fit::Facts;
use std::alloc::{AllocError, Global};
use trace_text::{Draft, FactLine};

/// What the fact lines so far say together of each vehicle. There is room only for vehicles that have a fact line.
#[derive(Drop)]
pub struct Drafts {
    // the vehicles, in the order of their first fact lines, and the draft of each
    numbers: Vec<u8>,
    drafts: Vec<Draft>,
}

impl Drafts {
    /// Before any line. It takes no memory.
    pub fn new(alloc: Global) -> Drafts
        ensures { DraftsStandFor result [] }
    {
        Drafts {
            numbers: Vec::new(alloc),
            drafts: Vec::new(alloc),
        }
    }

    /// Adds a line of a vehicle, 1 to 64. False is for a candidate of additional data behind four others of that vehicle,
    /// and leaves the drafts as they were. On an error they are spent.
    pub fn add(&mut self, vehicle: u8, fact: &FactLine) -> Result<bool, AllocError>
        requires range { IsVehicle vehicle }
        requires stands { (known : List VehicleFacts) × DraftsStandFor self.old known }
        ensures { (known : List VehicleFacts) → DraftsStandFor self.old known → IfOk result (λ room.
            (room ≡ not (is_one_too_many (lines_for vehicle known) fact.now))
            × (room ≡ true → DraftsStandFor self.new (with_fact vehicle fact.now known))) }
    {
        match self.place(vehicle) {
            Some(place) => Ok(self.add_at(place, fact)),
            None => self.join(vehicle, fact),
        }
    }

    /// Adds a line of the vehicle whose draft stands at this place.
    fn add_at(&mut self, place: usize, fact: &FactLine) -> bool
        requires { place < length self.old.drafts.items }
        ensures numbers { self.new.numbers ≡ self.old.numbers }
        ensures adds { (lines : List Line) (old : Kept) → slice_get self.old.drafts.items place ≡ Some old →
            DraftOf old lines → AddsAt place self.old.drafts.items self.new.drafts.items lines fact.now result }
    {
        self.drafts[place].add(fact)
    }

    /// Adds the first line of a vehicle.
    fn join(&mut self, vehicle: u8, fact: &FactLine) -> Result<bool, AllocError>
        ensures room { IfOk result (λ room. room ≡ true) }
        ensures numbers { OnOk result (self.new.numbers.items ≡ self.old.numbers.items ++ vehicle ∷ []) }
        ensures drafts { OnOk result (IsBehind self.old.drafts.items self.new.drafts.items fact.now) }
    {
        let mut draft = Draft::new();
        draft.add(fact);
        self.numbers.push(vehicle)?;
        self.drafts.push(draft)?;
        Ok(true)
    }

    /// Whether a vehicle has a fact line.
    pub fn has(&self, vehicle: u8) -> bool
        ensures { (known : List VehicleFacts) → DraftsStandFor self.now known → result ≡ has_facts vehicle known }
    {
        match self.place(vehicle) {
            Some(_) => true,
            None => false,
        }
    }

    /// How many vehicles have a fact line.
    pub fn len(&self) -> usize
        ensures { (known : List VehicleFacts) → DraftsStandFor self.now known → result ≡ length known }
    {
        self.numbers.len()
    }

    /// The number of the vehicle at a place, in the order of first fact lines.
    pub fn number(&self, place: usize) -> u8
        requires { (known : List VehicleFacts) × DraftsStandFor self.now known × (place < length known) }
        ensures number { (known : List VehicleFacts) (k : VehicleFacts) → DraftsStandFor self.now known →
            slice_get known place ≡ Some k → result ≡ k.number }
        ensures range { IsVehicle result }
    {
        self.numbers[place]
    }

    /// What the sets of data of the vehicle at a place are made of, where its facts suffice.
    pub fn facts(&self, place: usize) -> Option<Facts>
        requires { (known : List VehicleFacts) × DraftsStandFor self.now known × (place < length known) }
        ensures { (known : List VehicleFacts) (k : VehicleFacts) → DraftsStandFor self.now known →
            slice_get known place ≡ Some k → result ≡ facts_in k.lines }
    {
        self.drafts[place].facts()
    }

    /// Where a vehicle's draft stands.
    fn place(&self, vehicle: u8) -> Option<usize>
        ensures { result ≡ position (λ b. b == vehicle) self.now.numbers.items }
    {
        memchr(vehicle, &self.numbers)
    }
}
