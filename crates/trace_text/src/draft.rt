//! What the fact lines so far say together.
ghost use Rattle.std.specs.Prelude.{◌≡◌, ◌++◌, [], ◌∷◌, List, false, true, not};
ghost use Rattle.std.specs.Option.{option_copied};
ghost use Rattle.trace_text.specs.Facts.{is_one_too_many, own_in, facts_in, no_marks as none_marked};
ghost use Rattle.trace_text.specs.Drafts.{DraftOf};
ghost use Rattle.trace_text.specs.inner.Drafting.{draft_with, has_room_for, first_own};
ghost use Rattle.trace_text.specs.declared.fact_line.FactLine.{FactLine as Line};

use crate::fact_line::FactLine;
use arrayvec::ArrayVec;
use msd_fit::{Candidate, Facts, MOST_CANDIDATES, OwnFacts};
use msd_values::{Format, Marks, RootKind, Vin};

/// What the fact lines so far say together. It takes no memory.
#[derive(Drop)]
pub struct Draft {
    // where the number, the category or the time of the vehicle didn't come yet, some other stands in its place
    own: OwnFacts,
    has_vin: bool,
    has_kind: bool,
    has_time: bool,
    ready: Option<[u8; 140]>,
}

impl Draft {
    /// Before any line.
    pub fn new() -> Draft
        ensures { DraftOf result [] }
    {
        Draft {
            own: first_facts(),
            has_vin: false,
            has_kind: false,
            has_time: false,
            ready: None,
        }
    }

    /// Adds a line. False is for a candidate of additional data behind four others.
    pub fn add(&mut self, fact: &FactLine) -> bool
        ensures answer { (lines : List Line) → DraftOf self.old lines → result ≡ not (is_one_too_many lines fact.now) }
        ensures taken { (lines : List Line) → DraftOf self.old lines → is_one_too_many lines fact.now ≡ false →
            DraftOf self.new (lines ++ fact.now ∷ []) }
        ensures kept { result ≡ false → self.new ≡ self.old }
    {
        if self.has_room(fact) {
            self.put(fact);
            true
        } else {
            false
        }
    }

    /// What the vehicle knows of itself, where its number, its category and its time came.
    pub fn own(&self) -> Option<OwnFacts>
        ensures { (lines : List Line) → DraftOf self.now lines → result ≡ own_in lines }
    {
        match self.own_ref() {
            Some(own) => Some(copy_of(own)),
            None => None,
        }
    }

    /// The same, lent.
    pub fn own_ref(&self) -> Option<&OwnFacts>
        ensures { (lines : List Line) → DraftOf self.now lines → option_copied result ≡ own_in lines }
    {
        if self.has_vin && self.has_kind && self.has_time {
            Some(&self.own)
        } else {
            None
        }
    }

    /// What the vehicle's sets of data are made of, where a ready set came or what `own` asks for.
    pub fn facts(&self) -> Option<Facts>
        ensures { (lines : List Line) → DraftOf self.now lines → result ≡ facts_in lines }
    {
        if let Some(octets) = self.ready {
            return Some(Facts::Ready(octets));
        }
        match self.own() {
            Some(own) => Some(Facts::Own(own)),
            None => None,
        }
    }

    /// Whether there is room for a line.
    fn has_room(&self, fact: &FactLine) -> bool
        ensures { result ≡ has_room_for self.now fact.now }
    {
        match fact {
            FactLine::Extra(_) => self.own.extras.len() < MOST_CANDIDATES,
            _ => true,
        }
    }

    /// Adds a line that there is room for.
    fn put(&mut self, fact: &FactLine)
        requires { has_room_for self.old fact.now ≡ true }
        ensures { self.new ≡ draft_with self.old fact.now }
    {
        match fact {
            FactLine::Vin(vin) => {
                self.own.vin = *vin;
                self.has_vin = true;
            }
            FactLine::Kind(kind) => {
                self.own.kind = *kind;
                self.has_kind = true;
            }
            FactLine::Format(format) => self.own.format = *format,
            FactLine::Fuel(fuel) => self.own.fuel = *fuel,
            FactLine::Time(time) => {
                self.own.time = *time;
                self.has_time = true;
            }
            FactLine::Place {
                latitude,
                longitude,
            } => {
                self.own.latitude = *latitude;
                self.own.longitude = *longitude;
            }
            FactLine::Heading(heading) => self.own.heading = *heading,
            FactLine::Trusted(trusted) => self.own.trusted = *trusted,
            FactLine::Before1(way) => self.own.before1 = Some(*way),
            FactLine::Before2(way) => self.own.before2 = Some(*way),
            FactLine::Passengers(count) => self.own.passengers = Some(*count),
            FactLine::Extra(candidate) => self.own.extras.push(*candidate),
            FactLine::Set(octets) => self.ready = Some(*octets),
        }
    }
}

/// The facts before any line. A number of zeros and the first category hold the places of what is to come.
fn first_facts() -> OwnFacts
    ensures { result ≡ first_own }
{
    OwnFacts {
        format: Format::Two,
        vin: Vin::of([b'0'; 17]),
        kind: first_kind(),
        fuel: no_marks(),
        time: 0,
        latitude: i32::MAX,
        longitude: i32::MAX,
        heading: u8::MAX,
        trusted: false,
        before1: None,
        before2: None,
        passengers: None,
        extras: ArrayVec::new(),
    }
}

fn first_kind() -> RootKind
    ensures { result ≡ 1 }
{
    RootKind::new(1).unwrap()
}

fn no_marks() -> Marks
    ensures { result ≡ none_marked }
{
    Marks {
        gasoline: false,
        diesel: false,
        natural_gas: false,
        propane: false,
        electric: false,
        hydrogen: false,
        other: false,
    }
}

/// These facts, a second time.
fn copy_of(own: &OwnFacts) -> OwnFacts
    ensures { result ≡ own.now }
{
    OwnFacts {
        format: own.format,
        vin: own.vin,
        kind: own.kind,
        fuel: own.fuel,
        time: own.time,
        latitude: own.latitude,
        longitude: own.longitude,
        heading: own.heading,
        trusted: own.trusted,
        before1: own.before1,
        before2: own.before2,
        passengers: own.passengers,
        extras: copy_extras(&own.extras),
    }
}

type Extras = ArrayVec<Candidate, MOST_CANDIDATES>;

fn copy_extras(extras: &Extras) -> Extras
    ensures { result ≡ extras.now }
{
    let mut copy = ArrayVec::new();
    copy.try_extend_from_slice(extras.as_slice()).unwrap();
    copy
}
