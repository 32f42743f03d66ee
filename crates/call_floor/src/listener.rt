//! Who hears of a floor, entry by entry, and how one vehicle's entries come to it.

ghost use Rattle.std.specs.Prelude.{◌≡◌, ℕ, ◌≤◌, List, [], ◌∷◌, ◌++◌, OnOk, OnErr, IfErr};
ghost use Rattle.trace_model.specs.Listener.{DeafCause};
ghost use Rattle.call_floor.specs.Tagged.{heard, heard_name, TaggedGrew};
ghost use Rattle.call_floor.specs.inner.TaggedLaws.{Tagged-unchanged, Tagged-twice, Tagged-whole, Tagged-then_partly, Tagged-longer};
ghost use Rattle.trace_model.specs.declared.entry.Entry as traced;
ghost use Rattle.call_floor.specs.declared.entry.FloorEntry as told;

use crate::entry::FloorEntry;
use std::alloc::Global;
use trace_model::{Deaf, Entry, Listener};

/// Hears the entries of a floor in order. After an error it isn't used again.
pub trait FloorListener {
    // The listener before, the one after, and the entries by which it grew.
    ghost grew: { Self → Self → List told.FloorEntry → Type 0 };

    // The same where it may have been cut short anywhere.
    ghost partly: { Self → Self → List told.FloorEntry → Type 0 };

    // How many writes failed below it.
    ghost faults: { Self → ℕ };

    /// Takes the entry in. `alloc` is for a listener that keeps what it hears.
    fn hear(&mut self, alloc: Global, entry: &FloorEntry) -> Result<(), Deaf>
        ensures ok { OnOk result (grew self.old self.new (entry.now ∷ [])) }
        ensures err { OnErr result (partly self.old self.new (entry.now ∷ [])) }
        ensures stood { OnOk result (faults self.new ≡ faults self.old) }
        ensures cause { IfErr result (λ e. DeafCause e (faults self.old) (faults self.new)) }
        ensures counted { faults self.old ≤ faults self.new };

    // An unchanged listener grew by nothing.
    ghost unchanged: { (a : Self) → grew a a [] };

    // Two growths one behind the other are one.
    ghost twice: { (a b c : Self) (s t : List told.FloorEntry) → grew a b s → grew b c t → grew a c (s ++ t) };

    // A growth is partly that growth.
    ghost whole: { (a b : Self) (s : List told.FloorEntry) → grew a b s → partly a b s };

    // A growth, and then a part of another, are a part of both.
    ghost then_partly: { (a b c : Self) (s t : List told.FloorEntry) → grew a b s → partly b c t →
        partly a c (s ++ t) };

    // A part of some entries is a part of all that begin with them.
    ghost longer: { (a b : Self) (s t : List told.FloorEntry) → partly a b s → partly a b (s ++ t) };
}

/// Hands on each entry that it hears as one of a vehicle, to a listener that it borrows.
#[derive(Drop)]
pub struct Tagged<'a, H> {
    to: &'a mut H,
    vehicle: u8,
}

impl<'a, H> Tagged<'a, H> {
    /// Hands on to this listener, as of this vehicle.
    pub fn over(to: &'a mut H, vehicle: u8) -> Tagged<'a, H>
        ensures same { heard_name result ≡ to.entry.ghost_name }
        ensures value { heard result ≡ to.old }
        ensures vehicle { result.vehicle ≡ vehicle }
    {
        Tagged { to, vehicle }
    }

    /// What it hears from now on is of this vehicle.
    pub fn speak_for(&mut self, vehicle: u8)
        ensures { self.new ≡ record self.old { vehicle = vehicle } }
    {
        self.vehicle = vehicle;
    }
}

impl<'a, H: FloorListener> Listener for Tagged<'a, H> {
    ghost grew = { TaggedGrew H.grew };

    ghost partly = { TaggedGrew H.partly };

    ghost faults = { λ t. H.faults (heard t) };

    fn hear(&mut self, alloc: Global, entry: &Entry) -> Result<(), Deaf>
        ensures ok { OnOk result (TaggedGrew H.grew self.old self.new (entry.now ∷ [])) }
        ensures err { OnErr result (TaggedGrew H.partly self.old self.new (entry.now ∷ [])) }
        ensures stood { OnOk result (H.faults (heard self.new) ≡ H.faults (heard self.old)) }
        ensures cause { IfErr result (λ e. DeafCause e (H.faults (heard self.old)) (H.faults (heard self.new))) }
        ensures counted { H.faults (heard self.old) ≤ H.faults (heard self.new) }
    {
        let told = FloorEntry {
            vehicle: self.vehicle,
            entry: *entry,
        };
        self.to.hear(alloc, &told)
    }

    ghost unchanged = { Tagged-unchanged H.grew H.unchanged };

    ghost twice = { Tagged-twice H.grew H.twice };

    ghost whole = { Tagged-whole H.grew H.partly H.whole };

    ghost then_partly = { Tagged-then_partly H.grew H.partly H.then_partly };

    ghost longer = { Tagged-longer H.partly H.longer };
}
