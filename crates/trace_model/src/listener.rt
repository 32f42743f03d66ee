//! Who hears of a trace, entry by entry.
ghost use Rattle.std.specs.Prelude.{◌≡◌, ℕ, ◌≤◌, List, [], ◌∷◌, ◌++◌, OnOk, OnErr, IfErr};
ghost use Rattle.trace_model.specs.Listener.{DeafCause};
ghost use Rattle.trace_model.specs.declared.entry.Entry.{Entry};

use crate::entry::Entry;
use link_frames::Note;
use std::alloc::Global;
use thiserror::Error;

/// Why a listener didn't take an entry in whole.
#[derive(Debug, Clone, Copy, PartialEq, Eq, Error)]
pub enum Deaf {
    #[error("write failed")]
    Write,
    #[error("no memory")]
    Memory,
}

/// Hears the entries of a trace in order. After an error it isn't used again.
pub trait Listener {
    // The listener before, the one after, and the entries by which it grew.
    ghost grew: { Self → Self → List Entry → Type 0 };

    // The same where it may have been cut short anywhere.
    ghost partly: { Self → Self → List Entry → Type 0 };

    // How many writes failed below it.
    ghost faults: { Self → ℕ };

    /// Takes the entry in. `alloc` is for a listener that keeps what it hears.
    fn hear(&mut self, alloc: Global, entry: &Entry) -> Result<(), Deaf>
        ensures ok { OnOk result (grew self.old self.new (entry.now ∷ [])) }
        ensures err { OnErr result (partly self.old self.new (entry.now ∷ [])) }
        ensures stood { OnOk result (faults self.new ≡ faults self.old) }
        ensures cause { IfErr result (λ e. DeafCause e (faults self.old) (faults self.new)) }
        ensures counted { faults self.old ≤ faults self.new };

    /// As `hear`, of an item at a tick, in ticks of 100 ms. A listener that keeps no entry need not have the item
    /// copied.
    fn hear_item(&mut self, alloc: Global, tick: u64, item: &Note) -> Result<(), Deaf>
        ensures ok { OnOk result (grew self.old self.new (record { tick = tick; note = item.now } ∷ [])) }
        ensures err { OnErr result (partly self.old self.new (record { tick = tick; note = item.now } ∷ [])) }
        ensures stood { OnOk result (faults self.new ≡ faults self.old) }
        ensures cause { IfErr result (λ e. DeafCause e (faults self.old) (faults self.new)) }
        ensures counted { faults self.old ≤ faults self.new }
    {
        self.hear(alloc, &Entry { tick, note: *item })
    }

    // An unchanged listener grew by nothing.
    ghost unchanged: { (a : Self) → grew a a [] };

    // Two growths one behind the other are one.
    ghost twice: { (a b c : Self) (s t : List Entry) → grew a b s → grew b c t → grew a c (s ++ t) };

    // A growth is partly that growth.
    ghost whole: { (a b : Self) (s : List Entry) → grew a b s → partly a b s };

    // A growth, and then a part of another, are a part of both.
    ghost then_partly: { (a b c : Self) (s t : List Entry) → grew a b s → partly b c t → partly a c (s ++ t) };

    // A part of some entries is a part of all that begin with them.
    ghost longer: { (a b : Self) (s t : List Entry) → partly a b s → partly a b (s ++ t) };
}
