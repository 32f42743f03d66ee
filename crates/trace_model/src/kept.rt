//! The listener that keeps what it hears.
ghost use Rattle.std.specs.Prelude.{◌≡◌, [], ◌∷◌, ◌++◌, OnOk, OnErr, IfErr};

use crate::entry::Entry;
use crate::listener::{Deaf, Listener};
use std::alloc::Global;
use std::marker::Model;
use std::slice;

/// Keeps the entries that it hears in memory, in order.
#[derive(Drop)]
pub struct Kept {
    entries: Vec<Entry>,
}

impl Model for Kept {
    ghost use Rattle.std.specs.Prelude.{List};
    ghost use Rattle.trace_model.specs.declared.entry.Entry.{Entry};

    ghost Value = { List Entry };

    ghost view = { λ kept. kept.entries.items };
}

impl Kept {
    /// One that has heard nothing. It takes no memory yet.
    pub fn new(alloc: Global) -> Kept
        ensures { result ≡ [] }
    {
        Kept {
            entries: Vec::new(alloc),
        }
    }

    /// What it heard, in order.
    pub fn entries(&self) -> &[Entry]
        ensures { result.now ≡ self.now }
    {
        &self.entries
    }
}

impl Listener for Kept {
    ghost use Rattle.std.specs.Prelude.{◌≡◌, [], ◌∷◌, ◌++◌, OnOk, OnErr, IfErr};
    ghost use Rattle.trace_model.specs.Listener.{KeptGrew, GrewByFront};
    ghost use Rattle.trace_model.specs.inner.ListenerLaws.{KeptGrew-nothing, KeptGrew-append, GrewByFront-whole, GrewByFront-after, GrewByFront-longer};

    ghost grew = { KeptGrew };

    ghost partly = { GrewByFront KeptGrew };

    ghost faults = { λ _. 0 };

    fn hear(&mut self, _alloc: Global, entry: &Entry) -> Result<(), Deaf>
        ensures ok { OnOk result (self.new ≡ self.old ++ entry.now ∷ []) }
        ensures err { OnErr result (self.new ≡ self.old) }
        ensures memory { IfErr result (λ e. e ≡ Deaf.Memory) }
    {
        // A slice of one, since no proof can be made for `push` of an enum within an enum of another crate.
        match self.entries.extend_from_slice(slice::from_ref(entry)) {
            Ok(()) => Ok(()),
            Err(_) => Err(Deaf::Memory),
        }
    }

    ghost unchanged = { KeptGrew-nothing };

    ghost twice = { KeptGrew-append };

    ghost whole = { GrewByFront-whole KeptGrew };

    ghost then_partly = { GrewByFront-after KeptGrew KeptGrew-append };

    ghost longer = { GrewByFront-longer KeptGrew };
}
