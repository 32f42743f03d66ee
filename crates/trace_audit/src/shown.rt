//! The sets of data that a trace has shown.

ghost use Rattle.std.specs.Prelude.{◌≡◌, ◌↔◌, [], ◌∷◌, ◌++◌, IsTrue, List, OnOk, ℕ};
ghost use Rattle.link_frames.specs.declared.note.Note.TheVariants as note;
ghost use Rattle.trace_model.specs.Safety.{WasShown};
ghost use Rattle.trace_model.specs.declared.entry.Entry.{Entry};
ghost use Rattle.trace_audit.specs.ShownStands.{ShownStandsFor};

use call_io::Memory;
use link_frames::Request;
use std::alloc::Global;
use std::collections::HashSet;

/// A set of data that was shown, with its call and its request.
#[derive(Clone, Copy, PartialEq, Eq, Hash)]
pub(crate) struct Showing {
    call: u32,
    request: u8,
    octets: [u8; 140],
}

/// What was shown so far, each set once.
#[derive(Drop)]
pub(crate) struct Shown {
    sets: HashSet<Showing>,
}

impl Shown {
    /// Nothing was shown.
    pub(crate) fn new(alloc: Global) -> Shown
        ensures { ShownStandsFor result [] }
    {
        Shown {
            sets: HashSet::new(alloc),
        }
    }

    /// Whether these octets were shown for this request of this call.
    pub(crate) fn has(&self, call: u32, request: Request, octets: &[u8; 140]) -> bool
        ensures { (t : List Entry) → ShownStandsFor self.now t →
            (IsTrue result ↔ WasShown call request octets.now t) }
    {
        let showing = Showing {
            call,
            request: request.number(),
            octets: *octets,
        };
        self.sets.contains(&showing)
    }

    /// These octets are shown for this request of this call.
    pub(crate) fn add(
        &mut self,
        call: u32,
        request: Request,
        octets: &[u8; 140],
    ) -> Result<(), Memory>
        ensures { (t : List Entry) (x : Entry) → x.note ≡ note.Shown call request octets.now →
            ShownStandsFor self.old t → OnOk result (ShownStandsFor self.new (t ++ x ∷ [])) }
    {
        let showing = Showing {
            call,
            request: request.number(),
            octets: *octets,
        };
        match self.sets.insert(showing) {
            Ok(_) => Ok(()),
            Err(_) => Err(Memory),
        }
    }
}
