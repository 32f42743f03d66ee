//! The sets of data of a trace.
ghost use Rattle.std.specs.Prelude.{◌≡◌, [], OnOk};
ghost use Rattle.view_reports.specs.Sets.{sets_behind, sets_with, times_in};

use crate::handled::{Handled, SetOf, handled_by};
use crate::times::Times;
use call_io::Memory;
use indexmap::IndexMap;
use link_frames::Note;
use std::alloc::Global;
use std::marker::Model;

/// The sets of a trace, in the order in which they were first sent, shown or acknowledged.
#[derive(Drop)]
pub(crate) struct Sets {
    rows: IndexMap<SetOf, Times>,
}

impl Model for Sets {
    ghost use Rattle.view_reports.specs.Sets.{SetRows};

    ghost Value = { SetRows };

    ghost view = { λ s. s.rows.entries };
}

impl Sets {
    /// No set. It takes no memory yet.
    pub(crate) fn new(alloc: Global) -> Sets
        ensures { result ≡ [] }
    {
        Sets {
            rows: IndexMap::new(alloc),
        }
    }

    /// When each set was sent, shown and acknowledged.
    pub(crate) fn rows(&self) -> &IndexMap<SetOf, Times>
        ensures { result.now.entries ≡ self.now }
    {
        &self.rows
    }

    /// When a set was sent, shown and acknowledged.
    pub(crate) fn times(&self, set: &SetOf) -> Times
        ensures { result ≡ times_in self.now set.now }
    {
        match self.rows.get(set) {
            Some(times) => *times,
            None => Times::new(),
        }
    }

    /// Something is done with a set at this tick.
    fn handle(&mut self, handled: &Handled, now: u64) -> Result<(), Memory>
        ensures { OnOk result (self.new ≡ sets_with (Some handled.now) self.old now) }
    {
        let times = self.times(&handled.set).behind(handled.step, now);
        match self.rows.insert(handled.set, times) {
            Ok(_) => Ok(()),
            Err(_) => Err(Memory),
        }
    }

    /// Hears an item that stands at this tick.
    pub(crate) fn hear(&mut self, note: &Note, now: u64) -> Result<(), Memory>
        ensures { OnOk result (self.new ≡ sets_behind self.old note.now now) }
    {
        match handled_by(note) {
            Some(handled) => self.handle(&handled, now),
            None => Ok(()),
        }
    }
}
