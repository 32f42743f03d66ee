//! The calls of a trace.
ghost use Rattle.std.specs.Prelude.{◌≡◌, [], OnOk};
ghost use Rattle.view_reports.specs.Calls.{call_in, calls_behind, calls_moved, moved_leg, side_in};

use crate::call::Call;
use crate::side::Side;
use call_io::Memory;
use indexmap::IndexMap;
use link_frames::{End, Note};
use std::alloc::Global;
use std::marker::Model;
use trace_model::{LegOf, leg_of};

/// The calls of a trace, in the order in which it first has them come up, go down or turn a voice.
#[derive(Drop)]
pub(crate) struct Calls {
    rows: IndexMap<u32, Call>,
}

impl Model for Calls {
    ghost use Rattle.view_reports.specs.Calls.{CallRows};

    ghost Value = { CallRows };

    ghost view = { λ c. c.rows.entries };
}

impl Calls {
    /// No call. It takes no memory yet.
    pub(crate) fn new(alloc: Global) -> Calls
        ensures { result ≡ [] }
    {
        Calls {
            rows: IndexMap::new(alloc),
        }
    }

    /// The calls by their numbers.
    pub(crate) fn rows(&self) -> &IndexMap<u32, Call>
        ensures { result.now.entries ≡ self.now }
    {
        &self.rows
    }

    /// What is kept of a call.
    fn call(&self, number: u32) -> Call
        ensures { result ≡ call_in self.now number }
    {
        match self.rows.get(&number) {
            Some(call) => *call,
            None => Call::new(),
        }
    }

    /// The leg of an end in a call.
    pub(crate) fn side(&self, end: End, call: u32) -> Side
        ensures { result ≡ side_in self.now end call }
    {
        self.call(call).side(end)
    }

    /// An item moves this leg.
    fn move_leg(&mut self, leg: LegOf, note: &Note, line: u64, now: u64) -> Result<(), Memory>
        ensures { OnOk result (self.new ≡ calls_moved (Some leg) self.old note.now line now) }
    {
        let moved = self.call(leg.call).behind(leg.of, note, line, now);
        match self.rows.insert(leg.call, moved) {
            Ok(_) => Ok(()),
            Err(_) => Err(Memory),
        }
    }

    /// Hears an item that stands in this line at this tick.
    pub(crate) fn hear(&mut self, note: &Note, line: u64, now: u64) -> Result<(), Memory>
        ensures { OnOk result (self.new ≡ calls_behind self.old note.now line now) }
    {
        match moved_leg(note) {
            Some(leg) => self.move_leg(leg, note, line, now),
            None => Ok(()),
        }
    }
}

/// The leg that an item raises or ends, or whose voice it turns.
pub(crate) fn moved_leg(note: &Note) -> Option<LegOf>
    ensures { result ≡ moved_leg note.now }
{
    leg_of(note)
}
