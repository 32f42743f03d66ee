//! What is kept of a call.
ghost use Rattle.std.specs.Prelude.{◌≡◌, [], None, OnOk, OnErr};
ghost use Rattle.call_register.specs.inner.Heard.{with_ending, with_set};

use call_io::Memory;
use link_frames::{OCTETS, Request, Why};
use std::alloc::Global;
use std::marker::Model;

/// A set of data that the point showed, and when.
#[derive(Clone, Copy)]
pub(crate) struct ShownSet {
    pub(crate) tick: u64,
    pub(crate) request: Request,
    pub(crate) octets: [u8; OCTETS],
}

/// When and why the point's leg of a call went down.
#[derive(Clone, Copy)]
pub(crate) struct Ending {
    pub(crate) tick: u64,
    pub(crate) why: Why,
}

/// What is kept of a call that came up at the point.
#[derive(Drop)]
pub(crate) struct CallRecord {
    from: u64,
    sets: Vec<ShownSet>,
    ending: Option<Ending>,
}

impl Model for CallRecord {
    ghost use Rattle.call_register.specs.Rows.{Row};

    ghost Value = { Row };

    ghost view = { λ r. record { from = r.from; sets = r.sets.items; ending = r.ending } };
}

impl CallRecord {
    /// A call that came up at a tick.
    pub(crate) fn new(alloc: Global, from: u64) -> CallRecord
        ensures { result ≡ record { from = from; sets = []; ending = None } }
    {
        CallRecord {
            from,
            sets: Vec::new(alloc),
            ending: None,
        }
    }

    /// The tick from which on the point had the call.
    pub(crate) fn from(&self) -> u64
        ensures { result ≡ self.now.from }
    {
        self.from
    }

    /// The sets that the point showed, in order.
    pub(crate) fn sets(&self) -> &[ShownSet]
        ensures { result.now ≡ self.now.sets }
    {
        &self.sets
    }

    /// When and why the point's leg first went down.
    pub(crate) fn ending(&self) -> Option<Ending>
        ensures { result ≡ self.now.ending }
    {
        self.ending
    }

    /// The point showed a set.
    pub(crate) fn show(&mut self, set: ShownSet) -> Result<(), Memory>
        ensures ok { OnOk result (self.new ≡ with_set set self.old) }
        ensures err { OnErr result (self.new ≡ self.old) }
    {
        match self.sets.push(set) {
            Ok(()) => Ok(()),
            Err(_) => Err(Memory),
        }
    }

    /// The point's leg went down. What ended it first is kept.
    pub(crate) fn end(&mut self, ending: Ending)
        ensures { self.new ≡ with_ending ending self.old }
    {
        if self.ending.is_none() {
            self.ending = Some(ending);
        }
    }
}
