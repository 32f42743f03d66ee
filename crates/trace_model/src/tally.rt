//! The listener that counts what it hears.
ghost use Rattle.std.specs.Prelude.{◌≡◌, [], ◌∷◌, Ok};
ghost use Rattle.trace_model.specs.Tallies.{is_acked, is_answered, is_shown, tally_of};
ghost use Rattle.trace_model.specs.inner.Tallying.{one_more, tallied};

use crate::entry::Entry;
use crate::listener::{Deaf, Listener};
use link_frames::{End, Note};
use std::alloc::Global;

/// Counts the entries that it hears, and keeps the tick of the last. It takes no memory. A count stays at
/// 18446744073709551615 once it is there.
#[derive(Clone, Copy, Debug, PartialEq, Eq)]
pub struct Tally {
    entries: u64,
    calls: u64,
    shown: u64,
    acked: u64,
    ticks: u64,
}

impl Tally {
    /// One that has heard nothing.
    pub fn new() -> Tally
        ensures { result ≡ tally_of [] }
    {
        Tally {
            entries: 0,
            calls: 0,
            shown: 0,
            acked: 0,
            ticks: 0,
        }
    }

    /// How many entries it heard; how many of them were `up point`, how many `shown` and how many `acked`; and the tick
    /// of the last, 0 where there was none.
    pub fn counts(&self) -> [u64; 5]
        ensures { result ≡ self.now.entries ∷ self.now.calls ∷ self.now.shown ∷ self.now.acked ∷ self.now.ticks ∷ [] }
    {
        [self.entries, self.calls, self.shown, self.acked, self.ticks]
    }

    /// Counts the entry that an item at a tick is.
    fn count(&mut self, tick: u64, item: &Note)
        ensures { self.new ≡ tallied self.old (record { tick = tick; note = item.now }) }
    {
        self.entries = count_one(self.entries, true);
        self.calls = count_one(self.calls, is_up_point(item));
        self.shown = count_one(self.shown, is_shown_set(item));
        self.acked = count_one(self.acked, is_acked_set(item));
        self.ticks = tick;
    }
}

/// A count behind one entry more.
fn count_one(count: u64, counts: bool) -> u64
    ensures { result ≡ one_more count counts }
{
    if counts {
        count.saturating_add(1)
    } else {
        count
    }
}

fn is_up_point(note: &Note) -> bool
    ensures { result ≡ is_answered note.now }
{
    match note {
        Note::Up { end, .. } => is_point(*end),
        _ => false,
    }
}

fn is_point(end: End) -> bool
    ensures { result ≡ is_answered (Note.Up end 0) }
{
    match end {
        End::Point => true,
        End::Vehicle => false,
    }
}

fn is_shown_set(note: &Note) -> bool
    ensures { result ≡ is_shown note.now }
{
    match note {
        Note::Shown { .. } => true,
        _ => false,
    }
}

fn is_acked_set(note: &Note) -> bool
    ensures { result ≡ is_acked note.now }
{
    match note {
        Note::Acked { .. } => true,
        _ => false,
    }
}

impl Listener for Tally {
    ghost use Rattle.std.specs.Prelude.{◌≡◌, [], ◌∷◌, Ok};
    ghost use Rattle.trace_model.specs.Listener.{GrewByFront};
    ghost use Rattle.trace_model.specs.Tallies.{TallyGrew};
    ghost use Rattle.trace_model.specs.inner.ListenerLaws.{GrewByFront-whole, GrewByFront-after, GrewByFront-longer};
    ghost use Rattle.trace_model.specs.inner.Tallying.{TallyGrew-nothing, TallyGrew-append};

    ghost grew = { TallyGrew };

    ghost partly = { GrewByFront TallyGrew };

    ghost faults = { λ _. 0 };

    fn hear(&mut self, alloc: Global, entry: &Entry) -> Result<(), Deaf>
        ensures heard { TallyGrew self.old self.new (entry.now ∷ []) }
        ensures always { result ≡ Ok tt }
    {
        self.hear_item(alloc, entry.tick, &entry.note)
    }

    fn hear_item(&mut self, _alloc: Global, tick: u64, item: &Note) -> Result<(), Deaf>
        ensures heard { TallyGrew self.old self.new (record { tick = tick; note = item.now } ∷ []) }
        ensures always { result ≡ Ok tt }
    {
        self.count(tick, item);
        Ok(())
    }

    ghost unchanged = { TallyGrew-nothing };

    ghost twice = { TallyGrew-append };

    ghost whole = { GrewByFront-whole TallyGrew };

    ghost then_partly = { GrewByFront-after TallyGrew TallyGrew-append };

    ghost longer = { GrewByFront-longer TallyGrew };
}
