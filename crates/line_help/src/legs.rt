//! The legs that are up in a trace, and since when each is muted or open, as far as its lines are kept.

use crate::entry_words::EntryWords;
use arrayvec::ArrayVec;
use line_input::is_word;

/// How many legs are followed at most.
const MOST_LEGS: usize = 64;

/// A leg that is up.
#[derive(Clone, Copy, Default)]
pub(crate) struct Leg<'a> {
    pub end: &'a [u8],
    pub call: &'a [u8],
    pub is_open: bool,
    /// The tick from which on it is so, and the line.
    pub since: u64,
    pub line: u64,
}

impl Leg<'_> {
    /// How many ticks it may be muted.
    pub(crate) fn limit(&self) -> u64 {
        if is_word(self.end, "vehicle") {
            320
        } else {
            275
        }
    }

    /// Whether an entry is of it.
    fn is_of(&self, entry: &EntryWords<'_>) -> bool {
        self.end == entry.first && self.call == entry.second
    }

    /// Whether it is muted for too long at a tick.
    pub(crate) fn is_over(&self, tick: u64) -> bool {
        !self.is_open && tick.saturating_sub(self.since) > self.limit()
    }
}

/// The legs that are up, one a call of each end.
#[derive(Drop)]
pub(crate) struct Legs<'a> {
    legs: ArrayVec<Leg<'a>, MOST_LEGS>,
}

impl<'a> Legs<'a> {
    /// None is up.
    pub(crate) fn new() -> Legs<'a> {
        Legs {
            legs: ArrayVec::new(),
        }
    }

    /// The first that is muted for too long at a tick.
    pub(crate) fn over(&self, tick: u64) -> Option<Leg<'a>> {
        self.legs.iter().find(|leg| leg.is_over(tick)).copied()
    }

    /// The leg of an entry, where it is up.
    pub(crate) fn of_entry(&self, entry: &EntryWords<'a>) -> Option<Leg<'a>> {
        self.legs.iter().find(|leg| leg.is_of(entry)).copied()
    }

    /// Takes an entry.
    pub(crate) fn hear(&mut self, entry: &EntryWords<'a>) {
        if entry.is("up") {
            self.raise(entry);
        } else if entry.is("down") {
            self.lower(entry);
        } else if entry.is("voice") {
            self.turn(entry);
        }
    }

    /// A leg comes up, muted.
    fn raise(&mut self, entry: &EntryWords<'a>) {
        if self.of_entry(entry).is_none() {
            let _ = self.legs.try_push(Leg {
                end: entry.first,
                call: entry.second,
                is_open: false,
                since: entry.tick,
                line: entry.number,
            });
        }
    }

    /// A leg goes down.
    fn lower(&mut self, entry: &EntryWords<'a>) {
        self.legs.retain(|leg| !leg.is_of(entry));
    }

    /// The voice of a leg is turned.
    fn turn(&mut self, entry: &EntryWords<'a>) {
        let is_open = entry.opens();
        for leg in self.legs.as_mut_slice().iter_mut() {
            if leg.is_of(entry) && leg.is_open != is_open {
                leg.is_open = is_open;
                leg.since = entry.tick;
                leg.line = entry.number;
            }
        }
    }
}
