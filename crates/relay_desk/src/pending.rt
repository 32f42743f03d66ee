//! Which desk requests are pending, and since when.

ghost use Rattle.std.specs.Prelude.{◌≡◌, ◌<◌, ◌≤◌, ◌+◌, ◌++◌, ◌∷◌, ℕ, List, [], Option, Some, None, OnOk, OnErr, length, map, take, drop, count_by, slice_set, slice_index_or, slice_index, is_some, vec_len};
ghost use Rattle.std.specs.List.{AllByRecursion};
ghost use Rattle.relay_desk.specs.inner.Queue.{DueIn, HasRoom, IsSettled, IsWait, aged, is_at, passed, passed_wait, turn_in, turned};
ghost use Rattle.relay_desk.specs.Desk.{resend_after};

use crate::turn::Turn;
use call_io::Memory;
use std::alloc::Global;
use std::marker::Model;

/// A desk request that is pending.
#[derive(Clone, Copy, Debug, PartialEq, Eq)]
struct Wait {
    /// At which tick of each ten its message is sent, 0 to 9.
    at: u8,
    /// How often its message was sent again, 0 to 9.
    resent: u8,
}

/// All desk requests so far, in order: of each that is pending, the ticks since it was made.
#[derive(Drop)]
pub(crate) struct Pending {
    waits: Vec<Option<Wait>>,
    /// The tick in ten that it is now.
    phase: u8,
    /// How many are pending whose messages are sent at each tick in ten.
    counts: [usize; 10],
    /// In front of this place none is pending.
    first: usize,
}

impl Model for Pending {
    ghost use Rattle.std.specs.Prelude.{ℕ, List, Option, map};

    ghost Value = { List (Option ℕ) };

    ghost use Rattle.relay_desk.specs.inner.Queue.{IsQueue};
    ghost use Rattle.relay_desk.specs.Waits.{ticks_in};

    ghost view = { λ p. map (ticks_in p.phase) p.waits.items };

    ghost invariant = { λ p. IsQueue p.waits.items p.phase p.counts p.first };
}

impl Pending {
    /// No desk request.
    pub(crate) fn new(alloc: Global) -> Pending
        ensures { result ≡ [] }
    {
        Pending {
            waits: Vec::new(alloc),
            phase: 0,
            counts: [0; 10],
            first: 0,
        }
    }

    /// A desk request is made.
    pub(crate) fn push(&mut self) -> Result<(), Memory>
        ensures ok { OnOk result (self.new ≡ self.old ++ Some 0 ∷ []) }
        ensures err { OnErr result (self.new ≡ self.old) }
    {
        let at = self.phase;
        if self.waits.push(Some(Wait { at, resent: 0 })).is_err() {
            return Err(Memory);
        }
        self.counts[at as usize] += 1;
        Ok(())
    }

    /// Whether the desk request at this place is pending.
    pub(crate) fn is_pending(&self, place: usize) -> bool
        requires { place < length self.now }
        ensures { result ≡ is_some (slice_index_or self.now place None) }
    {
        self.waits[place].is_some()
    }

    /// The desk request at this place is no longer pending.
    pub(crate) fn settle(&mut self, place: usize)
        requires { place < length self.old }
        ensures { self.new ≡ slice_set self.old place None }
    {
        match self.waits[place] {
            None => {}
            Some(wait) => {
                self.waits[place] = None;
                self.counts[wait.at as usize] -= 1;
            }
        }
    }

    /// In how many ticks the next turn comes, 1 to 10; `None` exactly where none is pending.
    pub(crate) fn due(&self) -> Option<u8>
        ensures { DueIn result self.now }
    {
        for n in 1..11 {
            if self.counts[((self.phase + n) % 10) as usize] > 0 {
                return Some(n);
            }
        }
        None
    }

    /// In front of this place none is pending.
    pub(crate) fn first(&self) -> usize
        ensures within { result ≤ length self.now }
        ensures front { AllByRecursion IsSettled (take result self.now) }
    {
        self.first
    }

    /// For how many turns of the n-th tick from now room is made: so many come, where no turn comes before.
    pub(crate) fn turns_in(&self, n: u8) -> usize
        requires { n ≤ resend_after }
    {
        self.counts[((self.phase + n) % 10) as usize]
    }

    /// What the n-th tick from now brings for the desk request at this place, where no turn comes before.
    pub(crate) fn turn(&self, place: usize, n: u8) -> Turn
        requires within { place < length self.now }
        requires some { 1 ≤ n }
        requires most { n ≤ resend_after }
        requires room { AllByRecursion (HasRoom n) self.now }
        ensures { result ≡ turn_in n (slice_index_or self.now place None) }
    {
        match self.waits[place] {
            None => Turn::Waits,
            Some(wait) if wait.at != (self.phase + n) % 10 => Turn::Waits,
            Some(wait) if wait.resent == 9 => Turn::GivesUp,
            Some(_) => Turn::Resends,
        }
    }

    /// Lets n ticks pass in which no turn comes.
    pub(crate) fn idle(&mut self, n: u8)
        requires most { n < resend_after }
        requires room { AllByRecursion (HasRoom (n + 1)) self.old }
        ensures { self.new ≡ map (aged n) self.old }
    {
        self.phase = (self.phase + n) % 10;
    }

    /// Lets n ticks pass, where turns come with the last of them at the earliest.
    pub(crate) fn pass(&mut self, n: u8)
        requires some { 1 ≤ n }
        requires most { n ≤ resend_after }
        requires room { AllByRecursion (HasRoom n) self.old }
        ensures { self.new ≡ map (passed n) self.old }
    {
        let phase = (self.phase + n) % 10;
        pass_from(&mut self.waits, self.first, phase);
        self.counts[phase as usize] = count_at(&self.waits[self.first..], phase);
        self.first += settled_front(&self.waits[self.first..]);
        self.phase = phase;
    }
}

/// What a turn leaves of a desk request.
fn after_turn(wait: Wait) -> Option<Wait>
    requires { wait.resent < 10 }
    ensures { result ≡ turned wait }
{
    if wait.resent == 9 {
        None
    } else {
        Some(Wait {
            at: wait.at,
            resent: wait.resent + 1,
        })
    }
}

/// What this tick in ten leaves of a desk request.
fn after_tick(wait: Option<Wait>, phase: u8) -> Option<Wait>
    requires { IsWait wait }
    ensures { result ≡ passed_wait phase wait }
{
    match wait {
        None => None,
        Some(wait) => {
            if wait.at == phase {
                after_turn(wait)
            } else {
                Some(wait)
            }
        }
    }
}

/// Gives each of these from a place on its turn at this tick in ten.
fn pass_from(waits: &mut Vec<Option<Wait>>, first: usize, phase: u8)
    requires within { first ≤ vec_len waits.old }
    requires kept { AllByRecursion IsWait waits.old.items }
    ensures { waits.new.items ≡ take first waits.old.items ++ map (passed_wait phase) (drop first waits.old.items) }
{
    pass_all(&mut waits[first..], phase);
}

/// Gives each of these its turn at this tick in ten.
fn pass_all(waits: &mut [Option<Wait>], phase: u8)
    requires { AllByRecursion IsWait waits.old }
    ensures { waits.new ≡ map (passed_wait phase) waits.old }
{
    for wait in waits.iter_mut() {
        *wait = after_tick(*wait, phase);
    }
}

/// Whether it is pending, and its message is sent at this tick in ten.
fn is_sent_at(wait: &Option<Wait>, phase: u8) -> bool
    ensures { result ≡ is_at phase wait.now }
{
    match wait {
        None => false,
        Some(wait) => wait.at == phase,
    }
}

/// How many of these are pending whose messages are sent at this tick in ten.
fn count_at(waits: &[Option<Wait>], phase: u8) -> usize
    ensures { result ≡ count_by (is_at phase) waits.now }
{
    waits.iter().filter(|wait| is_sent_at(wait, phase)).count()
}

/// How many of these, from the first on, aren't pending.
fn settled_front(waits: &[Option<Wait>]) -> usize
    ensures within { result ≤ length waits.now }
    ensures front { AllByRecursion IsSettled (take result waits.now) }
{
    for (i, wait) in waits.iter().enumerate() {
        if wait.is_some() {
            return i;
        }
    }
    waits.len()
}
