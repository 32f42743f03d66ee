//! The turns of calls whose sessions aren't settled: when each acts next, at the earliest.

ghost use Rattle.std.specs.Prelude.{◌≡◌, ◌≤◌, ◌<◌, ℕ, Some, IfOk, IfErr, IfSome, OnErr, true, false, length, ltb, slice_get, take, drop};
ghost use Rattle.std.specs.List.{AllByRecursion};
ghost use Rattle.channel_sim.specs.Tidy.{AreAbove};
ghost use Rattle.channel_sim.specs.inner.Beside.{numbers};
ghost use Rattle.channel_sim.specs.inner.Turns.{HasTurn, IsAmong, IsBelow, IsGap, IsListed, IsWatched, OthersStay, Rise, Sleeps, calls_of};

use super::call::{acts_from, sleeps};
use super::{Call, find};
use std::alloc::{AllocError, Global};
use std::collections::VecDeque;
use std::marker::Model;

/// Before this tick the session of this call does nothing.
#[derive(Clone, Copy)]
pub(crate) struct Turn {
    pub(super) call: u32,
    pub(super) tick: u64,
}

/// The turns of calls, by number.
#[derive(Drop)]
pub(super) struct Turns {
    list: Vec<Turn>,
}

impl Model for Turns {
    ghost use Rattle.std.specs.Prelude.{List};
    ghost use Rattle.channel_sim.specs.declared.calls.turns.Turn.{Turn};
    ghost use Rattle.channel_sim.specs.inner.Turns.{Rise, calls_of};

    ghost Value = { List Turn };

    ghost view = { λ s. s.list.items };

    ghost invariant = { λ s. Rise (calls_of s.list.items) };
}

impl Turns {
    /// No turn.
    pub(super) fn new(alloc: Global) -> Turns {
        Turns {
            list: Vec::new(alloc),
        }
    }

    /// All of them.
    pub(super) fn all(&self) -> &[Turn]
        ensures all { result.now ≡ self.now }
        ensures rise { Rise (calls_of result.now) }
    {
        &self.list
    }

    /// The place of the turn of this call, which is at tick 0 if the call had none.
    #[inline(always)]
    pub(super) fn wake(&mut self, call: u32) -> Result<usize, AllocError>
        ensures place { IfOk result (λ i. slice_get (calls_of self.new) i ≡ Some call) }
        ensures others { OthersStay call self.old self.new }
        ensures err { OnErr result (self.new ≡ self.old) }
    {
        match turn_place(&self.list, call) {
            Ok(place) => Ok(place),
            Err(place) => {
                self.list.insert(place, Turn { call, tick: 0 })?;
                Ok(place)
            }
        }
    }

    /// The turn at this place is at this tick from now on.
    pub(super) fn note(&mut self, place: usize, tick: u64)
        ensures this { (call : ℕ) → slice_get (calls_of self.old) place ≡ Some call → HasTurn call tick self.new }
        ensures others { (call : ℕ) → slice_get (calls_of self.old) place ≡ Some call →
            OthersStay call self.old self.new }
    {
        if place < self.list.len() {
            self.list[place].tick = tick;
        }
    }

    /// This call has no turn any more, or one that never comes, which is left out once turns are renewed: so no other
    /// moves.
    pub(super) fn forget(&mut self, call: u32)
        ensures { OthersStay call self.old self.new }
    {
        if let Ok(place) = turn_place(&self.list, call) {
            if place + 1 == self.list.len() {
                self.list.remove(place);
            } else {
                self.list[place].tick = u64::MAX;
            }
        }
    }

    /// The first tick of a turn; at most `end`.
    pub(super) fn least(&self, end: u64) -> u64
        ensures most { result ≤ end }
        ensures least { (c n : ℕ) → HasTurn c n self.now → result ≤ n }
    {
        let mut least = end;
        for turn in &self.list {
            least = least.min(turn.tick);
        }
        least
    }

    /// The first call from this number on that has its turn by this tick.
    pub(super) fn next(&self, from: u64, tick: u64) -> Option<u32>
        ensures from { IfSome result (λ c. from ≤ c) }
        ensures others { (c n : ℕ) → HasTurn c n self.now → from ≤ c → IsBelow c result → tick < n }
    {
        let first = first_turn(&self.list, from);
        first_by(&self.list[first..], tick)
    }

    /// Each turn is where the session of its call acts next, and those of sessions that are settled, or of calls that
    /// are gone, are left out.
    pub(super) fn renew(&mut self, calls: &VecDeque<Call>)
        requires { AreAbove 0 (numbers calls.now.items) }
        ensures { AllByRecursion (IsListed self.old) calls.now.items →
            AllByRecursion (IsWatched self.new) calls.now.items }
    {
        if !renew_each(&mut self.list, calls) {
            return;
        }
        self.list.retain(
            |turn: &Turn| -> bool
                requires { AreAbove 0 (numbers calls.now.items) }
                ensures { result ≡ false →
                    AllByRecursion (λ k. k.number ≡ turn.now.call → Sleeps k) calls.entry.now.items }
            { is_awake(calls, turn.call) },
        );
    }
}

/// The place of the turn of this call, or else the place where it belongs.
fn turn_place(turns: &[Turn], call: u32) -> Result<usize, usize>
    ensures inside { IfOk result (λ i. i < length turns.now) }
    ensures found { IfOk result (λ i. slice_get (calls_of turns.now) i ≡ Some call) }
    ensures within { IfErr result (λ i. i ≤ length turns.now) }
    ensures absent { Rise (calls_of turns.now) → IfErr result (λ i. IsGap call i (calls_of turns.now)) }
{
    let likely = likely_turn(turns, u64::from(call));
    if likely < turns.len() && turns[likely].call == call {
        return Ok(likely);
    }
    turns.binary_search_by_key(
        &call,
        |turn: &Turn| -> u32
            ensures { result ≡ turn.now.call }
        { turn.call },
    )
}

/// Where the turn of a call is if no call is missing between the first turn and it.
fn likely_turn(turns: &[Turn], call: u64) -> usize {
    match turns.first() {
        Some(first) => call.saturating_sub(u64::from(first.call)) as usize,
        None => 0,
    }
}

/// The place of the first turn whose call isn't below this number.
fn first_turn(turns: &[Turn], from: u64) -> usize
    ensures within { result ≤ length turns.now }
    ensures below { Rise (calls_of turns.now) → AllByRecursion (λ c. c < from) (take result (calls_of turns.now)) }
    ensures behind { Rise (calls_of turns.now) → AllByRecursion (λ c. from ≤ c) (drop result (calls_of turns.now)) }
{
    let likely = likely_turn(turns, from).min(turns.len());
    if begins_at(turns, likely, from) {
        return likely;
    }
    turns.partition_point(
        |turn: &Turn| -> bool
            ensures { result ≡ ltb turn.now.call from }
        { u64::from(turn.call) < from },
    )
}

/// Whether all turns before this place are of calls below this number, and that at it isn't, or there is none.
fn begins_at(turns: &[Turn], place: usize, from: u64) -> bool
    requires { place ≤ length turns.now }
    ensures below { result ≡ true → Rise (calls_of turns.now) →
        AllByRecursion (λ c. c < from) (take place (calls_of turns.now)) }
    ensures behind { result ≡ true → Rise (calls_of turns.now) →
        AllByRecursion (λ c. from ≤ c) (drop place (calls_of turns.now)) }
{
    let below = place == 0 || u64::from(turns[place - 1].call) < from;
    below && (place == turns.len() || from <= u64::from(turns[place].call))
}

/// The call of the first of these turns that comes by this tick.
fn first_by(turns: &[Turn], tick: u64) -> Option<u32>
    ensures among { IfSome result (λ c. IsAmong c (calls_of turns.now)) }
    ensures others { Rise (calls_of turns.now) → (c n : ℕ) → HasTurn c n turns.now → IsBelow c result → tick < n }
{
    for turn in turns {
        if turn.tick <= tick {
            return Some(turn.call);
        }
    }
    None
}

/// Each of these turns is where the session of its call acts next, if that is there: whether one of them never comes.
fn renew_each(turns: &mut [Turn], calls: &VecDeque<Call>) -> bool
    requires { AreAbove 0 (numbers calls.now.items) }
    ensures same { calls_of turns.new ≡ calls_of turns.old }
    ensures watched { AllByRecursion (IsListed turns.old) calls.now.items →
        AllByRecursion (IsWatched turns.new) calls.now.items }
{
    let mut never = false;
    for turn in turns {
        if let Some(i) = find(calls, turn.call) {
            turn.tick = acts_from(&calls[i]);
        }
        never |= turn.tick == u64::MAX;
    }
    never
}

/// Whether there is a call of this number, and its session isn't settled.
fn is_awake(calls: &VecDeque<Call>, call: u32) -> bool
    requires { AreAbove 0 (numbers calls.now.items) }
    ensures { result ≡ false → AllByRecursion (λ k. k.number ≡ call → Sleeps k) calls.now.items }
{
    match find(calls, call) {
        Some(i) => !sleeps(&calls[i]),
        None => false,
    }
}
