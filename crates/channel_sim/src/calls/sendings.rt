//! When frames were sent, and in which calls: those of one direction, from some tick on.

ghost use Rattle.std.specs.Prelude.{◌≡◌, ◌≤◌, ◌<◌, ◌+◌, ℕ, true, false, IfOk, IfSome, OnOk, OnErr, leb, length, ltb, map, take, drop};
ghost use Rattle.std.specs.List.{AllByRecursion, insert};
ghost use Rattle.channel_sim.specs.Tidy.{AreFrom};
ghost use Rattle.channel_sim.specs.inner.Sendings.{HasSending, IsFoundBy, IsNoted, IsPlaceBehind};
ghost use Rattle.channel_sim.specs.inner.Sends.{IsFirstFrom};
ghost use Rattle.channel_sim.specs.inner.Turns.{IsAmong, Rise};

use std::alloc::{AllocError, Global};
use std::marker::Model;

/// For how many ticks a frame is noted at least: no flow of a script hands it over later.
const LONGEST_DELAY: u64 = 1000;

/// In so few sendings no old ones are looked for.
const FEW: usize = 256;

/// A call in which a frame was sent at a tick.
#[derive(Clone, Copy)]
pub(crate) struct Sending {
    pub(super) tick: u64,
    pub(super) call: u32,
}

/// When frames were sent in one direction, and in which calls, in order. Those sent before some tick may be left out.
#[derive(Drop)]
pub(super) struct Sendings {
    list: Vec<Sending>,
    since: u64,
}

impl Model for Sendings {
    ghost use Rattle.std.specs.Prelude.{map};
    ghost use Rattle.channel_sim.specs.Tidy.{AreFrom};
    ghost use Rattle.channel_sim.specs.inner.Sendings.{SentSince};

    ghost Value = { SentSince };

    ghost view = { λ s. record { since = s.since; list = s.list.items } };

    ghost invariant = { λ s. AreFrom 0 (map (λ x. x.tick) s.list.items) };
}

impl Sendings {
    /// Nothing was sent.
    pub(super) fn new(alloc: Global) -> Sendings {
        Sendings {
            list: Vec::new(alloc),
            since: 0,
        }
    }

    /// Notes that a frame was sent in this call at this tick.
    pub(super) fn note(&mut self, call: u32, tick: u64) -> Result<(), AllocError>
        ensures kept { (c n : ℕ) → IsNoted c n self.old → IsNoted c n self.new }
        ensures noted { OnOk result (IsNoted call tick self.new) }
    {
        self.leave_old_ones(tick);
        self.add(call, tick)
    }

    /// Leaves out those that were sent too long before this tick, where they are the most.
    #[inline]
    fn leave_old_ones(&mut self, tick: u64)
        ensures { (c n : ℕ) → IsNoted c n self.old → IsNoted c n self.new }
    {
        let since = tick.saturating_sub(LONGEST_DELAY);
        let half = self.list.len() / 2;
        if half >= FEW && self.list[half].tick < since {
            self.leave_before(since);
        }
    }

    /// Leaves out those that were sent before this tick. Out of line, since that is seldom.
    #[cold]
    #[inline(never)]
    fn leave_before(&mut self, tick: u64)
        ensures { (c n : ℕ) → IsNoted c n self.old → IsNoted c n self.new }
    {
        let old = first_place(&self.list, tick, 0);
        drop(self.list.drain(..old));
        self.since = self.since.max(tick);
    }

    /// Adds a sending behind those that were sent no later.
    #[inline]
    fn add(&mut self, call: u32, tick: u64) -> Result<(), AllocError>
        ensures kept { (c n : ℕ) → IsNoted c n self.old → IsNoted c n self.new }
        ensures noted { OnOk result (IsNoted call tick self.new) }
    {
        if let Some(last) = self.list.last() {
            if last.tick == tick && last.call == call {
                return Ok(());
            }
        }
        let place = place_behind(&self.list, tick);
        put_at(&mut self.list, place, Sending { tick, call })?;
        Ok(())
    }

    /// The first tick from this one on at which a frame was sent, found the sooner the less its place is behind `near`.
    /// Where what was sent at this tick may have been left out, that is this tick.
    pub(super) fn first_from(&self, tick: u64, near: usize) -> Option<u64>
        ensures { (c n : ℕ) → IsNoted c n self.now → tick ≤ n → IsFoundBy n result }
    {
        if tick < self.since {
            return Some(tick);
        }
        let place = first_place(&self.list, tick, near);
        if place < self.list.len() {
            Some(self.list[place].tick)
        } else {
            None
        }
    }

    /// The call in which frames were sent at this tick, where that is known and there is one alone. So it is nearly
    /// always, and then nothing is listed. `near` becomes the place behind it.
    #[inline]
    pub(super) fn only_call(&self, tick: u64, near: &mut usize) -> Option<u32>
        ensures { IfSome result (λ call. (c : ℕ) → IsNoted c tick self.now → c ≡ call) }
    {
        if tick < self.since {
            return None;
        }
        let first = first_place(&self.list, tick, *near);
        let call = only_at(&self.list[first..], tick)?;
        *near = first + 1;
        Some(call)
    }

    /// The calls in which frames were sent at this tick, in place of what stood in `numbers`, unless some may have been
    /// left out: whether they weren't. `near` becomes the place behind them.
    pub(super) fn list_calls(
        &self,
        tick: u64,
        near: &mut usize,
        numbers: &mut Vec<u32>,
    ) -> Result<bool, AllocError>
        ensures rise { IfOk result (λ known. known ≡ true → Rise numbers.new.items) }
        ensures all { IfOk result (λ known. known ≡ true →
            (c : ℕ) → IsNoted c tick self.now → IsAmong c numbers.new.items) }
    {
        if tick < self.since {
            return Ok(false);
        }
        let first = first_place(&self.list, tick, *near);
        *near = list_at(&self.list[first..], tick, numbers)? + first;
        sort_once(numbers);
        Ok(true)
    }
}

/// The call of the first of these, which was sent at this tick, if the next was sent later.
#[inline]
fn only_at(sendings: &[Sending], tick: u64) -> Option<u32>
    ensures { AreFrom tick (map (λ x. x.tick) sendings.now) →
        IfSome result (λ call. (c : ℕ) → HasSending c tick sendings.now → c ≡ call) }
{
    let (first, others) = sendings.split_first()?;
    match others.first() {
        Some(next) if next.tick == tick => None,
        _ if first.tick == tick => Some(first.call),
        _ => None,
    }
}

/// Puts a sending at a place: nearly always behind the last.
#[inline]
fn put_at(sendings: &mut Vec<Sending>, place: usize, sending: Sending) -> Result<(), AllocError>
    requires { place ≤ length sendings.old.items }
    ensures ok { OnOk result (sendings.new.items ≡ insert sendings.old.items place sending) }
    ensures err { OnErr result (sendings.new.items ≡ sendings.old.items) }
{
    if place == sendings.len() {
        sendings.push(sending)?;
    } else {
        sendings.insert(place, sending)?;
    }
    Ok(())
}

/// Sorts these numbers, and leaves out what stands there again.
fn sort_once(numbers: &mut Vec<u32>)
    ensures rise { Rise numbers.new.items }
    ensures among { (n : ℕ) → IsAmong n numbers.old.items → IsAmong n numbers.new.items }
{
    if numbers.len() < 2 {
        return;
    }
    numbers.sort_unstable();
    numbers.dedup();
}

/// The calls of the first of these, which were sent at this tick, in place of what stood in `numbers`: how many they
/// are.
fn list_at(sendings: &[Sending], tick: u64, numbers: &mut Vec<u32>) -> Result<usize, AllocError>
    ensures within { IfOk result (λ n. n ≤ length sendings.now) }
    ensures all { OnOk result (AreFrom tick (map (λ x. x.tick) sendings.now) →
        (c : ℕ) → HasSending c tick sendings.now → IsAmong c numbers.new.items) }
{
    numbers.clear();
    for (place, one) in sendings.iter().enumerate() {
        if one.tick != tick {
            return Ok(place);
        }
        numbers.push(one.call)?;
    }
    Ok(sendings.len())
}

/// The place behind all that were sent no later than at this tick: nearly always behind the last.
#[inline]
fn place_behind(sendings: &[Sending], tick: u64) -> usize
    ensures within { result ≤ length sendings.now }
    ensures behind { AreFrom 0 (map (λ x. x.tick) sendings.now) →
        IsPlaceBehind tick result (map (λ x. x.tick) sendings.now) }
{
    match sendings.last() {
        Some(last) if last.tick > tick => search_behind(sendings, tick),
        _ => sendings.len(),
    }
}

/// The place behind all that were sent no later than at this tick, by halves.
#[cold]
#[inline(never)]
fn search_behind(sendings: &[Sending], tick: u64) -> usize
    ensures within { result ≤ length sendings.now }
    ensures behind { AreFrom 0 (map (λ x. x.tick) sendings.now) →
        IsPlaceBehind tick result (map (λ x. x.tick) sendings.now) }
{
    sendings.partition_point(
        |one: &Sending| -> bool
            ensures { result ≡ leb one.now.tick tick }
        { one.tick <= tick },
    )
}

/// Whether there is one at this place, and it was sent earlier than at this tick.
fn is_earlier(sendings: &[Sending], place: usize, tick: u64) -> bool
    ensures within { result ≡ true → place < length sendings.now }
    ensures front { result ≡ true → AreFrom 0 (map (λ x. x.tick) sendings.now) →
        AllByRecursion (λ t. t < tick) (take (place + 1) (map (λ x. x.tick) sendings.now)) }
    ensures behind { result ≡ false → AreFrom 0 (map (λ x. x.tick) sendings.now) →
        AllByRecursion (λ t. tick ≤ t) (drop place (map (λ x. x.tick) sendings.now)) }
{
    if place >= sendings.len() {
        return false;
    }
    sendings[place].tick < tick
}

/// Whether the first that was sent at this tick or later is at this place, or this place is behind all.
fn is_first(sendings: &[Sending], place: usize, tick: u64) -> bool
    ensures within { result ≡ true → place ≤ length sendings.now }
    ensures first { result ≡ true → AreFrom 0 (map (λ x. x.tick) sendings.now) →
        IsFirstFrom tick place (map (λ x. x.tick) sendings.now) }
{
    if place > 0 && !is_earlier(sendings, place - 1, tick) {
        return false;
    }
    !is_earlier(sendings, place, tick)
}

/// A place in front of which all were sent earlier than at this tick: `near`, or else the start.
fn begin_at(sendings: &[Sending], tick: u64, near: usize) -> usize
    ensures within { result ≤ length sendings.now }
    ensures front { AreFrom 0 (map (λ x. x.tick) sendings.now) →
        AllByRecursion (λ t. t < tick) (take result (map (λ x. x.tick) sendings.now)) }
{
    if near == 0 {
        return 0;
    }
    if is_earlier(sendings, near - 1, tick) {
        return near;
    }
    0
}

/// The place of the first of these that was sent at this tick or later, by halves. Out of line, since it is nearly
/// always at `near`, behind all, or in front of them.
#[cold]
#[inline(never)]
fn search_place(sendings: &[Sending], tick: u64, near: usize) -> usize
    ensures within { result ≤ length sendings.now }
    ensures first { AreFrom 0 (map (λ x. x.tick) sendings.now) →
        IsFirstFrom tick result (map (λ x. x.tick) sendings.now) }
{
    let begin = begin_at(sendings, tick, near);
    begin
        + sendings[begin..].partition_point(
            |one: &Sending| -> bool
                ensures { result ≡ ltb one.now.tick tick }
            { one.tick < tick },
        )
}

/// The place of the first of these that was sent at this tick or later.
fn first_place(sendings: &[Sending], tick: u64, near: usize) -> usize
    ensures within { result ≤ length sendings.now }
    ensures first { AreFrom 0 (map (λ x. x.tick) sendings.now) →
        IsFirstFrom tick result (map (λ x. x.tick) sendings.now) }
{
    if is_first(sendings, near, tick) {
        return near;
    }
    let count = sendings.len();
    if is_first(sendings, count, tick) {
        return count;
    }
    if is_first(sendings, 0, tick) {
        return 0;
    }
    search_place(sendings, tick, near)
}
