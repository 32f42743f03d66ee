//! The calls with a leg up, by number.

mod call;
mod due;
mod passing;
mod seat;
mod sendings;
mod sessions;
mod turns;

ghost use Rattle.std.specs.Prelude.{◌≡◌, ◌<◌, ◌≤◌, ◌++◌, ◌∷◌, ◌-◌, ◌+◌, ℕ, List, [], Option, true, false, Some, None, OnOk, IfOk, IfSome, length, map, slice_get, if◌then◌else◌};
ghost use Rattle.std.specs.List.{AllByRecursion};
ghost use Rattle.std.specs.Option.{option_map};
ghost use Rattle.trace_fit.specs.Seats.{is_number};
ghost use Rattle.trace_model.specs.History.{told};
ghost use Rattle.channel_sim.specs.Lines as lines;
ghost use Rattle.channel_sim.specs.World as model;
ghost use Rattle.channel_sim.specs.inner.Acts.{OtherHasLeg};
ghost use Rattle.channel_sim.specs.Handing.{full};
ghost use Rattle.channel_sim.specs.Quiet.{FramesRest};
ghost use Rattle.channel_sim.specs.Lag.{LeastPassed, CallsLag};
ghost use Rattle.channel_sim.specs.inner.Beside.{WaitsBetween};
ghost use Rattle.channel_sim.specs.inner.Places.{place_of};
ghost use Rattle.channel_sim.specs.inner.Sendings.{IsNoted};
ghost use Rattle.channel_sim.specs.inner.Turns.{IsAmong, Rise, WaitsUntil};
ghost use Rattle.channel_sim.specs.Tidy.{AreAbove, numbers_of};

use crate::kept::KeptFrame;
pub(crate) use call::Call;
pub use due::Due;
pub(crate) use due::{Handover, all_due, call_due, only_due};
use link_frames::{End, Frame, Note};
pub(crate) use passing::catch_up;
use sendings::Sendings;
pub(crate) use sessions::{
    act_session, admit, has_session, hear_session, heard_frame, reach_session,
};
use std::alloc::{AllocError, Global};
use std::collections::VecDeque;
use std::marker::Model;
use turns::Turns;

/// The calls with a leg up, by number, the turns of those whose sessions aren't settled, and when frames were sent, up
/// and down.
#[derive(Drop)]
pub(crate) struct Calls {
    list: VecDeque<Call>,
    turns: Turns,
    up: Sendings,
    down: Sendings,
}

impl Model for Calls {
    ghost use Rattle.std.specs.Prelude.{List};
    ghost use Rattle.channel_sim.specs.declared.calls.call.Call.{Call};
    ghost use Rattle.channel_sim.specs.inner.Beside.{CallsStand};

    ghost Value = { List Call };

    ghost view = { λ s. s.list.items };

    ghost invariant = { λ s. CallsStand s.turns s.up s.down s.list.items };
}

impl Calls {
    /// No call.
    pub(crate) fn new(alloc: Global) -> Calls
        ensures { result ≡ [] }
    {
        Calls {
            list: VecDeque::new(alloc),
            turns: Turns::new(alloc),
            up: Sendings::new(alloc),
            down: Sendings::new(alloc),
        }
    }

    /// All of them.
    pub(crate) fn all(&self) -> &VecDeque<Call>
        ensures { result.now.items ≡ self.now }
    {
        &self.list
    }

    /// A tick before which no session does anything; at most `end`.
    pub(crate) fn act_at(&self, end: u64) -> u64
        ensures most { result ≤ end }
        ensures waits { AllByRecursion (WaitsUntil result) self.now }
    {
        self.turns.least(end)
    }

    /// The first call from this number on whose session may do something up to this tick.
    pub(crate) fn next_acting(&self, from: u64, tick: u64) -> Option<u32>
        ensures from { IfSome result (λ c. from ≤ c) }
        ensures others { AllByRecursion (WaitsBetween from result tick) self.now }
    {
        self.turns.next(from, tick)
    }

    /// The tick behind `now` at which a flow hands the next frame over that was sent up, or down; at most `end`.
    pub(crate) fn hand_at(&self, up: bool, flow: u32, now: u64, near: usize, end: u64) -> u64
        ensures most { result ≤ end }
        ensures quiet { (n : ℕ) → now + n < result →
            AllByRecursion (λ k. FramesRest n flow now (if up then k.up else k.down)) self.now }
    {
        if flow == 0 {
            return end;
        }
        let delay = u64::from(flow);
        let sent = now.saturating_sub(delay - 1);
        let sendings = if up { &self.up } else { &self.down };
        match sendings.first_from(sent, near) {
            Some(tick) => tick.saturating_add(delay).min(end),
            None => end,
        }
    }

    /// The call in which frames were sent up, or down, at this tick, where that is known and there is one alone.
    pub(crate) fn only_sent(&self, up: bool, tick: u64, near: &mut usize) -> Option<u32>
        ensures { IfSome result (λ call. AllByRecursion
            (λ k. AllByRecursion (λ s. s.tick ≡ tick → k.number ≡ call) (if up then k.up else k.down)) self.now) }
    {
        let sendings = if up { &self.up } else { &self.down };
        sendings.only_call(tick, near)
    }

    /// The calls in which frames were sent up, or down, at this tick, in place of what stood in `numbers`, unless that
    /// isn't known: whether it is.
    pub(crate) fn list_sent(
        &self,
        up: bool,
        tick: u64,
        near: &mut usize,
        numbers: &mut Vec<u32>,
    ) -> Result<bool, AllocError>
        ensures rise { IfOk result (λ known. known ≡ true → Rise numbers.new.items) }
        ensures all { IfOk result (λ known. known ≡ true → AllByRecursion
            (λ k. AllByRecursion (λ s. s.tick ≡ tick → IsAmong k.number numbers.new.items)
            (if up then k.up else k.down)) self.now) }
    {
        let sendings = if up { &self.up } else { &self.down };
        sendings.list_calls(tick, near, numbers)
    }
}

/// The index of the call of a number, if it is there: nearly always it is the newest one.
#[inline]
pub(crate) fn find(calls: &VecDeque<Call>, number: u32) -> Option<usize>
    ensures within { IfSome result (λ i. i < length calls.now.items) }
    ensures place { AreAbove 0 (map (λ k. k.number) calls.now.items) →
        result ≡ place_of number (map (λ k. k.number) calls.now.items) }
{
    match calls.back() {
        Some(newest) if newest.number == number => Some(calls.len() - 1),
        _ => search(calls, number),
    }
}

/// The same, where the newest call has another number. Out of line, so that `find` is short where it is called.
#[inline(never)]
fn search(calls: &VecDeque<Call>, number: u32) -> Option<usize>
    ensures within { IfSome result (λ i. i < length calls.now.items) }
    ensures place { AreAbove 0 (map (λ k. k.number) calls.now.items) →
        result ≡ place_of number (map (λ k. k.number) calls.now.items) }
{
    let place = likely_place(calls, number);
    if place < calls.len() {
        if calls[place].number == number {
            return Some(place);
        }
    }
    calls
        .binary_search_by_key(
            &number,
            |call: &Call| -> u32
                ensures { result ≡ call.now.number }
            { call.number },
        )
        .ok()
}

/// Where the call of a number is if it is there, and no number is missing between the first and it.
fn likely_place(calls: &VecDeque<Call>, number: u32) -> usize {
    match calls.front() {
        Some(first) => number.saturating_sub(first.number) as usize,
        None => 0,
    }
}

/// Posts what one item sends into its call.
fn post_one(calls: &mut Calls, alloc: Global, tick: u64, note: &Note) -> Result<(), AllocError>
    ensures { (floor : LeastPassed) (clock : ℕ → ℕ) (ks : List model.Call) → CallsLag floor clock calls.old ks →
        AreAbove 0 (numbers_of ks) →
        OnOk result (CallsLag floor clock calls.new (map (model.carries (told tick (note.now ∷ []))) ks)) }
{
    match note {
        Note::Send { end, call, frame } => post_frame(calls, alloc, tick, *end, *call, frame),
        _ => Ok(()),
    }
}

/// Posts a frame that an end sent into its call.
fn post_frame(
    calls: &mut Calls,
    alloc: Global,
    tick: u64,
    end: End,
    number: u32,
    frame: &Frame,
) -> Result<(), AllocError>
    ensures { (floor : LeastPassed) (clock : ℕ → ℕ) (ks : List model.Call) → CallsLag floor clock calls.old ks →
        AreAbove 0 (numbers_of ks) →
        OnOk result (CallsLag floor clock calls.new (map (model.carries (told tick
        (Note.Send end number frame.now ∷ []))) ks)) }
{
    match find(&calls.list, number) {
        Some(i) => {
            match end {
                End::Vehicle => calls.up.note(number, tick)?,
                End::Point => calls.down.note(number, tick)?,
            }
            calls.list[i].push(alloc, end, tick, frame)
        }
        None => Ok(()),
    }
}

/// Posts each frame that these items send into its call.
#[inline(always)]
pub(crate) fn post(
    calls: &mut Calls,
    alloc: Global,
    tick: u64,
    items: &[Note],
) -> Result<(), AllocError>
    ensures { (floor : LeastPassed) (clock : ℕ → ℕ) (ks : List model.Call) → CallsLag floor clock calls.old ks →
        AreAbove 0 (numbers_of ks) →
        OnOk result (CallsLag floor clock calls.new (map (model.carries (told tick items.now)) ks)) }
{
    for note in items {
        post_one(calls, alloc, tick, note)?;
    }
    Ok(())
}

/// Drops the call of a number, in which the vehicle isn't, if its session isn't there.
pub(crate) fn drop_without_session(calls: &mut Calls, number: u32)
    ensures { (floor : LeastPassed) (clock : ℕ → ℕ) (in_call : Option ℕ) (ks : List model.Call) →
        CallsLag floor clock calls.old ks →
        AreAbove 0 (numbers_of ks) → AllByRecursion (OtherHasLeg in_call (Some number)) ks →
        is_number number in_call ≡ false → CallsLag floor clock calls.new (model.with_legs in_call ks) }
{
    if let Some(i) = find(&calls.list, number) {
        if calls.list[i].session.is_none() {
            drop(calls.list.remove(i));
            calls.turns.forget(number);
        }
    }
}

/// The frame sent down in a call at this place, from 0.
pub(crate) fn sent_frame(calls: &VecDeque<Call>, number: u32, place: usize) -> Option<&KeptFrame>
    ensures { (floor : LeastPassed) (clock : ℕ → ℕ) (ks : List model.Call) → CallsLag floor clock calls.now.items ks →
        AreAbove 0 (numbers_of ks) → option_map (λ f. full f.now) result ≡
        option_map (λ s. s.frame) (slice_get (lines.sent_down (model.call_of number ks)) place) }
{
    match find(calls, number) {
        Some(i) => calls[i].frame(false, place),
        None => None,
    }
}

/// Adds a call behind the others, in which nothing was sent, and whose session is not there yet. Its number is above
/// theirs, or else it isn't added.
pub(crate) fn add_call(
    calls: &mut Calls,
    alloc: Global,
    number: u32,
    passed: u64,
) -> Result<(), AllocError>
    ensures added { AreAbove 0 (map (λ k. k.number) calls.old ++ number ∷ []) → OnOk result (calls.new ≡ calls.old ++
        record { number = number; session = None; passed = passed; up = []; down = [] } ∷ []) }
    ensures refused { (AreAbove 0 (map (λ k. k.number) calls.old ++ number ∷ []) → ⊥) →
        OnOk result (calls.new ≡ calls.old) }
{
    if number <= last_number(&calls.list) {
        return Ok(());
    }
    calls.list.push_back(Call::new(alloc, number, passed))?;
    Ok(())
}

/// The number of the last of these calls, and 0 where there is none: what is above it is above all.
fn last_number(calls: &VecDeque<Call>) -> u32
    ensures above { (c : ℕ) → AreAbove 0 (map (λ k. k.number) calls.now.items) → result < c →
        AreAbove 0 (map (λ k. k.number) calls.now.items ++ c ∷ []) }
    ensures last { (c : ℕ) → AreAbove 0 (map (λ k. k.number) calls.now.items ++ c ∷ []) → result < c }
{
    match calls.back() {
        Some(call) => call.number,
        None => 0,
    }
}

/// The numbers of these calls, in order, in place of what stood there.
pub(crate) fn list_numbers(calls: &VecDeque<Call>, numbers: &mut Vec<u32>) -> Result<(), AllocError>
    ensures { OnOk result (numbers.new.items ≡ map (λ k. k.number) calls.now.items) }
{
    numbers.clear();
    for call in calls {
        numbers.push(call.number)?;
    }
    Ok(())
}
