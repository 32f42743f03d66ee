//! The frames of calls that a flow hands over at a tick.

ghost use Rattle.std.specs.Prelude.{◌≡◌, ◌<◌, ◌++◌, ◌∷◌, [], ◌-◌, ◌+◌, ℕ, suc, List, Option, true, Some, IfOk, OnOk, slice_get, map, if◌then◌else◌};
ghost use Rattle.std.specs.List.{AllByRecursion};
ghost use Rattle.std.specs.Option.{option_map};
ghost use Rattle.channel_sim.specs.World as model;
ghost use Rattle.channel_sim.specs.inner.Acts.{due_by};
ghost use Rattle.channel_sim.specs.inner.Handovers.{IsHandover};
ghost use Rattle.channel_sim.specs.Handing.{due_of, sent_way, full};
ghost use Rattle.channel_sim.specs.Lag.{LeastPassed, CallLags, CallsLag};
ghost use Rattle.channel_sim.specs.Tidy.{AreAbove, AreFrom, ticks_of, CallInTime, numbers_of};
ghost use Rattle.channel_sim.specs.inner.Sends.{IsFirstFrom};
ghost use Rattle.channel_sim.specs.inner.Turns.{IsAmong, Rise};

use super::{Call, Calls, find};
use crate::kept::KeptFrame;
use crate::room::Near;
use crate::sends::Sends;
use std::alloc::AllocError;
use std::collections::VecDeque;

/// A frame that is due, with its call.
#[derive(Drop)]
pub struct Due {
    pub(crate) call: u32,
    pub(crate) frame: KeptFrame,
}

/// What a flow hands over at a tick, before anything is listed.
#[derive(Drop)]
pub(crate) enum Handover {
    /// Nothing: no call that is there has a frame of that tick.
    Nothing,
    /// One frame.
    One(Due),
    /// Frames that are to be listed; they may be none, or one.
    Many,
}

/// Adds a frame of a call, if there is one.
fn add_frame(due: &mut Vec<Due>, number: u32, frame: Option<&KeptFrame>) -> Result<(), AllocError>
    ensures { OnOk result (map due_of due.new.items ≡ map due_of due.old.items ++
        due_by number (option_map (λ f. full f.now) frame.entry)) }
{
    if let Some(frame) = frame {
        due.push(Due {
            call: number,
            frame: frame.share()?,
        })?;
    }
    Ok(())
}

/// Adds the frames of a call that were sent at this tick, the first of which is at this place, and gives the place
/// behind them.
#[inline(always)]
fn add_from(
    due: &mut Vec<Due>,
    number: u32,
    sends: &Sends,
    tick: u64,
    first: usize,
) -> Result<usize, AllocError>
    ensures { (delay : ℕ) → AreFrom 0 (ticks_of sends.now) → IsFirstFrom tick first (ticks_of sends.now) → OnOk result
        (map due_of due.new.items ≡ map due_of due.old.items ++ model.due_frames number delay
        (tick + delay) sends.now) }
{
    for k in first..sends.len() {
        if sends.tick(k) != Some(tick) {
            return Ok(k);
        }
        add_frame(due, number, sends.frame(k))?;
    }
    Ok(sends.len())
}

/// Whether the first frame that was sent at this tick is at this place.
fn begins_at(sends: &Sends, tick: u64, place: usize) -> bool
    ensures { result ≡ true → AreFrom 0 (ticks_of sends.now) → IsFirstFrom tick place (ticks_of sends.now) }
{
    sends.tick(place) == Some(tick) && (place == 0 || sends.tick(place - 1) != Some(tick))
}

/// The place of the first frame that was sent at this tick or later: nearly always at `near`, or the last one.
fn first_from(sends: &Sends, tick: u64, near: usize) -> usize
    ensures { AreFrom 0 (ticks_of sends.now) → IsFirstFrom tick result (ticks_of sends.now) }
{
    if begins_at(sends, tick, near) {
        return near;
    }
    let last = sends.len().saturating_sub(1);
    if begins_at(sends, tick, last) {
        return last;
    }
    sends.first_from(tick)
}

/// Adds the frames of a call that were sent at this tick. `near` becomes the place behind them, where the next ones
/// are.
#[inline]
fn add_due(
    due: &mut Vec<Due>,
    number: u32,
    sends: &Sends,
    tick: u64,
    near: &mut usize,
) -> Result<(), AllocError>
    ensures { (delay : ℕ) → AreFrom 0 (ticks_of sends.now) → OnOk result
        (map due_of due.new.items ≡ map due_of due.old.items ++ model.due_frames number delay
        (tick + delay) sends.now) }
{
    let first = first_from(sends, tick, *near);
    *near = add_from(due, number, sends, tick, first)?;
    Ok(())
}

/// Adds the frames of these calls that were sent up, or down, at this tick.
fn add_all_due(
    due: &mut Vec<Due>,
    calls: &VecDeque<Call>,
    up: bool,
    tick: u64,
    near: &mut usize,
) -> Result<(), AllocError>
    ensures { (d : ℕ) (floor : LeastPassed) (now : ℕ) (clock : ℕ → ℕ) (ks : List model.Call) →
        CallsLag floor clock calls.now.items ks →
        AllByRecursion (CallInTime now) ks → OnOk result
        (map due_of due.new.items ≡ map due_of due.old.items ++ model.due_in (sent_way up) (suc d) (tick + suc d) ks) }
{
    for call in calls {
        add_due(due, call.number, call.sends(up), tick, near)?;
    }
    Ok(())
}

/// Adds the frames that were sent up, or down, at this tick in the call of this number, and in no other of these.
#[inline]
fn add_only_due(
    due: &mut Vec<Due>,
    calls: &VecDeque<Call>,
    number: u32,
    up: bool,
    tick: u64,
    near: &mut usize,
) -> Result<(), AllocError>
    ensures { (d : ℕ) (floor : LeastPassed) (now : ℕ) (clock : ℕ → ℕ) (ks : List model.Call) →
        CallsLag floor clock calls.now.items ks → AreAbove 0 (numbers_of ks) →
        AllByRecursion (CallInTime now) ks →
        AllByRecursion (λ k. AllByRecursion (λ s. s.tick ≡ tick → k.number ≡ number)
        (if up then k.up else k.down)) calls.now.items → OnOk result
        (map due_of due.new.items ≡ map due_of due.old.items ++ model.due_in (sent_way up) (suc d) (tick + suc d) ks) }
{
    match find(calls, number) {
        Some(i) => add_due(due, number, calls[i].sends(up), tick, near),
        None => Ok(()),
    }
}

/// Adds the frames that were sent up, or down, at this tick in those of these calls that have one of these numbers,
/// which rise.
fn add_listed_due(
    due: &mut Vec<Due>,
    calls: &VecDeque<Call>,
    numbers: &[u32],
    up: bool,
    tick: u64,
    near: &mut usize,
) -> Result<(), AllocError>
    ensures { (d : ℕ) (floor : LeastPassed) (now : ℕ) (clock : ℕ → ℕ) (ks : List model.Call) →
        CallsLag floor clock calls.now.items ks → AreAbove 0 (numbers_of ks) →
        AllByRecursion (CallInTime now) ks → Rise numbers.now →
        AllByRecursion (λ k. AllByRecursion (λ s. s.tick ≡ tick → IsAmong k.number numbers.now)
        (if up then k.up else k.down)) calls.now.items → OnOk result
        (map due_of due.new.items ≡ map due_of due.old.items ++ model.due_in (sent_way up) (suc d) (tick + suc d) ks) }
{
    for number in numbers {
        if let Some(i) = find(calls, *number) {
            add_due(due, *number, calls[i].sends(up), tick, near)?;
        }
    }
    Ok(())
}

/// Whether the frame at this place is the only one of its call that was sent at this tick; it stands in front of all that
/// were sent later.
fn is_only(sends: &Sends, tick: u64, place: usize) -> bool
    ensures { result ≡ true → (number delay : ℕ) → AreFrom 0 (ticks_of sends.now) →
        IsFirstFrom tick place (ticks_of sends.now) → model.due_frames number delay (tick + delay) sends.now ≡
        due_by number (option_map (λ s. s.frame) (slice_get sends.now place)) }
{
    match place.checked_add(1) {
        Some(next) => sends.tick(place) == Some(tick) && sends.tick(next) != Some(tick),
        None => false,
    }
}

/// The frame of a call that was sent at this tick, where it is the only one. `near` becomes the place behind it, where the
/// next one is.
#[inline(always)]
fn only_frame(
    number: u32,
    sends: &Sends,
    tick: u64,
    near: &mut usize,
) -> Result<Handover, AllocError>
    ensures { (delay : ℕ) → AreFrom 0 (ticks_of sends.now) → IfOk result (λ handover.
        IsHandover handover (model.due_frames number delay (tick + delay) sends.now)) }
{
    let place = first_from(sends, tick, *near);
    let Some(frame) = sends.frame(place) else {
        return Ok(Handover::Many);
    };
    if !is_only(sends, tick, place) {
        return Ok(Handover::Many);
    }
    *near = place.saturating_add(1);
    Ok(Handover::One(Due {
        call: number,
        frame: frame.share()?,
    }))
}

/// What a flow up, or down, hands over now of the frames of these calls, where that is known to be one frame or nothing. So
/// it is nearly always, and then nothing is listed.
#[inline(always)]
pub(crate) fn only_due(
    calls: &Calls,
    up: bool,
    flow: u32,
    now: u64,
    near: &mut Near,
) -> Result<Handover, AllocError>
    ensures { (floor : LeastPassed) (clock : ℕ → ℕ) (ks : List model.Call) → CallsLag floor clock calls.now ks →
        AreAbove 0 (numbers_of ks) → AllByRecursion (CallInTime now) ks →
        IfOk result (λ handover. IsHandover handover (model.due_in (sent_way up) flow now ks)) }
{
    let delay = u64::from(flow);
    if flow == 0 || now < delay {
        return Ok(Handover::Nothing);
    }
    let sent = now - delay;
    let Some(number) = calls.only_sent(up, sent, &mut near.sending) else {
        return Ok(Handover::Many);
    };
    let calls = calls.all();
    match find(calls, number) {
        Some(i) => only_frame(number, calls[i].sends(up), sent, &mut near.frame),
        None => Ok(Handover::Nothing),
    }
}

/// Adds the frames of a call that a flow up, or down, hands over now.
pub(crate) fn call_due(
    due: &mut Vec<Due>,
    call: &Call,
    up: bool,
    flow: u32,
    now: u64,
) -> Result<(), AllocError>
    ensures { (floor : LeastPassed) (clock : ℕ) (k : model.Call) → CallLags floor clock call.now k → CallInTime now k →
        OnOk result
        (map due_of due.new.items ≡ map due_of due.old.items ++ model.due_in (sent_way up) flow now (k ∷ [])) }
{
    let delay = u64::from(flow);
    if flow == 0 || now < delay {
        return Ok(());
    }
    let mut near = 0;
    add_due(due, call.number, call.sends(up), now - delay, &mut near)
}

/// The frames of these calls that a flow up, or down, hands over now, in place of what stood there. `numbers` is room.
#[inline(always)]
pub(crate) fn all_due(
    calls: &Calls,
    up: bool,
    flow: u32,
    now: u64,
    due: &mut Vec<Due>,
    numbers: &mut Vec<u32>,
    near: &mut Near,
) -> Result<(), AllocError>
    ensures { (floor : LeastPassed) (clock : ℕ → ℕ) (ks : List model.Call) → CallsLag floor clock calls.now ks →
        AreAbove 0 (numbers_of ks) →
        AllByRecursion (CallInTime now) ks →
        OnOk result (map due_of due.new.items ≡ model.due_in (sent_way up) flow now ks) }
{
    due.clear();
    let delay = u64::from(flow);
    if flow == 0 || now < delay {
        return Ok(());
    }
    let tick = now - delay;
    if let Some(number) = calls.only_sent(up, tick, &mut near.sending) {
        add_only_due(due, calls.all(), number, up, tick, &mut near.frame)?;
    } else if calls.list_sent(up, tick, &mut near.sending, numbers)? {
        add_listed_due(due, calls.all(), numbers, up, tick, &mut near.frame)?;
    } else {
        add_all_due(due, calls.all(), up, tick, &mut near.frame)?;
    }
    Ok(())
}
