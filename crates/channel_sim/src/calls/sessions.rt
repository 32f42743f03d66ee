//! The session of the call of a number, among calls.

ghost use Rattle.std.specs.Prelude.{◌≡◌, ◌≤◌, ◌<◌, ◌-◌, ◌+◌, ℕ, List, [], true, false, Some, None, OnOk, OnErr, IfOk, length, slice_get, if◌then◌else◌, ◌^◌};
ghost use Rattle.std.specs.Option.{is_some, option_map};
ghost use Rattle.psap_machine.specs.Point.{Point};
ghost use Rattle.trace_fit.specs.Seats.{left_by};
ghost use Rattle.psap_machine.specs.PointRows as point;
ghost use Rattle.psap_machine.specs.SessionStands.{SessionStandsFor};
ghost use Rattle.channel_sim.specs.Handing.{full};
ghost use Rattle.channel_sim.specs.Lines as lines;
ghost use Rattle.channel_sim.specs.World as model;
ghost use Rattle.channel_sim.specs.inner.Acts.{SessionDid, IsCaught};
ghost use Rattle.channel_sim.specs.Lag.{LeastPassed, AreSameBut, CallsLag, level};
ghost use Rattle.channel_sim.specs.Tidy.{AreAbove, numbers_of};
ghost use Rattle.channel_sim.specs.inner.Passes.{once_if};

use super::call::{act_at, acts_from, hear_call, reach_up, waits};
use super::seat::Seat;
use super::{Call, Calls, find};
use crate::kept::KeptFrame;
use link_frames::{Items, Steps, Why, no_items};
use psap_machine::{PointEvent, Session};
use std::alloc::AllocError;
use std::collections::VecDeque;
use std::sync::ledger::Ledger;

/// Whether a call's session is there.
pub(crate) fn has_session(calls: &VecDeque<Call>, number: u32) -> bool
    ensures { (floor : LeastPassed) (clock : ℕ → ℕ) (ks : List model.Call) → CallsLag floor clock calls.now.items ks →
        AreAbove 0 (numbers_of ks) →
        result ≡ is_some (model.session_of number ks) }
{
    match find(calls, number) {
        Some(i) => calls[i].session.is_some(),
        None => false,
    }
}

/// The frame sent up in a call at this place, from 0, if the session is there to hear it.
pub(crate) fn heard_frame(calls: &VecDeque<Call>, number: u32, place: usize) -> Option<&KeptFrame>
    ensures { (floor : LeastPassed) (clock : ℕ → ℕ) (ks : List model.Call) → CallsLag floor clock calls.now.items ks →
        AreAbove 0 (numbers_of ks) → option_map (λ f. full f.now) result ≡
        option_map (λ s. s.frame) (if is_some (model.session_of number ks)
        then slice_get (lines.sent_up (model.call_of number ks)) place else None) }
{
    let call = &calls[find(calls, number)?];
    if call.session.is_some() {
        call.frame(true, place)
    } else {
        None
    }
}

/// A session comes up in the call of a number, at a tick.
pub(crate) fn admit(
    calls: &mut Calls,
    number: u32,
    tick: u64,
    session: Session,
) -> Result<(), AllocError>
    ensures { (settled : ℕ) (s : Point) (ks : List model.Call) →
        CallsLag (level settled tick) (λ c. tick) calls.old ks →
        AreAbove 0 (numbers_of ks) → SessionStandsFor session s → left_by s ≡ Some s →
        OnOk result (CallsLag (level settled tick) (λ c. tick) calls.new (model.seated number (Some s) ks)) }
{
    if let Some(i) = find(&calls.list, number) {
        let turn = calls.turns.wake(number)?;
        let call = &mut calls.list[i];
        call.session = Seat::of(session);
        call.passed = tick;
        calls.turns.note(turn, acts_from(call));
    }
    Ok(())
}

/// The session of a call hears this at a tick, and one that is over is gone: whether it is there. Its items stand in
/// `items`.
pub(crate) fn hear_session(
    calls: &mut Calls,
    number: u32,
    tick: u64,
    event: &PointEvent<'_>,
    items: &mut Items,
) -> Result<bool, AllocError>
    ensures variant { (floor : LeastPassed) (clock : ℕ → ℕ) (ks : List model.Call) →
        CallsLag floor clock calls.old ks → AreAbove 0 (numbers_of ks) →
        IfOk result (λ there. there ≡ is_some (model.session_of number ks)) }
    ensures did { (floor : LeastPassed) (clock : ℕ → ℕ) (ks : List model.Call) → CallsLag floor clock calls.old ks →
        AreAbove 0 (numbers_of ks) → floor.waking ≤ tick → clock number ≡ tick → IsCaught clock number calls.old →
        IfOk result (λ there. SessionDid floor clock there items.new.items calls.new number
        (λ s. point.point_row s (point.heard event.now)) ks) }
    ensures ended { (floor : LeastPassed) (clock : ℕ → ℕ) (ks : List model.Call) → CallsLag floor clock calls.old ks →
        AreAbove 0 (numbers_of ks) → event.now ≡ PointEvent.Ended Why.Release →
        IfOk result (λ there. SessionDid floor clock there items.new.items calls.new number
        (λ s. point.point_row s (point.Ended Why.Release)) ks) }
{
    match find(&calls.list, number) {
        Some(i) => {
            let turn = calls.turns.wake(number)?;
            let call = &mut calls.list[i];
            let there = hear_call(call, tick, event, items);
            calls.turns.note(turn, acts_from(call));
            Ok(there)
        }
        None => {
            no_items(items);
            Ok(false)
        }
    }
}

/// Passes the session of a call up to this tick, if it is there and does something at it, and one that is over is
/// gone: whether it did. Its items stand in `items`.
#[inline(always)]
pub(crate) fn act_session<L: Ledger>(
    calls: &mut Calls,
    number: u32,
    tick: u64,
    items: &mut Items,
    moments: &mut Steps<L>,
) -> Result<bool, AllocError>
    ensures did { (floor : LeastPassed) (before after : ℕ → ℕ) (ks : List model.Call) →
        CallsLag floor before calls.old ks → AreAbove 0 (numbers_of ks) → before number + 1 ≡ tick →
        after number ≡ tick → AreSameBut number before after →
        IfOk result (λ done. SessionDid floor after done items.new.items calls.new number point.unit_row ks) }
    ensures none { IfOk result (λ done. done ≡ false → items.new.items ≡ []) }
    ensures passes { (floor : LeastPassed) (before : ℕ → ℕ) (ks : List model.Call) →
        CallsLag floor before calls.old ks → AreAbove 0 (numbers_of ks) →
        OnOk result (moments.new ≤ moments.old + length items.new.items) }
    ensures err { OnErr result (moments.new ≡ moments.old) }
{
    let Some(i) = find(&calls.list, number) else {
        no_items(items);
        return Ok(false);
    };
    if waits(&calls.list[i], tick) {
        no_items(items);
        return Ok(false);
    }
    let turn = calls.turns.wake(number)?;
    let call = &mut calls.list[i];
    let done = act_at(call, tick, items, moments);
    calls.turns.note(turn, acts_from(call));
    Ok(done)
}

/// The session of a call is passed up to this tick, up to which it does nothing, and hears this, and one that is over is
/// gone: whether it is there. Its items stand in `items`.
#[inline(always)]
pub(crate) fn reach_session<L: Ledger>(
    calls: &mut Calls,
    number: u32,
    tick: u64,
    event: &PointEvent<'_>,
    items: &mut Items,
    moments: &mut Steps<L>,
) -> Result<bool, AllocError>
    ensures variant { (floor : LeastPassed) (ks : List model.Call) → CallsLag floor (λ c. tick) calls.old ks →
        AreAbove 0 (numbers_of ks) →
        IfOk result (λ there. there ≡ is_some (model.session_of number ks)) }
    ensures did { (floor : LeastPassed) (ks : List model.Call) → CallsLag floor (λ c. tick) calls.old ks →
        AreAbove 0 (numbers_of ks) → floor.waking ≤ tick →
        IfOk result (λ there. SessionDid floor (λ c. tick) there items.new.items calls.new number
        (λ s. point.point_row s (point.heard event.now)) ks) }
    ensures passes { (floor : LeastPassed) (ks : List model.Call) → CallsLag floor (λ c. tick) calls.old ks →
        AreAbove 0 (numbers_of ks) → tick < floor.waking + 2 ^ 32 → moments.new ≤ moments.old + once_if
        (model.session_of number ks) }
    ensures err { OnErr result (moments.new ≡ moments.old) }
{
    match find(&calls.list, number) {
        Some(i) => {
            let turn = calls.turns.wake(number)?;
            let call = &mut calls.list[i];
            reach_up(call, tick, items, moments);
            let there = hear_call(call, tick, event, items);
            calls.turns.note(turn, acts_from(call));
            Ok(there)
        }
        None => {
            no_items(items);
            Ok(false)
        }
    }
}
