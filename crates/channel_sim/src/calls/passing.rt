//! Passing sessions where a line of elapsed time ends.

ghost use Rattle.std.specs.Prelude.{◌≡◌, ◌≤◌, ◌<◌, ◌+◌, ℕ, List, map, ◌^◌};
ghost use Rattle.std.specs.List.{AllByRecursion};
ghost use Rattle.channel_sim.specs.World as model;
ghost use Rattle.channel_sim.specs.Lag.{LeastPassed, CallsLag, level};
ghost use Rattle.channel_sim.specs.Tidy.{AreAbove};
ghost use Rattle.channel_sim.specs.inner.Beside.{bare, numbers};
ghost use Rattle.channel_sim.specs.inner.Happenings.{IfAll, IfWaking, settled_by};
ghost use Rattle.channel_sim.specs.declared.calls.turns.Turn.{Turn};
ghost use Rattle.channel_sim.specs.inner.Turns.{IsListed, Rise, calls_of};

use super::call::{catch_waking_up, pass_up};
use super::turns::Turn;
use super::{Call, Calls, find};
use crate::channel::Passing;
use link_frames::{Items, Steps};
use std::collections::VecDeque;
use std::sync::ledger::Ledger;

/// Passes each session up to this tick, up to which it does nothing: all, or those that aren't settled. `items` is
/// room.
pub(crate) fn catch_up<L: Ledger>(
    calls: &mut Calls,
    passing: Passing,
    tick: u64,
    items: &mut Items,
    moments: &mut Steps<L>,
)
    ensures lags { (floor : LeastPassed) (ks : List model.Call) → CallsLag floor (λ c. tick) calls.old ks →
        IfWaking passing (floor.settled ≤ floor.waking) →
        CallsLag (level (settled_by passing floor.settled tick) tick) (λ c. tick) calls.new ks }
    ensures passes { (floor : LeastPassed) (ks : List model.Call) → CallsLag floor (λ c. tick) calls.old ks →
        tick < floor.waking + 2 ^ 32 → IfAll passing (tick < floor.settled + 2 ^ 32) →
        moments.new ≤ moments.old + model.session_count ks }
{
    match passing {
        Passing::All => pass_each(calls.list.make_contiguous(), tick, items, moments),
        Passing::Waking => pass_listed(&mut calls.list, calls.turns.all(), tick, items, moments),
    }
    calls.turns.renew(&calls.list);
}

/// Passes the session of each of these calls up to this tick, up to which it does nothing. `items` is room.
fn pass_each<L: Ledger>(calls: &mut [Call], tick: u64, items: &mut Items, moments: &mut Steps<L>)
    ensures same { map bare calls.new ≡ map bare calls.old }
    ensures listed { (turns : List Turn) → AllByRecursion (IsListed turns) calls.old →
        AllByRecursion (IsListed turns) calls.new }
    ensures lags { (floor : LeastPassed) (ks : List model.Call) → CallsLag floor (λ c. tick) calls.old ks →
        CallsLag (level tick tick) (λ c. tick) calls.new ks }
    ensures passes { (floor : LeastPassed) (ks : List model.Call) → CallsLag floor (λ c. tick) calls.old ks →
        tick < floor.waking + 2 ^ 32 → tick < floor.settled + 2 ^ 32 →
        moments.new ≤ moments.old + model.session_count ks }
{
    for call in calls {
        pass_up(call, tick, items, moments);
    }
}

/// Passes the session of each of these calls that has one of these turns up to this tick, up to which it does nothing,
/// unless it is settled. `items` is room.
fn pass_listed<L: Ledger>(
    calls: &mut VecDeque<Call>,
    turns: &[Turn],
    tick: u64,
    items: &mut Items,
    moments: &mut Steps<L>,
)
    requires { AreAbove 0 (numbers calls.old.items) }
    ensures same { map bare calls.new.items ≡ map bare calls.old.items }
    ensures listed { AllByRecursion (IsListed turns.now) calls.old.items →
        AllByRecursion (IsListed turns.now) calls.new.items }
    ensures lags { (floor : LeastPassed) (ks : List model.Call) → CallsLag floor (λ c. tick) calls.old.items ks →
        AllByRecursion (IsListed turns.now) calls.old.items → floor.settled ≤ floor.waking →
        CallsLag (level floor.settled tick) (λ c. tick) calls.new.items ks }
    ensures passes { (floor : LeastPassed) (ks : List model.Call) → CallsLag floor (λ c. tick) calls.old.items ks →
        Rise (calls_of turns.now) → tick < floor.waking + 2 ^ 32 →
        moments.new ≤ moments.old + model.session_count ks }
{
    for turn in turns {
        if let Some(i) = find(calls, turn.call) {
            catch_waking_up(&mut calls[i], tick, items, moments);
        }
    }
}
