//! A call with a leg up, and what its session does.

ghost use Rattle.std.specs.Prelude.{◌≡◌, ◌≤◌, ◌<◌, ◌-◌, ◌+◌, ◌↔◌, ℕ, IsTrue, [], Option, true, false, Some, None, OnOk, OnErr, length, slice_get, if◌then◌else◌, ◌^◌};
ghost use Rattle.std.specs.Option.{is_some, option_map};
ghost use Rattle.psap_machine.specs.Point.{Point};
ghost use Rattle.psap_machine.specs.PointRows as point;
ghost use Rattle.channel_sim.specs.World as model;
ghost use Rattle.channel_sim.specs.inner.Acts.{pushed, CallDid, IsUpTo};
ghost use Rattle.channel_sim.specs.Handing.{full};
ghost use Rattle.channel_sim.specs.Lag.{LeastPassed, CallLags};
ghost use Rattle.channel_sim.specs.inner.Beside.{Waits};
ghost use Rattle.channel_sim.specs.inner.Turns.{Sleeps, WaitsUntil};
ghost use Rattle.channel_sim.specs.inner.Passes.{once_if};

use super::seat::{Seat, quiet_ticks};
use crate::kept::KeptFrame;
use crate::quiet::{due_at, pass_known, rest_by};
use crate::sends::Sends;
use link_frames::{End, Frame, Items, Steps, Why, no_items};
use psap_machine::PointEvent;
use std::alloc::{AllocError, Global};
use std::sync::ledger::Ledger;

/// A call with a leg up: the point's session, where its leg is up, the tick up to which it was passed, and the frames
/// sent: up by the vehicle, down by the point. What changes as ticks pass stands in front, side by side.
#[derive(Drop)]
pub(crate) struct Call {
    pub(crate) passed: u64,
    pub(crate) session: Seat,
    pub(crate) number: u32,
    pub(crate) up: Sends,
    pub(crate) down: Sends,
}

impl Call {
    /// A call in which nothing was sent, and whose session is not there yet.
    pub(crate) fn new(alloc: Global, number: u32, passed: u64) -> Call
        ensures { result ≡ record { number = number; session = None; passed = passed; up = []; down = [] } }
    {
        Call {
            passed,
            session: Seat::free(),
            number,
            up: Sends::new(alloc),
            down: Sends::new(alloc),
        }
    }

    /// This end sent a frame at a tick.
    pub(super) fn push(
        &mut self,
        alloc: Global,
        end: End,
        tick: u64,
        frame: &Frame,
    ) -> Result<(), AllocError>
        ensures ok { OnOk result (self.new ≡ pushed end (record { tick = tick; frame = frame.now }) self.old) }
        ensures err { OnErr result (self.new ≡ self.old) }
    {
        match end {
            End::Vehicle => self.up.push(alloc, tick, frame),
            End::Point => self.down.push(alloc, tick, frame),
        }
    }

    /// The frames sent up, or down.
    pub(super) fn sends(&self, up: bool) -> &Sends
        ensures { result.now ≡ (if up then self.now.up else self.now.down) }
    {
        if up { &self.up } else { &self.down }
    }

    /// The frame sent up, or down, at this place, from 0.
    pub(super) fn frame(&self, up: bool, place: usize) -> Option<&KeptFrame>
        ensures { option_map (λ f. full f.now) result ≡
            option_map (λ s. s.frame) (slice_get (if up then self.now.up else self.now.down) place) }
    {
        if up {
            self.up.frame(place)
        } else {
            self.down.frame(place)
        }
    }
}

/// The session of this call hears this at a tick, and one that is over is gone: whether it is there. Its items stand in
/// `items`. One that is settled need not be passed up to the tick before, and stays as it is where it is settled then.
pub(super) fn hear_call(
    call: &mut Call,
    tick: u64,
    event: &PointEvent<'_>,
    items: &mut Items,
) -> bool
    ensures same { call.new ≡ record call.old { session = call.new.session; passed = call.new.passed } }
    ensures variant { result ≡ is_some call.old.session }
    ensures did { (floor : LeastPassed) (k : model.Call) → CallLags floor tick call.old k → floor.waking ≤ tick →
        IsUpTo tick call.old → CallDid floor tick result items.new.items call.new k
        (λ s. point.point_row s (point.heard event.now)) }
    ensures ended { (floor : LeastPassed) (clock : ℕ) (k : model.Call) → CallLags floor clock call.old k →
        event.now ≡ PointEvent.Ended Why.Release → CallDid floor clock result items.new.items call.new k
        (λ s. point.point_row s (point.Ended Why.Release)) }
{
    match &mut call.session.session {
        Some(session) => {
            session.hear_into(event, items);
            if session.over() {
                call.session = Seat::free();
            } else {
                call.session.quiet = quiet_ticks(session);
                if !session.is_settled() {
                    call.passed = tick;
                }
            }
            true
        }
        None => {
            no_items(items);
            false
        }
    }
}

/// Passes a call's session up to a tick, up to which it does nothing. For how many ticks it does nothing then is left
/// open: `look_ahead` works it out. `items` is room.
#[inline(always)]
fn catch_up<L: Ledger>(call: &mut Call, tick: u64, items: &mut Items, moments: &mut Steps<L>)
    ensures same { call.new ≡ record call.old { session = call.new.session; passed = tick } }
    ensures caught { (floor : LeastPassed) (k : model.Call) → CallLags floor tick call.old k →
        CallLags floor tick call.new k }
    ensures passes { (floor : LeastPassed) (k : model.Call) → CallLags floor tick call.old k →
        tick < call.old.passed + 2 ^ 32 → moments.new ≤ moments.old + once_if k.session }
{
    let lag = tick.saturating_sub(call.passed);
    if lag > 0 {
        if let Some(session) = &mut call.session.session {
            pass_known(session, lag, call.session.quiet, items, moments);
            call.session.quiet = 0;
        }
    }
    call.passed = tick;
}

/// Works out for how many ticks the session of this call, if it is there, does nothing.
fn look_ahead(call: &mut Call)
    ensures { call.new ≡ call.old }
{
    if let Some(session) = &call.session.session {
        call.session.quiet = quiet_ticks(session);
    }
}

/// Passes a call's session up to a tick, up to which it does nothing, but one that is settled stays as it is. `items` is
/// room.
pub(super) fn catch_waking_up<L: Ledger>(
    call: &mut Call,
    tick: u64,
    items: &mut Items,
    moments: &mut Steps<L>,
)
    ensures same { call.new ≡ record call.old { session = call.new.session; passed = call.new.passed } }
    ensures reached { IsUpTo tick call.new }
    ensures asleep { Sleeps call.old → call.new ≡ call.old }
    ensures caught { (floor : LeastPassed) (k : model.Call) → CallLags floor tick call.old k →
        CallLags floor tick call.new k }
    ensures passes { (floor : LeastPassed) (k : model.Call) → CallLags floor tick call.old k →
        tick < floor.waking + 2 ^ 32 →
        moments.new ≤ moments.old + once_if k.session }
{
    if !sleeps(call) {
        catch_up(call, tick, items, moments);
        look_ahead(call);
    }
}

/// The same, where the session hears something next: what comes behind that is worked out then.
pub(super) fn reach_up<L: Ledger>(
    call: &mut Call,
    tick: u64,
    items: &mut Items,
    moments: &mut Steps<L>,
)
    ensures same { call.new ≡ record call.old { session = call.new.session; passed = call.new.passed } }
    ensures reached { IsUpTo tick call.new }
    ensures caught { (floor : LeastPassed) (k : model.Call) → CallLags floor tick call.old k →
        CallLags floor tick call.new k }
    ensures passes { (floor : LeastPassed) (k : model.Call) → CallLags floor tick call.old k →
        tick < floor.waking + 2 ^ 32 →
        moments.new ≤ moments.old + once_if k.session }
{
    if sleeps(call) {
        return;
    }
    catch_up(call, tick, items, moments);
}

/// Whether the session of this call, if it is there, is settled.
pub(super) fn sleeps(call: &Call) -> bool
    ensures { IsTrue result ↔ Sleeps call.now }
{
    match call.session.session() {
        Some(session) => session.is_settled(),
        None => true,
    }
}

/// A tick before which the session of this call, if it is there, does nothing.
pub(super) fn acts_from(call: &Call) -> u64
    ensures { WaitsUntil result call.now }
{
    call.passed.saturating_add(call.session.quiet())
}

/// Whether the session of this call, if it is there, does nothing up to this tick.
pub(super) fn waits(call: &Call, tick: u64) -> bool
    ensures { result ≡ true → Waits tick call.now }
{
    tick.saturating_sub(call.passed) < call.session.quiet()
}

/// Passes a call's session, which is settled, up to a tick.
#[inline]
fn rest_up<L: Ledger>(call: &mut Call, tick: u64, moments: &mut Steps<L>)
    requires { Sleeps call.old }
    ensures same { call.new ≡ record call.old { session = call.new.session; passed = tick } }
    ensures asleep { Sleeps call.new }
    ensures caught { (floor : LeastPassed) (k : model.Call) → CallLags floor tick call.old k →
        CallLags floor tick call.new k }
    ensures passes { (floor : LeastPassed) (k : model.Call) → CallLags floor tick call.old k →
        tick < call.old.passed + 2 ^ 32 → moments.new ≤ moments.old + once_if k.session }
{
    if let Some(session) = &mut call.session.session {
        rest_by(session, tick.saturating_sub(call.passed), moments);
    }
    call.passed = tick;
}

/// Passes a call's session up to a tick, up to which it does nothing; one that is settled stays so. `items` is room.
pub(super) fn pass_up<L: Ledger>(
    call: &mut Call,
    tick: u64,
    items: &mut Items,
    moments: &mut Steps<L>,
)
    ensures same { call.new ≡ record call.old { session = call.new.session; passed = tick } }
    ensures asleep { Sleeps call.old → Sleeps call.new }
    ensures caught { (floor : LeastPassed) (k : model.Call) → CallLags floor tick call.old k →
        CallLags floor tick call.new k }
    ensures passes { (floor : LeastPassed) (k : model.Call) → CallLags floor tick call.old k →
        tick < call.old.passed + 2 ^ 32 → moments.new ≤ moments.old + once_if k.session }
{
    if sleeps(call) {
        rest_up(call, tick, moments);
    } else {
        catch_up(call, tick, items, moments);
        look_ahead(call);
    }
}

/// Passes a call's session up to this tick, if it does something at it, and one that is over is gone: whether it did.
/// Its items stand in `items`.
pub(crate) fn act_at<L: Ledger>(
    call: &mut Call,
    tick: u64,
    items: &mut Items,
    moments: &mut Steps<L>,
) -> bool
    ensures did { (floor : LeastPassed) (before : ℕ) (k : model.Call) → CallLags floor before call.old k →
        before + 1 ≡ tick →
        CallDid floor tick result items.new.items call.new k point.unit_row }
    ensures none { result ≡ false → items.new.items ≡ [] }
    ensures same { call.new ≡ record call.old { session = call.new.session; passed = call.new.passed } }
    ensures passes { (floor : LeastPassed) (before : ℕ) (k : model.Call) → CallLags floor before call.old k →
        moments.new ≤ moments.old + length items.new.items }
{
    let lag = tick.saturating_sub(call.passed);
    if lag < call.session.quiet() {
        no_items(items);
        return false;
    }
    let Some(session) = &mut call.session.session else {
        no_items(items);
        return false;
    };
    let Some(due) = due_at(session, lag) else {
        no_items(items);
        return false;
    };
    session.pass_into(due, moments, items);
    call.passed = tick;
    if session.over() {
        call.session = Seat::free();
    } else {
        call.session.quiet = quiet_ticks(session);
    }
    true
}
