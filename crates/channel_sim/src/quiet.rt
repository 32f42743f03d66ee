//! Passing an end by ticks in which it does nothing, and what is due at it.

ghost use Rattle.std.specs.Prelude.{◌≡◌, ◌≤◌, ◌<◌, ◌-◌, ◌+◌, Option, Some, None, IfSome, ◌^◌};
ghost use Rattle.psap_machine.specs.Point.{Point};
ghost use Rattle.psap_machine.specs.PointRows as point;
ghost use Rattle.psap_machine.specs.SessionStands.{SessionStandsFor, IsSettled};
ghost use Rattle.channel_sim.specs.inner.Seats.{IsQuietFor};
ghost use Rattle.channel_sim.specs.Lag.{SessionLags, VehicleLags};
ghost use Rattle.ivs_machine.specs.IvsStands.{IvsStandsFor};
ghost use Rattle.ivs_machine.specs.Vehicle.{Vehicle};
ghost use Rattle.ivs_machine.specs.VehicleRows as vehicle;

use crate::vehicle::KeptVehicle;
use ivs_machine::Ivs;
use link_frames::{Items, Steps};
use psap_machine::Session;
use std::sync::ledger::Ledger;

/// So many of the ticks left as one call passes, where this many are due.
fn ticks_at_once(left: u64, due: Option<u32>) -> u32
    ensures some { 0 < left → IfSome due (λ d. 0 < d) → 0 < result }
    ensures left { result ≤ left }
    ensures due { IfSome due (λ d. result ≤ d) }
    ensures whole { left < 2 ^ 32 → IfSome due (λ d. left ≤ d) → result ≡ left }
{
    let most = due.unwrap_or(u32::MAX);
    if left < u64::from(most) {
        left as u32
    } else {
        most
    }
}

/// Passes a session by ticks in which it does nothing. `items` is room.
pub(crate) fn pass_quietly<L: Ledger>(
    session: &mut Session,
    lag: u64,
    items: &mut Items,
    moments: &mut Steps<L>,
)
    ensures lags { (s : Point) → SessionLags lag session.old s → SessionLags 0 session.new s }
    ensures passes { (s : Point) → SessionLags lag session.old s → lag < 2 ^ 32 → moments.new ≤ moments.old + 1 }
    ensures still { lag ≡ 0 → moments.new ≡ moments.old }
{
    let mut left = lag;
    while left > 0 {
        let n = ticks_at_once(left, session.due());
        if n == 0 {
            return;
        }
        session.pass_into(n, moments, items);
        left -= u64::from(n);
    }
}

/// Passes a session by ticks in which it does nothing; in fewer than `quiet` nothing is due in it. `items` is room.
pub(crate) fn pass_known<L: Ledger>(
    session: &mut Session,
    lag: u64,
    quiet: u64,
    items: &mut Items,
    moments: &mut Steps<L>,
)
    requires { IsQuietFor quiet (Some session.old) }
    ensures lags { (s : Point) → SessionLags lag session.old s → SessionLags 0 session.new s }
    ensures passes { (s : Point) → SessionLags lag session.old s → lag < 2 ^ 32 → moments.new ≤ moments.old + 1 }
    ensures still { lag ≡ 0 → moments.new ≡ moments.old }
{
    if 0 < lag && lag < quiet && lag <= u64::from(u32::MAX) {
        session.rest(lag as u32, moments);
    } else {
        pass_quietly(session, lag, items, moments);
    }
}

/// Lets so many ticks pass in a session that is settled.
#[inline]
pub(crate) fn rest_by<L: Ledger>(session: &mut Session, lag: u64, moments: &mut Steps<L>)
    requires { IsSettled session.old }
    ensures settled { IsSettled session.new }
    ensures lags { (s : Point) → SessionLags lag session.old s → SessionLags 0 session.new s }
    ensures passes { lag < 2 ^ 32 → moments.new ≤ moments.old + 1 }
    ensures still { lag ≡ 0 → moments.new ≡ moments.old }
{
    if lag == 0 {
        return;
    }
    if lag <= u64::from(u32::MAX) {
        session.rest(lag as u32, moments);
    } else {
        rest_long(session, lag, moments);
    }
}

/// The same for many ticks. Out of line: nearly always they are fewer than one pass takes.
#[inline(never)]
fn rest_long<L: Ledger>(session: &mut Session, lag: u64, moments: &mut Steps<L>)
    requires { IsSettled session.old }
    ensures settled { IsSettled session.new }
    ensures lags { (s : Point) → SessionLags lag session.old s → SessionLags 0 session.new s }
    ensures passes { lag < 2 ^ 32 → moments.new ≤ moments.old + 1 }
    ensures still { lag ≡ 0 → moments.new ≡ moments.old }
{
    let mut left = lag;
    while left > u64::from(u32::MAX) {
        session.rest(u32::MAX, moments);
        left -= u64::from(u32::MAX);
    }
    if left > 0 {
        session.rest(left as u32, moments);
    }
}

/// What is due at the session, if that is not later than so many ticks.
pub(crate) fn due_at(session: &Session, lag: u64) -> Option<u32>
    ensures some { IfSome result (λ due. (0 < due) × (due ≤ lag)) }
    ensures due { (s : Point) → SessionStandsFor session.now s → IfSome result (λ due. point.due_of s ≡ Some due) }
    ensures later { (s : Point) → SessionStandsFor session.now s → result ≡ None →
        IfSome (point.due_of s) (λ due. lag < due) }
{
    let due = session.due()?;
    if due > 0 && u64::from(due) <= lag {
        Some(due)
    } else {
        None
    }
}

/// Passes the vehicle by ticks in which it does nothing. `items` is room.
fn pass_vehicle_quietly<L: Ledger>(
    ivs: &mut Ivs,
    lag: u64,
    items: &mut Items,
    moments: &mut Steps<L>,
)
    ensures lags { (v : Vehicle) → VehicleLags lag ivs.old v → VehicleLags 0 ivs.new v }
    ensures passes { (v : Vehicle) → VehicleLags lag ivs.old v → lag < 2 ^ 32 → moments.new ≤ moments.old + 1 }
    ensures still { lag ≡ 0 → moments.new ≡ moments.old }
{
    let mut left = lag;
    while left > 0 {
        let n = ticks_at_once(left, ivs.due());
        if n == 0 {
            return;
        }
        ivs.pass_into(n, moments, items);
        left -= u64::from(n);
    }
}

/// Fewer ticks than these one pass takes, where this many are due.
fn ticks_below(due: Option<u32>) -> u64
    ensures due { IfSome due (λ d. result ≤ d) }
    ensures most { result ≤ 2 ^ 32 }
{
    match due {
        Some(ticks) => u64::from(ticks),
        None => u64::from(u32::MAX) + 1,
    }
}

/// Passes the vehicle by ticks in which it does nothing; what is due at it is known. `items` is room.
pub(crate) fn pass_vehicle_known<L: Ledger>(
    ivs: &mut Ivs,
    lag: u64,
    due: Option<u32>,
    items: &mut Items,
    moments: &mut Steps<L>,
)
    requires { (v : Vehicle) → IvsStandsFor ivs.old v → due ≡ vehicle.due_of v }
    ensures lags { (v : Vehicle) → VehicleLags lag ivs.old v → VehicleLags 0 ivs.new v }
    ensures passes { (v : Vehicle) → VehicleLags lag ivs.old v → lag < 2 ^ 32 → moments.new ≤ moments.old + 1 }
    ensures still { lag ≡ 0 → moments.new ≡ moments.old }
{
    if 0 < lag && lag < ticks_below(due) {
        ivs.pass_into(lag as u32, moments, items);
    } else {
        pass_vehicle_quietly(ivs, lag, items, moments);
    }
}

/// What is due at the vehicle, if that is not later than so many ticks.
pub(crate) fn vehicle_due_at(ivs: &KeptVehicle, lag: u64) -> Option<u32>
    ensures some { IfSome result (λ due. (0 < due) × (due ≤ lag)) }
    ensures due { (v : Vehicle) → IvsStandsFor ivs.now v → IfSome result (λ due. vehicle.due_of v ≡ Some due) }
    ensures later { (v : Vehicle) → IvsStandsFor ivs.now v → result ≡ None →
        IfSome (vehicle.due_of v) (λ due. lag < due) }
{
    let due = ivs.due()?;
    if due > 0 && u64::from(due) <= lag {
        Some(due)
    } else {
        None
    }
}
