//! What goes into a floor: numbers of vehicles, and the three forms of event lines.

use link_frames::End;
use msd_fit::Cause;
use std::marker::Model;
use trace_model::{Delay, Event, Positive};

/// How many vehicles stand on a floor at most, and the highest number of one.
pub const MOST_VEHICLES: u8 = 64;

/// The number of a vehicle on a floor, 1 to 64.
#[derive(Clone, Copy, Debug, PartialEq, Eq)]
pub struct VehicleNumber {
    number: u8,
}

impl Model for VehicleNumber {
    ghost use Rattle.std.specs.Prelude.{ℕ};
    ghost use Rattle.call_floor.specs.VehicleNumbers.{IsVehicleNumber};

    ghost Value = { ℕ };

    ghost view = { λ v. v.number };

    ghost invariant = { λ v. IsVehicleNumber v.number };

    ghost inverse = { λ n. record { number = n } };
}

impl VehicleNumber {
    ghost use Rattle.std.specs.Prelude.{◌≡◌, ◌<◌, ◌≤◌, ◌↔◌, IsSome, IfSome};
    ghost use Rattle.call_floor.specs.VehicleNumbers.{IsVehicleNumber};

    /// There is none of 0, and none above `MOST_VEHICLES`.
    pub fn new(number: u8) -> Option<VehicleNumber>
        ensures some { IsSome result ↔ IsVehicleNumber number }
        ensures value { IfSome result (λ v. v ≡ number) }
    {
        if number == 0 || number > MOST_VEHICLES {
            None
        } else {
            Some(VehicleNumber { number })
        }
    }

    /// The number, 1 to `MOST_VEHICLES`.
    pub fn number(self) -> u8
        ensures value { result ≡ self }
        ensures low { 0 < result }
        ensures high { result ≤ 64 }
    {
        self.number
    }
}

/// What a line of a vehicle has happen.
#[derive(Clone, Copy, Debug, PartialEq, Eq)]
pub enum VehicleLine {
    /// It is to place an emergency call.
    Trigger(Cause),
    /// The occupant takes a manual trigger back.
    Cancel,
    /// It finds the mobile network, where true, or loses it.
    Net(bool),
    /// The point takes the call that it dials.
    Answer,
    /// The attempt to dial fails.
    Fail,
    /// The point calls it.
    Callback,
    /// It is to leave its standby.
    Sleep,
    /// A fault of it.
    Fault,
    /// Its leg of its call is lost.
    Drop,
    /// It restarts, and loses its state.
    Reset,
}

/// What a line that names a call has happen in it.
#[derive(Clone, Copy, Debug, PartialEq, Eq)]
pub enum CallLine {
    /// A fault of the point.
    Fault,
    /// The point receives damaged data.
    Damaged,
    /// The operator asks for a newer set.
    Request,
    /// The operator clears the call down.
    Clear,
    /// The operator hangs up.
    Hangup,
    /// The point's leg is lost.
    DropPoint,
    /// Both legs are lost.
    DropBoth,
    /// The k-th frame sent in that direction, from 1, is handed over; `up` is towards the point.
    Deliver { up: bool, k: Positive },
}

/// An event line of a floor's script.
#[derive(Clone, Copy, Debug, PartialEq, Eq)]
pub enum FloorEvent {
    /// A line of a vehicle, which stands before it.
    Vehicle {
        vehicle: VehicleNumber,
        line: VehicleLine,
    },
    /// A line that names a call.
    Call {
        call: Positive,
        line: CallLine,
    },
    /// From now on each frame of that direction is handed over so long after it was sent, in every call; `up` is towards
    /// the point.
    Flow {
        up: bool,
        delay: Delay,
    },
    /// So many ticks pass.
    Tick(Positive),
}

ghost use Rattle.std.specs.Prelude.{◌≡◌, Some};
ghost use Rattle.call_floor.specs.FloorEvents.{vehicle_event, call_event, floor_event, as_vehicle, as_other};

/// The line of a vehicle as one that vehicle has alone.
pub(crate) fn alone_event(line: &VehicleLine) -> Event
    ensures { result ≡ vehicle_event line.now }
{
    match line {
        VehicleLine::Trigger(cause) => Event::Trigger(*cause),
        VehicleLine::Cancel => Event::Cancel,
        VehicleLine::Net(up) => Event::Net(*up),
        VehicleLine::Answer => Event::Answer,
        VehicleLine::Fail => Event::Fail,
        VehicleLine::Callback => Event::Callback,
        VehicleLine::Sleep => Event::Sleep,
        VehicleLine::Fault => Event::FaultVehicle,
        VehicleLine::Drop => Event::DropVehicle,
        VehicleLine::Reset => Event::Reset(End::Vehicle),
    }
}

/// The line that names a call as the line of a script of one vehicle.
pub(crate) fn named_event(call: Positive, line: &CallLine) -> Event
    ensures { result ≡ call_event call line.now }
{
    match line {
        CallLine::Fault => Event::FaultPoint(call),
        CallLine::Damaged => Event::Damaged(call),
        CallLine::Request => Event::Request(call),
        CallLine::Clear => Event::Clear(call),
        CallLine::Hangup => Event::Hangup(call),
        CallLine::DropPoint => Event::DropPoint(call),
        CallLine::DropBoth => Event::DropBoth(call),
        CallLine::Deliver { up, k } => Event::Deliver {
            up: *up,
            call,
            k: *k,
        },
    }
}

/// The line of a vehicle that says this, if it is one of a vehicle.
fn vehicle_line(event: &Event) -> Option<VehicleLine>
    ensures { result ≡ as_vehicle event.now }
{
    match event {
        Event::Trigger(cause) => Some(VehicleLine::Trigger(*cause)),
        Event::Cancel => Some(VehicleLine::Cancel),
        Event::Net(up) => Some(VehicleLine::Net(*up)),
        Event::Answer => Some(VehicleLine::Answer),
        Event::Fail => Some(VehicleLine::Fail),
        Event::Callback => Some(VehicleLine::Callback),
        Event::Sleep => Some(VehicleLine::Sleep),
        Event::FaultVehicle => Some(VehicleLine::Fault),
        Event::DropVehicle => Some(VehicleLine::Drop),
        Event::Reset(End::Vehicle) => Some(VehicleLine::Reset),
        _ => None,
    }
}

/// The line of a call.
fn in_call(call: Positive, line: CallLine) -> Option<FloorEvent>
    ensures { result ≡ Some (FloorEvent.Call call line) }
{
    Some(FloorEvent::Call { call, line })
}

/// The line that says this without a vehicle, if it is one of a call or of all.
fn other_line(event: &Event) -> Option<FloorEvent>
    ensures { result ≡ as_other event.now }
{
    match event {
        Event::FaultPoint(call) => in_call(*call, CallLine::Fault),
        Event::Damaged(call) => in_call(*call, CallLine::Damaged),
        Event::Request(call) => in_call(*call, CallLine::Request),
        Event::Clear(call) => in_call(*call, CallLine::Clear),
        Event::Hangup(call) => in_call(*call, CallLine::Hangup),
        Event::DropPoint(call) => in_call(*call, CallLine::DropPoint),
        Event::DropBoth(call) => in_call(*call, CallLine::DropBoth),
        Event::Deliver { up, call, k } => in_call(*call, CallLine::Deliver { up: *up, k: *k }),
        Event::Flow { up, delay } => Some(FloorEvent::Flow {
            up: *up,
            delay: *delay,
        }),
        Event::Tick(n) => Some(FloorEvent::Tick(*n)),
        _ => None,
    }
}

impl FloorEvent {
    /// The line of a floor that says this, behind the number of a vehicle if one stands there. `None` exactly where it is
    /// none of the three forms: a vehicle stands before a line that isn't of one, none stands before a line of a vehicle,
    /// or the point restarts.
    pub fn of(vehicle: Option<VehicleNumber>, event: &Event) -> Option<FloorEvent>
        ensures { result ≡ floor_event vehicle event.now }
    {
        match vehicle {
            Some(vehicle) => {
                let line = vehicle_line(event)?;
                Some(FloorEvent::Vehicle { vehicle, line })
            }
            None => other_line(event),
        }
    }
}
