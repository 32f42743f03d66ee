//! The event lines of a script.

use link_frames::End;
use msd_fit::Cause;
use std::marker::Model;

/// A number of a script's line, 1 to 4294967295: of a call, of a frame sent in it, or of ticks.
#[derive(Clone, Copy, Debug, PartialEq, Eq)]
pub struct Positive {
    number: u32,
}

impl Model for Positive {
    ghost use Rattle.std.specs.Prelude.{ℕ, ◌<◌};

    ghost Value = { ℕ };

    ghost view = { λ p. p.number };

    ghost invariant = { λ p. 0 < p.number };

    ghost inverse = { λ n. record { number = n } };
}

impl Positive {
    ghost use Rattle.std.specs.Prelude.{◌≡◌, ◌<◌, ◌↔◌, ◌^◌, IsSome, IfSome};

    /// There is none of 0.
    pub fn new(number: u32) -> Option<Positive>
        ensures some { IsSome result ↔ (0 < number) }
        ensures value { IfSome result (λ p. p ≡ number) }
    {
        if number == 0 {
            None
        } else {
            Some(Positive { number })
        }
    }

    /// The number, at least 1.
    pub fn number(self) -> u32
        ensures value { result ≡ self }
        ensures low { 0 < result }
        ensures high { result < 2 ^ 32 }
    {
        self.number
    }
}

/// The longest delay of a flow, in ticks.
pub const LONGEST_DELAY: u32 = 1000;

/// The delay of a flow, 0 to 1000 ticks. 0 is off.
#[derive(Clone, Copy, Debug, PartialEq, Eq)]
pub struct Delay {
    ticks: u32,
}

impl Model for Delay {
    ghost use Rattle.std.specs.Prelude.{ℕ, ◌≤◌};
    ghost use Rattle.trace_model.specs.Delays.{longest_delay};

    ghost Value = { ℕ };

    ghost view = { λ d. d.ticks };

    ghost invariant = { λ d. d.ticks ≤ longest_delay };

    ghost inverse = { λ n. record { ticks = n } };
}

impl Delay {
    ghost use Rattle.std.specs.Prelude.{◌≡◌, ◌≤◌, ◌↔◌, IsSome, IfSome};
    ghost use Rattle.trace_model.specs.Delays.{longest_delay};

    /// There is none above `LONGEST_DELAY`.
    pub fn new(ticks: u32) -> Option<Delay>
        ensures some { IsSome result ↔ (ticks ≤ longest_delay) }
        ensures value { IfSome result (λ d. d ≡ ticks) }
    {
        if ticks > LONGEST_DELAY {
            None
        } else {
            Some(Delay { ticks })
        }
    }

    /// The ticks, at most `LONGEST_DELAY`.
    pub fn ticks(self) -> u32
        ensures value { result ≡ self }
        ensures most { result ≤ longest_delay }
    {
        self.ticks
    }
}

/// An event line of a script.
#[derive(Clone, Copy, Debug, PartialEq, Eq)]
pub enum Event {
    /// The vehicle is to place an emergency call.
    Trigger(Cause),
    /// The occupant takes a manual trigger back.
    Cancel,
    /// The vehicle finds the mobile network, where true, or loses it.
    Net(bool),
    /// The point takes the call that is dialled.
    Answer,
    /// The attempt to dial fails.
    Fail,
    /// The point calls the vehicle.
    Callback,
    /// The vehicle is to leave its standby.
    Sleep,
    /// A fault of the vehicle.
    FaultVehicle,
    /// A fault of the point in that call.
    FaultPoint(Positive),
    /// The point receives damaged data in that call.
    Damaged(Positive),
    /// The operator asks for a newer set in that call.
    Request(Positive),
    /// The operator clears that call down.
    Clear(Positive),
    /// The operator hangs up in that call.
    Hangup(Positive),
    /// The vehicle's leg of its call is lost.
    DropVehicle,
    /// The point's leg of that call is lost.
    DropPoint(Positive),
    /// Both legs of that call are lost.
    DropBoth(Positive),
    /// The k-th frame sent in that call and direction, from 1, is handed over; `up` is towards the point.
    Deliver {
        up: bool,
        call: Positive,
        k: Positive,
    },
    /// From now on each frame of that direction is handed over so long after it was sent; `up` is towards the point.
    Flow {
        up: bool,
        delay: Delay,
    },
    /// This end restarts, and loses its state.
    Reset(End),
    /// So many ticks pass.
    Tick(Positive),
}
