//! How long the vehicle has been reachable after a call.

ghost use Rattle.std.specs.Prelude.{◌≡◌, ◌+◌, ◌<◌, ◌≤◌, ◌↔◌, IsTrue, IsNone, IfSome};

use std::marker::Model;

/// T9, from which on the vehicle may leave the standby: one hour, in ticks of 100 ms.
pub const LEAST_STANDBY: u32 = 36_000;

/// T10, at which the vehicle leaves the standby: twelve hours, in ticks of 100 ms.
pub const LONGEST_STANDBY: u32 = 432_000;

/// A standby. Contracts see how many ticks it has lasted.
#[derive(Clone, Copy, Debug, PartialEq, Eq)]
pub struct Rest {
    elapsed: u32,
}

impl Model for Rest {
    ghost use Rattle.std.specs.Prelude.{ℕ, ◌≤◌};
    ghost use Rattle.callback.specs.Rest.{longest_standby};

    ghost Value = { ℕ };

    ghost view = { λ r. r.elapsed };

    ghost invariant = { λ r. r.elapsed ≤ longest_standby };

    ghost inverse = { λ n. record { elapsed = n } };
}

impl Rest {
    ghost use Rattle.callback.specs.Rest.{least_standby, longest_standby, rested};

    /// A standby that begins now.
    pub fn enter() -> Rest
        ensures { result ≡ 0 }
    {
        Rest { elapsed: 0 }
    }

    /// How many ticks it has lasted; the number stays at `LONGEST_STANDBY`.
    pub fn elapsed(&self) -> u32
        ensures value { result ≡ self.now }
        ensures most { result ≤ longest_standby }
    {
        self.elapsed
    }

    /// Whether the least standby is over, so that the vehicle may leave it.
    pub fn may_sleep(&self) -> bool
        ensures { IsTrue result ↔ (least_standby ≤ self.now) }
    {
        self.elapsed >= LEAST_STANDBY
    }

    /// After how many ticks the longest standby is over; `None` exactly where it is.
    pub fn due(&self) -> Option<u32>
        ensures over { IsNone result ↔ (self.now ≡ longest_standby) }
        ensures left { IfSome result (λ n. self.now + n ≡ longest_standby) }
    {
        if self.elapsed == LONGEST_STANDBY {
            None
        } else {
            Some(LONGEST_STANDBY - self.elapsed)
        }
    }

    /// Lets `n` ticks pass, any number of them, and says whether the longest standby ended in them.
    pub fn pass(&mut self, n: u32) -> bool
        ensures elapsed { self.new ≡ rested self.old n }
        ensures ended { IsTrue result ↔ ((self.old < longest_standby) × (self.new ≡ longest_standby)) }
    {
        let was_over = self.elapsed == LONGEST_STANDBY;
        self.elapsed = self.elapsed.saturating_add(n).min(LONGEST_STANDBY);
        !was_over && self.elapsed == LONGEST_STANDBY
    }
}
