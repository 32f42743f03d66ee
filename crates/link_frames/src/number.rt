//! Numbers whose range their type keeps.

use std::marker::Model;

/// The number of a request for data within one call, 1 to 255. This project's profile.
#[derive(Clone, Copy, Debug, PartialEq, Eq)]
pub struct Request {
    number: u8,
}

impl Model for Request {
    ghost use Rattle.std.specs.Prelude.{ℕ, ◌<◌};

    ghost Value = { ℕ };

    ghost view = { λ r. r.number };

    ghost invariant = { λ r. 0 < r.number };

    ghost inverse = { λ n. record { number = n } };
}

impl Request {
    ghost use Rattle.std.specs.Prelude.{◌≡◌, ◌<◌, ◌≤◌, ◌↔◌, ◌^◌, IsSome, IfSome};

    /// The first request of a call.
    pub fn first() -> Request
        ensures { result ≡ 1 }
    {
        Request { number: 1 }
    }

    /// The request of this number; there is none of number 0.
    pub fn new(number: u8) -> Option<Request>
        ensures some { IsSome result ↔ (0 < number) }
        ensures value { IfSome result (λ r. r ≡ number) }
    {
        if number == 0 {
            None
        } else {
            Some(Request { number })
        }
    }

    /// Its number, 1 to 255.
    pub fn number(self) -> u8
        ensures value { result ≡ self }
        ensures low { 0 < result }
        ensures high { result < 2 ^ 8 }
    {
        self.number
    }
}

/// The number of an attempt to dial within one series, 1 to 10. This project's profile.
#[derive(Clone, Copy, Debug, PartialEq, Eq)]
pub struct DialAttempt {
    number: u8,
}

impl Model for DialAttempt {
    ghost use Rattle.std.specs.Prelude.{ℕ, ◌<◌, ◌≤◌};

    ghost Value = { ℕ };

    ghost view = { λ a. a.number };

    ghost invariant = { λ a. (0 < a.number) × (a.number ≤ 10) };

    ghost inverse = { λ n. record { number = n } };
}

impl DialAttempt {
    ghost use Rattle.std.specs.Prelude.{◌≡◌, ◌<◌, ◌≤◌, ◌↔◌, IsSome, IfSome};

    /// The first attempt of a series.
    pub fn first() -> DialAttempt
        ensures { result ≡ 1 }
    {
        DialAttempt { number: 1 }
    }

    /// The attempt of this number; a series has no attempt 0, and none above 10.
    pub fn new(number: u8) -> Option<DialAttempt>
        ensures some { IsSome result ↔ ((0 < number) × (number ≤ 10)) }
        ensures value { IfSome result (λ a. a ≡ number) }
    {
        if number == 0 || number > 10 {
            None
        } else {
            Some(DialAttempt { number })
        }
    }

    /// Its number, 1 to 10.
    pub fn number(self) -> u8
        ensures value { result ≡ self }
        ensures low { 0 < result }
        ensures high { result ≤ 10 }
    {
        self.number
    }
}
