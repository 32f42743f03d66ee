//! The category of a vehicle.
ghost use Rattle.std.specs.Prelude.{◌≡◌, ◌≤◌, ◌↔◌, IsSome, IfSome};

use std::marker::Model;

/// A category of EN 15722's list, by its number: 1 to 13 are M1, M2, M3, N1, N2, N3, L1e, L2e, L3e, L4e,
/// L5e, L6e and L7e.
#[derive(Clone, Copy, Debug, PartialEq, Eq)]
pub struct RootKind {
    number: u8,
}

impl Model for RootKind {
    ghost use Rattle.std.specs.Prelude.{ℕ, ◌≤◌};

    ghost Value = { ℕ };

    ghost view = { λ k. k.number };

    ghost invariant = { λ k. (1 ≤ k.number) × (k.number ≤ 13) };

    ghost inverse = { λ n. record { number = n } };
}

impl RootKind {
    /// The category of this number, 1 to 13.
    pub fn new(number: u8) -> Option<RootKind>
        ensures some { IsSome result ↔ ((1 ≤ number) × (number ≤ 13)) }
        ensures value { IfSome result (λ kind. kind ≡ number) }
    {
        if number < 1 || number > 13 {
            None
        } else {
            Some(RootKind { number })
        }
    }

    /// Its number, 1 to 13.
    pub fn number(self) -> u8
        ensures value { result ≡ self }
        ensures low { 1 ≤ result }
        ensures high { result ≤ 13 }
    {
        self.number
    }
}

/// A category that a later version of the list has added, by its number among the additions.
#[derive(Clone, Copy, Debug, PartialEq, Eq)]
pub struct AddedKind {
    number: u8,
}

impl Model for AddedKind {
    ghost use Rattle.std.specs.Prelude.{ℕ, ◌≤◌};

    ghost Value = { ℕ };

    ghost view = { λ k. k.number };

    ghost invariant = { λ k. k.number ≤ 63 };

    ghost inverse = { λ n. record { number = n } };
}

impl AddedKind {
    /// The added category of this number, 0 to 63.
    pub fn new(number: u8) -> Option<AddedKind>
        ensures some { IsSome result ↔ (number ≤ 63) }
        ensures value { IfSome result (λ kind. kind ≡ number) }
    {
        if number > 63 {
            None
        } else {
            Some(AddedKind { number })
        }
    }

    /// Its number, 0 to 63.
    pub fn number(self) -> u8
        ensures value { result ≡ self }
        ensures high { result ≤ 63 }
    {
        self.number
    }
}

/// The category of a vehicle.
#[derive(Clone, Copy, Debug, PartialEq, Eq)]
pub enum VehicleKind {
    Root(RootKind),
    Added(AddedKind),
}
