//! The minimum set of data.
ghost use Rattle.msd_values.specs.Format.{HasMarks};

use crate::format::Format;
use crate::kind::VehicleKind;
use crate::vin::Vin;
use per_bits::{Additions, Octs, Oid};
use std::marker::Model;

/// Which energies the vehicle stores for its propulsion.
#[derive(Clone, Copy, Debug, PartialEq, Eq)]
pub struct Marks {
    pub gasoline: bool,
    pub diesel: bool,
    pub natural_gas: bool,
    pub propane: bool,
    pub electric: bool,
    pub hydrogen: bool,
    pub other: bool,
}

/// The way from a recent location of the vehicle to its present one, in units of 100 milliarcseconds:
/// each number is from -512 to 511.
#[derive(Clone, Copy, Debug, PartialEq, Eq)]
pub struct Delta {
    pub latitude: i16,
    pub longitude: i16,
}

impl Model for Delta {
    ghost use Rattle.msd_values.specs.Position.{Way, IsDelta};

    ghost Value = { Way };

    ghost view = { λ d. record { latitude = d.latitude; longitude = d.longitude } };

    ghost invariant = { λ d. IsDelta d.latitude × IsDelta d.longitude };

    ghost inverse = { λ way. record { latitude = way.latitude; longitude = way.longitude } };
}

impl Delta {
    ghost use Rattle.std.specs.Prelude.{◌≡◌, ◌↔◌, IsSome, IfSome};
    ghost use Rattle.msd_values.specs.Position.{IsDelta};

    /// The way of these two numbers, each from -512 to 511.
    pub fn new(latitude: i16, longitude: i16) -> Option<Delta>
        ensures some { IsSome result ↔ (IsDelta latitude × IsDelta longitude) }
        ensures value { IfSome result (λ way. way ≡ record { latitude = latitude; longitude = longitude }) }
    {
        if latitude < -512 || latitude > 511 || longitude < -512 || longitude > 511 {
            return None;
        }
        Some(Delta {
            latitude,
            longitude,
        })
    }

    /// How far north.
    pub fn latitude(&self) -> i16
        ensures value { result ≡ self.now.latitude }
        ensures range { IsDelta result }
    {
        self.latitude
    }

    /// How far east.
    pub fn longitude(&self) -> i16
        ensures value { result ≡ self.now.longitude }
        ensures range { IsDelta result }
    {
        self.longitude
    }
}

/// Additional data: what it is, and its octets.
#[derive(Drop)]
pub struct Extra<'a> {
    pub oid: Oid<'a>,
    pub content: Octs<'a>,
}

/// A minimum set of data. It borrows the octets of its parts of variable length.
#[derive(Drop)]
pub struct Msd<'a> {
    /// The format by which it is written.
    pub format: Format,
    /// The number of the set within its incident.
    pub message: u8,
    /// Whether the call was triggered by the vehicle itself.
    pub automatic: bool,
    pub test: bool,
    /// Whether the location can be trusted.
    pub trusted: bool,
    pub kind: VehicleKind,
    pub vin: Vin,
    pub fuel: Marks,
    ghost marks: { HasMarks format fuel },
    /// Additions to the energies.
    pub fuel_more: Option<Additions<'a>>,
    /// Seconds since 1970-01-01T00:00:00Z.
    pub time: u32,
    /// Milliarcseconds to the north; 2147483647 is unknown.
    pub latitude: i32,
    /// Milliarcseconds to the east; 2147483647 is unknown.
    pub longitude: i32,
    /// Steps of 2 degrees from north, clockwise; 255 is unknown.
    pub heading: u8,
    /// The way from the most recent location before.
    pub before1: Option<Delta>,
    /// The way from the location before that.
    pub before2: Option<Delta>,
    /// How many people the vehicle noticed.
    pub passengers: Option<u8>,
    /// Additions to the structure.
    pub set_more: Option<Additions<'a>>,
    pub extra: Option<Extra<'a>>,
    /// Additions to the message.
    pub message_more: Option<Additions<'a>>,
}
