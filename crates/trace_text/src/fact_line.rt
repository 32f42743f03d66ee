//! The fact lines of a text.

ghost use Rattle.std.specs.Prelude.{◌≡◌};
ghost use Rattle.trace_text.specs.inner.ShortFacts.{fact_of};

use msd_fit::Candidate;
use msd_values::{Delta, Format, Marks, RootKind, Vin};

/// A fact that a vehicle knows of itself, by one line.
#[derive(Clone, Copy, Debug, PartialEq, Eq)]
pub enum FactLine {
    /// Its identification number.
    Vin(Vin),
    /// Its category.
    Kind(RootKind),
    /// The format of its sets of data.
    Format(Format),
    /// The energies that it stores.
    Fuel(Marks),
    /// Seconds since 1970-01-01T00:00:00Z.
    Time(u32),
    /// Milliarcseconds to the north and to the east; 2147483647 is unknown.
    Place { latitude: i32, longitude: i32 },
    /// Steps of 2 degrees from north, clockwise; 255 is unknown.
    Heading(u8),
    /// Whether the location can be trusted.
    Trusted(bool),
    /// The way from the most recent location before.
    Before1(Delta),
    /// The way from the location before that.
    Before2(Delta),
    /// How many people it noticed.
    Passengers(u8),
    /// One more candidate of additional data.
    Extra(Candidate),
    /// A ready set of data, with zero octets to its end.
    Set([u8; 140]),
}

/// A fact of few octets, as most are: any but additional data and a ready set. It is what the readers of lines hand on, since a
/// `FactLine` has room for a set, and all of that is copied each time.
#[derive(Clone, Copy)]
pub(crate) enum ShortFact {
    Vin(Vin),
    Kind(RootKind),
    Format(Format),
    Fuel(Marks),
    Time(u32),
    Place { latitude: i32, longitude: i32 },
    Heading(u8),
    Trusted(bool),
    Before1(Delta),
    Before2(Delta),
    Passengers(u8),
}

impl ShortFact {
    /// The same fact, with room for every other.
    pub(crate) fn whole(self) -> FactLine
        ensures { result ≡ fact_of self }
    {
        match self {
            ShortFact::Vin(vin) => FactLine::Vin(vin),
            ShortFact::Kind(kind) => FactLine::Kind(kind),
            ShortFact::Format(format) => FactLine::Format(format),
            ShortFact::Fuel(fuel) => FactLine::Fuel(fuel),
            ShortFact::Time(time) => FactLine::Time(time),
            ShortFact::Place {
                latitude,
                longitude,
            } => FactLine::Place {
                latitude,
                longitude,
            },
            ShortFact::Heading(heading) => FactLine::Heading(heading),
            ShortFact::Trusted(trusted) => FactLine::Trusted(trusted),
            ShortFact::Before1(way) => FactLine::Before1(way),
            ShortFact::Before2(way) => FactLine::Before2(way),
            ShortFact::Passengers(count) => FactLine::Passengers(count),
        }
    }
}
