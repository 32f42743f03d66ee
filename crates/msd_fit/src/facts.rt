//! What the vehicle knows of itself.
use crate::candidate::Candidate;
use arrayvec::ArrayVec;
use msd_values::{Delta, Format, Marks, RootKind, Vin};

/// How many candidates of additional data the facts have at most.
pub const MOST_CANDIDATES: usize = 4;

/// What the vehicle knows of itself, in the units of its set of data.
#[derive(Clone, Debug, PartialEq, Eq, Drop)]
pub struct OwnFacts {
    /// The format of the sets.
    pub format: Format,
    pub vin: Vin,
    pub kind: RootKind,
    /// In format 1 the mark of other energies is not written.
    pub fuel: Marks,
    /// Seconds since 1970-01-01T00:00:00Z.
    pub time: u32,
    /// Milliarcseconds to the north; 2147483647 is unknown.
    pub latitude: i32,
    /// Milliarcseconds to the east; 2147483647 is unknown.
    pub longitude: i32,
    /// Steps of 2 degrees from north, clockwise; 255 is unknown.
    pub heading: u8,
    /// Whether the location can be trusted.
    pub trusted: bool,
    /// The way from the most recent location before.
    pub before1: Option<Delta>,
    /// The way from the location before that.
    pub before2: Option<Delta>,
    /// How many people the vehicle noticed.
    pub passengers: Option<u8>,
    /// Additional data, the one that is wanted most first.
    pub extras: ArrayVec<Candidate, MOST_CANDIDATES>,
}

/// What the sets of data of a vehicle are made of.
#[derive(Clone, Debug, PartialEq, Eq, Drop)]
pub enum Facts {
    /// What the vehicle knows.
    Own(OwnFacts),
    /// A set that was made elsewhere, with octets 0 to its end. It need not be a valid one.
    Ready([u8; 140]),
}
