//! Why and where a reader refuses its input.
ghost use Rattle.std.specs.Prelude.{◌≡◌};
ghost use Rattle.per_bits.specs.Reasons.{code_of};

/// A refusal of a set of data: where, why, and the value that was read there.
#[derive(Clone, Copy, Debug, Drop, PartialEq, Eq)]
pub struct Refusal {
    /// The place in bits from the first bit of the octets.
    pub place: u32,
    pub reason: Reason,
    /// What stands there, as the reason says.
    pub value: u64,
}

/// Why a set of data is refused, this project's profile.
#[derive(Clone, Copy, Debug, Drop, PartialEq, Eq)]
pub enum Reason {
    /// Fewer bits are left than the element has; the value is the bits wanted.
    Short,
    /// A number above its range; the value is what its bits read.
    OutOfRange,
    /// A length above 127; the value is its first eight bits.
    LongLength,
    /// A small number above 63; the value is its first seven bits.
    SmallLarge,
    /// No addition of a section is present; the value is the number of presence bits.
    NoAddition,
    /// An open type without octets; the value is 0.
    EmptyOpen,
    /// Octets that are no relative object identifier; the value is the octet, or 0 where there is none.
    BadOid,
    /// An unknown format; the value is its number.
    Version,
    /// A bit that pads to a whole octet is 1; the value is 1.
    PadBits,
    /// An appended octet isn't 0; the value is that octet.
    Trailing,
    /// No octet, or more than 140; the value is their number, at most 141.
    Size,
}

impl Reason {
    /// The number of the reason, 1 to 11.
    pub fn code(&self) -> u8
        ensures { result ≡ code_of self.now }
    {
        match self {
            Reason::Short => 1,
            Reason::OutOfRange => 2,
            Reason::LongLength => 3,
            Reason::SmallLarge => 4,
            Reason::NoAddition => 5,
            Reason::EmptyOpen => 6,
            Reason::BadOid => 7,
            Reason::Version => 8,
            Reason::PadBits => 9,
            Reason::Trailing => 10,
            Reason::Size => 11,
        }
    }
}
