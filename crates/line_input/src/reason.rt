//! Why a line is refused.

ghost use Rattle.std.specs.Prelude.{◌≡◌};
ghost use Rattle.line_input.specs.ReasonCode.{reason_code};

/// Why a line is refused, in the order of the reasons' numbers.
#[derive(Clone, Copy, Debug, PartialEq, Eq)]
pub enum Reason {
    /// The first word, or a later word of a fixed choice, is none of those that may stand there; or a text is no
    /// vehicle identification number, or no list of energies.
    Word,
    /// A number is not in decimal digits without leading zeros, or out of its range.
    Number,
    /// The number of words is wrong for the first word.
    Count,
    /// The line has more than 512 bytes.
    LineLong,
    /// A byte is none of 32 to 126.
    Text,
    /// A word is not an even number of hexadecimal digits, or has too many octets, or two are no candidate of
    /// additional data.
    Hex,
    /// The first event line, or a line that asks for a set, comes without the facts that it needs.
    Missing,
    /// A fact line comes after the first event line.
    Late,
    /// A candidate of additional data comes behind four others.
    Many,
}

impl Reason {
    /// The number by which a refusal names it, 1 to 9.
    pub fn code(self) -> u8
        ensures { result ≡ reason_code self }
    {
        match self {
            Reason::Word => 1,
            Reason::Number => 2,
            Reason::Count => 3,
            Reason::LineLong => 4,
            Reason::Text => 5,
            Reason::Hex => 6,
            Reason::Missing => 7,
            Reason::Late => 8,
            Reason::Many => 9,
        }
    }
}

/// A line that is refused, by its number from 1, and why.
#[derive(Clone, Copy, Debug, PartialEq, Eq)]
pub struct BadLine {
    pub line: u32,
    pub reason: Reason,
}
