//! What may stand in one place of a form.

ghost use Rattle.std.specs.Prelude.{◌≡◌};

use crate::parts::{part_at, part_count};
use crate::shown::{Plain, Shown};
use line_input::{is_word, read_signed, read_u32, read_u64};
use memchr::memchr;
use std::fmt;

/// The most octets of additional data, its identifier's and its content's together.
pub(crate) const MOST_TOGETHER: usize = 110;

/// The most octets of a set.
pub(crate) const MOST_IN_SET: usize = 140;

/// How many characters an identification number has.
pub(crate) const IN_VIN: usize = 17;

/// How many digits a list of energies has.
pub(crate) const IN_FUEL: usize = 7;

/// What may stand in one place of a form.
#[derive(Clone, Copy)]
pub(crate) enum Slot<'a> {
    /// One of the words that `|` separates.
    Choice(&'a [u8]),
    /// A number from one to another, each in decimal digits.
    Range { low: &'a [u8], high: &'a [u8] },
    /// A vehicle identification number.
    Vin,
    /// Which energies are stored.
    Fuel,
    /// An object identifier of additional data.
    Identifier,
    /// Content of additional data.
    Content,
    /// A set that was made elsewhere.
    Set,
    /// The octets of a set in a trace.
    Octets,
    /// Any octets.
    Hexadecimal,
    /// The first word of the summary of a set, whatever it is.
    Summary,
    /// The first word of a vehicle's line on a floor, whatever it is.
    Line,
}

impl<'a> Slot<'a> {
    /// The slot that a word of a form stands for.
    pub(crate) fn of(text: &'a [u8]) -> Slot<'a> {
        match text {
            [b'<', inner @ .., b'>'] => Slot::named(inner),
            _ => Slot::Choice(text),
        }
    }

    /// The slot of this name, or of this range.
    fn named(name: &'a [u8]) -> Slot<'a> {
        match name {
            b"vin" => Slot::Vin,
            b"fuel" => Slot::Fuel,
            b"oid" => Slot::Identifier,
            b"content" => Slot::Content,
            b"set" => Slot::Set,
            b"octets" => Slot::Octets,
            b"hexadecimal" => Slot::Hexadecimal,
            b"summary" => Slot::Summary,
            b"line" => Slot::Line,
            _ => Slot::range(name),
        }
    }

    /// The slot of a range, `low..high`.
    fn range(text: &'a [u8]) -> Slot<'a> {
        match memchr(b'.', text) {
            Some(at) => Slot::Range {
                low: &text[..at],
                high: &text[text.len().min(at + 2)..],
            },
            None => Slot::Choice(text),
        }
    }

    /// Whether a word may stand there.
    pub(crate) fn takes(self, word: &[u8]) -> bool {
        match self {
            Slot::Choice(words) => is_among(words, word),
            Slot::Range { low, high } => is_within(low, high, word),
            Slot::Vin => word.len() == IN_VIN && word.iter().all(|byte| is_of_vin(*byte)),
            Slot::Fuel => word.len() == IN_FUEL && word.iter().all(|byte| is_mark(*byte)),
            Slot::Identifier => are_octets(word, MOST_TOGETHER) && is_identifier(word),
            Slot::Content => is_word(word, "-") || are_octets(word, MOST_TOGETHER),
            Slot::Set => are_octets(word, MOST_IN_SET),
            Slot::Octets => {
                word.len() == 2 * MOST_IN_SET && are_octets(word, MOST_IN_SET) && is_lower(word)
            }
            Slot::Hexadecimal => are_octets(word, usize::MAX),
            Slot::Summary | Slot::Line => true,
        }
    }

    /// How many alternatives a sentence has for it.
    pub(crate) fn alternatives(self) -> usize {
        match self {
            Slot::Choice(words) => part_count(b'|', words),
            _ => 1,
        }
    }
}

/// Whether a word is among those that `|` separates.
fn is_among(words: &[u8], word: &[u8]) -> bool {
    for place in 0..part_count(b'|', words) {
        if part_at(b'|', words, place) == Some(word) {
            return true;
        }
    }
    false
}

/// Whether a word is a number of a range. Below zero, a range begins one further from zero than it ends.
fn is_within(low: &[u8], high: &[u8], word: &[u8]) -> bool {
    match low {
        [b'-', limit @ ..] => match read_u32(limit) {
            Some(limit) if limit > 0 && limit <= 2147483648 => read_signed(word, limit).is_some(),
            _ => false,
        },
        _ => match (read_u64(low), read_u64(high), read_u64(word)) {
            (Some(low), Some(high), Some(number)) => low <= number && number <= high,
            _ => false,
        },
    }
}

/// Whether a word is hexadecimal digits of some octets, of at most so many.
fn are_octets(word: &[u8], most: usize) -> bool {
    !word.is_empty()
        && word.len() % 2 == 0
        && word.len() / 2 <= most
        && word.iter().all(|byte| is_digit(*byte))
}

/// Whether a byte may stand in an identification number.
pub(crate) fn is_of_vin(byte: u8) -> bool {
    matches!(byte, b'0'..=b'9' | b'A'..=b'H' | b'J'..=b'N' | b'P' | b'R'..=b'Z')
}

/// Whether a byte is the digit 0 or 1.
pub(crate) fn is_mark(byte: u8) -> bool {
    byte == b'0' || byte == b'1'
}

/// Whether a byte is a hexadecimal digit in upper case.
pub(crate) fn is_upper(byte: u8) -> bool {
    matches!(byte, b'A'..=b'F')
}

/// Whether a byte is a hexadecimal digit.
pub(crate) fn is_digit(byte: u8) -> bool {
    matches!(byte, b'0'..=b'9' | b'a'..=b'f' | b'A'..=b'F')
}

/// Whether hexadecimal digits are in lower case.
fn is_lower(word: &[u8]) -> bool {
    word.iter().all(|byte| !is_upper(*byte))
}

/// Whether octets in hexadecimal are an object identifier: no number in it begins with the octet 80, and the last ends.
fn is_identifier(word: &[u8]) -> bool {
    let mut begins = true;
    for pair in word.chunks_exact(2) {
        if begins && pair == b"80".as_slice() {
            return false;
        }
        begins = matches!(pair, [b'0'..=b'7', ..]);
    }
    begins
}

impl fmt::Display for Slot<'_> {
    fn fmt<W: fmt::Write>(&self, f: &mut fmt::Formatter<W>) -> fmt::Result {
        match self {
            Slot::Choice(words) => {
                let words = Shown(words);
                write!(f, "{words}")
            }
            Slot::Range { low, high } => write_range(f, low, high),
            Slot::Vin => write!(
                f,
                "an identification number of 17 digits and capital letters but I, O and Q"
            ),
            Slot::Fuel => write!(f, "seven digits 0 or 1"),
            Slot::Identifier => write!(f, "an object identifier in hexadecimal"),
            Slot::Content => write!(f, "up to 110 octets in hexadecimal, or `-` for none,"),
            Slot::Set => write!(f, "1 to 140 octets in hexadecimal"),
            Slot::Octets => write!(f, "140 octets in 280 hexadecimal digits of lower case"),
            Slot::Hexadecimal => write!(f, "octets in hexadecimal"),
            Slot::Summary => write!(f, "the summary of its octets"),
            Slot::Line => write!(f, "a line of that vehicle"),
        }
    }
}

/// Writes what a range has.
fn write_range<W: fmt::Write>(f: &mut fmt::Formatter<W>, low: &[u8], high: &[u8]) -> fmt::Result {
    let low = Plain(low);
    let high = Plain(high);
    write!(f, "a number from {low} to {high}")
}
