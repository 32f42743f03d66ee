//! What keeps a word from a place of a form, where that isn't plain from what may stand there.

use crate::shown::Shown;
use crate::slot::{IN_FUEL, IN_VIN, MOST_IN_SET, Slot, is_digit, is_mark, is_of_vin, is_upper};
use std::fmt;

/// What keeps a word from a place of a form. Where there is nothing to say, nothing is written.
#[derive(Clone, Copy)]
pub(crate) struct SlotFault<'a> {
    pub slot: Slot<'a>,
    pub word: &'a [u8],
}

impl fmt::Display for SlotFault<'_> {
    fn fmt<W: fmt::Write>(&self, f: &mut fmt::Formatter<W>) -> fmt::Result {
        let word = self.word;
        match self.slot {
            Slot::Range { .. } => write_number_fault(f, word),
            Slot::Vin => {
                write_place(f, word, word.iter().position(|byte| !is_of_vin(*byte)))?;
                write_wrong_length(f, word, IN_VIN)
            }
            Slot::Fuel => {
                write_place(f, word, word.iter().position(|byte| !is_mark(*byte)))?;
                write_wrong_length(f, word, IN_FUEL)
            }
            Slot::Octets => write_octets_fault(f, word),
            Slot::Identifier | Slot::Content | Slot::Set | Slot::Hexadecimal => write_digits_fault(
                f, word,
            ),
            Slot::Choice(_) | Slot::Summary | Slot::Line => Ok(()),
        }
    }
}

/// What is wrong with digits, if they are digits.
fn write_number_fault<W: fmt::Write>(f: &mut fmt::Formatter<W>, word: &[u8]) -> fmt::Result {
    let digits = match word {
        [b'-', digits @ ..] => digits,
        _ => word,
    };
    if digits.is_empty() || !digits.iter().all(|byte| matches!(*byte, b'0'..=b'9')) {
        write!(f, ", in decimal digits")
    } else if matches!(digits, [b'0', ..]) && word.len() > 1 {
        write!(f, ", without a zero in front")
    } else {
        Ok(())
    }
}

/// What is wrong with octets that stand in hexadecimal, as far as their digits show it.
fn write_digits_fault<W: fmt::Write>(f: &mut fmt::Formatter<W>, word: &[u8]) -> fmt::Result {
    write_place(f, word, word.iter().position(|byte| !is_digit(*byte)))?;
    write_count(f, word)
}

/// The same of the octets of a set in a trace.
fn write_octets_fault<W: fmt::Write>(f: &mut fmt::Formatter<W>, word: &[u8]) -> fmt::Result {
    let is_wrong = |byte: &u8| !is_digit(*byte) || is_upper(*byte);
    write_place(f, word, word.iter().position(is_wrong))?;
    write_wrong_length(f, word, 2 * MOST_IN_SET)
}

/// Tells how many digits there are, where they are an odd number, or more than a set has.
fn write_count<W: fmt::Write>(f: &mut fmt::Formatter<W>, word: &[u8]) -> fmt::Result {
    let count = word.len();
    if count % 2 == 1 {
        write_characters(f, count)?;
        write!(f, ", an odd number")
    } else if count > 2 * MOST_IN_SET {
        write_characters(f, count)
    } else {
        Ok(())
    }
}

/// Tells how many characters a word has, where it wants another number of them.
fn write_wrong_length<W: fmt::Write>(
    f: &mut fmt::Formatter<W>,
    word: &[u8],
    wanted: usize,
) -> fmt::Result {
    let count = word.len();
    if count == wanted {
        Ok(())
    } else {
        write_characters(f, count)
    }
}

/// Tells how many characters there are.
fn write_characters<W: fmt::Write>(f: &mut fmt::Formatter<W>, count: usize) -> fmt::Result {
    match count {
        1 => write!(f, "; it has 1 character"),
        _ => write!(f, "; it has {count} characters"),
    }
}

/// Tells the character of this place, from 0, of a word.
fn write_place<W: fmt::Write>(
    f: &mut fmt::Formatter<W>,
    word: &[u8],
    place: Option<usize>,
) -> fmt::Result {
    let Some(at) = place else {
        return Ok(());
    };
    match word.get(at) {
        Some(byte) => {
            let number = at.saturating_add(1);
            let characters = [*byte];
            let character = Shown(&characters);
            write!(f, "; its character {number} is {character}")
        }
        None => Ok(()),
    }
}
