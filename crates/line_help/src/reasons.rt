//! What is told of a line that is refused where no word of it says why.

use crate::input::Input;
use crate::parts::part_at;
use crate::seen::Numbered;
use crate::shown::Shown;
use line_input::Reason;
use std::fmt;

/// What a line has that is refused for this reason, where its words don't say more.
pub(crate) fn unseen_fault(reason: Reason) -> &'static str {
    match reason {
        Reason::Word => "a word that is none of those that may stand there",
        Reason::Number => "a number that isn't decimal, begins with 0, or is out of its range",
        Reason::Count => "too few or too many words",
        Reason::LineLong => "more than 512 bytes",
        Reason::Text => "a byte that is neither a printable character nor a space",
        Reason::Hex => {
            "no even number of hexadecimal digits, too many octets, or no object identifier"
        }
        Reason::Missing => "it wants a set of data, and the facts for one didn't come before it",
        Reason::Late => "a fact, with an event before it",
        Reason::Many => "a fifth candidate of additional data",
    }
}

/// What helps against that, behind the reason's number.
pub(crate) fn help(reason: Reason) -> &'static str {
    match reason {
        Reason::Count => "; one space stands between two words",
        Reason::Missing => "; put `vin`, `kind` and `time`, or in a script a `set` line, in front",
        Reason::Late => "; put it in front of the first event",
        Reason::Text
        | Reason::Word
        | Reason::Number
        | Reason::LineLong
        | Reason::Hex
        | Reason::Many => "",
    }
}

/// What a line has whose words all go along a form, and that is refused all the same for this reason.
pub(crate) fn write_rest<W: fmt::Write>(
    f: &mut fmt::Formatter<W>,
    input: Input,
    reason: Reason,
    line: &[u8],
    before: Option<Numbered<'_>>,
) -> fmt::Result {
    match reason {
        Reason::Word if input == Input::Trace => {
            write!(f, "what stands behind its octets isn't their summary")
        }
        Reason::Number if input == Input::Trace => write_fall(f, line, before),
        Reason::Hex => write!(f, "more than 110 octets, identifier and content together"),
        _ => {
            let fault = unseen_fault(reason);
            write!(f, "{fault}")
        }
    }
}

/// That the tick of a line is below that of the line before.
fn write_fall<W: fmt::Write>(
    f: &mut fmt::Formatter<W>,
    line: &[u8],
    before: Option<Numbered<'_>>,
) -> fmt::Result {
    match (part_at(b' ', line, 0), before) {
        (Some(tick), Some(before)) => {
            let tick = Shown(tick);
            write!(f, "tick {tick} stands behind ")?;
            write_tick(f, before)
        }
        _ => write!(f, "a tick below that of the line before"),
    }
}

/// The tick of a line, and its number.
fn write_tick<W: fmt::Write>(f: &mut fmt::Formatter<W>, before: Numbered<'_>) -> fmt::Result {
    let number = before.number;
    match part_at(b' ', before.text, 0) {
        Some(tick) => {
            let tick = Shown(tick);
            write!(f, "tick {tick} of line {number}")
        }
        None => write!(f, "that of line {number}"),
    }
}

/// Which byte of a line is no printable character, and where it stands.
pub(crate) fn write_byte_fault<W: fmt::Write>(
    f: &mut fmt::Formatter<W>,
    line: &[u8],
) -> fmt::Result {
    match line.iter().position(|byte| !matches!(*byte, b' '..=b'~')) {
        Some(at) if at < line.len() => {
            let byte = line[at];
            let place = at + 1;
            let name = byte_name(byte, place);
            write!(f, "byte {byte} in place {place}, {name}")
        }
        _ => {
            let fault = unseen_fault(Reason::Text);
            write!(f, "{fault}")
        }
    }
}

/// What such a byte is, and what helps against it.
fn byte_name(byte: u8, place: usize) -> &'static str {
    match byte {
        9 => "a tab, where one space may stand",
        13 => "a carriage return; `tr -d '\\r'` takes those out",
        239 if place == 1 => "of a byte order mark; `tail -c +4` leaves it out",
        128.. => "of a character beyond ASCII",
        _ => "no printable character",
    }
}
