//! The sentence on a line that is refused.

use crate::count::Miscount;
use crate::input::Input;
use crate::misfit::first_misfit;
use crate::parts::part_at;
use crate::reasons::{help, unseen_fault, write_byte_fault, write_rest};
use crate::seen::{Numbered, Seen};
use crate::shown::Shown;
use crate::wanting::write_missing;
use line_input::{BadLine, Reason};
use std::fmt;

/// What a person is told of a line that is refused: which word it is and what may stand there, as far as the line was
/// kept.
#[derive(Clone, Copy, Debug)]
pub struct LineSentence<'a> {
    pub bad: BadLine,
    /// What the input has on its lines.
    pub input: Option<Input>,
    /// The end of what was read of it.
    pub seen: Seen<'a>,
}

impl<'a> LineSentence<'a> {
    /// The line, and what the input has on its lines, where both are known.
    fn line(&self) -> Option<(Input, Numbered<'a>)> {
        let input = self.input?;
        let number = u64::from(self.bad.line);
        let text = self.seen.line(number)?;
        Some((input, Numbered { number, text }))
    }
}

impl fmt::Display for LineSentence<'_> {
    fn fmt<W: fmt::Write>(&self, f: &mut fmt::Formatter<W>) -> fmt::Result {
        let number = self.bad.line;
        let reason = self.bad.reason;
        let code = reason.code();
        let help = help(reason);
        write!(f, "line {number}: ")?;
        match self.line() {
            Some((input, line)) => write_seen(f, input, reason, line, self.seen)?,
            None => {
                let fault = unseen_fault(reason);
                write!(f, "{fault}")?;
            }
        }
        write!(f, " (reason {code}){help}")
    }
}

/// What is seen of a line.
fn write_seen<W: fmt::Write>(
    f: &mut fmt::Formatter<W>,
    input: Input,
    reason: Reason,
    line: Numbered<'_>,
    seen: Seen<'_>,
) -> fmt::Result {
    match reason {
        Reason::Word | Reason::Number | Reason::Hex => match first_misfit(input, line.text) {
            Some(found) => write!(f, "{found}"),
            None => write_rest(f, input, reason, line.text, seen.before(line.number)),
        },
        Reason::Count => {
            let found = Miscount {
                input,
                line: line.text,
            };
            write!(f, "{found}")
        }
        Reason::Text => write_byte_fault(f, line.text),
        Reason::Missing => write_missing(f, input, line, seen),
        Reason::Late => write_late(f, input, line.text),
        Reason::Many | Reason::LineLong => {
            let fault = unseen_fault(reason);
            write!(f, "{fault}")
        }
    }
}

/// Which fact comes behind an event.
fn write_late<W: fmt::Write>(f: &mut fmt::Formatter<W>, input: Input, line: &[u8]) -> fmt::Result {
    let place = if input == Input::Floor { 1 } else { 0 };
    match part_at(b' ', line, place) {
        Some(word) => {
            let word = Shown(word);
            write!(f, "{word} is a fact, with an event before it")
        }
        None => write!(f, "a fact, with an event before it"),
    }
}
