//! Which facts a line wants that didn't come before it.

use crate::input::Input;
use crate::look::Look;
use crate::parts::part_at;
use crate::reasons::unseen_fault;
use crate::seen::{Numbered, Seen};
use crate::shown::Shown;
use line_input::{Reason, is_word};
use std::fmt;

/// Which of the facts came that each set wants.
#[derive(Clone, Copy, Default)]
struct Came {
    vin: bool,
    kind: bool,
    time: bool,
}

/// Tells which facts didn't come before a line that wants a set of data, as far as that is known.
pub(crate) fn write_missing<W: fmt::Write>(
    f: &mut fmt::Formatter<W>,
    input: Input,
    line: Numbered<'_>,
    seen: Seen<'_>,
) -> fmt::Result {
    let look = Look::at(input, line.text);
    if let Some(word) = look.word(0) {
        let word = Shown(word);
        write!(f, "{word}: ")?;
    }
    if seen.ended > 0 {
        let fault = unseen_fault(Reason::Missing);
        return write!(f, "{fault}");
    }
    let came = came_before(input, line, seen, look.skipped);
    write!(
        f,
        "it wants a set of data, and these facts didn't come before it:"
    )?;
    write_wanting(f, "vin", came.vin)?;
    write_wanting(f, "kind", came.kind)?;
    write_wanting(f, "time", came.time)
}

/// Tells a fact that didn't come.
fn write_wanting<W: fmt::Write>(f: &mut fmt::Formatter<W>, fact: &str, came: bool) -> fmt::Result {
    if came { Ok(()) } else { write!(f, " `{fact}`") }
}

/// Which facts came before a line: of its vehicle, where words stand in front of what it says.
fn came_before(input: Input, line: Numbered<'_>, seen: Seen<'_>, skipped: usize) -> Came {
    let number = part_at(b' ', line.text, 0);
    let mut came = Came::default();
    let mut here = 0u64;
    for text in seen.text.split(|byte| *byte == b'\n') {
        here = here.saturating_add(1);
        if here >= line.number {
            break;
        }
        if skipped == 0 || part_at(b' ', text, 0) == number {
            take_fact(&mut came, Look::at(input, text).word(0));
        }
    }
    came
}

/// Takes the first word of a line that came.
fn take_fact(came: &mut Came, word: Option<&[u8]>) {
    if let Some(word) = word {
        came.vin |= is_word(word, "vin");
        came.kind |= is_word(word, "kind");
        came.time |= is_word(word, "time");
    }
}
