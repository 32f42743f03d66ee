//! What a line's number of words has against it.

use crate::input::Input;
use crate::look::Look;
use crate::parts::part_count;
use std::fmt;

/// How many words a line has, and how many its form.
#[derive(Clone, Copy)]
pub(crate) struct Miscount<'a> {
    pub input: Input,
    pub line: &'a [u8],
}

impl fmt::Display for Miscount<'_> {
    fn fmt<W: fmt::Write>(&self, f: &mut fmt::Formatter<W>) -> fmt::Result {
        let look = Look::at(self.input, self.line);
        let furthest = look.furthest();
        if furthest == look.count() {
            write_end(f, &look, furthest)?;
        } else {
            write_counts(f, &look, furthest)?;
        }
        write_empty(f, &look)
    }
}

/// Tells behind which word the line ends, and what would follow.
fn write_end<W: fmt::Write>(
    f: &mut fmt::Formatter<W>,
    look: &Look<'_>,
    furthest: usize,
) -> fmt::Result {
    let choices = look.choices(furthest);
    let last = furthest.saturating_add(look.skipped);
    write!(f, "the line ends behind word {last}")?;
    if choices.is_empty() {
        Ok(())
    } else {
        write!(f, ", where {choices} would follow")
    }
}

/// Tells how many words there are, and of what form there should be how many.
fn write_counts<W: fmt::Write>(
    f: &mut fmt::Formatter<W>,
    look: &Look<'_>,
    furthest: usize,
) -> fmt::Result {
    let count = look.count();
    write_words(f, count)?;
    match look.form(furthest) {
        Some(form) => {
            let wanted = part_count(b' ', form.as_bytes());
            write!(f, ", where `{form}` has {wanted}")
        }
        None => Ok(()),
    }
}

/// Tells a number of words.
fn write_words<W: fmt::Write>(f: &mut fmt::Formatter<W>, count: usize) -> fmt::Result {
    if count == 1 {
        write!(f, "1 word")
    } else {
        write!(f, "{count} words")
    }
}

/// Tells which word is empty, if one is.
fn write_empty<W: fmt::Write>(f: &mut fmt::Formatter<W>, look: &Look<'_>) -> fmt::Result {
    match look.empty_word() {
        Some(place) => write!(f, "; word {place} is empty"),
        None => Ok(()),
    }
}
