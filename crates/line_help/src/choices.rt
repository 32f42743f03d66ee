//! What may stand in one place of a line.

use crate::form::{Forms, MOST_FORMS};
use crate::parts::part_at;
use crate::shown::{Plain, Shown};
use crate::slot::Slot;
use arrayvec::ArrayVec;
use std::fmt;

/// How many alternatives a sentence tells apart at most; more are a list.
const MOST_APART: usize = 12;

/// What may stand in one place of a line, as the words of forms, each once.
#[derive(Drop)]
pub(crate) struct Choices {
    slots: ArrayVec<&'static [u8], MOST_FORMS>,
}

impl Choices {
    /// What these forms have in that place.
    pub(crate) fn at(forms: &Forms, place: usize) -> Choices {
        let mut slots = ArrayVec::new();
        for form in forms.as_slice() {
            add_slot(&mut slots, form, place);
        }
        Choices { slots }
    }

    /// Whether there is none.
    pub(crate) fn is_empty(&self) -> bool {
        self.slots.is_empty()
    }

    /// The only one of them, unless there are more, or none.
    pub(crate) fn only(&self) -> Option<Slot<'static>> {
        match self.slots.as_slice() {
            [slot] => Some(Slot::of(slot)),
            _ => None,
        }
    }

    /// How many alternatives a sentence has for them.
    fn count(&self) -> usize {
        let mut count = 0usize;
        for slot in self.slots.as_slice() {
            count = count.saturating_add(Slot::of(slot).alternatives());
        }
        count
    }
}

/// Adds what a form has in a place, unless it is there already.
fn add_slot(slots: &mut ArrayVec<&'static [u8], MOST_FORMS>, form: &'static str, place: usize) {
    if let Some(slot) = part_at(b' ', form.as_bytes(), place) {
        if !slots.iter().any(|other| *other == slot) {
            let _ = slots.try_push(slot);
        }
    }
}

impl fmt::Display for Choices {
    fn fmt<W: fmt::Write>(&self, f: &mut fmt::Formatter<W>) -> fmt::Result {
        let count = self.count();
        if count > MOST_APART {
            return write_list(f, self.slots.as_slice());
        }
        let mut left = count;
        for slot in self.slots.as_slice() {
            left = write_slot(f, Slot::of(slot), left)?;
        }
        Ok(())
    }
}

/// Writes many alternatives, each behind a space.
fn write_list<W: fmt::Write>(f: &mut fmt::Formatter<W>, slots: &[&[u8]]) -> fmt::Result {
    write!(f, "one of")?;
    for slot in slots {
        write_listed(f, slot)?;
    }
    Ok(())
}

/// Writes the words of a choice, each behind a space.
fn write_listed<W: fmt::Write>(f: &mut fmt::Formatter<W>, words: &[u8]) -> fmt::Result {
    for word in words.split(|byte| *byte == b'|') {
        let word = Plain(word);
        write!(f, " {word}")?;
    }
    Ok(())
}

/// Writes the alternatives of a slot, where so many are left, and answers how many are left behind it.
fn write_slot<W: fmt::Write>(
    f: &mut fmt::Formatter<W>,
    slot: Slot<'_>,
    left: usize,
) -> Result<usize, fmt::Error> {
    match slot {
        Slot::Choice(words) => write_words(f, words, left),
        _ => {
            write!(f, "{slot}")?;
            write_between(f, left)?;
            Ok(left.saturating_sub(1))
        }
    }
}

/// Writes the words of a choice.
fn write_words<W: fmt::Write>(
    f: &mut fmt::Formatter<W>,
    words: &[u8],
    left: usize,
) -> Result<usize, fmt::Error> {
    let mut left = left;
    for word in words.split(|byte| *byte == b'|') {
        let word = Shown(word);
        write!(f, "{word}")?;
        write_between(f, left)?;
        left = left.saturating_sub(1);
    }
    Ok(left)
}

/// Writes what stands between an alternative and those behind it.
fn write_between<W: fmt::Write>(f: &mut fmt::Formatter<W>, left: usize) -> fmt::Result {
    match left {
        0 | 1 => Ok(()),
        2 => write!(f, " or "),
        _ => write!(f, ", "),
    }
}
