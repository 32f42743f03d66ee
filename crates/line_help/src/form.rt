//! How far a line goes along the forms of its input.

use crate::input::Input;
use crate::parts::part_at;
use crate::slot::Slot;
use arrayvec::ArrayVec;

/// More words than any form has.
const MOST_WORDS: usize = 16;

/// More forms than any input has.
pub(crate) const MOST_FORMS: usize = 48;

/// Some forms.
pub(crate) type Forms = ArrayVec<&'static str, MOST_FORMS>;

/// How many words of a line go along a form, from its front on.
pub(crate) fn reach(form: &str, line: &[u8]) -> usize {
    for place in 0..MOST_WORDS {
        if !goes_on(form, line, place) {
            return place;
        }
    }
    MOST_WORDS
}

/// Whether the word at a place may stand there in a form.
fn goes_on(form: &str, line: &[u8], place: usize) -> bool {
    match (slot_at(form, place), part_at(b' ', line, place)) {
        (Some(slot), Some(word)) => slot.takes(word),
        _ => false,
    }
}

/// What may stand at a place of a form.
pub(crate) fn slot_at(form: &str, place: usize) -> Option<Slot<'_>> {
    Some(Slot::of(part_at(b' ', form.as_bytes(), place)?))
}

/// How many words of a line go along the form with which most do.
pub(crate) fn furthest(input: Input, line: &[u8]) -> usize {
    let mut most = 0;
    for forms in &input.groups() {
        most = most.max(furthest_of(forms, line));
    }
    most
}

/// The same of some forms.
fn furthest_of(forms: &[&str], line: &[u8]) -> usize {
    let mut most = 0;
    for form in forms {
        most = most.max(reach(form, line));
    }
    most
}

/// The forms along which as many words of a line go.
pub(crate) fn candidates(input: Input, line: &[u8], words: usize) -> Forms {
    let mut found = Forms::new();
    for forms in &input.groups() {
        add_candidates(&mut found, forms, line, words);
    }
    found
}

/// Adds those of some forms.
fn add_candidates(found: &mut Forms, forms: &[&'static str], line: &[u8], words: usize) {
    for form in forms {
        if reach(form, line) == words {
            let _ = found.try_push(*form);
        }
    }
}
