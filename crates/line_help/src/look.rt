//! A line, as far as it is looked at by forms.

use crate::choices::Choices;
use crate::form::{candidates, furthest};
use crate::input::Input;
use crate::parts::{part_at, part_count};
use crate::slot::Slot;
use crate::tables::VEHICLE_NUMBER;
use memchr::memchr;

/// What is looked at of a line: all of it, or what stands behind a vehicle's number.
#[derive(Clone, Copy)]
pub(crate) struct Look<'a> {
    pub input: Input,
    pub text: &'a [u8],
    /// How many words stand in front of it.
    pub skipped: usize,
}

impl<'a> Look<'a> {
    /// A look at a line of an input.
    pub(crate) fn at(input: Input, text: &'a [u8]) -> Look<'a> {
        match input {
            Input::Floor => look_at_floor(text),
            _ => Look {
                input,
                text,
                skipped: 0,
            },
        }
    }

    /// How many words go along a form.
    pub(crate) fn furthest(&self) -> usize {
        furthest(self.input, self.text)
    }

    /// How many words there are.
    pub(crate) fn count(&self) -> usize {
        part_count(b' ', self.text)
    }

    /// What may stand behind the words that go along a form.
    pub(crate) fn choices(&self, furthest: usize) -> Choices {
        Choices::at(&candidates(self.input, self.text, furthest), furthest)
    }

    /// The word of this place, from 0.
    pub(crate) fn word(&self, place: usize) -> Option<&'a [u8]> {
        part_at(b' ', self.text, place)
    }

    /// The place of the first empty word, from 1 and in the whole line.
    pub(crate) fn empty_word(&self) -> Option<usize> {
        let at = self
            .text
            .split(|byte| *byte == b' ')
            .position(|word| word.is_empty())?;
        Some(at.saturating_add(self.skipped).saturating_add(1))
    }

    /// The first form along which so many words go.
    pub(crate) fn form(&self, furthest: usize) -> Option<&'static str> {
        candidates(self.input, self.text, furthest).first().copied()
    }
}

/// A look at a line of a floor's script: at what stands behind a vehicle's number, where it begins with one.
fn look_at_floor(text: &[u8]) -> Look<'_> {
    if let Some(at) = memchr(b' ', text) {
        if Slot::of(VEHICLE_NUMBER.as_bytes()).takes(&text[..at]) {
            return Look {
                input: Input::FloorVehicle,
                text: &text[at + 1..],
                skipped: 1,
            };
        }
    }
    Look {
        input: Input::Floor,
        text,
        skipped: 0,
    }
}
