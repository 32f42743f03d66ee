//! The first word of a line with which no form goes on.

ghost use Rattle.std.specs.Prelude.{◌≡◌, Some, slice_get, IfSome};
ghost use Rattle.line_input.specs.Characters.{space};
ghost use Rattle.line_help.specs.Parts.{parts};

use crate::choices::Choices;
use crate::input::Input;
use crate::look::Look;
use crate::parts::part_at;
use crate::shown::Shown;
use crate::slot_fault::SlotFault;
use std::fmt;

/// The first word of a line with which no form goes on, and what may stand there.
#[derive(Drop)]
pub struct Misfit<'a> {
    /// Its place in the line, from 0.
    pub place: usize,
    pub word: &'a [u8],
    choices: Choices,
}

/// The first word of a line with which no form of its input goes on.
pub fn first_misfit(input: Input, line: &[u8]) -> Option<Misfit<'_>>
    ensures { IfSome result (λ found. slice_get (parts space line.now) found.place ≡ Some found.word.now) }
{
    let look = Look::at(input, line);
    let furthest = look.furthest();
    let choices = look.choices(furthest);
    let place = furthest.saturating_add(look.skipped);
    let word = part_at(b' ', line, place)?;
    if choices.is_empty() {
        return None;
    }
    Some(Misfit {
        place,
        word,
        choices,
    })
}

impl fmt::Display for Misfit<'_> {
    fn fmt<W: fmt::Write>(&self, f: &mut fmt::Formatter<W>) -> fmt::Result {
        let place = self.place.saturating_add(1);
        let choices = &self.choices;
        if self.word.is_empty() {
            return write!(f, "word {place} is empty, where {choices} may stand");
        }
        let word = Shown(self.word);
        write!(f, "word {place} is {word}, where {choices} may stand")?;
        match self.choices.only() {
            Some(slot) => {
                let fault = SlotFault {
                    slot,
                    word: self.word,
                };
                write!(f, "{fault}")
            }
            None => Ok(()),
        }
    }
}
