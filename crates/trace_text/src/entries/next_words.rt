//! The words of a line of a trace, taken one after another.

ghost use Rattle.std.specs.Prelude.{◌≡◌, ◌∷◌};
ghost use Rattle.std.specs.Str.{bytes_eq};
ghost use Rattle.line_input.specs.Characters.{space};

use super::choices::{read_answer, read_timer, read_voice, read_why};
use super::kinds::{FrameKind, Item, read_item, read_kind};
use crate::choices::{read_direction, read_end};
use crate::hexadecimal::read_full_set;
use crate::numbers::{read_dial_attempt, read_request};
use crate::summary::{LONGEST_SUMMARY, push_summary};
use arrayvec::ArrayVec;
use line_input::{Reason, read_u8, read_u32, read_u64, split_word};
use link_frames::{Answer, DialAttempt, End, OCTETS, Request, Timer, Why};
use std::marker::Model;

/// Room for a summary, one octet more than it may need.
const SUMMARY_ROOM: usize = LONGEST_SUMMARY + 1;

/// A summary, each word behind a space.
type SummaryText = ArrayVec<u8, SUMMARY_ROOM>;

/// The words of a line that are still to be judged. They are taken from left to right, each with what it says: a word
/// that is missing is a wrong count.
#[derive(Drop)]
pub struct NextWords<'a> {
    /// What is left of the line, behind a space; none where it is at its end.
    text: Option<&'a [u8]>,
}

impl<'a> Model for NextWords<'a> {
    ghost use Rattle.std.specs.Prelude.{List, ℕ};
    ghost use Rattle.std.specs.Option.{option_copied};
    ghost use Rattle.line_input.specs.Arguments.{words_behind};

    ghost Value = { List (List ℕ) };

    ghost view = { λ s. words_behind (option_copied s.text) };
}

impl<'a> NextWords<'a> {
    ghost use Rattle.std.specs.Prelude.{◌≡◌};
    ghost use Rattle.std.specs.Str.{bytes_eq};
    ghost use Rattle.trace_text.specs.EntryLine.{spaced};
    ghost use Rattle.trace_text.specs.EntryLines.{next_answer, next_attempt, next_call, next_dial, next_end, next_item, next_kind, next_leg, next_net, next_octets, next_request, next_tick, next_timer, next_voice, next_why, no_more};
    ghost use Rattle.trace_text.specs.Summary.{summary_words};
    ghost use Rattle.line_input.specs.Words.{words};
    ghost use Rattle.trace_text.specs.inner.NextWords.{next_word, told, word_told};
    ghost use Rattle.trace_text.specs.inner.Placing.{placed};

    /// All words of a line.
    pub fn of(text: &'a [u8]) -> NextWords<'a>
        ensures { result ≡ words text.now }
    {
        NextWords { text: Some(text) }
    }

    /// The next word.
    #[inline]
    fn word(&mut self) -> Result<&'a [u8], Reason>
        ensures { word_told result self.new ≡ next_word self.old }
    {
        match self.text {
            Some(text) => {
                let (word, rest) = split_word(text);
                self.text = rest;
                Ok(word)
            }
            None => Err(Reason::Count),
        }
    }

    /// A tick, 0 to 18446744073709551615.
    #[inline]
    pub fn tick(&mut self) -> Result<u64, Reason>
        ensures { told result self.new ≡ next_tick self.old }
    {
        read_u64(self.word()?).ok_or(Reason::Number)
    }

    /// A call, 0 to 4294967295; it is 0 outside a call.
    #[inline]
    pub fn call(&mut self) -> Result<u32, Reason>
        ensures { told result self.new ≡ next_call self.old }
    {
        read_u32(self.word()?).ok_or(Reason::Number)
    }

    /// A request, 1 to 255.
    #[inline]
    pub fn request(&mut self) -> Result<Request, Reason>
        ensures { told result self.new ≡ next_request self.old }
    {
        read_request(self.word()?).ok_or(Reason::Number)
    }

    /// The attempt of a frame that carries a set, 0 to 255.
    #[inline]
    pub fn attempt(&mut self) -> Result<u8, Reason>
        ensures { told result self.new ≡ next_attempt self.old }
    {
        read_u8(self.word()?).ok_or(Reason::Number)
    }

    /// An attempt to dial, 1 to 10.
    pub fn dial(&mut self) -> Result<DialAttempt, Reason>
        ensures { told result self.new ≡ next_dial self.old }
    {
        read_dial_attempt(self.word()?).ok_or(Reason::Number)
    }

    /// `vehicle` or `point`.
    #[inline]
    pub fn end(&mut self) -> Result<End, Reason>
        ensures { told result self.new ≡ next_end self.old }
    {
        read_end(self.word()?).ok_or(Reason::Word)
    }

    /// Why a leg went down.
    pub fn why(&mut self) -> Result<Why, Reason>
        ensures { told result self.new ≡ next_why self.old }
    {
        read_why(self.word()?).ok_or(Reason::Word)
    }

    /// One direction of the voice, true for `open`.
    #[inline]
    pub fn voice(&mut self) -> Result<bool, Reason>
        ensures { told result self.new ≡ next_voice self.old }
    {
        read_voice(self.word()?).ok_or(Reason::Word)
    }

    /// The network, true for `up`.
    pub fn net(&mut self) -> Result<bool, Reason>
        ensures { told result self.new ≡ next_net self.old }
    {
        read_direction(self.word()?).ok_or(Reason::Word)
    }

    /// What the point says of a set.
    pub fn answer(&mut self) -> Result<Answer, Reason>
        ensures { told result self.new ≡ next_answer self.old }
    {
        read_answer(self.word()?).ok_or(Reason::Word)
    }

    /// A timer.
    pub fn timer(&mut self) -> Result<Timer, Reason>
        ensures { told result self.new ≡ next_timer self.old }
    {
        read_timer(self.word()?).ok_or(Reason::Word)
    }

    /// The first word of a frame.
    #[inline]
    pub fn kind(&mut self) -> Result<FrameKind, Reason>
        ensures { told result self.new ≡ next_kind self.old }
    {
        read_kind(self.word()?).ok_or(Reason::Word)
    }

    /// The first word of an item.
    pub fn item(&mut self) -> Result<Item, Reason>
        ensures { told result self.new ≡ next_item self.old }
    {
        read_item(self.word()?).ok_or(Reason::Word)
    }

    /// The octets of a set, put in place.
    pub fn octets(&mut self, into: &mut [u8; OCTETS]) -> Result<(), Reason>
        ensures { told (placed result into.new) self.new ≡ next_octets self.old }
    {
        if read_full_set(self.word()?, into) {
            Ok(())
        } else {
            Err(Reason::Hex)
        }
    }

    /// An end and a call.
    #[inline]
    pub fn leg(&mut self) -> Result<(End, u32), Reason>
        ensures { told result self.new ≡ next_leg self.old }
    {
        let end = self.end()?;
        let call = self.call()?;
        Ok((end, call))
    }

    /// No further word may follow.
    #[inline]
    pub fn no_more(&self) -> Result<(), Reason>
        ensures { result ≡ no_more self.now }
    {
        match self.text {
            Some(_) => Err(Reason::Count),
            None => Ok(()),
        }
    }

    /// Whether the words that are left are the summary of a set.
    pub fn are_summary(&self, octets: &[u8; OCTETS]) -> bool
        ensures { result ≡ bytes_eq (spaced (summary_words octets.now)) (spaced self.now) }
    {
        let mut summary = SummaryText::new();
        push_summary(&mut summary, octets);
        match self.text {
            Some(text) => is_behind_space(&summary, text),
            None => summary.is_empty(),
        }
    }
}

/// Whether bytes are a space and then this text.
fn is_behind_space(bytes: &[u8], text: &[u8]) -> bool
    ensures { result ≡ bytes_eq bytes.now (space ∷ text.now) }
{
    match bytes {
        [b' ', rest @ ..] => rest == text,
        _ => false,
    }
}
