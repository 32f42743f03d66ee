//! The lines of `encode`.

ghost use Rattle.std.specs.Prelude.{◌≡◌};
ghost use Rattle.std.specs.Option.{option_copied};
ghost use Rattle.trace_text.specs.Encode.{encode_line, fact_says, other_by_word, write_line};
ghost use Rattle.trace_text.specs.inner.ShortFacts.{long_by_word};
ghost use Rattle.line_input.specs.Lines.{line_answer};
ghost use Rattle.line_input.specs.Arguments.{words_behind};

use crate::choices::read_cause;
use crate::fact_line::FactLine;
use crate::facts::{read_extra_fact, read_short_fact};
use crate::script::refused;
use line_input::{BadLine, Line, Reason, is_word, read_u8, split_word, two_arguments};
use msd_fit::Cause;

/// What a line of `encode` says.
#[derive(Clone, Copy, Debug, PartialEq, Eq)]
pub enum EncodeLine {
    /// A fact that the vehicle knows of itself; never a ready set.
    Fact(FactLine),
    /// The set of the facts so far is to be written, with this cause and number.
    Write { cause: Cause, number: u8 },
}

/// What a line of `encode` says by itself. Whether it may stand where it stands is not judged here.
pub fn read_encode(line: &Line<'_>) -> Result<EncodeLine, BadLine>
    ensures { result ≡ line_answer line.now (encode_line line.now.text) }
{
    let (first, rest) = split_word(line.text());
    match read_short_fact(first, rest) {
        Some(Ok(fact)) => Ok(EncodeLine::Fact(fact.whole())),
        Some(Err(reason)) => Err(refused(line, reason)),
        None => read_long(line, first, rest),
    }
}

/// A line that tells no short fact, by its first word.
// Never inlined: additional data have room of their own, which other lines would pay for, too.
#[inline(never)]
fn read_long(line: &Line<'_>, first: &[u8], rest: Option<&[u8]>) -> Result<EncodeLine, BadLine>
    ensures { result ≡ line_answer line.now (long_by_word first.now (words_behind (option_copied rest.entry))) }
{
    match read_long_text(first, rest) {
        Ok(says) => Ok(says),
        Err(reason) => Err(refused(line, reason)),
    }
}

fn read_long_text(first: &[u8], rest: Option<&[u8]>) -> Result<EncodeLine, Reason>
    ensures { result ≡ long_by_word first.now (words_behind (option_copied rest.entry)) }
{
    match read_extra_fact(first, rest) {
        Some(says) => told(says),
        None => read_other(first, rest),
    }
}

fn told(says: Result<FactLine, Reason>) -> Result<EncodeLine, Reason>
    ensures { result ≡ fact_says says }
{
    let fact = says?;
    Ok(EncodeLine::Fact(fact))
}

/// A line that tells no fact which the vehicle knows of itself.
fn read_other(first: &[u8], rest: Option<&[u8]>) -> Result<EncodeLine, Reason>
    ensures { result ≡ other_by_word first.now (words_behind (option_copied rest.entry)) }
{
    if is_word(first, "write") {
        read_write(rest)
    } else {
        Err(Reason::Word)
    }
}

/// `write auto|manual|test <number>`.
fn read_write(rest: Option<&[u8]>) -> Result<EncodeLine, Reason>
    ensures { result ≡ write_line (words_behind (option_copied rest.entry)) }
{
    let (cause, number) = two_arguments(rest).ok_or(Reason::Count)?;
    let cause = read_cause(cause).ok_or(Reason::Word)?;
    let number = read_u8(number).ok_or(Reason::Number)?;
    Ok(EncodeLine::Write { cause, number })
}
