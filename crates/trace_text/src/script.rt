//! The lines of a script.

ghost use Rattle.std.specs.Prelude.{◌≡◌, IfSome};
ghost use Rattle.std.specs.Option.{option_copied, option_map};
ghost use Rattle.line_input.specs.Lines.{line_answer};
ghost use Rattle.line_input.specs.Words.{words};
ghost use Rattle.trace_text.specs.Script.{event_answer, event_by_words, event_says, fact_says, line_by_word, other_by_word, script_line};
ghost use Rattle.line_input.specs.Arguments.{words_behind};

use crate::events::read_event;
use crate::fact_line::FactLine;
use crate::facts::{names_own_fact, read_own_fact, read_set};
use line_input::{BadLine, Line, Reason, is_word, split_word};
use trace_model::Event;

/// What a line of a script says.
#[derive(Clone, Copy, Debug, PartialEq, Eq)]
pub enum ScriptLine {
    /// A fact that the vehicle knows of itself, or a ready set.
    Fact(FactLine),
    /// An event.
    Event(Event),
}

/// What a line of a script says by itself. Whether it may stand where it stands is not judged here.
pub fn read_script(line: &Line<'_>) -> Result<ScriptLine, BadLine>
    ensures { result ≡ line_answer line.now (script_line line.now.text) }
{
    match read_text(line.text()) {
        Ok(says) => Ok(says),
        Err(reason) => Err(refused(line, reason)),
    }
}

/// A line that is refused.
pub(crate) fn refused(line: &Line<'_>, reason: Reason) -> BadLine
    ensures { result ≡ record { line = line.now.number; reason = reason } }
{
    BadLine {
        line: line.number(),
        reason,
    }
}

/// The event that a line of a script tells, or why the line is refused; `None` where its first word is that of a fact,
/// and `read_script` reads it. An event has at most 12 octets, and what a line says by `read_script` has room for a set.
pub fn read_event_line(line: &Line<'_>) -> Option<Result<Event, BadLine>>
    ensures event { result ≡ option_map (line_answer line.now) (event_by_words (words line.now.text)) }
    ensures says { IfSome result (λ read. line_answer line.now (script_line line.now.text) ≡ event_answer read) }
{
    match read_event_text(line.text())? {
        Ok(event) => Some(Ok(event)),
        Err(reason) => Some(Err(refused(line, reason))),
    }
}

/// The event that the text of a script's line tells, or why it is refused; `None` where its first word is that of a
/// fact.
fn read_event_text(text: &[u8]) -> Option<Result<Event, Reason>>
    ensures event { result ≡ event_by_words (words text.now) }
    ensures says { IfSome result (λ read. script_line text.now ≡ event_says read) }
{
    let (first, rest) = split_word(text);
    if names_own_fact(first) || is_word(first, "set") {
        None
    } else {
        Some(read_event(first, rest))
    }
}

/// What the text of a script's line says by itself, or why it is refused.
pub fn read_text(text: &[u8]) -> Result<ScriptLine, Reason>
    ensures { result ≡ script_line text.now }
{
    let (first, rest) = split_word(text);
    if names_own_fact(first) {
        read_fact(first, rest)
    } else {
        read_other(first, rest)
    }
}

// Never inlined: a call has room for every fact, which a line of another kind would pay for, too.
#[inline(never)]
fn read_fact(first: &[u8], rest: Option<&[u8]>) -> Result<ScriptLine, Reason>
    ensures { result ≡ line_by_word first.now (words_behind (option_copied rest.entry)) }
{
    match read_own_fact(first, rest) {
        Some(says) => told(says),
        None => read_other(first, rest),
    }
}

/// A line that tells no fact which the vehicle knows of itself.
fn read_other(first: &[u8], rest: Option<&[u8]>) -> Result<ScriptLine, Reason>
    ensures { result ≡ other_by_word first.now (words_behind (option_copied rest.entry)) }
{
    if is_word(first, "set") {
        return told(read_set(rest));
    }
    let event = read_event(first, rest)?;
    Ok(ScriptLine::Event(event))
}

fn told(says: Result<FactLine, Reason>) -> Result<ScriptLine, Reason>
    ensures { result ≡ fact_says says }
{
    let fact = says?;
    Ok(ScriptLine::Fact(fact))
}
