//! Which lines a script of an end may have.

ghost use Rattle.std.specs.Prelude.{◌≡◌};
ghost use Rattle.std.specs.Option.{option_copied};
ghost use Rattle.line_input.specs.Arguments.{words_behind};
ghost use Rattle.line_input.specs.Words.{words};
ghost use Rattle.std.specs.Prelude.{◌||◌};
ghost use Rattle.std.specs.Str.{bytes_eq};
ghost use Rattle.trace_text.specs.EntryLine.{end_word};
ghost use Rattle.live_link.specs.Scripts.{is_fact_of, is_fact, is_one_of, is_own_line, line_by_words, names_end, own_words, resets_end, vehicle_fact_words, way_fact_words};
ghost use Rattle.link_frames.specs.declared.frame.End.TheVariants as «end»;

use line_input::{Reason, is_word, only_argument, split_word};
use link_frames::End;
use trace_text::{ScriptLine, read_text};

/// What the text of a line says by itself, in the script of this end, or why it is refused.
pub(crate) fn read_own(end: End, text: &[u8]) -> Result<ScriptLine, Reason>
    ensures { result ≡ line_by_words end (words text.now) }
{
    if is_own_text(end, text) {
        read_text(text)
    } else {
        Err(Reason::Word)
    }
}

/// Whether the first words of a line are those of one of the end's own.
fn is_own_text(end: End, text: &[u8]) -> bool
    ensures { result ≡ is_own_line end (words text.now) }
{
    let (first, rest) = split_word(text);
    if is_word(first, "fault") || is_word(first, "drop") {
        names(end, rest)
    } else if is_word(first, "reset") {
        resets(end, rest)
    } else {
        begins_own(end, first)
    }
}

/// Whether the second word names the end; where there is none, how many there are is wrong.
fn names(end: End, rest: Option<&[u8]>) -> bool
    ensures { result ≡ names_end end (words_behind (option_copied rest.entry)) }
{
    match rest {
        None => true,
        Some(text) => {
            let (second, _) = split_word(text);
            is_end(end, second)
        }
    }
}

/// Whether the only word behind the first names the end; where it isn't the only one, how many there are is wrong.
fn resets(end: End, rest: Option<&[u8]>) -> bool
    ensures { result ≡ resets_end end (words_behind (option_copied rest.entry)) }
{
    match only_argument(rest) {
        None => true,
        Some(second) => is_end(end, second),
    }
}

/// Whether a word names this end.
fn is_end(end: End, word: &[u8]) -> bool
    ensures { result ≡ bytes_eq word.now (end_word end) }
{
    match end {
        End::Vehicle => is_word(word, "vehicle"),
        End::Point => is_word(word, "point"),
    }
}

/// Whether each line that begins with this word is one of the end's own.
fn begins_own(end: End, first: &[u8]) -> bool
    ensures { result ≡ (is_one_of (own_words end) first.now || is_fact_of end first.now) }
{
    match end {
        End::Vehicle => begins_vehicle(first) || begins_fact(first),
        End::Point => begins_point(first),
    }
}

fn begins_vehicle(first: &[u8]) -> bool
    ensures { result ≡ is_one_of (own_words «end».Vehicle) first.now }
{
    is_word(first, "trigger")
        || is_word(first, "cancel")
        || is_word(first, "net")
        || is_word(first, "sleep")
        || is_word(first, "fail")
        || is_word(first, "tick")
}

fn begins_point(first: &[u8]) -> bool
    ensures { result ≡ is_one_of (own_words «end».Point) first.now }
{
    is_word(first, "callback")
        || is_word(first, "request")
        || is_word(first, "clear")
        || is_word(first, "hangup")
        || is_word(first, "damaged")
        || is_word(first, "tick")
}

fn begins_fact(first: &[u8]) -> bool
    ensures { result ≡ is_fact first.now }
{
    begins_vehicle_fact(first) || begins_way_fact(first) || is_word(first, "set")
}

fn begins_vehicle_fact(first: &[u8]) -> bool
    ensures { result ≡ is_one_of vehicle_fact_words first.now }
{
    is_word(first, "format")
        || is_word(first, "vin")
        || is_word(first, "kind")
        || is_word(first, "fuel")
        || is_word(first, "passengers")
        || is_word(first, "extra")
}

fn begins_way_fact(first: &[u8]) -> bool
    ensures { result ≡ is_one_of way_fact_words first.now }
{
    is_word(first, "time")
        || is_word(first, "place")
        || is_word(first, "heading")
        || is_word(first, "trusted")
        || is_word(first, "before1")
        || is_word(first, "before2")
}
