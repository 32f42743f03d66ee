//! The words of a line that are one of a few.

ghost use Rattle.std.specs.Prelude.{◌≡◌};
ghost use Rattle.trace_text.specs.Choices.{cause_of, direction, end_of, format_choice, yes_or_no};

use line_input::is_word;
use link_frames::End;
use msd_fit::Cause;
use msd_values::Format;

/// True for `up`, false for `down`.
pub fn read_direction(text: &[u8]) -> Option<bool>
    ensures { result ≡ direction text.now }
{
    if is_word(text, "up") {
        Some(true)
    } else if is_word(text, "down") {
        Some(false)
    } else {
        None
    }
}

/// `vehicle` or `point`.
#[inline]
pub fn read_end(text: &[u8]) -> Option<End>
    ensures { result ≡ end_of text.now }
{
    if is_word(text, "vehicle") {
        Some(End::Vehicle)
    } else if is_word(text, "point") {
        Some(End::Point)
    } else {
        None
    }
}

/// True for `yes`, false for `no`.
pub fn read_yes_or_no(text: &[u8]) -> Option<bool>
    ensures { result ≡ yes_or_no text.now }
{
    if is_word(text, "yes") {
        Some(true)
    } else if is_word(text, "no") {
        Some(false)
    } else {
        None
    }
}

/// `1` or `2`.
pub fn read_format_number(text: &[u8]) -> Option<Format>
    ensures { result ≡ format_choice text.now }
{
    if is_word(text, "1") {
        Some(Format::One)
    } else if is_word(text, "2") {
        Some(Format::Two)
    } else {
        None
    }
}

/// `auto`, `manual` or `test`.
pub fn read_cause(text: &[u8]) -> Option<Cause>
    ensures { result ≡ cause_of text.now }
{
    if is_word(text, "auto") {
        Some(Cause::Auto)
    } else if is_word(text, "manual") {
        Some(Cause::Manual)
    } else if is_word(text, "test") {
        Some(Cause::Test)
    } else {
        None
    }
}
