//! The later words of a line of a trace that are one of a few.

ghost use Rattle.std.specs.Prelude.{◌≡◌};
ghost use Rattle.trace_text.specs.EntryChoices.{answer_of, first_timer, last_timer, timer_of, voice_of, why_of};

use line_input::is_word;
use link_frames::{Answer, Timer, Why};

/// Why a leg went down.
pub fn read_why(text: &[u8]) -> Option<Why>
    ensures { result ≡ why_of text.now }
{
    if is_word(text, "release") {
        Some(Why::Release)
    } else if is_word(text, "hangup") {
        Some(Why::Hangup)
    } else if is_word(text, "lost") {
        Some(Why::Lost)
    } else {
        None
    }
}

/// True for `open`, false for `muted`.
pub fn read_voice(text: &[u8]) -> Option<bool>
    ensures { result ≡ voice_of text.now }
{
    if is_word(text, "open") {
        Some(true)
    } else if is_word(text, "muted") {
        Some(false)
    } else {
        None
    }
}

/// `positive` or `clear`.
pub fn read_answer(text: &[u8]) -> Option<Answer>
    ensures { result ≡ answer_of text.now }
{
    if is_word(text, "positive") {
        Some(Answer::Positive)
    } else if is_word(text, "clear") {
        Some(Answer::Clear)
    } else {
        None
    }
}

/// A timer, by its name.
pub fn read_timer(text: &[u8]) -> Option<Timer>
    ensures { result ≡ timer_of text.now }
{
    match read_first_timer(text) {
        Some(found) => Some(found),
        None => read_last_timer(text),
    }
}

/// The timers up to T6.
fn read_first_timer(text: &[u8]) -> Option<Timer>
    ensures { result ≡ first_timer text.now }
{
    if is_word(text, "T1") {
        Some(Timer::T1)
    } else if is_word(text, "T2") {
        Some(Timer::T2)
    } else if is_word(text, "T3") {
        Some(Timer::T3)
    } else if is_word(text, "T4") {
        Some(Timer::T4)
    } else if is_word(text, "T5") {
        Some(Timer::T5)
    } else if is_word(text, "T6") {
        Some(Timer::T6)
    } else {
        None
    }
}

/// The other timers, and the bound on all muting of a stretch.
fn read_last_timer(text: &[u8]) -> Option<Timer>
    ensures { result ≡ last_timer text.now }
{
    if is_word(text, "T7") {
        Some(Timer::T7)
    } else if is_word(text, "T8") {
        Some(Timer::T8)
    } else if is_word(text, "T10") {
        Some(Timer::T10)
    } else if is_word(text, "TD") {
        Some(Timer::TD)
    } else if is_word(text, "TW") {
        Some(Timer::TW)
    } else if is_word(text, "sum") {
        Some(Timer::Sum)
    } else {
        None
    }
}
