//! The words of an entry's line.
ghost use Rattle.std.specs.Prelude.{◌≡◌};
ghost use Rattle.trace_text.specs.EntryLine.{answer_word, end_word, net_word, timer_word, voice_word, why_word};

use link_frames::{Answer, End, Timer, Why};

/// The word of an end.
pub fn end_word(end: End) -> &'static [u8]
    ensures { result.now ≡ end_word end }
{
    match end {
        End::Vehicle => b"vehicle",
        End::Point => b"point",
    }
}

/// The word of why a leg went down.
pub fn why_word(why: Why) -> &'static [u8]
    ensures { result.now ≡ why_word why }
{
    match why {
        Why::Release => b"release",
        Why::Hangup => b"hangup",
        Why::Lost => b"lost",
    }
}

/// The word of a timer.
pub(crate) fn timer_word(timer: Timer) -> &'static [u8]
    ensures { result.now ≡ timer_word timer }
{
    match timer {
        Timer::T1 => b"T1",
        Timer::T2 => b"T2",
        Timer::T3 => b"T3",
        Timer::T4 => b"T4",
        Timer::T5 => b"T5",
        Timer::T6 => b"T6",
        Timer::T7 => b"T7",
        Timer::T8 => b"T8",
        Timer::T10 => b"T10",
        Timer::TD => b"TD",
        Timer::TW => b"TW",
        Timer::Sum => b"sum",
    }
}

/// The word of an answer.
pub(crate) fn answer_word(answer: Answer) -> &'static [u8]
    ensures { result.now ≡ answer_word answer }
{
    match answer {
        Answer::Positive => b"positive",
        Answer::Clear => b"clear",
    }
}

/// The word of the network's state.
pub(crate) fn net_word(up: bool) -> &'static [u8]
    ensures { result.now ≡ net_word up }
{
    if up { b"up" } else { b"down" }
}

/// The word of a voice in one direction.
pub(crate) fn voice_word(is_open: bool) -> &'static [u8]
    ensures { result.now ≡ voice_word is_open }
{
    if is_open { b"open" } else { b"muted" }
}
