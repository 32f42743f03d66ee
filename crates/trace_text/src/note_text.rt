//! The words of an item, each behind a space.

ghost use Rattle.std.specs.Prelude.{◌≡◌, ◌+◌, ◌<◌, ◌≤◌, ◌∷◌, [], ◌++◌, length, codes, decimal};
ghost use Rattle.arrayvec.specs.ArrayVec.{array_vec_len};
ghost use Rattle.hex.specs.Hex.{encode_lower};
ghost use Rattle.line_input.specs.Characters.{space};
ghost use Rattle.trace_text.specs.EntryLine.{end_word, frame_words, net_word, note_words, spaced, timer_word, voice_word, why_word};
ghost use Rattle.trace_text.specs.Rooms.{frame_room, note_room};

use crate::frame_text::push_frame_words;
use crate::hexadecimal::push_octets;
use crate::summary::push_summary;
use arrayvec::ArrayVec;
use line_input::{push_number, push_word};
use link_frames::{DialAttempt, End, Frame, Note, OCTETS, Request, Timer, Why};

/// Appends the words of an item, each behind a space.
pub fn push_note_words<const N: usize>(line: &mut ArrayVec<u8, N>, note: &Note)
    requires { array_vec_len line.old + note_room note.now ≤ N }
    ensures bytes { line.new.items ≡ line.old.items ++ spaced (note_words note.now) }
    ensures len { array_vec_len line.new ≤ array_vec_len line.old + note_room note.now }
{
    match note {
        Note::Dial(attempt) => push_attempt(line, "dial", *attempt),
        Note::Failed(attempt) => push_attempt(line, "failed", *attempt),
        Note::GaveUp => push_word(line, "gaveup"),
        Note::Seeking => push_word(line, "seeking"),
        Note::Arming => push_word(line, "arming"),
        Note::Cancelled => push_word(line, "cancelled"),
        Note::Standby => push_word(line, "standby"),
        Note::Idle => push_word(line, "idle"),
        Note::Nothing => push_word(line, "nothing"),
        Note::Net(up) => push_net(line, *up),
        Note::Up { end, call } => push_leg(line, "up", *end, *call),
        Note::Down { end, call, why } => push_down(line, *end, *call, *why),
        Note::Voice {
            end,
            call,
            up,
            down,
        } => push_voice(line, *end, *call, *up, *down),
        Note::Send { end, call, frame } => push_send(line, *end, *call, frame),
        Note::Shown {
            call,
            request,
            octets,
        } => push_shown(line, *call, *request, octets),
        Note::Acked {
            call,
            request,
            octets,
        } => push_set(line, "acked", *call, *request, octets),
        Note::Ended { end, call, timer } => push_ended(line, *end, *call, *timer),
        Note::Fault { end, call } => push_leg(line, "fault", *end, *call),
        Note::Busy(call) => push_call(line, "busy", *call),
        Note::Spent(call) => push_call(line, "spent", *call),
        Note::Unshown(call) => push_call(line, "unshown", *call),
        Note::Restart(end) => push_restart(line, *end),
    }
}

/// Appends the name of an end. Each name is known where it is copied, which a text that a match gives is not. Out of
/// line: so the copies stand once, and not in each item.
#[inline(never)]
fn push_end<const N: usize>(line: &mut ArrayVec<u8, N>, end: End)
    requires { array_vec_len line.old + 7 < N }
    ensures bytes { line.new.items ≡ line.old.items ++ space ∷ end_word end }
    ensures len { array_vec_len line.new ≤ array_vec_len line.old + 8 }
{
    match end {
        End::Vehicle => push_word(line, "vehicle"),
        End::Point => push_word(line, "point"),
    }
}

fn why_name(why: Why) -> &'static str
    ensures word { result.now ≡ why_word why }
    ensures short { length result.now ≤ 7 }
{
    match why {
        Why::Release => "release",
        Why::Hangup => "hangup",
        Why::Lost => "lost",
    }
}

fn timer_name(timer: Timer) -> &'static str
    ensures word { result.now ≡ timer_word timer }
    ensures short { length result.now ≤ 3 }
{
    match timer {
        Timer::T1 => "T1",
        Timer::T2 => "T2",
        Timer::T3 => "T3",
        Timer::T4 => "T4",
        Timer::T5 => "T5",
        Timer::T6 => "T6",
        Timer::T7 => "T7",
        Timer::T8 => "T8",
        Timer::T10 => "T10",
        Timer::TD => "TD",
        Timer::TW => "TW",
        Timer::Sum => "sum",
    }
}

fn net_name(up: bool) -> &'static str
    ensures word { result.now ≡ net_word up }
    ensures short { length result.now ≤ 4 }
{
    if up { "up" } else { "down" }
}

/// Appends the state of a voice in one direction.
fn push_open<const N: usize>(line: &mut ArrayVec<u8, N>, is_open: bool)
    requires { array_vec_len line.old + 5 < N }
    ensures bytes { line.new.items ≡ line.old.items ++ space ∷ voice_word is_open }
    ensures len { array_vec_len line.new ≤ array_vec_len line.old + 6 }
{
    if is_open {
        push_word(line, "open");
    } else {
        push_word(line, "muted");
    }
}

/// Appends an item's first word with the leg that it is about.
fn push_leg<const N: usize>(line: &mut ArrayVec<u8, N>, word: &str, end: End, call: u32)
    requires { array_vec_len line.old + length word.now + 20 ≤ N }
    ensures bytes { line.new.items
        ≡ line.old.items ++ spaced (word.now ∷ end_word end ∷ decimal call ∷ []) }
    ensures len { array_vec_len line.new ≤ array_vec_len line.old + length word.now + 20 }
{
    push_word(line, word);
    push_end(line, end);
    push_number(line, call);
}

/// Appends an item's first word with a call's number.
fn push_call<const N: usize>(line: &mut ArrayVec<u8, N>, word: &str, call: u32)
    requires { array_vec_len line.old + length word.now + 12 ≤ N }
    ensures bytes { line.new.items ≡ line.old.items ++ spaced (word.now ∷ decimal call ∷ []) }
    ensures len { array_vec_len line.new ≤ array_vec_len line.old + length word.now + 12 }
{
    push_word(line, word);
    push_number(line, call);
}

/// Appends an item's first word with a call's number, a request and the octets of a set.
fn push_set<const N: usize>(
    line: &mut ArrayVec<u8, N>,
    word: &str,
    call: u32,
    request: Request,
    octets: &[u8; OCTETS],
)
    requires { array_vec_len line.old + length word.now + 297 ≤ N }
    ensures bytes { line.new.items
        ≡ line.old.items ++ spaced (word.now ∷ decimal call ∷ decimal request ∷ encode_lower octets.now ∷ []) }
    ensures len { array_vec_len line.new ≤ array_vec_len line.old + length word.now + 297 }
{
    push_call(line, word, call);
    push_number(line, request.number());
    push_octets(line, octets.as_slice());
}

/// Appends the words of an item on a set that is shown.
fn push_shown<const N: usize>(
    line: &mut ArrayVec<u8, N>,
    call: u32,
    request: Request,
    octets: &[u8; OCTETS],
)
    requires { array_vec_len line.old + 362 ≤ N }
    ensures bytes { line.new.items ≡ line.old.items ++ spaced (note_words (Note.Shown call request octets.now)) }
    ensures len { array_vec_len line.new ≤ array_vec_len line.old + 362 }
{
    push_set(line, "shown", call, request, octets);
    push_summary(line, octets);
}

/// Appends an item's first word with an attempt to dial.
fn push_attempt<const N: usize>(line: &mut ArrayVec<u8, N>, word: &str, attempt: DialAttempt)
    requires { array_vec_len line.old + length word.now + 5 ≤ N }
    ensures bytes { line.new.items ≡ line.old.items ++ spaced (word.now ∷ decimal attempt ∷ []) }
    ensures len { array_vec_len line.new ≤ array_vec_len line.old + length word.now + 5 }
{
    push_word(line, word);
    push_number(line, attempt.number());
}

/// Appends the words of an item on the network.
fn push_net<const N: usize>(line: &mut ArrayVec<u8, N>, up: bool)
    requires { array_vec_len line.old + 41 ≤ N }
    ensures bytes { line.new.items ≡ line.old.items ++ spaced (codes "net" ∷ net_word up ∷ []) }
    ensures len { array_vec_len line.new ≤ array_vec_len line.old + 41 }
{
    push_word(line, "net");
    push_word(line, net_name(up));
}

/// Appends the words of an item on an end that restarts.
fn push_restart<const N: usize>(line: &mut ArrayVec<u8, N>, end: End)
    requires { array_vec_len line.old + 41 ≤ N }
    ensures bytes { line.new.items ≡ line.old.items ++ spaced (codes "restart" ∷ end_word end ∷ []) }
    ensures len { array_vec_len line.new ≤ array_vec_len line.old + 41 }
{
    push_word(line, "restart");
    push_end(line, end);
}

/// Appends the words of an item on a leg that went down.
fn push_down<const N: usize>(line: &mut ArrayVec<u8, N>, end: End, call: u32, why: Why)
    requires { array_vec_len line.old + 41 ≤ N }
    ensures bytes { line.new.items
        ≡ line.old.items ++ spaced (codes "down" ∷ end_word end ∷ decimal call ∷ why_word why ∷ []) }
    ensures len { array_vec_len line.new ≤ array_vec_len line.old + 41 }
{
    push_leg(line, "down", end, call);
    push_word(line, why_name(why));
}

/// Appends the words of an item on a timer.
fn push_ended<const N: usize>(line: &mut ArrayVec<u8, N>, end: End, call: u32, timer: Timer)
    requires { array_vec_len line.old + 41 ≤ N }
    ensures bytes { line.new.items
        ≡ line.old.items ++ spaced (codes "ended" ∷ end_word end ∷ decimal call ∷ timer_word timer ∷ []) }
    ensures len { array_vec_len line.new ≤ array_vec_len line.old + 41 }
{
    push_leg(line, "ended", end, call);
    push_word(line, timer_name(timer));
}

/// Appends the words of a voice item.
fn push_voice<const N: usize>(line: &mut ArrayVec<u8, N>, end: End, call: u32, up: bool, down: bool)
    requires { array_vec_len line.old + 41 ≤ N }
    ensures bytes { line.new.items
        ≡ line.old.items ++ spaced
        (codes "voice" ∷ end_word end ∷ decimal call ∷ voice_word up ∷ voice_word down ∷ []) }
    ensures len { array_vec_len line.new ≤ array_vec_len line.old + 41 }
{
    push_leg(line, "voice", end, call);
    push_open(line, up);
    push_open(line, down);
}

/// Appends the words of a send item.
fn push_send<const N: usize>(line: &mut ArrayVec<u8, N>, end: End, call: u32, frame: &Frame)
    requires { array_vec_len line.old + 24 + frame_room frame.now ≤ N }
    ensures bytes { line.new.items
        ≡ line.old.items ++ spaced (codes "send" ∷ end_word end ∷ decimal call ∷ frame_words frame.now) }
    ensures len { array_vec_len line.new ≤ array_vec_len line.old + 24 + frame_room frame.now }
{
    push_leg(line, "send", end, call);
    push_frame_words(line, &frame.lend());
}
