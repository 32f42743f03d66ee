//! The items of a trace's lines, each read by a function of its own.

ghost use Rattle.std.specs.Prelude.{◌≡◌, Ok};
ghost use Rattle.trace_text.specs.EntryLines.{acked_note, down_note, ended_note, last, leg_note, net_note, note_by_words, note_of, only_call, only_dial, only_leg, restart_note, send_note, shown_note, voice_note};
ghost use Rattle.trace_text.specs.inner.Placing.{placed};

use super::frames::read_frame;
use super::kinds::Item;
use super::next_words::NextWords;
use line_input::Reason;
use link_frames::{DialAttempt, End, Frame, Note, OCTETS};

/// Puts the item that the words left say in place.
pub fn read_note(words: &mut NextWords<'_>, into: &mut Note) -> Result<(), Reason>
    ensures { placed result into.new ≡ note_by_words words.old }
{
    let item = words.item()?;
    read_note_of(item, words, into)
}

/// Puts an item in place, by the words behind its first one.
fn read_note_of(item: Item, words: &mut NextWords<'_>, into: &mut Note) -> Result<(), Reason>
    ensures { placed result into.new ≡ note_of item words.old }
{
    match item {
        Item::Dial => put(Note::Dial(read_only_dial(words)?), into),
        Item::Failed => put(Note::Failed(read_only_dial(words)?), into),
        Item::GaveUp => last_note(Note::GaveUp, words, into),
        Item::Seeking => last_note(Note::Seeking, words, into),
        Item::Arming => last_note(Note::Arming, words, into),
        Item::Cancelled => last_note(Note::Cancelled, words, into),
        Item::Standby => last_note(Note::Standby, words, into),
        Item::Idle => last_note(Note::Idle, words, into),
        Item::Nothing => last_note(Note::Nothing, words, into),
        Item::Net => read_net(words, into),
        Item::Up => read_up(words, into),
        Item::Down => read_down(words, into),
        Item::Voice => read_voice(words, into),
        Item::Send => read_send(words, into),
        Item::Shown => read_shown(words, into),
        Item::Acked => read_acked(words, into),
        Item::Ended => read_ended(words, into),
        Item::Fault => read_fault(words, into),
        Item::Busy => put(Note::Busy(read_only_call(words)?), into),
        Item::Spent => put(Note::Spent(read_only_call(words)?), into),
        Item::Unshown => put(Note::Unshown(read_only_call(words)?), into),
        Item::Restart => read_restart(words, into),
    }
}

/// Puts an item in place.
#[inline]
fn put(note: Note, into: &mut Note) -> Result<(), Reason>
    ensures { placed result into.new ≡ Ok note }
{
    *into = note;
    Ok(())
}

/// Puts an item in place behind whose words nothing follows.
#[inline]
fn last_note(note: Note, words: &NextWords<'_>, into: &mut Note) -> Result<(), Reason>
    ensures { placed result into.new ≡ last note words.now }
{
    *into = note;
    words.no_more()
}

/// The attempt of an item that has no other words.
fn read_only_dial(words: &mut NextWords<'_>) -> Result<DialAttempt, Reason>
    ensures { result ≡ only_dial words.old }
{
    let attempt = words.dial()?;
    words.no_more()?;
    Ok(attempt)
}

/// The call of an item that has no other words.
fn read_only_call(words: &mut NextWords<'_>) -> Result<u32, Reason>
    ensures { result ≡ only_call words.old }
{
    let call = words.call()?;
    words.no_more()?;
    Ok(call)
}

/// The leg of an item that has no other words.
#[inline]
fn read_only_leg(words: &mut NextWords<'_>) -> Result<(End, u32), Reason>
    ensures { result ≡ only_leg words.old }
{
    let leg = words.leg()?;
    words.no_more()?;
    Ok(leg)
}

/// `net up|down`.
fn read_net(words: &mut NextWords<'_>, into: &mut Note) -> Result<(), Reason>
    ensures { placed result into.new ≡ net_note words.old }
{
    *into = Note::Net(words.net()?);
    words.no_more()
}

/// `up <end> <call>`.
fn read_up(words: &mut NextWords<'_>, into: &mut Note) -> Result<(), Reason>
    ensures { placed result into.new ≡ leg_note Note.Up words.old }
{
    let (end, call) = read_only_leg(words)?;
    *into = Note::Up { end, call };
    Ok(())
}

/// `down <end> <call> release|hangup|lost`.
fn read_down(words: &mut NextWords<'_>, into: &mut Note) -> Result<(), Reason>
    ensures { placed result into.new ≡ down_note words.old }
{
    let (end, call) = words.leg()?;
    let why = words.why()?;
    *into = Note::Down { end, call, why };
    words.no_more()
}

/// `voice <end> <call> open|muted open|muted`.
fn read_voice(words: &mut NextWords<'_>, into: &mut Note) -> Result<(), Reason>
    ensures { placed result into.new ≡ voice_note words.old }
{
    let (end, call) = words.leg()?;
    let up = words.voice()?;
    let down = words.voice()?;
    *into = Note::Voice {
        end,
        call,
        up,
        down,
    };
    words.no_more()
}

/// `send <end> <call> <frame>`.
fn read_send(words: &mut NextWords<'_>, into: &mut Note) -> Result<(), Reason>
    ensures { placed result into.new ≡ send_note words.old }
{
    let (end, call) = words.leg()?;
    *into = Note::Send {
        end,
        call,
        frame: Frame::Init,
    };
    match into {
        Note::Send { frame, .. } => read_frame(words, frame),
        _ => unreachable!(),
    }
}

/// `shown <call> <request> <octets> <summary>`.
fn read_shown(words: &mut NextWords<'_>, into: &mut Note) -> Result<(), Reason>
    ensures { placed result into.new ≡ shown_note words.old }
{
    let call = words.call()?;
    let request = words.request()?;
    *into = Note::Shown {
        call,
        request,
        octets: [0; OCTETS],
    };
    match into {
        Note::Shown { octets, .. } => {
            words.octets(octets)?;
            if words.are_summary(octets) {
                Ok(())
            } else {
                Err(Reason::Word)
            }
        }
        _ => unreachable!(),
    }
}

/// `acked <call> <request> <octets>`.
fn read_acked(words: &mut NextWords<'_>, into: &mut Note) -> Result<(), Reason>
    ensures { placed result into.new ≡ acked_note words.old }
{
    let call = words.call()?;
    let request = words.request()?;
    *into = Note::Acked {
        call,
        request,
        octets: [0; OCTETS],
    };
    match into {
        Note::Acked { octets, .. } => {
            words.octets(octets)?;
            words.no_more()
        }
        _ => unreachable!(),
    }
}

/// `ended <end> <call> <timer>`.
fn read_ended(words: &mut NextWords<'_>, into: &mut Note) -> Result<(), Reason>
    ensures { placed result into.new ≡ ended_note words.old }
{
    let (end, call) = words.leg()?;
    let timer = words.timer()?;
    *into = Note::Ended { end, call, timer };
    words.no_more()
}

/// `fault <end> <call>`.
fn read_fault(words: &mut NextWords<'_>, into: &mut Note) -> Result<(), Reason>
    ensures { placed result into.new ≡ leg_note Note.Fault words.old }
{
    let (end, call) = read_only_leg(words)?;
    *into = Note::Fault { end, call };
    Ok(())
}

/// `restart <end>`.
fn read_restart(words: &mut NextWords<'_>, into: &mut Note) -> Result<(), Reason>
    ensures { placed result into.new ≡ restart_note words.old }
{
    *into = Note::Restart(words.end()?);
    words.no_more()
}
