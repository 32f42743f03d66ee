//! The fields of items.
ghost use Rattle.std.specs.Prelude.{◌≡◌, ◌++◌, OnOk};
ghost use Rattle.view_traces.specs.Object.{call_fields, dial_fields, down_fields, ended_fields, leg_fields, net_fields, note_fields, restart_fields, send_fields, set_fields, voice_fields};

use crate::frame::put_frame;
use crate::pieces::{put_end, put_item, put_number, put_octets};
use crate::words::{net_word, timer_word, voice_word, why_word};
use link_frames::{DialAttempt, End, Frame, Note, OCTETS, Request, Timer, Why};
use std::alloc::AllocError;
use view_lines::put_all;

#[tactic(auto, unfolding(crate::specs::Object::dial_fields))]
// Puts an item with an attempt to dial.
fn put_dial(text: &mut Vec<u8>, word: &[u8], attempt: DialAttempt) -> Result<(), AllocError>
    ensures { OnOk result (text.new.items ≡ text.old.items ++ dial_fields word.now attempt) }
{
    put_item(text, word)?;
    put_number(text, b",\"attempt\":", u32::from(attempt.number()))
}

#[tactic(auto, unfolding(crate::specs::Object::call_fields))]
// Puts an item with a call alone.
fn put_call(text: &mut Vec<u8>, word: &[u8], call: u32) -> Result<(), AllocError>
    ensures { OnOk result (text.new.items ≡ text.old.items ++ call_fields word.now call) }
{
    put_item(text, word)?;
    put_number(text, b",\"call\":", call)
}

#[tactic(auto, unfolding(crate::specs::Object::net_fields))]
// Puts the network's state.
fn put_net(text: &mut Vec<u8>, up: bool) -> Result<(), AllocError>
    ensures { OnOk result (text.new.items ≡ text.old.items ++ net_fields up) }
{
    put_all(
        text,
        &[b",\"item\":\"net\",\"state\":\"", net_word(up), b"\""],
    )
}

#[tactic(auto, unfolding(crate::specs::Object::restart_fields))]
// Puts an end that restarts.
fn put_restart(text: &mut Vec<u8>, end: End) -> Result<(), AllocError>
    ensures { OnOk result (text.new.items ≡ text.old.items ++ restart_fields end) }
{
    put_item(text, b"restart")?;
    put_end(text, end)
}

// Puts an item's word, an end and a call.
fn put_leg(text: &mut Vec<u8>, word: &[u8], end: End, call: u32) -> Result<(), AllocError>
    ensures { OnOk result (text.new.items ≡ text.old.items ++ leg_fields word.now end call) }
{
    put_item(text, word)?;
    put_end(text, end)?;
    put_number(text, b",\"call\":", call)
}

#[tactic(auto, unfolding(crate::specs::Object::down_fields))]
// Puts a leg that went down.
fn put_down(text: &mut Vec<u8>, end: End, call: u32, why: Why) -> Result<(), AllocError>
    ensures { OnOk result (text.new.items ≡ text.old.items ++ down_fields end call why) }
{
    put_leg(text, b"down", end, call)?;
    put_all(text, &[b",\"why\":\"", why_word(why), b"\""])
}

#[tactic(auto, unfolding(crate::specs::Object::ended_fields))]
// Puts a timer that ran out.
fn put_ended(text: &mut Vec<u8>, end: End, call: u32, timer: Timer) -> Result<(), AllocError>
    ensures { OnOk result (text.new.items ≡ text.old.items ++ ended_fields end call timer) }
{
    put_leg(text, b"ended", end, call)?;
    put_all(text, &[b",\"timer\":\"", timer_word(timer), b"\""])
}

#[tactic(auto, unfolding(crate::specs::Object::voice_fields))]
// Puts an end's voice.
fn put_voice(
    text: &mut Vec<u8>,
    end: End,
    call: u32,
    up: bool,
    down: bool,
) -> Result<(), AllocError>
    ensures { OnOk result (text.new.items ≡ text.old.items ++ voice_fields end call up down) }
{
    put_leg(text, b"voice", end, call)?;
    put_all(
        text,
        &[
            b",\"up\":\"",
            voice_word(up),
            b"\",\"down\":\"",
            voice_word(down),
            b"\"",
        ],
    )
}

// Puts an item with a set.
fn put_set(
    text: &mut Vec<u8>,
    word: &[u8],
    call: u32,
    request: Request,
    octets: &[u8; OCTETS],
) -> Result<(), AllocError>
    ensures { OnOk result (text.new.items ≡ text.old.items ++ set_fields word.now call request octets.now) }
{
    put_call(text, word, call)?;
    put_number(text, b",\"request\":", u32::from(request.number()))?;
    put_octets(text, octets)
}

#[tactic(auto, unfolding(crate::specs::Object::send_fields))]
// Puts a frame that is sent.
fn put_send(text: &mut Vec<u8>, end: End, call: u32, frame: &Frame) -> Result<(), AllocError>
    ensures { OnOk result (text.new.items ≡ text.old.items ++ send_fields end call frame.now) }
{
    put_leg(text, b"send", end, call)?;
    put_frame(text, frame)
}

/// Puts an item's first word, and what the item has.
pub(crate) fn put_note(text: &mut Vec<u8>, note: &Note) -> Result<(), AllocError>
    ensures { OnOk result (text.new.items ≡ text.old.items ++ note_fields note.now) }
{
    match note {
        Note::Dial(attempt) => put_dial(text, b"dial", *attempt),
        Note::Failed(attempt) => put_dial(text, b"failed", *attempt),
        Note::GaveUp => put_item(text, b"gaveup"),
        Note::Seeking => put_item(text, b"seeking"),
        Note::Arming => put_item(text, b"arming"),
        Note::Cancelled => put_item(text, b"cancelled"),
        Note::Standby => put_item(text, b"standby"),
        Note::Idle => put_item(text, b"idle"),
        Note::Nothing => put_item(text, b"nothing"),
        Note::Net(up) => put_net(text, *up),
        Note::Up { end, call } => put_leg(text, b"up", *end, *call),
        Note::Down { end, call, why } => put_down(text, *end, *call, *why),
        Note::Voice {
            end,
            call,
            up,
            down,
        } => put_voice(text, *end, *call, *up, *down),
        Note::Send { end, call, frame } => put_send(text, *end, *call, frame),
        Note::Shown {
            call,
            request,
            octets,
        } => put_set(text, b"shown", *call, *request, octets),
        Note::Acked {
            call,
            request,
            octets,
        } => put_set(text, b"acked", *call, *request, octets),
        Note::Ended { end, call, timer } => put_ended(text, *end, *call, *timer),
        Note::Fault { end, call } => put_leg(text, b"fault", *end, *call),
        Note::Busy(call) => put_call(text, b"busy", *call),
        Note::Spent(call) => put_call(text, b"spent", *call),
        Note::Unshown(call) => put_call(text, b"unshown", *call),
        Note::Restart(end) => put_restart(text, *end),
    }
}
