//! What the first octets of a stream of live messages come to, for C.
ghost use Rattle.std.specs.Prelude.{◌≡◌, ◌<◌, ◌^◌, true, []};
ghost use Rattle.link_parts.specs.PartReading.{kept_of};
ghost use Rattle.link_parts.specs.Rounds.{take_octet};
ghost use Rattle.ecall_c.specs.Items.{no_frame};
ghost use Rattle.ecall_c.specs.MessageReads.{bare_part, flat_part, halted, met, read_from, reading_end};
ghost use Rattle.ecall_c.specs.inner.Tells.{Stands, Tells};

use crate::frame::{NO_FRAME, flatten_frame};
use crate::messages::EcallMessagePart;
use link_frames::End;
use link_parts::{MessageReader, Part, PartFault, Taking};

/// What octets come to, from the beginning of a message on or from behind a part of one.
#[repr(C)]
#[derive(Clone, Copy, PartialEq, Eq)]
pub struct EcallMessageRead {
    /// How many octets the part has, or the end of the message; or how many stand before the one with which none goes on.
    pub taken: u64,
    /// 0 a part, 1 less than a part, 2 no part, 3 the end of the message, 4 the end of the vehicle's script.
    pub verdict: u8,
    /// What is wrong with the octet: 1 to 3 as of a frame, 4 no part that comes to this end, 5 the last of a number 0.
    pub fault: u8,
    /// The octet with which no part goes on.
    pub octet: u8,
    pub part: EcallMessagePart,
}

const NO_PART: EcallMessagePart = EcallMessagePart {
    call: 0,
    kind: 0,
    frame: NO_FRAME,
};

fn part_with(call: u32, kind: u8) -> EcallMessagePart
    ensures { result ≡ bare_part call kind no_frame }
{
    EcallMessagePart {
        call,
        kind,
        frame: NO_FRAME,
    }
}

fn flatten_part(part: &Part) -> EcallMessagePart
    ensures { result ≡ flat_part part.now }
{
    match part {
        Part::Dials => part_with(0, 0),
        Part::Answers(call) => part_with(*call, 1),
        Part::Leaves(call) => part_with(*call, 2),
        Part::Rings(call) => part_with(*call, 3),
        Part::Takes(call) => part_with(*call, 4),
        Part::Carries(call, frame) => EcallMessagePart {
            call: *call,
            kind: 5,
            frame: flatten_frame(frame),
        },
    }
}

fn found(taken: u64, verdict: u8, part: EcallMessagePart) -> EcallMessageRead
    ensures { result ≡ met taken verdict part }
{
    EcallMessageRead {
        taken,
        verdict,
        fault: 0,
        octet: 0,
        part,
    }
}

fn stopped(place: u64, octet: u8, fault: PartFault) -> EcallMessageRead
    ensures { result ≡ halted place octet fault }
{
    EcallMessageRead {
        taken: place,
        verdict: 2,
        fault: fault.code(),
        octet,
        part: NO_PART,
    }
}

/// Takes the octet at this place, and answers what stands in front of it and with it; none is a part that goes on.
fn take(reader: &mut MessageReader, end: End, octet: u8, place: u64) -> Option<EcallMessageRead>
    requires stands { Stands (kept_of reader.old.reader) reader.old }
    requires place { place < 2 ^ 63 }
    ensures { Tells (take_octet end true (kept_of reader.old.reader) octet) place octet result reader.new }
{
    match reader.take(end, octet) {
        Ok(Taking::GoesOn) => None,
        Ok(Taking::Part(part)) => Some(found(place + 1, 0, flatten_part(&part))),
        Ok(Taking::Message) => Some(found(place + 1, 3, NO_PART)),
        Ok(Taking::ScriptEnd) => Some(found(place + 1, 4, NO_PART)),
        Err(fault) => Some(stopped(place, octet, fault)),
    }
}

fn end_of(at_point: bool) -> End
    ensures { result ≡ reading_end at_point }
{
    if at_point { End::Point } else { End::Vehicle }
}

/// Takes the octets that came to this end, up to the end of a part, or of a message.
#[tactic(auto, using(crate::proofs::MessageSteps::goes_behind, crate::proofs::MessageSteps::ends_behind, crate::proofs::MessageSteps::stands_on))]
fn read(octets: &[u8], end: End) -> EcallMessageRead
    ensures { result ≡ read_from end [] 0 octets.now }
{
    let mut reader = MessageReader::new();
    for place in 0..octets.len() {
        if let Some(read) = take(&mut reader, end, octets[place], place as u64) {
            return read;
        }
    }
    found(0, 1, NO_PART)
}

/// The part at the front of the octets that the other end sent; or the end of the message, or of the vehicle's script; or
/// that they are less than a part, or that no part goes on with one of them.
#[unsafe(no_mangle)]
pub extern "C" fn ecall_message_read(octets: &[u8], at_point: bool) -> EcallMessageRead
    ensures { result ≡ read_from (reading_end at_point) [] 0 octets.now }
{
    read(octets, end_of(at_point))
}
