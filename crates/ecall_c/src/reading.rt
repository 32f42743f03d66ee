//! The first frame of octets, for C.
ghost use Rattle.std.specs.Prelude.{◌≡◌, ◌≤◌, ◌<◌, Ok, Err, None, Some};
ghost use Rattle.link_frames.specs.Frame.{lent};
ghost use Rattle.link_frames.specs.FrameOctets.{IsFrameFront};
ghost use Rattle.ecall_c.specs.Items.{flat_frame};
ghost use Rattle.ecall_c.specs.Frames.{GivesFrame, StopsAt};

use crate::frame::{EcallFrame, NO_FRAME, NO_OCTETS, flat};
use link_frames::{Answer, FrameFault, FrameRef, Reader};

/// What octets of a stream come to, from the beginning of a frame on.
#[repr(C)]
#[derive(Clone, Copy, PartialEq, Eq)]
pub struct EcallFrameRead {
    /// How many octets the frame has, or stand before the one with which none goes on.
    pub taken: u64,
    /// 0 a frame, 1 less than a frame, 2 no frame.
    pub verdict: u8,
    /// What is wrong with the octet: 1 a kind, 2 a request 0, 3 an answer.
    pub fault: u8,
    /// The octet with which no frame goes on.
    pub octet: u8,
    pub frame: EcallFrame,
}

fn flatten_ref(frame: &FrameRef<'_>) -> EcallFrame
    ensures { result ≡ flat_frame (lent frame.now) }
{
    match frame {
        FrameRef::Init => flat(0, 0, 0, &NO_OCTETS),
        FrameRef::Start(request) => flat(1, request.number(), 0, &NO_OCTETS),
        FrameRef::Content {
            request,
            attempt,
            octets,
        } => flat(2, request.number(), *attempt, octets),
        FrameRef::Nack(request) => flat(3, request.number(), 0, &NO_OCTETS),
        FrameRef::Ack(request) => flat(4, request.number(), 0, &NO_OCTETS),
        FrameRef::App {
            request,
            answer: Answer::Positive,
        } => flat(5, request.number(), 0, &NO_OCTETS),
        FrameRef::App {
            request,
            answer: Answer::Clear,
        } => flat(6, request.number(), 0, &NO_OCTETS),
    }
}

fn stopped(fault: &FrameFault) -> EcallFrameRead
    ensures taken { result.taken ≡ fault.now.place }
    ensures verdict { result.verdict ≡ 2 }
    ensures octet { result.octet ≡ fault.now.octet }
    ensures fault { result.fault ≡ Rattle.link_frames.specs.FrameOctets.fault_code fault.now.fault }
{
    EcallFrameRead {
        taken: fault.place,
        verdict: 2,
        fault: fault.fault.code(),
        octet: fault.octet,
        frame: NO_FRAME,
    }
}

fn read(taken: u64, verdict: u8, frame: EcallFrame) -> EcallFrameRead
    ensures taken { result.taken ≡ taken }
    ensures verdict { result.verdict ≡ verdict }
    ensures frame { result.frame ≡ frame }
{
    EcallFrameRead {
        taken,
        verdict,
        fault: 0,
        octet: 0,
        frame,
    }
}

/// The frame at the front of the octets; or that they are less than one, or no frame.
#[unsafe(no_mangle)]
pub extern "C" fn ecall_frame_read(octets: &[u8]) -> EcallFrameRead
    ensures given { result.verdict ≡ 0 → GivesFrame octets.now result.taken result.frame }
    ensures begun { result.verdict ≡ 1 → IsFrameFront octets.now }
    ensures stopped { result.verdict ≡ 2 → StopsAt octets.now result.taken result.octet result.fault }
    ensures verdicts { result.verdict ≤ 2 }
{
    let mut reader = Reader::new();
    match reader.feed(octets) {
        Ok(taken) => match reader.frame() {
            Some(frame) => read(taken as u64, 0, flatten_ref(&frame)),
            None => read(0, 1, NO_FRAME),
        },
        Err(fault) => stopped(&fault),
    }
}
