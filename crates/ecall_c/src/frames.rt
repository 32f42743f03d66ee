//! The octets of frames for C.
ghost use Rattle.std.specs.Prelude.{◌≡◌, ◌≤◌, ◌↔◌, IsTrue, IsSome, IfSome, length, take};
ghost use Rattle.link_frames.specs.Frame.{lent};
ghost use Rattle.link_frames.specs.FrameOctets.{frame_octets};
ghost use Rattle.ecall_c.specs.Items.{IsFrame, frame_of};

use crate::frame::{EcallFrame, lift_frame};
use link_frames::{Frame, FrameRef, write};

/// The octets of a frame, `len` of them.
#[repr(C)]
#[derive(Clone, Copy, PartialEq, Eq)]
pub struct EcallFrameOctets {
    pub is_frame: bool,
    pub len: u8,
    pub octets: [u8; 144],
}

/// The frame itself.
pub fn own_frame(frame: &FrameRef<'_>) -> Frame
    ensures { result ≡ lent frame.now }
{
    match frame {
        FrameRef::Init => Frame::Init,
        FrameRef::Start(request) => Frame::Start(*request),
        FrameRef::Content {
            request,
            attempt,
            octets,
        } => Frame::Content {
            request: *request,
            attempt: *attempt,
            octets: **octets,
        },
        FrameRef::Nack(request) => Frame::Nack(*request),
        FrameRef::Ack(request) => Frame::Ack(*request),
        FrameRef::App { request, answer } => Frame::App {
            request: *request,
            answer: *answer,
        },
    }
}

fn copy(from: &[u8], into: &mut [u8; 144])
    requires { length from.now ≤ 144 }
    ensures { take (length from.now) into.new ≡ from.now }
{
    into[..from.len()].copy_from_slice(from);
}

/// The octets of a frame, as they go over the link.
#[unsafe(no_mangle)]
pub extern "C" fn ecall_frame_write(frame: &EcallFrame) -> EcallFrameOctets
    ensures good { IsTrue result.is_frame ↔ IsFrame frame.now }
    ensures octets { IsTrue result.is_frame → take result.len result.octets ≡ frame_octets (frame_of frame.now) }
    ensures few { result.len ≤ 144 }
{
    let mut octets = [0; 144];
    let Some(frame) = lift_frame(frame) else {
        return EcallFrameOctets {
            is_frame: false,
            len: 0,
            octets,
        };
    };
    let written = write(&own_frame(&frame));
    copy(written.as_slice(), &mut octets);
    EcallFrameOctets {
        is_frame: true,
        len: written.len() as u8,
        octets,
    }
}
