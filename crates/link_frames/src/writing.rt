//! The octets of a frame.
ghost use Rattle.std.specs.Prelude.{◌≡◌, ◌≤◌, ◌+◌, ◌++◌, length};
ghost use Rattle.arrayvec.specs.ArrayVec.{array_vec_len};
ghost use Rattle.link_frames.specs.FrameOctets.{frame_octets, answer_octet};

use crate::frame::{Answer, Frame};
use arrayvec::ArrayVec;

/// Room for the octets of any frame, which has at most 143.
const ROOM: usize = 144;

/// The octets of a frame, as they go over the link. This project's profile.
pub fn write(frame: &Frame) -> ArrayVec<u8, 144>
    ensures { result.items ≡ frame_octets frame.now }
{
    let mut octets = ArrayVec::new();
    match frame {
        Frame::Init => push(&mut octets, &[1]),
        Frame::Start(request) => push(&mut octets, &[2, request.number()]),
        Frame::Content {
            request,
            attempt,
            octets: set,
        } => {
            push(&mut octets, &[3, request.number(), *attempt]);
            push(&mut octets, set);
        }
        Frame::Nack(request) => push(&mut octets, &[4, request.number()]),
        Frame::Ack(request) => push(&mut octets, &[5, request.number()]),
        Frame::App { request, answer } => {
            push(&mut octets, &[6, request.number(), octet_of(*answer)]);
        }
    }
    octets
}

fn octet_of(answer: Answer) -> u8
    ensures { result ≡ answer_octet answer }
{
    match answer {
        Answer::Positive => 1,
        Answer::Clear => 2,
    }
}

fn push(octets: &mut ArrayVec<u8, ROOM>, more: &[u8])
    requires { array_vec_len octets.old + length more.now ≤ ROOM }
    ensures { octets.new.items ≡ octets.old.items ++ more.now }
{
    octets.try_extend_from_slice(more).unwrap();
}
