//! The fields of frames.
ghost use Rattle.std.specs.Prelude.{◌≡◌, ◌++◌, OnOk};
ghost use Rattle.view_traces.specs.Object.{app_fields, data_fields, frame_fields, request_fields};

use crate::pieces::{put_number, put_octets};
use crate::words::answer_word;
use itoa::Buffer;
use link_frames::{Answer, Frame, OCTETS, Request};
use std::alloc::AllocError;
use view_lines::put_all;

#[tactic(auto, unfolding(crate::specs::Object::request_fields))]
// Puts a frame's word and its request.
fn put_request(text: &mut Vec<u8>, word: &[u8], request: Request) -> Result<(), AllocError>
    ensures { OnOk result (text.new.items ≡ text.old.items ++ request_fields word.now request) }
{
    let mut number = Buffer::new();
    put_all(
        text,
        &[
            b",\"frame\":\"",
            word,
            b"\",\"request\":",
            number.format(request.number()).as_bytes(),
        ],
    )
}

// Puts what a frame with a set has.
fn put_data(
    text: &mut Vec<u8>,
    request: Request,
    attempt: u8,
    octets: &[u8; OCTETS],
) -> Result<(), AllocError>
    ensures { OnOk result (text.new.items ≡ text.old.items ++ data_fields request attempt octets.now) }
{
    put_request(text, b"data", request)?;
    put_number(text, b",\"attempt\":", u32::from(attempt))?;
    put_octets(text, octets)
}

#[tactic(auto, unfolding(crate::specs::Object::app_fields))]
// Puts what an application acknowledgement has.
fn put_app(text: &mut Vec<u8>, request: Request, answer: Answer) -> Result<(), AllocError>
    ensures { OnOk result (text.new.items ≡ text.old.items ++ app_fields request answer) }
{
    put_request(text, b"app", request)?;
    put_all(text, &[b",\"answer\":\"", answer_word(answer), b"\""])
}

/// Puts what a frame has.
pub(crate) fn put_frame(text: &mut Vec<u8>, frame: &Frame) -> Result<(), AllocError>
    ensures { OnOk result (text.new.items ≡ text.old.items ++ frame_fields frame.now) }
{
    match frame {
        Frame::Init => text.extend_from_slice(b",\"frame\":\"init\""),
        Frame::Start(request) => put_request(text, b"start", *request),
        Frame::Content {
            request,
            attempt,
            octets,
        } => put_data(text, *request, *attempt, octets),
        Frame::Nack(request) => put_request(text, b"nack", *request),
        Frame::Ack(request) => put_request(text, b"ack", *request),
        Frame::App { request, answer } => put_app(text, *request, *answer),
    }
}
