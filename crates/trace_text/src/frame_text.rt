//! The words of a frame, each behind a space.

ghost use Rattle.std.specs.Prelude.{◌≡◌, ◌+◌, ◌≤◌, ◌∷◌, [], ◌++◌, length, codes, decimal};
ghost use Rattle.arrayvec.specs.ArrayVec.{array_vec_len};
ghost use Rattle.hex.specs.Hex.{encode_lower};
ghost use Rattle.link_frames.specs.Frame.{lent};
ghost use Rattle.trace_text.specs.EntryLine.{answer_word, frame_words, spaced};
ghost use Rattle.trace_text.specs.Rooms.{frame_room};

use crate::hexadecimal::push_octets;
use arrayvec::ArrayVec;
use line_input::{push_number, push_word};
use link_frames::{Answer, FrameRef, OCTETS, Request};

/// Appends the words of a frame, each behind a space.
pub fn push_frame_words<const N: usize>(line: &mut ArrayVec<u8, N>, frame: &FrameRef<'_>)
    requires { array_vec_len line.old + frame_room (lent frame.now) ≤ N }
    ensures bytes { line.new.items ≡ line.old.items ++ spaced (frame_words (lent frame.now)) }
    ensures len { array_vec_len line.new ≤ array_vec_len line.old + frame_room (lent frame.now) }
{
    match frame {
        FrameRef::Init => push_word(line, "init"),
        FrameRef::Start(request) => push_request(line, "start", *request),
        FrameRef::Content {
            request,
            attempt,
            octets,
        } => push_data(line, *request, *attempt, octets),
        FrameRef::Nack(request) => push_request(line, "nack", *request),
        FrameRef::Ack(request) => push_request(line, "ack", *request),
        FrameRef::App { request, answer } => push_app(line, *request, *answer),
    }
}

/// Appends a frame's first word with its request.
fn push_request<const N: usize>(line: &mut ArrayVec<u8, N>, word: &str, request: Request)
    requires { array_vec_len line.old + length word.now + 5 ≤ N }
    ensures bytes { line.new.items ≡ line.old.items ++ spaced (word.now ∷ decimal request ∷ []) }
    ensures len { array_vec_len line.new ≤ array_vec_len line.old + length word.now + 5 }
{
    push_word(line, word);
    push_number(line, request.number());
}

/// Appends the words of a frame that carries a set.
fn push_data<const N: usize>(
    line: &mut ArrayVec<u8, N>,
    request: Request,
    attempt: u8,
    octets: &[u8; OCTETS],
)
    requires { array_vec_len line.old + 294 ≤ N }
    ensures bytes { line.new.items
        ≡ line.old.items ++ spaced (codes "data" ∷ decimal request ∷ decimal attempt ∷ encode_lower octets.now ∷ []) }
    ensures len { array_vec_len line.new ≤ array_vec_len line.old + 294 }
{
    push_request(line, "data", request);
    push_number(line, attempt);
    push_octets(line, octets.as_slice());
}

/// Appends the words of an application acknowledgement.
fn push_app<const N: usize>(line: &mut ArrayVec<u8, N>, request: Request, answer: Answer)
    requires { array_vec_len line.old + 17 ≤ N }
    ensures bytes { line.new.items
        ≡ line.old.items ++ spaced (codes "app" ∷ decimal request ∷ answer_word answer ∷ []) }
    ensures len { array_vec_len line.new ≤ array_vec_len line.old + 17 }
{
    push_request(line, "app", request);
    push_word(line, answer_name(answer));
}

fn answer_name(answer: Answer) -> &'static str
    ensures word { result.now ≡ answer_word answer }
    ensures short { length result.now ≤ 8 }
{
    match answer {
        Answer::Positive => "positive",
        Answer::Clear => "clear",
    }
}
