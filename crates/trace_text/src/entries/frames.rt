//! The frames of a trace's `send` lines.

ghost use Rattle.std.specs.Prelude.{◌≡◌};
ghost use Rattle.trace_text.specs.EntryLines.{app_frame, data_frame, frame_by_words, frame_of, only_request};
ghost use Rattle.trace_text.specs.inner.Placing.{placed};

use super::kinds::FrameKind;
use super::next_words::NextWords;
use line_input::Reason;
use link_frames::{Frame, OCTETS, Request};

/// Puts the frame that the words left say in place.
pub fn read_frame(words: &mut NextWords<'_>, into: &mut Frame) -> Result<(), Reason>
    ensures { placed result into.new ≡ frame_by_words words.old }
{
    let kind = words.kind()?;
    read_frame_of(kind, words, into)
}

/// Puts a frame of a kind in place, by the words behind that of its kind.
fn read_frame_of(kind: FrameKind, words: &mut NextWords<'_>, into: &mut Frame) -> Result<(), Reason>
    ensures { placed result into.new ≡ frame_of kind words.old }
{
    match kind {
        FrameKind::Init => {
            *into = Frame::Init;
            words.no_more()
        }
        FrameKind::Start => {
            *into = Frame::Start(read_only_request(words)?);
            Ok(())
        }
        FrameKind::Data => read_data(words, into),
        FrameKind::Nack => {
            *into = Frame::Nack(read_only_request(words)?);
            Ok(())
        }
        FrameKind::Ack => {
            *into = Frame::Ack(read_only_request(words)?);
            Ok(())
        }
        FrameKind::App => read_app(words, into),
    }
}

/// The request of a frame that has no other words.
#[inline]
fn read_only_request(words: &mut NextWords<'_>) -> Result<Request, Reason>
    ensures { result ≡ only_request words.old }
{
    let request = words.request()?;
    words.no_more()?;
    Ok(request)
}

/// `<request> <attempt> <octets>`.
fn read_data(words: &mut NextWords<'_>, into: &mut Frame) -> Result<(), Reason>
    ensures { placed result into.new ≡ data_frame words.old }
{
    let request = words.request()?;
    let attempt = words.attempt()?;
    *into = Frame::Content {
        request,
        attempt,
        octets: [0; OCTETS],
    };
    match into {
        Frame::Content { octets, .. } => {
            words.octets(octets)?;
            words.no_more()
        }
        _ => unreachable!(),
    }
}

/// `<request> positive|clear`.
fn read_app(words: &mut NextWords<'_>, into: &mut Frame) -> Result<(), Reason>
    ensures { placed result into.new ≡ app_frame words.old }
{
    let request = words.request()?;
    let answer = words.answer()?;
    *into = Frame::App { request, answer };
    words.no_more()
}
