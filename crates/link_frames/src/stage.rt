// How far a frame has come, octet by octet up to those of its set.
ghost use Rattle.std.specs.Prelude.{◌≡◌, ◌<◌, ℕ, List, true, IsTrue, ◌↔◌};
ghost use Rattle.link_frames.specs.Stages.{octet_of, fault_of, request_of, filled_of};
ghost use Rattle.link_frames.specs.inner.Coming.{is_in_head, is_stopped, Steps};

use crate::fault::{Fault, FrameFault};
use crate::frame::Answer;
use crate::number::Request;

/// The kinds of frames that have a request.
#[derive(Clone, Copy)]
pub enum Kind {
    Start,
    Content,
    Nack,
    Ack,
    App,
}

/// A whole frame, but for the octets of its set.
#[derive(Clone, Copy)]
pub enum Head {
    Init,
    Start(Request),
    Content { request: Request, attempt: u8 },
    Nack(Request),
    Ack(Request),
    App { request: Request, answer: Answer },
}

/// An octet with which no frame goes on, and what came of a frame before it.
#[derive(Clone, Copy)]
pub enum Stop {
    /// This octet as a kind.
    Kind(u8),
    /// A request 0 behind this kind.
    Number(Kind),
    /// This octet as an answer.
    Answer { request: Request, octet: u8 },
}

/// What is wrong with this octet, which stands in this place of a stream.
pub fn fault_of(stop: &Stop, place: u64) -> FrameFault
    ensures { result ≡ record { place = place; octet = octet_of stop.now; fault = fault_of stop.now } }
{
    match stop {
        Stop::Kind(octet) => FrameFault {
            place,
            octet: *octet,
            fault: Fault::Kind,
        },
        Stop::Number(_) => FrameFault {
            place,
            octet: 0,
            fault: Fault::Number,
        },
        Stop::Answer { octet, .. } => FrameFault {
            place,
            octet: *octet,
            fault: Fault::Answer,
        },
    }
}

/// What has come of the next frame.
#[derive(Clone, Copy)]
pub enum Stage {
    Nothing,
    /// Its kind.
    Kind(Kind),
    /// Its kind and the request, of a frame with a set.
    Content(Request),
    /// Its kind and the request, of a frame with an answer.
    App(Request),
    /// All in front of its set, and so many octets of this.
    Set {
        request: Request,
        attempt: u8,
        filled: usize,
    },
    /// All of it.
    Whole(Head),
    /// What comes is no frame.
    Stopped(Stop),
}

/// Whether the next octet is one of those in front of a set.
pub fn is_in_head(stage: &Stage) -> bool
    ensures { result ≡ is_in_head stage.now }
{
    match stage {
        Stage::Nothing | Stage::Kind(_) | Stage::Content(_) | Stage::App(_) => true,
        Stage::Set { .. } | Stage::Whole(_) | Stage::Stopped(_) => false,
    }
}

/// Whether what comes is no frame.
pub fn is_stopped(stage: &Stage) -> bool
    ensures { result ≡ is_stopped stage.now }
{
    matches!(stage, Stage::Stopped(_))
}

/// Behind the next octet of a head.
pub fn step(stage: &Stage, octet: u8) -> Stage
    requires head { is_in_head stage.now ≡ true }
    requires request { 0 < request_of stage.now }
    ensures steps { (set : List ℕ) → Steps set stage.now octet result }
    ensures request { 0 < request_of result }
    ensures filled { filled_of result < 140 }
{
    match stage {
        Stage::Nothing => behind_nothing(octet),
        Stage::Kind(kind) => behind_kind(*kind, octet),
        Stage::Content(request) => Stage::Set {
            request: *request,
            attempt: octet,
            filled: 0,
        },
        Stage::App(request) => behind_request(*request, octet),
        _ => unreachable!(),
    }
}

fn behind_nothing(octet: u8) -> Stage
    ensures steps { (set : List ℕ) → Steps set Stage.Nothing octet result }
    ensures request { 0 < request_of result }
    ensures filled { filled_of result < 140 }
{
    match octet {
        1 => Stage::Whole(Head::Init),
        2 => Stage::Kind(Kind::Start),
        3 => Stage::Kind(Kind::Content),
        4 => Stage::Kind(Kind::Nack),
        5 => Stage::Kind(Kind::Ack),
        6 => Stage::Kind(Kind::App),
        _ => Stage::Stopped(Stop::Kind(octet)),
    }
}

fn behind_kind(kind: Kind, octet: u8) -> Stage
    ensures steps { (set : List ℕ) → Steps set (Stage.Kind kind) octet result }
    ensures request { 0 < request_of result }
    ensures filled { filled_of result < 140 }
{
    let Some(request) = Request::new(octet) else {
        return Stage::Stopped(Stop::Number(kind));
    };
    match kind {
        Kind::Start => Stage::Whole(Head::Start(request)),
        Kind::Content => Stage::Content(request),
        Kind::Nack => Stage::Whole(Head::Nack(request)),
        Kind::Ack => Stage::Whole(Head::Ack(request)),
        Kind::App => Stage::App(request),
    }
}

fn behind_request(request: Request, octet: u8) -> Stage
    requires { 0 < request }
    ensures steps { (set : List ℕ) → Steps set (Stage.App request) octet result }
    ensures request { 0 < request_of result }
    ensures filled { filled_of result < 140 }
{
    match octet {
        1 => Stage::Whole(Head::App {
            request,
            answer: Answer::Positive,
        }),
        2 => Stage::Whole(Head::App {
            request,
            answer: Answer::Clear,
        }),
        _ => Stage::Stopped(Stop::Answer { request, octet }),
    }
}
