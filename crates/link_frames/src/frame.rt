//! Frames between the two ends of a call. This project's profile: a frame is handed up whole or not at all.
ghost use Rattle.std.specs.Prelude.{◌≡◌};
ghost use Rattle.link_frames.specs.Frame.{lent};

use crate::number::Request;

/// How many octets the set of data in a frame has.
pub const OCTETS: usize = 140;

/// One of the two ends of a call: the in-vehicle system or the answering point.
#[derive(Clone, Copy, Debug, PartialEq, Eq)]
pub enum End {
    Vehicle,
    Point,
}

/// What the point says of a set on the application layer.
#[derive(Clone, Copy, Debug, PartialEq, Eq)]
pub enum Answer {
    Positive,
    Clear,
}

/// A frame. `Init` and `Content` go up, from the vehicle to the point; the others go down.
#[derive(Clone, Copy, Debug, PartialEq, Eq)]
pub enum Frame {
    /// The vehicle is there and has a set to send.
    Init,
    /// The point asks for a set.
    Start(Request),
    /// A set of data, in answer to a request; `attempt` counts its repeats from 0 and stays at 255.
    Content {
        request: Request,
        attempt: u8,
        octets: [u8; OCTETS],
    },
    /// What came for the request was damaged.
    Nack(Request),
    /// The set came.
    Ack(Request),
    /// The application acknowledgement.
    App {
        request: Request,
        answer: Answer,
    },
}

/// A frame that lends the octets of its set.
#[derive(Clone, Copy, Debug, PartialEq, Eq)]
pub enum FrameRef<'a> {
    Init,
    Start(Request),
    Content {
        request: Request,
        attempt: u8,
        octets: &'a [u8; OCTETS],
    },
    Nack(Request),
    Ack(Request),
    App {
        request: Request,
        answer: Answer,
    },
}

impl Frame {
    /// The same frame, with its octets lent.
    pub fn lend(&self) -> FrameRef<'_>
        ensures { lent result ≡ self.now }
    {
        match self {
            Frame::Init => FrameRef::Init,
            Frame::Start(request) => FrameRef::Start(*request),
            Frame::Content {
                request,
                attempt,
                octets,
            } => FrameRef::Content {
                request: *request,
                attempt: *attempt,
                octets,
            },
            Frame::Nack(request) => FrameRef::Nack(*request),
            Frame::Ack(request) => FrameRef::Ack(*request),
            Frame::App { request, answer } => FrameRef::App {
                request: *request,
                answer: *answer,
            },
        }
    }
}

impl FrameRef<'_> {
    /// The same frame, with octets of its own.
    pub fn own(self) -> Frame
        ensures { result ≡ lent self.entry }
    {
        match self {
            FrameRef::Init => Frame::Init,
            FrameRef::Start(request) => Frame::Start(request),
            FrameRef::Content {
                request,
                attempt,
                octets,
            } => Frame::Content {
                request,
                attempt,
                octets: *octets,
            },
            FrameRef::Nack(request) => Frame::Nack(request),
            FrameRef::Ack(request) => Frame::Ack(request),
            FrameRef::App { request, answer } => Frame::App { request, answer },
        }
    }
}
