//! Frames as they are kept: one copy of a set serves all frames that carry it.

ghost use Rattle.std.specs.Prelude.{◌≡◌, IfOk};
ghost use Rattle.link_frames.specs.Frame.{lent};
ghost use Rattle.channel_sim.specs.Handing.{full};

use link_frames::{Answer, Frame, FrameRef, OCTETS, Request};
use std::alloc::{AllocError, Global};
use std::rc::Rc;

/// A frame whose set is shared.
#[derive(Drop)]
pub enum KeptFrame {
    Init,
    Start(Request),
    Content {
        request: Request,
        attempt: u8,
        octets: Rc<[u8; OCTETS]>,
    },
    Nack(Request),
    Ack(Request),
    App {
        request: Request,
        answer: Answer,
    },
}

impl KeptFrame {
    /// The frame, with its octets lent.
    pub fn lend(&self) -> FrameRef<'_>
        ensures { lent result ≡ full self.now }
    {
        match self {
            KeptFrame::Init => FrameRef::Init,
            KeptFrame::Start(request) => FrameRef::Start(*request),
            KeptFrame::Content {
                request,
                attempt,
                octets,
            } => FrameRef::Content {
                request: *request,
                attempt: *attempt,
                octets: octets.as_ref(),
            },
            KeptFrame::Nack(request) => FrameRef::Nack(*request),
            KeptFrame::Ack(request) => FrameRef::Ack(*request),
            KeptFrame::App { request, answer } => FrameRef::App {
                request: *request,
                answer: *answer,
            },
        }
    }

    /// The same frame, which shares the set.
    pub(crate) fn share(&self) -> Result<KeptFrame, AllocError>
        ensures { IfOk result (λ kept. full kept ≡ full self.now) }
    {
        match self {
            KeptFrame::Init => Ok(KeptFrame::Init),
            KeptFrame::Start(request) => Ok(KeptFrame::Start(*request)),
            KeptFrame::Content {
                request,
                attempt,
                octets,
            } => Ok(KeptFrame::Content {
                request: *request,
                attempt: *attempt,
                octets: octets.clone()?,
            }),
            KeptFrame::Nack(request) => Ok(KeptFrame::Nack(*request)),
            KeptFrame::Ack(request) => Ok(KeptFrame::Ack(*request)),
            KeptFrame::App { request, answer } => Ok(KeptFrame::App {
                request: *request,
                answer: *answer,
            }),
        }
    }
}

/// A frame to keep. Its set is the last one kept, where it is the same, and else becomes that.
pub(crate) fn kept_frame(
    last: &mut Option<Rc<[u8; OCTETS]>>,
    alloc: Global,
    frame: &Frame,
) -> Result<KeptFrame, AllocError>
    ensures { IfOk result (λ kept. full kept ≡ frame.now) }
{
    match frame {
        Frame::Init => Ok(KeptFrame::Init),
        Frame::Start(request) => Ok(KeptFrame::Start(*request)),
        Frame::Content {
            request,
            attempt,
            octets,
        } => Ok(KeptFrame::Content {
            request: *request,
            attempt: *attempt,
            octets: shared_set(last, alloc, octets)?,
        }),
        Frame::Nack(request) => Ok(KeptFrame::Nack(*request)),
        Frame::Ack(request) => Ok(KeptFrame::Ack(*request)),
        Frame::App { request, answer } => Ok(KeptFrame::App {
            request: *request,
            answer: *answer,
        }),
    }
}

/// A set to share: the last one kept, where it is the same, and else a copy, which becomes that.
fn shared_set(
    last: &mut Option<Rc<[u8; OCTETS]>>,
    alloc: Global,
    octets: &[u8; OCTETS],
) -> Result<Rc<[u8; OCTETS]>, AllocError>
    ensures { IfOk result (λ set. set.value ≡ octets.now) }
{
    if let Some(set) = last {
        if **set == *octets {
            return set.clone();
        }
    }
    let set = Rc::new(alloc, *octets)?;
    *last = Some(set.clone()?);
    Ok(set)
}
