//! Which set an item is about.
ghost use Rattle.std.specs.Prelude.{◌≡◌};
ghost use Rattle.view_reports.specs.Sets.{carried, handled_by, handling};

use crate::times::Step;
use link_frames::{Frame, Note, OCTETS, Request};

/// A set of a call: the call, the request that it is for, and its octets.
#[derive(Clone, Copy, PartialEq, Eq, Hash)]
pub(crate) struct SetOf {
    pub(crate) call: u32,
    pub(crate) request: u8,
    pub(crate) octets: [u8; OCTETS],
}

/// A set, and what is done with it.
#[derive(Clone, Copy)]
pub(crate) struct Handled {
    pub(crate) set: SetOf,
    pub(crate) step: Step,
}

/// A set of a call, and what is done with it.
fn handling(call: u32, request: Request, octets: &[u8; OCTETS], step: Step) -> Handled
    ensures { result ≡ handling call request octets.now step }
{
    let set = SetOf {
        call,
        request: request.number(),
        octets: *octets,
    };
    Handled { set, step }
}

/// The set that a frame carries.
fn carried(call: u32, frame: &Frame) -> Option<Handled>
    ensures { result ≡ carried call frame.now }
{
    match frame {
        Frame::Content {
            request,
            octets,
            ..
        } => Some(handling(call, *request, octets, Step::Sent)),
        _ => None,
    }
}

/// The set that an item sends, shows or acknowledges.
pub(crate) fn handled_by(note: &Note) -> Option<Handled>
    ensures { result ≡ handled_by note.now }
{
    match note {
        Note::Send { call, frame, .. } => carried(*call, frame),
        Note::Shown {
            call,
            request,
            octets,
        } => Some(handling(*call, *request, octets, Step::Shown)),
        Note::Acked {
            call,
            request,
            octets,
        } => Some(handling(*call, *request, octets, Step::Acked)),
        _ => None,
    }
}
