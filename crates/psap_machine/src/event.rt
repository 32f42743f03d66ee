//! What may happen at the point in one call.

use link_frames::{FrameRef, Why};

/// An event at the point's session.
#[derive(Clone, Copy, Debug, PartialEq, Eq)]
pub enum PointEvent<'a> {
    /// A frame was handed up by the link of this call.
    Frame(FrameRef<'a>),
    /// Something came that the link could not read.
    Damaged,
    /// The desk asks for another set.
    Request,
    /// The desk lets the vehicle go.
    Clear,
    /// The audio or the modem failed.
    Fault,
    /// The desk hangs up.
    Hangup,
    /// The call ended otherwise: the vehicle released it or hung up, or it was lost.
    Ended(Why),
    /// The point restarts, and loses this session.
    Reset,
}
