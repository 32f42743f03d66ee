//! What may happen at the vehicle.

use link_frames::FrameRef;
use msd_fit::Cause;

/// An event at the vehicle.
#[derive(Clone, Copy, Debug, PartialEq, Eq)]
pub enum VehicleEvent<'a> {
    /// A call is to be placed.
    Trigger(Cause),
    /// The person who triggered a call takes it back.
    Cancel,
    /// The network is there, or is gone.
    Net(bool),
    /// The point took the call that is dialled; this is its number.
    Answered(u32),
    /// The attempt to dial failed.
    Failed,
    /// The point calls; this is the call's number.
    Incoming(u32),
    /// The vehicle is to leave its standby.
    Sleep,
    /// The audio or the modem failed.
    Fault,
    /// The point hung up.
    Hangup,
    /// The call was lost.
    Lost,
    /// A frame was handed up by the link of the present call.
    Frame(FrameRef<'a>),
    /// The vehicle restarts, and loses its state.
    Reset,
}
