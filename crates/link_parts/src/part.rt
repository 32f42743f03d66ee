//! What the two ends of a live link tell each other.

use link_frames::Frame;

/// A part of a message, with the number of its call, which is 1 or more.
#[derive(Clone, Copy, Debug, PartialEq, Eq)]
pub enum Part {
    /// The vehicle dials.
    Dials,
    /// The point takes the call that the vehicle dialled, and this is its number.
    Answers(u32),
    /// The end left the call, and the other is to leave it too.
    Leaves(u32),
    /// The point calls the vehicle.
    Rings(u32),
    /// The vehicle takes the point's call.
    Takes(u32),
    /// A frame of a call.
    Carries(u32, Frame),
}
