//! Frames of the data link and the items of a trace: what the two ends say to each other, and what an observer
//! of both of them sees.
#![tactic(auto)]

mod fault;
mod frame;
mod laws;
mod note;
mod number;
mod reader;
mod requests;
mod stage;
mod steps;
#[cfg(test)]
mod tests;
mod writing;

pub use fault::{Fault, FrameFault};
pub use frame::{Answer, End, Frame, FrameRef, OCTETS};
pub use laws::{frame_laws, limits};
pub use note::{Items, MOST_ITEMS, Note, Timer, Why, fill, items_of, no_items, put};
pub use number::{DialAttempt, Request};
pub use reader::Reader;
pub use requests::Requests;
pub use steps::Steps;
pub use writing::write;
