//! The answering point's session of one call: what it does at each call event, frame and tick.
#![tactic(auto)]

mod event;
mod laws;
mod session;

pub use event::PointEvent;
pub use laws::rows_owe;
pub use session::Session;
