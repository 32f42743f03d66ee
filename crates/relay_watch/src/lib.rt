//! The relay desk that follows a trace: the entries of the world are written as they come, and between them, each at its
//! tick, the items of the desk. This project's profile.
#![tactic(auto)]

mod clock;
mod watch;

pub use clock::DeskClock;
pub use watch::Watch;
