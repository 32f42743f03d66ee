//! The voice at one end of a call, which is open or muted in both directions at once, and never muted for longer than
//! a limit. After EN 16062; the sums of ticks are this project's profile.
#![tactic(auto)]

mod switch;

pub use switch::{Switch, Voice};
