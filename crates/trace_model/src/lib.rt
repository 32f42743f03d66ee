//! The trace as entries: what a script has happen, what both ends give, who hears of it, and what makes a trace safe.
#![tactic(auto)]

mod entry;
mod event;
mod kept;
mod laws;
mod legs;
mod listener;
mod moved;
mod rule;
mod tally;
mod voice;

pub use entry::Entry;
pub use event::{Delay, Event, LONGEST_DELAY, Positive};
pub use kept::Kept;
pub use laws::safe_traces;
pub use legs::Legs;
pub use listener::{Deaf, Listener};
pub use moved::{LegOf, leg_of};
pub use rule::Rule;
pub use tally::Tally;
pub use voice::Voice;
