//! The dial series of the vehicle: attempts to dial, pauses between them and the wait for the network, within a window
//! of time. After EN 16072; the ticks and the number of attempts are this project's profile.
#![tactic(auto)]

mod redial;
mod series;

pub use redial::Redial;
pub use series::{LONGEST_ATTEMPT, MOST_ATTEMPTS, Next, PAUSE, Turn, WINDOW};
