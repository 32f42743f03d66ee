//! The command `relay`: a script with a relay desk behind the point in, its trace out. This project's profile.
#![tactic(auto)]

mod laws;
mod play;

pub use laws::relay_laws;
pub use play::play_relay;
