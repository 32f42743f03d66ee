//! The command `floor`: a script of up to 64 vehicles at one point in, their trace out.
#![tactic(auto)]

mod laws;
mod listener;
mod play;
mod says;
mod stage;

pub use laws::floor_parts;
pub use listener::FloorTextOut;
pub use play::play_floor;
