//! The world: a vehicle, the point's sessions, and the simulated channel between them.
#![tactic(auto)]

mod calls;
mod channel;
mod consequence;
mod fault;
mod happening;
mod kept;
mod laws;
mod phases;
mod play;
mod quiet;
mod room;
mod sends;
mod telling;
mod vehicle;
mod world;

pub use calls::Due;
pub use fault::SimFault;
pub use kept::KeptFrame;
pub use laws::{fitting_worlds, traces_are_safe};
pub use play::Play;
pub use sends::Sends;
pub use world::World;
