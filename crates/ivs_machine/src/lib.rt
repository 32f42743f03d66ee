//! The in-vehicle system: what it does at each trigger, call event, frame and tick.
#![tactic(auto)]

mod event;
mod laws;
mod vehicle;

pub use event::VehicleEvent;
pub use laws::rows_owe;
pub use vehicle::Ivs;
