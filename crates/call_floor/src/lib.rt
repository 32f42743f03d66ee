//! A floor of vehicles at one point, and the laws that keep them apart.
#![tactic(auto)]

mod elapse;
mod entry;
mod event;
mod fault;
mod floor;
mod laws;
mod lines;
mod listener;
mod live;
mod phases;
mod seat;
mod sleep;

pub use entry::FloorEntry;
pub use event::{CallLine, FloorEvent, MOST_VEHICLES, VehicleLine, VehicleNumber};
pub use fault::FloorFault;
pub use floor::Floor;
pub use laws::{first_floors_are_kept, numbers_are_names, vehicles_are_apart};
pub use listener::{FloorListener, Tagged};
