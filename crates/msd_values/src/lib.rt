//! The values of a minimum set of data after EN 15722, in this project's formats 1 and 2, and their
//! description for people.
#![tactic(auto)]

mod additions;
mod date;
mod description;
mod extra;
mod format;
mod kind;
mod lines;
mod msd;
mod octets;
mod page;
mod remarks;
mod vin;

pub use date::instant_text;
pub use description::describe;
pub use format::Format;
pub use kind::{AddedKind, RootKind, VehicleKind};
pub use msd::{Delta, Extra, Marks, Msd};
pub use remarks::{Remarks, find_remarks};
pub use vin::{BadVin, Vin};
