//! The texts of a floor of vehicles: lines of its script, and lines of its trace, with a vehicle's number in front.
#![tactic(auto)]

mod drafts;
mod line;
mod vehicle;
mod write;

pub use drafts::Drafts;
pub use line::{NumberedLine, read_floor_line};
pub use write::write_floor_entry;
