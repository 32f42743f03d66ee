//! The room that a page lends: its input as a source, a sink for the answer, and the reply that goes back.
#![tactic(auto)]

mod outlet;
mod supply;

pub use outlet::{Outlet, PageReply, ROOM};
pub use supply::Supply;
