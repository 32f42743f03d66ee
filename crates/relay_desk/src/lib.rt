//! The relay desk: a set of data that the point showed goes on to a second point, over a link that may lose, repeat and
//! reorder messages, and is shown there once. This project's profile.
#![tactic(auto)]

mod event;
mod pending;
mod relay;
mod sets;
mod turn;

pub use event::{RelayEvent, RelayNote};
pub use relay::Relay;
