//! The texts of a relay desk: its lines in a script, and those of its items in a trace. This project's profile.
#![tactic(auto)]

mod item_text;
mod line;

pub use item_text::write_item;
pub use line::{RelayLine, RelayOrder, read_relay_line};
