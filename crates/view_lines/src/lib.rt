//! Telling an input of any length line by line, in text that other tools read, and what such texts have in common.
#![tactic(auto)]

mod answer;
mod judge;
mod line_teller;
mod pieces;
mod refused;
mod teller;
mod telling;

pub use answer::Answer;
pub use judge::{is_comment, line_fault};
pub use line_teller::LineTeller;
pub use pieces::put_all;
pub use refused::put_line_refusal;
pub use telling::tell_lines;
