//! What the commands of `ecall` have in common: how a call ends, the line that refuses an input, what an answer says of
//! the bytes that were taken and written, and the one loop that carries out a command over lines.
#![tactic(auto)]

mod lines;
mod reading;
mod refusal;
mod status;

pub use lines::{LineCommand, carry_out_lines};
pub use refusal::{Refused, refuse, refuse_line};
pub use status::Status;
