//! The commands of `ecall_view`: the words that it takes, what it tells of an input, and how it ends.
#![tactic(auto)]

mod ending;
mod manner;
mod pipe;
mod program;
mod subject;

pub use ending::{Ending, complain, tell_ending};
pub use manner::manner_of;
pub use pipe::PipeWriter;
pub use program::{FILES, REPORT, SETS, TRACE, command_line};
pub use subject::{Subject, tell_input};
