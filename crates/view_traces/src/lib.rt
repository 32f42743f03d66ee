//! Telling the entries of a trace of any length in JSON.
#![tactic(auto)]

mod entry;
mod frame;
mod judge;
mod note;
mod pieces;
mod telling;
mod words;

pub use judge::judge_line;
pub use telling::tell_trace;
pub use view_lines::Answer;
pub use words::{end_word, why_word};
