//! Telling the lines of an input of any length, each with a set of data in hexadecimal, in JSON.
#![tactic(auto)]

mod telling;

pub use telling::tell_sets;
pub use view_lines::Answer;
