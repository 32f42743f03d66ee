//! The object in JSON that is told of a line with a set of data in hexadecimal.
#![tactic(auto)]

mod additions;
mod bad;
mod degrees;
mod line;
mod object;
mod place;
mod text;
mod vehicle;

pub use line::put_line;
