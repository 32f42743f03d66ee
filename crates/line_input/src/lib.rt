//! The lines of a source of bytes, their words and their numbers, and why a line is refused.
#![tactic(auto)]

mod block;
mod bytes;
mod fault;
mod gather;
mod kind;
mod line;
mod lines;
mod numbers;
mod push;
mod reader;
mod reason;
mod words;

pub use bytes::Bytes;
pub use fault::LineFault;
pub use line::Line;
pub use lines::Lines;
pub use numbers::{read_positive_u8, read_positive_u32, read_signed, read_u8, read_u32, read_u64};
pub use push::{push_bytes, push_number, push_word};
pub use reason::{BadLine, Reason};
pub use words::{is_word, only_argument, only_word, split_word, three_arguments, two_arguments};
