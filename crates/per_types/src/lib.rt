//! The kinds of ITU-T X.691, unaligned variant, that this project's profile uses: readers of one kind each
//! over a cursor, and the laws of the spellings that they read.
#![tactic(auto)]

mod index;
pub mod laws;
mod readers;
#[cfg(test)]
mod tests;
mod writers;

pub use index::EnumIndex;
pub use readers::enums::read_enum;
pub use readers::numbers::{
    read_bool, read_char, read_format, read_length, read_presence, read_small, read_whole,
};
pub use readers::sections::read_additions;
pub use readers::strings::{read_octets, read_oid, read_open};
pub use writers::{
    write_additions, write_bool, write_char, write_enum, write_format, write_length, write_octets,
    write_oid, write_presence, write_small, write_whole,
};
