//! What the two ends of a live link tell each other in a round: messages of parts, as octets, written and read octet by
//! octet, without memory.
#![tactic(auto)]

mod fault;
mod item;
mod message_reader;
mod part;
mod part_reader;
#[cfg(test)]
mod tests;
mod writing;

pub use fault::{LinkFault, PartFault};
pub use item::part_of_item;
pub use message_reader::{MessageReader, Taking};
pub use part::Part;
pub use writing::{MESSAGE_END, SCRIPT_END, write_part};
