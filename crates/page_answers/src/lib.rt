//! What a page is answered: a command, carried out over the room that the page lends.
#![tactic(auto)]

mod command;
mod command_words;
mod in_place;

pub use command::answer_command;
pub use command_words::answer_words;
