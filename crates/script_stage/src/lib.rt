//! What a script that is being played has come to: its facts, and from the first event line on its world. What all commands
//! share that play a script.
#![tactic(auto)]

mod stage;

pub use stage::{Halt, Stage, play};
