//! What a person is told of a line that is refused, or that breaks a rule: which word it is and what may stand there,
//! or which end and call. It is found by a second look at the line, behind the call that judged it.
#![tactic(auto)]

mod breaks;
mod choices;
mod count;
mod entry_words;
mod form;
mod input;
mod legs;
mod look;
mod misfit;
mod parts;
mod reasons;
mod seen;
mod sentence;
mod shown;
mod slot;
mod slot_fault;
mod tables;
mod wanting;
mod watch;

pub use breaks::BreakSentence;
pub use input::Input;
pub use misfit::{Misfit, first_misfit};
pub use seen::{Numbered, Seen};
pub use sentence::LineSentence;
pub use watch::Watch;
