//! The commands that play scripts, or read and write what is played: `run`, `register`, `replay`, `make` and `trial`.
#![tactic(auto)]

mod make;
mod register;
mod replay;
mod run;
mod trial;

pub use make::make_script;
pub use register::keep_register;
pub use replay::replay_trace;
pub use run::run_script;
pub use trial::try_script;
