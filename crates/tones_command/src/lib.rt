//! The command `tones`: a script whose `deliver` lines hand frames over through a modem on a noisy line.
#![tactic(auto)]

mod hearing;
mod laws;
mod modem;
mod noise;
mod sent;
mod tones;

pub use laws::{loss_laws, tones_laws};
pub use noise::{MOST_NOISE, Noise};
pub use tones::play_tones;
