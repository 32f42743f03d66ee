//! A fixed-point modem: the bits of a frame as samples, and frames read from samples that noise has changed.
#![tactic(auto)]

mod fault;
mod laws;
mod reading;
mod sums;
#[cfg(test)]
mod tests;
mod writing;

pub use fault::ToneFault;
pub use laws::frame_laws;
pub use reading::tone_read;
pub use sums::bit_sum;
pub use writing::{MOST_SAMPLES, rewrite_tones, tone_write};
