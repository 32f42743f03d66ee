//! The commands about sets of data and frames: `decode`, `encode`, `frames` and `conform`.
#![tactic(auto)]

mod conform;
mod decode;
mod encode;
mod frames;

pub use conform::write_vectors;
pub use decode::decode_sets;
pub use encode::encode_sets;
pub use frames::read_frames;
