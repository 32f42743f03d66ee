//! The codec and the two ends for C.
#![tactic(auto)]

mod decode;
mod encode;
mod facts;
mod flat;
mod frame;
mod frames;
mod message_reading;
mod messages;
mod place;
mod point;
mod reading;
mod seat;
mod ticks;
mod vehicle;
mod version;

pub use decode::ecall_decode;
pub use encode::{EcallEncoded, ecall_encode};
pub use facts::{EcallExtra, EcallFacts, ecall_make, ecall_spell};
pub use flat::{EcallDecoded, EcallPart, EcallRefusal, EcallSet, EcallWay};
pub use frame::{EcallFrame, EcallItem, EcallItems};
