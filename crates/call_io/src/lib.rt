// The two traits of the outside, `Source` and `Sink`, with sources and sinks over memory and over
// std's readers and writers.
#![tactic(auto)]

mod block;
mod calm;
mod copy;
mod mem_sink;
mod mem_source;
mod plan;
mod real;
mod sink;
mod source;
#[cfg(test)]
mod tests;

pub use block::Block;
pub use calm::{CalmSink, CalmSource};
pub use mem_sink::MemSink;
pub use mem_source::MemSource;
pub use real::{RealSink, RealSource};
pub use sink::{Sink, write_all};
pub use source::Source;
use thiserror::Error;

/// A read or a write failed. The count of faults of its source or sink rose.
#[derive(Debug, Clone, Copy, PartialEq, Eq, Error)]
#[error("reading or writing failed")]
pub struct Failed;

/// There was no memory.
#[derive(Debug, Clone, Copy, PartialEq, Eq, Error)]
#[error("out of memory")]
pub struct Memory;
