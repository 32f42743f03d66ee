//! Timers by rank for the two ends of a call. Time is handed in as ticks of 100 ms, and nothing reads a clock.
#![tactic(auto)]

#[cfg(test)]
mod tests;
mod timers;

pub use timers::{RANKS, Timers};
