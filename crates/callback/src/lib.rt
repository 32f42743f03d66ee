//! The standby of the vehicle after a call, in which the answering point may call it back. After EN 16072; the ticks
//! are this project's profile.
#![tactic(auto)]

mod rest;

pub use rest::{LEAST_STANDBY, LONGEST_STANDBY, Rest};
