//! Traces that fit the ends that they are of: what ties the entries so far to both ends' seats in their calls, and that a
//! row which owes what it must keeps it. It knows no world: neither how frames go between the ends nor in which order
//! the ends act.
#![tactic(auto)]

mod telling;

pub use telling::tell;
