//! What the vehicle knows of itself, and the set of data of at most 140 octets that it makes of it: values after
//! EN 15722, causes after EN 16072; the rule of what fits is this project's profile.
#![tactic(auto)]

mod candidate;
mod cause;
mod facts;
mod fitting;
mod octets;

pub use candidate::{Candidate, MOST_TOGETHER};
pub use cause::Cause;
pub use facts::{Facts, MOST_CANDIDATES, OwnFacts};
pub use fitting::{MOST_OCTETS, make, spell};
