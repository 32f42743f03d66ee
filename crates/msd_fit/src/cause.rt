//! Why a call is placed.

/// What triggered a call, after EN 16072.
#[derive(Clone, Copy, Debug, PartialEq, Eq)]
pub enum Cause {
    /// A sensor of the vehicle.
    Auto,
    /// A person.
    Manual,
    /// A test of the system.
    Test,
}
