//! The register of a trace: each call that came up at the point, with the sets that the point showed in it.
#![tactic(auto)]

mod laws;
mod record;
mod register;
mod text;

pub use laws::register_laws;
pub use register::Register;
