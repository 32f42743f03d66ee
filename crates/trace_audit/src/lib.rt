//! The audit of a trace: whether what was written of both ends' calls is safe, said of its lines alone.
#![tactic(auto)]

mod audit_lines;
mod laws;
mod rules;
mod shown;
mod verdict;

pub use audit_lines::audit;
pub use laws::audit_laws;
pub use rules::Rules;
pub use trace_model::Rule;
pub use verdict::Verdict;
