//! Reporting on a trace of any length: every line by which it breaks a rule, and what its calls came to.
#![tactic(auto)]

mod break_text;
mod breaks;
mod call;
mod call_text;
mod calls;
mod fields;
mod handled;
mod laws;
mod limits;
mod manner;
mod put_breaks;
mod put_rows;
mod queue;
mod report;
mod set_text;
mod sets;
mod side;
mod stretch;
mod telling;
mod times;
mod watch;

pub use laws::report_laws;
pub use manner::{Layout, Manner};
pub use telling::report_trace;
pub use view_lines::Answer;
