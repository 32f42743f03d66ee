//! Both ends of a call as two processes over a link, and the law that joins their traces.
#![tactic(auto)]

mod answer;
mod closing;
mod fault;
mod gathering;
mod laws;
mod own_lines;
mod point_end;
mod point_run;
mod receiver;
mod running;
mod script_lines;
mod sending;
mod vehicle_end;
mod vehicle_front;
mod vehicle_run;
mod words;

pub use answer::{Link, Live, LiveStatus};
pub use laws::joint_is_safe;
pub use running::{live, live_point, live_vehicle};
pub use words::live_words;
