//! Bits of borrowed octets, the strings of unaligned PER that stand in them, and a buffer to write
//! them into. Places and lengths are in bits, most significant bit first.
#![tactic(auto)]

pub mod laws;
mod numbers;
mod parts;
mod reading;
mod refusals;
mod sections;
mod strings;
mod writing;

pub use parts::Bits;
pub use reading::{Cursor, Short};
pub use refusals::{Reason, Refusal};
pub use sections::{Additions, AdditionsIter};
pub use strings::{Octs, Oid};
pub use writing::{BitBuf, Full, ROOM_BITS};
