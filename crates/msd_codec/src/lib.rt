//! The set of data of formats 1 and 2, read and written: octets by this project's profile of ITU-T X.691,
//! unaligned variant, values after EN 15722.
#![tactic(auto)]

mod formats;
mod laws;
mod reading;
mod writing;

pub use laws::spelling_laws;
pub use reading::decode;
pub use writing::{TooLong, encode, encoded_bits, extra_bits};
