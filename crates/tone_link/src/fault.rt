//! Samples that are no frame.

use thiserror::Error;

/// Why samples are no frame, in the order in which it is judged. This project's own modem.
#[derive(Clone, Copy, Debug, PartialEq, Eq, Error)]
pub enum ToneFault {
    /// Their number is 0, no multiple of 64 or above 9152. It is told up to 9153.
    #[error("{samples} samples are no block")]
    Size { samples: u32 },
    /// A bit, counted from 0, whose sum lies between -4000 and 4000; the first such.
    #[error("bit {bit} has the sum {sum}, which says neither 1 nor 0")]
    Unsure { bit: u32, sum: i32 },
    /// The octets, 1 to 143, aren't one whole frame.
    #[error("{octets} octets are not one whole frame")]
    NotFrame { octets: u8 },
}
