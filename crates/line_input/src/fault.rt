//! Why there is no further line.

use crate::reason::BadLine;
use thiserror::Error;

/// Why a reader of lines gives no further line, though the input may go on.
#[derive(Clone, Copy, Debug, PartialEq, Eq, Error)]
pub enum LineFault {
    /// A line is too long, or has a byte that may not stand in a line.
    #[error("a line is refused")]
    Bad(BadLine),
    /// The source failed.
    #[error("reading failed")]
    ReadFault,
    /// The input has more than 16,777,216 bytes.
    #[error("the input is too long")]
    TooLong,
}
