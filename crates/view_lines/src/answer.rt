//! How telling an input ended.

/// How telling an input ended.
#[derive(Clone, Copy, Debug, PartialEq, Eq)]
pub enum Answer {
    /// The whole input was told, and nothing in it is refused.
    Done,
    /// The whole input was told, and something in it is refused.
    SomeRefused,
    /// A read failed.
    ReadFault,
    /// A write failed.
    WriteFault,
    /// There was no memory.
    Memory,
    /// The input has as many lines as a number counts, 2^64 - 1, and more bytes.
    TooLong,
}
