//! What an audit answers.

use line_input::BadLine;
use trace_model::Rule;

/// What an audit says of a trace.
#[derive(Clone, Copy, Debug, PartialEq, Eq)]
pub enum Verdict {
    /// Every line is an entry, ticks never fall, and no rule is broken. `items` counts the entries.
    Sound { items: u64 },
    /// The first line that breaks a rule, by its number from 1, and the lowest rule that it breaks.
    Broken { line: u32, rule: Rule },
    /// The first line that is no entry, or whose tick is below that of the entry before.
    Bad(BadLine),
    /// The source failed.
    ReadFault,
    /// The input has more than 16,777,216 bytes.
    TooLong,
    /// There was no memory.
    Memory,
}
