//! How a call ended.

ghost use Rattle.std.specs.Prelude.{◌≡◌};
ghost use Rattle.command_base.specs.Status.{status_code};

use crate::refusal::Refused;
use trace_model::Rule;

/// How a call of `ecall` ended. The program's exit status is its number.
#[derive(Clone, Copy, Debug, PartialEq, Eq)]
pub enum Status {
    /// The command is finished, and its input was read to the end.
    Done,
    /// The words are no form of words.
    Usage,
    /// A line of the input is refused, and why. It is the first such.
    Refused(Refused),
    /// A trace that is audited breaks a rule: its first line that does, by its number from 1, and the lowest rule that
    /// it breaks.
    Broken { line: u32, rule: Rule },
    /// A read failed.
    ReadFault,
    /// A write failed.
    WriteFault,
    /// There was no memory.
    Memory,
    /// The input has more than 16,777,216 bytes.
    TooLong,
}

impl Status {
    /// Its number, 0 to 7.
    pub fn code(&self) -> u8
        ensures { result ≡ status_code self.now }
    {
        match self {
            Status::Done => 0,
            Status::Usage => 1,
            Status::Refused(_) => 2,
            Status::Broken { .. } => 3,
            Status::ReadFault => 4,
            Status::WriteFault => 5,
            Status::Memory => 6,
            Status::TooLong => 7,
        }
    }
}
