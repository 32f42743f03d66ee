//! How the program ends.
ghost use Rattle.std.specs.Prelude.{◌≡◌};
ghost use Rattle.view_commands.specs.Endings.{ending_code, ending_of, worse};

use std::fmt::Display;
use view_lines::Answer;

/// How the program ends.
#[derive(Clone, Copy, Debug, PartialEq, Eq)]
pub enum Ending {
    /// All was told, and nothing of it was refused.
    Done,
    /// Something outside failed: a file, a read, a write, or memory.
    Failed,
    /// The words are none that the program takes, or a line was refused.
    Refused,
}

impl Ending {
    /// The exit status.
    pub fn code(self) -> u8
        ensures { result ≡ ending_code self }
    {
        match self {
            Ending::Done => 0,
            Ending::Failed => 1,
            Ending::Refused => 2,
        }
    }

    /// How two parts end together: a failure goes before a refusal.
    pub fn and(self, other: Ending) -> Ending
        ensures { result ≡ worse self other }
    {
        match self {
            Ending::Done => other,
            Ending::Failed => Ending::Failed,
            Ending::Refused => match other {
                Ending::Failed => Ending::Failed,
                Ending::Done | Ending::Refused => Ending::Refused,
            },
        }
    }
}

/// Tells on standard error what failed, and answers so. Where that can't be written, the exit status still says it.
pub fn complain(rt: &impl Eprint, what: &str, why: &impl Display) -> Ending
    ensures { result ≡ Ending.Failed }
{
    let _ = eprintln!(rt; "ecall_view: {what}: {why}");
    Ending::Failed
}

/// Says what an answer comes to, and on standard error why it isn't the whole of what was asked for.
pub fn tell_ending(rt: &impl Eprint, file: &str, answer: Answer, is_closed: bool) -> Ending
    ensures { result ≡ ending_of answer is_closed }
{
    match answer {
        Answer::Done => Ending::Done,
        Answer::SomeRefused => Ending::Refused,
        Answer::ReadFault => complain(rt, file, &"reading failed"),
        Answer::WriteFault if is_closed => Ending::Done,
        Answer::WriteFault => complain(rt, "standard output", &"writing failed"),
        Answer::Memory => complain(rt, file, &"out of memory"),
        Answer::TooLong => complain(rt, file, &"too many lines"),
    }
}
