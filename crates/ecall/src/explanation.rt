//! What a person is told of how a call ended.

use ecall_top::{Refused, Status};
use line_help::{BreakSentence, Input, LineSentence, Seen};
use line_input::BadLine;
use link_frames::{Fault, FrameFault};
use per_bits::{Reason as SetReason, Refusal};
use std::fmt;
use trace_audit::Rule;

/// Why a call didn't end with status 0: what was wrong, where, and what helps. It is written as a part of one sentence.
#[derive(Clone, Copy, Debug)]
pub struct Explanation<'a> {
    pub status: Status,
    /// The first of the words that the call was given, if it was given any.
    pub word: Option<&'a str>,
    /// The end of what was read.
    pub seen: Seen<'a>,
}

impl fmt::Display for Explanation<'_> {
    fn fmt<W: fmt::Write>(&self, f: &mut fmt::Formatter<W>) -> fmt::Result {
        match self.status {
            Status::Done => write!(f, "all is done"),
            Status::Usage => write_usage(f, self.word),
            Status::Refused(Refused::Line(bad)) => write_line(f, bad, self.word, self.seen),
            Status::Refused(Refused::Set { line, refusal }) => write_set(f, line, refusal),
            Status::Refused(Refused::Frame { line, fault }) => write_frame(f, line, fault),
            Status::Broken { line, rule } => write_broken(f, line, rule, self.seen),
            Status::ReadFault => write_read_fault(f, self.seen),
            Status::WriteFault => write!(f, "writing failed; {BEGINNING}"),
            Status::Memory => write!(f, "no memory was left; {BEGINNING}"),
            Status::TooLong => write!(
                f,
                "the input has more than 16,777,216 bytes; {BEGINNING}; `split -l 50000` cuts it into parts"
            ),
        }
    }
}

/// What holds of all that was written where the answer was cut short.
const BEGINNING: &str = "what was written is the beginning of an answer";

/// What the commands do, one a line.
const COMMANDS: &str = "\
  ecall run < SCRIPT         plays a script, and writes its trace\n  \
  ecall register < SCRIPT    plays a script, and writes the register of its calls\n  \
  ecall replay < TRACE       says whether a trace is safe, and which line breaks which rule\n  \
  ecall decode < SETS        describes sets of data, one a line in hexadecimal\n  \
  ecall encode < FACTS       makes the sets that `write` lines ask for\n  \
  ecall frames < PIECES      writes the frames of a stream, in pieces of hexadecimal\n  \
  ecall tones L N < SCRIPT   plays a script over a noisy modem\n  \
  ecall floor < SCRIPT       plays a script of vehicles at one point\n  \
  ecall relay < SCRIPT       plays a script with a relay desk behind the point\n  \
  ecall point P < SCRIPT     runs a point's end of a live call: it listens at port P, and takes one vehicle\n  \
  ecall vehicle P < SCRIPT   runs a vehicle's end of it: it connects to the point at port P\n  \
  ecall make N               writes the script of a number\n  \
  ecall trial N              counts what that script comes to\n  \
  ecall conform              writes the answers to known vectors";

/// Why the words are no form of words.
fn write_usage<W: fmt::Write>(f: &mut fmt::Formatter<W>, word: Option<&str>) -> fmt::Result {
    match word {
        None => write!(f, "no command was given:\n  {COMMANDS}"),
        Some(word) => match word {
            "make" | "trial" => write!(
                f,
                "`{word}` wants one number, 0 to 4294967295 without leading zeros, as in `ecall {word} 0`"
            ),
            "tones" => write!(
                f,
                "`tones` wants two numbers, 0 to 1499 and 0 to 4294967295 without leading zeros, as in \
                `ecall tones 500 1 < SCRIPT`"
            ),
            "point" | "vehicle" => write!(
                f,
                "`{word}` wants one port, 1 to 65535 without leading zeros, as in `ecall {word} 4000 < SCRIPT`"
            ),
            "run" | "register" | "replay" | "decode" | "encode" | "frames" | "floor" | "relay" =>
                write!(
                    f,
                    "`{word}` takes no further words: it reads standard input, as in `ecall {word} < FILE`"
                ),
            "conform" => write!(f, "`conform` takes no further words"),
            _ => write!(f, "`{word}` is no command:\n  {COMMANDS}"),
        },
    }
}

/// Why a line is refused, of what the command reads.
fn write_line<W: fmt::Write>(
    f: &mut fmt::Formatter<W>,
    bad: BadLine,
    word: Option<&str>,
    seen: Seen<'_>,
) -> fmt::Result {
    let input = match word {
        Some(word) => Input::of_command(word),
        None => None,
    };
    let sentence = LineSentence { bad, input, seen };
    write!(f, "{sentence}")
}

/// Which rule a line of a trace breaks.
fn write_broken<W: fmt::Write>(
    f: &mut fmt::Formatter<W>,
    line: u32,
    rule: Rule,
    seen: Seen<'_>,
) -> fmt::Result {
    let sentence = BreakSentence { line, rule, seen };
    write!(f, "{sentence}")
}

/// That reading failed. Where nothing was read, nothing was written.
fn write_read_fault<W: fmt::Write>(f: &mut fmt::Formatter<W>, seen: Seen<'_>) -> fmt::Result {
    if seen.is_empty() {
        write!(
            f,
            "standard input can't be read, as where it is a directory; nothing was written"
        )
    } else {
        let line = seen.last_line();
        write!(f, "reading failed in line {line}; {BEGINNING}")
    }
}

fn write_set<W: fmt::Write>(f: &mut fmt::Formatter<W>, line: u32, refusal: Refusal) -> fmt::Result {
    write!(f, "line {line}: no set of data: ")?;
    write_set_fault(f, refusal.reason, refusal.value)?;
    if !matches!(refusal.reason, SetReason::Size) {
        let bit = refusal.place;
        write!(f, ", at bit {bit} from 0")?;
    }
    let code = refusal.reason.code();
    write!(f, " (reason {code})")
}

/// With which octet no frame goes on, and where it stands.
fn write_frame<W: fmt::Write>(
    f: &mut fmt::Formatter<W>,
    line: u32,
    fault: FrameFault,
) -> fmt::Result {
    let place = fault.place;
    let octet = fault.octet;
    let wrong = frame_fault(fault.fault);
    let code = fault.fault.code();
    write!(
        f,
        "line {line}: no frame goes on with the octet {octet} at place {place} of the stream from 0, {wrong} (fault {code})"
    )
}

/// What is wrong with that octet.
fn frame_fault(fault: Fault) -> &'static str {
    match fault {
        Fault::Kind => "which is no kind from 1 to 6",
        Fault::Number => "where a request is 1 or more",
        Fault::Answer => "where an answer is 1 or 2",
    }
}

/// What stands at the place of a refusal, as far as its value says it.
fn write_set_fault<W: fmt::Write>(
    f: &mut fmt::Formatter<W>,
    reason: SetReason,
    value: u64,
) -> fmt::Result {
    match reason {
        SetReason::Short => write!(f, "too few bits are left ({value} wanted)"),
        SetReason::OutOfRange => write!(f, "the number {value}, which is above its range"),
        SetReason::LongLength => write!(
            f,
            "a length whose eight bits begin with 1 and read {value}"
        ),
        SetReason::SmallLarge => {
            write!(
                f,
                "a small number whose seven bits begin with 1 and read {value}"
            )
        }
        SetReason::NoAddition if value == 1 => {
            write!(f, "a section of one addition, which isn't present")
        }
        SetReason::NoAddition => write!(f, "a section of {value} additions, none of them present"),
        SetReason::EmptyOpen => write!(f, "an addition without octets"),
        SetReason::BadOid if value == 0 => write!(f, "an object identifier without octets"),
        SetReason::BadOid => write!(f, "an octet {value} that no object identifier has there"),
        SetReason::Version => write!(f, "the format {value}, where 1 and 2 are the only ones"),
        SetReason::PadBits => write!(f, "a bit 1 where zero bits fill the last octet"),
        SetReason::Trailing => write!(f, "an octet {value} behind the set, where each has to be 0"),
        SetReason::Size if value == 0 => write!(f, "there are no octets"),
        SetReason::Size => write!(f, "there are more than 140 octets"),
    }
}
