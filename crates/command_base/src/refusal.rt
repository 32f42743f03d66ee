//! Why a command refuses its input, the line that says so, and how a command ends with it.

ghost use Rattle.std.specs.Prelude.{◌≡◌, ◌≤◌};
ghost use Rattle.call_io.specs.Ways.{Onward};
ghost use Rattle.command_base.specs.Outcome.{WriteCause};
ghost use Rattle.command_base.specs.Refusals.{refusal_line};
ghost use Rattle.command_base.specs.Ends.{EndsWithText};
ghost use Rattle.command_base.specs.inner.ReadEnds.{FailsWith};
ghost use Rattle.command_base.specs.declared.refusal.Refused.TheVariants as refused;

use crate::status::Status;
use arrayvec::ArrayVec;
use call_io::{Sink, write_all};
use line_input::{BadLine, LineFault, Reason, push_number, push_word};
use link_frames::FrameFault;
use per_bits::Refusal;

/// Why a command refuses its input.
#[derive(Clone, Copy, Debug, PartialEq, Eq)]
pub enum Refused {
    /// A line is refused.
    Line(BadLine),
    /// The octets of the line of this number, from 1, are no set.
    Set { line: u32, refusal: Refusal },
    /// No frame goes on with an octet of the line of this number, from 1.
    Frame { line: u32, fault: FrameFault },
}

/// The most octets that a refusal has: two words, four numbers, and what stands between and behind them.
const LONGEST_REFUSAL: usize = 64;

/// A refusal that is being built.
type RefusalText = ArrayVec<u8, LONGEST_REFUSAL>;

/// The line that refuses a line.
fn line_refusal_text(bad: &BadLine) -> RefusalText
    ensures { result.items ≡ refusal_line (refused.Line bad.now) }
{
    let mut line = ArrayVec::new();
    line.try_extend_from_slice(b"refused").unwrap();
    push_number(&mut line, bad.line);
    push_number(&mut line, bad.reason.code());
    line.push(b'\n');
    line
}

/// The line that refuses the set of the line of this number.
fn set_refusal_text(number: u32, refusal: &Refusal) -> RefusalText
    ensures { result.items ≡ refusal_line (refused.Set number refusal.now) }
{
    let mut line = ArrayVec::new();
    line.try_extend_from_slice(b"refused").unwrap();
    push_number(&mut line, number);
    push_word(&mut line, "set");
    push_number(&mut line, refusal.place);
    push_number(&mut line, refusal.reason.code());
    push_number(&mut line, refusal.value);
    line.push(b'\n');
    line
}

/// The line that refuses an octet of the line of this number, with which no frame goes on.
fn frame_refusal_text(number: u32, fault: &FrameFault) -> RefusalText
    ensures { result.items ≡ refusal_line (refused.Frame number fault.now) }
{
    let mut line = ArrayVec::new();
    line.try_extend_from_slice(b"refused").unwrap();
    push_number(&mut line, number);
    push_word(&mut line, "frame");
    push_number(&mut line, fault.place);
    push_number(&mut line, fault.fault.code());
    push_number(&mut line, fault.octet);
    line.push(b'\n');
    line
}

/// The line that says why.
fn refusal_text(why: &Refused) -> RefusalText
    ensures { result.items ≡ refusal_line why.now }
{
    match why {
        Refused::Line(bad) => line_refusal_text(bad),
        Refused::Set { line, refusal } => set_refusal_text(*line, refusal),
        Refused::Frame { line, fault } => frame_refusal_text(*line, fault),
    }
}

/// Writes why, and ends the command with that.
pub fn refuse<O: Sink>(why: Refused, output: &mut O) -> Status
    ensures ends { EndsWithText (O.held output.old) (O.held output.new) (refusal_line why) (Status.Refused why) result }
    ensures unwritten { WriteCause result (O.faults output.old) (O.faults output.new) }
    ensures counted { O.faults output.old ≤ O.faults output.new }
    ensures onward { Onward (O.way output.old) (O.way output.new) }
{
    let line = refusal_text(&why);
    match write_all(output, line.as_slice()) {
        Ok(()) => Status::Refused(why),
        Err(_) => Status::WriteFault,
    }
}

/// Refuses the line of this number, and ends the command with that.
pub fn refuse_line<O: Sink>(line: u32, reason: Reason, output: &mut O) -> Status
    ensures ends { let why = refused.Line (record { line = line; reason = reason }) in
        EndsWithText (O.held output.old) (O.held output.new) (refusal_line why) (Status.Refused why) result }
    ensures unwritten { WriteCause result (O.faults output.old) (O.faults output.new) }
    ensures counted { O.faults output.old ≤ O.faults output.new }
    ensures onward { Onward (O.way output.old) (O.way output.new) }
{
    refuse(Refused::Line(BadLine { line, reason }), output)
}

/// Ends a command whose next line couldn't be read.
pub(crate) fn fail<O: Sink>(fault: LineFault, output: &mut O) -> Status
    ensures fails { FailsWith fault (O.held output.old) (O.held output.new) result }
    ensures still { fault ≡ LineFault.ReadFault → output.new ≡ output.old }
    ensures unwritten { WriteCause result (O.faults output.old) (O.faults output.new) }
    ensures counted { O.faults output.old ≤ O.faults output.new }
    ensures onward { Onward (O.way output.old) (O.way output.new) }
{
    match fault {
        LineFault::Bad(bad) => refuse(Refused::Line(bad), output),
        LineFault::ReadFault => Status::ReadFault,
        LineFault::TooLong => Status::TooLong,
    }
}
