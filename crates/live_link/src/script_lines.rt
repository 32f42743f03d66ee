//! Reads the lines of a script while a trace is written.

ghost use Rattle.std.specs.Prelude.{◌≡◌, ◌≤◌, false};
ghost use Rattle.call_io.specs.Blocks.{held, sink, way};
ghost use Rattle.call_io.specs.Ways.{Onward};
ghost use Rattle.live_link.specs.inner.Going.{Answers, FindsLine, IsOfScript, IsOfWriting, Unread, Unwritten};
ghost use Rattle.live_link.specs.inner.ScriptGoes.{ReadsNext};

use crate::answer::LiveStatus;
use crate::receiver::halted;
use call_io::{Block, Sink, Source};
use line_input::{BadLine, Lines, Reason};

/// Reads one more line: true where there is one, and false at the end of the script. What is pending of the trace is
/// handed over before the script is read, so that whoever watches sees what each line came to.
#[tactic(auto, using(crate::proofs::GoingLemmas::finds_line))]
pub(crate) fn next_line<S: Source, O: Sink>(
    lines: &mut Lines,
    script: &mut S,
    trace: &mut Block<'_, O>,
) -> Result<bool, LiveStatus>
    requires { lines.old.failed ≡ false }
    ensures finds { FindsLine lines.old lines.new result }
    ensures reads { ReadsNext lines.old lines.new (S.left script.old) (S.left script.new) result }
    ensures answers { Answers IsOfScript result }
    ensures held { held O.held trace.new ≡ held O.held trace.old }
    ensures unread { Unread result (S.faults script.old) (S.faults script.new) }
    ensures unwritten { Unwritten result (O.faults (sink trace.old)) (O.faults (sink trace.new)) }
    ensures script_counted { S.faults script.old ≤ S.faults script.new }
    ensures trace_counted { O.faults (sink trace.old) ≤ O.faults (sink trace.new) }
    ensures onward { Onward (way O.held trace.old) (way O.held trace.new) }
{
    hand_over(lines, trace)?;
    match lines.next(script) {
        Ok(found) => Ok(found),
        Err(fault) => Err(halted(fault)),
    }
}

/// Hands over what is pending, where the script has to be read for the next line.
fn hand_over<O: Sink>(lines: &Lines, trace: &mut Block<'_, O>) -> Result<(), LiveStatus>
    ensures answers { Answers IsOfWriting result }
    ensures held { held O.held trace.new ≡ held O.held trace.old }
    ensures unwritten { Unwritten result (O.faults (sink trace.old)) (O.faults (sink trace.new)) }
    ensures counted { O.faults (sink trace.old) ≤ O.faults (sink trace.new) }
    ensures onward { Onward (way O.held trace.old) (way O.held trace.new) }
{
    if lines.has_line() {
        Ok(())
    } else {
        empty(trace)
    }
}

/// Hands over what is pending of the trace.
pub(crate) fn empty<O: Sink>(trace: &mut Block<'_, O>) -> Result<(), LiveStatus>
    ensures answers { Answers IsOfWriting result }
    ensures held { held O.held trace.new ≡ held O.held trace.old }
    ensures unwritten { Unwritten result (O.faults (sink trace.old)) (O.faults (sink trace.new)) }
    ensures counted { O.faults (sink trace.old) ≤ O.faults (sink trace.new) }
    ensures onward { Onward (way O.held trace.old) (way O.held trace.new) }
{
    match trace.empty() {
        Ok(()) => Ok(()),
        Err(_) => Err(LiveStatus::WriteFault),
    }
}

/// A line of the script is refused.
pub(crate) fn refused(line: u32, reason: Reason) -> LiveStatus
    ensures { result ≡ LiveStatus.Refused (record { line = line; reason = reason }) }
{
    LiveStatus::Refused(BadLine { line, reason })
}
