//! Reading the lines of a command's input.

ghost use Rattle.std.specs.Prelude.{◌≡◌, ◌≤◌, ◌⊎◌, true, false, [], Err, OnOk, OnErr, MatchResult};
ghost use Rattle.call_io.specs.Blocks.{held, pending, sink, way};
ghost use Rattle.call_io.specs.Counts.{Rose};
ghost use Rattle.call_io.specs.Ways.{Onward};
ghost use Rattle.line_input.specs.Reading.{begins_with_line};
ghost use Rattle.command_base.specs.Outcome.{ReadCause, WriteCause};
ghost use Rattle.command_base.specs.inner.ReadEnds.{ReadsOn};

use crate::refusal::fail;
use crate::status::Status;
use call_io::{Block, Failed, Sink, Source};
use line_input::Lines;

/// Reads one more line: true where there is one, and false at the end of the input. Where there is neither, the answer
/// ends the command. What is pending is handed to the sink before the source is read, so that a person who types lines
/// sees what each came to.
#[inline(always)]
pub(crate) fn read_line<I: Source, O: Sink>(
    lines: &mut Lines,
    input: &mut I,
    output: &mut Block<'_, O>,
) -> Result<bool, Status>
    requires { lines.old.failed ≡ false }
    ensures reads { ReadsOn lines.old lines.new (I.left input.old) (I.left input.new)
        (held O.held output.old) (held O.held output.new) result }
    // Where the source was read and failed, nothing is pending.
    ensures handed { result ≡ Err Status.ReadFault → pending output.new ≡ [] }
    ensures unread { MatchResult result (λ _. I.faults input.new ≡ I.faults input.old)
        (λ answer. ReadCause answer (I.faults input.old) (I.faults input.new)) }
    ensures unwritten { MatchResult result (λ _. O.faults (sink output.new) ≡ O.faults (sink output.old))
        (λ answer. WriteCause answer (O.faults (sink output.old)) (O.faults (sink output.new))) }
    ensures reads_counted { I.faults input.old ≤ I.faults input.new }
    ensures writes_counted { O.faults (sink output.old) ≤ O.faults (sink output.new) }
    ensures onward { Onward (way O.held output.old) (way O.held output.new) }
{
    if make_way(lines, output).is_err() {
        return Err(Status::WriteFault);
    }
    match lines.next(input) {
        Ok(found) => Ok(found),
        Err(fault) => Err(fail(fault, output)),
    }
}

/// Hands over what is pending, where the source has to be read for the next line.
fn make_way<O: Sink>(lines: &Lines, output: &mut Block<'_, O>) -> Result<(), Failed>
    ensures held { held O.held output.new ≡ held O.held output.old }
    ensures way { OnOk result ((begins_with_line lines.now.feed.pending ≡ true) ⊎ (pending output.new ≡ [])) }
    ensures cause { OnErr result (Rose (O.faults (sink output.old)) (O.faults (sink output.new))) }
    ensures stood { OnOk result (O.faults (sink output.new) ≡ O.faults (sink output.old)) }
    ensures counted { O.faults (sink output.old) ≤ O.faults (sink output.new) }
    ensures onward { Onward (way O.held output.old) (way O.held output.new) }
{
    if lines.has_line() {
        Ok(())
    } else {
        output.empty()
    }
}
