//! A command over lines, and the loop that carries it out.

ghost use Rattle.std.specs.Prelude.{◌≡◌, ℕ, ◌+◌, ◌<◌, ◌≤◌, true, false, List, [], length, Some, MatchOption};
ghost use Rattle.call_io.specs.Blocks.{held, pending, sink, way};
ghost use Rattle.call_io.specs.Ways.{Onward};
ghost use Rattle.line_input.specs.Lines.{IsLine, lines_of, most_bytes};
ghost use Rattle.command_base.specs.LineCommands.{Count, EndsInput, IsLined, IsQuietLine, IsQuietTurn, TakesLine};
ghost use Rattle.command_base.specs.Outcome.{IsUncut, IsWholeReply, Outcome, ReadCause, Streams, ToldBefore, WriteCause, streams_of};
ghost use Rattle.command_base.specs.Refusals.{Reply};
ghost use Rattle.command_base.specs.inner.Standing.{CommandStanding, TurnsTo};

use crate::reading::read_line;
use crate::status::Status;
use call_io::{Block, Sink, Source};
use line_input::{Line, Lines};

/// A command that reads its input line by line, by what it does with one line and at the end.
pub trait LineCommand {
    // What the lines so far said, as far as the reply to the others depends on it.
    ghost Seen: { Type 0 };

    // The command stands for that, behind so many lines.
    ghost stands: { Self → ℕ → Seen → Type 0 };

    // What it replies to the lines from a number on.
    ghost rest: { Seen → ℕ → List (List ℕ) → Reply → Type 0 };

    // How often these lines pass the ends of calls at most.
    ghost most: { Seen → ℕ → List (List ℕ) → ℕ };

    // What it may write at the end of its input, behind the text of its lines.
    ghost closes: { List ℕ → Type 0 };

    // How often it passed them.
    ghost count: { Self → Count };

    // Whether it may want memory.
    ghost wants_memory: { Type 0 };

    // Whether it writes nothing before its end but the refusal of a line.
    ghost quiet: { Type 0 };

    /// Takes a line that says something; an answer ends the command.
    fn take<O: Sink>(&mut self, line: &Line<'_>, output: &mut O) -> Option<Status>
        requires stands { (before : ℕ) × (seen : Seen) × stands self.old before seen × (before < line.now.number) }
        requires bound { line.now.number ≤ most_bytes }
        requires says { IsLine line.now.text }
        ensures takes { (before : ℕ) (seen : Seen) → stands self.old before seen → before < line.now.number →
            TakesLine rest most (stands self.new line.now.number) seen line.now.number line.now.text
            (count self.old).passes (count self.new).passes (O.held output.old) (O.held output.new) result }
        ensures named { (count self.new).name ≡ (count self.old).name }
        ensures memory { result ≡ Some Status.Memory → wants_memory }
        ensures silent { quiet → IsQuietLine result → O.held output.new ≡ O.held output.old }
        ensures unwritten { MatchOption result (O.faults output.new ≡ O.faults output.old)
            (λ answer. WriteCause answer (O.faults output.old) (O.faults output.new)) }
        ensures counted { O.faults output.old ≤ O.faults output.new }
        ensures onward { Onward (O.way output.old) (O.way output.new) };

    /// Ends the command where no line is left.
    fn finish<O: Sink>(&mut self, output: &mut O) -> Status
        ensures ends { (before : ℕ) (seen : Seen) → stands self.old before seen → (number : ℕ) →
            EndsInput (rest seen) number (O.held output.old) (O.held output.new) result }
        ensures counted_still { count self.new ≡ count self.old }
        ensures memory { result ≡ Status.Memory → wants_memory }
        ensures unwritten { WriteCause result (O.faults output.old) (O.faults output.new) }
        ensures counted { O.faults output.old ≤ O.faults output.new }
        ensures onward { Onward (O.way output.old) (O.way output.new) };

    // The reply is one to lines.
    ghost lined: { (s : Self) (before : ℕ) (seen : Seen) → stands s before seen →
        IsLined (rest seen) (most seen) closes };
}

/// Carries out a command over the lines of the input.
pub fn carry_out_lines<C: LineCommand, I: Source, O: Sink>(
    command: &mut C,
    input: &mut I,
    output: &mut Block<'_, O>,
) -> Status
    requires { (seen : C.Seen) × C.stands command.old 0 seen }
    ensures outcome { (seen : C.Seen) → C.stands command.old 0 seen →
        Outcome (λ bytes r. C.rest seen 1 (lines_of bytes) r) (λ bytes. C.most seen 1 (lines_of bytes)) true
        (streams_of I.left (held O.held) input.old output.old (C.count command.old).passes)
        (streams_of I.left (held O.held) input.new output.new (C.count command.new).passes) result }
    // Where the input tells its bytes, and they are no more than it may have, an answer that isn't cut short is the
    // whole reply to them.
    ensures complete { (seen : C.Seen) → C.stands command.old 0 seen → (bytes : List ℕ) →
        I.left input.old ≡ Some bytes → length bytes ≤ most_bytes → IsUncut result →
        IsWholeReply (λ bytes r. C.rest seen 1 (lines_of bytes) r) bytes (held O.held output.old)
        (held O.held output.new) result }
    // Where a read failed, all that the lines before it give was handed to the sink. Where a line or the end wanted memory,
    // all that the lines before it give was written, and no more was taken than what was read at once with its end.
    ensures told { (seen : C.Seen) → C.stands command.old 0 seen →
        ToldBefore (λ bytes r. C.rest seen 1 (lines_of bytes) r) C.closes (I.left input.old) (I.left input.new)
        (held O.held output.old) (held O.held output.new) result }
    ensures handed { result ≡ Status.ReadFault → pending output.new ≡ [] }
    ensures named { (C.count command.new).name ≡ (C.count command.old).name }
    ensures memory { result ≡ Status.Memory → C.wants_memory }
    // A quiet command that is cut short, and not by a failed write, wrote nothing.
    ensures silent { C.quiet → IsQuietTurn (Some result) → held O.held output.new ≡ held O.held output.old }
    ensures unread { ReadCause result (I.faults input.old) (I.faults input.new) }
    ensures unwritten { WriteCause result (O.faults (sink output.old)) (O.faults (sink output.new)) }
    ensures reads_counted { I.faults input.old ≤ I.faults input.new }
    ensures writes_counted { O.faults (sink output.old) ≤ O.faults (sink output.new) }
    ensures onward { Onward (way O.held output.old) (way O.held output.new) }
{
    let mut lines = Lines::new();
    loop {
        match take_turn(&mut lines, command, input, output) {
            None => {}
            Some(status) => return status,
        }
    }
}

/// Reads one more line and has the command take it; an answer ends the command.
fn take_turn<C: LineCommand, I: Source, O: Sink>(
    lines: &mut Lines,
    command: &mut C,
    input: &mut I,
    output: &mut Block<'_, O>,
) -> Option<Status>
    requires alive { lines.old.failed ≡ false }
    requires stands { (seen : C.Seen) × C.stands command.old lines.old.lines seen }
    ensures turns { (start : Streams) (first : C.Seen) →
        CommandStanding C.rest C.most first (C.stands command.old) start
        (streams_of I.left (held O.held) input.old output.old (C.count command.old).passes) lines.old →
        TurnsTo C.rest C.most first C.closes (C.stands command.new) start
        (streams_of I.left (held O.held) input.new output.new (C.count command.new).passes) lines.old lines.new result }
    ensures handed { result ≡ Some Status.ReadFault → pending output.new ≡ [] }
    ensures named { (C.count command.new).name ≡ (C.count command.old).name }
    ensures memory { result ≡ Some Status.Memory → C.wants_memory }
    ensures silent { C.quiet → IsQuietTurn result → held O.held output.new ≡ held O.held output.old }
    ensures unread { MatchOption result (I.faults input.new ≡ I.faults input.old)
        (λ answer. ReadCause answer (I.faults input.old) (I.faults input.new)) }
    ensures unwritten { MatchOption result (O.faults (sink output.new) ≡ O.faults (sink output.old))
        (λ answer. WriteCause answer (O.faults (sink output.old)) (O.faults (sink output.new))) }
    ensures reads_counted { I.faults input.old ≤ I.faults input.new }
    ensures writes_counted { O.faults (sink output.old) ≤ O.faults (sink output.new) }
    ensures onward { Onward (way O.held output.old) (way O.held output.new) }
{
    match read_line(lines, input, output) {
        Ok(found) => {
            if found {
                command.take(&lines.line(), output)
            } else {
                Some(command.finish(output))
            }
        }
        Err(status) => Some(status),
    }
}
