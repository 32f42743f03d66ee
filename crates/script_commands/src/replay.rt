//! The command `replay`: a trace in, whether it is safe out.

ghost use Rattle.std.specs.Prelude.{◌≡◌, ℕ, ◌≤◌, true};
ghost use Rattle.call_io.specs.Ways.{Onward};
ghost use Rattle.command_base.specs.Outcome.{IsCutSilently, Outcome, ReadCause, ToldBefore, WriteCause, streams_of};
ghost use Rattle.script_commands.specs.Replay.{ClosesReplay, IsReplayed, broken_line, sound_line};
ghost use Rattle.command_base.specs.Ends.{EndsWithText};
ghost use Rattle.script_commands.specs.inner.ReplayEnds.{EndsWithVerdict};

use arrayvec::ArrayVec;
use call_io::{Sink, Source, write_all};
use command_base::{Refused, Status, refuse};
use line_input::push_number;
use std::alloc::Global;
use trace_audit::{Rule, Verdict, audit};

/// The most octets of a line that tells a verdict: a word, two numbers, and what stands between and behind them.
const LONGEST_VERDICT: usize = 64;

/// A line that tells a verdict, while it is built.
type VerdictText = ArrayVec<u8, LONGEST_VERDICT>;

/// Audits the trace that the input has, and then writes the one line that tells the verdict.
pub fn replay_trace<I: Source, O: Sink>(alloc: Global, input: &mut I, output: &mut O) -> Status
    ensures outcome { (passes : ℕ) → Outcome IsReplayed (λ bytes. 0) true
        (streams_of I.left O.held input.old output.old passes)
        (streams_of I.left O.held input.new output.new passes) result }
    // Where it was cut short, and not by a failed write, it wrote nothing.
    ensures silent { IsCutSilently result → output.new ≡ output.old }
    ensures told { ToldBefore IsReplayed ClosesReplay (I.left input.old) (I.left input.new)
        (O.held output.old) (O.held output.new) result }
    ensures unread { ReadCause result (I.faults input.old) (I.faults input.new) }
    ensures unwritten { WriteCause result (O.faults output.old) (O.faults output.new) }
    ensures reads_counted { I.faults input.old ≤ I.faults input.new }
    ensures writes_counted { O.faults output.old ≤ O.faults output.new }
    ensures onward { Onward (O.way output.old) (O.way output.new) }
{
    let verdict = audit(alloc, input);
    tell(verdict, output)
}

/// Tells a verdict, and ends the command with it.
fn tell<O: Sink>(verdict: Verdict, output: &mut O) -> Status
    ensures ends { EndsWithVerdict verdict (O.held output.old) (O.held output.new) result }
    ensures silent { IsCutSilently result → output.new ≡ output.old }
    ensures unwritten { WriteCause result (O.faults output.old) (O.faults output.new) }
    ensures counted { O.faults output.old ≤ O.faults output.new }
    ensures onward { Onward (O.way output.old) (O.way output.new) }
{
    match verdict {
        Verdict::Sound { items } => tell_sound(items, output),
        Verdict::Broken { line, rule } => tell_broken(line, rule, output),
        Verdict::Bad(bad) => refuse(Refused::Line(bad), output),
        Verdict::ReadFault => Status::ReadFault,
        Verdict::TooLong => Status::TooLong,
        Verdict::Memory => Status::Memory,
    }
}

/// Writes that the trace is safe, and how many entries it has.
fn tell_sound<O: Sink>(items: u64, output: &mut O) -> Status
    ensures ends { EndsWithText (O.held output.old) (O.held output.new) (sound_line items) Status.Done result }
    ensures unwritten { WriteCause result (O.faults output.old) (O.faults output.new) }
    ensures counted { O.faults output.old ≤ O.faults output.new }
    ensures onward { Onward (O.way output.old) (O.way output.new) }
{
    let mut text: VerdictText = ArrayVec::new();
    text.try_extend_from_slice(b"sound").unwrap();
    push_number(&mut text, items);
    text.push(b'\n');
    match write_all(output, text.as_slice()) {
        Ok(()) => Status::Done,
        Err(_) => Status::WriteFault,
    }
}

/// Writes which line of the trace breaks which rule.
fn tell_broken<O: Sink>(line: u32, rule: Rule, output: &mut O) -> Status
    ensures ends { EndsWithText (O.held output.old) (O.held output.new) (broken_line line rule)
        (Status.Broken line rule) result }
    ensures unwritten { WriteCause result (O.faults output.old) (O.faults output.new) }
    ensures counted { O.faults output.old ≤ O.faults output.new }
    ensures onward { Onward (O.way output.old) (O.way output.new) }
{
    let mut text: VerdictText = ArrayVec::new();
    text.try_extend_from_slice(b"broken").unwrap();
    push_number(&mut text, line);
    push_number(&mut text, rule.number());
    text.push(b'\n');
    match write_all(output, text.as_slice()) {
        Ok(()) => Status::Broken { line, rule },
        Err(_) => Status::WriteFault,
    }
}
