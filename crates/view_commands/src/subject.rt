//! What a command tells.
ghost use Rattle.view_lines.specs.Outcome.{ReadCause, WriteCause};
ghost use Rattle.view_commands.specs.Subjects.{OutcomeOf};

use call_io::{Sink, Source};
use std::alloc::Global;
use view_lines::Answer;
use view_reports::{Manner, report_trace};
use view_sets::tell_sets;
use view_traces::tell_trace;

/// What a command tells of the lines of its files.
#[derive(Clone, Copy, Debug, PartialEq, Eq)]
pub enum Subject {
    /// Sets of data.
    Sets,
    /// The entries of a trace.
    Traces,
    /// How a trace breaks rules, and what its calls came to.
    Reports(Manner),
}

/// Tells one input.
pub fn tell_input<I: Source, O: Sink>(
    alloc: Global,
    subject: Subject,
    input: &mut I,
    output: &mut O,
) -> Answer
    ensures outcome { OutcomeOf subject (I.left input.old) (I.left input.new) (O.held output.old) (O.held output.new)
        result }
    ensures unread { ReadCause result (I.faults input.old) (I.faults input.new) }
    ensures unwritten { WriteCause result (O.faults output.old) (O.faults output.new) }
{
    match subject {
        Subject::Sets => tell_sets(alloc, input, output),
        Subject::Traces => tell_trace(alloc, input, output),
        Subject::Reports(manner) => report_trace(alloc, manner, input, output),
    }
}
