//! Reporting on a whole trace.
ghost use Rattle.std.specs.Prelude.{◌≡◌, None};
ghost use Rattle.view_lines.specs.Outcome.{Outcome, ReadCause, WriteCause};
ghost use Rattle.view_reports.specs.Told.{IsEndReported, IsReported};
ghost use Rattle.view_reports.specs.declared.manner.Layout.TheVariants as layout;
ghost use Rattle.view_reports.specs.declared.manner.Manner.{Manner as MannerOf};
ghost use Rattle.view_reports.specs.inner.Heard.{HasHeard};

use crate::manner::Manner;
use crate::report::Report;
use call_io::{Sink, Source};
use std::alloc::{AllocError, Global};
use std::marker::{Brand, PhantomData};
use view_lines::{Answer, LineTeller, tell_lines};

/// A manner that proofs alone know. What a `LineTeller` tells rests on its type, and the manner is known where the program
/// runs.
trait InManner {
    ghost manner: { MannerOf };
}

impl InManner for Brand {
    ghost manner = { record { layout = layout.Sentences; end = None } };
}

/// Reports on the lines of a trace, in the manner of `M`.
#[derive(Drop)]
struct ReportLines<M> {
    of: PhantomData<M>,
    report: Report,
}

impl<M: InManner> LineTeller for ReportLines<M> {
    ghost tells = { IsReported M.manner };

    ghost ends = { IsEndReported M.manner };

    ghost heard = { λ s lines. (s.report.manner ≡ M.manner) × HasHeard s.report lines };

    fn put_line(
        &mut self,
        text: &mut Vec<u8>,
        number: u64,
        line: &[u8],
    ) -> Result<bool, AllocError> {
        self.report.put_line(text, number, line)
    }

    fn put_end(&mut self, text: &mut Vec<u8>) -> Result<bool, AllocError> {
        self.report.put_end(text)?;
        Ok(false)
    }
}

/// Reports on a trace, where the manner of `M` is that of the report.
fn report_lines<M: InManner + Drop, I: Source, O: Sink>(
    alloc: Global,
    manner: Manner,
    input: &mut I,
    output: &mut O,
) -> Answer
    requires { manner ≡ M.manner }
    ensures outcome { Outcome (IsReported M.manner) (IsEndReported M.manner) (I.left input.old) (I.left input.new)
        (O.held output.old) (O.held output.new) result }
    ensures unread { ReadCause result (I.faults input.old) (I.faults input.new) }
    ensures unwritten { WriteCause result (O.faults output.old) (O.faults output.new) }
{
    let lines: ReportLines<M> = ReportLines {
        of: PhantomData,
        report: Report::new(alloc, manner),
    };
    tell_lines(alloc, lines, input, output)
}

/// Reports on a trace of any length: each break of a rule, and each line that is refused, in order; and then each call, and
/// each set of data. What it keeps grows with the calls and the sets, with the voices that were muted within the last 320
/// ticks, and with nothing else.
pub fn report_trace<I: Source, O: Sink>(
    alloc: Global,
    manner: Manner,
    input: &mut I,
    output: &mut O,
) -> Answer
    ensures outcome { Outcome (IsReported manner) (IsEndReported manner) (I.left input.old) (I.left input.new)
        (O.held output.old) (O.held output.new) result }
    ensures unread { ReadCause result (I.faults input.old) (I.faults input.new) }
    ensures unwritten { WriteCause result (O.faults output.old) (O.faults output.new) }
{
    report_lines::<Brand, I, O>(alloc, manner, input, output)
}
