//! Telling a whole trace.
ghost use Rattle.std.specs.Prelude.{◌≡◌, ◌+◌, ℕ, List, IfOk, length, take};
ghost use Rattle.view_lines.specs.Outcome.{Outcome, ReadCause, WriteCause};
ghost use Rattle.view_traces.specs.Told.{IsEndTold, IsLineTold, tick_behind};

use crate::entry::put_told;
use crate::judge::{judge_line, tick_after};
use call_io::{Sink, Source};
use std::alloc::{AllocError, Global};
use view_lines::{Answer, LineTeller, tell_lines};

/// Tells the lines of a trace. It keeps the tick of the last entry.
#[derive(Clone, Copy, Drop)]
struct TraceLines {
    tick: u64,
}

impl LineTeller for TraceLines {
    ghost tells = { IsLineTold };

    ghost ends = { IsEndTold };

    ghost heard = { λ s lines. s.tick ≡ tick_behind 0 lines };

    fn put_line(
        &mut self,
        text: &mut Vec<u8>,
        number: u64,
        line: &[u8],
    ) -> Result<bool, AllocError> {
        let judged = judge_line(self.tick, line);
        let refused = put_told(text, number, &judged)?;
        self.tick = tick_after(self.tick, &judged);
        Ok(refused)
    }

    fn put_end(&mut self, _text: &mut Vec<u8>) -> Result<bool, AllocError> {
        Ok(false)
    }
}

/// Tells the lines of a trace of any length: the object of each line that isn't passed over, in order, whether or not
/// it is refused. What it keeps doesn't grow with the trace.
pub fn tell_trace<I: Source, O: Sink>(alloc: Global, input: &mut I, output: &mut O) -> Answer
    ensures outcome { Outcome IsLineTold IsEndTold (I.left input.old) (I.left input.new) (O.held output.old)
        (O.held output.new) result }
    ensures unread { ReadCause result (I.faults input.old) (I.faults input.new) }
    ensures unwritten { WriteCause result (O.faults output.old) (O.faults output.new) }
{
    tell_lines(alloc, TraceLines { tick: 0 }, input, output)
}
