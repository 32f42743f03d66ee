//! Telling a whole input.
ghost use Rattle.std.specs.Prelude.{List, ℕ};
ghost use Rattle.view_lines.specs.Outcome.{Outcome, ReadCause, WriteCause};
ghost use Rattle.view_sets.specs.Told.{IsEndTold, IsSetTold};

use call_io::{Sink, Source};
use set_objects::put_line;
use std::alloc::{AllocError, Global};
use view_lines::{Answer, LineTeller, tell_lines};

/// Tells lines with a set of data each. It keeps nothing.
#[derive(Clone, Copy, Drop)]
struct SetLines;

impl LineTeller for SetLines {
    ghost tells = { IsSetTold };

    ghost ends = { IsEndTold };

    ghost heard = { λ s lines. Unit {0} };

    fn put_line(
        &mut self,
        text: &mut Vec<u8>,
        number: u64,
        line: &[u8],
    ) -> Result<bool, AllocError> {
        put_line(text, number, line)
    }

    fn put_end(&mut self, _text: &mut Vec<u8>) -> Result<bool, AllocError> {
        Ok(false)
    }
}

/// Tells the lines of an input of any length, each with a set of data in hexadecimal: the object of each line that
/// isn't passed over, in order, whether or not it is refused. What it keeps doesn't grow with the input.
pub fn tell_sets<I: Source, O: Sink>(alloc: Global, input: &mut I, output: &mut O) -> Answer
    ensures outcome { Outcome IsSetTold IsEndTold (I.left input.old) (I.left input.new) (O.held output.old)
        (O.held output.new) result }
    ensures unread { ReadCause result (I.faults input.old) (I.faults input.new) }
    ensures unwritten { WriteCause result (O.faults output.old) (O.faults output.new) }
{
    tell_lines(alloc, SetLines, input, output)
}
