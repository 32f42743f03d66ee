//! The bytes of one line, gathered from those of a source.

ghost use Rattle.std.specs.Prelude.{◌≡◌, ℕ, ◌≤◌, true, List, Option, length, OnOk, IfErr};
ghost use Rattle.line_input.specs.inner.Gathering.{GathersLine};
ghost use Rattle.std.specs.List.{list_all, list_any};
ghost use Rattle.line_input.specs.Characters.{is_newline};
ghost use Rattle.line_input.specs.Lines.{is_printable, most_at_once, most_bytes};
ghost use Rattle.line_input.specs.Reading.{LineFaultCause};

use crate::block::Block;
use crate::fault::LineFault;
use crate::kind::may_stand;
use arrayvec::ArrayVec;
use call_io::Source;

/// The most bytes that one line may have, without its newline.
pub const MOST_IN_LINE: usize = 512;

/// How the bytes of a line end.
#[derive(Clone, Copy, Debug, PartialEq, Eq)]
pub enum Ending {
    /// At a newline, which was taken.
    Newline,
    /// At the end of the input.
    InputEnd,
    /// Nowhere: a further byte was taken for which a line has no room.
    Full,
}

/// Gathers the bytes of the next line, as far as a line has room. They are plain where each is known to be one that may
/// stand in a line.
pub fn gather<I: Source>(
    block: &mut Block,
    text: &mut ArrayVec<u8, MOST_IN_LINE>,
    plain: &mut bool,
    source: &mut I,
) -> Result<Ending, LineFault>
    ensures line { GathersLine block.old.feed block.new.feed (I.left source.old) (I.left source.new) text.new.items
        result }
    ensures known { plain.new ≡ true → list_all is_printable text.new.items ≡ true }
    ensures limit { block.new.feed.given ≤ most_bytes }
    ensures near { length block.new.feed.pending ≤ most_at_once }
    ensures at_hand { list_any is_newline block.old.feed.pending ≡ true → source.new ≡ source.old }
    ensures ended { block.old.feed.ended ≡ true → source.new ≡ source.old }
    ensures stood { OnOk result (I.faults source.new ≡ I.faults source.old) }
    ensures cause { IfErr result (λ e. LineFaultCause e (I.faults source.old) (I.faults source.new)) }
    ensures counted { I.faults source.old ≤ I.faults source.new }
{
    text.clear();
    *plain = true;
    loop {
        *plain &= block.are_plain();
        block.put_run(text);
        let Some(byte) = block.next(source)? else {
            return Ok(Ending::InputEnd);
        };
        if byte == b'\n' {
            return Ok(Ending::Newline);
        }
        if text.is_full() {
            return Ok(Ending::Full);
        }
        text.push(byte);
        *plain &= may_stand(byte);
    }
}
