//! One line of a source after another, whatever it says.

ghost use Rattle.std.specs.Prelude.{◌≡◌, ◌≤◌, true, length, OnOk, IfErr};
ghost use Rattle.std.specs.List.{list_any};
ghost use Rattle.line_input.specs.Characters.{is_newline};
ghost use Rattle.line_input.specs.Lines.{most_at_once, most_bytes};
ghost use Rattle.line_input.specs.Reading.{LineFaultCause, begins_with_line};
ghost use Rattle.line_input.specs.inner.Held.{first_held};
ghost use Rattle.line_input.specs.inner.Kinds.{JudgesLine};

use crate::block::Block;
use crate::fault::LineFault;
use crate::gather::{Ending, MOST_IN_LINE, gather};
use crate::kind::{LineKind, kind_of};
use arrayvec::ArrayVec;
use call_io::Source;
use std::marker::Model;

/// Where the text of the last line stands.
#[derive(Clone, Copy, Debug, PartialEq, Eq)]
pub(crate) enum Place {
    /// In the block that was read.
    Block,
    /// In the text that was gathered.
    Text,
}

/// Reads a source line by line. A line that stands whole in a block is lent from there.
#[derive(Drop)]
pub(crate) struct LineReader {
    block: Block,
    text: ArrayVec<u8, MOST_IN_LINE>,
    place: Place,
}

impl Model for LineReader {
    ghost use Rattle.line_input.specs.inner.Held.{Held};

    ghost Value = { Held };

    ghost use Rattle.line_input.specs.inner.Lending.{last_line};

    ghost view = { λ s. record { feed = s.block.feed; line = last_line s.place s.block.line s.text.items } };
}

impl LineReader {
    /// Before anything was read.
    pub(crate) fn new() -> LineReader
        ensures { result ≡ first_held }
    {
        LineReader {
            block: Block::new(),
            text: ArrayVec::new(),
            place: Place::Text,
        }
    }

    /// Whether the bytes at hand begin with a line that isn't passed over, its newline included.
    pub(crate) fn has_line(&self) -> bool
        ensures { result ≡ begins_with_line self.now.feed.pending }
    {
        self.block.has_line()
    }

    /// Reads the next line, which `line` then lends, and tells what it is.
    #[inline]
    pub(crate) fn next_line<I: Source>(&mut self, source: &mut I) -> Result<LineKind, LineFault>
        ensures line { JudgesLine self.old.feed self.new.feed (I.left source.old) (I.left source.new) self.new.line
            result }
        ensures limit { self.new.feed.given ≤ most_bytes }
        ensures near { length self.new.feed.pending ≤ most_at_once }
        ensures at_hand { list_any is_newline self.old.feed.pending ≡ true → source.new ≡ source.old }
        ensures ended { self.old.feed.ended ≡ true → source.new ≡ source.old }
        ensures stood { OnOk result (I.faults source.new ≡ I.faults source.old) }
        ensures cause { IfErr result (λ e. LineFaultCause e (I.faults source.old) (I.faults source.new)) }
        ensures counted { I.faults source.old ≤ I.faults source.new }
    {
        if self.block.take_line() {
            self.place = Place::Block;
            let plain = self.block.are_plain();
            return Ok(kind_of(Ending::Newline, self.block.line(), plain));
        }
        self.place = Place::Text;
        let mut plain = false;
        let ending = gather(&mut self.block, &mut self.text, &mut plain, source)?;
        Ok(kind_of(ending, self.text.as_slice(), plain))
    }

    /// The text of the line that was read last.
    pub(crate) fn line(&self) -> &[u8]
        ensures { result.now ≡ self.now.line }
    {
        match self.place {
            Place::Block => self.block.line(),
            Place::Text => self.text.as_slice(),
        }
    }
}
