//! The bytes of a source, one after another.

ghost use Rattle.std.specs.Prelude.{◌≡◌, ◌-◌, ℕ, ◌<◌, ◌≤◌, true, List, ◌++◌, length, Option, OnOk, IfErr};
ghost use Rattle.line_input.specs.Lines.{most_in_line, most_at_once, most_bytes};
ghost use Rattle.line_input.specs.Reading.{LineFaultCause};

use crate::block::Block;
use crate::fault::LineFault;
use crate::gather::MOST_IN_LINE;
use arrayvec::ArrayVec;
use call_io::Source;
use std::marker::Model;

/// Reads a source in blocks, and gives its bytes one by one, up to the most that an input may have.
#[derive(Drop)]
pub struct Bytes {
    block: Block,
}

impl Model for Bytes {
    ghost use Rattle.line_input.specs.Feed.{Feed};

    ghost Value = { Feed };

    ghost view = { λ s. s.block.feed };
}

impl Bytes {
    ghost use Rattle.line_input.specs.Feed.{first_feed};
    ghost use Rattle.line_input.specs.Reading.{begins_with_line};
    ghost use Rattle.line_input.specs.Giving.{NextByte, GivesRun, run_of};

    /// Before anything was read.
    pub fn new() -> Bytes
        ensures { result ≡ first_feed }
    {
        Bytes {
            block: Block::new(),
        }
    }

    /// Whether the bytes at hand begin with a line that isn't passed over, its newline included.
    pub fn has_line(&self) -> bool
        ensures { result ≡ begins_with_line self.now.pending }
    {
        self.block.has_line()
    }

    /// The next byte, or none at the end of the input. The source is read where no byte is pending, and not again once
    /// it said that it ended.
    pub fn next<I: Source>(&mut self, source: &mut I) -> Result<Option<u8>, LineFault>
        ensures next { NextByte self.old self.new (I.left source.old) (I.left source.new) result }
        ensures limit { self.new.given ≤ most_bytes }
        ensures near { length self.new.pending ≤ most_at_once }
        ensures at_hand { 0 < length self.old.pending → source.new ≡ source.old }
        ensures ended { self.old.ended ≡ true → source.new ≡ source.old }
        ensures stood { OnOk result (I.faults source.new ≡ I.faults source.old) }
        ensures cause { IfErr result (λ e. LineFaultCause e (I.faults source.old) (I.faults source.new)) }
        ensures counted { I.faults source.old ≤ I.faults source.new }
    {
        self.block.next(source)
    }

    /// Puts the bytes at hand behind a text, up to a newline and as far as it has room. The source isn't read.
    pub fn put_run(&mut self, text: &mut ArrayVec<u8, MOST_IN_LINE>)
        ensures run { GivesRun self.old self.new (run_of self.old (most_in_line - length text.old.items)) }
        ensures text { text.new.items ≡ text.old.items ++ run_of self.old (most_in_line - length text.old.items) }
        ensures short { length text.new.items ≤ most_in_line }
        ensures limit { self.new.given ≤ most_bytes }
    {
        self.block.put_run(text);
    }
}
