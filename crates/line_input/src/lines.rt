//! The lines of a source, one after another.

ghost use Rattle.std.specs.Prelude.{◌≡◌, ℕ, ◌≤◌, true, List, Option, length, OnOk, IfErr};
ghost use Rattle.line_input.specs.Feed.{IsDone};
ghost use Rattle.line_input.specs.Reading.{ReadsLine, LineFaultCause, begins_with_line};
ghost use Rattle.line_input.specs.inner.Kinds.{reading};

use crate::fault::LineFault;
use crate::kind::LineKind;
use crate::line::Line;
use crate::reader::LineReader;
use crate::reason::BadLine;
use call_io::Source;
use std::marker::Model;

/// Reads the lines of a source. It takes no memory but its own: a block of bytes, and one line.
#[derive(Drop)]
pub struct Lines {
    reader: LineReader,
    number: u32,
    failed: bool,
}

impl Model for Lines {
    ghost use Rattle.std.specs.Prelude.{◌≤◌};
    ghost use Rattle.line_input.specs.Feed.{IsDone};
    ghost use Rattle.line_input.specs.Lines.{most_bytes};
    ghost use Rattle.line_input.specs.Reading.{Reading};

    ghost Value = { Reading };

    ghost view = { λ s. record { feed = s.reader.feed; lines = s.number; text = s.reader.line; failed = s.failed } };

    ghost invariant = { λ s. (s.number ≤ s.reader.feed.given) × (s.reader.feed.given ≤ most_bytes)
        × IsDone s.reader.feed };
}

impl Lines {
    ghost use Rattle.std.specs.Prelude.{false};
    ghost use Rattle.line_input.specs.Reading.{first_reading};
    ghost use Rattle.line_input.specs.Lines.{IsLine};

    /// Before anything was read.
    pub fn new() -> Lines
        ensures { result ≡ first_reading }
    {
        Lines {
            reader: LineReader::new(),
            number: 0,
            failed: false,
        }
    }

    /// Whether `next` answers without reading the source: the bytes at hand begin with a line that isn't passed over,
    /// its newline included.
    pub fn has_line(&self) -> bool
        ensures { result ≡ begins_with_line self.now.feed.pending }
    {
        self.reader.has_line()
    }

    /// Reads the next line that says something: true where there is one, which `line` then lends,
    /// and false at the end of the input. Empty lines and those that begin with `#` are passed
    /// over, and counted. After a fault it isn't called again.
    pub fn next<I: Source>(&mut self, source: &mut I) -> Result<bool, LineFault>
        requires { self.old.failed ≡ false }
        ensures reads { ReadsLine self.old self.new (I.left source.old) (I.left source.new) result }
        ensures at_hand { begins_with_line self.old.feed.pending ≡ true → source.new ≡ source.old }
        // A source that said that it ended isn't read again.
        ensures ended { self.old.feed.ended ≡ true → source.new ≡ source.old }
        ensures stood { OnOk result (I.faults source.new ≡ I.faults source.old) }
        ensures cause { IfErr result (λ e. LineFaultCause e (I.faults source.old) (I.faults source.new)) }
        ensures counted { I.faults source.old ≤ I.faults source.new }
    {
        let read = skim(&mut self.reader, &mut self.number, source);
        self.failed = read.is_err();
        read
    }

    /// The line that was read last.
    pub fn line(&self) -> Line<'_>
        requires { IsLine self.now.text }
        ensures { result ≡ record { number = self.now.lines; text = self.now.text } }
    {
        Line::of(self.number, self.reader.line())
    }
}

/// Reads lines up to the first that isn't passed over, and counts them. False is the end of the
/// input.
fn skim<I: Source>(
    reader: &mut LineReader,
    number: &mut u32,
    source: &mut I,
) -> Result<bool, LineFault>
    requires few { number.old ≤ reader.old.feed.given }
    requires done { IsDone reader.old.feed }
    ensures reads { ReadsLine (reading reader.old.feed number.old reader.old.line)
        (reading reader.new.feed number.new reader.new.line)
        (I.left source.old) (I.left source.new) result }
    ensures at_hand { begins_with_line reader.old.feed.pending ≡ true → source.new ≡ source.old }
    ensures ended { reader.old.feed.ended ≡ true → source.new ≡ source.old }
    ensures stood { OnOk result (I.faults source.new ≡ I.faults source.old) }
    ensures cause { IfErr result (λ e. LineFaultCause e (I.faults source.old) (I.faults source.new)) }
    ensures counted { I.faults source.old ≤ I.faults source.new }
{
    loop {
        let kind = reader.next_line(source)?;
        match kind {
            LineKind::NoLine => return Ok(false),
            LineKind::Says => {
                *number += 1;
                return Ok(true);
            }
            LineKind::Refused(reason) => {
                *number += 1;
                let line = *number;
                return Err(LineFault::Bad(BadLine { line, reason }));
            }
            LineKind::PassedOver => *number += 1,
        }
    }
}
