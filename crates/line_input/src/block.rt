//! A block of a source's bytes: one after another, or as whole lines.

ghost use Rattle.std.specs.Prelude.{◌≡◌, ◌-◌, ℕ, ◌<◌, ◌≤◌, nat_lt, true, List, ◌++◌, length, take, drop, Option, OnOk, OnErr, IfErr};
ghost use Rattle.std.specs.List.{list_all, list_any, position_or_len};
ghost use Rattle.call_io.specs.Counts.{Rose};
ghost use Rattle.line_input.specs.Characters.{is_newline};
ghost use Rattle.line_input.specs.Lines.{most_in_line, most_at_once, most_bytes};
ghost use Rattle.line_input.specs.Reading.{LineFaultCause, may_begin_line};
ghost use Rattle.line_input.specs.declared.fault.LineFault.TheVariants as fault;
ghost use Rattle.line_input.specs.inner.Judged.{is_plain};
ghost use Rattle.line_input.specs.inner.Lending.{TakesLine};

use crate::fault::LineFault;
use crate::gather::MOST_IN_LINE;
use crate::kind::may_stand;
use arrayvec::ArrayVec;
use call_io::Source;
use memchr::{memchr, memrchr};
use std::marker::Model;

/// The most bytes that one input may have.
pub const MOST_BYTES: u32 = 16_777_216;

/// The most bytes that are read at once.
const BLOCK: usize = 8192;

/// Reads a source in blocks, and gives its bytes one by one, or lends whole lines, up to the most bytes that an input
/// may have.
#[derive(Drop)]
pub(crate) struct Block {
    block: [u8; BLOCK],
    at: usize,
    end: usize,
    /// Behind the last newline of the block; 0 where it has none.
    lines_end: usize,
    given: u32,
    ended: bool,
    /// Each byte of the block may stand in a line, or ends one.
    plain: bool,
    /// Where the last whole line that was taken stands, without its newline.
    line_at: usize,
    line_end: usize,
}

impl Model for Block {
    ghost use Rattle.std.specs.Prelude.{◌≡◌, ◌≤◌, true, take, slice_range};
    ghost use Rattle.std.specs.List.{list_all};
    ghost use Rattle.line_input.specs.Lines.{most_bytes};
    ghost use Rattle.line_input.specs.declared.block.TheConstants.{BLOCK};
    ghost use Rattle.line_input.specs.inner.Held.{Held};
    ghost use Rattle.line_input.specs.inner.Judged.{is_plain};
    ghost use Rattle.line_input.specs.inner.Lending.{EndsLines};

    ghost Value = { Held };

    ghost view = { λ s. record {
      feed = record { pending = slice_range s.block s.at s.end; given = s.given; ended = s.ended };
      line = slice_range s.block s.line_at s.line_end;
    } };

    ghost invariant = { λ s. (s.at ≤ s.end) × (s.end ≤ BLOCK) × (s.given ≤ most_bytes)
        × (s.ended ≡ true → s.at ≡ s.end) × (s.lines_end ≤ s.end) × EndsLines s.block s.at s.end s.lines_end
        × (s.plain ≡ true → list_all is_plain (take s.end s.block) ≡ true)
        × (s.line_at ≤ s.line_end) × (s.line_end ≤ s.end) };
}

impl Block {
    ghost use Rattle.line_input.specs.inner.Held.{first_held};
    ghost use Rattle.line_input.specs.Reading.{begins_with_line};
    ghost use Rattle.line_input.specs.Giving.{NextByte, GivesRun, run_of};
    ghost use Rattle.line_input.specs.inner.Gathering.{Refills, KeepsFeed};

    /// Before anything was read.
    pub(crate) fn new() -> Block
        ensures { result ≡ first_held }
    {
        Block {
            block: [0; BLOCK],
            at: 0,
            end: 0,
            lines_end: 0,
            given: 0,
            ended: false,
            plain: true,
            line_at: 0,
            line_end: 0,
        }
    }

    /// Whether the bytes at hand begin with a line that isn't passed over, its newline included.
    pub(crate) fn has_line(&self) -> bool
        ensures { result ≡ begins_with_line self.now.feed.pending }
    {
        self.at < self.lines_end && may_begin(self.block[self.at])
    }

    /// Whether each byte of the block is known to be one that may stand in a line, or that ends one.
    pub(crate) fn are_plain(&self) -> bool
        ensures pending { result ≡ true → list_all is_plain self.now.feed.pending ≡ true }
        ensures line { result ≡ true → list_all is_plain self.now.line ≡ true }
    {
        self.plain
    }

    /// Takes the next line with its newline, and notes where it stands, if the bytes at hand have the whole of it, and
    /// neither the line nor the input is too long by it. Else all stays as it was.
    #[inline]
    pub(crate) fn take_line(&mut self) -> bool
        ensures takes { TakesLine self.old self.new result }
        ensures limit { self.new.feed.given ≤ most_bytes }
        ensures near { length self.new.feed.pending ≤ most_at_once }
    {
        if self.lines_end <= self.at {
            return false;
        }
        let most = (MOST_IN_LINE + 1).min((MOST_BYTES - self.given) as usize);
        let until = self.lines_end.min(self.at + most);
        match memchr(b'\n', &self.block[self.at..until]) {
            Some(len) => {
                self.line_at = self.at;
                self.line_end = self.at + len;
                self.at += len + 1;
                self.given += len as u32 + 1;
                true
            }
            None => false,
        }
    }

    /// The last whole line that was taken, as long as no byte was read behind it.
    pub(crate) fn line(&self) -> &[u8]
        ensures { result.now ≡ self.now.line }
    {
        let block: &[u8] = &self.block;
        &block[self.line_at..self.line_end]
    }

    /// The next byte, or none at the end of the input. The source is read where no byte is pending, and not again once
    /// it said that it ended.
    pub(crate) fn next<I: Source>(&mut self, source: &mut I) -> Result<Option<u8>, LineFault>
        ensures next { NextByte self.old.feed self.new.feed (I.left source.old) (I.left source.new) result }
        ensures limit { self.new.feed.given ≤ most_bytes }
        ensures near { length self.new.feed.pending ≤ most_at_once }
        ensures at_hand { 0 < length self.old.feed.pending → source.new ≡ source.old }
        ensures ended { self.old.feed.ended ≡ true → source.new ≡ source.old }
        ensures stood { OnOk result (I.faults source.new ≡ I.faults source.old) }
        ensures cause { IfErr result (λ e. LineFaultCause e (I.faults source.old) (I.faults source.new)) }
        ensures counted { I.faults source.old ≤ I.faults source.new }
    {
        self.refill(source)?;
        if self.at == self.end {
            return Ok(None);
        }
        if self.given == MOST_BYTES {
            return Err(LineFault::TooLong);
        }
        let byte = self.block[self.at];
        self.at += 1;
        self.given += 1;
        Ok(Some(byte))
    }

    /// Puts the bytes at hand behind a text, up to a newline and as far as it has room. The source isn't read.
    pub(crate) fn put_run(&mut self, text: &mut ArrayVec<u8, MOST_IN_LINE>)
        ensures run { GivesRun self.old.feed self.new.feed
            (run_of self.old.feed (most_in_line - length text.old.items)) }
        ensures text { text.new.items ≡ text.old.items ++ run_of self.old.feed (most_in_line - length text.old.items) }
        ensures short { length text.new.items ≤ most_in_line }
        ensures limit { self.new.feed.given ≤ most_bytes }
    {
        let room = MOST_IN_LINE - text.len();
        let most = room.min((MOST_BYTES - self.given) as usize);
        let len = run_len(&self.block[self.at..self.end], most);
        text.try_extend_from_slice(&self.block[self.at..self.at + len])
            .unwrap();
        self.at += len;
        self.given += len as u32;
    }

    /// Reads the source where no byte is pending, unless its end was seen.
    fn refill<I: Source>(&mut self, source: &mut I) -> Result<(), LineFault>
        ensures ok { OnOk result (Refills self.old.feed self.new.feed (I.left source.old) (I.left source.new)) }
        ensures err { OnErr result (KeepsFeed self.old.feed self.new.feed (I.left source.old) (I.left source.new)) }
        ensures fault { IfErr result (λ e. e ≡ fault.ReadFault) }
        ensures limit { self.new.feed.given ≤ most_bytes }
        ensures near { length self.new.feed.pending ≤ most_at_once }
        ensures at_hand { 0 < length self.old.feed.pending → source.new ≡ source.old }
        ensures ended { self.old.feed.ended ≡ true → source.new ≡ source.old }
        ensures stood { OnOk result (I.faults source.new ≡ I.faults source.old) }
        ensures cause { OnErr result (Rose (I.faults source.old) (I.faults source.new)) }
        ensures counted { I.faults source.old ≤ I.faults source.new }
    {
        if self.at < self.end || self.ended {
            return Ok(());
        }
        // What a failed read leaves in the block isn't known.
        self.plain = false;
        match source.read(&mut self.block) {
            Ok(count) => {
                self.lines_end = lines_len(&self.block[..count]);
                self.plain = all_plain(&self.block[..count]);
                self.at = 0;
                self.end = count;
                self.line_at = 0;
                self.line_end = 0;
                self.ended = count == 0;
                Ok(())
            }
            Err(_) => Err(LineFault::ReadFault),
        }
    }
}

// Whether a byte may begin a line that isn't passed over.
fn may_begin(byte: u8) -> bool
    ensures { result ≡ may_begin_line byte }
{
    byte != b'\n' && byte != b'#'
}

// How many of the first bytes, at most so many, stand before a newline.
fn run_len(bytes: &[u8], most: usize) -> usize
    ensures place { result ≡ position_or_len is_newline (take most bytes.now) }
    ensures few { result ≤ most }
    ensures within { result ≤ length bytes.now }
{
    let front = &bytes[..bytes.len().min(most)];
    newline_or_end(front)
}

// The place of the first newline, or the end.
fn newline_or_end(bytes: &[u8]) -> usize
    ensures place { result ≡ position_or_len is_newline bytes.now }
    ensures within { result ≤ length bytes.now }
{
    memchr(b'\n', bytes).unwrap_or(bytes.len())
}

// How many bytes stand up to the last newline, it included; 0 where there is none.
fn lines_len(bytes: &[u8]) -> usize
    ensures within { result ≤ length bytes.now }
    ensures last { (k : ℕ) → k ≤ length bytes.now → nat_lt k result ≡ list_any is_newline (drop k bytes.now) }
{
    match memrchr(b'\n', bytes) {
        Some(at) => at + 1,
        None => 0,
    }
}

// Whether each byte may stand in a line, or ends one.
fn all_plain(bytes: &[u8]) -> bool
    ensures { result ≡ list_all is_plain bytes.now }
{
    // All bytes are looked at, also behind one that is neither: so the compiler compares many at once.
    let mut all = true;
    for byte in bytes {
        all &= is_plain_byte(*byte);
    }
    all
}

// Whether a byte may stand in a line, or ends one.
fn is_plain_byte(byte: u8) -> bool
    ensures { result ≡ is_plain byte }
{
    may_stand(byte) || byte == b'\n'
}
