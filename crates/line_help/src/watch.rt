//! A source that keeps what it gave last.
ghost use Rattle.std.specs.Prelude.{◌≡◌, ◌+◌, ◌-◌, ◌++◌, ◌<◌, ◌≤◌, count_by, drop, length, take, IfOk, OnErr};
ghost use Rattle.call_io.specs.Bytes.{Took, EndsExactly};
ghost use Rattle.call_io.specs.Counts.{Rose};
ghost use Rattle.line_input.specs.Characters.{is_newline};
ghost use Rattle.line_help.specs.Keeping.{Keeps, lines_behind};

use crate::parts::separator_count;
use crate::seen::Seen;
use arrayvec::ArrayVec;
use call_io::{Failed, Source};

/// How many bytes are kept at most.
const ROOM: usize = 65_536;

/// How many bytes are kept at least, where no fewer came: more than the two longest lines.
const LEAST: usize = 16_384;

/// Passes on what another source gives, and keeps the last bytes of it.
#[derive(Drop)]
pub struct Watch<S> {
    source: S,
    kept: Kept,
}

/// The last bytes of an input, and how many lines ended in front of them.
#[derive(Drop)]
struct Kept {
    text: ArrayVec<u8, ROOM>,
    ended: u64,
}

impl<S> Watch<S> {
    ghost use Rattle.std.specs.Prelude.{[]};
    ghost use Rattle.line_help.specs.Watched.{source_of, text_of, ended_of};

    /// A watch over this source.
    pub fn over(source: S) -> Watch<S>
        ensures source { source_of result ≡ source }
        ensures nothing { text_of result ≡ [] }
        ensures ended { ended_of result ≡ 0 }
    {
        Watch {
            source,
            kept: Kept {
                text: ArrayVec::new(),
                ended: 0,
            },
        }
    }

    /// What is kept.
    pub fn seen(&self) -> Seen<'_>
        ensures text { result.text.now ≡ text_of self.now }
        ensures ended { result.ended ≡ ended_of self.now }
    {
        Seen {
            text: self.kept.text.as_slice(),
            ended: self.kept.ended,
        }
    }
}

impl<S: Source> Source for Watch<S> {
    ghost use Rattle.line_help.specs.Watched.{source_of, text_of, ended_of};

    ghost left = { λ watch. S.left (source_of watch) };

    ghost faults = { λ watch. S.faults (source_of watch) };

    fn read(&mut self, into: &mut [u8]) -> Result<usize, Failed>
        ensures keeps { IfOk result (λ n. Keeps (text_of self.old) (ended_of self.old)
            (text_of self.new) (ended_of self.new) (take n into.new)) }
        ensures text { OnErr result (text_of self.new ≡ text_of self.old) }
        ensures ended { OnErr result (ended_of self.new ≡ ended_of self.old) }

        ensures bound { IfOk result (λ n. n ≤ length into.new) }
        ensures bytes { IfOk result (λ n. Took (S.left (source_of self.old)) (S.left (source_of self.new))
            (take n into.new)) }
        ensures end { IfOk result (λ n. 0 < length into.old → EndsExactly (S.left (source_of self.old)) n) }
        ensures kept { OnErr result (S.left (source_of self.new) ≡ S.left (source_of self.old)) }
        ensures cause { OnErr result (Rose (S.faults (source_of self.old)) (S.faults (source_of self.new))) }
        ensures stood { IfOk result (λ _. S.faults (source_of self.new) ≡ S.faults (source_of self.old)) }
        ensures counted { S.faults (source_of self.old) ≤ S.faults (source_of self.new) }
    {
        let count = self.source.read(into)?;
        self.kept.keep(&into[..count]);
        Ok(count)
    }
}

impl Kept {
    /// Keeps a piece, and as much of what came before as there is room for.
    fn keep(&mut self, piece: &[u8])
        ensures { Keeps self.old.text.items self.old.ended self.new.text.items self.new.ended piece.now }
    {
        let len = self.text.len();
        if piece.len() > ROOM - LEAST {
            self.begin_anew(piece);
        } else if len + piece.len() > ROOM {
            self.keep_rest(len - LEAST, piece);
        } else {
            self.keep_all(piece);
        }
    }

    /// Keeps the end of a piece alone.
    fn begin_anew(&mut self, piece: &[u8])
        requires { 49152 < length piece.now }
        ensures { Keeps self.old.text.items self.old.ended self.new.text.items self.new.ended piece.now }
    {
        let len = self.text.len();
        let (front, end) = piece.split_at(piece.len() - (ROOM - LEAST));
        self.drop_front(len);
        self.count_lines(front);
        self.push(end);
    }

    /// Keeps a piece behind all but so many of the first bytes.
    fn keep_rest(&mut self, count: usize, piece: &[u8])
        requires least { count + LEAST ≤ length self.old.text.items }
        requires room { length self.old.text.items + length piece.now ≤ count + ROOM }
        ensures { Keeps self.old.text.items self.old.ended self.new.text.items self.new.ended piece.now }
    {
        self.drop_front(count);
        self.push(piece);
    }

    /// Keeps a piece behind all bytes.
    fn keep_all(&mut self, piece: &[u8])
        requires { length self.old.text.items + length piece.now ≤ ROOM }
        ensures { Keeps self.old.text.items self.old.ended self.new.text.items self.new.ended piece.now }
    {
        self.count_lines(&[]);
        self.push(piece);
    }

    /// Counts the lines that end in these bytes, which aren't kept.
    fn count_lines(&mut self, bytes: &[u8])
        ensures text { self.new.text.items ≡ self.old.text.items }
        ensures ended { self.new.ended ≡ lines_behind self.old.ended bytes.now }
    {
        self.ended = self.ended.saturating_add(newlines(bytes));
    }

    /// Keeps these bytes.
    fn push(&mut self, bytes: &[u8])
        requires { length self.old.text.items + length bytes.now ≤ ROOM }
        ensures text { self.new.text.items ≡ self.old.text.items ++ bytes.now }
        ensures ended { self.new.ended ≡ self.old.ended }
    {
        self.text.try_extend_from_slice(bytes).unwrap();
    }

    /// Drops the first bytes, and counts the lines that end in them.
    fn drop_front(&mut self, count: usize)
        requires { count ≤ length self.old.text.items }
        ensures text { self.new.text.items ≡ drop count self.old.text.items }
        ensures ended { self.new.ended ≡ lines_behind self.old.ended (take count self.old.text.items) }
    {
        self.ended = self
            .ended
            .saturating_add(newlines(&self.text.as_slice()[..count]));
        let left = self.text.len() - count;
        shift(self.text.as_mut_slice(), count);
        self.text.truncate(left);
    }
}

/// Moves all but so many of the first bytes to the front.
fn shift(text: &mut [u8], count: usize)
    requires { count ≤ length text.old }
    ensures { take (length text.old - count) text.new ≡ drop count text.old }
{
    text.copy_within(count.., 0);
}

/// How many newlines there are.
fn newlines(bytes: &[u8]) -> u64
    ensures { result ≡ count_by is_newline bytes.now }
{
    separator_count(b'\n', bytes) as u64
}
