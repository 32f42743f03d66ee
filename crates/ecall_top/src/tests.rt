//! What no clause says, and no built program shows: when the lines that were written are handed to the sink, and in how
//! many writes.

ghost use Rattle.std.specs.Prelude.{None, ◌≡◌, ◌<◌};

use crate::{Status, ecall};
use call_io::{Failed, MemSource, Sink, Source};
use link_frames::Steps;
use std::alloc::{AllocError, Global};
use std::cell::Cell;
use std::marker::Brand;
use std::process::Abort;
use std::sync::ledger::{Blank, Ledger};
use std::test::Fail;

/// Carries out these words with a count of its own.
fn carry_out<I: Source, O: Sink, L: Ledger>(
    alloc: Global,
    words: &[String],
    input: &mut I,
    output: &mut O,
    blank: Blank,
) -> Status
    requires name { blank.name ≡ L.name }
    requires parts { blank.parts ≡ L.parts }
    requires some { 0 < blank.parts }
{
    let mut moments = Steps::<L>::start(blank);
    ecall(alloc, words, input, output, &mut moments)
}

/// Carries out the command of this word.
fn call<I: Source, O: Sink>(
    alloc: Global,
    word: &str,
    input: &mut I,
    output: &mut O,
) -> Result<Status, AllocError> {
    let mut list = Vec::new(alloc);
    list.push(String::from_str(alloc, word)?)?;
    Ok(carry_out::<I, O, Brand>(alloc, &list, input, output, Blank::new(1)))
}

/// Takes all that is written, and counts the bytes and the writes.
#[derive(Drop)]
struct Screen<'a> {
    shown: &'a Cell<usize>,
    writes: &'a Cell<usize>,
}

impl<'a> Sink for Screen<'a> {
    ghost held = { λ _. None };

    ghost faults = { λ _. 0 };

    fn write(&mut self, piece: &[u8]) -> Result<usize, Failed> {
        self.shown.set(self.shown.get().saturating_add(piece.len()));
        self.writes.set(self.writes.get().saturating_add(1));
        Ok(piece.len())
    }
}

/// Types a line at each read, and remembers how many bytes the screen showed before it.
#[derive(Drop)]
struct Person<'a> {
    lines: &'a [&'a str],
    typed: usize,
    shown: &'a Cell<usize>,
    saw: [usize; 8],
}

impl<'a> Source for Person<'a> {
    ghost left = { λ _. None };

    ghost faults = { λ _. 0 };

    fn read(&mut self, into: &mut [u8]) -> Result<usize, Failed> {
        if let Some(saw) = self.saw.get_mut(self.typed) {
            *saw = self.shown.get();
        }
        let line = match self.lines.get(self.typed) {
            Some(line) => line.as_bytes(),
            None => b"",
        };
        self.typed = self.typed.saturating_add(1);
        let count = line.len().min(into.len());
        into[..count].copy_from_slice(&line[..count]);
        Ok(count)
    }
}

/// What a person types.
const LINES: [&str; 6] = [
    "set 02\n",
    "trigger auto\n",
    "# well\n",
    "trig",
    "ger auto\n",
    "hello\n",
];

/// What a person who types those lines to `run` sees before each read, and how many writes there were.
fn typed(alloc: Global) -> Result<([usize; 8], usize), Fail> {
    let shown = Cell::new(0);
    let writes = Cell::new(0);
    let mut screen = Screen {
        shown: &shown,
        writes: &writes,
    };
    let mut person = Person {
        lines: &LINES,
        typed: 0,
        shown: &shown,
        saw: [0; 8],
    };
    let _ = call(alloc, "run", &mut person, &mut screen)?;
    Ok((person.saw, writes.get()))
}

/// `0 dial 1` and `0 nothing`, each with its newline, stand there before the line behind them is read.
#[test]
fn answers_each_line_before_the_next_is_read(rt: HostRuntime) -> Result<(), Fail> {
    let seen = typed(rt.alloc())?;
    assert_eq!(rt; seen, ([0, 0, 9, 9, 9, 19, 0, 0], 3));
    Ok(())
}

/// How many bytes `frames` shows in how many writes, over 585 lines of ten octets.
fn framed(alloc: Global) -> Result<(usize, usize), Fail> {
    let mut bytes = Vec::new(alloc);
    for _ in 0..585 {
        bytes.extend_from_slice(b"01010101010101010101\n".as_slice())?;
    }
    let shown = Cell::new(0);
    let writes = Cell::new(0);
    let mut screen = Screen {
        shown: &shown,
        writes: &writes,
    };
    let mut input = MemSource::new(bytes, 4096, Vec::new(alloc));
    let _ = call(alloc, "frames", &mut input, &mut screen)?;
    Ok((shown.get(), writes.get()))
}

/// Each line has 21 bytes and gives `init` ten times, and the end gives `rest 0`, each with its newline. Three reads of
/// 4096 bytes give 195 lines each, and so a full block of 8192 bytes and a part of one, which is written before the next
/// read.
#[test]
fn writes_in_blocks(rt: HostRuntime) -> Result<(), Fail> {
    let seen = framed(rt.alloc())?;
    assert_eq!(rt; seen, (585 * 50 + 7, 7));
    Ok(())
}
