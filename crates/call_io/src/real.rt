// Sources and sinks over std's readers and writers.
ghost use Rattle.std.specs.Prelude.{◌≡◌, ℕ, ◌<◌, ◌≤◌, ◌↔◌, List, Option, None, Ok, length, take, is_err, if◌then◌else◌, IfOk, OnErr, IsErr};
ghost use Rattle.std.specs.Io.KnownBytes.{ReadConsumes, WriteAppends};
ghost use Rattle.call_io.specs.Counts.{Rose, count_up};
ghost use Rattle.call_io.specs.Real.{reader_of, read_errors, writer_of, write_errors};
ghost use Rattle.call_io.specs.inner.Stops.{IsStop};

use crate::Failed;
use crate::sink::Sink;
use crate::source::Source;
use std::io;
use std::io::{Read, Write};

/// Reads from a reader of std, and counts each error as a fault. It tells no bytes.
#[derive(Drop)]
pub struct RealSource<R> {
    inner: R,
    faults: u64,
}

impl<R> RealSource<R> {
    /// A source over this reader.
    pub fn new(inner: R) -> RealSource<R>
        ensures inner { reader_of result ≡ inner }
        ensures faults { read_errors result ≡ 0 }
    {
        RealSource { inner, faults: 0 }
    }
}

impl<R: Read> Source for RealSource<R> {
    ghost left = { λ _. None };

    ghost faults = { λ s. read_errors s };

    fn read(&mut self, into: &mut [u8]) -> Result<usize, Failed>
        // What the reader knows of its bytes, it still knows.
        ensures known { ReadConsumes (R.remaining (reader_of self.old)) (R.remaining (reader_of self.new)) result into.new }
        ensures err { OnErr result (read_errors self.new ≡ count_up (read_errors self.old)) }

        ensures bound { IfOk result (λ n. n ≤ length into.new) }
        ensures cause { OnErr result (Rose (read_errors self.old) (read_errors self.new)) }
        ensures stood { IfOk result (λ _. read_errors self.new ≡ read_errors self.old) }
        ensures counted { read_errors self.old ≤ read_errors self.new }
    {
        let answer = self.inner.read(into);
        count_error(answer, &mut self.faults)
    }
}

/// Writes to a writer of std, and counts each error as a fault, also a writer that takes nothing
/// of a piece that isn't empty. It tells no bytes.
#[derive(Drop)]
pub struct RealSink<W> {
    inner: W,
    faults: u64,
}

impl<W> RealSink<W> {
    /// A sink over this writer.
    pub fn new(inner: W) -> RealSink<W>
        ensures inner { writer_of result ≡ inner }
        ensures faults { write_errors result ≡ 0 }
    {
        RealSink { inner, faults: 0 }
    }
}

impl<W: Write> Sink for RealSink<W> {
    ghost held = { λ _. None };

    ghost faults = { λ s. write_errors s };

    fn write(&mut self, piece: &[u8]) -> Result<usize, Failed>
        // What the writer knows of its bytes, it still knows.
        ensures known { WriteAppends (W.contents (writer_of self.old)) (W.contents (writer_of self.new)) result piece.now }
        ensures err { OnErr result (write_errors self.new ≡ count_up (write_errors self.old)) }

        ensures bound { IfOk result (λ n. n ≤ length piece.now) }
        ensures some { IfOk result (λ n. 0 < length piece.now → 0 < n) }
        ensures cause { OnErr result (Rose (write_errors self.old) (write_errors self.new)) }
        ensures stood { IfOk result (λ _. write_errors self.new ≡ write_errors self.old) }
        ensures counted { write_errors self.old ≤ write_errors self.new }
    {
        let answer = self.inner.write(piece);
        count_stop(answer, piece, &mut self.faults)
    }
}

/// Hands on what a reader answered, and counts an error.
fn count_error(answer: io::Result<usize>, faults: &mut u64) -> Result<usize, Failed>
    ensures failed { IsErr result ↔ IsErr answer }
    ensures same { IfOk result (λ n. answer ≡ Ok n) }
    ensures counts { faults.new ≡ (if is_err result then count_up faults.old else faults.old) }
    ensures counted { faults.old ≤ faults.new }
{
    match answer {
        Ok(n) => Ok(n),
        Err(_) => {
            *faults = faults.saturating_add(1);
            Err(Failed)
        }
    }
}

/// Hands on what a writer answered of this piece, and counts an error, or that it took nothing.
fn count_stop(answer: io::Result<usize>, piece: &[u8], faults: &mut u64) -> Result<usize, Failed>
    ensures failed { IsErr result ↔ IsStop answer piece.now }
    ensures same { IfOk result (λ n. answer ≡ Ok n) }
    ensures counts { faults.new ≡ (if is_err result then count_up faults.old else faults.old) }
    ensures counted { faults.old ≤ faults.new }
{
    match answer {
        Ok(n) if n > 0 || piece.is_empty() => Ok(n),
        _ => {
            *faults = faults.saturating_add(1);
            Err(Failed)
        }
    }
}
