// A source and a sink that never fail.
ghost use Rattle.std.specs.Prelude.{◌≡◌, ℕ, ◌<◌, ◌≤◌, List, Option, None, Some, Ok, length, take, drop, min, IfOk, IsOk};
ghost use Rattle.call_io.specs.Bytes.{Took, EndsExactly, Grew};

use crate::Failed;
use crate::copy::give;
use crate::sink::Sink;
use crate::source::Source;
use std::marker::Model;

/// Gives the bytes of a list, as many as the buffer takes.
#[derive(Drop)]
pub struct CalmSource {
    bytes: Vec<u8>,
    at: usize,
}

impl Model for CalmSource {
    ghost use Rattle.std.specs.Prelude.{ℕ, List, ◌≤◌, drop, vec_len};

    ghost Value = { List ℕ };

    ghost view = { λ s. drop s.at s.bytes.items };

    ghost invariant = { λ s. s.at ≤ vec_len s.bytes };
}

impl CalmSource {
    /// Gives these bytes.
    pub fn new(bytes: Vec<u8>) -> CalmSource
        ensures { result ≡ bytes.items }
    {
        CalmSource { bytes, at: 0 }
    }
}

impl Source for CalmSource {
    ghost left = { λ s. Some s };

    ghost faults = { λ _. 0 };

    fn read(&mut self, into: &mut [u8]) -> Result<usize, Failed>
        ensures count { result ≡ Ok (min (length into.old) (length self.old)) }
        ensures given { IfOk result (λ n. take n into.new ≡ take n self.old) }
        ensures rest { IfOk result (λ n. self.new ≡ drop n self.old) }
    {
        let n = give(&self.bytes[self.at..], usize::MAX, into);
        self.at += n;
        Ok(n)
    }
}

/// Takes every piece whole, and keeps nothing.
#[derive(Debug, Clone, Copy, PartialEq, Eq)]
pub struct CalmSink;

impl CalmSink {
    /// A sink for bytes that nobody wants.
    pub fn new() -> CalmSink
        ensures { result ≡ record {} }
    {
        CalmSink
    }
}

impl Sink for CalmSink {
    ghost held = { λ _. None };

    ghost faults = { λ _. 0 };

    fn write(&mut self, piece: &[u8]) -> Result<usize, Failed>
        ensures { result ≡ Ok (length piece.now) }
    {
        Ok(piece.len())
    }
}
