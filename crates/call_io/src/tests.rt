//! What no clause says of the sources and sinks over std's, and of a block.
ghost use Rattle.std.specs.Prelude.{None};

use crate::{Block, Failed, MemSink, Memory, RealSink, RealSource, Sink, Source, write_all};
use std::io;
use std::io::{Error, ErrorKind, Read, Write};
use std::test::Fail;

/// A reader and a writer whose every call is an error.
#[derive(Drop)]
struct Broken;

impl Write for Broken {
    fn write(&mut self, _buf: &[u8]) -> io::Result<usize> {
        Err(Error::from(ErrorKind::NotConnected))
    }

    fn flush(&mut self) -> io::Result<()> {
        Ok(())
    }
}

impl Read for Broken {
    fn read(&mut self, _buf: &mut [u8]) -> io::Result<usize> {
        Err(Error::from(ErrorKind::NotConnected))
    }
}

#[test]
fn calls_of_std_fail(rt: HostRuntime) {
    let mut one = [0];
    let read = RealSource::new(Broken).read(&mut one);
    for answer in [
        read,
        RealSink::new(Broken).write(&one),
        RealSink::new(Broken).write(&[]),
    ] {
        assert_eq!(rt; answer, Err(Failed));
    }
}

/// A sink that counts the calls of `write`, and the bytes.
#[derive(Drop)]
struct Counting {
    writes: u32,
    bytes: u64,
}

impl Sink for Counting {
    ghost held = { λ _. None };

    ghost faults = { λ _. 0 };

    fn write(&mut self, piece: &[u8]) -> Result<usize, Failed> {
        self.writes = self.writes.saturating_add(1);
        self.bytes = self.bytes.saturating_add(piece.len() as u64);
        Ok(piece.len())
    }
}

#[test]
fn a_block_is_handed_on_whole(rt: HostRuntime) -> Result<(), Fail> {
    // 200 pieces of 100 bytes are two blocks of 8192 bytes and 3616 more.
    let mut sink = Counting {
        writes: 0,
        bytes: 0,
    };
    {
        let mut block = Block::over(&mut sink);
        for _ in 0..200 {
            write_all(&mut block, &[7; 100])?;
        }
        block.empty()?;
        block.empty()?;
    }
    assert_eq!(rt; (sink.writes, sink.bytes), (3, 20000));
    Ok(())
}

#[test]
fn what_failed_is_said(rt: HostRuntime) -> Result<(), Fail> {
    let said = format!(in rt.alloc(); "{}; {}", Failed, Memory)?;
    assert_eq!(rt; said.as_str(), "reading or writing failed; out of memory");
    Ok(())
}

#[test]
fn there_is_memory_for_a_sink(rt: HostRuntime) {
    assert!(rt; MemSink::new(rt.alloc(), 4, Vec::new(rt.alloc())).is_ok());
}
