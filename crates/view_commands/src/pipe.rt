//! A writer that notes whether whoever reads it has gone.
ghost use Rattle.std.specs.Prelude.{◌≡◌, false};

use std::io::{self, ErrorKind, Write};

/// Writes to another writer, and notes whether the pipe behind it was closed.
#[derive(Drop)]
pub struct PipeWriter<W> {
    inner: W,
    closed: bool,
}

impl<W> PipeWriter<W> {
    /// Before the first write.
    pub fn new(inner: W) -> PipeWriter<W>
        ensures inner { result.inner ≡ inner }
        ensures closed { result.closed ≡ false }
    {
        PipeWriter {
            inner,
            closed: false,
        }
    }

    /// Whether a write found the pipe closed.
    pub fn is_closed(&self) -> bool
        ensures { result ≡ self.now.closed }
    {
        self.closed
    }
}

impl<W: Write> Write for PipeWriter<W> {
    fn write(&mut self, buf: &[u8]) -> io::Result<usize> {
        let answer = self.inner.write(buf);
        if let Err(error) = &answer {
            self.closed |= error.kind() == ErrorKind::BrokenPipe;
        }
        answer
    }

    fn flush(&mut self) -> io::Result<()> {
        self.inner.flush()
    }
}
