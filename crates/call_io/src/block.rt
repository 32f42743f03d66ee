// A block of bytes between a program and its sink.
ghost use Rattle.std.specs.Prelude.{◌≡◌, ℕ, ◌<◌, ◌≤◌, List, [], Option, length, take, IfOk, OnOk, OnErr};
ghost use Rattle.call_io.specs.Bytes.{Grew};
ghost use Rattle.call_io.specs.Counts.{Rose};
ghost use Rattle.call_io.specs.Ways.{Onward};
ghost use Rattle.call_io.specs.declared.block.TheConstants.{ROOM};

use crate::Failed;
use crate::copy::put;
use crate::sink::Sink;

/// How many bytes a block holds.
pub const ROOM: usize = 8192;

/// Gathers what is written, and hands it to the sink that it borrows when it is full or told to. What is still pending
/// when it goes away is lost: call `empty` before.
#[derive(Drop)]
pub struct Block<'a, O> {
    out: &'a mut O,
    bytes: [u8; ROOM],
    // Those from `start` up to `end` are pending.
    start: usize,
    end: usize,
    ghost in_order: { start ≤ end },
    ghost in_room: { end ≤ ROOM },
}

impl<'a, O> Block<'a, O> {
    ghost use Rattle.call_io.specs.Blocks.{sink, sink_name, pending, free};

    /// A block before this sink, with nothing pending.
    pub fn over(out: &'a mut O) -> Block<'a, O>
        ensures same_sink { sink_name result ≡ out.entry.ghost_name }
        ensures value { sink result ≡ out.old }
        ensures nothing { pending result ≡ [] }
        ensures free { free result ≡ ROOM }
    {
        Block {
            out,
            bytes: [0; ROOM],
            start: 0,
            end: 0,
        }
    }
}

impl<'a, O: Sink> Block<'a, O> {
    ghost use Rattle.call_io.specs.Blocks.{sink, pending, free, held, way};

    /// Hands all that is pending to the sink. After a failure the sink has a front of it, and the rest is pending.
    pub fn empty(&mut self) -> Result<(), Failed>
        ensures ok { OnOk result (pending self.new ≡ []) }
        ensures free { OnOk result (free self.new ≡ ROOM) }
        ensures held { held O.held self.new ≡ held O.held self.old }
        ensures cause { OnErr result (Rose (O.faults (sink self.old)) (O.faults (sink self.new))) }
        ensures stood { OnOk result (O.faults (sink self.new) ≡ O.faults (sink self.old)) }
        ensures counted { O.faults (sink self.old) ≤ O.faults (sink self.new) }
        ensures onward { Onward (way O.held self.old) (way O.held self.new) }
    {
        while self.start < self.end {
            let bytes: &[u8] = &self.bytes;
            self.start += self.out.write(&bytes[self.start..self.end])?;
        }
        self.start = 0;
        self.end = 0;
        Ok(())
    }
}

impl<'a, O: Sink> Sink for Block<'a, O> {
    ghost use Rattle.call_io.specs.Blocks.{sink, free, held, way};

    ghost held = { held O.held };

    ghost faults = { λ block. O.faults (sink block) };

    ghost way = { way O.held };

    fn write(&mut self, piece: &[u8]) -> Result<usize, Failed>
        // Where there is room, nothing goes to the sink.
        ensures alone { 0 < free self.old → sink self.new ≡ sink self.old }

        ensures bound { IfOk result (λ n. n ≤ length piece.now) }
        ensures some { IfOk result (λ n. 0 < length piece.now → 0 < n) }
        ensures bytes { IfOk result (λ n. Grew (held O.held self.old) (held O.held self.new) (take n piece.now)) }
        ensures kept { OnErr result (held O.held self.new ≡ held O.held self.old) }
        ensures cause { OnErr result (Rose (O.faults (sink self.old)) (O.faults (sink self.new))) }
        ensures stood { IfOk result (λ _. O.faults (sink self.new) ≡ O.faults (sink self.old)) }
        ensures counted { O.faults (sink self.old) ≤ O.faults (sink self.new) }
        ensures onward { Onward (way O.held self.old) (way O.held self.new) }
    {
        if self.end == ROOM {
            self.empty()?;
        }
        let n = put(&mut self.bytes, self.end, piece);
        self.end += n;
        Ok(n)
    }
}
