// What a sink of bytes is, and how a whole piece is written to it.
ghost use Rattle.std.specs.Prelude.{◌≡◌, ℕ, ◌<◌, ◌≤◌, List, Option, length, take, IfOk, OnOk, OnErr};
ghost use Rattle.call_io.specs.Bytes.{Grew, GrewPartly};
ghost use Rattle.call_io.specs.Counts.{Rose};
ghost use Rattle.call_io.specs.Ways.{Way, Onward};

use crate::Failed;

/// Takes bytes in order.
pub trait Sink {
    // The bytes written, where the sink tells them.
    ghost held: { Self → Option (List ℕ) };

    // How many writes failed.
    ghost faults: { Self → ℕ };

    // Which sink it is, and how many bytes went through it for good: told by a sink over a borrowed one.
    ghost way: { Self → Way } = { λ _. record { name = 0; sent = 0 } };

    /// Writes a front of `piece`, and answers how many bytes: at least one of a piece that isn't
    /// empty. A write that failed wrote nothing.
    fn write(&mut self, piece: &[u8]) -> Result<usize, Failed>
        ensures bound { IfOk result (λ n. n ≤ length piece.now) }
        ensures some { IfOk result (λ n. 0 < length piece.now → 0 < n) }
        ensures bytes { IfOk result (λ n. Grew (held self.old) (held self.new) (take n piece.now)) }
        ensures kept { OnErr result (held self.new ≡ held self.old) }
        ensures cause { OnErr result (Rose (faults self.old) (faults self.new)) }
        ensures stood { IfOk result (λ _. faults self.new ≡ faults self.old) }
        ensures counted { faults self.old ≤ faults self.new }
        ensures onward { Onward (way self.old) (way self.new) };
}

/// Writes the whole piece. After a failure a front of it was written.
pub fn write_all<O: Sink>(out: &mut O, piece: &[u8]) -> Result<(), Failed>
    ensures ok { OnOk result (Grew (O.held out.old) (O.held out.new) piece.now) }
    ensures partly { OnErr result (GrewPartly (O.held out.old) (O.held out.new) piece.now) }
    ensures cause { OnErr result (Rose (O.faults out.old) (O.faults out.new)) }
    ensures stood { OnOk result (O.faults out.new ≡ O.faults out.old) }
    ensures counted { O.faults out.old ≤ O.faults out.new }
    ensures onward { Onward (O.way out.old) (O.way out.new) }
{
    let mut done = 0;
    while done < piece.len() {
        done += out.write(&piece[done..])?;
    }
    Ok(())
}
