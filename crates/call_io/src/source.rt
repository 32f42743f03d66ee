// What a source of bytes is.
ghost use Rattle.std.specs.Prelude.{◌≡◌, ℕ, ◌<◌, ◌≤◌, List, Option, length, take, IfOk, OnErr};
ghost use Rattle.call_io.specs.Bytes.{Took, EndsExactly};
ghost use Rattle.call_io.specs.Counts.{Rose};

use crate::Failed;

/// Bytes that come in order.
pub trait Source {
    // The bytes still to come, where the source tells them.
    ghost left: { Self → Option (List ℕ) };

    // How many reads failed.
    ghost faults: { Self → ℕ };

    /// Reads into the front of `into`, and answers how many bytes. No bytes into a buffer with
    /// room is the end of the input. A read that failed took nothing.
    fn read(&mut self, into: &mut [u8]) -> Result<usize, Failed>
        ensures bound { IfOk result (λ n. n ≤ length into.new) }
        ensures bytes { IfOk result (λ n. Took (left self.old) (left self.new) (take n into.new)) }
        ensures end { IfOk result (λ n. 0 < length into.old → EndsExactly (left self.old) n) }
        ensures kept { OnErr result (left self.new ≡ left self.old) }
        ensures cause { OnErr result (Rose (faults self.old) (faults self.new)) }
        ensures stood { IfOk result (λ _. faults self.new ≡ faults self.old) }
        ensures counted { faults self.old ≤ faults self.new };
}
