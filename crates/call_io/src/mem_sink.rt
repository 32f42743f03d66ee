// A sink over memory.
ghost use Rattle.std.specs.Prelude.{◌≡◌, ℕ, ◌-◌, ◌<◌, ◌≤◌, ◌↔◌, List, [], ◌++◌, Option, Some, length, take, min, IsErr, IfOk, OnErr};
ghost use Rattle.call_io.specs.Bytes.{Grew};
ghost use Rattle.call_io.specs.Counts.{Rose};

use crate::copy::put;
use crate::plan::Failures;
use crate::sink::Sink;
use crate::{Failed, Memory};
use std::alloc::Global;
use std::marker::Model;

/// Holds the bytes written, up to its room, and fails at the calls listed, by their numbers from 1.
#[derive(Drop)]
pub struct MemSink {
    bytes: Vec<u8>,
    used: usize,
    failures: Failures,
}

impl Model for MemSink {
    ghost use Rattle.std.specs.Prelude.{◌≤◌, take, vec_len};
    ghost use Rattle.call_io.specs.Memories.{Store};

    ghost Value = { Store };

    ghost view = { λ s. record { held = take s.used s.bytes.items; room = vec_len s.bytes; plan = s.failures } };

    ghost invariant = { λ s. s.used ≤ vec_len s.bytes };
}

impl MemSink {
    /// Takes the memory for `room` bytes. Writes take none.
    pub fn new(alloc: Global, room: usize, fails: Vec<u64>) -> Result<MemSink, Memory>
        ensures { IfOk result (λ sink. sink ≡ record { held = []; room = room; plan = record { fails = fails.items; calls = 0; faults = 0 } }) }
    {
        let Ok(bytes) = vec![in alloc; 0; room] else {
            return Err(Memory);
        };
        Ok(MemSink {
            bytes,
            used: 0,
            failures: Failures::new(fails),
        })
    }

    /// What was written.
    pub fn bytes(&self) -> &[u8]
        ensures { result.now ≡ self.now.held }
    {
        &self.bytes[..self.used]
    }
}

impl Sink for MemSink {
    ghost use Rattle.call_io.specs.Memories.{WriteFails, plan_after, plan_after_fault};

    ghost held = { λ s. Some s.held };

    ghost faults = { λ s. s.plan.faults };

    fn write(&mut self, piece: &[u8]) -> Result<usize, Failed>
        ensures failed { IsErr result ↔ WriteFails self.old piece.now }
        ensures fault { OnErr result (self.new ≡ record self.old { plan = plan_after_fault self.old.plan }) }
        ensures written { IfOk result (λ n. self.new ≡ record self.old { held = self.old.held ++ take n piece.now; plan = plan_after self.old.plan }) }
        ensures count { IfOk result (λ n. n ≡ min (length piece.now) (self.old.room - length self.old.held)) }

        ensures bound { IfOk result (λ n. n ≤ length piece.now) }
        ensures some { IfOk result (λ n. 0 < length piece.now → 0 < n) }
        ensures bytes { IfOk result (λ n. Grew (Some self.old.held) (Some self.new.held) (take n piece.now)) }
        ensures kept { OnErr result (Some self.new.held ≡ Some self.old.held) }
        ensures cause { OnErr result (Rose self.old.plan.faults self.new.plan.faults) }
        ensures stood { IfOk result (λ _. self.new.plan.faults ≡ self.old.plan.faults) }
        ensures counted { self.old.plan.faults ≤ self.new.plan.faults }
    {
        let is_full = self.used == self.bytes.len();
        if self.failures.next_fails() || (is_full && !piece.is_empty()) {
            self.failures.fail();
            return Err(Failed);
        }
        self.failures.succeed();
        let n = put(&mut self.bytes, self.used, piece);
        self.used += n;
        Ok(n)
    }
}
