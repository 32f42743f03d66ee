// A source over memory.
ghost use Rattle.std.specs.Prelude.{◌≡◌, ℕ, ◌<◌, ◌≤◌, ◌↔◌, List, Option, Some, length, take, drop, min, IsErr, IfOk, OnErr};
ghost use Rattle.call_io.specs.Bytes.{Took, EndsExactly};
ghost use Rattle.call_io.specs.Counts.{Rose};

use crate::Failed;
use crate::copy::give;
use crate::plan::Failures;
use crate::source::Source;
use std::marker::Model;

/// Gives the bytes of a list, so many at a call, and fails at the calls listed, by their numbers
/// from 1.
#[derive(Drop)]
pub struct MemSource {
    bytes: Vec<u8>,
    at: usize,
    most: usize,
    failures: Failures,
}

impl Model for MemSource {
    ghost use Rattle.std.specs.Prelude.{◌≤◌, drop, vec_len};
    ghost use Rattle.call_io.specs.Memories.{Supply};

    ghost Value = { Supply };

    ghost view = { λ s. record { left = drop s.at s.bytes.items; most = s.most; plan = s.failures } };

    ghost invariant = { λ s. (s.at ≤ vec_len s.bytes) × (1 ≤ s.most) };
}

impl MemSource {
    /// Gives at most `most` bytes a call.
    pub fn new(bytes: Vec<u8>, most: usize, fails: Vec<u64>) -> MemSource
        requires { 1 ≤ most }
        ensures { result ≡ record { left = bytes.items; most = most; plan = record { fails = fails.items; calls = 0; faults = 0 } } }
    {
        MemSource {
            bytes,
            at: 0,
            most,
            failures: Failures::new(fails),
        }
    }
}

impl Source for MemSource {
    ghost use Rattle.call_io.specs.Memories.{NextFails, plan_after, plan_after_fault};

    ghost left = { λ s. Some s.left };

    ghost faults = { λ s. s.plan.faults };

    fn read(&mut self, into: &mut [u8]) -> Result<usize, Failed>
        ensures failed { IsErr result ↔ NextFails self.old.plan }
        ensures fault { OnErr result (self.new ≡ record self.old { plan = plan_after_fault self.old.plan }) }
        ensures read { IfOk result (λ n. self.new ≡ record self.old { left = drop n self.old.left; plan = plan_after self.old.plan }) }
        ensures count { IfOk result (λ n. n ≡ min self.old.most (min (length into.old) (length self.old.left))) }
        ensures given { IfOk result (λ n. take n into.new ≡ take n self.old.left) }

        ensures bound { IfOk result (λ n. n ≤ length into.new) }
        ensures bytes { IfOk result (λ n. Took (Some self.old.left) (Some self.new.left) (take n into.new)) }
        ensures end { IfOk result (λ n. 0 < length into.old → EndsExactly (Some self.old.left) n) }
        ensures kept { OnErr result (Some self.new.left ≡ Some self.old.left) }
        ensures cause { OnErr result (Rose self.old.plan.faults self.new.plan.faults) }
        ensures stood { IfOk result (λ _. self.new.plan.faults ≡ self.old.plan.faults) }
        ensures counted { self.old.plan.faults ≤ self.new.plan.faults }
    {
        if self.failures.next_fails() {
            self.failures.fail();
            return Err(Failed);
        }
        self.failures.succeed();
        let n = give(&self.bytes[self.at..], self.most, into);
        self.at += n;
        Ok(n)
    }
}
