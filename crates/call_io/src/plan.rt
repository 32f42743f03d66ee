// Which calls of a source or a sink over memory fail.
ghost use Rattle.std.specs.Prelude.{◌≡◌, ℕ, ◌≤◌, ◌↔◌, List, IsTrue, MatchBool};
ghost use Rattle.call_io.specs.Counts.{Rose, count_up};

use std::marker::Model;

/// The numbers of the calls that fail, and the counts of calls and of faults so far.
#[derive(Drop)]
pub struct Failures {
    fails: Vec<u64>,
    calls: u64,
    faults: u64,
}

impl Model for Failures {
    ghost use Rattle.call_io.specs.Memories.{Plan};

    ghost Value = { Plan };

    ghost view = { λ s. record { fails = s.fails.items; calls = s.calls; faults = s.faults } };
}

impl Failures {
    ghost use Rattle.call_io.specs.Memories.{NextFails, plan_after, plan_after_fault};

    pub fn new(fails: Vec<u64>) -> Failures
        ensures { result ≡ record { fails = fails.items; calls = 0; faults = 0 } }
    {
        Failures {
            fails,
            calls: 0,
            faults: 0,
        }
    }

    /// Whether the next call fails by its number. It is not counted yet.
    pub fn next_fails(&self) -> bool
        ensures { IsTrue result ↔ NextFails self.now }
    {
        self.fails.contains(&self.calls.saturating_add(1))
    }

    /// Counts a call that succeeds.
    pub fn succeed(&mut self)
        ensures { self.new ≡ plan_after self.old }
    {
        self.calls = self.calls.saturating_add(1);
    }

    /// Counts a call that fails.
    pub fn fail(&mut self)
        ensures after { self.new ≡ plan_after_fault self.old }
        ensures rose { Rose self.old.faults self.new.faults }
        ensures counted { self.old.faults ≤ self.new.faults }
    {
        self.calls = self.calls.saturating_add(1);
        self.faults = self.faults.saturating_add(1);
    }
}
