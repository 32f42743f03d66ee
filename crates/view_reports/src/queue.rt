//! The stretches of muting of an end.
ghost use Rattle.std.specs.Prelude.{◌≡◌, ◌∷◌, ◌++◌, [], OnOk, MatchOption, true};
ghost use Rattle.view_reports.specs.Muting.{is_over, left_in, over_in};

use crate::stretch::Stretch;
use call_io::Memory;
use std::alloc::Global;
use std::collections::VecDeque;
use std::marker::Model;

/// The stretches of muting whose bound hasn't passed, in the order in which they began. One whose voice has opened, or whose
/// leg went down, stays until its bound passes.
#[derive(Drop)]
pub(crate) struct Queue {
    stretches: VecDeque<Stretch>,
}

impl Model for Queue {
    ghost use Rattle.std.specs.Prelude.{List};
    ghost use Rattle.view_reports.specs.declared.stretch.Stretch.{Stretch};

    ghost Value = { List Stretch };

    ghost view = { λ q. q.stretches.items };
}

impl Queue {
    /// No stretch. It takes no memory yet.
    pub(crate) fn new(alloc: Global) -> Queue
        ensures { result ≡ [] }
    {
        Queue {
            stretches: VecDeque::new(alloc),
        }
    }

    /// A stretch begins.
    pub(crate) fn push(&mut self, stretch: Stretch) -> Result<(), Memory>
        ensures { OnOk result (self.new ≡ self.old ++ stretch ∷ []) }
    {
        match self.stretches.push_back(stretch) {
            Ok(()) => Ok(()),
            Err(_) => Err(Memory),
        }
    }

    /// Takes the first stretch out, where more ticks than this limit have passed since it began.
    pub(crate) fn pop_over(&mut self, limit: u64, now: u64) -> Option<Stretch>
        ensures { MatchOption result
            ((self.new ≡ self.old) × (over_in limit now self.old ≡ []) × (left_in limit now self.old ≡ self.old))
            (λ s. (self.old ≡ s ∷ self.new) × (is_over limit now s ≡ true)) }
    {
        let first = self.stretches.front().copied()?;
        if now.saturating_sub(first.since) <= limit {
            return None;
        }
        self.stretches.pop_front()
    }
}
