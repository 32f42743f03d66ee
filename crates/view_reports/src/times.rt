//! When a set was sent, shown and acknowledged.
ghost use Rattle.std.specs.Prelude.{◌≡◌};
ghost use Rattle.view_reports.specs.EndTexts.{ticks_between};
ghost use Rattle.view_reports.specs.Sets.{no_times, times_behind};

/// What an item does with a set.
#[derive(Clone, Copy)]
pub(crate) enum Step {
    Sent,
    Shown,
    Acked,
}

/// The ticks at which a set of a call was first sent, shown and acknowledged.
#[derive(Clone, Copy)]
pub(crate) struct Times {
    pub(crate) sent: Option<u64>,
    pub(crate) shown: Option<u64>,
    pub(crate) acked: Option<u64>,
}

impl Times {
    /// Those of a set of which nothing was heard.
    pub(crate) fn new() -> Times
        ensures { result ≡ no_times }
    {
        Times {
            sent: None,
            shown: None,
            acked: None,
        }
    }

    /// Those behind a step at this tick.
    pub(crate) fn behind(&self, step: Step, now: u64) -> Times
        ensures { result ≡ times_behind self.now step now }
    {
        match step {
            Step::Sent => Times {
                sent: Some(self.sent.unwrap_or(now)),
                shown: self.shown,
                acked: self.acked,
            },
            Step::Shown => Times {
                sent: self.sent,
                shown: Some(self.shown.unwrap_or(now)),
                acked: self.acked,
            },
            Step::Acked => Times {
                sent: self.sent,
                shown: self.shown,
                acked: Some(self.acked.unwrap_or(now)),
            },
        }
    }

    /// Behind how many ticks it was acknowledged, where it was sent and acknowledged.
    pub(crate) fn ticks(&self) -> Option<u64>
        ensures { result ≡ ticks_between self.now.sent self.now.acked }
    {
        let sent = self.sent?;
        let acked = self.acked?;
        Some(acked.saturating_sub(sent))
    }
}
