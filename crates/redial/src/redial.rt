//! The dial series of a vehicle.

ghost use Rattle.std.specs.Prelude.{◌≡◌, ◌≢◌, ◌<◌, ◌≤◌, ℕ, IsTrue, IfSome, Some, false, [], option_to_list};

use crate::series::{Move, Next, Phase, Series, Turn};
use link_frames::DialAttempt;
use std::marker::Model;

/// A dial series. Contracts see what it is doing, whether there is network, the number of its last attempt and its
/// ticks.
#[derive(Clone, Copy, Debug, PartialEq, Eq)]
pub struct Redial {
    series: Series,
}

impl Model for Redial {
    ghost use Rattle.redial.specs.declared.series.Series.{Series};
    ghost use Rattle.redial.specs.Series.{IsKept};

    ghost Value = { Series };

    ghost view = { λ r. r.series };

    ghost invariant = { λ r. IsKept r.series };

    ghost inverse = { λ s. record { series = s } };
}

impl Redial {
    ghost use Rattle.redial.specs.Series.{IsKept, most_attempts, is_dialling, is_over, under_way};
    ghost use Rattle.redial.specs.SeriesRows.{begins, fails, told, unit_ticks, due_of};

    /// A series that begins now, and its first move: with network the vehicle dials, else it waits for the network.
    pub fn begin(net: bool) -> (Redial, Next)
        ensures next { result.1 ≡ (begins net).next }
        ensures new { result.0 ≡ (begins net).new }
    {
        let Move { next, new } = Series::begins(net);
        (Redial { series: new }, next)
    }

    /// Whether an attempt is under way.
    pub fn dialling(&self) -> bool
        ensures { result ≡ is_dialling self.now.phase }
    {
        matches!(self.series.phase, Phase::Dialling(_))
    }

    /// Whether the series was given up.
    pub fn over(&self) -> bool
        ensures value { result ≡ is_over self.now.phase }
        ensures kept { IsKept self.now }
    {
        matches!(self.series.phase, Phase::Over)
    }

    /// The number of the last attempt, 0 before the first.
    pub fn attempt(&self) -> u8
        ensures value { result ≡ self.now.attempts }
        ensures most { result ≤ most_attempts }
    {
        self.series.attempts
    }

    /// The attempt that is under way; `None` where none is.
    pub fn under_way(&self) -> Option<DialAttempt>
        ensures { result ≡ under_way self.now }
    {
        match self.series.phase {
            Phase::Dialling(_) => DialAttempt::new(self.series.attempts),
            _ => None,
        }
    }

    /// The attempt that is under way failed.
    pub fn failed(&mut self) -> Next
        requires { IsTrue (is_dialling self.old.phase) }
        ensures next { result ≡ (fails self.old).next }
        ensures new { self.new ≡ (fails self.old).new }
    {
        let Move { next, new } = self.series.fails();
        self.series = new;
        next
    }

    /// The network came up or went down. `None` exactly where the series neither waits for a network that came up nor
    /// dials while it went down.
    pub fn net(&mut self, up: bool) -> Option<Next>
        ensures next { result ≡ (told up self.old).next }
        ensures new { self.new ≡ (told up self.old).new }
    {
        let (next, new) = self.series.told(up);
        self.series = new;
        next
    }

    /// The least number of ticks after which an attempt, a pause or the window of the series ends it or leads on.
    pub fn due(&self) -> u32
        requires { is_over self.now.phase ≡ false }
        ensures value { Some result ≡ due_of self.now }
        ensures turns { (unit_ticks result self.now).turns ≢ [] }
        ensures quiet { (n : ℕ) → n < result → (unit_ticks n self.now).turns ≡ [] }
    {
        self.series.due()
    }

    /// Lets `n` ticks pass, at most `due`, and says what they bring; `None` exactly where they are fewer than `due`.
    pub fn pass(&mut self, n: u32) -> Option<Turn>
        requires over { is_over self.old.phase ≡ false }
        requires due { IfSome (due_of self.old) (λ due. n ≤ due) }
        ensures turn { option_to_list result ≡ (unit_ticks n self.old).turns }
        ensures new { self.new ≡ (unit_ticks n self.old).new }
    {
        let ticked = self.series.grown(n).acts();
        self.series = ticked.new;
        ticked.turn
    }
}
