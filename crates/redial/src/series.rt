//! What a dial series does, move by move.

ghost use Rattle.std.specs.Prelude.{◌≡◌, ◌<◌, false};

use link_frames::{DialAttempt, Timer};

/// TD, the longest attempt to dial: 30 seconds, in ticks of 100 ms.
pub const LONGEST_ATTEMPT: u32 = 300;

/// TR, the pause between two attempts: 5 seconds, in ticks of 100 ms.
pub const PAUSE: u32 = 50;

/// TW, the window of a series: 2 minutes, in ticks of 100 ms. No attempt begins after it.
pub const WINDOW: u32 = 1200;

/// The most attempts of one series.
pub const MOST_ATTEMPTS: u8 = 10;

/// What follows for the vehicle.
#[derive(Clone, Copy, Debug, PartialEq, Eq)]
pub enum Next {
    /// It dials, for the attempt of this number.
    Dial(DialAttempt),
    /// It waits before the next attempt.
    Pause,
    /// It waits for the network.
    Seek,
    /// The series is over without a call.
    GaveUp,
}

/// What a timer of the series leads to, and which one a trace names as ended: the attempt's or the window's, and none
/// where a pause is over.
#[derive(Clone, Copy, Debug, PartialEq, Eq)]
pub struct Turn {
    pub ended: Option<Timer>,
    pub next: Next,
}

/// What the series is doing, with the ticks of an attempt or of a pause.
#[derive(Clone, Copy, Debug, PartialEq, Eq)]
pub enum Phase {
    Dialling(u32),
    Pausing(u32),
    Seeking,
    Over,
}

#[derive(Clone, Copy, Debug, PartialEq, Eq)]
pub struct Series {
    pub phase: Phase,
    /// Whether there is network.
    pub net: bool,
    /// The number of the last attempt, 0 before the first.
    pub attempts: u8,
    /// The ticks of the series.
    pub ticks: u32,
}

/// A move: what follows, and the series then.
#[derive(Clone, Copy, Debug, PartialEq, Eq)]
pub struct Move {
    pub next: Next,
    pub new: Series,
}

/// What a tick brings, if anything, and the series then.
#[derive(Clone, Copy, Debug, PartialEq, Eq)]
pub struct Ticked {
    pub turn: Option<Turn>,
    pub new: Series,
}

impl Series {
    ghost use Rattle.redial.specs.Series.{most_attempts, is_over, IsKept};
    ghost use Rattle.redial.specs.SeriesRows.{dials, seeks, pauses, gives_up, fails, goes_on, begins, told, grown, acts, due_of};
    ghost use Rattle.redial.specs.inner.Kept.{MayDial, IsGrownIn};

    /// The first move of a series.
    pub fn begins(net: bool) -> Move
        ensures { result ≡ begins net }
    {
        let series = Series {
            phase: Phase::Seeking,
            net,
            attempts: 0,
            ticks: 0,
        };
        series.goes_on()
    }

    fn dials(self) -> Move
        requires { self.attempts < most_attempts }
        ensures { result ≡ dials self }
    {
        let attempt = DialAttempt::new(self.attempts + 1).unwrap();
        Move {
            next: Next::Dial(attempt),
            new: Series {
                phase: Phase::Dialling(0),
                attempts: attempt.number(),
                ..self
            },
        }
    }

    fn seeks(self) -> Move
        ensures { result ≡ seeks self }
    {
        Move {
            next: Next::Seek,
            new: Series {
                phase: Phase::Seeking,
                ..self
            },
        }
    }

    fn pauses(self) -> Move
        ensures { result ≡ pauses self }
    {
        Move {
            next: Next::Pause,
            new: Series {
                phase: Phase::Pausing(0),
                ..self
            },
        }
    }

    fn gives_up(self) -> Move
        ensures { result ≡ gives_up self }
    {
        Move {
            next: Next::GaveUp,
            new: Series {
                phase: Phase::Over,
                ..self
            },
        }
    }

    /// An attempt failed.
    pub fn fails(self) -> Move
        ensures { result ≡ fails self }
    {
        if self.attempts == MOST_ATTEMPTS || self.ticks >= WINDOW {
            self.gives_up()
        } else {
            self.pauses()
        }
    }

    /// The next attempt where there is network.
    fn goes_on(self) -> Move
        requires { self.attempts < most_attempts }
        ensures { result ≡ goes_on self }
    {
        if self.net { self.dials() } else { self.seeks() }
    }

    /// What the network brings that comes up or goes down.
    pub fn told(self, up: bool) -> (Option<Next>, Series)
        requires { MayDial self self.phase }
        ensures next { result.0 ≡ (told up self).next }
        ensures new { result.1 ≡ (told up self).new }
    {
        let series = Series { net: up, ..self };
        let Move { next, new } = match (up, self.phase) {
            (true, Phase::Seeking) => series.dials(),
            (false, Phase::Dialling(_)) => series.fails(),
            _ => return (None, series),
        };
        (Some(next), new)
    }

    /// After how many ticks a timer brings something.
    pub fn due(self) -> u32
        requires kept { IsKept self }
        requires over { is_over self.phase ≡ false }
        ensures { Some result ≡ due_of self }
    {
        match self.phase {
            Phase::Dialling(ticks) => LONGEST_ATTEMPT.saturating_sub(ticks),
            Phase::Pausing(ticks) => WINDOW
                .saturating_sub(self.ticks)
                .min(PAUSE.saturating_sub(ticks)),
            Phase::Seeking => WINDOW.saturating_sub(self.ticks),
            Phase::Over => unreachable!(),
        }
    }

    /// The series `n` ticks later, before its timers bring anything.
    pub fn grown(self, n: u32) -> Series
        requires { IsGrownIn (grown n self) (grown n self).phase }
        ensures { result ≡ grown n self }
    {
        let phase = match self.phase {
            Phase::Dialling(ticks) => Phase::Dialling(ticks + n),
            Phase::Pausing(ticks) => Phase::Pausing(ticks + n),
            Phase::Seeking => Phase::Seeking,
            Phase::Over => return self,
        };
        Series {
            phase,
            ticks: self.ticks + n,
            ..self
        }
    }

    /// What the timers bring that have no ticks left.
    pub fn acts(self) -> Ticked
        requires { MayDial self self.phase }
        ensures { result ≡ acts self }
    {
        match self.phase {
            Phase::Dialling(ticks) if ticks >= LONGEST_ATTEMPT => {
                self.fails().at_end_of(Some(Timer::TD))
            }
            Phase::Pausing(_) if self.ticks >= WINDOW => {
                self.gives_up().at_end_of(Some(Timer::TW))
            }
            Phase::Seeking if self.ticks >= WINDOW => self.gives_up().at_end_of(Some(Timer::TW)),
            Phase::Pausing(ticks) if ticks >= PAUSE => self.goes_on().at_end_of(None),
            _ => Ticked {
                turn: None,
                new: self,
            },
        }
    }
}

impl Move {
    /// The move as what the end of a timer brings.
    fn at_end_of(self, ended: Option<Timer>) -> Ticked
        ensures { result ≡ record { turn = Some (record { ended = ended; next = self.next }); new = self.new } }
    {
        Ticked {
            turn: Some(Turn {
                ended,
                next: self.next,
            }),
            new: self.new,
        }
    }
}
