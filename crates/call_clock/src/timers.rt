//! Eight timers, kept as deadlines, so that no time that passes costs more than another.

ghost use Rattle.std.specs.Prelude.{◌≡◌, ◌≤◌, ◌<◌, ◌↔◌, ℕ, IsTrue, IfSome, IsSome, IsNone, None, slice_set, length, ◌^◌};
ghost use Rattle.call_clock.specs.Timers.{sooner, left_at, due_of, is_at_end, first_at_end};
ghost use Rattle.call_clock.specs.Clock.{seen, all_seen, IsAhead, AreAhead};

use std::marker::Model;

/// How many ranks there are: they are numbered from 0, the first to act.
pub const RANKS: usize = 8;

/// A timer that runs, with its deadline on a clock that goes round.
#[derive(Clone, Copy, Debug, PartialEq, Eq)]
struct Timer {
    length: u32,
    deadline: u32,
}

/// Eight timers by rank. Contracts see for each rank whether a timer runs there, how long it lasts and for how many
/// ticks it has run.
#[derive(Clone, Debug, Drop)]
pub struct Timers {
    /// The clock's time. It goes round after 2^32 ticks, and no deadline is further ahead than that.
    time: u32,
    places: [Option<Timer>; RANKS],
}

impl Model for Timers {
    ghost use Rattle.std.specs.Prelude.{List};
    ghost use Rattle.call_clock.specs.Timers.{Place};
    ghost use Rattle.call_clock.specs.Clock.{all_seen, AreAhead};

    ghost Value = { List Place };

    ghost view = { λ t. all_seen t.time t.places };

    ghost invariant = { λ t. AreAhead t.time t.places };
}

impl Timer {
    ghost use Rattle.std.specs.Prelude.{◌≡◌};
    ghost use Rattle.call_clock.specs.Clock.{ticks_until};

    /// The ticks from now to its deadline.
    fn left(self, now: u32) -> u32
        ensures { result ≡ ticks_until now self.deadline }
    {
        self.deadline.wrapping_sub(now)
    }
}

impl Timers {
    ghost use Rattle.call_clock.specs.Timers.{AreTimers, none_running, started, runs_at, all_aged, first_at_end, without, due_of};

    /// Timers of which none runs.
    pub fn new() -> Timers
        ensures { result ≡ none_running }
    {
        Timers {
            time: 0,
            places: [None; RANKS],
        }
    }

    /// Starts the timer of this rank for `length` ticks from now on, also where it runs.
    pub fn start(&mut self, rank: u8, length: u32)
        requires rank { rank < RANKS }
        requires length { 1 ≤ length }
        ensures { self.new ≡ slice_set self.old rank (started length) }
    {
        self.places[rank as usize] = Some(Timer {
            length,
            deadline: self.time.wrapping_add(length),
        });
    }

    /// Stops the timer of this rank, if it runs.
    pub fn stop(&mut self, rank: u8)
        ensures { self.new ≡ slice_set self.old rank None }
    {
        if (rank as usize) < RANKS {
            self.places[rank as usize] = None;
        }
    }

    /// Whether the timer of this rank runs; one that is at its end does, until `pass` or `stop` stops it.
    pub fn runs(&self, rank: u8) -> bool
        ensures { result ≡ runs_at self.now rank }
    {
        matches!(self.places.get(rank as usize), Some(Some(_)))
    }

    /// After how many ticks a running timer is first at its end; `None` where none runs.
    pub fn due(&self) -> Option<u32>
        ensures value { result ≡ due_of self.now }
        ensures none { IsNone result ↔ (self.now ≡ none_running) }
        ensures at_end { IfSome result (λ n. IsSome (first_at_end (all_aged n self.now))) }
        ensures before { IfSome result (λ n. (k : ℕ) → k < n → first_at_end (all_aged k self.now) ≡ None) }
        ensures kept { AreTimers self.now }
    {
        soonest(&self.places, self.time)
    }

    /// Lets `n` ticks pass, which is at most `due`, and any number where none runs. Of the timers that are then at their
    /// end it stops the one of the lowest rank, and answers that rank; the others stay at their end, and `due` is 0.
    pub fn pass(&mut self, n: u32) -> Option<u8>
        requires { IfSome (due_of self.old) (λ due. n ≤ due) }
        ensures ended { result ≡ first_at_end (all_aged n self.old) }
        ensures passed { self.new ≡ without (first_at_end (all_aged n self.old)) (all_aged n self.old) }
        ensures rank { IfSome result (λ rank. rank < RANKS) }
    {
        self.advance(n);
        let rank = self.first_ended()?;
        self.stop(rank);
        Some(rank)
    }

    /// Lets `n` ticks pass and stops nothing.
    fn advance(&mut self, n: u32)
        requires { IfSome (due_of self.old) (λ due. n ≤ due) }
        ensures { self.new ≡ all_aged n self.old }
    {
        self.time = self.time.wrapping_add(n);
    }

    /// The lowest rank whose timer is at its end.
    fn first_ended(&self) -> Option<u8>
        ensures value { result ≡ first_at_end self.now }
        ensures rank { IfSome result (λ rank. rank < RANKS) }
    {
        first_ended(&self.places, self.time)
    }
}

/// The ticks that a place has left.
fn left_of(place: Option<Timer>, now: u32) -> Option<u32>
    requires { IfSome place (IsAhead now) }
    ensures { result ≡ left_at (seen now place) }
{
    place.map(|timer| timer.left(now))
}

/// Whether the timer at a place is at its end.
fn has_ended(place: Option<Timer>, now: u32) -> bool
    requires { IfSome place (IsAhead now) }
    ensures { result ≡ is_at_end (seen now place) }
{
    left_of(place, now) == Some(0)
}

/// The lesser of two numbers of ticks, of which either may be missing.
fn sooner_of(a: Option<u32>, b: Option<u32>) -> Option<u32>
    ensures { result ≡ sooner a b }
{
    match (a, b) {
        (Some(a), Some(b)) => Some(a.min(b)),
        (None, b) => b,
        (a, None) => a,
    }
}

/// The least number of ticks that a timer has left.
fn soonest(places: &[Option<Timer>], now: u32) -> Option<u32>
    requires { AreAhead now places.now }
    ensures { result ≡ due_of (all_seen now places.now) }
{
    let mut due = None;
    for place in places {
        due = sooner_of(due, left_of(*place, now));
    }
    due
}

/// The lowest rank whose timer is at its end.
fn first_ended(places: &[Option<Timer>], now: u32) -> Option<u8>
    requires ahead { AreAhead now places.now }
    requires ranks { length places.now ≤ RANKS }
    ensures value { result ≡ first_at_end (all_seen now places.now) }
    ensures rank { IfSome result (λ rank. rank < RANKS) }
{
    for (rank, place) in places.iter().enumerate() {
        if has_ended(*place, now) {
            return Some(rank as u8);
        }
    }
    None
}
