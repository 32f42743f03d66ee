//! What the session does as ticks pass. After EN 16062.
ghost use Rattle.std.specs.Prelude.{◌≡◌, ◌↔◌, ◌≤◌, ◌<◌, ◌+◌, None, IsTrue, IfSome, []};

use super::{LONGEST_ASKING, LONGEST_LISTENING, Phase, REPEATS_EVERY, Session, TELLING};
use link_frames::{Answer, Items, Request, Steps, Timer, Why};
use std::sync::ledger::Ledger;

impl Session {
    ghost use Rattle.std.specs.Prelude.{true, ◌∷◌, ◌==◌, if◌then◌else◌};
    ghost use Rattle.audio_switch.specs.Switch.{unmuted};
    ghost use Rattle.link_frames.specs.Does.{Does};
    ghost use Rattle.link_frames.specs.declared.frame.Frame.TheVariants as frame;
    ghost use Rattle.link_frames.specs.Ranks.{to_next};
    ghost use Rattle.link_frames.specs.Row.{silent};
    ghost use Rattle.link_frames.specs.declared.frame.End.TheVariants as «end»;
    ghost use Rattle.link_frames.specs.declared.note.Note.TheVariants as note;
    ghost use Rattle.psap_machine.specs.Point.{Point, Over};
    ghost use Rattle.psap_machine.specs.PointRows.{acts, due_of, units};
    ghost use Rattle.psap_machine.specs.SessionStands.{SessionIs, SessionStandsFor, IsSettled};
    ghost use Rattle.psap_machine.specs.inner.Ageing.{aged_in, SessionIsDue};

    /// The least ticks that a timer or a repeat of the phase has left.
    pub(super) fn ticks_left(&self) -> Option<u32>
        ensures { (s : Point) → SessionStandsFor self.now s → result ≡ due_of s }
    {
        let wait = match self.phase {
            Phase::Listening => return Some(LONGEST_LISTENING.saturating_sub(self.in_phase)),
            Phase::Asking(_) => LONGEST_ASKING,
            Phase::Telling(_) | Phase::Clearing(_) => TELLING,
            Phase::Talking | Phase::Over => return None,
        };
        let repeat = REPEATS_EVERY - self.in_phase % REPEATS_EVERY;
        Some(wait.saturating_sub(self.in_phase).min(repeat))
    }

    /// Each sum that runs, `n` ticks later; a voice is muted for at most its limit.
    #[inline]
    pub(super) fn age(&mut self, n: u32)
        ensures { self.new ≡ aged_in n self.old self.old.phase }
    {
        if !self.is_over() {
            self.in_phase = self.in_phase.saturating_add(n);
            self.voice.pass_within(n);
        }
    }

    /// Whether it is settled: it only talks, and has for 2 seconds, or it is over. It does nothing however many ticks
    /// pass, and at an event it does the same however many passed.
    pub fn is_settled(&self) -> bool
        ensures state { IsTrue result ↔ IsSettled self.now }
        ensures due { (s : Point) → SessionStandsFor self.now s → IsTrue result → due_of s ≡ None }
    {
        match self.phase {
            Phase::Talking => self.is_long_open(),
            Phase::Over => true,
            _ => false,
        }
    }

    /// Lets `n` ticks of 100 ms pass in which the session does nothing: at least one, and fewer than `due`.
    #[inline]
    pub fn rest<L: Ledger>(&mut self, n: u32, moments: &mut Steps<L>)
        requires least { 1 ≤ n }
        requires due { (s : Point) → SessionStandsFor self.old s → IfSome (due_of s) (λ due. n < due) }
        ensures ticks { Does SessionStandsFor SessionStandsFor self.old self.new [] (units n) }
        ensures settled { IsSettled self.old → IsSettled self.new }
        ensures moments { moments.new ≡ moments.old + 1 }
    {
        moments.tick();
        self.age(n);
    }

    /// What the timers and repeats do that have no ticks left; mostly all have some.
    pub(super) fn acts(&mut self, items: &mut Items)
        requires none { items.old.items ≡ [] }
        ensures { Does SessionIsDue SessionIs self.old self.new items.new.items acts }
    {
        if !self.is_quiet() {
            self.acts_now(items);
        }
    }

    /// Whether no timer is at its end and no frame is sent again. Where frames are repeated, the wait ends at the tick
    /// of a repeat.
    fn is_quiet(&self) -> bool
        ensures { IsTrue result → (s : Point) → SessionIsDue self.now s → acts s ≡ silent s }
    {
        match self.phase {
            Phase::Listening => self.in_phase < LONGEST_LISTENING,
            Phase::Asking(_) | Phase::Telling(_) | Phase::Clearing(_) => {
                !self.in_phase.is_multiple_of(REPEATS_EVERY)
            }
            Phase::Talking | Phase::Over => true,
        }
    }

    /// What the timers and repeats do that have no ticks left.
    #[inline(never)]
    fn acts_now(&mut self, items: &mut Items)
        requires none { items.old.items ≡ [] }
        ensures { Does SessionIsDue SessionIs self.old self.new items.new.items acts }
    {
        let phase = self.phase;
        match phase {
            Phase::Listening if self.in_phase < LONGEST_LISTENING => {}
            Phase::Listening => self.times_out(Timer::T4, items),
            Phase::Asking(request) if self.in_phase < LONGEST_ASKING => self.asks_on(
                request, items,
            ),
            Phase::Asking(_) => self.times_out(Timer::T8, items),
            Phase::Telling(request) if self.in_phase < TELLING => {
                self.tells_on(request, Answer::Positive, items)
            }
            Phase::Telling(_) => self.opens(items),
            Phase::Clearing(request) if self.in_phase < TELLING => {
                self.tells_on(request, Answer::Clear, items)
            }
            Phase::Clearing(_) => self.goes_down(Why::Release, items),
            Phase::Talking | Phase::Over => {}
        }
    }

    /// Sends a request again, where it is time for it.
    fn asks_on(&self, request: Request, items: &mut Items)
        requires none { items.old.items ≡ [] }
        ensures { items.new.items ≡ (if to_next 5 self.now.in_phase == 0
            then note.Send «end».Point self.now.call (frame.Start request) ∷ [] else []) }
    {
        if self.in_phase.is_multiple_of(REPEATS_EVERY) {
            self.starts(request, items);
        }
    }

    /// Sends an application acknowledgement again, where it is time for it.
    fn tells_on(&self, request: Request, answer: Answer, items: &mut Items)
        requires none { items.old.items ≡ [] }
        ensures { items.new.items ≡ (if to_next 5 self.now.in_phase == 0
            then note.Send «end».Point self.now.call (frame.App request answer) ∷ [] else []) }
    {
        if self.in_phase.is_multiple_of(REPEATS_EVERY) {
            self.applies(request, answer, items);
        }
    }

    /// A wait for data ends, and the voice opens.
    fn times_out(&mut self, timer: Timer, items: &mut Items)
        requires none { items.old.items ≡ [] }
        ensures items { items.new.items ≡ note.Ended «end».Point self.old.call timer
            ∷ note.Voice «end».Point self.old.call true true ∷ [] }
        ensures new { self.new ≡ record self.old { phase = Phase.Talking; in_phase = 0; voice = self.new.voice } }
        ensures voice { self.new.voice ≡ record self.old.voice { stretch = unmuted self.old.voice.stretch } }
    {
        self.timer_ends(timer, items);
        self.opens(items);
    }
}
