//! What the vehicle does as ticks pass. After EN 16062 and EN 16072.
ghost use Rattle.std.specs.Prelude.{◌≡◌, []};
ghost use Rattle.redial.specs.SeriesRows as series;

use super::moves::ended;
use super::{
    CANCEL_PERIOD, CallStage, INITIATES_EVERY, INITIATION, Ivs, LONGEST_AWAITING, LONGEST_CALL,
    LONGEST_CONFIRMING, LONGEST_SENDING, Left, MOST_MUTED, Phase, SENDS_EVERY,
};
use link_frames::{Items, Note, Request, Timer, Why, put};
use msd_fit::Cause;

impl Ivs {
    ghost use Rattle.std.specs.Prelude.{◌<◌, IsTrue};
    ghost use Rattle.audio_switch.specs.Switch.{muted_ticks};
    ghost use Rattle.link_frames.specs.Does.{Does};
    ghost use Rattle.link_frames.specs.Row.{silent};
    ghost use Rattle.ivs_machine.specs.Vehicle.{Vehicle};
    ghost use Rattle.ivs_machine.specs.VehicleRows.{acts, aged, due_of};
    ghost use Rattle.ivs_machine.specs.IvsStands.{IvsIs, IvsStandsFor};
    ghost use Rattle.ivs_machine.specs.inner.Moves.{stage_left};
    ghost use Rattle.ivs_machine.specs.inner.Passing.{IvsMayPass, IvsIsDue, call_aged};

    /// The least ticks that a timer or a repeat of the phase has left.
    #[tactic(auto, using(crate::proofs::SeriesPasses::due_in_series))]
    pub(super) fn ticks_left(&self) -> Option<u32>
        ensures { (v : Vehicle) → IvsStandsFor self.now v → result ≡ due_of v }
    {
        match self.phase {
            Phase::Idle => None,
            Phase::Standby => self.standby.due(),
            Phase::Arming(_) => Some(CANCEL_PERIOD.saturating_sub(self.in_phase)),
            Phase::InSeries => self.left_in_series(),
            Phase::InCall(stage) => {
                let call = LONGEST_CALL.saturating_sub(self.call.ticks);
                Some(call.min(self.left_in(stage)))
            }
        }
    }

    /// The least ticks that a timer of the series has left; `None` where it is over.
    fn left_in_series(&self) -> Option<u32>
        ensures { result ≡ series.due_of self.now.redial }
    {
        if self.redial.over() {
            None
        } else {
            Some(self.redial.due())
        }
    }

    /// The least ticks that a timer or a repeat of this stage has left.
    fn left_in(&self, stage: CallStage) -> u32
        ensures { result ≡ stage_left self.now stage }
    {
        let muted = MOST_MUTED.saturating_sub(self.call.voice.muted_for());
        let ticks = self.in_phase;
        match stage {
            CallStage::Initiating => {
                let repeat = INITIATES_EVERY - ticks % INITIATES_EVERY;
                muted.min(INITIATION.saturating_sub(ticks)).min(repeat)
            }
            CallStage::Awaiting => muted.min(LONGEST_AWAITING.saturating_sub(ticks)),
            CallStage::Sending(_) => {
                let repeat = SENDS_EVERY - ticks % SENDS_EVERY;
                muted.min(LONGEST_SENDING.saturating_sub(ticks)).min(repeat)
            }
            CallStage::Confirming(_) => muted.min(LONGEST_CONFIRMING.saturating_sub(ticks)),
            CallStage::Talking => u32::MAX,
        }
    }

    /// Lets ticks pass, and does what the timers and repeats bring that have no ticks left then.
    pub(super) fn elapse(&mut self, n: u32, items: &mut Items)
        requires none { items.old.items ≡ [] }
        ensures { Does (IvsMayPass n) IvsIs self.old self.new items.new.items (λ v. acts (aged n v)) }
    {
        match self.phase {
            Phase::Idle => {}
            Phase::Standby => self.standby_passes(n, items),
            Phase::Arming(before) => self.arming_passes(before, n, items),
            Phase::InSeries => self.series_passes(n, items),
            Phase::InCall(stage) => self.call_passes(stage, n, items),
        }
    }

    /// Lets ticks of the standby pass, which may end.
    fn standby_passes(&mut self, n: u32, items: &mut Items)
        requires none { items.old.items ≡ [] }
        requires phase { self.old.phase ≡ Phase.Standby }
        ensures { Does (IvsMayPass n) IvsIs self.old self.new items.new.items (λ v. acts (aged n v)) }
    {
        if self.standby.pass(n) {
            self.phase = Phase::Idle;
            ended(Timer::T10, items);
            put(items, &Note::Idle);
        }
    }

    /// Lets ticks of the cancel period pass, and of a standby that was left for it.
    fn arming_passes(&mut self, before: Left, n: u32, items: &mut Items)
        requires none { items.old.items ≡ [] }
        requires phase { self.old.phase ≡ Phase.Arming before }
        ensures { Does (IvsMayPass n) IvsIs self.old self.new items.new.items (λ v. acts (aged n v)) }
    {
        if let Left::Standby = before {
            let _ended = self.standby.pass(n);
        }
        self.in_phase = self.in_phase.saturating_add(n);
        if self.in_phase >= CANCEL_PERIOD {
            self.cause = Cause::Manual;
            self.sets_made = 0;
            ended(Timer::T1, items);
            self.begins(items);
        }
    }

    /// Lets ticks of a call pass.
    fn call_passes(&mut self, stage: CallStage, n: u32, items: &mut Items)
        requires none { items.old.items ≡ [] }
        requires phase { self.old.phase ≡ Phase.InCall stage }
        ensures { Does (IvsMayPass n) IvsIs self.old self.new items.new.items (λ v. acts (aged n v)) }
    {
        self.age(n);
        self.acts(stage, items)
    }

    /// Each sum of a call, `n` ticks later; a voice is muted for at most its limit.
    fn age(&mut self, n: u32)
        ensures { self.new ≡ call_aged n self.old }
    {
        self.call.ticks = self.call.ticks.saturating_add(n);
        self.in_phase = self.in_phase.saturating_add(n);
        let room = self.call.voice.room().unwrap_or(n);
        self.call.voice.pass(n.min(room));
    }

    /// What the timers and repeats of a call do that have no ticks left; mostly all have some.
    fn acts(&mut self, stage: CallStage, items: &mut Items)
        requires none { items.old.items ≡ [] }
        requires phase { self.old.phase ≡ Phase.InCall stage }
        ensures { Does IvsIsDue IvsIs self.old self.new items.new.items acts }
    {
        if !self.is_quiet() {
            self.acts_now(stage, items);
        }
    }

    /// Whether the vehicle is in a call, no timer of which is at its end, and nothing is repeated.
    fn is_quiet(&self) -> bool
        ensures { IsTrue result → (v : Vehicle) → IvsIsDue self.now v → acts v ≡ silent v }
    {
        match self.phase {
            Phase::InCall(stage) => self.call.ticks < LONGEST_CALL && self.is_quiet_in(stage),
            _ => false,
        }
    }

    /// Whether no timer of this stage is at its end and nothing is repeated.
    fn is_quiet_in(&self, stage: CallStage) -> bool
        requires { self.now.phase ≡ Phase.InCall stage }
        ensures { IsTrue result → self.now.call.ticks < LONGEST_CALL →
            (v : Vehicle) → IvsIsDue self.now v → acts v ≡ silent v }
    {
        let ticks = self.in_phase;
        let is_within = match stage {
            CallStage::Initiating => ticks < INITIATION && !ticks.is_multiple_of(INITIATES_EVERY),
            CallStage::Awaiting => ticks < LONGEST_AWAITING,
            CallStage::Sending(_) => ticks < LONGEST_SENDING && !ticks.is_multiple_of(SENDS_EVERY),
            CallStage::Confirming(_) => ticks < LONGEST_CONFIRMING,
            CallStage::Talking => true,
        };
        is_within && self.call.voice.muted_for() < MOST_MUTED
    }

    /// The timers and repeats of a call, by rank.
    #[inline(never)]
    fn acts_now(&mut self, stage: CallStage, items: &mut Items)
        requires none { items.old.items ≡ [] }
        requires phase { self.old.phase ≡ Phase.InCall stage }
        ensures { Does IvsIsDue IvsIs self.old self.new items.new.items acts }
    {
        if self.call.ticks >= LONGEST_CALL {
            self.ends(Timer::T2, items);
            return self.is_released(items);
        }
        if self.call.voice.muted_for() >= MOST_MUTED {
            return self.times_out(Timer::Sum, true, items);
        }
        match stage {
            CallStage::Initiating => self.acts_initiating(items),
            CallStage::Awaiting if self.in_phase >= LONGEST_AWAITING => {
                self.times_out(Timer::T5, true, items)
            }
            CallStage::Sending(request) => self.acts_sending(request, items),
            CallStage::Confirming(_) if self.in_phase >= LONGEST_CONFIRMING => {
                self.times_out(Timer::T6, false, items)
            }
            CallStage::Awaiting | CallStage::Confirming(_) | CallStage::Talking => {}
        }
    }

    /// The end of the initiation, or its repeat.
    fn acts_initiating(&mut self, items: &mut Items)
        requires none { items.old.items ≡ [] }
        requires phase { self.old.phase ≡ Phase.InCall CallStage.Initiating }
        requires call { self.old.call.ticks < LONGEST_CALL }
        requires sum { muted_ticks self.old.call.voice.stretch < MOST_MUTED }
        ensures { Does IvsIsDue IvsIs self.old self.new items.new.items acts }
    {
        if self.in_phase >= INITIATION {
            self.enters(CallStage::Awaiting);
            self.ends(Timer::T3, items);
        } else if self.in_phase.is_multiple_of(INITIATES_EVERY) {
            self.initiates(items);
        }
    }

    /// The end of sending a set, or the next attempt.
    fn acts_sending(&mut self, request: Request, items: &mut Items)
        requires none { items.old.items ≡ [] }
        requires phase { self.old.phase ≡ Phase.InCall (CallStage.Sending request) }
        requires call { self.old.call.ticks < LONGEST_CALL }
        requires sum { muted_ticks self.old.call.voice.stretch < MOST_MUTED }
        ensures { Does IvsIsDue IvsIs self.old self.new items.new.items acts }
    {
        if self.in_phase >= LONGEST_SENDING {
            self.times_out(Timer::T7, true, items)
        } else if self.in_phase.is_multiple_of(SENDS_EVERY) {
            self.sends_again(request, items);
        }
    }
}
