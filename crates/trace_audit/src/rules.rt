//! The rules by which a trace is safe, judged entry by entry.

ghost use Rattle.std.specs.Prelude.{◌≡◌, ◌≤◌, ◌↔◌, ◌++◌, [], ◌∷◌, ℕ, IsTrue, true, List, IfOk, OnOk, None};
ghost use Rattle.link_frames.specs.declared.frame.End.{End as EndOf};
ghost use Rattle.link_frames.specs.declared.frame.End.TheVariants as «end»;
ghost use Rattle.link_frames.specs.declared.note.Note.TheVariants as item;
ghost use Rattle.link_frames.specs.Legs.{is_data_timer};
ghost use Rattle.trace_model.specs.Safety.{Bounded, IsShownFirst, Safe};
ghost use Rattle.trace_model.specs.declared.entry.Entry.{Entry as EntryOf};
ghost use Rattle.trace_model.specs.Tallies.{last_tick};
ghost use Rattle.trace_audit.specs.Judged.{Judges};
ghost use Rattle.trace_model.specs.LegsStand.{LegsStandFor};
ghost use Rattle.trace_audit.specs.RulesStand.{IsOwed, RulesStandFor};
ghost use Rattle.trace_audit.specs.ShownStands.{ShownStandsFor};
ghost use Rattle.trace_model.specs.LegsMoved.{IsMoved, Moves};
ghost use Rattle.trace_audit.specs.inner.Owed.{is_too_soon, is_fresh, owed_behind, owed_if_muted, voice_of};

use crate::shown::Shown;
use call_io::Memory;
use link_frames::{End, Note, Timer};
use std::alloc::Global;
use trace_model::{Entry, LegOf, Legs, Rule, Voice, leg_of};

/// The most ticks for which the voice of the vehicle's leg is muted without a break.
const VEHICLE_LIMIT: u64 = 320;

/// The same of the point's leg.
const POINT_LIMIT: u64 = 275;

/// The least ticks for which a voice is open before it is muted again.
const LEAST_OPENING: u64 = 20;

/// What the rules need of a trace so far: the legs that are up, the sets that were shown, and the leg whose voice must
/// open next. An entry takes a bounded number of look-ups, all entries together.
#[derive(Drop)]
pub struct Rules {
    vehicle: Legs,
    point: Legs,
    shown: Shown,
    owed: Option<LegOf>,
}

impl Rules {
    /// Before any entry. It takes no memory yet.
    pub fn new(alloc: Global) -> Rules
        ensures { RulesStandFor result [] }
    {
        Rules {
            vehicle: Legs::new(alloc),
            point: Legs::new(alloc),
            shown: Shown::new(alloc),
            owed: None,
        }
    }

    /// Judges one more entry, whose tick isn't below that of the entry before: the lowest rule that it breaks, or
    /// None, and then the rules stand for the entries with this one. After any other answer they aren't used again.
    pub fn hear(&mut self, _alloc: Global, entry: &Entry) -> Result<Option<Rule>, Memory>
        ensures judged { (before : List EntryOf) → RulesStandFor self.old before → last_tick before ≤ entry.now.tick →
            IfOk result (λ broken. Judges (before ++ entry.now ∷ []) entry.now.tick broken
            × (broken ≡ None → RulesStandFor self.new (before ++ entry.now ∷ []))) }
    {
        match self.judge(entry) {
            Some(rule) => Ok(Some(rule)),
            None => {
                self.take(entry)?;
                Ok(None)
            }
        }
    }

    /// The lowest rule that this entry breaks.
    fn judge(&mut self, entry: &Entry) -> Option<Rule>
        ensures judged { (before : List EntryOf) → RulesStandFor self.old before → last_tick before ≤ entry.now.tick →
            Judges (before ++ entry.now ∷ []) entry.now.tick result }
        ensures stands { (before : List EntryOf) → RulesStandFor self.old before → RulesStandFor self.new before }
    {
        if !self.agrees(&entry.note) {
            return Some(Rule::Agreed);
        }
        if !opens(self.owed, &entry.note) {
            return Some(Rule::Opened);
        }
        if self.is_bounded(entry) {
            None
        } else {
            Some(Rule::Bounded)
        }
    }

    /// Whether the set that an item acknowledges, if it does, was shown.
    fn agrees(&self, note: &Note) -> bool
        ensures { (before : List EntryOf) → ShownStandsFor self.now.shown before →
            (IsTrue result ↔ IsShownFirst before note.now) }
    {
        match note {
            Note::Acked {
                call,
                request,
                octets,
            } => self.shown.has(*call, *request, octets),
            _ => true,
        }
    }

    /// Whether no voice is muted for too long, or too soon, at this entry.
    fn is_bounded(&mut self, entry: &Entry) -> bool
        ensures bounded { (before : List EntryOf) → RulesStandFor self.old before → last_tick before ≤ entry.now.tick →
            (IsTrue result ↔ Bounded (before ++ entry.now ∷ []) entry.now.tick) }
        ensures stands { (before : List EntryOf) → RulesStandFor self.old before → RulesStandFor self.new before }
    {
        if !self.vehicle.are_within(entry.tick, VEHICLE_LIMIT) {
            return false;
        }
        if !self.point.are_within(entry.tick, POINT_LIMIT) {
            return false;
        }
        !self.mutes_too_soon(&entry.note, entry.tick)
    }

    /// The voice of an end's leg of a call; None where it isn't up.
    fn voice(&self, end: End, call: u32) -> Option<Voice>
        ensures { result ≡ voice_of self.now end call }
    {
        match end {
            End::Vehicle => self.vehicle.voice(call),
            End::Point => self.point.voice(call),
        }
    }

    /// Whether an item turns a voice muted too soon after it opened.
    fn mutes_too_soon(&self, note: &Note, now: u64) -> bool
        ensures { result ≡ is_too_soon (voice_of self.now) note.now now }
    {
        match note {
            Note::Voice {
                end,
                call,
                up,
                down,
            } => {
                if *up && *down {
                    false
                } else {
                    is_new(self.voice(*end, *call), now)
                }
            }
            _ => false,
        }
    }

    /// The opening that is owed behind this item.
    fn owes(&self, note: &Note) -> Option<LegOf>
        ensures { result ≡ owed_behind (voice_of self.now) note.now }
    {
        match note {
            Note::Ended { end, call, timer } => {
                if is_wait(*timer) {
                    owed_of(self.voice(*end, *call), *end, *call)
                } else {
                    None
                }
            }
            Note::Fault { end, call } => owed_of(self.voice(*end, *call), *end, *call),
            _ => None,
        }
    }

    /// Takes an entry by which the trace stays safe.
    fn take(&mut self, entry: &Entry) -> Result<(), Memory>
        ensures { (before : List EntryOf) → RulesStandFor self.old before → last_tick before ≤ entry.now.tick →
            Safe (before ++ entry.now ∷ []) entry.now.tick →
            OnOk result (RulesStandFor self.new (before ++ entry.now ∷ [])) }
    {
        self.owed = self.owes(&entry.note);
        self.move_leg(entry)?;
        self.show(&entry.note)
    }

    /// Moves the leg that an entry raises or ends, or whose voice it turns.
    fn move_leg(&mut self, entry: &Entry) -> Result<(), Memory>
        ensures vehicle { (before : List EntryOf) → last_tick before ≤ entry.now.tick →
            LegsStandFor «end».Vehicle self.old.vehicle before →
            OnOk result (LegsStandFor «end».Vehicle self.new.vehicle (before ++ entry.now ∷ [])) }
        ensures point { (before : List EntryOf) → last_tick before ≤ entry.now.tick →
            LegsStandFor «end».Point self.old.point before →
            OnOk result (LegsStandFor «end».Point self.new.point (before ++ entry.now ∷ [])) }
        ensures shown { self.new.shown ≡ self.old.shown }
        ensures owed { self.new.owed ≡ self.old.owed }
    {
        match leg_of(&entry.note) {
            Some(leg) => self.move_this(leg, entry),
            None => Ok(()),
        }
    }

    /// Moves this leg.
    fn move_this(&mut self, leg: LegOf, entry: &Entry) -> Result<(), Memory>
        ensures vehicle { (before : List EntryOf) → last_tick before ≤ entry.now.tick →
            Moves leg.of leg.call entry.now.note → LegsStandFor «end».Vehicle self.old.vehicle before →
            OnOk result (LegsStandFor «end».Vehicle self.new.vehicle (before ++ entry.now ∷ [])) }
        ensures point { (before : List EntryOf) → last_tick before ≤ entry.now.tick →
            Moves leg.of leg.call entry.now.note → LegsStandFor «end».Point self.old.point before →
            OnOk result (LegsStandFor «end».Point self.new.point (before ++ entry.now ∷ [])) }
        ensures shown { self.new.shown ≡ self.old.shown }
        ensures owed { self.new.owed ≡ self.old.owed }
    {
        match leg.of {
            End::Vehicle => self.vehicle.hear(leg.call, &entry.note, entry.tick),
            End::Point => self.point.hear(leg.call, &entry.note, entry.tick),
        }
    }

    /// Keeps the set that an item shows, if it shows one.
    fn show(&mut self, note: &Note) -> Result<(), Memory>
        ensures shown { (before : List EntryOf) (x : EntryOf) → x.note ≡ note.now →
            ShownStandsFor self.old.shown before → OnOk result (ShownStandsFor self.new.shown (before ++ x ∷ [])) }
        ensures vehicle { self.new.vehicle ≡ self.old.vehicle }
        ensures point { self.new.point ≡ self.old.point }
        ensures owed { self.new.owed ≡ self.old.owed }
    {
        match note {
            Note::Shown {
                call,
                request,
                octets,
            } => self.shown.add(*call, *request, octets),
            _ => Ok(()),
        }
    }
}

/// Whether an item opens the voice that must open, if one must.
fn opens(owed: Option<LegOf>, note: &Note) -> bool
    ensures { IsTrue result ↔ ((e : EndOf) (c : ℕ) → IsOwed owed e c → note.now ≡ item.Voice e c true true) }
{
    match owed {
        Some(owed) => is_opening(owed, note),
        None => true,
    }
}

/// Whether an item opens this leg's voice both ways.
fn is_opening(owed: LegOf, note: &Note) -> bool
    ensures { IsTrue result ↔ (note.now ≡ item.Voice owed.of owed.call true true) }
{
    match note {
        Note::Voice {
            end,
            call,
            up,
            down,
        } => *end == owed.of && *call == owed.call && *up && *down,
        _ => false,
    }
}

/// Whether a voice was open for less than the least ticks.
fn is_new(voice: Option<Voice>, now: u64) -> bool
    ensures { result ≡ is_fresh voice now }
{
    match voice {
        Some(voice) => voice.talks && now.saturating_sub(voice.since) < LEAST_OPENING,
        None => false,
    }
}

/// Whether a timer is that of a wait for data, or bounds all muting.
fn is_wait(timer: Timer) -> bool
    ensures { result ≡ is_data_timer timer }
{
    match timer {
        Timer::T4 | Timer::T5 | Timer::T6 | Timer::T7 | Timer::T8 | Timer::Sum => true,
        Timer::T1 | Timer::T2 | Timer::T3 | Timer::T10 | Timer::TD | Timer::TW => false,
    }
}

/// The opening that is owed of a leg with this voice: one where it is up and muted.
fn owed_of(voice: Option<Voice>, of: End, call: u32) -> Option<LegOf>
    ensures { result ≡ owed_if_muted voice of call }
{
    let voice = voice?;
    if voice.talks {
        None
    } else {
        Some(LegOf { of, call })
    }
}
