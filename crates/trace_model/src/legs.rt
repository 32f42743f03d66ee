//! The legs of one end in all calls, as the entries so far have them.

ghost use Rattle.std.specs.Prelude.{◌≡◌, ◌≤◌, ◌↔◌, ◌++◌, [], ◌∷◌, ℕ, IsTrue, List, nat_eq, None, OnOk, Some};
ghost use Rattle.std.specs.HashMap.{get};
ghost use Rattle.link_frames.specs.declared.frame.End.{End};
ghost use Rattle.trace_model.specs.Tallies.{last_tick};
ghost use Rattle.trace_model.specs.declared.entry.Entry.{Entry};
ghost use Rattle.trace_model.specs.LegsStand.{Keeps, LegsStandFor, voice_at};
ghost use Rattle.trace_model.specs.LegsMoved.{AreWithin, Moves, changed, voice_behind};
ghost use Rattle.trace_model.specs.inner.Mutings.{IsOldest, NotesMuting};

use crate::voice::{Voice, behind, is_muted};
use call_io::Memory;
use link_frames::Note;
use std::alloc::Global;
use std::collections::{HashMap, VecDeque};

/// A stretch of muting that began at a tick.
#[derive(Clone, Copy, Debug, PartialEq, Eq)]
struct Muting {
    call: u32,
    since: u64,
}

/// The voices of the legs that are up, by call, and the stretches of muting in the order in which they began. A stretch
/// whose voice has opened, or whose leg went down, stays until it is the first.
#[derive(Drop)]
pub struct Legs {
    up: HashMap<u32, Voice>,
    muted: VecDeque<Muting>,
}

impl Legs {
    /// No leg is up.
    pub fn new(alloc: Global) -> Legs
        ensures { (e : End) → LegsStandFor e result [] }
    {
        Legs {
            up: HashMap::new(alloc),
            muted: VecDeque::new(alloc),
        }
    }

    /// The voice of the leg of this call; None where it isn't up.
    pub fn voice(&self, call: u32) -> Option<Voice>
        ensures { result ≡ voice_at self.now call }
    {
        self.up.get(&call).copied()
    }

    /// An item moves the leg of this call. Behind it the legs stand for the entries with this one, if they stood for
    /// those before, whose ticks aren't above this one.
    pub fn hear(&mut self, call: u32, note: &Note, now: u64) -> Result<(), Memory>
        ensures voices { OnOk result ((q : ℕ) → voice_at self.new q
            ≡ changed (voice_at self.old) call (voice_behind (voice_at self.old call) note.now now) q) }
        ensures keeps { (before : ℕ) → before ≤ now → Keeps (voice_at self.old) self.old.muted.items before →
            OnOk result (Keeps (voice_at self.new) self.new.muted.items now) }
        ensures stands { (e : End) (before : List Entry) → Moves e call note.now → last_tick before ≤ now →
            LegsStandFor e self.old before →
            OnOk result (LegsStandFor e self.new (before ++ (record { tick = now; note = note.now }) ∷ [])) }
    {
        let before = self.voice(call);
        match behind(before, note, now) {
            None => {
                self.lower(call);
                Ok(())
            }
            Some(voice) => {
                self.put(call, voice)?;
                self.note_muting(call, before, voice)
            }
        }
    }

    /// The leg of this call isn't up.
    fn lower(&mut self, call: u32)
        ensures voices { (q : ℕ) → voice_at self.new q ≡ changed (voice_at self.old) call None q }
        ensures muted { self.new.muted ≡ self.old.muted }
    {
        self.up.remove(&call);
    }

    /// The leg of this call is up, with this voice.
    fn put(&mut self, call: u32, voice: Voice) -> Result<(), Memory>
        ensures voices { OnOk result ((q : ℕ) → voice_at self.new q ≡ changed (voice_at self.old) call (Some voice) q) }
        ensures muted { self.new.muted ≡ self.old.muted }
    {
        match self.up.insert(call, voice) {
            Ok(_) => Ok(()),
            Err(_) => Err(Memory),
        }
    }

    /// Notes the stretch of muting that this voice began, unless it is the voice that was there before.
    fn note_muting(&mut self, call: u32, before: Option<Voice>, voice: Voice) -> Result<(), Memory>
        ensures up { self.new.up ≡ self.old.up }
        ensures muted { OnOk result (NotesMuting call before voice self.old.muted.items self.new.muted.items) }
    {
        if voice.talks || is_muted(before, voice.since) {
            return Ok(());
        }
        let muting = Muting {
            call,
            since: voice.since,
        };
        match self.muted.push_back(muting) {
            Ok(()) => Ok(()),
            Err(_) => Err(Memory),
        }
    }

    /// Whether no leg that is up has been muted for longer than this limit.
    pub fn are_within(&mut self, now: u64, limit: u64) -> bool
        ensures up { self.new.up ≡ self.old.up }
        ensures keeps { (before : ℕ) → Keeps (voice_at self.old) self.old.muted.items before →
            Keeps (voice_at self.new) self.new.muted.items before }
        ensures within { (before : ℕ) → Keeps (voice_at self.old) self.old.muted.items before →
            (IsTrue result ↔ AreWithin (voice_at self.old) now limit) }
    {
        match oldest(&self.up, &mut self.muted) {
            Some(since) => now.saturating_sub(since) <= limit,
            None => true,
        }
    }
}

/// Since when the voice that is muted the longest is muted. Stretches in front of that one are let go.
fn oldest(up: &HashMap<u32, Voice>, muted: &mut VecDeque<Muting>) -> Option<u64>
    ensures keeps { (before : ℕ) → Keeps (get nat_eq up.now) muted.old.items before →
        Keeps (get nat_eq up.now) muted.new.items before }
    ensures least { (before : ℕ) → Keeps (get nat_eq up.now) muted.old.items before →
        IsOldest (get nat_eq up.now) result }
{
    while let Some(first) = muted.front().copied() {
        if is_muted(up.get(&first.call).copied(), first.since) {
            return Some(first.since);
        }
        muted.pop_front();
    }
    None
}
