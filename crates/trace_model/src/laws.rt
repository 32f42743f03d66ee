//! What holds of all traces. The function here does nothing: its contract is the laws.
ghost use Rattle.std.specs.Prelude.{◌≡◌, ◌≤◌, ◌↔◌, ◌+◌, ℕ, true, List, [], ◌∷◌, ◌++◌};
ghost use Rattle.link_frames.specs.Legs.{least_opening};
ghost use Rattle.link_frames.specs.declared.frame.End.{End};
ghost use Rattle.link_frames.specs.declared.note.Note.TheVariants as note;
ghost use Rattle.trace_model.specs.Safety.{Agreed, Bounded, IsShownFirst, IsWithin, Opened};
ghost use Rattle.trace_model.specs.Safety.{OwesOpening, Safe, TurnsMuted, first_leg, leg_at, leg_behind};
ghost use Rattle.trace_model.specs.declared.entry.Entry.{Entry};

/// What one more entry does to a trace: to its legs, and to each of the rules by which it is safe. A trace that is safe
/// is so up to each of its entries.
pub fn safe_traces()
    ensures leg { (e : End) (c : ℕ) (t : List Entry) (x : Entry) →
        leg_at e c (t ++ x ∷ []) ≡ leg_behind e c (leg_at e c t) x }
    ensures agreed { (t : List Entry) (x : Entry) → Agreed (t ++ x ∷ []) ↔ Agreed t × IsShownFirst t x.note }
    ensures opened { (t : List Entry) (x : Entry) → Opened (t ++ x ∷ []) ↔
        Opened t × ((e : End) (c : ℕ) → OwesOpening e c first_leg t → x.note ≡ note.Voice e c true true) }
    ensures bounded { (t : List Entry) (x : Entry) (now : ℕ) → Bounded (t ++ x ∷ []) now ↔
        Bounded t x.tick
        × ((e : End) (c : ℕ) → TurnsMuted e c (leg_at e c t) x → (leg_at e c t).since + least_opening ≤ x.tick)
        × ((e : End) (c : ℕ) → IsWithin e now (leg_at e c (t ++ x ∷ []))) }
    ensures none { (now : ℕ) → Safe [] now }
    ensures front { (xs ys : List Entry) (x : Entry) (now : ℕ) →
        Safe (xs ++ (x ∷ ys)) now → Safe (xs ++ x ∷ []) x.tick }
{}
