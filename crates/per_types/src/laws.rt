//! What holds of all spellings and readings. Each function here does nothing: its contract is the law.
ghost use Rattle.std.specs.Prelude.{◌≡◌, ℕ, ◌<◌, ◌≤◌, ℤ, ◌≤ℤ◌, Bool, false, List, [], ◌++◌};
ghost use Rattle.std.specs.List.{Contains};
ghost use Rattle.per_types.specs.Kinds.{IsLeastWidth, width_of};
ghost use Rattle.per_types.specs.Types.{Ty, Tree};
ghost use Rattle.per_types.specs.Spelling.{Elements, Spells, Canonical, TruthElements, WholeElements, PresenceElements, CharacterElements, SmallElements, LengthElements, StringElements, OidElements, FormatElements, OpenElements, SectionElements};
ghost use Rattle.per_types.specs.Writing.{EnumElements};
ghost use Rattle.per_types.specs.Stops.{IsOnlyReading, HasValues};
ghost use Rattle.per_types.specs.Reading.{truth_at, enum_at, whole_at, presence_at, character_at, small_at, length_at, format_at, content_at, members_at, tree_at, string_at, object_at};

/// No spelling begins another one of its type, and each stands for one value.
pub fn spellings_are_apart()
    ensures no_prefix { (t : Ty) (v w : Tree) (b c tail : List Bool) → Spells t v b → Spells t w c → c ≡ b ++ tail → tail ≡ [] }
    ensures one_value { (t : Ty) (v w : Tree) (b : List Bool) → Spells t v b → Spells t w b → v ≡ w }
{}

/// The canonical spelling is a spelling, and a value has one at most.
pub fn canonical_is_one()
    ensures spells { (t : Ty) (v : Tree) (b : List Bool) → Canonical t v b → Spells t v b }
    ensures one { (t : Ty) (v : Tree) (b c : List Bool) → Canonical t v b → Canonical t v c → b ≡ c }
{}

/// Reading a type answers what is spelled there, or why nothing is: of the two exactly one holds, with one
/// value and one refusal.
pub fn types_are_read()
    ensures { (t : Ty) → HasValues t → IsOnlyReading (Elements false t) (tree_at t) }
{}

/// The same for each kind on its own.
pub fn kinds_are_read()
    ensures truth { IsOnlyReading TruthElements truth_at }
    ensures enumeration { (roots : ℕ) → 1 ≤ roots → IsOnlyReading (EnumElements roots) (enum_at roots) }
    ensures whole { (low high : ℤ) → low ≤ℤ high → IsOnlyReading (WholeElements low high) (whole_at low high) }
    ensures presence { (n : ℕ) → IsOnlyReading (PresenceElements n) (presence_at n) }
    ensures character { IsOnlyReading CharacterElements character_at }
    ensures small { IsOnlyReading SmallElements small_at }
    ensures length { IsOnlyReading LengthElements length_at }
    ensures string { IsOnlyReading StringElements string_at }
    ensures object { IsOnlyReading OidElements object_at }
    ensures format { (known : List ℕ) (id : ℕ) → id < 256 → Contains known id → IsOnlyReading (FormatElements known) (format_at known) }
    ensures open_type { IsOnlyReading OpenElements content_at }
    ensures section { IsOnlyReading SectionElements members_at }
{}

/// A number needs the width that a reader asks for, and no less.
pub fn widths_are_least()
    ensures { (n : ℕ) → IsLeastWidth n (width_of n) }
{}
