//! What holds of all sets of data. The function here does nothing: its contract is the laws.
ghost use Rattle.std.specs.Prelude.{◌≡◌, ◌↔◌, ◌⊎◌, ℕ, ◌≤◌, Bool, List, [], ◌++◌, length, Ok, Err};
ghost use Rattle.per_bits.specs.Bits.{room_octets};
ghost use Rattle.per_bits.specs.Parts.{AreOctets};
ghost use Rattle.per_bits.specs.declared.refusals.Refusal.{Refusal};
ghost use Rattle.per_types.specs.Types.{Tree, Ty};
ghost use Rattle.per_types.specs.Spelling.{Spells, Canonical};
ghost use Rattle.msd_values.specs.declared.msd.Msd.{Msd};
ghost use Rattle.msd_values.specs.Description.{description};
ghost use Rattle.msd_codec.specs.Module.{ecall_message};
ghost use Rattle.msd_codec.specs.Formats.{module_of};
ghost use Rattle.msd_codec.specs.Trees.{tree};
ghost use Rattle.msd_codec.specs.Canonical.{canonical_bits, canonical_octets};
ghost use Rattle.msd_codec.specs.Reading.{reading_of};
ghost use Rattle.msd_codec.specs.Sets.{Shows, ShowsTree, StopsAt, AreCanonical};

/// The laws of the sets of both formats. Values are trees of the modules; that of a set of data is `tree` of it.
pub fn spelling_laws()
    // The module by which a set of data is spelled is that of its format.
    ensures module { (msd : Msd) → module_of (tree msd) ≡ ecall_message msd.format }
    // No spelling of a module begins another one of either, and each stands for one value.
    ensures no_prefix { (v w : Tree) (b c tail : List Bool) → Spells (module_of v) v b → Spells (module_of w) w c → c ≡ b ++ tail → tail ≡ [] }
    ensures one_value { (v w : Tree) (b : List Bool) → Spells (module_of v) v b → Spells (module_of w) w b → v ≡ w }
    // Octets show one value at most, and stop in one way at most.
    ensures one_shown { (octets : List ℕ) (v w : Tree) → ShowsTree octets v → ShowsTree octets w → v ≡ w }
    ensures one_stop { (octets : List ℕ) (r s : Refusal) → StopsAt octets r → StopsAt octets s → r ≡ s }
    // Octets show a set of data or stop, and never both.
    ensures decided { (octets : List ℕ) → AreOctets octets → ((msd : Msd) × Shows octets msd) ⊎ ((refusal : Refusal) × StopsAt octets refusal) }
    ensures apart { (octets : List ℕ) (v : Tree) (refusal : Refusal) → ShowsTree octets v → StopsAt octets refusal → ⊥ }
    // Sets of data that the same octets show are described alike.
    ensures one_text { (octets : List ℕ) (v w : Msd) → Shows octets v → Shows octets w → description v ≡ description w }
    // Canonical octets show their value, where there are at most 140.
    ensures shown { (octets : List ℕ) (v : Tree) → AreCanonical octets v → length octets ≤ room_octets → ShowsTree octets v }
    // Two values have equal canonical octets exactly where they are equal.
    ensures canonical { (v w : Tree) (o p : List ℕ) → AreCanonical o v → AreCanonical p w → (o ≡ p) ↔ (v ≡ w) }
    // The canonical spelling of a value of any type is what the function gives, and so are the canonical octets.
    ensures spelled { (t : Ty) (v : Tree) (b : List Bool) → Canonical t v b → b ≡ canonical_bits t v }
    ensures octets { (v : Tree) (octets : List ℕ) → AreCanonical octets v → octets ≡ canonical_octets v }
    // Reading answers a value exactly where the octets show it, and a refusal exactly where they stop so.
    ensures read { (octets : List ℕ) (v : Tree) → AreOctets octets → (reading_of octets ≡ Ok v) ↔ ShowsTree octets v }
    ensures refused { (octets : List ℕ) (refusal : Refusal) → AreOctets octets → (reading_of octets ≡ Err refusal) ↔ StopsAt octets refusal }
    // What was written is what is read.
    ensures again { (octets : List ℕ) (v w : Msd) → AreCanonical octets (tree v) → Shows octets w → tree w ≡ tree v }
{}
