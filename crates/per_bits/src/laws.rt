//! What holds of all sections. The function here does nothing: its contract is the law.
ghost use Rattle.std.specs.Prelude.{◌≡◌, ℕ, Bool, List, ◌++◌};
ghost use Rattle.per_bits.specs.Parts.{Open, Member, Section, behind_open, members_of, open_octets};

/// Reading a section, or an open type at the front of bits, gives what it was made of. So the same bits are a
/// section of one list of members only.
pub fn reading_inverts_spelling()
    ensures section { (members : List Member) (b : List Bool) → Section members b → members_of b ≡ members }
    ensures octets { (octets : List ℕ) (a rest : List Bool) → Open octets a → open_octets (a ++ rest) ≡ octets }
    ensures rest { (octets : List ℕ) (a rest : List Bool) → Open octets a → behind_open (a ++ rest) ≡ rest }
{}
