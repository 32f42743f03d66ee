//! The vehicle identification number.
ghost use Rattle.std.specs.Prelude.{◌≡◌, ◌↔◌, ◌≤◌, not, IsTrue, IsOk, IfOk, IfErr, length, take};
ghost use Rattle.std.specs.List.{position};
ghost use Rattle.msd_values.specs.Alphabet.{alphabet, is_vin_character};
ghost use Rattle.msd_values.specs.Vin.{IsVin, fault_place};

use std::marker::Model;

// The characters in the order of their indices.
static ALPHABET: [u8; 33] = *b"0123456789ABCDEFGHJKLMNPRSTUVWXYZ";

/// A vehicle identification number, after ISO 3779: 17 characters, which are digits or capital
/// letters without I, O and Q. A contract sees their ASCII codes.
#[derive(Clone, Copy, Debug, PartialEq, Eq)]
pub struct Vin {
    characters: [u8; 17],
}

impl Model for Vin {
    ghost use Rattle.std.specs.Prelude.{ℕ, List};
    ghost use Rattle.msd_values.specs.Vin.{IsVin};

    ghost Value = { List ℕ };

    ghost view = { λ v. v.characters };

    ghost invariant = { λ v. IsVin v.characters };

    ghost inverse = { λ text. record { characters = text } };
}

/// The text is no vehicle identification number. `place` is that of the first character among the first
/// 17 that isn't of the alphabet, from 0; where there is none, how many of the first 17 there are.
#[derive(Clone, Copy, Debug, PartialEq, Eq)]
pub struct BadVin {
    pub place: u8,
}

impl Vin {
    /// The number of these characters.
    pub fn of(characters: [u8; 17]) -> Vin
        requires { IsVin characters }
        ensures { result ≡ characters }
    {
        Vin { characters }
    }

    /// The number with this text.
    pub fn read(text: &[u8]) -> Result<Vin, BadVin>
        ensures vin { IsOk result ↔ IsVin text.now }
        ensures same { IfOk result (λ vin. vin ≡ text.now) }
        ensures place { IfErr result (λ bad. bad.place ≡ fault_place text.now) }
    {
        let place = good_front(text);
        if place < 17 || text.len() != 17 {
            return Err(BadVin { place: place as u8 });
        }
        let mut characters = [0; 17];
        characters.copy_from_slice(text);
        Ok(Vin { characters })
    }

    /// Its 17 characters in ASCII.
    pub fn text(&self) -> &[u8]
        ensures value { result.now ≡ self.now }
        ensures vin { IsVin self.now }
    {
        &self.characters
    }
}

// Whether a vehicle identification number may have this character.
#[tactic(auto, unfolding(crate::specs::Alphabet::is_vin_character))]
fn is_vin_character(character: u8) -> bool
    ensures { result ≡ is_vin_character character }
{
    ALPHABET.contains(&character)
}

// How many of the first 17 characters stand before the first that isn't of the alphabet.
fn good_front(text: &[u8]) -> usize
    ensures place { result ≡ fault_place text.now }
    ensures short { result ≤ 17 }
{
    let front = &text[..text.len().min(17)];
    first_fault(front).unwrap_or(front.len())
}

// The place of the first character that isn't of the alphabet.
fn first_fault(front: &[u8]) -> Option<usize>
    ensures { result ≡ position (λ character. not (is_vin_character character)) front.now }
{
    front
        .iter()
        .position(|character| !is_vin_character(*character))
}
