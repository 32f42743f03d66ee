//! Writers of texts of the alphabet of vehicle identification numbers.
ghost use Rattle.std.specs.Prelude.{◌≡◌, ◌*◌, ◌^◌, ◌<◌, ◌≤◌, true, length};
ghost use Rattle.std.specs.List.{AllPass, flat_map};
ghost use Rattle.per_bits.specs.Bits.{value_of};
ghost use Rattle.per_types.specs.Types.{text, characters};
ghost use Rattle.msd_values.specs.Alphabet.{is_vin_character};
ghost use Rattle.msd_codec.specs.Canonical.{alphabet_index, character_bits};
ghost use Rattle.msd_codec.specs.inner.Writing.{Puts, Canon};

use per_bits::{BitBuf, Full};

// The indices in the alphabet of the characters from 0 to Z, and 0 for those of them that don't stand in it.
const INDICES: [u8; 43] = [
    0, 1, 2, 3, 4, 5, 6, 7, 8, 9, 0, 0, 0, 0, 0, 0, 0, 10, 11, 12, 13, 14, 15, 16, 17, 0, 18, 19,
    20, 21, 22, 0, 23, 0, 24, 25, 26, 27, 28, 29, 30, 31, 32,
];

/// Characters, one behind the other, at most ten.
pub fn write_text(to: &mut BitBuf, piece: &[u8]) -> Result<(), Full>
    requires pass { AllPass is_vin_character piece.now }
    requires few { length piece.now ≤ 10 }
    ensures { Puts (Canon (characters (length piece.now)) (text piece.now)) to.old result to.new }
{
    to.put(number_of(piece), 6 * piece.len() as u32)
}

// The number that the characters' indices read, six bits each.
fn number_of(piece: &[u8]) -> u64
    requires pass { AllPass is_vin_character piece.now }
    requires few { length piece.now ≤ 10 }
    ensures value { result ≡ value_of (flat_map character_bits piece.now) }
    ensures below { result < 2 ^ (6 * length piece.now) }
{
    let mut number = 0;
    for character in piece {
        number = 64 * number + u64::from(index_of(*character));
    }
    number
}

// The index of a character in the alphabet.
fn index_of(character: u8) -> u8
    requires { is_vin_character character ≡ true }
    ensures value { result ≡ alphabet_index character }
    ensures below { result < 64 }
{
    INDICES[usize::from(character - b'0')]
}
