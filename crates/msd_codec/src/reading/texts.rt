//! The reader of the characters of a vehicle identification number, where all of them are known.
ghost use Rattle.std.specs.Prelude.{◌≡◌, ℕ, ◌*◌, ◌/◌, ◌%◌, ◌^◌, ◌<◌, ◌≤◌, List, Ok, IfSome, IfNone, length, take, drop};
ghost use Rattle.per_bits.specs.Bits.{Part, behind, value_of};
ghost use Rattle.per_types.specs.Reading.{text_at};
ghost use Rattle.msd_values.specs.Vin.{IsVin};

use per_bits::Cursor;

// The characters of the alphabet in the order of their indices.
const CHARACTERS: [u8; 33] = *b"0123456789ABCDEFGHJKLMNPRSTUVWXYZ";

/// The next seventeen characters, read by two numbers, where each has an index of the alphabet. The cursor stays.
pub fn known_characters(c: &Cursor<'_>) -> Option<[u8; 17]>
    ensures exact { IfSome result (λ v. text_at 17 c.now ≡ Ok (v, behind c.now 102)) }
    ensures enough { IfSome result (λ v. 102 ≤ length c.now.bits) }
    ensures vin { IfSome result IsVin }
    // It is none only where the characters are refused.
    ensures none { IfNone result ((v : List ℕ) (p : Part) → text_at 17 c.now ≡ Ok (v, p) → ⊥) }
{
    let mut front = c.fork();
    let Ok(first) = front.number(54) else {
        return None;
    };
    let Ok(last) = front.number(48) else {
        return None;
    };
    let mut characters = [0; 17];
    for i in 0..17 {
        let index = nth_index(c, first, last, i);
        if index > 32 {
            return None;
        }
        characters[i as usize] = CHARACTERS[usize::from(index)];
    }
    Some(characters)
}

// The index of the character `i`, where the indices of the first nine read `first`, and the other eight `last`.
#[inline(always)]
fn nth_index(c: &Cursor<'_>, first: u64, last: u64, i: u32) -> u8
    requires known { i < 17 }
    requires enough { 102 ≤ length c.now.bits }
    requires first { first ≡ value_of (take 54 c.now.bits) }
    requires last { last ≡ value_of (take 48 (drop 54 c.now.bits)) }
    ensures { result ≡ value_of (take 6 (drop (6 * i) c.now.bits)) }
{
    if i < 9 {
        six_bits(first, 48 - 6 * i)
    } else {
        six_bits(last, 96 - 6 * i)
    }
}

// The number that six bits of the number read, those before its last `low` ones.
#[inline(always)]
fn six_bits(number: u64, low: u32) -> u8
    requires { low < 64 }
    ensures { result ≡ number / 2 ^ low % 64 }
{
    ((number >> low) % 64) as u8
}
