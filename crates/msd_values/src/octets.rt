//! Octets as hexadecimal digits.
ghost use Rattle.std.specs.Prelude.{◌≡◌, ◌+◌, ◌≤◌, length, take};
ghost use Rattle.arrayvec.specs.ArrayVec.{array_vec_len};
ghost use Rattle.hex.specs.Hex.{encode_lower};
ghost use Rattle.per_bits.specs.Bits.{octets_of};
ghost use Rattle.msd_values.specs.inner.Waiting.{Appends};

use crate::page::{OCTETS, PAGE, Page, put};
use per_bits::Octs;

// Copies the octets to the front, and answers how many they are.
fn copy_octets(octs: &Octs<'_>, into: &mut [u8; 127]) -> usize
    ensures count { result ≡ length (octets_of octs.now.bits) }
    ensures copied { take result into.new ≡ octets_of octs.now.bits }
    ensures few { result ≤ 127 }
{
    let count = octs.count() as usize;
    for i in 0..count {
        into[i] = octs.at(i as u32);
    }
    count
}

/// Puts the octets in hexadecimal digits of lower case, at most 254 of them.
pub fn put_hex(page: &mut Page, octs: &Octs<'_>)
    requires { array_vec_len page.old + OCTETS ≤ PAGE }
    ensures items { Appends page.old.items page.new.items (encode_lower (octets_of octs.now.bits)) }
    ensures len { array_vec_len page.new ≤ array_vec_len page.old + OCTETS }
{
    let mut octets = [0; 127];
    let mut digits = [0; 254];
    let count = copy_octets(octs, &mut octets);
    let text = &mut digits[..2 * count];
    let _ = hex::encode_to_slice(&octets[..count], text);
    put(page, text);
}
