//! Values behind a text.
ghost use Rattle.std.specs.Prelude.{◌≡◌, ◌++◌, take, length, ◌≤◌, OnOk};
ghost use Rattle.hex.specs.Hex.{encode_lower};
ghost use Rattle.per_bits.specs.Bits.{octets_of};
ghost use Rattle.set_objects.specs.Json.{boolean_text};

use per_bits::Octs;
use std::alloc::AllocError;

/// Whether something is so.
pub(crate) fn boolean_text(so: bool) -> &'static [u8]
    ensures { result.now ≡ boolean_text so }
{
    if so { b"true" } else { b"false" }
}

// Copies the octets to the front, and answers how many they are.
fn copy_octets(octs: &Octs<'_>, into: &mut [u8; 127]) -> usize
    ensures count { result ≡ length (octets_of octs.now.bits) }
    ensures copied { take result into.new ≡ octets_of octs.now.bits }
    ensures few { result ≤ 127 }
{
    let count = octs.count() as usize;
    for i in 0..count {
        into[i] = octs.at(i as u32);
    }
    count
}

/// Puts octets in hexadecimal digits of lower case.
pub(crate) fn put_octets(text: &mut Vec<u8>, octs: &Octs<'_>) -> Result<(), AllocError>
    ensures { OnOk result (text.new.items ≡ text.old.items ++ encode_lower (octets_of octs.now.bits)) }
{
    let mut octets = [0; 127];
    let mut room = [0; 254];
    let count = copy_octets(octs, &mut octets);
    let digits = &mut room[..2 * count];
    let _ = hex::encode_to_slice(&octets[..count], digits);
    text.extend_from_slice(digits)
}
