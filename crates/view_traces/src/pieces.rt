//! Fields behind a text.
ghost use Rattle.std.specs.Prelude.{◌≡◌, ◌++◌, OnOk};
ghost use Rattle.view_traces.specs.Object.{end_field, item_field, number_field, octets_field};

use crate::words::end_word;
use itoa::Buffer;
use link_frames::{End, OCTETS};
use std::alloc::AllocError;
use view_lines::put_all;

#[tactic(auto, unfolding(crate::specs::Object::item_field))]
/// Puts an item's first word.
pub(crate) fn put_item(text: &mut Vec<u8>, word: &[u8]) -> Result<(), AllocError>
    ensures { OnOk result (text.new.items ≡ text.old.items ++ item_field word.now) }
{
    put_all(text, &[b",\"item\":\"", word, b"\""])
}

#[tactic(auto, unfolding(crate::specs::Object::number_field))]
/// Puts a field of a number, whose name stands with its comma, its quotes and its colon.
pub(crate) fn put_number(text: &mut Vec<u8>, name: &[u8], number: u32) -> Result<(), AllocError>
    ensures { OnOk result (text.new.items ≡ text.old.items ++ number_field name.now number) }
{
    let mut digits = Buffer::new();
    put_all(text, &[name, digits.format(number).as_bytes()])
}

#[tactic(auto, unfolding(crate::specs::Object::end_field))]
/// Puts an end.
pub(crate) fn put_end(text: &mut Vec<u8>, end: End) -> Result<(), AllocError>
    ensures { OnOk result (text.new.items ≡ text.old.items ++ end_field end) }
{
    put_all(text, &[b",\"end\":\"", end_word(end), b"\""])
}

#[tactic(auto, unfolding(crate::specs::Object::octets_field))]
/// Puts the octets of a set in hexadecimal digits of lower case.
pub(crate) fn put_octets(text: &mut Vec<u8>, octets: &[u8; OCTETS]) -> Result<(), AllocError>
    ensures { OnOk result (text.new.items ≡ text.old.items ++ octets_field octets.now) }
{
    let mut digits = [0; 2 * OCTETS];
    let _ = hex::encode_to_slice(octets, &mut digits);
    put_all(text, &[b",\"octets\":\"", &digits, b"\""])
}
