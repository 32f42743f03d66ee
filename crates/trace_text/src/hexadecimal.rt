//! Octets in hexadecimal.

ghost use Rattle.std.specs.Prelude.{◌≡◌, ◌+◌, ◌*◌, ◌<◌, ◌≤◌, ◌∷◌, ◌++◌, false, length, take, IsTrue};
ghost use Rattle.std.specs.Option.{option_copied};
ghost use Rattle.std.specs.List.{list_all};
ghost use Rattle.arrayvec.specs.ArrayVec.{array_vec_len};
ghost use Rattle.hex.specs.Hex.{encode_lower};
ghost use Rattle.line_input.specs.Characters.{space};
ghost use Rattle.trace_text.specs.EntryLines.{is_lower_digit, set_octets};
ghost use Rattle.trace_text.specs.FactLines.{candidate_from, set_of};
ghost use Rattle.trace_text.specs.Hexadecimal.{octets_of, content_of};
ghost use Rattle.trace_text.specs.inner.Decoding.{DecodesTo, DecodesNone, few_of};
ghost use Rattle.trace_text.specs.inner.Placing.{filled};

use arrayvec::ArrayVec;
use line_input::is_word;
use link_frames::OCTETS;
use msd_fit::{Candidate, MOST_TOGETHER};

/// The octets of a ready set, 1 to 140, with zero octets to its end.
pub fn read_set_octets(text: &[u8]) -> Option<[u8; 140]>
    ensures { result ≡ set_of (octets_of text.now) }
{
    let mut octets = [0; 140];
    match decode_front(text, &mut octets) {
        true => Some(octets),
        false => None,
    }
}

/// Puts the 140 octets of a set, in 280 hexadecimal digits of lower case, in place. False where the text has none.
pub fn read_full_set(text: &[u8], into: &mut [u8; 140]) -> bool
    ensures { filled result into.new ≡ set_octets text.now }
{
    if text.len() == 280 && is_lower(text) {
        decode_front(text, into)
    } else {
        false
    }
}

/// Whether each byte is a hexadecimal digit of lower case.
fn is_lower(text: &[u8]) -> bool
    ensures { result ≡ list_all is_lower_digit text.now }
{
    // All bytes are looked at, so that the compiler compares many at once.
    let mut all = true;
    for byte in text {
        all &= is_lower_hexadecimal(*byte);
    }
    all
}

/// Whether a byte is a hexadecimal digit of lower case.
fn is_lower_hexadecimal(byte: u8) -> bool
    ensures { result ≡ is_lower_digit byte }
{
    (b'0' <= byte && byte <= b'9') || (b'a' <= byte && byte <= b'f')
}

/// Additional data of this identifier and this content, where there may be some.
pub fn read_candidate(oid: &[u8], content: &[u8]) -> Option<Candidate>
    ensures { result ≡ candidate_from (octets_of oid.now) (content_of content.now) }
{
    let mut oid_room = [0; MOST_TOGETHER];
    let mut content_room = [0; MOST_TOGETHER];
    let oid = read_octets(oid, &mut oid_room)?;
    let content = read_content(content, &mut content_room)?;
    Candidate::of(oid, content)
}

/// The octets of a content, where there is room for them.
fn read_content<'a>(text: &[u8], room: &'a mut [u8; MOST_TOGETHER]) -> Option<&'a [u8]>
    ensures { option_copied result ≡ few_of (content_of text.now) }
{
    if is_word(text, "-") {
        Some(&room[..0])
    } else {
        read_octets(text, room)
    }
}

/// The octets that hexadecimal spells, where there is room for them.
fn read_octets<'a>(text: &[u8], room: &'a mut [u8; MOST_TOGETHER]) -> Option<&'a [u8]>
    ensures { option_copied result ≡ few_of (octets_of text.now) }
{
    if decode_front(text, room) {
        Some(&room[..text.len() / 2])
    } else {
        None
    }
}

/// Decodes hexadecimal to the front of `into`, where it is some, and not too much.
fn decode_front(text: &[u8], into: &mut [u8]) -> bool
    ensures yes { IsTrue result → DecodesTo text.now into.old into.new }
    ensures no { result ≡ false → DecodesNone text.now (length into.old) }
{
    let count = text.len() / 2;
    if count == 0 || count > into.len() {
        return false;
    }
    hex::decode_to_slice(text, &mut into[..count]).is_ok()
}

/// Appends octets behind a space, in hexadecimal of lower case.
pub fn push_octets<const N: usize>(line: &mut ArrayVec<u8, N>, octets: &[u8])
    requires few { length octets.now ≤ OCTETS }
    requires room { array_vec_len line.old + 2 * length octets.now < N }
    ensures bytes { line.new.items ≡ line.old.items ++ space ∷ encode_lower octets.now }
    ensures len { array_vec_len line.new ≡ array_vec_len line.old + 1 + 2 * length octets.now }
{
    line.push(b' ');
    let start = line.len();
    let zeros = [b'0'; 2 * OCTETS];
    line.try_extend_from_slice(&zeros[..2 * octets.len()])
        .unwrap();
    encode_behind(line.as_mut_slice(), start, octets);
}

/// Puts octets in hexadecimal in place of what stands behind a front.
fn encode_behind(text: &mut [u8], start: usize, octets: &[u8])
    requires { start + 2 * length octets.now ≡ length text.old }
    ensures { text.new ≡ take start text.old ++ encode_lower octets.now }
{
    hex::encode_to_slice(octets, &mut text[start..]).unwrap();
}
