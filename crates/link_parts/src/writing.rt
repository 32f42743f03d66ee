//! The octets of messages.

ghost use Rattle.std.specs.Prelude.{◌≡◌, ◌≤◌, ◌+◌, ◌++◌, ◌∷◌, [], length};
ghost use Rattle.arrayvec.specs.ArrayVec.{array_vec_len};
ghost use Rattle.link_parts.specs.Messages.{number_octets, part_octets};

use crate::part::Part;
use arrayvec::ArrayVec;
use link_frames::write;

/// The octet behind a message's parts.
pub const MESSAGE_END: u8 = 0;

/// The octet that stands in place of a message of the vehicle: its script is at its end.
pub const SCRIPT_END: u8 = 48;

/// Room for the octets of any part, which has at most 148.
const ROOM: usize = 149;

/// The octets of a part, at most 148. A message is the octets of its parts, and then `MESSAGE_END`. This project's
/// profile.
pub fn write_part(part: &Part) -> ArrayVec<u8, 149>
    ensures { result.items ≡ part_octets part.now }
{
    let mut octets = ArrayVec::new();
    match part {
        Part::Dials => push(&mut octets, &[16]),
        Part::Answers(call) => push(&mut octets, &numbered(17, *call)),
        Part::Leaves(call) => push(&mut octets, &numbered(18, *call)),
        Part::Rings(call) => push(&mut octets, &numbered(19, *call)),
        Part::Takes(call) => push(&mut octets, &numbered(20, *call)),
        Part::Carries(call, frame) => {
            push(&mut octets, &numbered(32, *call));
            push(&mut octets, write(frame).as_slice());
        }
    }
    octets
}

/// A part's first octet and its number, greatest octet first.
fn numbered(first: u8, call: u32) -> [u8; 5]
    ensures { result ≡ first ∷ number_octets call }
{
    let a = (call / 16777216 % 256) as u8;
    let b = (call / 65536 % 256) as u8;
    let c = (call / 256 % 256) as u8;
    let d = (call % 256) as u8;
    [first, a, b, c, d]
}

fn push(octets: &mut ArrayVec<u8, ROOM>, more: &[u8])
    requires { array_vec_len octets.old + length more.now ≤ ROOM }
    ensures { octets.new.items ≡ octets.old.items ++ more.now }
{
    octets.try_extend_from_slice(more).unwrap();
}
