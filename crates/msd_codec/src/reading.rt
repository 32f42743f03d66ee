//! Reading a set of data.
ghost use Rattle.std.specs.Prelude.{◌≡◌, length, Ok, Err, IfOk, IfErr, IfSome, MatchResult};
ghost use Rattle.per_bits.specs.Bits.{octet_bits};
ghost use Rattle.msd_codec.specs.Trees.{tree};
ghost use Rattle.msd_codec.specs.Reading.{reading_of};
ghost use Rattle.msd_codec.specs.Sets.{Shows, StopsAt};
ghost use Rattle.msd_codec.specs.Places.{LieBetween, ContentFollows, StandInPlace, parts_of};

mod elements;
mod message;
mod rest;
mod structure;
mod texts;

use crate::reading::message::read_message;
use crate::reading::rest::check_rest;
use msd_values::Msd;
use per_bits::{Bits, Cursor, Reason, Refusal};

// How many octets a set has at most.
const MOST_OCTETS: usize = 140;

/// The set of data that the octets show, in format 2. It borrows the parts of variable length, and copies
/// none of them. The places of a refusal are in bits.
pub fn decode(octets: &[u8]) -> Result<Msd<'_>, Refusal>
    // What is accepted is shown, and what is refused stops so. By the laws there is one answer.
    ensures shown { IfOk result (λ msd. Shows octets.now msd) }
    ensures stopped { IfErr result (λ refusal. StopsAt octets.now refusal) }
    // The answer is that of reading the octets, seen by the tree of the set.
    ensures read { MatchResult result (λ msd. reading_of octets.now ≡ Ok (tree msd)) (λ refusal. reading_of octets.now ≡ Err refusal) }
    // Each part has the bits of the octets from its start on, and they lie one behind the other.
    ensures parts { IfOk result (λ msd. LieBetween (octet_bits octets.now) 0 (parts_of msd) (length (octet_bits octets.now))) }
    // Where the content of additional data has no octets, its bits say nothing of its place.
    ensures content { IfOk result (λ msd. IfSome msd.extra ContentFollows) }
    // And each stands exactly where the spelling has it.
    ensures places { IfOk result (λ msd. StandInPlace (octet_bits octets.now) msd) }
{
    if octets.is_empty() || octets.len() > MOST_OCTETS {
        return Err(Refusal {
            place: 0,
            reason: Reason::Size,
            value: octets.len().min(MOST_OCTETS + 1) as u64,
        });
    }
    let mut cursor = Cursor::of(Bits::of(octets));
    let msd = read_message(&mut cursor)?;
    check_rest(octets, cursor.place())?;
    Ok(msd)
}
