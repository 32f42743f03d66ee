//! Writing a set of data.
ghost use Rattle.std.specs.Prelude.{◌≡◌, ◌<◌, ◌≤◌, length, IfOk, IfErr};
ghost use Rattle.per_bits.specs.Bits.{room_bits, room_octets};
ghost use Rattle.msd_codec.specs.Module.{additional_data, ecall_message};
ghost use Rattle.msd_codec.specs.Trees.{IsPlain, extra_tree, tree};
ghost use Rattle.msd_codec.specs.Canonical.{canonical_bits, canonical_octets};
ghost use Rattle.msd_codec.specs.Sets.{AreCanonical, NeedsMoreBits};

mod elements;
mod lengths;
mod message;
mod structure;
mod texts;

use crate::writing::lengths::{data_len, message_len};
use crate::writing::message::write_message;
use arrayvec::ArrayVec;
use msd_values::{Extra, Msd};
use per_bits::BitBuf;

/// The canonical spelling of a set has `bits` bits, which are more than 1120.
#[derive(Clone, Copy, Debug, PartialEq, Eq)]
pub struct TooLong {
    pub bits: u32,
}

/// The canonical octets of the set: its one spelling without components that equal their defaults, and the
/// fewest zero bits that make whole octets. `TooLong` is for a spelling of more than 140 octets, which only
/// long additions and additional data make.
pub fn encode(msd: &Msd<'_>) -> Result<ArrayVec<u8, 140>, TooLong>
    ensures canonical { IfOk result (λ octets. AreCanonical octets.items (tree msd.now)) }
    ensures few { IfOk result (λ octets. length octets.items ≤ room_octets) }
    // Which octets these are, and how many bits the spelling has.
    ensures octets { IfOk result (λ octets. octets.items ≡ canonical_octets (tree msd.now)) }
    ensures bits { IfErr result (λ e. (e.bits ≡ length (canonical_bits (ecall_message msd.now.format) (tree msd.now))) × (room_bits < e.bits)) }
    ensures long { IfErr result (λ e. NeedsMoreBits (tree msd.now) e.bits) }
{
    let mut to = BitBuf::new();
    if write_message(&mut to, msd).is_err() {
        return Err(TooLong {
            bits: message_len(msd),
        });
    }
    let mut octets = ArrayVec::new();
    octets.try_extend_from_slice(to.octets()).unwrap();
    Ok(octets)
}

/// How many bits the canonical spelling of the set has.
pub fn encoded_bits(msd: &Msd<'_>) -> u32
    ensures bits { result ≡ length (canonical_bits (ecall_message msd.now.format) (tree msd.now)) }
    // Without parts of variable length there are few.
    ensures few { IsPlain msd.now → result ≤ 302 }
{
    message_len(msd)
}

/// How many bits the canonical spelling of additional data has.
pub fn extra_bits(extra: &Extra<'_>) -> u32
    ensures { result ≡ length (canonical_bits additional_data (extra_tree extra.now)) }
{
    data_len(extra)
}
