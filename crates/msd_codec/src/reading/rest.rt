//! What follows a spelling: the bits that pad it to a whole octet, and the appended octets.
ghost use Rattle.std.specs.Prelude.{◌≡◌, ◌+◌, ◌*◌, ◌/◌, ◌%◌, ◌≤◌, Some, None, MatchResult, length, drop};
ghost use Rattle.per_bits.specs.Bits.{octet_bits, room_octets};
ghost use Rattle.msd_codec.specs.Reading.{pad_fault, appended_fault, rest_fault};

use per_bits::{Bits, Reason, Refusal};

/// Whether only zero bits follow a spelling that ends at the place `end`, in bits.
pub fn check_rest(octets: &[u8], end: u32) -> Result<(), Refusal>
    requires few { length octets.now ≤ room_octets }
    requires within { end ≤ 8 * length octets.now }
    ensures { MatchResult result (λ _. rest_fault octets.now end ≡ None) (λ e. rest_fault octets.now end ≡ Some e) }
{
    let pads = (8 - end % 8) % 8;
    let padding = Bits::of(octets).part(end, pads);
    check_padding(&padding)?;
    check_appended(octets, (end + pads) as usize / 8)
}

fn check_padding(bits: &Bits<'_>) -> Result<(), Refusal>
    ensures { MatchResult result (λ _. pad_fault bits.now.start bits.now.bits ≡ None) (λ e. pad_fault bits.now.start bits.now.bits ≡ Some e) }
{
    for i in 0..bits.len() {
        if bits.bit(i) {
            return Err(Refusal {
                place: bits.start() + i,
                reason: Reason::PadBits,
                value: 1,
            });
        }
    }
    Ok(())
}

// Whether all octets from this one on are 0.
fn check_appended(octets: &[u8], from: usize) -> Result<(), Refusal>
    requires few { length octets.now ≤ room_octets }
    requires within { from ≤ length octets.now }
    ensures { MatchResult result (λ _. appended_fault (8 * from) (drop from octets.now) ≡ None) (λ e. appended_fault (8 * from) (drop from octets.now) ≡ Some e) }
{
    for i in from..octets.len() {
        if octets[i] != 0 {
            return Err(Refusal {
                place: 8 * i as u32,
                reason: Reason::Trailing,
                value: u64::from(octets[i]),
            });
        }
    }
    Ok(())
}
