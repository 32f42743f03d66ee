//! Octets in place.
ghost use Rattle.std.specs.Prelude.{◌≡◌, ◌+◌, ◌≤◌, ◌++◌, length, take, drop};
ghost use Rattle.per_bits.specs.Bits.{all_bits};
ghost use Rattle.msd_fit.specs.Candidates.{most_together};

use per_bits::{Bits, Octs};

/// Puts the piece at this place.
pub fn put(octets: &mut [u8], at: usize, piece: &[u8])
    requires { at + length piece.now ≤ length octets.old }
    ensures { octets.new ≡ (take at octets.old ++ piece.now) ++ drop (at + length piece.now) octets.old }
{
    octets[at..at + piece.len()].copy_from_slice(piece);
}

/// The octets as a string.
pub fn octs_of(octets: &[u8]) -> Octs<'_>
    requires { length octets.now ≤ most_together }
    ensures { result ≡ all_bits octets.now }
{
    Octs::known(Bits::of(octets))
}
