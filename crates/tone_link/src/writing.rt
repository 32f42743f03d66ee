//! The samples of a frame.
ghost use Rattle.std.specs.Prelude.{◌≡◌, ◌≤◌, ◌+◌, ◌++◌, length};
ghost use Rattle.arrayvec.specs.ArrayVec.{array_vec_len};
ghost use Rattle.per_bits.specs.Bits.{digits};
ghost use Rattle.tone_link.specs.Tones.{frame_samples, samples_of, samples_of_bit};

use crate::laws::frame_laws;
use arrayvec::ArrayVec;
use link_frames::{Frame, write};

/// How many samples the longest frame has: 143 octets of eight bits of eight samples.
pub const MOST_SAMPLES: usize = 9152;

/// The eight samples of a bit that is 1: the pattern + + - + - - + -, times 1000.
const ONE: [i16; 8] = [1000, 1000, -1000, 1000, -1000, -1000, 1000, -1000];

/// The eight samples of a bit that is 0: the pattern times -1000.
const ZERO: [i16; 8] = [-1000, -1000, 1000, -1000, 1000, 1000, -1000, 1000];

/// The samples of a frame: eight for each bit of its octets, most significant bit first. This project's own modem.
pub fn tone_write(frame: &Frame) -> ArrayVec<i16, 9152>
    ensures { result.items ≡ frame_samples frame.now }
{
    let mut samples = ArrayVec::new();
    rewrite_tones(&mut samples, frame);
    samples
}

/// Puts the samples of a frame, as [`tone_write`] gives them, in the place of all that stands there.
pub fn rewrite_tones(samples: &mut ArrayVec<i16, 9152>, frame: &Frame)
    ensures { samples.new.items ≡ frame_samples frame.now }
{
    frame_laws(frame);
    let octets = write(frame);
    samples.clear();
    for octet in octets.as_slice() {
        push_octet(samples, *octet);
    }
}

/// Appends the samples of an octet.
fn push_octet(samples: &mut ArrayVec<i16, MOST_SAMPLES>, octet: u8)
    requires { array_vec_len samples.old + 64 ≤ MOST_SAMPLES }
    ensures { samples.new.items ≡ samples.old.items ++ samples_of (digits 8 octet) }
{
    for place in 0..8u32 {
        push_bit(samples, (octet >> (7 - place)) & 1 == 1);
    }
}

/// Appends the samples of a bit.
fn push_bit(samples: &mut ArrayVec<i16, MOST_SAMPLES>, bit: bool)
    requires { array_vec_len samples.old + 8 ≤ MOST_SAMPLES }
    ensures { samples.new.items ≡ samples.old.items ++ samples_of_bit bit }
{
    let tones = if bit { &ONE } else { &ZERO };
    samples.try_extend_from_slice(tones).unwrap();
}
