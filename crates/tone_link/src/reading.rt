//! Frames from samples.
ghost use Rattle.std.specs.Prelude.{◌≡◌, ◌≤◌, ◌<◌, ◌+◌, ◌*◌, ◌↔◌, ◌⊎◌, ℕ, ℤ, List, Result, Ok, length, IsTrue, MatchOption, MatchResult};
ghost use Rattle.link_frames.specs.FrameOctets.{frame_octets, IsFrame};
ghost use Rattle.link_frames.specs.declared.frame.Frame.{Frame};
ghost use Rattle.per_bits.specs.Bits.{digits};
ghost use Rattle.per_bits.specs.Parts.{AreOctets};
ghost use Rattle.tone_link.specs.Noise.{EachNoise};
ghost use Rattle.tone_link.specs.ToneReading.{AreSaid, IsBlock, IsNoFrame, IsUnsure, ReadsAs, SayOctets, Says, SaysNeither};
ghost use Rattle.tone_link.specs.Tones.{frame_samples, sum_of_bit};
ghost use Rattle.tone_link.specs.declared.fault.ToneFault.{ToneFault};
ghost use Rattle.tone_link.specs.inner.Unsure.{NamesUnsure};

use crate::fault::ToneFault;
use crate::sums::bit_sum;
use crate::writing::MOST_SAMPLES;
use arrayvec::ArrayVec;
use link_frames::{Frame, Reader};

/// How many samples an octet has.
const OCTET_SAMPLES: usize = 64;

/// How many octets a block has at most.
const MOST_OCTETS: usize = 143;

/// A sum that is no further than this from 0 says neither 1 nor 0, unless it is as far.
const SURE: i32 = 4000;

/// The frame that a block of samples says: a sum of at least 4000 is 1, one of at most -4000 is 0. This project's own
/// modem.
pub fn tone_read(samples: &[i16]) -> Result<Frame, ToneFault>
    ensures reads { ReadsAs samples.now result }
    ensures only { (answer : Result Frame ToneFault) → ReadsAs samples.now answer → result ≡ answer }
    // Samples of a frame with noise below 12000 in each bit are read as that frame, or some bit is unsure.
    ensures noisy { (f : Frame) → IsFrame f → AreOctets (frame_octets f) → length samples.now ≡ length (frame_samples f)
        → EachNoise (λ noise. noise < 12000) (frame_samples f) samples.now → (result ≡ Ok f) ⊎ IsUnsure result }
    // With noise of at most 4000 in each bit they are read as that frame.
    ensures faint { (f : Frame) → IsFrame f → AreOctets (frame_octets f) → length samples.now ≡ length (frame_samples f)
        → EachNoise (λ noise. noise ≤ 4000) (frame_samples f) samples.now → result ≡ Ok f }
{
    read_block(samples)
}

/// The frame that a block of samples says, or why it says none.
fn read_block(samples: &[i16]) -> Result<Frame, ToneFault>
    ensures { ReadsAs samples.now result }
{
    if !is_block(samples) {
        return Err(ToneFault::Size {
            samples: samples.len().min(MOST_SAMPLES + 1) as u32,
        });
    }
    let octets = read_octets(samples)?;
    match whole_frame(octets.as_slice()) {
        Some(frame) => Ok(frame),
        None => Err(ToneFault::NotFrame {
            octets: octets.len() as u8,
        }),
    }
}

/// Whether so many samples are a block.
fn is_block(samples: &[i16]) -> bool
    ensures { IsTrue result ↔ IsBlock samples.now }
{
    let count = samples.len();
    count > 0 && count % OCTET_SAMPLES == 0 && count <= MOST_SAMPLES
}

/// The octets that a block says.
fn read_octets(samples: &[i16]) -> Result<ArrayVec<u8, MOST_OCTETS>, ToneFault>
    requires { IsBlock samples.now }
    ensures { MatchResult result (λ octets. SayOctets samples.now octets.items)
        (λ fault. NamesUnsure samples.now 0 fault) }
{
    let mut octets = ArrayVec::new();
    for i in 0..(samples.len() / OCTET_SAMPLES) as u32 {
        octets.push(read_octet(samples, 8 * i)?);
    }
    Ok(octets)
}

/// The octet that the sums of eight bits say.
fn read_octet(samples: &[i16], first: u32) -> Result<u8, ToneFault>
    requires within { 8 * first + 64 ≤ length samples.now }
    requires few { length samples.now ≤ MOST_SAMPLES }
    ensures { MatchResult result (λ octet. (octet < 256) × AreSaid samples.now first (digits 8 octet))
        (λ fault. NamesUnsure samples.now first fault) }
{
    let mut octet = 0;
    for i in first..first + 8 {
        octet = 2 * octet + u8::from(read_bit(samples, i)?);
    }
    Ok(octet)
}

/// The bit that its sum says.
fn read_bit(samples: &[i16], i: u32) -> Result<bool, ToneFault>
    requires { 8 * i + 8 ≤ length samples.now }
    ensures { MatchResult result (λ bit. Says (sum_of_bit samples.now i) bit)
        (λ fault. (fault ≡ ToneFault.Unsure i (sum_of_bit samples.now i)) × SaysNeither (sum_of_bit samples.now i)) }
{
    let sum = bit_sum(samples, i);
    if sum >= SURE {
        Ok(true)
    } else if sum <= -SURE {
        Ok(false)
    } else {
        Err(ToneFault::Unsure { bit: i, sum })
    }
}

/// The frame that the octets are, if they are one whole frame.
fn whole_frame(octets: &[u8]) -> Option<Frame>
    requires { length octets.now ≤ MOST_OCTETS }
    ensures { MatchOption result (IsNoFrame octets.now)
        (λ frame. IsFrame frame × (frame_octets frame ≡ octets.now)) }
{
    let mut reader = Reader::new();
    let Ok(count) = reader.feed(octets) else {
        return None;
    };
    if count < octets.len() {
        return None;
    }
    match reader.frame() {
        Some(frame) => Some(frame.own()),
        None => None,
    }
}
