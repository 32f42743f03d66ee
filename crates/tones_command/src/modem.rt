//! The modem's line, with its noise.

ghost use Rattle.std.specs.Prelude.{◌≡◌, ◌≤◌, ◌+◌, ◌*◌, ◌<◌, ◌%◌, ◌^◌, not, length, pos, negsuc, ◌≤ℤ◌, ◌-ℤ◌};
ghost use Rattle.tone_link.specs.Tones.{frame_samples};
ghost use Rattle.tones_command.specs.Modem.{behind_frame, behind_samples, drawn, gives, is_lost, most_noise, moved_by, received};
ghost use Rattle.tones_command.specs.inner.Loud.{AreSamplesSent};

use crate::noise::Noise;
use arrayvec::ArrayVec;
use link_frames::Frame;
use tone_link::{MOST_SAMPLES, frame_laws, rewrite_tones, tone_read};

/// A modem behind which the line moves each sample: by how much at most, and where its draws stand. Its two blocks of
/// samples serve from frame to frame.
#[derive(Drop)]
pub(crate) struct Modem {
    pub(crate) most: u32,
    pub(crate) x: u32,
    sent: ArrayVec<i16, MOST_SAMPLES>,
    heard: ArrayVec<i16, MOST_SAMPLES>,
}

impl Modem {
    /// Before any draw.
    pub(crate) fn new(noise: &Noise) -> Modem
        ensures most { result.most ≡ noise.now.most }
        ensures bound { result.most ≤ most_noise }
        ensures x { result.x ≡ noise.now.number }
    {
        Modem {
            most: noise.most(),
            x: noise.number(),
            sent: ArrayVec::new(),
            heard: ArrayVec::new(),
        }
    }

    /// Carries a frame, and says whether it is lost.
    pub(crate) fn loses(&mut self, frame: &Frame) -> bool
        requires { self.old.most ≤ most_noise }
        ensures lost { result ≡ is_lost self.old.most self.old.x frame.now }
        ensures x { self.new.x ≡ behind_frame self.old.x frame.now }
        ensures most { self.new.most ≡ self.old.most }
    {
        frame_laws(frame);
        rewrite_tones(&mut self.sent, frame);
        receive(
            self.most,
            &mut self.x,
            self.sent.as_slice(),
            &mut self.heard,
        );
        tone_read(self.heard.as_slice()).is_err()
    }
}

/// Receives the samples that were sent, in the place of those received before.
fn receive(most: u32, x: &mut u32, sent: &[i16], heard: &mut ArrayVec<i16, MOST_SAMPLES>)
    requires few { length sent.now ≤ MOST_SAMPLES }
    requires bound { most ≤ most_noise }
    requires sent { AreSamplesSent sent.now }
    ensures items { heard.new.items ≡ received most x.old sent.now }
    ensures x { x.new ≡ behind_samples x.old sent.now }
{
    heard.clear();
    for sample in sent {
        heard.push(*sample + draw(most, x));
    }
}

/// By how much one more draw moves its sample.
#[tactic(auto, unfolding(crate::specs::Modem::drawn, crate::specs::Modem::gives))]
fn draw(most: u32, x: &mut u32) -> i16
    requires { most ≤ most_noise }
    ensures moved { result ≡ moved_by most (drawn x.old) }
    ensures low { negsuc 1498 ≤ℤ result }
    ensures high { result ≤ℤ pos 1499 }
    ensures x { x.new ≡ drawn x.old }
{
    *x = x.wrapping_mul(1_664_525).wrapping_add(1_013_904_223);
    let within = (*x / 65_536) % (2 * most + 1);
    within as i16 - most as i16
}
