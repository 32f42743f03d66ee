//! How noisy a line is.

use std::marker::Model;

/// The most by which noise may move a sample.
pub const MOST_NOISE: u32 = 1499;

/// The noise of a line: each sample is moved by so much at most, 0 to 1499, by draws that begin with a number. A bit of
/// eight samples, each 1000 from 0, so has less noise than makes it the other bit. This project's own modem.
#[derive(Clone, Copy, Debug, PartialEq, Eq)]
pub struct Noise {
    most: u32,
    number: u32,
}

impl Model for Noise {
    ghost use Rattle.std.specs.Prelude.{◌≤◌};
    ghost use Rattle.tones_command.specs.Modem.{NoiseFrom, most_noise};

    ghost Value = { NoiseFrom };

    ghost view = { λ n. record { most = n.most; number = n.number } };

    ghost invariant = { λ n. n.most ≤ most_noise };

    ghost inverse = { λ n. record { most = n.most; number = n.number } };
}

impl Noise {
    ghost use Rattle.std.specs.Prelude.{◌≡◌, ◌≤◌, ◌<◌, ◌^◌, ◌↔◌, IsSome, IfSome};
    ghost use Rattle.tones_command.specs.Modem.{most_noise};

    /// Noise of so much at most in each sample, drawn from a number on. There is none above `MOST_NOISE`.
    pub fn new(most: u32, number: u32) -> Option<Noise>
        ensures some { IsSome result ↔ (most ≤ most_noise) }
        ensures value { IfSome result (λ n. n ≡ record { most = most; number = number }) }
    {
        if most > MOST_NOISE {
            None
        } else {
            Some(Noise { most, number })
        }
    }

    /// By how much it moves a sample at most, 0 to 1499.
    pub fn most(&self) -> u32
        ensures value { result ≡ self.now.most }
        ensures bound { result ≤ most_noise }
    {
        self.most
    }

    /// The number with which its draws begin.
    pub fn number(&self) -> u32
        ensures value { result ≡ self.now.number }
        ensures bound { result < 2 ^ 32 }
    {
        self.number
    }
}
