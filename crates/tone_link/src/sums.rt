//! The sum of a bit's samples.
ghost use Rattle.std.specs.Prelude.{◌≡◌, ◌≤◌, ◌+◌, ◌*◌, length};
ghost use Rattle.tone_link.specs.Tones.{pattern, sum_by_signs, sum_of_bit};

use std::simd::prelude::*;

/// The signs of a bit's eight samples, in the lanes' width.
const SIGNS: [i32; 8] = [1, 1, -1, 1, -1, -1, 1, -1];

/// The sum over the eight samples of bit `i`, counted from 0, of each sample times its sign: at most 262,140 from 0.
pub fn bit_sum(samples: &[i16], i: u32) -> i32
    requires { 8 * i + 8 ≤ length samples.now }
    ensures { result ≡ sum_of_bit samples.now i }
{
    let first = 8 * i as usize;
    sum_lanes(&samples[first..first + 8])
}

/// The sum over eight samples of each times its sign.
fn sum_lanes(samples: &[i16]) -> i32
    requires { length samples.now ≡ 8 }
    ensures { result ≡ sum_by_signs pattern samples.now }
{
    let [a, b, c, d, e, f, g, h] = samples else {
        unreachable!()
    };
    let lanes = i16x8::from_array([*a, *b, *c, *d, *e, *f, *g, *h]).cast::<i32>();
    lanes
        .strict_mul(i32x8::from_array(SIGNS))
        .strict_reduce_sum()
}
