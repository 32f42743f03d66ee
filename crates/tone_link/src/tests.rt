//! Samples worked out by hand: a 1 is the pattern + + - + - - + - times 1000, and a sum says a bit from 4000 on to either side.
use crate::{ToneFault, tone_read, tone_write};
use link_frames::Frame;

/// The first sample in place of that of `init`, whose eight first bits are 0, and what is then read.
#[test]
fn noise_in_one_sample(rt: HostRuntime) {
    let eight = [-1000, -1000, 1000, -1000, 1000, 1000, -1000, 1000];
    for (first, wanted) in [
        (-1000, Ok(Frame::Init)),
        (3000, Ok(Frame::Init)),
        (3001, Err(ToneFault::Unsure { bit: 0, sum: -3999 })),
        (10999, Err(ToneFault::Unsure { bit: 0, sum: 3999 })),
        (11000, Err(ToneFault::NotFrame { octets: 1 })),
    ] {
        let mut samples = tone_write(&Frame::Init);
        assert_eq!(rt; samples.as_slice().get(..8), Some(eight.as_slice()));
        if let Some(sample) = samples.as_mut_slice().first_mut() {
            *sample = first;
        }
        assert_eq!(rt; tone_read(samples.as_slice()), wanted, "{first}");
    }
}
