//! The bounds of muting.
ghost use Rattle.std.specs.Prelude.{◌≡◌};
ghost use Rattle.link_frames.specs.Legs.{is_data_timer, muting_limit};

use link_frames::{End, Timer};

/// The least ticks for which a voice is open before it is muted again.
pub(crate) const LEAST_OPENING: u64 = 20;

/// The most ticks for which the voice of an end's leg is muted without a break.
pub(crate) fn muting_limit(end: End) -> u64
    ensures { result ≡ muting_limit end }
{
    match end {
        End::Vehicle => 320,
        End::Point => 275,
    }
}

/// Whether a timer is that of a wait for data, or bounds all muting.
pub(crate) fn is_data_timer(timer: Timer) -> bool
    ensures { result ≡ is_data_timer timer }
{
    match timer {
        Timer::T4 | Timer::T5 | Timer::T6 | Timer::T7 | Timer::T8 | Timer::Sum => true,
        Timer::T1 | Timer::T2 | Timer::T3 | Timer::T10 | Timer::TD | Timer::TW => false,
    }
}
