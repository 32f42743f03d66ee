//! The numbers of lines that have a type of their own.

ghost use Rattle.std.specs.Prelude.{◌≡◌};
ghost use Rattle.line_input.specs.Numbers.{positive, positive_below};
ghost use Rattle.trace_text.specs.EventLines.{delay};

use line_input::{read_positive_u8, read_positive_u32, read_u32};
use link_frames::{DialAttempt, Request};
use trace_model::{Delay, Positive};

/// A number from 1 to 4294967295.
pub fn read_positive(text: &[u8]) -> Option<Positive>
    ensures { result ≡ positive text.now }
{
    Positive::new(read_positive_u32(text)?)
}

/// A request, 1 to 255.
#[inline]
pub fn read_request(text: &[u8]) -> Option<Request>
    ensures { result ≡ positive_below 256 text.now }
{
    Request::new(read_positive_u8(text, 256)?)
}

/// An attempt to dial, 1 to 10.
pub fn read_dial_attempt(text: &[u8]) -> Option<DialAttempt>
    ensures { result ≡ positive_below 11 text.now }
{
    DialAttempt::new(read_positive_u8(text, 11)?)
}

/// The delay of a flow, 0 to 1000 ticks.
pub fn read_delay(text: &[u8]) -> Option<Delay>
    ensures { result ≡ delay text.now }
{
    Delay::new(read_u32(text)?)
}
