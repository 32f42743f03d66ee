//! The civil date and time of day of a set.
ghost use Rattle.std.specs.Prelude.{◌≡◌, ◌+◌, ◌*◌, ◌/◌, ◌%◌, ◌<◌, pos, ◌*ℤ◌};
ghost use Rattle.msd_values.specs.inner.Clock.{IsCivilTime};
ghost use Rattle.msd_values.specs.Civil.{two_digits, instant_text};

use jiff_core::civil::DateTime;
use jiff_core::{Offset, Timestamp};

// The instant of so many seconds after 1970-01-01T00:00:00Z.
fn instant_of(time: u32) -> Timestamp
    ensures { result.nanosecond ≡ pos time *ℤ pos 1_000_000_000 }
{
    Timestamp::from_nanosecond(i128::from(time) * 1_000_000_000).unwrap()
}

// The civil date and time of day in UTC, of the seconds since 1970-01-01T00:00:00Z.
fn civil_time(time: u32) -> DateTime
    ensures { IsCivilTime result time }
{
    Offset::UTC.to_datetime(instant_of(time))
}

// A number below 100 in two digits.
fn two_digits(number: u8) -> [u8; 2]
    requires { number < 100 }
    ensures { result ≡ two_digits number }
{
    [b'0' + number / 10, b'0' + number % 10]
}

#[tactic(auto, unfolding(crate::specs::Civil::instant_text))]
/// The instant of so many seconds after 1970-01-01T00:00:00Z, as `YYYY-MM-DDThh:mm:ssZ`.
pub fn instant_text(time: u32) -> [u8; 20]
    ensures { result ≡ instant_text time }
{
    let civil = civil_time(time);
    let century = two_digits((civil.date.year / 100) as u8);
    let year = two_digits((civil.date.year % 100) as u8);
    let month = two_digits(civil.date.month);
    let day = two_digits(civil.date.day);
    let hour = two_digits(civil.time.hour);
    let minute = two_digits(civil.time.minute);
    let second = two_digits(civil.time.second);
    [
        century[0], century[1], year[0], year[1], b'-', month[0], month[1], b'-', day[0], day[1],
        b'T', hour[0], hour[1], b':', minute[0], minute[1], b':', second[0], second[1], b'Z',
    ]
}
