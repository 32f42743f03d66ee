//! Angles in degrees.
ghost use Rattle.std.specs.Prelude.{◌≡◌, ◌<◌, ◌++◌, OnOk};
ghost use Rattle.set_objects.specs.Degrees.{decimals_of, degrees_text, digit_at, seven_digits, sign_text};

use itoa::Buffer;
use std::alloc::AllocError;
use view_lines::put_all;

/// How many milliarcseconds a degree has.
const DEGREE: u32 = 3_600_000;

// The digit of a number at the place whose unit is given.
fn digit_at(unit: u32, number: u32) -> u8
    requires { 0 < unit }
    ensures { result ≡ digit_at unit number }
{
    b'0' + (number / unit % 10) as u8
}

// The last seven digits of a number.
fn seven_digits(number: u32) -> [u8; 7]
    ensures { result ≡ seven_digits number }
{
    [
        digit_at(1_000_000, number),
        digit_at(100_000, number),
        digit_at(10_000, number),
        digit_at(1000, number),
        digit_at(100, number),
        digit_at(10, number),
        digit_at(1, number),
    ]
}

// Ten million times the part of a degree that so many milliarcseconds are.
fn decimals_of(rest: u32) -> u32
    requires { rest < 3600000 }
    ensures { result ≡ decimals_of rest }
{
    (25 * rest + 4) / 9
}

// The sign of an angle.
fn sign_text(angle: i32) -> &'static [u8]
    ensures { result.now ≡ sign_text angle }
{
    if angle < 0 { b"-" } else { b"" }
}

#[tactic(auto, unfolding(crate::specs::Degrees::degrees_text))]
/// Puts an angle in degrees, with seven decimals.
pub(crate) fn put_degrees(text: &mut Vec<u8>, angle: i32) -> Result<(), AllocError>
    ensures { OnOk result (text.new.items ≡ text.old.items ++ degrees_text angle) }
{
    let size = angle.unsigned_abs();
    let mut whole = Buffer::new();
    let decimals = seven_digits(decimals_of(size % DEGREE));
    put_all(
        text,
        &[
            sign_text(angle),
            whole.format(size / DEGREE).as_bytes(),
            b".",
            &decimals,
        ],
    )
}
