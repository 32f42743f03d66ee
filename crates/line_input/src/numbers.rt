//! Numbers in decimal digits, as lines have them.

ghost use Rattle.std.specs.Prelude.{◌≡◌, ◌<◌, ◌≤◌, ◌^◌, pos, neg_ℤ, ◌≤ℤ◌, ◌<ℤ◌, IsTrue, IfSome};
ghost use Rattle.std.specs.List.{list_all};
ghost use Rattle.line_input.specs.Numbers.{is_digit, positive, positive_below, natural_below, negative_from, signed_natural, signed_within};
ghost use Rattle.line_input.specs.inner.Plain.{begins_plain_number};

use crate::words::is_word;

/// A number from 1 to 4294967295.
pub fn read_positive_u32(text: &[u8]) -> Option<u32>
    ensures value { result ≡ positive text.now }
    ensures low { IfSome result (λ n. 0 < n) }
{
    u32::try_from(read_plain(text)?).ok()
}

/// A number from 1 on, below a limit of at most 256.
pub fn read_positive_u8(text: &[u8], limit: u16) -> Option<u8>
    requires { limit ≤ 256 }
    ensures value { result ≡ positive_below limit text.now }
    ensures range { IfSome result (λ n. (1 ≤ n) × (n < limit)) }
{
    let number = read_plain(text)?;
    if number < u64::from(limit) {
        Some(number as u8)
    } else {
        None
    }
}

/// A number from 0 to 255.
pub fn read_u8(text: &[u8]) -> Option<u8>
    ensures { result ≡ natural_below 256 text.now }
{
    let number = read_u64(text)?;
    if number < 256 {
        Some(number as u8)
    } else {
        None
    }
}

/// A number from 0 to 4294967295 in decimal digits. There is none where the text is empty, has any other byte, as a
/// sign, or a zero in front of other digits, or spells more.
pub fn read_u32(text: &[u8]) -> Option<u32>
    ensures { result ≡ natural_below (2 ^ 32) text.now }
{
    u32::try_from(read_u64(text)?).ok()
}

/// A number from 0 to 18446744073709551615.
pub fn read_u64(text: &[u8]) -> Option<u64>
    ensures { result ≡ natural_below (2 ^ 64) text.now }
{
    if is_word(text, "0") {
        Some(0)
    } else {
        read_plain(text)
    }
}

/// A number from the negative of a limit on, below that limit, which is at most 2147483648.
pub fn read_signed(text: &[u8], limit: u32) -> Option<i32>
    requires low { 0 < limit }
    requires high { limit ≤ 2 ^ 31 }
    ensures value { result ≡ signed_within limit text.now }
    ensures low { IfSome result (λ z. neg_ℤ (pos limit) ≤ℤ z) }
    ensures high { IfSome result (λ z. z <ℤ pos limit) }
{
    match text {
        [b'-', digits @ ..] => read_negative(digits, limit),
        _ => read_natural(text, limit),
    }
}

/// The negative of a number from 1 to a limit.
fn read_negative(digits: &[u8], limit: u32) -> Option<i32>
    requires { limit ≤ 2 ^ 31 }
    ensures value { result ≡ negative_from limit digits.now }
    ensures low { IfSome result (λ z. neg_ℤ (pos limit) ≤ℤ z) }
    ensures high { IfSome result (λ z. z ≤ℤ pos 0) }
{
    let number = read_plain(digits)?;
    if number <= u64::from(limit) {
        Some((-(number as i64)) as i32)
    } else {
        None
    }
}

/// A number from 0 on, below a limit.
fn read_natural(text: &[u8], limit: u32) -> Option<i32>
    requires { limit ≤ 2 ^ 31 }
    ensures value { result ≡ signed_natural (natural_below limit text.now) }
    ensures low { IfSome result (λ z. neg_ℤ (pos limit) ≤ℤ z) }
    ensures high { IfSome result (λ z. z <ℤ pos limit) }
{
    let number = read_u32(text)?;
    if number < limit {
        Some(number as i32)
    } else {
        None
    }
}

/// A number from 1 to 18446744073709551615.
#[inline]
fn read_plain(text: &[u8]) -> Option<u64>
    ensures value { result ≡ positive_below (2 ^ 64) text.now }
    ensures low { IfSome result (λ n. 0 < n) }
{
    if begins_plain(text) {
        read_digits(text)
    } else {
        None
    }
}

/// Whether a text begins with a digit from 1 to 9.
#[inline]
fn begins_plain(text: &[u8]) -> bool
    ensures { result ≡ begins_plain_number text.now }
{
    matches!(text, [b'1'..=b'9', ..])
}

/// The number that a text spells which begins with a digit from 1 to 9, so with no sign, where it is below 2^64.
#[inline(never)]
fn read_digits(text: &[u8]) -> Option<u64>
    requires { IsTrue (begins_plain_number text.now) }
    ensures { result ≡ positive_below (2 ^ 64) text.now }
{
    if !are_digits(text) {
        return None;
    }
    // Digits are characters of one byte.
    let digits = unsafe { str::from_utf8_unchecked(text) };
    digits.parse::<u64>().ok()
}

/// Whether each byte is a decimal digit.
#[inline]
fn are_digits(text: &[u8]) -> bool
    ensures { result ≡ list_all is_digit text.now }
{
    text.iter().all(
        |byte: &u8| -> bool
            ensures { result ≡ is_digit byte.now }
        { byte.is_ascii_digit() },
    )
}
