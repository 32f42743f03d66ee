//! Readers of numbers, truth values, presence bits and characters.
ghost use Rattle.std.specs.Prelude.{◌≡◌, ◌^◌, ◌<◌, ◌≤◌, ◌≤ℤ◌, IfOk, length};
ghost use Rattle.std.specs.List.{Contains};
ghost use Rattle.per_bits.specs.Bits.{digits};
ghost use Rattle.per_types.specs.Kinds.{whole_width};
ghost use Rattle.per_types.specs.Spelling.{TruthElements, WholeElements, PresenceElements, CharacterElements, SmallElements, LengthElements, FormatElements};
ghost use Rattle.per_types.specs.Stops.{Reads};
ghost use Rattle.per_types.specs.Reading.{Gives, truth_at, whole_at, presence_at, character_at, small_at, length_at, format_at};

use crate::readers::elements::{look, refusal, skip};
use per_bits::{Cursor, Reason, Refusal};

// The characters of a vehicle identification number in the order of their indices.
pub(crate) const ALPHABET: [u8; 33] = *b"0123456789ABCDEFGHJKLMNPRSTUVWXYZ";

/// A BOOLEAN, or an extension mark: whether additions follow.
pub fn read_bool(c: &mut Cursor<'_>) -> Result<bool, Refusal>
    ensures reads { Reads TruthElements (λ v. v) c.old result c.new }
    ensures exact { Gives (λ v. v) result (truth_at c.old) c.new }
{
    let n = look(c, 1)?;
    skip(c, 1);
    Ok(n == 1)
}

/// A small number, 0 to 63.
pub fn read_small(c: &mut Cursor<'_>) -> Result<u8, Refusal>
    ensures reads { Reads SmallElements (λ n. n) c.old result c.new }
    ensures exact { Gives (λ n. n) result (small_at c.old) c.new }
    ensures small { IfOk result (λ n. n ≤ 63) }
{
    let n = look(c, 7)?;
    if n >= 64 {
        return Err(refusal(c, Reason::SmallLarge, n));
    }
    skip(c, 7);
    Ok(n as u8)
}

/// A length, 0 to 127.
pub fn read_length(c: &mut Cursor<'_>) -> Result<u8, Refusal>
    ensures reads { Reads LengthElements (λ n. n) c.old result c.new }
    ensures exact { Gives (λ n. n) result (length_at c.old) c.new }
    ensures few { IfOk result (λ n. n ≤ 127) }
{
    let n = look(c, 8)?;
    if n >= 128 {
        return Err(refusal(c, Reason::LongLength, n));
    }
    skip(c, 8);
    Ok(n as u8)
}

/// The presence bits of a SEQUENCE with `n` OPTIONAL and DEFAULT components, at most 16: the number that
/// they read, the first component's bit highest.
pub fn read_presence(c: &mut Cursor<'_>, n: u32) -> Result<u16, Refusal>
    requires { n ≤ 16 }
    ensures reads { Reads (PresenceElements n) (λ v. digits n v) c.old result c.new }
    ensures exact { Gives (λ v. digits n v) result (presence_at n c.old) c.new }
    ensures below { IfOk result (λ v. v < 2 ^ n) }
{
    let bits = look(c, n)?;
    skip(c, n);
    Ok(bits as u16)
}

/// A character of a vehicle identification number, in ASCII.
pub fn read_char(c: &mut Cursor<'_>) -> Result<u8, Refusal>
    ensures reads { Reads CharacterElements (λ v. v) c.old result c.new }
    ensures exact { Gives (λ v. v) result (character_at c.old) c.new }
{
    let n = look(c, 6)?;
    if n > 32 {
        return Err(refusal(c, Reason::OutOfRange, n));
    }
    skip(c, 6);
    Ok(ALPHABET[n as usize])
}

/// A whole number from `low` to `high`, whose range needs `width` bits.
pub fn read_whole(c: &mut Cursor<'_>, low: i64, high: i64, width: u32) -> Result<i64, Refusal>
    requires ordered { low ≤ℤ high }
    requires width { width ≡ whole_width low high }
    ensures reads { Reads (WholeElements low high) (λ v. v) c.old result c.new }
    ensures exact { Gives (λ v. v) result (whole_at low high c.old) c.new }
    ensures in_range { IfOk result (λ v. (low ≤ℤ v) × (v ≤ℤ high)) }
{
    let n = look(c, width)?;
    if n > high.abs_diff(low) {
        return Err(refusal(c, Reason::OutOfRange, n));
    }
    skip(c, width);
    Ok((i128::from(low) + i128::from(n)) as i64)
}

/// The number of a format, which is to be one of the `known` ones. Some format is known.
pub fn read_format(c: &mut Cursor<'_>, known: &[u8]) -> Result<u8, Refusal>
    requires { 1 ≤ length known.now }
    ensures reads { Reads (FormatElements known.now) (λ v. v) c.old result c.new }
    ensures exact { Gives (λ v. v) result (format_at known.now c.old) c.new }
    ensures known { IfOk result (λ v. Contains known.now v) }
{
    let n = look(c, 8)?;
    let format = n as u8;
    if !known.contains(&format) {
        return Err(refusal(c, Reason::Version, n));
    }
    skip(c, 8);
    Ok(format)
}
