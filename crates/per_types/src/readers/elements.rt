//! One element at a cursor: its bits are looked at first, and left behind once they are judged.
ghost use Rattle.std.specs.Prelude.{◌≡◌, ◌^◌, ◌<◌, ◌≤◌, length, take, IfOk, IfErr};
ghost use Rattle.per_bits.specs.Bits.{behind, front, value_of};
ghost use Rattle.per_types.specs.inner.Short.{IsShort};

use per_bits::{Bits, Cursor, Reason, Refusal, Short};

/// A refusal at the cursor.
pub fn refusal(c: &Cursor<'_>, reason: Reason, value: u64) -> Refusal
    ensures { result ≡ record { place = c.now.start; reason = reason; value = value } }
{
    Refusal {
        place: c.place(),
        reason,
        value,
    }
}

/// The refusal of an element of which fewer bits are left.
pub fn short(e: Short) -> Refusal
    ensures { result ≡ record { place = e.place; reason = Reason.Short; value = e.wanted } }
{
    Refusal {
        place: e.place,
        reason: Reason::Short,
        value: u64::from(e.wanted),
    }
}

/// The number that the next `width` bits read. The cursor stays.
pub fn look(c: &Cursor<'_>, width: u32) -> Result<u64, Refusal>
    requires { width ≤ 64 }
    ensures ok { IfOk result (λ n. (width ≤ length c.now.bits) × (n ≡ value_of (take width c.now.bits))) }
    ensures below { IfOk result (λ n. n < 2 ^ width) }
    ensures short { IfErr result (λ e. IsShort c.now width e) }
{
    match c.fork().number(width) {
        Ok(n) => Ok(n),
        Err(e) => Err(short(e)),
    }
}

/// The next `n` bits, which are there.
pub fn taken<'a>(c: &mut Cursor<'a>, n: u32) -> Bits<'a>
    requires { n ≤ length c.old.bits }
    ensures bits { result ≡ front c.old n }
    ensures left { c.new ≡ behind c.old n }
{
    c.take(n).unwrap()
}

/// Leaves `n` bits behind.
pub fn skip(c: &mut Cursor<'_>, n: u32)
    requires { n ≤ length c.old.bits }
    ensures { c.new ≡ behind c.old n }
{
    let _ = taken(c, n);
}
