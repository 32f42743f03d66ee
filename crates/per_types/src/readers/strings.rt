//! Readers of strings of octets. The part that one hands out stands behind the eight bits of its length.
ghost use Rattle.std.specs.Prelude.{◌≡◌, ◌*◌, ◌<◌, ◌≤◌, ◌≢◌, ◌==◌, ◌&&◌, ◌||◌, nat_le, true, IfOk, IfErr, IfSome, MatchOption, length};
ghost use Rattle.per_bits.specs.Bits.{behind, front, octets_of};
ghost use Rattle.per_types.specs.Kinds.{oid_fault};
ghost use Rattle.per_types.specs.Spelling.{StringElements, OidElements, OpenElements};
ghost use Rattle.per_types.specs.Stops.{Reads};
ghost use Rattle.per_types.specs.Reading.{Gives, octets_at, oid_at, oid_length_at, open_at, open_length_at};
ghost use Rattle.per_types.specs.inner.Short.{IsShort};

use crate::readers::elements::{look, refusal, short, skip};
use crate::readers::numbers::read_length;
use per_bits::{Cursor, Octs, Oid, Reason, Refusal};

/// An octet string.
pub fn read_octets<'a>(c: &mut Cursor<'a>) -> Result<Octs<'a>, Refusal>
    ensures reads { Reads StringElements (λ o. octets_of o.bits) c.old result c.new }
    ensures part { IfOk result (λ o. o ≡ front (behind c.old 8) (length o.bits)) }
    ensures exact { Gives (λ o. o) result (octets_at c.old) c.new }
{
    let count = read_length(c)?;
    octets(c, count)
}

/// A relative object identifier.
pub fn read_oid<'a>(c: &mut Cursor<'a>) -> Result<Oid<'a>, Refusal>
    ensures reads { Reads OidElements (λ o. octets_of o.bits) c.old result c.new }
    ensures part { IfOk result (λ o. o ≡ front (behind c.old 8) (length o.bits)) }
    ensures exact { Gives (λ o. o) result (oid_at c.old) c.new }
{
    let count = oid_length(c)?;
    let mut ahead = c.fork();
    let octs = octets(&mut ahead, count)?;
    if let Some((i, octet)) = first_break(&octs) {
        return Err(Refusal {
            place: c.place() + 8 * i,
            reason: Reason::BadOid,
            value: u64::from(octet),
        });
    }
    skip(c, 8 * u32::from(count));
    Ok(Oid::known(octs))
}

/// The octets of an open type.
pub fn read_open<'a>(c: &mut Cursor<'a>) -> Result<Octs<'a>, Refusal>
    ensures reads { Reads OpenElements (λ o. octets_of o.bits) c.old result c.new }
    ensures part { IfOk result (λ o. o ≡ front (behind c.old 8) (length o.bits)) }
    ensures exact { Gives (λ o. o) result (open_at c.old) c.new }
{
    let count = open_length(c)?;
    octets(c, count)
}

// The next octets, as many as count says.
fn octets<'a>(c: &mut Cursor<'a>, count: u8) -> Result<Octs<'a>, Refusal>
    requires { count ≤ 127 }
    ensures ok { IfOk result (λ o. (8 * count ≤ length c.old.bits) × (o ≡ front c.old (8 * count)) × (c.new ≡ behind c.old (8 * count))) }
    ensures short { IfErr result (λ e. IsShort c.old (8 * count) e × (c.new ≡ c.old)) }
{
    match c.take(8 * u32::from(count)) {
        Ok(bits) => Ok(Octs::known(bits)),
        Err(e) => Err(short(e)),
    }
}

// The length of an object identifier, 1 to 127.
fn oid_length(c: &mut Cursor<'_>) -> Result<u8, Refusal>
    ensures exact { Gives (λ n. n) result (oid_length_at c.old) c.new }
    ensures some { IfOk result (λ n. (n ≢ 0) × (n ≤ 127)) }
{
    let n = look(c, 8)?;
    if n >= 128 {
        return Err(refusal(c, Reason::LongLength, n));
    }
    if n == 0 {
        return Err(refusal(c, Reason::BadOid, 0));
    }
    skip(c, 8);
    Ok(n as u8)
}

// The length of an open type, 1 to 127.
fn open_length(c: &mut Cursor<'_>) -> Result<u8, Refusal>
    ensures exact { Gives (λ n. n) result (open_length_at c.old) c.new }
    ensures some { IfOk result (λ n. (n ≢ 0) × (n ≤ 127)) }
{
    let n = look(c, 8)?;
    if n >= 128 {
        return Err(refusal(c, Reason::LongLength, n));
    }
    if n == 0 {
        return Err(refusal(c, Reason::EmptyOpen, 0));
    }
    skip(c, 8);
    Ok(n as u8)
}

// The first octet that breaks the rule of object identifiers, with its index.
fn first_break(octs: &Octs<'_>) -> Option<(u32, u8)>
    ensures fault { MatchOption result (oid_fault true 0 (octets_of octs.now.bits) ≡ None) (λ x. oid_fault true 0 (octets_of octs.now.bits) ≡ Some (record { offset = 8 * x.0; reason = Reason.BadOid; value = x.1 })) }
    ensures within { IfSome result (λ x. x.0 < 127) }
{
    let count = octs.count();
    let mut begins = true;
    for i in 0..count {
        let octet = octs.at(i);
        if breaks(octet, begins, i + 1 == count) {
            return Some((i, octet));
        }
        begins = octet < 0x80;
    }
    None
}

// Whether the octet breaks the rule where it begins an arc, or is the last one.
fn breaks(octet: u8, begins: bool, last: bool) -> bool
    ensures { result ≡ (begins && octet == 128 || last && nat_le 128 octet) }
{
    (begins && octet == 0x80) || (last && octet >= 0x80)
}
