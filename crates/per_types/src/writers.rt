//! Writers of one kind each, into a buffer of at most 1120 bits. A writer appends exactly the bits that its
//! reader takes for the value. Where these don't fit, it appends nothing.
ghost use Rattle.std.specs.Prelude.{◌≡◌, ◌^◌, ◌<◌, ◌≤◌, ◌≤ℤ◌, ◌+◌, ◌*◌, ◌++◌, List, length, slice_index, OnOk, OnErr};
ghost use Rattle.std.specs.List.{Contains};
ghost use Rattle.per_bits.specs.Bits.{digits, octets_of, room_bits};
ghost use Rattle.per_bits.specs.Parts.{members_of};
ghost use Rattle.per_types.specs.Kinds.{alphabet, whole_width, root_width};
ghost use Rattle.per_types.specs.Spelling.{TruthElements, WholeElements, PresenceElements, CharacterElements, SmallElements, LengthElements, StringElements, OidElements, FormatElements, SectionElements};
ghost use Rattle.per_types.specs.Writing.{AppendsSpelling, EnumElements, IsIndex};

use crate::index::EnumIndex;
use crate::readers::numbers::ALPHABET;
use per_bits::{Additions, BitBuf, Bits, Full, Octs, Oid, ROOM_BITS};

/// A BOOLEAN, or an extension mark: whether additions follow.
pub fn write_bool(to: &mut BitBuf, value: bool) -> Result<(), Full>
    ensures { AppendsSpelling (TruthElements value) to.old result to.new }
{
    to.put(u64::from(value), 1)
}

/// A small number, 0 to 63.
pub fn write_small(to: &mut BitBuf, value: u8) -> Result<(), Full>
    requires { value ≤ 63 }
    ensures { AppendsSpelling (SmallElements value) to.old result to.new }
{
    to.put(u64::from(value), 7)
}

/// A length, 0 to 127.
pub fn write_length(to: &mut BitBuf, value: u8) -> Result<(), Full>
    requires { value ≤ 127 }
    ensures { AppendsSpelling (LengthElements value) to.old result to.new }
{
    to.put(u64::from(value), 8)
}

/// The presence bits of a SEQUENCE with `n` OPTIONAL and DEFAULT components, at most 16: the number that
/// they read, the first component's bit highest.
pub fn write_presence(to: &mut BitBuf, value: u16, n: u32) -> Result<(), Full>
    requires few { n ≤ 16 }
    requires below { value < 2 ^ n }
    ensures { AppendsSpelling (PresenceElements n (digits n value)) to.old result to.new }
{
    to.put(u64::from(value), n)
}

/// A character of a vehicle identification number, in ASCII.
pub fn write_char(to: &mut BitBuf, value: u8) -> Result<(), Full>
    requires { Contains alphabet value }
    ensures { AppendsSpelling (CharacterElements value) to.old result to.new }
{
    to.put(u64::from(index_of(value)), 6)
}

// The index of a character in the alphabet.
fn index_of(value: u8) -> u8
    requires { Contains alphabet value }
    ensures known { result < 33 }
    ensures there { slice_index alphabet result ≡ value }
{
    for i in 0..33u8 {
        if ALPHABET[i as usize] == value {
            return i;
        }
    }
    unreachable!()
}

/// A whole number from `low` to `high`, whose range needs `width` bits.
pub fn write_whole(to: &mut BitBuf, value: i64, low: i64, high: i64, width: u32) -> Result<(), Full>
    requires above { low ≤ℤ value }
    requires below { value ≤ℤ high }
    requires width { width ≡ whole_width low high }
    ensures { AppendsSpelling (WholeElements low high value) to.old result to.new }
{
    to.put(value.abs_diff(low), width)
}

/// The number of a format, which is one of the `known` ones: these serve the contract alone.
pub fn write_format(to: &mut BitBuf, value: u8, known: &[u8]) -> Result<(), Full>
    requires { Contains known.now value }
    ensures { AppendsSpelling (FormatElements known.now value) to.old result to.new }
{
    to.put(u64::from(value), 8)
}

/// An index of an extensible enumeration with `roots` roots, whose index needs `width` bits.
pub fn write_enum(to: &mut BitBuf, value: EnumIndex, roots: u8, width: u32) -> Result<(), Full>
    requires width { width ≡ root_width roots }
    requires index { IsIndex roots value }
    ensures { AppendsSpelling (EnumElements roots value) to.old result to.new }
{
    match value {
        EnumIndex::Root(i) => to.put(u64::from(i), width + 1),
        EnumIndex::Added(i) => to.put(128 + u64::from(i), 8),
    }
}

/// An octet string.
pub fn write_octets(to: &mut BitBuf, value: Octs<'_>) -> Result<(), Full>
    ensures { AppendsSpelling (StringElements (octets_of value.entry.bits)) to.old result to.new }
{
    write_string(to, value.bits(), value.count())
}

/// A relative object identifier.
pub fn write_oid(to: &mut BitBuf, value: Oid<'_>) -> Result<(), Full>
    ensures { AppendsSpelling (OidElements (octets_of value.entry.bits)) to.old result to.new }
{
    let octets = value.octs();
    write_string(to, octets.bits(), octets.count())
}

/// A section of extension additions.
pub fn write_additions(to: &mut BitBuf, value: Additions<'_>) -> Result<(), Full>
    ensures { AppendsSpelling (SectionElements (members_of value.entry.bits)) to.old result to.new }
{
    to.put_bits(value.bits())
}

// A length in eight bits and so many octets, both or nothing.
fn write_string(to: &mut BitBuf, octets: Bits<'_>, count: u32) -> Result<(), Full>
    requires few { count ≤ 127 }
    requires count { length octets.bits ≡ 8 * count }
    ensures ok { OnOk result ((length to.old + (8 + 8 * count) ≤ room_bits) × (to.new ≡ to.old ++ (digits 8 count ++ octets.entry.bits))) }
    ensures full { OnErr result ((room_bits < length to.old + (8 + 8 * count)) × (to.new ≡ to.old)) }
{
    if to.len() + 8 + 8 * count > ROOM_BITS {
        return Err(Full);
    }
    to.put(u64::from(count), 8)?;
    to.put_bits(octets)
}
