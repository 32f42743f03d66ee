//! Parts that are known to be an octet string or a relative object identifier.
ghost use Rattle.std.specs.Prelude.{◌≡◌, ◌*◌, ◌%◌, ◌≤◌, ◌<◌, ◌↔◌, Some, IsSome, IfSome, IsTrue, length, slice_get};
ghost use Rattle.per_bits.specs.Bits.{Part, IsInPlace, octets_of};
ghost use Rattle.per_bits.specs.Parts.{most_octets, IsOid};

use crate::parts::Bits;
use std::marker::Model;

// How many octets a string or an open type has at most.
pub(crate) const MOST_OCTETS: u32 = 127;

/// At most 127 octets, which need not begin at a borrowed octet's first bit. A contract sees the part.
#[derive(Drop)]
pub struct Octs<'a> {
    bits: Bits<'a>,
}

impl<'a> Model for Octs<'a> {
    ghost use Rattle.std.specs.Prelude.{◌≡◌, ◌*◌, ◌%◌, ◌≤◌, length};
    ghost use Rattle.per_bits.specs.Bits.{Part};
    ghost use Rattle.per_bits.specs.Parts.{most_octets};

    ghost Value = { Part };

    ghost view = { λ o. o.bits };

    ghost invariant = { λ o. (length o.bits.bits % 8 ≡ 0) × (length o.bits.bits ≤ 8 * most_octets) };
}

impl<'a> Octs<'a> {
    /// The part as octets. `None` is for a part that isn't whole octets, or is more than 127 of them.
    pub fn of(bits: Bits<'a>) -> Option<Octs<'a>>
        ensures valid { IsSome result ↔ ((length bits.entry.bits % 8 ≡ 0) × (length bits.entry.bits ≤ 8 * most_octets)) }
        ensures same { IfSome result (λ octs. octs ≡ bits.entry) }
    {
        if bits.len() % 8 != 0 || bits.len() > 8 * MOST_OCTETS {
            return None;
        }
        Some(Octs { bits })
    }

    /// The part as octets, where it is known to be some.
    pub fn known(bits: Bits<'a>) -> Octs<'a>
        requires octets { length bits.bits % 8 ≡ 0 }
        requires few { length bits.bits ≤ 8 * most_octets }
        ensures { result ≡ bits.entry }
    {
        Octs { bits }
    }

    /// How many octets they are.
    pub fn count(&self) -> u32
        ensures value { result ≡ length (octets_of self.now.bits) }
        ensures size { length self.now.bits ≡ 8 * result }
        ensures few { result ≤ most_octets }
        ensures in_place { IsInPlace self.now }
    {
        self.bits.len() / 8
    }

    /// The octet with the index `i`, from 0.
    pub fn at(&self, i: u32) -> u8
        requires { i < length (octets_of self.now.bits) }
        ensures { slice_get (octets_of self.now.bits) i ≡ Some result }
    {
        self.bits.behind(8 * i).number(8) as u8
    }

    /// The octets as bits.
    pub fn bits(&self) -> Bits<'a>
        ensures value { result ≡ self.now }
        ensures in_place { IsInPlace result }
    {
        self.bits.share()
    }

    /// The octets themselves, a second time.
    pub fn share(&self) -> Octs<'a>
        ensures value { result ≡ self.now }
        ensures in_place { IsInPlace result }
    {
        Octs {
            bits: self.bits.share(),
        }
    }

    // Whether the octets are those of a relative object identifier.
    fn is_oid(&self) -> bool
        ensures { IsTrue result ↔ IsOid (octets_of self.now.bits) }
    {
        let count = self.count();
        let mut begins = true;
        for i in 0..count {
            let octet = self.at(i);
            if begins && octet == 0x80 {
                return false;
            }
            begins = octet < 0x80;
        }
        count > 0 && begins
    }
}

/// The octets of a relative object identifier. A contract sees the part.
#[derive(Drop)]
pub struct Oid<'a> {
    octs: Octs<'a>,
}

impl<'a> Model for Oid<'a> {
    ghost use Rattle.per_bits.specs.Bits.{Part, octets_of};
    ghost use Rattle.per_bits.specs.Parts.{IsOid};

    ghost Value = { Part };

    ghost view = { λ o. o.octs };

    ghost invariant = { λ o. IsOid (octets_of o.octs.bits) };
}

impl<'a> Oid<'a> {
    /// The octets as a relative object identifier. `None` is for octets that are none.
    pub fn of(octs: Octs<'a>) -> Option<Oid<'a>>
        ensures valid { IsSome result ↔ IsOid (octets_of octs.entry.bits) }
        ensures same { IfSome result (λ oid. oid ≡ octs.entry) }
    {
        if octs.is_oid() {
            Some(Oid { octs })
        } else {
            None
        }
    }

    /// The octets as a relative object identifier, where they are known to be one.
    pub fn known(octs: Octs<'a>) -> Oid<'a>
        requires { IsOid (octets_of octs.bits) }
        ensures { result ≡ octs.entry }
    {
        Oid { octs }
    }

    /// The identifier itself, a second time.
    pub fn share(&self) -> Oid<'a>
        ensures value { result ≡ self.now }
        ensures in_place { IsInPlace result }
    {
        Oid {
            octs: self.octs.share(),
        }
    }

    /// The octets of the identifier.
    pub fn octs(&self) -> Octs<'a>
        ensures value { result ≡ self.now }
        ensures oid { IsOid (octets_of self.now.bits) }
        ensures in_place { IsInPlace result }
    {
        self.octs.share()
    }
}
