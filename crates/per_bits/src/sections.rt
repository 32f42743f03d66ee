//! A part that is known to be a section of extension additions.
ghost use Rattle.std.specs.Prelude.{◌≡◌, ◌+◌, ◌-◌, ◌*◌, ◌≤◌, ◌<◌, ◌↔◌, List, Bool, ◌++◌, length, map, take, drop, replicate, slice_get, ℕ, true, false, Some, IsTrue, IsSome, IfSome, IfNone};
ghost use Rattle.std.specs.Iterator.{YieldsFirst, item_count};
ghost use Rattle.std.specs.List.{AllByRecursion};
ghost use Rattle.per_bits.specs.Bits.{Part, IsInPlace, LiesIn, octets_of};
ghost use Rattle.per_bits.specs.Parts.{Open, Section, IsSection, AreInOrder, member_count, members_of, present_members, present_parts};

use crate::parts::Bits;
use crate::strings::{MOST_OCTETS, Octs};
use std::marker::Model;

// How many bits the number of additions has, and how many a length has.
const COUNT_BITS: u32 = 7;

const LENGTH_BITS: u32 = 8;

// How many additions a section has at most.
const MOST_ADDITIONS: u32 = 64;

/// Exactly one section of extension additions. A contract sees the part.
#[derive(Drop)]
pub struct Additions<'a> {
    bits: Bits<'a>,
}

impl<'a> Model for Additions<'a> {
    ghost use Rattle.per_bits.specs.Bits.{Part};
    ghost use Rattle.per_bits.specs.Parts.{IsSection};

    ghost Value = { Part };

    ghost view = { λ a. a.bits };

    ghost invariant = { λ a. IsSection a.bits.bits };
}

impl<'a> Additions<'a> {
    /// The part as a section. `None` is for bits that aren't exactly one.
    pub fn of(bits: Bits<'a>) -> Option<Additions<'a>>
        ensures valid { IsSome result ↔ IsSection bits.entry.bits }
        ensures same { IfSome result (λ additions. additions ≡ bits.entry) }
    {
        if is_section(&bits) {
            Some(Additions { bits })
        } else {
            None
        }
    }

    /// The part as a section, where it is known to be one.
    pub fn known(bits: Bits<'a>) -> Additions<'a>
        requires { IsSection bits.bits }
        ensures { result ≡ bits.entry }
    {
        Additions { bits }
    }

    /// The section itself, a second time.
    pub fn share(&self) -> Additions<'a>
        ensures value { result ≡ self.now }
        ensures in_place { IsInPlace result }
    {
        Additions {
            bits: self.bits.share(),
        }
    }

    /// How many additions the section has a presence bit for, 1 to 64.
    pub fn count(&self) -> u8
        ensures value { result ≡ length (members_of self.now.bits) }
        ensures section { Section (members_of self.now.bits) self.now.bits }
    {
        self.bits.number(COUNT_BITS) as u8 + 1
    }

    /// The section as bits.
    pub fn bits(&self) -> Bits<'a>
        ensures value { result ≡ self.now }
        ensures section { Section (members_of self.now.bits) self.now.bits }
        ensures in_place { IsInPlace result }
    {
        self.bits.share()
    }

    /// The present additions in order, each with its index from 0.
    pub fn iter(&self) -> AdditionsIter<'a>
        ensures value { result ≡ present_parts self.now.all 0 (self.now.start + (7 + member_count self.now.bits)) (members_of self.now.bits) }
        ensures section { Section (members_of self.now.bits) self.now.bits }
        // Their octets are those of the present members.
        ensures members { map (λ addition. (addition.0, octets_of addition.1.bits)) result ≡ present_members 0 (members_of self.now.bits) }
        // Each lies in the section, behind the one before it.
        ensures inside { AllByRecursion (λ addition. LiesIn addition.1 self.now) result }
        ensures ordered { AreInOrder 0 self.now.start result }
    {
        let count = self.bits.number(COUNT_BITS) as u32 + 1;
        AdditionsIter {
            index: 0,
            present: self.bits.part(COUNT_BITS, count),
            rest: self.bits.behind(COUNT_BITS + count),
        }
    }
}

/// The present additions of a section that are still to come. A contract sees the list of them.
#[derive(Drop)]
pub struct AdditionsIter<'a> {
    index: u8,
    present: Bits<'a>,
    rest: Bits<'a>,
}

impl<'a> Model for AdditionsIter<'a> {
    ghost use Rattle.std.specs.Prelude.{◌≡◌, ◌+◌, ◌≤◌, ℕ, List, length, map, is_some};
    ghost use Rattle.per_bits.specs.Bits.{Part};
    ghost use Rattle.per_bits.specs.Parts.{Member, Opens, opens_of, present_parts};

    ghost Value = { List (ℕ × Part) };

    ghost view = { λ s. present_parts s.rest.all s.index s.rest.start (opens_of s.present.bits s.rest.bits) };

    ghost invariant = { λ s. (s.index + length s.present.bits ≤ 64) × ((members : List Member) × (map is_some members ≡ s.present.bits) × Opens members s.rest.bits) };
}

// How many absent additions stand in front.
fn absent(present: &Bits<'_>) -> u32
    ensures within { result ≤ length present.now.bits }
    ensures absent { take result present.now.bits ≡ replicate result false }
    ensures found { result < length present.now.bits → slice_get present.now.bits result ≡ Some true }
{
    for i in 0..present.len() {
        if present.bit(i) {
            return i;
        }
    }
    present.len()
}

impl<'a> Iterator for AdditionsIter<'a> {
    type Item = (u8, Octs<'a>);

    ghost next_gives = { YieldsFirst (λ s. s) };

    ghost remaining = { item_count (λ s. s) };

    fn next(&mut self) -> Option<(u8, Octs<'a>)> {
        let absent = absent(&self.present);
        if absent == self.present.len() {
            return None;
        }
        let index = self.index + absent as u8;
        let size = 8 * self.rest.number(LENGTH_BITS) as u32;
        let octets = Octs::known(self.rest.part(LENGTH_BITS, size));
        self.index = index + 1;
        self.present = self.present.behind(absent + 1);
        self.rest = self.rest.behind(LENGTH_BITS + size);
        Some((index, octets))
    }
}

// Whether the bits are exactly one section of additions.
fn is_section(bits: &Bits<'_>) -> bool
    ensures { IsTrue result ↔ IsSection bits.now.bits }
{
    let len = bits.len();
    if len < COUNT_BITS {
        return false;
    }
    let count = bits.number(COUNT_BITS) as u32 + 1;
    if count > MOST_ADDITIONS {
        return false;
    }
    if len < COUNT_BITS + count {
        return false;
    }
    let present = bits.part(COUNT_BITS, count);
    if present.number(count) == 0 {
        return false;
    }
    let mut place = COUNT_BITS + count;
    for i in 0..count {
        if present.bit(i) {
            let Some(end) = open_end(bits, place) else {
                return false;
            };
            place = end;
        }
    }
    place == len
}

// Where the open type that begins at the place ends, if one stands there.
fn open_end(bits: &Bits<'_>, place: u32) -> Option<u32>
    requires { place ≤ length bits.now.bits }
    ensures some { IfSome result (λ end. (octets : List ℕ) × (a : List Bool) × Open octets a × (drop place bits.now.bits ≡ a ++ drop end bits.now.bits) × (end ≤ length bits.now.bits)) }
    ensures none { IfNone result ((octets : List ℕ) (a rest : List Bool) → Open octets a → drop place bits.now.bits ≡ a ++ rest → ⊥) }
{
    let rest = bits.behind(place);
    if rest.len() < LENGTH_BITS {
        return None;
    }
    let octets = rest.number(LENGTH_BITS) as u32;
    if octets == 0 {
        return None;
    }
    if octets > MOST_OCTETS {
        return None;
    }
    let size = LENGTH_BITS + 8 * octets;
    if rest.len() < size {
        return None;
    }
    Some(place + size)
}
