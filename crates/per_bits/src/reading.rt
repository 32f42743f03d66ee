//! A cursor that takes bits from the front of a part.
ghost use Rattle.std.specs.Prelude.{◌≡◌, ◌+◌, ◌*◌, ◌^◌, ◌≤◌, ◌<◌, length, take, IfOk, IfErr};
ghost use Rattle.per_bits.specs.Bits.{Part, IsInPlace, front, behind, value_of};

use crate::parts::Bits;
use std::marker::Model;

/// Fewer bits are left than the `wanted` ones, at the cursor's place in bits.
#[derive(Clone, Copy, Debug, Drop, PartialEq, Eq)]
pub struct Short {
    pub place: u32,
    pub wanted: u32,
}

/// What is left of a part of borrowed octets. A contract sees it as a part: all bits of the octets, the
/// place where the cursor stands, and the bits that are left.
#[derive(Drop)]
pub struct Cursor<'a> {
    rest: Bits<'a>,
}

impl<'a> Model for Cursor<'a> {
    ghost use Rattle.per_bits.specs.Bits.{Part};

    ghost Value = { Part };

    ghost view = { λ c. c.rest };
}

impl<'a> Cursor<'a> {
    /// A cursor at the front of the part.
    pub fn of(bits: Bits<'a>) -> Cursor<'a>
        ensures { result ≡ bits.entry }
    {
        Cursor { rest: bits }
    }

    /// A second cursor at the same place.
    pub fn fork(&self) -> Cursor<'a>
        ensures value { result ≡ self.now }
        ensures in_place { IsInPlace result }
    {
        Cursor {
            rest: self.rest.share(),
        }
    }

    /// Where the cursor stands, in bits of the borrowed octets.
    pub fn place(&self) -> u32
        ensures value { result ≡ self.now.start }
        ensures in_place { IsInPlace self.now }
    {
        self.rest.start()
    }

    /// How many bits are left.
    pub fn left(&self) -> u32
        ensures value { result ≡ length self.now.bits }
        ensures in_place { IsInPlace self.now }
    {
        self.rest.len()
    }

    /// The next `n` bits.
    pub fn take(&mut self, n: u32) -> Result<Bits<'a>, Short>
        ensures ok { IfOk result (λ part. (n ≤ length self.old.bits) × (part ≡ front self.old n) × (self.new ≡ behind self.old n)) }
        ensures short { IfErr result (λ e. (length self.old.bits < n) × (e ≡ record { place = self.old.start; wanted = n }) × (self.new ≡ self.old)) }
        ensures part_in_place { IfOk result IsInPlace }
        ensures in_place { IsInPlace self.new }
    {
        if self.rest.len() < n {
            return Err(self.short(n));
        }
        let part = self.rest.front(n);
        self.rest = self.rest.behind(n);
        Ok(part)
    }

    /// The number that the next `width` bits read.
    pub fn number(&mut self, width: u32) -> Result<u64, Short>
        requires { width ≤ 64 }
        ensures ok { IfOk result (λ n. (width ≤ length self.old.bits) × (n ≡ value_of (take width self.old.bits)) × (self.new ≡ behind self.old width)) }
        ensures below { IfOk result (λ n. n < 2 ^ width) }
        ensures short { IfErr result (λ e. (length self.old.bits < width) × (e ≡ record { place = self.old.start; wanted = width }) × (self.new ≡ self.old)) }
        ensures in_place { IsInPlace self.new }
    {
        if self.rest.len() < width {
            return Err(self.short(width));
        }
        let n = self.rest.number(width);
        self.rest = self.rest.behind(width);
        Ok(n)
    }

    // That fewer bits are left than these.
    fn short(&self, wanted: u32) -> Short
        ensures value { result ≡ record { place = self.now.start; wanted = wanted } }
        ensures in_place { IsInPlace self.now }
    {
        Short {
            place: self.rest.start(),
            wanted,
        }
    }
}
