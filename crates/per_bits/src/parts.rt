//! A part of borrowed octets, in bits.
ghost use Rattle.std.specs.Prelude.{◌≡◌, ◌+◌, ◌*◌, ◌^◌, ◌≤◌, ◌<◌, ◌↔◌, IsTrue, Some, length, take, slice_get};
ghost use Rattle.per_bits.specs.Bits.{Part, IsInPlace, most_borrowed, all_bits, front, behind, value_of, octet_bits};

use crate::numbers::{bit_at, number_at, octets_stand_at};
use std::marker::Model;

/// Consecutive bits of borrowed octets. A contract sees all bits of the octets, the place at which the
/// part begins among them, and its own bits.
#[derive(Drop)]
pub struct Bits<'a> {
    octets: &'a [u8],
    start: u32,
    len: u32,
}

impl<'a> Model for Bits<'a> {
    ghost use Rattle.std.specs.Prelude.{◌+◌, ◌*◌, ◌≤◌, length};
    ghost use Rattle.per_bits.specs.Bits.{Part, most_borrowed, part_at};

    ghost Value = { Part };

    ghost view = { λ b. part_at b.octets.now b.start b.len };

    ghost invariant = { λ b. (b.start + b.len ≤ 8 * length b.octets.now) × (length b.octets.now ≤ most_borrowed) };
}

impl<'a> Bits<'a> {
    /// All bits of the octets.
    pub fn of(octets: &'a [u8]) -> Bits<'a>
        requires { length octets.now ≤ most_borrowed }
        ensures all { result ≡ all_bits octets.now }
        ensures in_place { IsInPlace result }
    {
        Bits {
            octets,
            start: 0,
            len: octets.len() as u32 * 8,
        }
    }

    /// How many bits the part has.
    pub fn len(&self) -> u32
        ensures value { result ≡ length self.now.bits }
        ensures in_place { IsInPlace self.now }
    {
        self.len
    }

    /// The place, in bits, at which the part begins in the octets that `of` was given.
    pub fn start(&self) -> u32
        ensures value { result ≡ self.now.start }
        ensures in_place { IsInPlace self.now }
    {
        self.start
    }

    /// Whether bit `i` is 1.
    pub fn bit(&self, i: u32) -> bool
        requires { i < length self.now.bits }
        ensures value { slice_get self.now.bits i ≡ Some result }
        ensures in_place { IsInPlace self.now }
    {
        bit_at(self.octets, self.start + i)
    }

    /// The part that begins `start` bits behind this one's start and has `len` bits.
    pub fn part(&self, start: u32, len: u32) -> Bits<'a>
        requires { start + len ≤ length self.now.bits }
        ensures value { result ≡ front (behind self.now start) len }
        ensures in_place { IsInPlace result }
    {
        Bits {
            octets: self.octets,
            start: self.start + start,
            len,
        }
    }

    // The first n bits.
    pub(crate) fn front(&self, n: u32) -> Bits<'a>
        requires { n ≤ length self.now.bits }
        ensures value { result ≡ front self.now n }
        ensures in_place { IsInPlace result }
    {
        Bits {
            octets: self.octets,
            start: self.start,
            len: n,
        }
    }

    // What stands behind the first n bits.
    pub(crate) fn behind(&self, n: u32) -> Bits<'a>
        requires { n ≤ length self.now.bits }
        ensures value { result ≡ behind self.now n }
        ensures in_place { IsInPlace result }
    {
        Bits {
            octets: self.octets,
            start: self.start + n,
            len: self.len - n,
        }
    }

    /// The part itself, a second time: a type with a lifetime and a `Model` can't be `Copy`.
    pub fn share(&self) -> Bits<'a>
        ensures value { result ≡ self.now }
        ensures in_place { IsInPlace result }
    {
        Bits {
            octets: self.octets,
            start: self.start,
            len: self.len,
        }
    }

    // The number that the first bits read.
    pub(crate) fn number(&self, width: u32) -> u64
        requires narrow { width ≤ 64 }
        requires within { width ≤ length self.now.bits }
        ensures value { result ≡ value_of (take width self.now.bits) }
        ensures below { result < 2 ^ width }
    {
        number_at(self.octets, self.start, width)
    }

    /// Whether the bits are those of the octets.
    pub fn octets_equal(&self, other: &[u8]) -> bool
        ensures { IsTrue result ↔ (self.now.bits ≡ octet_bits other.now) }
    {
        if self.len % 8 != 0 {
            return false;
        }
        if (self.len / 8) as usize != other.len() {
            return false;
        }
        octets_stand_at(self.octets, self.start, other)
    }
}
