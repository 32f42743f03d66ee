//! A buffer for the bits of one set of data.
ghost use Rattle.std.specs.Prelude.{◌≡◌, ◌+◌, ◌-◌, ◌*◌, ◌^◌, ◌≤◌, ◌<◌, [], ◌++◌, false, length, take, drop, replicate, OnOk, OnErr};
ghost use Rattle.per_bits.specs.Bits.{Part, digits, octet_bits, padded, room_octets, room_bits};

use crate::numbers::{WINDOW, WINDOW_WIDTH, window_at};
use crate::parts::Bits;
use std::marker::Model;

/// More than 1120 bits would stand in the buffer.
#[derive(Clone, Copy, Debug, Drop, PartialEq, Eq)]
pub struct Full;

// How many octets lie in a buffer: the 140 that it holds, and a window behind them, so that a window begins at each.
const OCTETS: usize = 148;

/// How many bits a buffer holds: those of 140 octets.
pub const ROOM_BITS: u32 = 1120;

/// At most 1120 bits, which is 140 octets. A contract sees the bits.
#[derive(Drop)]
pub struct BitBuf {
    octets: [u8; OCTETS],
    len: u32,
}

impl Model for BitBuf {
    ghost use Rattle.std.specs.Prelude.{◌≡◌, ◌-◌, ◌≤◌, List, Bool, false, take, drop, replicate, length};
    ghost use Rattle.per_bits.specs.Bits.{octet_bits, room_bits};

    ghost Value = { List Bool };

    ghost view = { λ b. take b.len (octet_bits b.octets) };

    ghost invariant = { λ b. (b.len ≤ room_bits) × (drop b.len (octet_bits b.octets) ≡ replicate (1184 - b.len) false) };
}

impl BitBuf {
    /// An empty buffer.
    pub fn new() -> BitBuf
        ensures { result ≡ [] }
    {
        BitBuf {
            octets: [0; OCTETS],
            len: 0,
        }
    }

    /// How many bits stand in the buffer.
    pub fn len(&self) -> u32
        ensures value { result ≡ length self.now }
        ensures few { result ≤ room_bits }
    {
        self.len
    }

    /// The octets of the bits, after the fewest zero bits that make whole octets.
    pub fn octets(&self) -> &[u8]
        ensures value { result.now ≡ padded self.now }
        ensures few { length result.now ≤ room_octets }
    {
        used(&self.octets, self.len)
    }

    /// Puts the low `width` bits of the value behind what stands there.
    pub fn put(&mut self, value: u64, width: u32) -> Result<(), Full>
        requires narrow { width ≤ 64 }
        requires fits { value < 2 ^ width }
        ensures ok { OnOk result ((length self.old + width ≤ room_bits) × (self.new ≡ self.old ++ digits width value)) }
        ensures full { OnErr result ((room_bits < length self.old + width) × (self.new ≡ self.old)) }
    {
        if self.len() + width > ROOM_BITS {
            return Err(Full);
        }
        if width > WINDOW_WIDTH {
            self.append_wide(value, width);
        } else {
            self.append(value, width);
        }
        Ok(())
    }

    /// Puts the bits behind what stands there.
    pub fn put_bits(&mut self, bits: Bits<'_>) -> Result<(), Full>
        ensures ok { OnOk result ((length self.old + length bits.entry.bits ≤ room_bits) × (self.new ≡ self.old ++ bits.entry.bits)) }
        ensures full { OnErr result ((room_bits < length self.old + length bits.entry.bits) × (self.new ≡ self.old)) }
    {
        let len = bits.len();
        if self.len() + len > ROOM_BITS {
            return Err(Full);
        }
        let mut done = 0;
        while done < len {
            let n = (len - done).min(56);
            self.append(bits.part(done, n).number(n), n);
            done += n;
        }
        Ok(())
    }

    // Puts the low `width` bits of a value that is wider than a half, for which there is room.
    fn append_wide(&mut self, value: u64, width: u32)
        requires wide { 32 ≤ width }
        requires narrow { width ≤ 64 }
        requires fits { value < 2 ^ width }
        requires room { length self.old + width ≤ room_bits }
        ensures { self.new ≡ self.old ++ digits width value }
    {
        self.append(value >> 32, width - 32);
        self.append(value % (1 << 32), 32);
    }

    // Puts the low `width` bits of a value for which there is room.
    #[inline]
    fn append(&mut self, value: u64, width: u32)
        requires narrow { width ≤ 57 }
        requires fits { value < 2 ^ width }
        requires room { length self.old + width ≤ room_bits }
        ensures { self.new ≡ self.old ++ digits width value }
    {
        put_at(&mut self.octets, self.len, value, width);
        self.len += width;
    }
}

// The octets that begin with the first `len` bits, where only zero bits follow these.
fn used(octets: &[u8], len: u32) -> &[u8]
    requires within { len ≤ 8 * length octets.now }
    requires clear { drop len (octet_bits octets.now) ≡ replicate (8 * length octets.now - len) false }
    ensures value { result.now ≡ padded (take len (octet_bits octets.now)) }
    ensures few { 8 * length result.now < len + 8 }
{
    &octets[..len.div_ceil(8) as usize]
}

// Writes the low `width` bits of the value at a place behind which all bits are 0.
#[inline]
fn put_at(octets: &mut [u8; OCTETS], start: u32, value: u64, width: u32)
    requires narrow { width ≤ 57 }
    requires fits { value < 2 ^ width }
    requires room { start ≤ room_bits }
    requires clear { drop start (octet_bits octets.old) ≡ replicate (1184 - start) false }
    ensures { octet_bits octets.new ≡ take start (octet_bits octets.old) ++ digits width value ++ replicate (1184 - (start + width)) false }
{
    let at = (start / 8) as usize;
    let window = window_at(octets, at) + in_window(value, start % 8, width);
    put_window(octets, at, window);
}

// The window whose bits behind its first `skip` ones are the `width` low ones of the value, and then zeros.
#[inline]
fn in_window(value: u64, skip: u32, width: u32) -> u64
    requires within { skip < 8 }
    requires narrow { width ≤ 57 }
    requires fits { value < 2 ^ width }
    ensures { result ≡ value * 2 ^ (64 - skip - width) }
{
    (value << (57 - width)) << (7 - skip)
}

// Writes a window over the eight octets from one on.
#[inline]
fn put_window(octets: &mut [u8; OCTETS], at: usize, window: u64)
    requires within { at + 8 ≤ 148 }
    ensures { octet_bits octets.new ≡ take (8 * at) (octet_bits octets.old) ++ (digits 64 window ++ drop (8 * (at + 8)) (octet_bits octets.old)) }
{
    octets[at..at + WINDOW].copy_from_slice(&window.to_be_bytes());
}
