//! Numbers that stand in octets at any bit.
ghost use Rattle.std.specs.Prelude.{◌≡◌, ◌+◌, ◌-◌, ◌*◌, ◌/◌, ◌%◌, ◌^◌, ◌≤◌, ◌<◌, length, take, drop, Some, slice_get, IsTrue, ◌↔◌};
ghost use Rattle.per_bits.specs.Bits.{digits, most_borrowed, value_of, octet_bits};

// The number that `n` bits of an octet read, those behind its first `skip` ones.
#[inline]
fn field(octet: u8, skip: u32, n: u32) -> u64
    requires { skip + n ≤ 8 }
    ensures value { result ≡ value_of (take n (drop skip (digits 8 octet))) }
    ensures below { result < 2 ^ n }
{
    (octet as u64 >> (8 - skip - n)) & ((1 << n) - 1)
}

// Whether the bit at a place is 1.
#[inline]
pub(crate) fn bit_at(octets: &[u8], place: u32) -> bool
    requires { place < 8 * length octets.now }
    ensures { slice_get (octet_bits octets.now) place ≡ Some result }
{
    field(octets[(place / 8) as usize], place % 8, 1) == 1
}

// How many octets are loaded at once, and the widest number that lies in them wherever in the first one it begins.
pub(crate) const WINDOW: usize = 8;

pub(crate) const WINDOW_WIDTH: u32 = 57;

// The number that the octets from one on read, a window of them.
#[inline]
pub(crate) fn window_at(octets: &[u8], at: usize) -> u64
    requires within { at + WINDOW ≤ length octets.now }
    ensures value { result ≡ value_of (take 64 (drop (8 * at) (octet_bits octets.now))) }
{
    let mut value = 0u64;
    for i in 0..WINDOW {
        value = (value << 8) | field(octets[at + i], 0, 8);
    }
    value
}

// The number that `n` bits of a window read, those behind its first `skip` ones.
#[inline]
fn window_field(window: u64, skip: u32, n: u32) -> u64
    requires within { skip + n ≤ 64 }
    requires some { 0 < n }
    requires narrow { n < 64 }
    ensures value { result ≡ value_of (take n (drop skip (digits 64 window))) }
    ensures below { result < 2 ^ n }
{
    (window << skip) >> (64 - n)
}

// The number that `width` bits from the place `start` on read, an octet at a time.
fn number_by_octets(octets: &[u8], start: u32, width: u32) -> u64
    requires narrow { width ≤ 64 }
    requires within { start + width ≤ 8 * length octets.now }
    requires few { length octets.now ≤ most_borrowed }
    ensures value { result ≡ value_of (take width (drop start (octet_bits octets.now))) }
    ensures below { result < 2 ^ width }
{
    let end = start + width;
    let mut at = start;
    let mut value = 0u64;
    while at < end {
        let skip = at % 8;
        let n = (8 - skip).min(end - at);
        value = (value << n) | field(octets[(at / 8) as usize], skip, n);
        at += n;
    }
    value
}

// The number that `width` bits from the place `start` on read, where a window that begins there may reach past the
// octets: out of the last window, if they are enough for one.
#[inline(never)]
fn number_near_end(octets: &[u8], start: u32, width: u32) -> u64
    requires narrow { width ≤ 64 }
    requires within { start + width ≤ 8 * length octets.now }
    requires few { length octets.now ≤ most_borrowed }
    ensures value { result ≡ value_of (take width (drop start (octet_bits octets.now))) }
    ensures below { result < 2 ^ width }
{
    let len = octets.len();
    if 0 < width && width <= WINDOW_WIDTH && WINDOW <= len {
        let at = ((start / 8) as usize).min(len - WINDOW);
        window_field(window_at(octets, at), start - 8 * at as u32, width)
    } else {
        number_by_octets(octets, start, width)
    }
}

// The number that `width` bits from the place `start` on read: out of one window where it lies in one.
#[inline]
pub(crate) fn number_at(octets: &[u8], start: u32, width: u32) -> u64
    requires narrow { width ≤ 64 }
    requires within { start + width ≤ 8 * length octets.now }
    requires few { length octets.now ≤ most_borrowed }
    ensures value { result ≡ value_of (take width (drop start (octet_bits octets.now))) }
    ensures below { result < 2 ^ width }
{
    let at = (start / 8) as usize;
    if 0 < width && width <= WINDOW_WIDTH && at + WINDOW <= octets.len() {
        window_field(window_at(octets, at), start % 8, width)
    } else {
        number_near_end(octets, start, width)
    }
}

// Whether the bits from the place `start` on are those of the octets `other`.
pub(crate) fn octets_stand_at(octets: &[u8], start: u32, other: &[u8]) -> bool
    requires within { start + 8 * length other.now ≤ 8 * length octets.now }
    requires few { length octets.now ≤ most_borrowed }
    ensures { IsTrue result ↔ (take (8 * length other.now) (drop start (octet_bits octets.now)) ≡ octet_bits other.now) }
{
    for (i, octet) in other.iter().enumerate() {
        if number_at(octets, start + 8 * i as u32, 8) != *octet as u64 {
            return false;
        }
    }
    true
}
