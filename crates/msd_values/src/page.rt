//! The page on which text waits until it is written.
ghost use Rattle.std.specs.Prelude.{◌≡◌, ◌+◌, ◌≤◌, ◌++◌, length, codes};
ghost use Rattle.arrayvec.specs.ArrayVec.{array_vec_len};
ghost use Rattle.msd_values.specs.inner.Waiting.{Appends};

use arrayvec::ArrayVec;
use itoa::{Buffer, Integer};

/// How many bytes a page holds.
pub const PAGE: usize = 1536;

/// How many bytes may wait on a page before they are written.
pub const FULL: usize = 512;

/// The most bytes of a name with the space behind it.
pub const NAME: usize = 13;

/// The most bytes of a number in digits.
pub const DIGITS: usize = 40;

/// The most bytes of a word of remarks with the space before it.
pub const WORD: usize = 10;

/// The most bytes of octets in hexadecimal digits.
pub const OCTETS: usize = 254;

/// The most bytes of an addition, with its index.
pub const ADDITION: usize = 300;

/// The most bytes of additional data.
pub const EXTRA: usize = 2 * OCTETS + 1;

/// The most bytes of the line of additional data.
pub const EXTRA_LINE: usize = 516;

/// The most bytes of a line of any other value.
pub const LINE: usize = 64;

/// The most bytes of the lines that say what a set is, and of which vehicle.
pub const VEHICLE_LINES: usize = 8 * LINE;

/// The most bytes of the lines that say when and where it was made, and who is in the vehicle.
pub const PLACE_LINES: usize = 7 * LINE;

/// Text that waits.
pub type Page = ArrayVec<u8, PAGE>;

/// Puts text at the end of the page.
pub fn put(page: &mut Page, text: &[u8])
    requires { array_vec_len page.old + length text.now ≤ PAGE }
    ensures items { Appends page.old.items page.new.items (text.now) }
    ensures len { array_vec_len page.new ≡ array_vec_len page.old + length text.now }
{
    let _ = page.try_extend_from_slice(text);
}

/// Puts a line at the end of the page: the name, which ends in a space, and the value.
pub fn put_line(page: &mut Page, name: &[u8], value: &[u8])
    requires name { length name.now ≤ NAME }
    requires value { length value.now ≤ DIGITS }
    requires room { array_vec_len page.old + LINE ≤ PAGE }
    ensures items { Appends page.old.items page.new.items (name.now ++ value.now ++ codes "\n") }
    ensures len { array_vec_len page.new ≤ array_vec_len page.old + LINE }
{
    put(page, name);
    put(page, value);
    page.push(b'\n');
}

/// Puts a line with a number in decimal digits.
pub fn put_number<I: Integer>(page: &mut Page, name: &[u8], number: I)
    requires name { length name.now ≤ NAME }
    requires room { array_vec_len page.old + LINE ≤ PAGE }
    ensures items { Appends page.old.items page.new.items (name.now ++ I.text number ++ codes "\n") }
    ensures len { array_vec_len page.new ≤ array_vec_len page.old + LINE }
{
    let mut digits = Buffer::new();
    put_line(page, name, digits.format(number).as_bytes());
}
