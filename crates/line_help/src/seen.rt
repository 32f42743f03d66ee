//! The end of an input, as far as it was kept.

ghost use Rattle.std.specs.Prelude.{◌≡◌, ◌+◌, ◌-◌, ◌<◌, ◌≤◌, ◌↔◌, [], None, count_by, min, slice_get, IfSome, IsTrue};
ghost use Rattle.std.specs.Option.{option_copied};
ghost use Rattle.line_input.specs.Characters.{newline};
ghost use Rattle.memchr.specs.Find.{is_byte};
ghost use Rattle.line_help.specs.Parts.{parts};
ghost use Rattle.line_help.specs.Lines.{IsKept};

use crate::parts::{part_at, part_count, split_part};

/// The last bytes of an input that were kept, and how many lines ended in front of them.
#[derive(Clone, Copy, Debug)]
pub struct Seen<'a> {
    pub text: &'a [u8],
    pub ended: u64,
}

/// A line with its number, from 1.
#[derive(Clone, Copy, Debug)]
pub struct Numbered<'a> {
    pub number: u64,
    pub text: &'a [u8],
}

impl<'a> Seen<'a> {
    /// The line of this number, from 1, where it is kept. Of the first one that is kept the front may be gone.
    pub fn line(&self, number: u64) -> Option<&'a [u8]>
        ensures kept { self.now.ended < number → option_copied result
            ≡ slice_get (parts newline self.now.text.now) (number - self.now.ended - 1) }
        ensures gone { number ≤ self.now.ended → result ≡ None }
    {
        if number <= self.ended {
            return None;
        }
        let place = number - self.ended - 1;
        part_at(b'\n', self.text, place as usize)
    }

    /// Whether nothing was read.
    pub fn is_empty(&self) -> bool
        ensures { IsTrue result ↔ ((self.now.ended ≡ 0) × (self.now.text.now ≡ [])) }
    {
        self.ended == 0 && self.text.is_empty()
    }

    /// The number of the last line that was begun, from 1.
    pub fn last_line(&self) -> u64
        ensures { result ≡
            min (self.now.ended + (count_by (is_byte newline) self.now.text.now + 1)) 18446744073709551615 }
    {
        let ended = part_count(b'\n', self.text) as u64;
        self.ended.saturating_add(ended)
    }

    /// The last line in front of the one of this number that says something, where it is kept whole.
    pub fn before(&self, number: u64) -> Option<Numbered<'a>>
        ensures { IfSome result (λ line. (line.number < number)
            × IsKept self.now.ended self.now.text.now line.number line.text.now) }
    {
        let mut found = None;
        let mut here = self.ended;
        let mut rest = self.text;
        while number.saturating_sub(here) > 1 {
            let (text, behind) = split_part(b'\n', rest);
            here += 1;
            if says_something(text) && self.is_whole(here) {
                found = Some(Numbered { number: here, text });
            }
            match behind {
                Some(more) => rest = more,
                None => break,
            }
        }
        found
    }

    /// Whether nothing is gone of the line of this number.
    fn is_whole(&self, number: u64) -> bool {
        self.ended == 0 || number > self.ended.saturating_add(1)
    }
}

/// Whether a line is neither empty nor a comment.
fn says_something(text: &[u8]) -> bool {
    match text.first() {
        Some(byte) => *byte != b'#',
        None => false,
    }
}
