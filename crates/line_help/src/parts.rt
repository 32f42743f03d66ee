//! The parts of a text round each byte of one value: the lines of an input, the words of a line, the words of a choice.

ghost use Rattle.std.specs.Prelude.{◌≡◌, ◌+◌, ◌≤◌, ◌∷◌, None, count_by, length, slice_get, IfSome};
ghost use Rattle.std.specs.List.{position};
ghost use Rattle.std.specs.Option.{option_copied};
ghost use Rattle.memchr.specs.Find.{is_byte};
ghost use Rattle.line_help.specs.Parts.{parts, parts_behind, IsOnePart, HasBehind};

use memchr::memchr;

/// So many bytes are counted at a time, at most 255.
const PIECE: usize = 128;

/// The part of this number, from 0.
pub(crate) fn part_at(separator: u8, text: &[u8], place: usize) -> Option<&[u8]>
    ensures { option_copied result ≡ slice_get (parts separator text.now) place }
{
    let mut rest = text;
    let mut left = place;
    while left > 0 {
        rest = part_rest(separator, rest)?;
        left -= 1;
    }
    Some(split_part(separator, rest).0)
}

/// What stands behind the byte that ends the first part.
fn part_rest(separator: u8, text: &[u8]) -> Option<&[u8]>
    ensures none { result ≡ None → IsOnePart (parts separator text.now) }
    ensures more { IfSome result (λ rest. HasBehind (parts separator text.now) (parts separator rest.now)) }
{
    split_part(separator, text).1
}

/// The first part, and what stands behind the byte that ends it.
pub(crate) fn split_part(separator: u8, text: &[u8]) -> (&[u8], Option<&[u8]>)
    ensures { parts separator text.now ≡ result.0.now ∷ parts_behind separator (option_copied result.1) }
{
    match find(separator, text) {
        Some(at) => (&text[..at], Some(&text[at + 1..])),
        None => (text, None),
    }
}

/// Where the first such byte stands.
fn find(separator: u8, text: &[u8]) -> Option<usize>
    ensures { result ≡ position (is_byte separator) text.now }
{
    memchr(separator, text)
}

/// How many parts there are.
pub(crate) fn part_count(separator: u8, text: &[u8]) -> usize
    ensures { result ≡ count_by (is_byte separator) text.now + 1 }
{
    separator_count(separator, text) + 1
}

/// How many of the bytes are this one.
pub(crate) fn separator_count(separator: u8, text: &[u8]) -> usize
    ensures count { result ≡ count_by (is_byte separator) text.now }
    ensures few { result ≤ length text.now }
{
    let mut count = 0;
    for piece in text.chunks(PIECE) {
        count += usize::from(count_in_piece(separator, piece));
    }
    count
}

/// How many bytes of a piece are this one. As the count is a byte, too, sixteen are compared and counted at once.
fn count_in_piece(separator: u8, piece: &[u8]) -> u8
    requires { length piece.now ≤ PIECE }
    ensures { result ≡ count_by (is_byte separator) piece.now }
{
    let mut count = 0;
    for byte in piece {
        if *byte == separator {
            count += 1;
        }
    }
    count
}
