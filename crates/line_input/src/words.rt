//! The words of a line.

ghost use Rattle.std.specs.Prelude.{◌≡◌, ◌∷◌, position};
ghost use Rattle.std.specs.Option.{option_copied, option_map};
ghost use Rattle.std.specs.Str.{bytes_eq};
ghost use Rattle.line_input.specs.Characters.{is_space};
ghost use Rattle.line_input.specs.Words.{words, only_word_of};
ghost use Rattle.line_input.specs.Arguments.{words_behind, two_words_of, three_words_of};

use memchr::memchr;

/// A text of no more bytes than these is sooner looked at byte by byte.
const FEW: usize = 8;

/// The only word of a line, unless there are more. Words are cut at each single space, so a line has at least one.
pub fn only_word(text: &[u8]) -> Option<&[u8]>
    ensures { option_copied result ≡ only_word_of (words text.now) }
{
    let (word, more) = split_word(text);
    match more {
        None => Some(word),
        Some(_) => None,
    }
}

/// The first word, and what stands behind the space that ends it.
#[inline]
pub fn split_word(text: &[u8]) -> (&[u8], Option<&[u8]>)
    ensures { words text.now ≡ result.0.now ∷ words_behind (option_copied result.1) }
{
    match find_space(text) {
        Some(at) => (&text[..at], Some(&text[at + 1..])),
        None => (text, None),
    }
}

/// Where the first space stands.
#[inline]
fn find_space(text: &[u8]) -> Option<usize>
    ensures { result ≡ position is_space text.now }
{
    if text.len() <= FEW {
        near_space(text)
    } else {
        far_space(text)
    }
}

/// Where the first space stands, byte by byte. Out of line: it is unrolled, and many lines are read through it.
#[inline(never)]
fn near_space(text: &[u8]) -> Option<usize>
    ensures { result ≡ position is_space text.now }
{
    text.iter().position(
        |byte: &u8| -> bool
            ensures { result ≡ is_space byte.now }
        { *byte == b' ' },
    )
}

/// Where the first space stands, many bytes at once.
fn far_space(text: &[u8]) -> Option<usize>
    ensures { result ≡ position is_space text.now }
{
    memchr(b' ', text)
}

/// The only argument of a line behind its first word, unless there are more, or none.
#[inline(never)]
pub fn only_argument(rest: Option<&[u8]>) -> Option<&[u8]>
    ensures { option_copied result ≡ only_word_of (words_behind (option_copied rest.entry)) }
{
    only_word(rest?)
}

/// The two arguments of a line behind its first word, unless there are more or fewer.
pub fn two_arguments(rest: Option<&[u8]>) -> Option<(&[u8], &[u8])>
    ensures { option_map (λ found. (found.0.now, found.1.now)) result
        ≡ two_words_of (words_behind (option_copied rest.entry)) }
{
    let (first, more) = split_word(rest?);
    let second = only_argument(more)?;
    Some((first, second))
}

/// The three arguments of a line behind its first word, unless there are more or fewer.
pub fn three_arguments(rest: Option<&[u8]>) -> Option<(&[u8], &[u8], &[u8])>
    ensures { option_map (λ found. (found.0.now, found.1.now, found.2.now)) result
        ≡ three_words_of (words_behind (option_copied rest.entry)) }
{
    let (first, more) = split_word(rest?);
    let (second, more) = split_word(more?);
    let third = only_argument(more)?;
    Some((first, second, third))
}

/// Whether a word is this one.
pub fn is_word(word: &[u8], name: &str) -> bool
    ensures { result ≡ bytes_eq word.now name.now }
{
    word == name.as_bytes()
}
