//! Words and numbers behind a line that is being built.

ghost use Rattle.std.specs.Prelude.{◌≡◌, ◌+◌, ◌<◌, ◌≤◌, ◌∷◌, ◌++◌, length};
ghost use Rattle.arrayvec.specs.ArrayVec.{array_vec_len};
ghost use Rattle.line_input.specs.Characters.{space};

use arrayvec::ArrayVec;
use itoa::{Buffer, Integer};

/// Appends a word behind a space.
pub fn push_word<const N: usize>(line: &mut ArrayVec<u8, N>, word: &str)
    requires { array_vec_len line.old + length word.now < N }
    ensures bytes { line.new.items ≡ line.old.items ++ space ∷ word.now }
    ensures len { array_vec_len line.new ≡ array_vec_len line.old + 1 + length word.now }
{
    push_bytes(line, word.as_bytes());
}

/// Appends the bytes of a word behind a space.
pub fn push_bytes<const N: usize>(line: &mut ArrayVec<u8, N>, word: &[u8])
    requires { array_vec_len line.old + length word.now < N }
    ensures bytes { line.new.items ≡ line.old.items ++ space ∷ word.now }
    ensures len { array_vec_len line.new ≡ array_vec_len line.old + 1 + length word.now }
{
    line.push(b' ');
    line.try_extend_from_slice(word).unwrap();
}

/// Appends a number behind a space, in decimal digits.
pub fn push_number<I: Integer, const N: usize>(line: &mut ArrayVec<u8, N>, number: I)
    requires { array_vec_len line.old + I.MAX_STR_LEN < N }
    ensures bytes { line.new.items ≡ line.old.items ++ space ∷ I.text number }
    ensures len { array_vec_len line.new ≤ array_vec_len line.old + 1 + I.MAX_STR_LEN }
{
    let mut digits = Buffer::new();
    push_word(line, digits.format(number));
}
