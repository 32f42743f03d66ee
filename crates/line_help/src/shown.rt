//! A text as a sentence shows it.

use std::fmt;

/// How many bytes of a text are shown at most.
const MOST_SHOWN: usize = 40;

/// A text between backquotes, where a byte that is no printable character is shown by its number, and dots stand for
/// what is too long.
#[derive(Clone, Copy)]
pub(crate) struct Shown<'a>(pub &'a [u8]);

impl fmt::Display for Shown<'_> {
    fn fmt<W: fmt::Write>(&self, f: &mut fmt::Formatter<W>) -> fmt::Result {
        let text = self.0;
        write!(f, "`")?;
        for byte in &text[..text.len().min(MOST_SHOWN)] {
            write_byte(f, *byte)?;
        }
        if text.len() > MOST_SHOWN {
            write!(f, "...")?;
        }
        write!(f, "`")
    }
}

/// Writes a byte: as the character that it is, or by its number.
fn write_byte<W: fmt::Write>(f: &mut fmt::Formatter<W>, byte: u8) -> fmt::Result {
    match byte {
        b' '..=b'~' => {
            let character = char::from(byte);
            write!(f, "{character}")
        }
        _ => write!(f, "\\x{byte:02x}"),
    }
}

/// The characters of a printable text, as they are.
#[derive(Clone, Copy)]
pub(crate) struct Plain<'a>(pub &'a [u8]);

impl fmt::Display for Plain<'_> {
    fn fmt<W: fmt::Write>(&self, f: &mut fmt::Formatter<W>) -> fmt::Result {
        for byte in self.0 {
            write_byte(f, *byte)?;
        }
        Ok(())
    }
}
