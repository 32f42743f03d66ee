//! A line that says something.

use std::marker::Model;

/// A line of a text with its number from 1: 1 to 512 bytes, each from 32 to 126, the first no `#`.
#[derive(Debug, Drop)]
pub struct Line<'a> {
    number: u32,
    text: &'a [u8],
}

impl<'a> Model for Line<'a> {
    ghost use Rattle.line_input.specs.Lines.{Numbered, IsLine};

    ghost Value = { Numbered };

    ghost view = { λ s. record { number = s.number; text = s.text.now } };

    ghost invariant = { λ s. IsLine s.text.now };
}

impl<'a> Line<'a> {
    ghost use Rattle.std.specs.Prelude.{◌≡◌};
    ghost use Rattle.line_input.specs.Lines.{IsLine};

    /// The line of this number and text.
    pub fn of(number: u32, text: &'a [u8]) -> Line<'a>
        requires { IsLine text.now }
        ensures { result ≡ record { number = number; text = text.now } }
    {
        Line { number, text }
    }

    /// Its number, from 1.
    pub fn number(&self) -> u32
        ensures { result ≡ self.now.number }
    {
        self.number
    }

    /// Its bytes, without the newline.
    pub fn text(&self) -> &'a [u8]
        ensures text { result.now ≡ self.now.text }
        ensures line { IsLine result.now }
    {
        self.text
    }
}
