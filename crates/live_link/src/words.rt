//! The words with which a live end is asked for.

ghost use Rattle.std.specs.Prelude.{◌≡◌, map};
ghost use Rattle.std.specs.String.{string_bytes};
ghost use Rattle.live_link.specs.LiveWords.{end_named, end_of_words, port_of};

use crate::answer::Live;
use line_input::read_positive_u32;

/// Which end the words ask for: `vehicle PORT` or `point PORT`, with a port from 1 to 65535.
pub fn live_words(words: &[String]) -> Option<Live>
    ensures { result ≡ end_of_words (map string_bytes words.now) }
{
    match words {
        [word, port] => read_end(word.as_str(), read_port(port.as_bytes())?),
        _ => None,
    }
}

/// The end of this word, with this port.
fn read_end(word: &str, port: u16) -> Option<Live>
    ensures { result ≡ end_named word.now port }
{
    if word == "vehicle" {
        Some(Live::Vehicle(port))
    } else if word == "point" {
        Some(Live::Point(port))
    } else {
        None
    }
}

/// A decimal number without leading zeros, from 1 to 65535.
fn read_port(text: &[u8]) -> Option<u16>
    ensures { result ≡ port_of text.now }
{
    let number = read_positive_u32(text)?;
    if number < 65536 {
        Some(number as u16)
    } else {
        None
    }
}
