//! What is told of one line.
ghost use Rattle.std.specs.Prelude.{◌≤◌, length, Ok, Err, Some, IfOk};
ghost use Rattle.hex.specs.Hex.{decode_of};
ghost use Rattle.line_input.specs.Lines.{most_in_line};
ghost use Rattle.set_commands.specs.Decode.{judged_set, octets_in, some_octets};
ghost use Rattle.set_objects.specs.Told.{PutsLine};

use crate::bad::put_set_refusal;
use crate::object::put_set;
use line_input::{Reason, only_word};
use msd_codec::decode;
use std::alloc::AllocError;
use view_lines::{is_comment, line_fault, put_line_refusal};

/// The most octets that a line has in hexadecimal.
const MOST_OCTETS: usize = 256;

/// Puts what is told of octets. True is for octets that are no set.
fn put_octets_told(text: &mut Vec<u8>, number: u64, octets: &[u8]) -> Result<bool, AllocError>
    ensures { IfOk result (λ refused. PutsLine number (Ok (Some octets.now)) text.old.items text.new.items refused) }
{
    match decode(octets) {
        Ok(msd) => {
            put_set(text, number, &msd)?;
            Ok(false)
        }
        Err(refusal) => {
            put_set_refusal(text, number, &refusal)?;
            Ok(true)
        }
    }
}

/// Puts why a line has no octets.
fn put_bad_line(text: &mut Vec<u8>, number: u64, reason: Reason) -> Result<bool, AllocError>
    ensures { IfOk result (λ refused. PutsLine number (Err reason) text.old.items text.new.items refused) }
{
    put_line_refusal(text, number, reason)?;
    Ok(true)
}

/// Puts what is told of the only word of a line.
fn put_word(text: &mut Vec<u8>, number: u64, word: &[u8]) -> Result<bool, AllocError>
    requires { length word.now ≤ most_in_line }
    ensures { IfOk result
        (λ refused. PutsLine number (some_octets (octets_in (decode_of word.now))) text.old.items text.new.items refused) }
{
    let mut room = [0; MOST_OCTETS];
    let octets = &mut room[..word.len() / 2];
    match hex::decode_to_slice(word, octets) {
        Ok(()) => put_octets_told(text, number, octets),
        Err(_) => put_bad_line(text, number, Reason::Hex),
    }
}

/// Puts what is told of a line, given without its newline, behind a text: one object and a newline, or nothing where the
/// line is passed over. True is for a line that is refused. Of a line with more than 512 bytes the first 513 are enough.
pub fn put_line(text: &mut Vec<u8>, number: u64, line: &[u8]) -> Result<bool, AllocError>
    ensures { IfOk result (λ refused. PutsLine number (judged_set line.now) text.old.items text.new.items refused) }
{
    if let Some(reason) = line_fault(line) {
        return put_bad_line(text, number, reason);
    }
    if is_comment(line) {
        return Ok(false);
    }
    match only_word(line) {
        Some(word) => put_word(text, number, word),
        None => put_bad_line(text, number, Reason::Count),
    }
}
