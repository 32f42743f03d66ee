//! The answer to a command that is named by words, as `ecall` is.

ghost use Rattle.std.specs.Prelude.{◌≡◌, ◌<◌, ◌++◌, ℕ, List, Option, map, take, IfOk, OnOk};
ghost use Rattle.std.specs.String.{string_bytes};
ghost use Rattle.ecall_top.specs.Commands.{command_of};
ghost use Rattle.page_room.specs.Answers.{Answers};
ghost use Rattle.page_answers.specs.Words.{word_of, words_of};

use ecall_top::{Command, Status, ecall, reply_laws};
use link_frames::Steps;
use page_room::{Outlet, PageReply, ROOM, Supply};
use std::alloc::{AllocError, Global};
use std::marker::Brand;
use std::sync::ledger::{Blank, Ledger};

/// Carries out the command that is named by a word, and by up to two further ones: a command of fewer has no bytes there.
/// The answer is written to `scratch`, and then copied to the front of `output`.
pub fn answer_words(
    alloc: Global,
    word: &[u8],
    first: &[u8],
    second: &[u8],
    input: &[u8],
    scratch: &mut [u8; ROOM],
    output: &mut [u8; ROOM],
) -> PageReply
    ensures { Answers (command_of (words_of word.now first.now second.now)) input.now (take result.written output.new)
        result.status }
{
    match words(alloc, word, first, second) {
        Ok(words) => answer::<Brand>(alloc, &words, input, scratch, output, Blank::new(1)),
        Err(_) => unanswered(scratch, output),
    }
}

/// The words that are there, as text.
fn words(alloc: Global, word: &[u8], first: &[u8], second: &[u8]) -> Result<Vec<String>, AllocError>
    ensures { IfOk result (λ words. map string_bytes words.items ≡ words_of word.now first.now second.now) }
{
    let mut words = Vec::new(alloc);
    add(alloc, word, &mut words)?;
    add(alloc, first, &mut words)?;
    add(alloc, second, &mut words)?;
    Ok(words)
}

/// Adds a word, if it is there.
fn add(alloc: Global, word: &[u8], words: &mut Vec<String>) -> Result<(), AllocError>
    ensures { OnOk result (map string_bytes words.new.items ≡ map string_bytes words.old.items ++ word_of word.now) }
{
    if !word.is_empty() {
        words.push(String::from_utf8_lossy(alloc, word)?)?;
    }
    Ok(())
}

/// Carries out the command of these words. Nobody reads how often the ends of calls were passed, so that count is begun
/// here.
fn answer<L: Ledger>(
    alloc: Global,
    words: &[String],
    input: &[u8],
    scratch: &mut [u8; ROOM],
    output: &mut [u8; ROOM],
    blank: Blank,
) -> PageReply
    requires name { blank.name ≡ L.name }
    requires parts { blank.parts ≡ L.parts }
    requires some { 0 < blank.parts }
    ensures { Answers (command_of (map string_bytes words.now)) input.now (take result.written output.new)
        result.status }
{
    let mut from = Supply::of(input);
    let mut to = Outlet::over(scratch);
    let mut moments = Steps::<L>::start(blank);
    let status = ecall(alloc, words, &mut from, &mut to, &mut moments);
    to.reply(status.code(), output)
}

/// The reply where there is no memory for the words: nothing is read, and nothing written.
fn unanswered(scratch: &mut [u8; ROOM], output: &mut [u8; ROOM]) -> PageReply
    ensures { (asked : Option Command) (input : List ℕ) →
        Answers asked input (take result.written output.new) result.status }
{
    reply_laws();
    Outlet::over(scratch).reply(Status::Memory.code(), output)
}
