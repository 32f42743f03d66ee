//! All of `ecall`, for a page: words and bytes in, bytes out.
#![tactic(auto)]

ghost use Rattle.std.specs.Prelude.{take};
ghost use Rattle.ecall_top.specs.Commands.{command_of};
ghost use Rattle.page_answers.specs.Words.{words_of};
ghost use Rattle.page_room.specs.Answers.{Answers};

use page_answers::answer_words;
use page_room::{PageReply, ROOM};
use std::alloc::Global;

/// Carries out the command that is named by a word, and by up to two further ones: a command of fewer has no bytes there.
#[unsafe(no_mangle)]
pub extern "C" fn page_ecall(
    alloc: Global,
    word: &[u8],
    first: &[u8],
    second: &[u8],
    input: &[u8],
    scratch: &mut [u8; ROOM],
    output: &mut [u8; ROOM],
    reply: &mut PageReply,
)
    ensures { Answers (command_of (words_of word.now first.now second.now)) input.now
        (take reply.new.written output.new) reply.new.status }
{
    *reply = answer_words(alloc, word, first, second, input, scratch, output);
}
