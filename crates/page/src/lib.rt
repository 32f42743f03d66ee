//! The commands of `ecall` that take no memory, for a page: bytes in, bytes out.
#![tactic(auto)]

ghost use Rattle.std.specs.Prelude.{◌≢◌, [], Some, take};
ghost use Rattle.page_room.specs.Answers.{Answers};

use ecall_top::Command;
use page_answers::answer_command;
use page_room::{PageReply, ROOM};

/// Describes the sets of data of the input.
#[unsafe(no_mangle)]
pub extern "C" fn page_decode(
    input: &[u8],
    scratch: &mut [u8; ROOM],
    output: &mut [u8; ROOM],
    reply: &mut PageReply,
)
    ensures text { Answers (Some Command.Decode) input.now (take reply.new.written output.new) reply.new.status }
    ensures memory { reply.new.status ≢ 6 }
{
    *reply = answer_command(Command::Decode, input, scratch, output);
}

/// Writes the sets of data that the input asks for.
#[unsafe(no_mangle)]
pub extern "C" fn page_encode(
    input: &[u8],
    scratch: &mut [u8; ROOM],
    output: &mut [u8; ROOM],
    reply: &mut PageReply,
)
    ensures text { Answers (Some Command.Encode) input.now (take reply.new.written output.new) reply.new.status }
    ensures memory { reply.new.status ≢ 6 }
{
    *reply = answer_command(Command::Encode, input, scratch, output);
}

/// Writes the frames of the input's stream.
#[unsafe(no_mangle)]
pub extern "C" fn page_frames(
    input: &[u8],
    scratch: &mut [u8; ROOM],
    output: &mut [u8; ROOM],
    reply: &mut PageReply,
)
    ensures text { Answers (Some Command.Frames) input.now (take reply.new.written output.new) reply.new.status }
    ensures memory { reply.new.status ≢ 6 }
{
    *reply = answer_command(Command::Frames, input, scratch, output);
}

/// Writes the script of a number.
#[unsafe(no_mangle)]
pub extern "C" fn page_make(
    number: u32,
    scratch: &mut [u8; ROOM],
    output: &mut [u8; ROOM],
    reply: &mut PageReply,
)
    ensures text { Answers (Some (Command.Make number)) [] (take reply.new.written output.new) reply.new.status }
    ensures memory { reply.new.status ≢ 6 }
{
    *reply = answer_command(Command::Make(number), &[], scratch, output);
}

/// Writes what the known vectors show.
#[unsafe(no_mangle)]
pub extern "C" fn page_conform(
    scratch: &mut [u8; ROOM],
    output: &mut [u8; ROOM],
    reply: &mut PageReply,
)
    ensures text { Answers (Some Command.Conform) [] (take reply.new.written output.new) reply.new.status }
    ensures memory { reply.new.status ≢ 6 }
{
    *reply = answer_command(Command::Conform, &[], scratch, output);
}
