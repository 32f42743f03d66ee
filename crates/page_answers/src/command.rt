//! The answer to a command that takes no memory.

ghost use Rattle.std.specs.Prelude.{◌≡◌, ◌≢◌, false, Some, take};
ghost use Rattle.ecall_top.specs.Commands.{takes_memory};
ghost use Rattle.page_room.specs.Answers.{Answers};

use crate::in_place::answer_in_place;
use ecall_top::Command;
use page_room::{Outlet, PageReply, ROOM, Supply};

/// Carries out a command that takes no memory. The answer is written to `scratch`, and then copied to the front of
/// `output`.
pub fn answer_command(
    command: Command,
    input: &[u8],
    scratch: &mut [u8; ROOM],
    output: &mut [u8; ROOM],
) -> PageReply
    requires { takes_memory (Some command) ≡ false }
    ensures text { Answers (Some command) input.now (take result.written output.new) result.status }
    ensures memory { result.status ≢ 6 }
{
    let mut from = Supply::of(input);
    let mut to = Outlet::over(scratch);
    let status = answer_in_place(command, &mut from, &mut to);
    to.reply(status.code(), output)
}
