//! The commands that take no memory, over a source and a sink that lie in memory.

ghost use Rattle.std.specs.Prelude.{◌≡◌, ℕ, [], false, Some};
ghost use Rattle.call_io.specs.Blocks.{held, pending, sink, sink_name, way};
ghost use Rattle.call_io.specs.Ways.{Onward};
ghost use Rattle.command_base.specs.Outcome.{ReadCause, WriteCause, streams_of};
ghost use Rattle.ecall_top.specs.Commands.{takes_memory};
ghost use Rattle.ecall_top.specs.Replies.{CommandOutcome};
ghost use Rattle.ecall_top.specs.inner.Ends.{CommandEnds, HandsOver};

use call_io::{Block, Sink, Source};
use ecall_top::{Command, Status};
use script_commands::make_script;
use set_commands::{decode_sets, encode_sets, read_frames, write_vectors};

/// Carries out a command that takes no memory, as `ecall` does.
pub(crate) fn answer_in_place<I: Source, O: Sink>(
    command: Command,
    input: &mut I,
    output: &mut O,
) -> Status
    requires { takes_memory (Some command) ≡ false }
    ensures outcome { CommandOutcome (Some command)
        (streams_of I.left O.held input.old output.old 0)
        (streams_of I.left O.held input.new output.new 0) result }
    ensures in_place { result ≡ Status.Memory → ⊥ }
    ensures unread { ReadCause result (I.faults input.old) (I.faults input.new) }
    ensures unwritten { WriteCause result (O.faults output.old) (O.faults output.new) }
{
    let mut block = Block::over(output);
    carry_out_in_place(command, input, &mut block)
}

/// Carries out the command over a block with nothing pending, and hands the sink all that it wrote.
fn carry_out_in_place<I: Source, O: Sink>(
    command: Command,
    input: &mut I,
    output: &mut Block<'_, O>,
) -> Status
    requires memory { takes_memory (Some command) ≡ false }
    requires nothing { pending output.old ≡ [] }
    ensures ends { CommandEnds (Some command)
        (streams_of I.left (λ block. O.held (sink block)) input.old output.old 0)
        (streams_of I.left (λ block. O.held (sink block)) input.new output.new 0) result }
    ensures in_place { result ≡ Status.Memory → ⊥ }
    ensures unread { ReadCause result (I.faults input.old) (I.faults input.new) }
    ensures unwritten { WriteCause result (O.faults (sink output.old)) (O.faults (sink output.new)) }
    ensures same_sink { sink_name output.new ≡ sink_name output.old }
{
    let status = reply_in_place(command, input, output);
    hand_over(status, output)
}

/// Carries out the command over a block, which may keep some of what was written pending.
fn reply_in_place<I: Source, O: Sink>(
    command: Command,
    input: &mut I,
    output: &mut Block<'_, O>,
) -> Status
    requires { takes_memory (Some command) ≡ false }
    ensures ends { CommandEnds (Some command)
        (streams_of I.left (held O.held) input.old output.old 0)
        (streams_of I.left (held O.held) input.new output.new 0) result }
    ensures handed { result ≡ Status.ReadFault → pending output.new ≡ [] }
    ensures in_place { result ≡ Status.Memory → ⊥ }
    ensures unread { ReadCause result (I.faults input.old) (I.faults input.new) }
    ensures unwritten { WriteCause result (O.faults (sink output.old)) (O.faults (sink output.new)) }
    ensures onward { Onward (way O.held output.old) (way O.held output.new) }
{
    match command {
        Command::Decode => decode_sets(input, output),
        Command::Encode => encode_sets(input, output),
        Command::Frames => read_frames(input, output),
        Command::Make(number) => make_script(number, output),
        Command::Conform => write_vectors(output),
        Command::Run
        | Command::Register
        | Command::Replay
        | Command::Trial(_)
        | Command::Tones(_)
        | Command::Floor
        | Command::Relay => { unreachable!() }
    }
}

/// Hands the sink all that is pending, and answers how the command ended: so, or with a failed write.
fn hand_over<O: Sink>(status: Status, output: &mut Block<'_, O>) -> Status
    requires { status ≡ Status.ReadFault → pending output.old ≡ [] }
    ensures over { HandsOver status (pending output.new) result }
    ensures kept { held O.held output.new ≡ held O.held output.old }
    ensures unwritten { (before : ℕ) → WriteCause status before (O.faults (sink output.old)) →
        WriteCause result before (O.faults (sink output.new)) }
    ensures onward { Onward (way O.held output.old) (way O.held output.new) }
{
    match status {
        // A block is emptied before each read, so where one failed nothing is pending.
        Status::ReadFault | Status::WriteFault => status,
        _ => match output.empty() {
            Ok(()) => status,
            Err(_) => Status::WriteFault,
        },
    }
}
