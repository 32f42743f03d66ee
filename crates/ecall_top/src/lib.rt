//! The commands of `ecall`: words and a whole input in, text and a status out.
#![tactic(auto)]

ghost use Rattle.std.specs.Prelude.{true, false, ◌≡◌, ◌≤◌, ◌⊎◌, ◌++◌, [], List, ℕ, Some, None, length, map};
ghost use Rattle.std.specs.String.{string_bytes};
ghost use Rattle.call_io.specs.Blocks.{held, pending, sink, sink_name, way};
ghost use Rattle.call_io.specs.Ways.{Onward};
ghost use Rattle.line_input.specs.Lines.{most_bytes};
ghost use Rattle.trace_model.specs.Safety.{Agreed, Bounded, Finished, Opened, Safe};
ghost use Rattle.trace_text.specs.Script.{script_of};
ghost use Rattle.ecall_top.specs.Commands.{command_of, plays, reads, takes_memory, writes_once};
ghost use Rattle.script_commands.specs.CutTraces.{IsSafelyCut};
ghost use Rattle.command_base.specs.Ends.{EndsWithText};
ghost use Rattle.command_base.specs.Outcome.{IsCutSilently, ReadCause, ToldBefore, WriteCause, streams_of};
ghost use Rattle.ecall_top.specs.Completeness.{Closes, EndsUnread, IsComplete, NothingFailed};
ghost use Rattle.ecall_top.specs.Replies.{CommandOutcome, Replies, usage_line};
ghost use Rattle.script_stage.specs.ScriptTrace.{script_tick, script_trace};
ghost use Rattle.script_commands.specs.Run.{run_reply};
ghost use Rattle.tones_command.specs.Modem.{NoiseFrom};
ghost use Rattle.tones_command.specs.Tones.{toned_script, tones_reply};
ghost use Rattle.floor_command.specs.FloorParts.{AreApart};
ghost use Rattle.floor_command.specs.FloorScript as floor;
ghost use Rattle.relay_command.specs.Carried.{IsCarried};
ghost use Rattle.relay_command.specs.OfRun.{of_world, script_without_orders};
ghost use Rattle.relay_command.specs.Relay.{relay_trace};
ghost use Rattle.ecall_top.specs.inner.Ends.{CommandEnds, HandsOver};

mod command;
mod laws;
#[cfg(test)]
mod tests;

use crate::command::read_command;
use call_io::{Block, Sink, Source, write_all};
pub use command::Command;
pub use command_base::{Refused, Status};
use floor_command::{floor_parts, play_floor};
pub use laws::reply_laws;
use link_frames::Steps;
use relay_command::play_relay;
use script_commands::{keep_register, make_script, replay_trace, run_script, try_script};
use set_commands::{decode_sets, encode_sets, read_frames, write_vectors};
use std::alloc::Global;
use std::sync::ledger::Ledger;
use tones_command::play_tones;

/// What the program says to words that are no form of words.
const USAGE: &[u8] =
    b"usage: ecall run|register|decode|encode|frames|replay|trial N|make N|conform|tones L N|floor|relay\n";

/// Carries out the command that the words name, the program's own name not among them: reads `input`, writes `output`,
/// and answers how that ended.
///
/// `run` reads a script and writes its trace. It takes memory for the frames and sessions of the script's calls; where
/// there is none, it answers `Memory`. `register` plays a script in the same way, and writes the register of its calls
/// in one line of JSON once the script was read to its end, or the refusal of a line alone; it takes memory for the
/// register, too. `decode` reads sets of data in hexadecimal, one a line, and describes each in twenty lines. `encode`
/// reads facts of a vehicle, and lines that ask for a set; it writes the octets of the set that fits the facts so far in
/// hexadecimal, one a line. `frames` reads a stream of frames in hexadecimal, a piece a line; it writes one line a frame,
/// and at the end how many octets of an unfinished one are left. `replay` reads a trace and writes one line: that the
/// trace is safe, or which line breaks which rule, or is refused, and why. It takes memory for the legs that are up,
/// their muting, and the sets that were shown. `make N` writes the script of the number N, 0 to 4294967295 without
/// leading zeros: two thousand calls under flows that change. `trial N` plays that script and writes five lines: how
/// many entries its trace has, how many calls the point took, how many sets it showed and how many the vehicle counts as
/// acknowledged, and the tick of the last entry. It takes memory as `run` does. `conform` decodes nineteen known vectors
/// and writes for each its canonical octets, or why it is no set. Other words write the usage line. These four read
/// nothing.
/// `tones L N` plays a script as `run` does, where each `deliver` line hands its frame over through a modem on a line
/// with noise of at most L in each sample, 0 to 1499, drawn from the number N on; a line whose frame is lost says nothing.
/// `floor` plays a script of up to 64 vehicles at one point, and writes the trace of the whole floor. It takes memory for
/// the facts of each, and as `run` does.
/// `relay` plays a script as `run` does, with a relay desk behind the point: its script has the lines `pass`, `hand forth`
/// and `hand back` besides, and its trace the items of the desk and of the second point. It takes memory for the desk, too.
///
/// What is written is handed to `output` in blocks: where one is full, before each read of `input`, and at the end.
/// After a failed read or write nothing more is read or written. `moments` counts how often the commands that
/// play a script pass an end of a call.
pub fn ecall<I: Source, O: Sink, L: Ledger>(
    alloc: Global,
    words: &[String],
    input: &mut I,
    output: &mut O,
    moments: &mut Steps<L>,
) -> Status
    // What was taken, what was written, and that it is the reply to the words and the input; and that ends were passed
    // no more often than the input gives reason for.
    ensures outcome { CommandOutcome (command_of (map string_bytes words.now))
        (streams_of I.left O.held input.old output.old moments.old)
        (streams_of I.left O.held input.new output.new moments.new) result }
    // Where the input tells its bytes, these are no more than it may have, and no read and no write failed, the answer is
    // the whole reply to the words and all of them, or there was no memory.
    ensures complete { (bytes : List ℕ) → I.left input.old ≡ Some bytes → length bytes ≤ most_bytes →
        NothingFailed (I.faults input.old) (I.faults input.new) (O.faults output.old) (O.faults output.new) →
        IsComplete (command_of (map string_bytes words.now)) bytes (O.held output.old) (O.held output.new) result }
    // Where a read failed, what was taken stops within a line, and all that the lines before it give was written: nothing
    // is kept back while more is read.
    // Where there was no memory, no more was taken than to the line that wanted it, or to the end of the input, and what was
    // read at once with that, and all that the lines before it give was written.
    ensures told { ToldBefore (λ input r. Replies (command_of (map string_bytes words.now)) input r)
        (λ text. Closes (command_of (map string_bytes words.now)) text) (I.left input.old) (I.left input.new)
        (O.held output.old) (O.held output.new) result }
    // A command that writes at its end alone wrote nothing where it was cut short, and not by a failed write.
    ensures silent { writes_once (command_of (map string_bytes words.now)) ≡ true → IsCutSilently result →
        O.held output.new ≡ O.held output.old }
    // In the trace of every script, every acknowledged set was shown earlier by the point for that call, octet for
    // octet.
    ensures agreed { (script : List ℕ) → Agreed (script_trace (script_of script)) }
    // Where a wait for data ends, or a fault comes, a muted voice opens at once, also behind the last line.
    ensures opened { (script : List ℕ) → Opened (script_trace (script_of script)) }
    ensures finished { (script : List ℕ) → Finished (script_trace (script_of script)) }
    // No end's voice is muted for longer than its limit, up to the tick at which the script ends.
    ensures bounded { (script : List ℕ) → Bounded (script_trace (script_of script)) (script_tick (script_of script)) }
    // `tones` writes a safe trace, too; and with noise of at most 500 in each sample it replies as `run` does.
    ensures toned { (noise : NoiseFrom) (script : List ℕ) →
        Safe (script_trace (toned_script noise script)) (script_tick (toned_script noise script)) }
    ensures faint { (noise : NoiseFrom) (script : List ℕ) → noise.most ≤ 500 →
        tones_reply noise script ≡ run_reply script }
    // On a floor each vehicle that has facts gets the trace that it would get alone for its own lines, and that is safe up
    // to the tick at which the script ends.
    ensures apart { (script : List ℕ) → AreApart (floor.script_of script) }
    // The entries that `relay` writes are those of `run` for the lines in front of the first that is refused, without the
    // orders to the desk, of which `run` refuses none.
    ensures relayed { (script : List ℕ) →
        of_world (relay_trace script) ≡ script_trace (script_without_orders script) }
    ensures accepted { (script : List ℕ) → (script_without_orders script).refused ≡ None }
    // What the second point shows was sent by the vehicle and shown by the point before, octet for octet, and each desk
    // request's set is shown there once; and a desk request that is done was shown there.
    ensures carried { (script : List ℕ) → IsCarried (relay_trace script) }
    // However `run` ended, the whole lines that it wrote are those of a safe trace, or of one and of the line that
    // refuses a line of the script.
    ensures cut { command_of (map string_bytes words.now) ≡ Some Command.Run → (before written : List ℕ) →
        O.held output.old ≡ Some before → O.held output.new ≡ Some (before ++ written) → IsSafelyCut written }
    // Ends are passed by commands that play a script alone.
    ensures uncounted { (plays (command_of (map string_bytes words.now)) ≡ true) ⊎ (moments.new ≡ moments.old) }
    // Memory is wanted by those commands alone that take any.
    ensures in_place { result ≡ Status.Memory → takes_memory (command_of (map string_bytes words.now)) ≡ true }
    // Words that name no command, and commands that read nothing, leave the input as it was, and have no other answers
    // than these.
    ensures untouched { reads (command_of (map string_bytes words.now)) ≡ false → I.left input.new ≡ I.left input.old }
    ensures ends_unread { EndsUnread (command_of (map string_bytes words.now)) result }
    // A read failed where the answer says so, and else none did; the same of writes.
    ensures unread { ReadCause result (I.faults input.old) (I.faults input.new) }
    ensures unwritten { WriteCause result (O.faults output.old) (O.faults output.new) }
    ensures reads_counted { I.faults input.old ≤ I.faults input.new }
    ensures writes_counted { O.faults output.old ≤ O.faults output.new }
{
    floor_parts();
    let mut block = Block::over(output);
    carry_out(alloc, words, input, &mut block, moments)
}

/// Carries out the command over a block with nothing pending, and hands the sink all that it wrote.
fn carry_out<I: Source, O: Sink, L: Ledger>(
    alloc: Global,
    words: &[String],
    input: &mut I,
    output: &mut Block<'_, O>,
    moments: &mut Steps<L>,
) -> Status
    requires { pending output.old ≡ [] }
    ensures ends { CommandEnds (command_of (map string_bytes words.now))
        (streams_of I.left (λ block. O.held (sink block)) input.old output.old moments.old)
        (streams_of I.left (λ block. O.held (sink block)) input.new output.new moments.new) result }
    ensures uncounted { (plays (command_of (map string_bytes words.now)) ≡ true) ⊎ (moments.new ≡ moments.old) }
    ensures in_place { result ≡ Status.Memory → takes_memory (command_of (map string_bytes words.now)) ≡ true }
    ensures untouched { reads (command_of (map string_bytes words.now)) ≡ false → I.left input.new ≡ I.left input.old }
    ensures unread { ReadCause result (I.faults input.old) (I.faults input.new) }
    ensures unwritten { WriteCause result (O.faults (sink output.old)) (O.faults (sink output.new)) }
    ensures reads_counted { I.faults input.old ≤ I.faults input.new }
    ensures writes_counted { O.faults (sink output.old) ≤ O.faults (sink output.new) }
    ensures same_sink { sink_name output.new ≡ sink_name output.old }
{
    let status = reply(alloc, words, input, output, moments);
    hand_over(status, output)
}

/// Carries out the command over a block, which may keep some of what was written pending.
fn reply<I: Source, O: Sink, L: Ledger>(
    alloc: Global,
    words: &[String],
    input: &mut I,
    output: &mut Block<'_, O>,
    moments: &mut Steps<L>,
) -> Status
    requires { pending output.old ≡ [] }
    ensures ends { CommandEnds (command_of (map string_bytes words.now))
        (streams_of I.left (held O.held) input.old output.old moments.old)
        (streams_of I.left (held O.held) input.new output.new moments.new) result }
    ensures handed { result ≡ Status.ReadFault → pending output.new ≡ [] }
    ensures uncounted { (plays (command_of (map string_bytes words.now)) ≡ true) ⊎ (moments.new ≡ moments.old) }
    ensures in_place { result ≡ Status.Memory → takes_memory (command_of (map string_bytes words.now)) ≡ true }
    ensures untouched { reads (command_of (map string_bytes words.now)) ≡ false → I.left input.new ≡ I.left input.old }
    ensures unread { ReadCause result (I.faults input.old) (I.faults input.new) }
    ensures unwritten { WriteCause result (O.faults (sink output.old)) (O.faults (sink output.new)) }
    ensures reads_counted { I.faults input.old ≤ I.faults input.new }
    ensures writes_counted { O.faults (sink output.old) ≤ O.faults (sink output.new) }
    ensures onward { Onward (way O.held output.old) (way O.held output.new) }
{
    let command = read_command(words);
    match &command {
        Some(Command::Run) => run_script(alloc, input, output, moments),
        Some(Command::Register) => keep_register(alloc, input, output, moments),
        Some(Command::Decode) => decode_sets(input, output),
        Some(Command::Encode) => encode_sets(input, output),
        Some(Command::Frames) => read_frames(input, output),
        Some(Command::Replay) => replay_trace(alloc, input, output),
        Some(Command::Make(number)) => make_script(*number, output),
        Some(Command::Trial(number)) => try_script(alloc, *number, output, moments),
        Some(Command::Conform) => write_vectors(output),
        Some(Command::Tones(noise)) => play_tones(alloc, noise, input, output, moments),
        Some(Command::Floor) => play_floor(alloc, input, output, moments),
        Some(Command::Relay) => play_relay(alloc, input, output, moments),
        None => usage(output),
    }
}

/// Writes the usage line.
fn usage<O: Sink>(output: &mut O) -> Status
    ensures ends { EndsWithText (O.held output.old) (O.held output.new) usage_line Status.Usage result }
    ensures unwritten { WriteCause result (O.faults output.old) (O.faults output.new) }
    ensures counted { O.faults output.old ≤ O.faults output.new }
    ensures onward { Onward (O.way output.old) (O.way output.new) }
{
    match write_all(output, USAGE) {
        Ok(()) => Status::Usage,
        Err(_) => Status::WriteFault,
    }
}

/// Hands the sink all that is pending, and answers how the command ended: so, or with a failed write.
fn hand_over<O: Sink>(status: Status, output: &mut Block<'_, O>) -> Status
    requires { status ≡ Status.ReadFault → pending output.old ≡ [] }
    ensures over { HandsOver status (pending output.new) result }
    ensures kept { held O.held output.new ≡ held O.held output.old }
    ensures unwritten { (before : ℕ) → WriteCause status before (O.faults (sink output.old)) →
        WriteCause result before (O.faults (sink output.new)) }
    ensures counted { O.faults (sink output.old) ≤ O.faults (sink output.new) }
    ensures onward { Onward (way O.held output.old) (way O.held output.new) }
{
    match status {
        // A block is emptied before each read, so where one failed nothing is pending.
        Status::ReadFault | Status::WriteFault => status,
        _ => match output.empty() {
            Ok(()) => status,
            Err(_) => Status::WriteFault,
        },
    }
}
