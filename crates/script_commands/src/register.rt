//! The command `register`: a script in, the register of its calls out.

ghost use Rattle.std.specs.Prelude.{◌≡◌, [], ◌+◌, ◌^◌, ◌<◌, ◌≤◌, true, List, Some, MatchOption};
ghost use Rattle.call_io.specs.Blocks.{held, pending, sink, way};
ghost use Rattle.call_io.specs.Ways.{Onward};
ghost use Rattle.trace_text.specs.Script.{Said, script_of, script_line, placed, placed_line};
ghost use Rattle.trace_model.specs.declared.event.Event.{Event};
ghost use Rattle.command_base.specs.LineCommands.{IsQuietTurn};
ghost use Rattle.command_base.specs.Outcome.{Outcome, ReadCause, ToldBefore, WriteCause, streams_of};
ghost use Rattle.script_commands.specs.inner.RegisterTurns.{RegisteredFrom, Registers, RegisterStands, WritesRows};
ghost use Rattle.script_stage.specs.ScriptSeen.{ScriptSeen, passes_from};
ghost use Rattle.script_commands.specs.Register.{ClosesRegister, register_reply};
ghost use Rattle.script_stage.specs.ScriptTrace.{script_passes};
ghost use Rattle.script_commands.specs.inner.RegisterLaws.{register_lined};
ghost use Rattle.script_stage.specs.Stage.{StageStandsFor, calls_in, ticks_in};

use call_io::{Block, Sink, Source, write_all};
use call_register::Register;
use command_base::{LineCommand, Refused, Status, carry_out_lines, refuse, refuse_line};
use line_input::Line;
use link_frames::Steps;
use script_stage::{Halt, Stage};
use std::alloc::Global;
use std::sync::ledger::Ledger;
use trace_text::{ScriptLine, read_event_line, read_script};

/// Keeps the register of the script whose lines it takes.
#[derive(Drop)]
struct Registering<'a, L: Ledger> {
    alloc: Global,
    stage: &'a mut Stage,
    calls: &'a mut Register,
    moments: &'a mut Steps<L>,
}

impl<'a, L: Ledger> LineCommand for Registering<'a, L> {
    ghost Seen = { ScriptSeen };

    ghost stands = { λ s before seen. RegisterStands before seen s.stage.now s.calls.now };

    ghost rest = { RegisteredFrom };

    ghost most = { passes_from };

    ghost closes = { ClosesRegister };

    ghost count = { λ s. record { name = s.moments.ghost_name; passes = s.moments.now } };

    ghost wants_memory = { Unit {0} };

    ghost quiet = { Unit {0} };

    fn take<O: Sink>(&mut self, line: &Line<'_>, output: &mut O) -> Option<Status> {
        play_line(
            self.alloc,
            line,
            self.stage,
            self.calls,
            output,
            self.moments,
        )
    }

    fn finish<O: Sink>(&mut self, output: &mut O) -> Status {
        write_calls(self.alloc, self.calls, output)
    }

    ghost lined = { λ s before seen stands. register_lined seen };
}

/// Plays the script that the input has, and writes the register of its calls once it was read to its end. Before that
/// nothing is written.
pub fn keep_register<I: Source, O: Sink, L: Ledger>(
    alloc: Global,
    input: &mut I,
    output: &mut Block<'_, O>,
    moments: &mut Steps<L>,
) -> Status
    ensures outcome { Outcome (λ bytes r. r ≡ register_reply bytes) (λ bytes. script_passes (script_of bytes)) true
        (streams_of I.left (held O.held) input.old output.old moments.old)
        (streams_of I.left (held O.held) input.new output.new moments.new) result }
    ensures told { ToldBefore (λ bytes r. r ≡ register_reply bytes) ClosesRegister (I.left input.old) (I.left input.new)
        (held O.held output.old) (held O.held output.new) result }
    ensures handed { result ≡ Status.ReadFault → pending output.new ≡ [] }
    // Where it was cut short, and not by a failed write, it wrote nothing.
    ensures silent { IsQuietTurn (Some result) → held O.held output.new ≡ held O.held output.old }
    ensures unread { ReadCause result (I.faults input.old) (I.faults input.new) }
    ensures unwritten { WriteCause result (O.faults (sink output.old)) (O.faults (sink output.new)) }
    ensures reads_counted { I.faults input.old ≤ I.faults input.new }
    ensures writes_counted { O.faults (sink output.old) ≤ O.faults (sink output.new) }
    ensures onward { Onward (way O.held output.old) (way O.held output.new) }
{
    let mut stage = Stage::new();
    let mut calls = Register::new(alloc);
    let mut command = Registering {
        alloc,
        stage: &mut stage,
        calls: &mut calls,
        moments,
    };
    carry_out_lines(&mut command, input, output)
}

/// Plays a line that was read; an answer ends the command.
fn play_line<O: Sink, L: Ledger>(
    alloc: Global,
    line: &Line<'_>,
    stage: &mut Stage,
    calls: &mut Register,
    output: &mut O,
    moments: &mut Steps<L>,
) -> Option<Status>
    requires few { calls_in stage.old < 4294967295 }
    requires soon { ticks_in stage.old + 4294967295 < 2 ^ 64 }
    ensures plays { (said : Said) (events : List Event) → StageStandsFor stage.old said events →
        Registers (placed_line said (script_line line.now.text)) line.now.number said events stage.old stage.new
        calls.old calls.new (O.held output.old) (O.held output.new) (λ n. moments.new ≤ moments.old + n) result }
    ensures unwritten { MatchOption result (O.faults output.new ≡ O.faults output.old)
        (λ answer. WriteCause answer (O.faults output.old) (O.faults output.new)) }
    ensures counted { O.faults output.old ≤ O.faults output.new }
    ensures onward { Onward (O.way output.old) (O.way output.new) }
{
    match read_event_line(line) {
        Some(Ok(event)) => {
            let says = ScriptLine::Event(event);
            obey(alloc, line.number(), stage, &says, calls, output, moments)
        }
        Some(Err(bad)) => Some(refuse(Refused::Line(bad), output)),
        None => play_fact(alloc, line, stage, calls, output, moments),
    }
}

/// The same for a line that tells a fact. Out of line: it has room for a set, and most lines tell events.
#[inline(never)]
fn play_fact<O: Sink, L: Ledger>(
    alloc: Global,
    line: &Line<'_>,
    stage: &mut Stage,
    calls: &mut Register,
    output: &mut O,
    moments: &mut Steps<L>,
) -> Option<Status>
    requires few { calls_in stage.old < 4294967295 }
    requires soon { ticks_in stage.old + 4294967295 < 2 ^ 64 }
    ensures plays { (said : Said) (events : List Event) → StageStandsFor stage.old said events →
        Registers (placed_line said (script_line line.now.text)) line.now.number said events stage.old stage.new
        calls.old calls.new (O.held output.old) (O.held output.new) (λ n. moments.new ≤ moments.old + n) result }
    ensures unwritten { MatchOption result (O.faults output.new ≡ O.faults output.old)
        (λ answer. WriteCause answer (O.faults output.old) (O.faults output.new)) }
    ensures counted { O.faults output.old ≤ O.faults output.new }
    ensures onward { Onward (O.way output.old) (O.way output.new) }
{
    match read_script(line) {
        Ok(says) => obey(alloc, line.number(), stage, &says, calls, output, moments),
        Err(bad) => Some(refuse(Refused::Line(bad), output)),
    }
}

/// Plays what a line says; an answer ends the command.
fn obey<O: Sink, L: Ledger>(
    alloc: Global,
    number: u32,
    stage: &mut Stage,
    says: &ScriptLine,
    calls: &mut Register,
    output: &mut O,
    moments: &mut Steps<L>,
) -> Option<Status>
    requires few { calls_in stage.old < 4294967295 }
    requires soon { ticks_in stage.old + 4294967295 < 2 ^ 64 }
    ensures plays { (said : Said) (events : List Event) → StageStandsFor stage.old said events →
        Registers (placed said says.now) number said events stage.old stage.new calls.old calls.new
        (O.held output.old) (O.held output.new) (λ n. moments.new ≤ moments.old + n) result }
    ensures unwritten { MatchOption result (O.faults output.new ≡ O.faults output.old)
        (λ answer. WriteCause answer (O.faults output.old) (O.faults output.new)) }
    ensures counted { O.faults output.old ≤ O.faults output.new }
    ensures onward { Onward (O.way output.old) (O.way output.new) }
{
    match stage.obey(alloc, says, calls, moments) {
        Ok(()) => None,
        Err(Halt::Refused(reason)) => Some(refuse_line(number, reason, output)),
        // A register writes nothing, so it fails for want of memory alone.
        Err(Halt::Sim(_)) => Some(Status::Memory),
    }
}

/// Writes the register in one line, and ends the command with that.
fn write_calls<O: Sink>(alloc: Global, calls: &Register, output: &mut O) -> Status
    ensures ends { WritesRows calls.now (O.held output.old) (O.held output.new) result }
    ensures unwritten { WriteCause result (O.faults output.old) (O.faults output.new) }
    ensures counted { O.faults output.old ≤ O.faults output.new }
    ensures onward { Onward (O.way output.old) (O.way output.new) }
{
    let Ok(mut text) = calls.json(alloc) else {
        return Status::Memory;
    };
    if text.push('\n').is_err() {
        return Status::Memory;
    }
    match write_all(output, text.as_bytes()) {
        Ok(()) => Status::Done,
        Err(_) => Status::WriteFault,
    }
}
