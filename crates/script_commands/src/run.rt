//! The command `run`: a script in, its trace out.

ghost use Rattle.std.specs.Prelude.{◌≡◌, [], ◌+◌, ◌^◌, ◌<◌, ◌≤◌, true, List, Some, MatchOption};
ghost use Rattle.call_io.specs.Blocks.{held, pending, sink, way};
ghost use Rattle.call_io.specs.Bytes.{Grew, GrewPartly};
ghost use Rattle.call_io.specs.Ways.{Onward};
ghost use Rattle.trace_text.specs.EntryLine.{text_of};
ghost use Rattle.trace_text.specs.Script.{Said, script_of, script_line, placed, placed_line};
ghost use Rattle.trace_model.specs.declared.event.Event.{Event};
ghost use Rattle.command_base.specs.Outcome.{ClosesSilently, Outcome, ReadCause, ToldBefore, WriteCause, streams_of};
ghost use Rattle.script_stage.specs.ScriptTrace.{script_passes};
ghost use Rattle.script_commands.specs.Run.{run_reply};
ghost use Rattle.script_stage.specs.ScriptSeen.{ScriptSeen, passes_from};
ghost use Rattle.script_commands.specs.inner.RunLaws.{RunFrom, RunStands, run_lined};
ghost use Rattle.script_stage.specs.ScriptTurns.{Plays};
ghost use Rattle.script_stage.specs.Stage.{HaltWriteCause, StageStandsFor, Obeys, calls_in, ticks_in};

use call_io::{Block, Sink, Source};
use channel_sim::SimFault;
use command_base::{LineCommand, Refused, Status, carry_out_lines, refuse, refuse_line};
use line_input::Line;
use link_frames::Steps;
use script_stage::{Halt, Stage};
use std::alloc::Global;
use std::sync::ledger::Ledger;
use trace_text::{ScriptLine, TextOut, read_event_line, read_script};

/// Plays the script whose lines it takes.
#[derive(Drop)]
struct Running<'a, L: Ledger> {
    alloc: Global,
    stage: &'a mut Stage,
    moments: &'a mut Steps<L>,
}

impl<'a, L: Ledger> LineCommand for Running<'a, L> {
    ghost Seen = { ScriptSeen };

    ghost stands = { λ s before seen. RunStands before seen s.stage.now };

    ghost rest = { RunFrom };

    ghost most = { passes_from };

    ghost closes = { ClosesSilently };

    ghost count = { λ s. record { name = s.moments.ghost_name; passes = s.moments.now } };

    ghost wants_memory = { Unit {0} };

    ghost quiet = { ⊥ };

    fn take<O: Sink>(&mut self, line: &Line<'_>, output: &mut O) -> Option<Status> {
        play_line(self.alloc, line, self.stage, output, self.moments)
    }

    fn finish<O: Sink>(&mut self, _output: &mut O) -> Status {
        Status::Done
    }

    ghost lined = { λ s before seen stands. run_lined seen stands.tidy };
}

/// Plays the script that the input has, and writes its trace.
pub fn run_script<I: Source, O: Sink, L: Ledger>(
    alloc: Global,
    input: &mut I,
    output: &mut Block<'_, O>,
    moments: &mut Steps<L>,
) -> Status
    ensures outcome { Outcome (λ bytes r. r ≡ run_reply bytes) (λ bytes. script_passes (script_of bytes)) true
        (streams_of I.left (held O.held) input.old output.old moments.old)
        (streams_of I.left (held O.held) input.new output.new moments.new) result }
    ensures told { ToldBefore (λ bytes r. r ≡ run_reply bytes) ClosesSilently (I.left input.old) (I.left input.new)
        (held O.held output.old) (held O.held output.new) result }
    ensures handed { result ≡ Status.ReadFault → pending output.new ≡ [] }
    ensures unread { ReadCause result (I.faults input.old) (I.faults input.new) }
    ensures unwritten { WriteCause result (O.faults (sink output.old)) (O.faults (sink output.new)) }
    ensures reads_counted { I.faults input.old ≤ I.faults input.new }
    ensures writes_counted { O.faults (sink output.old) ≤ O.faults (sink output.new) }
    ensures onward { Onward (way O.held output.old) (way O.held output.new) }
{
    let mut stage = Stage::new();
    let mut command = Running {
        alloc,
        stage: &mut stage,
        moments,
    };
    carry_out_lines(&mut command, input, output)
}

/// Plays a line that was read; an answer ends the run.
fn play_line<O: Sink, L: Ledger>(
    alloc: Global,
    line: &Line<'_>,
    stage: &mut Stage,
    output: &mut O,
    moments: &mut Steps<L>,
) -> Option<Status>
    requires few { calls_in stage.old < 4294967295 }
    requires soon { ticks_in stage.old + 4294967295 < 2 ^ 64 }
    requires stands { (said : Said) × (events : List Event) × StageStandsFor stage.old said events }
    ensures plays { (said : Said) (events : List Event) → StageStandsFor stage.old said events →
        Plays (placed_line said (script_line line.now.text)) line.now.number said events stage.old stage.new
        (O.held output.old) (O.held output.new) (λ n. moments.new ≤ moments.old + n) result }
    ensures unwritten { MatchOption result (O.faults output.new ≡ O.faults output.old)
        (λ answer. WriteCause answer (O.faults output.old) (O.faults output.new)) }
    ensures counted { O.faults output.old ≤ O.faults output.new }
    ensures onward { Onward (O.way output.old) (O.way output.new) }
{
    match read_event_line(line) {
        Some(Ok(event)) => {
            let says = ScriptLine::Event(event);
            obey(alloc, line.number(), stage, &says, output, moments)
        }
        Some(Err(bad)) => Some(refuse(Refused::Line(bad), output)),
        None => play_fact(alloc, line, stage, output, moments),
    }
}

/// The same for a line that tells a fact. Out of line: it has room for a set, and most lines tell events.
#[inline(never)]
fn play_fact<O: Sink, L: Ledger>(
    alloc: Global,
    line: &Line<'_>,
    stage: &mut Stage,
    output: &mut O,
    moments: &mut Steps<L>,
) -> Option<Status>
    requires few { calls_in stage.old < 4294967295 }
    requires soon { ticks_in stage.old + 4294967295 < 2 ^ 64 }
    requires stands { (said : Said) × (events : List Event) × StageStandsFor stage.old said events }
    ensures plays { (said : Said) (events : List Event) → StageStandsFor stage.old said events →
        Plays (placed_line said (script_line line.now.text)) line.now.number said events stage.old stage.new
        (O.held output.old) (O.held output.new) (λ n. moments.new ≤ moments.old + n) result }
    ensures unwritten { MatchOption result (O.faults output.new ≡ O.faults output.old)
        (λ answer. WriteCause answer (O.faults output.old) (O.faults output.new)) }
    ensures counted { O.faults output.old ≤ O.faults output.new }
    ensures onward { Onward (O.way output.old) (O.way output.new) }
{
    match read_script(line) {
        Ok(says) => obey(alloc, line.number(), stage, &says, output, moments),
        Err(bad) => Some(refuse(Refused::Line(bad), output)),
    }
}

/// Plays what a line says; an answer ends the run.
fn obey<O: Sink, L: Ledger>(
    alloc: Global,
    number: u32,
    stage: &mut Stage,
    says: &ScriptLine,
    output: &mut O,
    moments: &mut Steps<L>,
) -> Option<Status>
    requires few { calls_in stage.old < 4294967295 }
    requires soon { ticks_in stage.old + 4294967295 < 2 ^ 64 }
    requires stands { (said : Said) × (events : List Event) × StageStandsFor stage.old said events }
    ensures plays { (said : Said) (events : List Event) → StageStandsFor stage.old said events →
        Plays (placed said says.now) number said events stage.old stage.new
        (O.held output.old) (O.held output.new) (λ n. moments.new ≤ moments.old + n) result }
    ensures unwritten { MatchOption result (O.faults output.new ≡ O.faults output.old)
        (λ answer. WriteCause answer (O.faults output.old) (O.faults output.new)) }
    ensures counted { O.faults output.old ≤ O.faults output.new }
    ensures onward { Onward (O.way output.old) (O.way output.new) }
{
    match tell(alloc, stage, says, output, moments) {
        Ok(()) => None,
        Err(Halt::Refused(reason)) => Some(refuse_line(number, reason, output)),
        Err(Halt::Sim(SimFault::Write)) => Some(Status::WriteFault),
        Err(Halt::Sim(SimFault::Memory)) => Some(Status::Memory),
    }
}

/// Plays what a line says, and writes the lines of its entries.
fn tell<O: Sink, L: Ledger>(
    alloc: Global,
    stage: &mut Stage,
    says: &ScriptLine,
    output: &mut O,
    moments: &mut Steps<L>,
) -> Result<(), Halt>
    requires few { calls_in stage.old < 4294967295 }
    requires soon { ticks_in stage.old + 4294967295 < 2 ^ 64 }
    requires stands { (said : Said) × (events : List Event) × StageStandsFor stage.old said events }
    ensures obeys { (said : Said) (events : List Event) → StageStandsFor stage.old said events →
        Obeys (λ es. Grew (O.held output.old) (O.held output.new) (text_of es))
        (λ es. GrewPartly (O.held output.old) (O.held output.new) (text_of es)) (λ n. moments.new ≤ moments.old + n)
        stage.old stage.new said events says.now result }
    ensures unwritten { HaltWriteCause result (O.faults output.old) (O.faults output.new) }
    ensures counted { O.faults output.old ≤ O.faults output.new }
    ensures onward { Onward (O.way output.old) (O.way output.new) }
{
    let mut to = TextOut::over(output);
    stage.obey(alloc, says, &mut to, moments)
}
