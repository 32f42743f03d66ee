//! The command `floor`: a script of vehicles at one point in, its trace out.

ghost use Rattle.std.specs.Prelude.{◌≡◌, ℕ, [], ◌+◌, ◌^◌, ◌<◌, ◌≤◌, true, List, Some, MatchOption};
ghost use Rattle.call_io.specs.Blocks.{held, pending, sink, way};
ghost use Rattle.call_io.specs.Bytes.{Grew, GrewPartly};
ghost use Rattle.call_io.specs.Ways.{Onward};
ghost use Rattle.call_floor.specs.declared.event.FloorEvent.{FloorEvent as Event};
ghost use Rattle.command_base.specs.Outcome.{ClosesSilently, Outcome, ReadCause, ToldBefore, WriteCause, streams_of};
ghost use Rattle.floor_command.specs.FloorParts.{AreApart};
ghost use Rattle.floor_command.specs.FloorRun.{floor_passes, floor_reply};
ghost use Rattle.floor_command.specs.FloorScript.{FloorSaid, floor_says, placed, placed_line, script_of};
ghost use Rattle.floor_command.specs.FloorText.{text_of};
ghost use Rattle.floor_command.specs.inner.FloorLaws.{FloorFrom, FloorRunStands, floor_lined};
ghost use Rattle.floor_command.specs.inner.FloorSeen.{FloorSeen, passes_from};
ghost use Rattle.floor_command.specs.inner.FloorStage.{HaltWriteCause, StageStandsFor, Obeys, calls_in, ticks_in};
ghost use Rattle.floor_command.specs.inner.FloorTurns.{Plays};

use crate::laws::floor_parts;
use crate::listener::FloorTextOut;
use crate::says::{FloorLine, read_says};
use crate::stage::{FloorStage, Halt};
use call_floor::FloorFault;
use call_io::{Block, Sink, Source};
use command_base::{LineCommand, Refused, Status, carry_out_lines, refuse, refuse_line};
use line_input::Line;
use link_frames::Steps;
use std::alloc::Global;
use std::sync::ledger::Ledger;

/// Plays the script whose lines it takes.
#[derive(Drop)]
struct PlayingFloor<'a, L: Ledger> {
    alloc: Global,
    stage: &'a mut FloorStage,
    moments: &'a mut Steps<L>,
}

impl<'a, L: Ledger> LineCommand for PlayingFloor<'a, L> {
    ghost Seen = { FloorSeen };

    ghost stands = { λ s before seen. FloorRunStands before seen s.stage.now };

    ghost rest = { FloorFrom };

    ghost most = { passes_from };

    ghost closes = { ClosesSilently };

    ghost count = { λ s. record { name = s.moments.ghost_name; passes = s.moments.now } };

    ghost wants_memory = { Unit {0} };

    ghost quiet = { ⊥ };

    fn take<O: Sink>(&mut self, line: &Line<'_>, output: &mut O) -> Option<Status> {
        play_line(self.alloc, line, self.stage, output, self.moments)
    }

    fn finish<O: Sink>(&mut self, _output: &mut O) -> Status {
        Status::Done
    }

    ghost lined = { λ s before seen stands. floor_lined seen stands.tidy };
}

/// Plays the script of a floor that the input has, and writes its trace.
pub fn play_floor<I: Source, O: Sink, L: Ledger>(
    alloc: Global,
    input: &mut I,
    output: &mut Block<'_, O>,
    moments: &mut Steps<L>,
) -> Status
    ensures outcome { Outcome (λ bytes r. r ≡ floor_reply bytes) floor_passes true
        (streams_of I.left (held O.held) input.old output.old moments.old)
        (streams_of I.left (held O.held) input.new output.new moments.new) result }
    // Each vehicle gets the trace that it would get alone.
    ensures apart { (bytes : List ℕ) → AreApart (script_of bytes) }
    ensures told { ToldBefore (λ bytes r. r ≡ floor_reply bytes) ClosesSilently (I.left input.old) (I.left input.new)
        (held O.held output.old) (held O.held output.new) result }
    ensures handed { result ≡ Status.ReadFault → pending output.new ≡ [] }
    ensures unread { ReadCause result (I.faults input.old) (I.faults input.new) }
    ensures unwritten { WriteCause result (O.faults (sink output.old)) (O.faults (sink output.new)) }
    ensures reads_counted { I.faults input.old ≤ I.faults input.new }
    ensures writes_counted { O.faults (sink output.old) ≤ O.faults (sink output.new) }
    ensures onward { Onward (way O.held output.old) (way O.held output.new) }
{
    floor_parts();
    let mut stage = FloorStage::new(alloc);
    let mut command = PlayingFloor {
        alloc,
        stage: &mut stage,
        moments,
    };
    carry_out_lines(&mut command, input, output)
}

/// Plays a line that was read; an answer ends the command.
fn play_line<O: Sink, L: Ledger>(
    alloc: Global,
    line: &Line<'_>,
    stage: &mut FloorStage,
    output: &mut O,
    moments: &mut Steps<L>,
) -> Option<Status>
    requires few { calls_in stage.old < 4294967295 }
    requires soon { ticks_in stage.old + 4294967295 < 2 ^ 64 }
    requires stands { (said : FloorSaid) × (events : List Event) × StageStandsFor stage.old said events }
    ensures plays { (said : FloorSaid) (events : List Event) → StageStandsFor stage.old said events →
        Plays (placed_line said (floor_says line.now.text)) line.now.number said events stage.old stage.new
        (O.held output.old) (O.held output.new) (λ n. moments.new ≤ moments.old + n) result }
    ensures unwritten { MatchOption result (O.faults output.new ≡ O.faults output.old)
        (λ answer. WriteCause answer (O.faults output.old) (O.faults output.new)) }
    ensures counted { O.faults output.old ≤ O.faults output.new }
    ensures onward { Onward (O.way output.old) (O.way output.new) }
{
    match read_says(line) {
        Ok(says) => obey(alloc, line.number(), stage, &says, output, moments),
        Err(bad) => Some(refuse(Refused::Line(bad), output)),
    }
}

/// Plays what a line says; an answer ends the command.
fn obey<O: Sink, L: Ledger>(
    alloc: Global,
    number: u32,
    stage: &mut FloorStage,
    says: &FloorLine,
    output: &mut O,
    moments: &mut Steps<L>,
) -> Option<Status>
    requires few { calls_in stage.old < 4294967295 }
    requires soon { ticks_in stage.old + 4294967295 < 2 ^ 64 }
    requires stands { (said : FloorSaid) × (events : List Event) × StageStandsFor stage.old said events }
    ensures plays { (said : FloorSaid) (events : List Event) → StageStandsFor stage.old said events →
        Plays (placed said says.now) number said events stage.old stage.new
        (O.held output.old) (O.held output.new) (λ n. moments.new ≤ moments.old + n) result }
    ensures unwritten { MatchOption result (O.faults output.new ≡ O.faults output.old)
        (λ answer. WriteCause answer (O.faults output.old) (O.faults output.new)) }
    ensures counted { O.faults output.old ≤ O.faults output.new }
    ensures onward { Onward (O.way output.old) (O.way output.new) }
{
    match tell(alloc, stage, says, output, moments) {
        Ok(()) => None,
        Err(Halt::Refused(reason)) => Some(refuse_line(number, reason, output)),
        Err(Halt::Memory) => Some(Status::Memory),
        Err(Halt::Floor(FloorFault::Write)) => Some(Status::WriteFault),
        Err(Halt::Floor(FloorFault::Memory)) => Some(Status::Memory),
    }
}

/// Plays what a line says, and writes the lines of its entries.
fn tell<O: Sink, L: Ledger>(
    alloc: Global,
    stage: &mut FloorStage,
    says: &FloorLine,
    output: &mut O,
    moments: &mut Steps<L>,
) -> Result<(), Halt>
    requires few { calls_in stage.old < 4294967295 }
    requires soon { ticks_in stage.old + 4294967295 < 2 ^ 64 }
    requires stands { (said : FloorSaid) × (events : List Event) × StageStandsFor stage.old said events }
    ensures obeys { (said : FloorSaid) (events : List Event) → StageStandsFor stage.old said events →
        Obeys (λ es. Grew (O.held output.old) (O.held output.new) (text_of es))
        (λ es. GrewPartly (O.held output.old) (O.held output.new) (text_of es)) (λ n. moments.new ≤ moments.old + n)
        stage.old stage.new said events says.now result }
    ensures unwritten { HaltWriteCause result (O.faults output.old) (O.faults output.new) }
    ensures counted { O.faults output.old ≤ O.faults output.new }
    ensures onward { Onward (O.way output.old) (O.way output.new) }
{
    let mut to = FloorTextOut::over(output);
    stage.obey(alloc, says, &mut to, moments)
}
