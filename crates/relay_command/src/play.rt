//! The command `relay`: a script with a relay desk behind the point in, its trace out.

ghost use Rattle.std.specs.Prelude.{◌≡◌, ℕ, [], ◌+◌, ◌^◌, ◌<◌, ◌≤◌, ◌-◌, true, List, Some, MatchOption, OnOk, OnErr};
ghost use Rattle.call_io.specs.Blocks.{held, pending, sink, way};
ghost use Rattle.call_io.specs.Ways.{Onward};
ghost use Rattle.command_base.specs.Outcome.{ClosesSilently, Outcome, ReadCause, ToldBefore, WriteCause, streams_of};
ghost use Rattle.relay_command.specs.Relay.{relay_passes, relay_reply};
ghost use Rattle.call_io.specs.Bytes.{Grew, GrewPartly};
ghost use Rattle.trace_model.specs.declared.event.Event.{Event};
ghost use Rattle.trace_text.specs.Script.{Said};
ghost use Rattle.script_stage.specs.Stage.{HaltWriteCause, Obeys, StageStandsFor, calls_in, ticks_in};
ghost use Rattle.relay_text.specs.ItemLine.{text_with_desk};
ghost use Rattle.relay_text.specs.RelayLines.{placed_relay, placed_relay_line, relay_line};
ghost use Rattle.relay_text.specs.declared.line.RelayLine.TheVariants as line;
ghost use Rattle.relay_desk.specs.Desk.{happens};
ghost use Rattle.relay_watch.specs.Hears.{order_event};
ghost use Rattle.relay_watch.specs.Clocks.{IsTold, clock_of, elapses, follows, row_at};
ghost use Rattle.relay_command.specs.inner.Turns.{IsSimHalt, PlaysRelay, Stands, Tells};
ghost use Rattle.relay_command.specs.inner.Seen.{RelayFrom, RelaySeen, RelayStands, passes_behind, relay_lined};

use call_io::{Block, Sink, Source};
use channel_sim::SimFault;
use command_base::{LineCommand, Refused, Status, carry_out_lines, refuse, refuse_line};
use line_input::Line;
use link_frames::Steps;
use relay_text::{RelayLine, RelayOrder, read_relay_line};
use relay_watch::{DeskClock, Watch};
use script_stage::{Halt, Stage};
use std::alloc::Global;
use std::sync::ledger::Ledger;
use trace_text::ScriptLine;

/// Plays the script whose lines it takes.
#[derive(Drop)]
struct Relaying<'a, L: Ledger> {
    alloc: Global,
    stage: &'a mut Stage,
    desk: &'a mut DeskClock,
    moments: &'a mut Steps<L>,
}

impl<'a, L: Ledger> LineCommand for Relaying<'a, L> {
    ghost Seen = { RelaySeen };

    ghost stands = { λ s before seen. RelayStands before seen s.stage.now s.desk.now };

    ghost rest = { RelayFrom };

    ghost most = { passes_behind };

    ghost closes = { ClosesSilently };

    ghost count = { λ s. record { name = s.moments.ghost_name; passes = s.moments.now } };

    ghost wants_memory = { Unit {0} };

    ghost quiet = { ⊥ };

    fn take<O: Sink>(&mut self, line: &Line<'_>, output: &mut O) -> Option<Status> {
        play_line(
            self.alloc,
            line,
            self.stage,
            self.desk,
            output,
            self.moments,
        )
    }

    fn finish<O: Sink>(&mut self, _output: &mut O) -> Status {
        Status::Done
    }

    ghost lined = { λ s before seen stands. relay_lined seen };
}

/// Plays the script that the input has, with a relay desk behind the point, and writes its trace.
pub fn play_relay<I: Source, O: Sink, L: Ledger>(
    alloc: Global,
    input: &mut I,
    output: &mut Block<'_, O>,
    moments: &mut Steps<L>,
) -> Status
    ensures outcome { Outcome (λ bytes r. r ≡ relay_reply bytes) relay_passes true
        (streams_of I.left (held O.held) input.old output.old moments.old)
        (streams_of I.left (held O.held) input.new output.new moments.new) result }
    ensures told { ToldBefore (λ bytes r. r ≡ relay_reply bytes) ClosesSilently (I.left input.old) (I.left input.new)
        (held O.held output.old) (held O.held output.new) result }
    ensures handed { result ≡ Status.ReadFault → pending output.new ≡ [] }
    ensures unread { ReadCause result (I.faults input.old) (I.faults input.new) }
    ensures unwritten { WriteCause result (O.faults (sink output.old)) (O.faults (sink output.new)) }
    ensures reads_counted { I.faults input.old ≤ I.faults input.new }
    ensures writes_counted { O.faults (sink output.old) ≤ O.faults (sink output.new) }
    ensures onward { Onward (way O.held output.old) (way O.held output.new) }
{
    let mut stage = Stage::new();
    let mut desk = DeskClock::new(alloc);
    let mut command = Relaying {
        alloc,
        stage: &mut stage,
        desk: &mut desk,
        moments,
    };
    carry_out_lines(&mut command, input, output)
}

/// Plays a line that was read; an answer ends the run.
fn play_line<O: Sink, L: Ledger>(
    alloc: Global,
    line: &Line<'_>,
    stage: &mut Stage,
    desk: &mut DeskClock,
    output: &mut O,
    moments: &mut Steps<L>,
) -> Option<Status>
    requires few { calls_in stage.old < 4294967295 }
    requires soon { ticks_in stage.old + 4294967295 < 2 ^ 64 }
    requires stands { (seen : RelaySeen) × Stands seen stage.old desk.old }
    ensures plays { (seen : RelaySeen) → Stands seen stage.old desk.old →
        PlaysRelay (placed_relay_line seen.said (relay_line line.now.text)) line.now.number seen stage.old stage.new
        desk.new (O.held output.old) (O.held output.new) moments.old moments.new result }
    ensures unwritten { MatchOption result (O.faults output.new ≡ O.faults output.old)
        (λ answer. WriteCause answer (O.faults output.old) (O.faults output.new)) }
    ensures counted { O.faults output.old ≤ O.faults output.new }
    ensures onward { Onward (O.way output.old) (O.way output.new) }
{
    match read_relay_line(line) {
        Ok(says) => obey(alloc, line.number(), stage, desk, &says, output, moments),
        Err(bad) => Some(refuse(Refused::Line(bad), output)),
    }
}

/// Plays what a line says; an answer ends the run.
fn obey<O: Sink, L: Ledger>(
    alloc: Global,
    number: u32,
    stage: &mut Stage,
    desk: &mut DeskClock,
    says: &RelayLine,
    output: &mut O,
    moments: &mut Steps<L>,
) -> Option<Status>
    requires few { calls_in stage.old < 4294967295 }
    requires soon { ticks_in stage.old + 4294967295 < 2 ^ 64 }
    requires stands { (seen : RelaySeen) × Stands seen stage.old desk.old }
    ensures plays { (seen : RelaySeen) → Stands seen stage.old desk.old →
        PlaysRelay (placed_relay seen.said says.now) number seen stage.old stage.new desk.new
        (O.held output.old) (O.held output.new) moments.old moments.new result }
    ensures unwritten { MatchOption result (O.faults output.new ≡ O.faults output.old)
        (λ answer. WriteCause answer (O.faults output.old) (O.faults output.new)) }
    ensures counted { O.faults output.old ≤ O.faults output.new }
    ensures onward { Onward (O.way output.old) (O.way output.new) }
{
    match tell(alloc, stage, desk, says, output, moments) {
        Ok(()) => None,
        Err(Halt::Refused(reason)) => Some(refuse_line(number, reason, output)),
        Err(Halt::Sim(SimFault::Write)) => Some(Status::WriteFault),
        Err(Halt::Sim(SimFault::Memory)) => Some(Status::Memory),
    }
}

/// Plays what a line says, and writes the lines of its entries and items.
fn tell<O: Sink, L: Ledger>(
    alloc: Global,
    stage: &mut Stage,
    desk: &mut DeskClock,
    says: &RelayLine,
    output: &mut O,
    moments: &mut Steps<L>,
) -> Result<(), Halt>
    requires few { calls_in stage.old < 4294967295 }
    requires soon { ticks_in stage.old + 4294967295 < 2 ^ 64 }
    requires stands { (seen : RelaySeen) × Stands seen stage.old desk.old }
    ensures tells { (seen : RelaySeen) → Stands seen stage.old desk.old →
        Tells seen says.now stage.old stage.new desk.new (O.held output.old) (O.held output.new)
        moments.old moments.new result }
    ensures unwritten { HaltWriteCause result (O.faults output.old) (O.faults output.new) }
    ensures counted { O.faults output.old ≤ O.faults output.new }
    ensures onward { Onward (O.way output.old) (O.way output.new) }
{
    match says {
        RelayLine::Script(says) => tell_script(alloc, stage, desk, says, output, moments),
        RelayLine::Order(order) => tell_order(alloc, stage, desk, order, output),
    }
}

/// Plays what a line of a script says, and then lets the desk's time pass up to the world's.
fn tell_script<O: Sink, L: Ledger>(
    alloc: Global,
    stage: &mut Stage,
    desk: &mut DeskClock,
    says: &ScriptLine,
    output: &mut O,
    moments: &mut Steps<L>,
) -> Result<(), Halt>
    requires few { calls_in stage.old < 4294967295 }
    requires soon { ticks_in stage.old + 4294967295 < 2 ^ 64 }
    requires stands { (seen : RelaySeen) × Stands seen stage.old desk.old }
    ensures tells { (seen : RelaySeen) → Stands seen stage.old desk.old →
        Tells seen (line.Script says.now) stage.old stage.new desk.new (O.held output.old) (O.held output.new)
        moments.old moments.new result }
    ensures unwritten { HaltWriteCause result (O.faults output.old) (O.faults output.new) }
    ensures counted { O.faults output.old ≤ O.faults output.new }
    ensures onward { Onward (O.way output.old) (O.way output.new) }
{
    watch_script(alloc, stage, desk, says, output, moments)?;
    reach(alloc, desk, stage.tick(), output)
}

/// Plays what a line of a script says.
fn watch_script<O: Sink, L: Ledger>(
    alloc: Global,
    stage: &mut Stage,
    desk: &mut DeskClock,
    says: &ScriptLine,
    output: &mut O,
    moments: &mut Steps<L>,
) -> Result<(), Halt>
    requires few { calls_in stage.old < 4294967295 }
    requires soon { ticks_in stage.old + 4294967295 < 2 ^ 64 }
    requires stands { (seen : RelaySeen) × Stands seen stage.old desk.old }
    ensures obeys { (said : Said) (events : List Event) → StageStandsFor stage.old said events →
        Obeys (λ es. IsTold (follows es (clock_of desk.old)) desk.new (O.held output.old) (O.held output.new))
        (λ es. GrewPartly (O.held output.old) (O.held output.new) (text_with_desk (follows es (clock_of desk.old)).items))
        (λ n. moments.new ≤ moments.old + n) stage.old stage.new said events says.now result }
    ensures unwritten { HaltWriteCause result (O.faults output.old) (O.faults output.new) }
    ensures counted { O.faults output.old ≤ O.faults output.new }
    ensures onward { Onward (O.way output.old) (O.way output.new) }
{
    let mut to = Watch::over(output, desk);
    stage.obey(alloc, says, &mut to, moments)
}

/// Lets the desk's time pass up to a tick.
fn reach<O: Sink>(
    alloc: Global,
    desk: &mut DeskClock,
    tick: u64,
    output: &mut O,
) -> Result<(), Halt>
    ensures ok { OnOk result (IsTold (elapses (tick - desk.old.tick) (clock_of desk.old)) desk.new
        (O.held output.old) (O.held output.new)) }
    ensures err { OnErr result (GrewPartly (O.held output.old) (O.held output.new)
        (text_with_desk (elapses (tick - desk.old.tick) (clock_of desk.old)).items)) }
    ensures sim { IsSimHalt result }
    ensures unwritten { HaltWriteCause result (O.faults output.old) (O.faults output.new) }
    ensures counted { O.faults output.old ≤ O.faults output.new }
    ensures onward { Onward (O.way output.old) (O.way output.new) }
{
    match desk.catch_up(alloc, tick, output) {
        Ok(()) => Ok(()),
        Err(deaf) => Err(Halt::Sim(SimFault::from(deaf))),
    }
}

/// Has the desk, or its link, do something, where the facts are those that a vehicle needs.
fn tell_order<O: Sink>(
    alloc: Global,
    stage: &mut Stage,
    desk: &mut DeskClock,
    order: &RelayOrder,
    output: &mut O,
) -> Result<(), Halt>
    requires stands { (seen : RelaySeen) × Stands seen stage.old desk.old }
    ensures tells { (seen : RelaySeen) (passes : ℕ) → Stands seen stage.old desk.old →
        Tells seen (line.Order order.now) stage.old stage.new desk.new (O.held output.old) (O.held output.new)
        passes passes result }
    ensures unwritten { HaltWriteCause result (O.faults output.old) (O.faults output.new) }
    ensures counted { O.faults output.old ≤ O.faults output.new }
    ensures onward { Onward (O.way output.old) (O.way output.new) }
{
    match stage.set_out(alloc) {
        Ok(()) => order_desk(alloc, desk, order, output),
        Err(reason) => Err(Halt::Refused(reason)),
    }
}

/// Has the desk, or its link, do something.
fn order_desk<O: Sink>(
    alloc: Global,
    desk: &mut DeskClock,
    order: &RelayOrder,
    output: &mut O,
) -> Result<(), Halt>
    ensures ok { OnOk result (IsTold (row_at (clock_of desk.old).tick (happens (clock_of desk.old).desk
        (order_event order.now))) desk.new (O.held output.old) (O.held output.new)) }
    ensures err { OnErr result (GrewPartly (O.held output.old) (O.held output.new)
        (text_with_desk (row_at (clock_of desk.old).tick (happens (clock_of desk.old).desk
        (order_event order.now))).items)) }
    ensures sim { IsSimHalt result }
    ensures unwritten { HaltWriteCause result (O.faults output.old) (O.faults output.new) }
    ensures counted { O.faults output.old ≤ O.faults output.new }
    ensures onward { Onward (O.way output.old) (O.way output.new) }
{
    match desk.obey(alloc, order, output) {
        Ok(()) => Ok(()),
        Err(deaf) => Err(Halt::Sim(SimFault::from(deaf))),
    }
}
