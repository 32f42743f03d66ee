//! The command `tones`: a script in, its trace out, where the modem carries the frames that `deliver` lines hand over.

ghost use Rattle.std.specs.Prelude.{◌≡◌, [], ◌+◌, ◌^◌, ◌<◌, ◌≤◌, true, List, Some, Ok, MatchOption};
ghost use Rattle.call_io.specs.Blocks.{held, pending, sink, way};
ghost use Rattle.call_io.specs.Bytes.{Grew, GrewPartly};
ghost use Rattle.call_io.specs.Ways.{Onward};
ghost use Rattle.trace_model.specs.declared.event.Event.{Event};
ghost use Rattle.trace_text.specs.EntryLine.{text_of};
ghost use Rattle.trace_text.specs.Script.{Said, placed, script_line};
ghost use Rattle.trace_text.specs.declared.script.ScriptLine.{ScriptLine};
ghost use Rattle.command_base.specs.Outcome.{ClosesSilently, Outcome, ReadCause, ToldBefore, WriteCause, streams_of};
ghost use Rattle.script_stage.specs.ScriptTurns.{PlaysTo};
ghost use Rattle.script_stage.specs.declared.stage.Stage.{Stage};
ghost use Rattle.script_stage.specs.Stage.{HaltWriteCause, Obeys, StageStandsFor, calls_in, ticks_in};
ghost use Rattle.tones_command.specs.Modem.{most_noise};
ghost use Rattle.tones_command.specs.Tones.{tones_passes, tones_reply};
ghost use Rattle.tones_command.specs.inner.Hearing.{FramesGrew};
ghost use Rattle.tones_command.specs.inner.ToneLaws.{tones_lined};
ghost use Rattle.tones_command.specs.inner.ToneSeen.{IsReady, ToneSeen, TonesFrom, TonesStand, tones_passes_from};
ghost use Rattle.tones_command.specs.inner.ToneTurns.{LineTurn, PlaysTones, SaidTurn, line_draws, line_lost};

use crate::hearing::ToneOut;
use crate::modem::Modem;
use crate::noise::Noise;
use crate::sent::SentFrames;
use call_io::{Block, Sink, Source};
use channel_sim::SimFault;
use command_base::{LineCommand, Refused, Status, carry_out_lines, refuse, refuse_line};
use line_input::Line;
use link_frames::Steps;
use script_stage::{Halt, Stage};
use std::alloc::Global;
use std::sync::ledger::Ledger;
use trace_text::{ScriptLine, read_script};

/// Plays the script whose lines it takes, but for the lines whose frames are lost.
#[derive(Drop)]
struct Toning<'a, L: Ledger> {
    alloc: Global,
    stage: &'a mut Stage,
    frames: &'a mut SentFrames,
    modem: &'a mut Modem,
    moments: &'a mut Steps<L>,
}

impl<'a, L: Ledger> LineCommand for Toning<'a, L> {
    ghost Seen = { ToneSeen };

    ghost stands = { λ s before seen. TonesStand before seen s.stage.now s.frames.now s.modem.now };

    ghost rest = { TonesFrom };

    ghost most = { tones_passes_from };

    ghost closes = { ClosesSilently };

    ghost count = { λ s. record { name = s.moments.ghost_name; passes = s.moments.now } };

    ghost wants_memory = { Unit {0} };

    ghost quiet = { ⊥ };

    fn take<O: Sink>(&mut self, line: &Line<'_>, output: &mut O) -> Option<Status> {
        play_line(
            self.alloc,
            line,
            self.stage,
            self.frames,
            self.modem,
            output,
            self.moments,
        )
    }

    fn finish<O: Sink>(&mut self, _output: &mut O) -> Status {
        Status::Done
    }

    ghost lined = { λ s before seen stands. tones_lined seen stands.tidy };
}

/// Plays the script that the input has, and writes its trace. Each `deliver` line whose frame was sent has the modem carry
/// that frame over a line with this noise; where the frame is lost, the line does nothing.
pub fn play_tones<I: Source, O: Sink, L: Ledger>(
    alloc: Global,
    noise: &Noise,
    input: &mut I,
    output: &mut Block<'_, O>,
    moments: &mut Steps<L>,
) -> Status
    ensures outcome { Outcome (λ bytes r. r ≡ tones_reply noise.now bytes) (λ bytes. tones_passes noise.now bytes) true
        (streams_of I.left (held O.held) input.old output.old moments.old)
        (streams_of I.left (held O.held) input.new output.new moments.new) result }
    ensures told { ToldBefore (λ bytes r. r ≡ tones_reply noise.now bytes) ClosesSilently (I.left input.old)
        (I.left input.new) (held O.held output.old) (held O.held output.new) result }
    ensures handed { result ≡ Status.ReadFault → pending output.new ≡ [] }
    ensures unread { ReadCause result (I.faults input.old) (I.faults input.new) }
    ensures unwritten { WriteCause result (O.faults (sink output.old)) (O.faults (sink output.new)) }
    ensures reads_counted { I.faults input.old ≤ I.faults input.new }
    ensures writes_counted { O.faults (sink output.old) ≤ O.faults (sink output.new) }
    ensures onward { Onward (way O.held output.old) (way O.held output.new) }
{
    let mut stage = Stage::new();
    let mut frames = SentFrames::new(alloc);
    let mut modem = Modem::new(noise);
    let mut command = Toning {
        alloc,
        stage: &mut stage,
        frames: &mut frames,
        modem: &mut modem,
        moments,
    };
    carry_out_lines(&mut command, input, output)
}

/// Plays a line that was read, unless it is lost; an answer ends the command.
fn play_line<O: Sink, L: Ledger>(
    alloc: Global,
    line: &Line<'_>,
    stage: &mut Stage,
    frames: &mut SentFrames,
    modem: &mut Modem,
    output: &mut O,
    moments: &mut Steps<L>,
) -> Option<Status>
    requires few { calls_in stage.old < 4294967295 }
    requires soon { ticks_in stage.old + 4294967295 < 2 ^ 64 }
    requires bound { modem.old.most ≤ most_noise }
    requires stands { (seen : ToneSeen) × IsReady seen stage.old frames.old modem.old }
    ensures turns { (seen : ToneSeen) → IsReady seen stage.old frames.old modem.old →
        LineTurn seen line.now.text line.now.number stage.old stage.new frames.old frames.new
        (O.held output.old) (O.held output.new) (λ n. moments.new ≤ moments.old + n) result }
    ensures drawn { (seen : ToneSeen) → IsReady seen stage.old frames.old modem.old → (says : ScriptLine) →
        script_line line.now.text ≡ Ok says → modem.new.x ≡ line_draws seen says }
    ensures most { modem.new.most ≡ modem.old.most }
    ensures unwritten { MatchOption result (O.faults output.new ≡ O.faults output.old)
        (λ answer. WriteCause answer (O.faults output.old) (O.faults output.new)) }
    ensures counted { O.faults output.old ≤ O.faults output.new }
    ensures onward { Onward (O.way output.old) (O.way output.new) }
{
    match read_script(line) {
        Ok(says) => play_said(
            alloc,
            line.number(),
            stage,
            frames,
            modem,
            &says,
            output,
            moments,
        ),
        Err(bad) => Some(refuse(Refused::Line(bad), output)),
    }
}

/// Plays what a line says, unless it is lost; an answer ends the command.
fn play_said<O: Sink, L: Ledger>(
    alloc: Global,
    number: u32,
    stage: &mut Stage,
    frames: &mut SentFrames,
    modem: &mut Modem,
    says: &ScriptLine,
    output: &mut O,
    moments: &mut Steps<L>,
) -> Option<Status>
    requires few { calls_in stage.old < 4294967295 }
    requires soon { ticks_in stage.old + 4294967295 < 2 ^ 64 }
    requires bound { modem.old.most ≤ most_noise }
    requires stands { (seen : ToneSeen) × IsReady seen stage.old frames.old modem.old }
    ensures turns { (seen : ToneSeen) → IsReady seen stage.old frames.old modem.old →
        SaidTurn seen says.now number stage.old stage.new frames.old frames.new
        (O.held output.old) (O.held output.new) (λ n. moments.new ≤ moments.old + n) result }
    ensures drawn { (seen : ToneSeen) → IsReady seen stage.old frames.old modem.old →
        modem.new.x ≡ line_draws seen says.now }
    ensures most { modem.new.most ≡ modem.old.most }
    ensures unwritten { MatchOption result (O.faults output.new ≡ O.faults output.old)
        (λ answer. WriteCause answer (O.faults output.old) (O.faults output.new)) }
    ensures counted { O.faults output.old ≤ O.faults output.new }
    ensures onward { Onward (O.way output.old) (O.way output.new) }
{
    if is_lost(modem, frames, says) {
        return None;
    }
    obey(alloc, number, stage, frames, says, output, moments)
}

/// Has the modem carry the frame of a line, if it has one, and says whether it is lost.
fn is_lost(modem: &mut Modem, frames: &SentFrames, says: &ScriptLine) -> bool
    requires { modem.old.most ≤ most_noise }
    ensures lost { (seen : ToneSeen) (stage : Stage) → IsReady seen stage frames.now modem.old →
        result ≡ line_lost seen says.now }
    ensures drawn { (seen : ToneSeen) (stage : Stage) → IsReady seen stage frames.now modem.old →
        modem.new.x ≡ line_draws seen says.now }
    ensures most { modem.new.most ≡ modem.old.most }
{
    let ScriptLine::Event(event) = says else {
        return false;
    };
    match frames.carried_for(event) {
        Some(frame) => modem.loses(&frame.lend().own()),
        None => false,
    }
}

/// Plays what a line says; an answer ends the command.
fn obey<O: Sink, L: Ledger>(
    alloc: Global,
    number: u32,
    stage: &mut Stage,
    frames: &mut SentFrames,
    says: &ScriptLine,
    output: &mut O,
    moments: &mut Steps<L>,
) -> Option<Status>
    requires few { calls_in stage.old < 4294967295 }
    requires soon { ticks_in stage.old + 4294967295 < 2 ^ 64 }
    requires stands { (said : Said) × (events : List Event) × StageStandsFor stage.old said events }
    ensures plays { (said : Said) (events : List Event) → StageStandsFor stage.old said events →
        PlaysTo (placed said says.now) number said events stage.old stage.new (O.held output.old) (O.held output.new)
        (λ es. Grew (O.held output.old) (O.held output.new) (text_of es) × FramesGrew frames.old frames.new es)
        (λ es. GrewPartly (O.held output.old) (O.held output.new) (text_of es))
        (λ n. moments.new ≤ moments.old + n) result }
    ensures unwritten { MatchOption result (O.faults output.new ≡ O.faults output.old)
        (λ answer. WriteCause answer (O.faults output.old) (O.faults output.new)) }
    ensures counted { O.faults output.old ≤ O.faults output.new }
    ensures onward { Onward (O.way output.old) (O.way output.new) }
{
    match tell(alloc, stage, frames, says, output, moments) {
        Ok(()) => None,
        Err(Halt::Refused(reason)) => Some(refuse_line(number, reason, output)),
        Err(Halt::Sim(SimFault::Write)) => Some(Status::WriteFault),
        Err(Halt::Sim(SimFault::Memory)) => Some(Status::Memory),
    }
}

/// Plays what a line says, writes the lines of its entries, and keeps the frames that these send.
fn tell<O: Sink, L: Ledger>(
    alloc: Global,
    stage: &mut Stage,
    frames: &mut SentFrames,
    says: &ScriptLine,
    output: &mut O,
    moments: &mut Steps<L>,
) -> Result<(), Halt>
    requires few { calls_in stage.old < 4294967295 }
    requires soon { ticks_in stage.old + 4294967295 < 2 ^ 64 }
    requires stands { (said : Said) × (events : List Event) × StageStandsFor stage.old said events }
    ensures obeys { (said : Said) (events : List Event) → StageStandsFor stage.old said events →
        Obeys (λ es. Grew (O.held output.old) (O.held output.new) (text_of es) × FramesGrew frames.old frames.new es)
        (λ es. GrewPartly (O.held output.old) (O.held output.new) (text_of es)) (λ n. moments.new ≤ moments.old + n)
        stage.old stage.new said events says.now result }
    ensures unwritten { HaltWriteCause result (O.faults output.old) (O.faults output.new) }
    ensures counted { O.faults output.old ≤ O.faults output.new }
    ensures onward { Onward (O.way output.old) (O.way output.new) }
{
    let mut to = ToneOut::over(output, frames);
    stage.obey(alloc, says, &mut to, moments)
}
