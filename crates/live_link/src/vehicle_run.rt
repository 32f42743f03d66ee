//! The run of the vehicle's end: its script, line by line, and its rounds.

ghost use Rattle.std.specs.Prelude.{◌≡◌, ◌≤◌, ◌<◌, ◌+◌, false, [], OnOk, OnErr, ℕ, List, Option};
ghost use Rattle.call_io.specs.Blocks.{held, sink, way};
ghost use Rattle.call_io.specs.Bytes.{Grew, GrewPartly};
ghost use Rattle.call_io.specs.Ways.{Onward};
ghost use Rattle.line_input.specs.Lines.{most_bytes};
ghost use Rattle.line_input.specs.declared.reason.Reason.TheVariants as reason;
ghost use Rattle.link_frames.specs.declared.frame.End.TheVariants as «end»;
ghost use Rattle.trace_text.specs.EntryLine.{text_of};
ghost use Rattle.trace_text.specs.declared.script.ScriptLine.TheVariants as line;
ghost use Rattle.live_link.specs.LiveCauses.{IsAnswerOf, LiveReadCause, LiveWriteCause};
ghost use Rattle.live_link.specs.LiveOutcome.{LiveOutcome, LiveStreams, Over, streams};
ghost use Rattle.live_link.specs.Runs.{beat_of, rounds_of};
ghost use Rattle.live_link.specs.Scripts.{vehicle_over};
ghost use Rattle.live_link.specs.VehicleLive.{hears_line, round, first_live};
ghost use Rattle.live_link.specs.inner.Brought.{no_last};
ghost use Rattle.live_link.specs.inner.FrontGoes.{IsFront};
ghost use Rattle.live_link.specs.inner.Going.{Answers, EndUnwritten, FindsSome, HasRead, IsOfRound, IsOfScript, Unread, UnreadBoth, Unwritten, UnwrittenBoth, WriteCause};
ghost use Rattle.live_link.specs.inner.Receiving.{StandsBehind};
ghost use Rattle.live_link.specs.inner.ScriptGoes.{ReadsEvent};
ghost use Rattle.live_link.specs.inner.VehicleEnd.{Acts, ActsPartly, EndStandsFor};
ghost use Rattle.live_link.specs.inner.VehicleGoes.{BeatsFrom, EndsFrom, ExchangesFrom, RoundFrom, TurnsFrom, outside};
ghost use Rattle.live_link.specs.inner.VehicleRun.{EndsScript, IsReady, MayRun, Stands};

use crate::answer::LiveStatus;
use crate::fault::EndFault;
use crate::own_lines::read_own;
use crate::receiver::Receiver;
use crate::script_lines::{empty, next_line, refused};
use crate::sending::{failed, send};
use crate::vehicle_end::VehicleEnd;
use crate::vehicle_front::{Front, read_front};
use call_io::{Block, Sink, Source, write_all};
use line_input::{Lines, Reason};
use link_frames::{End, Steps};
use link_parts::{Part, SCRIPT_END};
use msd_fit::Facts;
use std::alloc::Global;
use std::sync::ledger::Ledger;
use trace_model::Event;
use trace_text::{ScriptLine, TextOut};

/// The vehicle's end with what it has of its link: what it reads, the parts of the last message, and room for the next.
#[derive(Drop)]
pub(crate) struct VehicleSide {
    end: VehicleEnd,
    receiver: Receiver,
    parts: Vec<Part>,
    room: Vec<u8>,
}

/// Does what a line says, and writes its entries.
fn tell_line<O: Sink>(
    alloc: Global,
    end: &mut VehicleEnd,
    event: &Event,
    trace: &mut O,
) -> Result<(), EndFault>
    requires { Stands end.old }
    ensures ok { OnOk result (Acts (λ es. Grew (O.held trace.old) (O.held trace.new) (text_of es)) end.old end.new
        (λ s. hears_line s event.now)) }
    ensures err { OnErr result (ActsPartly (λ es. GrewPartly (O.held trace.old) (O.held trace.new) (text_of es)) end.old
        (λ s. hears_line s event.now)) }
    ensures cause { EndUnwritten result (O.faults trace.old) (O.faults trace.new) }
    ensures counted { O.faults trace.old ≤ O.faults trace.new }
    ensures onward { Onward (O.way trace.old) (O.way trace.new) }
{
    let mut to = TextOut::over(trace);
    end.line(alloc, event, &mut to)
}

/// Does a round whose message has these parts, and writes its entries.
fn tell_round<O: Sink, L: Ledger>(
    alloc: Global,
    end: &mut VehicleEnd,
    parts: &[Part],
    trace: &mut O,
    moments: &mut Steps<L>,
) -> Result<(), EndFault>
    requires { Stands end.old }
    ensures ok { OnOk result (Acts (λ es. Grew (O.held trace.old) (O.held trace.new) (text_of es)) end.old end.new
        (λ s. round s parts.now)) }
    ensures err { OnErr result (ActsPartly (λ es. GrewPartly (O.held trace.old) (O.held trace.new) (text_of es)) end.old
        (λ s. round s parts.now)) }
    ensures moments { moments.new ≤ moments.old + 1 }
    ensures cause { EndUnwritten result (O.faults trace.old) (O.faults trace.new) }
    ensures counted { O.faults trace.old ≤ O.faults trace.new }
    ensures onward { Onward (O.way trace.old) (O.way trace.new) }
{
    let mut to = TextOut::over(trace);
    end.round(alloc, parts, moments, &mut to)
}

impl VehicleSide {
    /// Before the first round, with these facts.
    fn new(alloc: Global, facts: Facts) -> VehicleSide
        ensures ready { IsReady result }
        ensures stands { EndStandsFor result.end (first_live facts) }
        ensures first { (start : Option (List ℕ)) → StandsBehind start start result.receiver [] }
    {
        VehicleSide {
            end: VehicleEnd::new(alloc, facts),
            receiver: Receiver::new(),
            parts: Vec::new(alloc),
            room: Vec::new(alloc),
        }
    }

    /// Writes a message, and then reads one.
    #[tactic(auto, using(crate::proofs::GoingLemmas::vehicle_reads_on, crate::proofs::GoingLemmas::link_unwritten, crate::proofs::GoingLemmas::sending_unread, crate::proofs::GoingLemmas::first_unwritten, crate::proofs::GoingLemmas::second_unwritten))]
    fn exchange<O: Sink, I: Source, P: Sink>(
        &mut self,
        trace: &mut Block<'_, O>,
        from: &mut I,
        to: &mut P,
    ) -> Result<(), LiveStatus>
        requires { IsReady self.old }
        ensures ready { OnOk result (IsReady self.new) }
        ensures goes { ExchangesFrom (outside (held O.held trace.old) (I.left from.old) (P.held to.old))
            (outside (held O.held trace.new) (I.left from.new) (P.held to.new)) self.old self.new result }
        ensures answers { Answers IsOfRound result }
        ensures unread { Unread result (I.faults from.old) (I.faults from.new) }
        ensures unwritten { UnwrittenBoth result (O.faults (sink trace.old)) (O.faults (sink trace.new)) (P.faults
            to.old) (P.faults to.new) }
        ensures from_counted { I.faults from.old ≤ I.faults from.new }
        ensures trace_counted { O.faults (sink trace.old) ≤ O.faults (sink trace.new) }
        ensures onward { Onward (way O.held trace.old) (way O.held trace.new) }
        ensures to_counted { P.faults to.old ≤ P.faults to.new }
    {
        empty(trace)?;
        send(self.end.gathered(), &mut self.room, to)?;
        self.receiver.receive(End::Vehicle, from, &mut self.parts)?;
        Ok(())
    }

    /// One round.
    fn round<O: Sink, I: Source, P: Sink, L: Ledger>(
        &mut self,
        alloc: Global,
        trace: &mut Block<'_, O>,
        from: &mut I,
        to: &mut P,
        moments: &mut Steps<L>,
    ) -> Result<(), LiveStatus>
        requires { IsReady self.old }
        ensures ready { OnOk result (IsReady self.new) }
        ensures goes { RoundFrom (λ script. streams script (held O.held trace.old) (I.left from.old) (P.held to.old)
            moments.old)
            (λ script. streams script (held O.held trace.new) (I.left from.new) (P.held to.new) moments.new) self.old
            self.new result }
        ensures moments { moments.new ≤ moments.old + 1 }
        ensures answers { Answers IsOfRound result }
        ensures unread { Unread result (I.faults from.old) (I.faults from.new) }
        ensures unwritten { UnwrittenBoth result (O.faults (sink trace.old)) (O.faults (sink trace.new)) (P.faults
            to.old) (P.faults to.new) }
        ensures from_counted { I.faults from.old ≤ I.faults from.new }
        ensures trace_counted { O.faults (sink trace.old) ≤ O.faults (sink trace.new) }
        ensures onward { Onward (way O.held trace.old) (way O.held trace.new) }
        ensures to_counted { P.faults to.old ≤ P.faults to.new }
    {
        self.exchange(trace, from, to)?;
        match tell_round(alloc, &mut self.end, self.parts.as_slice(), trace, moments) {
            Ok(()) => Ok(()),
            Err(fault) => Err(failed(fault)),
        }
    }

    /// So many rounds.
    fn rounds<O: Sink, I: Source, P: Sink, L: Ledger>(
        &mut self,
        alloc: Global,
        count: u32,
        trace: &mut Block<'_, O>,
        from: &mut I,
        to: &mut P,
        moments: &mut Steps<L>,
    ) -> Result<(), LiveStatus>
        requires ready { IsReady self.old }
        requires some { 0 < count }
        ensures ready { OnOk result (IsReady self.new) }
        ensures goes { BeatsFrom (λ script. streams script (held O.held trace.old) (I.left from.old) (P.held to.old)
            moments.old)
            (λ script. streams script (held O.held trace.new) (I.left from.new) (P.held to.new) moments.new) self.old
            self.new (rounds_of count) result }
        ensures moments { moments.new ≤ moments.old + count }
        ensures answers { Answers IsOfRound result }
        ensures unread { Unread result (I.faults from.old) (I.faults from.new) }
        ensures unwritten { UnwrittenBoth result (O.faults (sink trace.old)) (O.faults (sink trace.new)) (P.faults
            to.old) (P.faults to.new) }
        ensures from_counted { I.faults from.old ≤ I.faults from.new }
        ensures trace_counted { O.faults (sink trace.old) ≤ O.faults (sink trace.new) }
        ensures onward { Onward (way O.held trace.old) (way O.held trace.new) }
        ensures to_counted { P.faults to.old ≤ P.faults to.new }
    {
        for _ in 0..count {
            self.round(alloc, trace, from, to, moments)?;
        }
        Ok(())
    }

    /// Does what an event line says.
    fn obey<O: Sink, I: Source, P: Sink, L: Ledger>(
        &mut self,
        alloc: Global,
        event: &Event,
        trace: &mut Block<'_, O>,
        from: &mut I,
        to: &mut P,
        moments: &mut Steps<L>,
    ) -> Result<(), LiveStatus>
        requires { IsReady self.old }
        ensures ready { OnOk result (IsReady self.new) }
        ensures goes { BeatsFrom (λ script. streams script (held O.held trace.old) (I.left from.old) (P.held to.old)
            moments.old)
            (λ script. streams script (held O.held trace.new) (I.left from.new) (P.held to.new) moments.new) self.old
            self.new (beat_of event.now) result }
        ensures answers { Answers IsOfRound result }
        ensures unread { Unread result (I.faults from.old) (I.faults from.new) }
        ensures unwritten { UnwrittenBoth result (O.faults (sink trace.old)) (O.faults (sink trace.new)) (P.faults
            to.old) (P.faults to.new) }
        ensures from_counted { I.faults from.old ≤ I.faults from.new }
        ensures trace_counted { O.faults (sink trace.old) ≤ O.faults (sink trace.new) }
        ensures onward { Onward (way O.held trace.old) (way O.held trace.new) }
        ensures to_counted { P.faults to.old ≤ P.faults to.new }
    {
        if let Event::Tick(ticks) = event {
            return self.rounds(alloc, ticks.number(), trace, from, to, moments);
        }
        match tell_line(alloc, &mut self.end, event, trace) {
            Ok(()) => Ok(()),
            Err(fault) => Err(failed(fault)),
        }
    }

    /// Does what an event line says, and reads the next; an error is how the run ends.
    fn turn<S: Source, O: Sink, I: Source, P: Sink, L: Ledger>(
        &mut self,
        alloc: Global,
        lines: &mut Lines,
        event: &Event,
        script: &mut S,
        trace: &mut Block<'_, O>,
        from: &mut I,
        to: &mut P,
        moments: &mut Steps<L>,
    ) -> Result<Event, LiveStatus>
        requires ready { IsReady self.old }
        requires alive { lines.old.failed ≡ false }
        ensures ready { OnOk result (IsReady self.new) }
        ensures read { OnOk result (HasRead lines.old lines.new) }
        ensures goes { TurnsFrom (streams (S.left script.old) (held O.held trace.old) (I.left from.old) (P.held to.old)
            moments.old)
            (streams (S.left script.new) (held O.held trace.new) (I.left from.new) (P.held to.new) moments.new)
            self.old self.new lines.old lines.new event.now result }
        ensures answers { Answers (IsAnswerOf «end».Vehicle) result }
        ensures unread { UnreadBoth result (S.faults script.old) (S.faults script.new) (I.faults from.old) (I.faults
            from.new) }
        ensures unwritten { UnwrittenBoth result (O.faults (sink trace.old)) (O.faults (sink trace.new)) (P.faults
            to.old) (P.faults to.new) }
        ensures script_counted { S.faults script.old ≤ S.faults script.new }
        ensures from_counted { I.faults from.old ≤ I.faults from.new }
        ensures trace_counted { O.faults (sink trace.old) ≤ O.faults (sink trace.new) }
        ensures onward { Onward (way O.held trace.old) (way O.held trace.new) }
        ensures to_counted { P.faults to.old ≤ P.faults to.new }
    {
        self.obey(alloc, event, trace, from, to, moments)?;
        match read_event(lines, script, trace)? {
            Some(next) => Ok(next),
            None => Err(end_script(to)),
        }
    }

    /// Runs the vehicle's end from this event on.
    fn run<S: Source, O: Sink, I: Source, P: Sink, L: Ledger>(
        &mut self,
        alloc: Global,
        lines: &mut Lines,
        first: Event,
        script: &mut S,
        trace: &mut Block<'_, O>,
        from: &mut I,
        to: &mut P,
        moments: &mut Steps<L>,
    ) -> LiveStatus
        requires ready { IsReady self.old }
        requires alive { lines.old.failed ≡ false }
        requires few { lines.old.lines ≤ most_bytes }
        ensures goes { EndsFrom (streams (S.left script.old) (held O.held trace.old) (I.left from.old) (P.held to.old)
            moments.old)
            (streams (S.left script.new) (held O.held trace.new) (I.left from.new) (P.held to.new) moments.new)
            self.old lines.old first result }
        ensures answers { IsAnswerOf «end».Vehicle result }
        ensures unread { LiveReadCause result (S.faults script.old) (S.faults script.new) (I.faults from.old) (I.faults
            from.new) }
        ensures unwritten { LiveWriteCause result (O.faults (sink trace.old)) (O.faults (sink trace.new)) (P.faults
            to.old) (P.faults to.new) }
        ensures script_counted { S.faults script.old ≤ S.faults script.new }
        ensures from_counted { I.faults from.old ≤ I.faults from.new }
        ensures trace_counted { O.faults (sink trace.old) ≤ O.faults (sink trace.new) }
        ensures onward { Onward (way O.held trace.old) (way O.held trace.new) }
        ensures to_counted { P.faults to.old ≤ P.faults to.new }
    {
        let mut event = first;
        loop {
            match self.turn(alloc, lines, &event, script, trace, from, to, moments) {
                Ok(next) => event = next,
                Err(status) => return status,
            }
        }
    }
}

/// Runs the vehicle's end up to how it ends.
pub(crate) fn run_vehicle<S: Source, O: Sink, I: Source, P: Sink, L: Ledger>(
    alloc: Global,
    script: &mut S,
    trace: &mut Block<'_, O>,
    from: &mut I,
    to: &mut P,
    moments: &mut Steps<L>,
) -> LiveStatus
    ensures goes { LiveOutcome no_last vehicle_over (streams (S.left script.old) (held O.held trace.old) (I.left
        from.old) (P.held to.old) moments.old)
        (streams (S.left script.new) (held O.held trace.new) (I.left from.new) (P.held to.new) moments.new) result }
    ensures answers { IsAnswerOf «end».Vehicle result }
    ensures unread { LiveReadCause result (S.faults script.old) (S.faults script.new) (I.faults from.old) (I.faults
        from.new) }
    ensures unwritten { LiveWriteCause result (O.faults (sink trace.old)) (O.faults (sink trace.new)) (P.faults to.old)
        (P.faults to.new) }
    ensures script_counted { S.faults script.old ≤ S.faults script.new }
    ensures from_counted { I.faults from.old ≤ I.faults from.new }
    ensures trace_counted { O.faults (sink trace.old) ≤ O.faults (sink trace.new) }
    ensures onward { Onward (way O.held trace.old) (way O.held trace.new) }
    ensures to_counted { P.faults to.old ≤ P.faults to.new }
{
    let mut lines = Lines::new();
    match read_front(&mut lines, script, trace) {
        Ok(front) => run_behind(alloc, &mut lines, front, script, trace, from, to, moments),
        Err(status) => status,
    }
}

/// Runs the vehicle's end behind the facts of its script.
fn run_behind<S: Source, O: Sink, I: Source, P: Sink, L: Ledger>(
    alloc: Global,
    lines: &mut Lines,
    front: Front,
    script: &mut S,
    trace: &mut Block<'_, O>,
    from: &mut I,
    to: &mut P,
    moments: &mut Steps<L>,
) -> LiveStatus
    requires { MayRun front lines.old }
    ensures goes { (over : Over) (start : LiveStreams) →
        IsFront over start (streams (S.left script.old) (held O.held trace.old) (I.left from.old) (P.held to.old)
        moments.old) lines.old front →
        LiveOutcome no_last over start (streams (S.left script.new) (held O.held trace.new) (I.left from.new) (P.held
        to.new) moments.new) result }
    ensures answers { IsAnswerOf «end».Vehicle result }
    ensures unread { LiveReadCause result (S.faults script.old) (S.faults script.new) (I.faults from.old) (I.faults
        from.new) }
    ensures unwritten { LiveWriteCause result (O.faults (sink trace.old)) (O.faults (sink trace.new)) (P.faults to.old)
        (P.faults to.new) }
    ensures script_counted { S.faults script.old ≤ S.faults script.new }
    ensures from_counted { I.faults from.old ≤ I.faults from.new }
    ensures trace_counted { O.faults (sink trace.old) ≤ O.faults (sink trace.new) }
    ensures onward { Onward (way O.held trace.old) (way O.held trace.new) }
    ensures to_counted { P.faults to.old ≤ P.faults to.new }
{
    match front {
        Front::End => end_script(to),
        Front::First(facts, event) => {
            let mut side = VehicleSide::new(alloc, facts);
            side.run(alloc, lines, event, script, trace, from, to, moments)
        }
    }
}

/// The script is at its end.
fn end_script<P: Sink>(to: &mut P) -> LiveStatus
    ensures ends { EndsScript (P.held to.old) (P.held to.new) result }
    ensures unwritten { WriteCause result (P.faults to.old) (P.faults to.new) }
    ensures counted { P.faults to.old ≤ P.faults to.new }
{
    match write_all(to, &[SCRIPT_END]) {
        Ok(()) => LiveStatus::Done,
        Err(_) => LiveStatus::WriteFault,
    }
}

/// Reads a line behind the first event; none is the end of the script.
fn read_event<S: Source, O: Sink>(
    lines: &mut Lines,
    script: &mut S,
    trace: &mut Block<'_, O>,
) -> Result<Option<Event>, LiveStatus>
    requires { lines.old.failed ≡ false }
    ensures finds { FindsSome lines.old lines.new result }
    ensures reads { ReadsEvent «end».Vehicle reason.Late lines.old lines.new (S.left script.old) (S.left script.new) result }
    ensures held { held O.held trace.new ≡ held O.held trace.old }
    ensures answers { Answers IsOfScript result }
    ensures unread { Unread result (S.faults script.old) (S.faults script.new) }
    ensures unwritten { Unwritten result (O.faults (sink trace.old)) (O.faults (sink trace.new)) }
    ensures script_counted { S.faults script.old ≤ S.faults script.new }
    ensures trace_counted { O.faults (sink trace.old) ≤ O.faults (sink trace.new) }
    ensures onward { Onward (way O.held trace.old) (way O.held trace.new) }
{
    let found = next_line(lines, script, trace)?;
    if !found {
        return Ok(None);
    }
    let line = lines.line();
    match read_own(End::Vehicle, line.text()) {
        Err(reason) => Err(refused(line.number(), reason)),
        Ok(ScriptLine::Fact(_)) => Err(refused(line.number(), Reason::Late)),
        Ok(ScriptLine::Event(event)) => Ok(Some(event)),
    }
}
