//! The run of the point's end: its script, line by line, its rounds, and those behind its script.

ghost use Rattle.std.specs.Prelude.{◌≡◌, ◌≤◌, ◌<◌, ◌+◌, ℕ, List, [], Option, false, length, OnOk, OnErr, IfOk};
ghost use Rattle.call_io.specs.Blocks.{held, sink, way};
ghost use Rattle.call_io.specs.Bytes.{Grew, GrewPartly};
ghost use Rattle.call_io.specs.Ways.{Onward};
ghost use Rattle.line_input.specs.Taken.{LinesSoFar};
ghost use Rattle.line_input.specs.declared.reason.Reason.TheVariants as reason;
ghost use Rattle.link_frames.specs.declared.frame.End.TheVariants as «end»;
ghost use Rattle.trace_text.specs.EntryLine.{text_of};
ghost use Rattle.trace_text.specs.Script.{Said};
ghost use Rattle.live_link.specs.LiveCauses.{IsAnswerOf, LiveReadCause, LiveWriteCause};
ghost use Rattle.live_link.specs.LiveOutcome.{LiveOutcome, LiveStreams, Over, streams};
ghost use Rattle.live_link.specs.PointLive.{first_live, hears_line, round};
ghost use Rattle.live_link.specs.Runs.{beat_of, rounds_of};
ghost use Rattle.live_link.specs.Scripts.{point_over, script_from};
ghost use Rattle.live_link.specs.inner.Brought.{no_last};
ghost use Rattle.live_link.specs.inner.Going.{Answers, EndUnwritten, FindsSome, HasRead, IsOfRound, IsOfScript, IsOfSending, ReadCause, Unread, UnreadBoth, Unwritten, UnwrittenBoth, WriteCause};
ghost use Rattle.live_link.specs.inner.PointEnd.{PointActs, PointActsPartly, PointStandsFor};
ghost use Rattle.live_link.specs.inner.PointGoes.{OnFrom, PeerAt, PointBeatsFrom, PointOver, PointRoundFrom, PointTurns, ReceivesFrom, RepliesFrom};
ghost use Rattle.live_link.specs.inner.PointRun.{IsReady, MayGoOn, Stands};
ghost use Rattle.live_link.specs.inner.Receiving.{StandsBehind};
ghost use Rattle.live_link.specs.inner.ScriptGoes.{ReadsEvent};

use crate::answer::LiveStatus;
use crate::fault::EndFault;
use crate::own_lines::read_own;
use crate::point_end::PointEnd;
use crate::receiver::{Came, Receiver};
use crate::script_lines::{empty, next_line, refused};
use crate::sending::{failed, send};
use call_io::{Block, Sink, Source};
use line_input::{Lines, Reason};
use link_frames::{End, Steps};
use link_parts::Part;
use std::alloc::Global;
use std::sync::ledger::Ledger;
use trace_model::Event;
use trace_text::{ScriptLine, TextOut};

/// The point's end with what it has of its link: what it reads, the parts of the last message, and room for the next.
#[derive(Drop)]
pub(crate) struct PointSide {
    end: PointEnd,
    receiver: Receiver,
    parts: Vec<Part>,
    room: Vec<u8>,
}

/// Does what a line says, and writes its entries.
fn tell_line<O: Sink>(
    alloc: Global,
    end: &mut PointEnd,
    event: &Event,
    trace: &mut O,
) -> Result<(), EndFault>
    requires { Stands end.old }
    ensures ok { OnOk result (PointActs (λ es. Grew (O.held trace.old) (O.held trace.new) (text_of es)) end.old end.new
        (λ s. hears_line s event.now)) }
    ensures err { OnErr result (PointActsPartly (λ es. GrewPartly (O.held trace.old) (O.held trace.new) (text_of es))
        end.old (λ s. hears_line s event.now)) }
    ensures cause { EndUnwritten result (O.faults trace.old) (O.faults trace.new) }
    ensures counted { O.faults trace.old ≤ O.faults trace.new }
    ensures onward { Onward (O.way trace.old) (O.way trace.new) }
{
    let mut to = TextOut::over(trace);
    end.line(alloc, event, &mut to)
}

/// Does a round whose message has these parts, and writes its entries.
fn tell_round<O: Sink, L: Ledger>(
    alloc: Global,
    end: &mut PointEnd,
    parts: &[Part],
    trace: &mut O,
    moments: &mut Steps<L>,
) -> Result<(), EndFault>
    requires { Stands end.old }
    ensures ok { OnOk result (PointActs (λ es. Grew (O.held trace.old) (O.held trace.new) (text_of es)) end.old end.new
        (λ s. round s parts.now)) }
    ensures err { OnErr result (PointActsPartly (λ es. GrewPartly (O.held trace.old) (O.held trace.new) (text_of es))
        end.old (λ s. round s parts.now)) }
    ensures moments { moments.new ≤ moments.old + 1 }
    ensures cause { EndUnwritten result (O.faults trace.old) (O.faults trace.new) }
    ensures counted { O.faults trace.old ≤ O.faults trace.new }
    ensures onward { Onward (O.way trace.old) (O.way trace.new) }
{
    let mut to = TextOut::over(trace);
    end.round(alloc, parts, moments, &mut to)
}

impl PointSide {
    /// Before the first round.
    fn new(alloc: Global) -> PointSide
        ensures ready { IsReady result }
        ensures stands { PointStandsFor result.end first_live }
        ensures first { (start : Option (List ℕ)) → StandsBehind start start result.receiver [] }
    {
        PointSide {
            end: PointEnd::new(alloc),
            receiver: Receiver::new(),
            parts: Vec::new(alloc),
            room: Vec::new(alloc),
        }
    }

    /// Reads a message, or the end of the vehicle's script in its place.
    #[tactic(auto, using(crate::proofs::SideLemmas::point_goes_on, crate::proofs::GoingLemmas::link_of_round, crate::proofs::GoingLemmas::writing_of_round, crate::proofs::GoingLemmas::writing_unread))]
    fn receive<O: Sink, I: Source>(
        &mut self,
        trace: &mut Block<'_, O>,
        from: &mut I,
    ) -> Result<Came, LiveStatus>
        requires { IsReady self.old }
        ensures going { IfOk result (λ came. MayGoOn came self.new) }
        ensures goes { ReceivesFrom (λ script to passes. streams script (held O.held trace.old) (I.left from.old) to passes)
            (λ script to passes. streams script (held O.held trace.new) (I.left from.new) to passes) self.old self.new
            result }
        ensures answers { Answers IsOfRound result }
        ensures unread { Unread result (I.faults from.old) (I.faults from.new) }
        ensures unwritten { Unwritten result (O.faults (sink trace.old)) (O.faults (sink trace.new)) }
        ensures from_counted { I.faults from.old ≤ I.faults from.new }
        ensures trace_counted { O.faults (sink trace.old) ≤ O.faults (sink trace.new) }
        ensures onward { Onward (way O.held trace.old) (way O.held trace.new) }
    {
        empty(trace)?;
        self.receiver.receive(End::Point, from, &mut self.parts)
    }

    /// Answers a message that was read: the one that was gathered is written, and the round follows.
    fn reply<O: Sink, P: Sink, L: Ledger>(
        &mut self,
        alloc: Global,
        trace: &mut Block<'_, O>,
        to: &mut P,
        moments: &mut Steps<L>,
    ) -> Result<(), LiveStatus>
        requires { IsReady self.old }
        ensures ready { OnOk result (IsReady self.new) }
        ensures goes { RepliesFrom (λ script from. streams script (held O.held trace.old) from (P.held to.old) moments.old)
            (λ script from. streams script (held O.held trace.new) from (P.held to.new) moments.new) self.old self.new
            result }
        ensures moments { moments.new ≤ moments.old + 1 }
        ensures answers { Answers IsOfSending result }
        ensures unwritten { UnwrittenBoth result (O.faults (sink trace.old)) (O.faults (sink trace.new)) (P.faults
            to.old) (P.faults to.new) }
        ensures trace_counted { O.faults (sink trace.old) ≤ O.faults (sink trace.new) }
        ensures onward { Onward (way O.held trace.old) (way O.held trace.new) }
        ensures to_counted { P.faults to.old ≤ P.faults to.new }
    {
        send(self.end.gathered(), &mut self.room, to)?;
        match tell_round(alloc, &mut self.end, self.parts.as_slice(), trace, moments) {
            Ok(()) => Ok(()),
            Err(fault) => Err(failed(fault)),
        }
    }

    /// One round, or the end of the vehicle's script in its place.
    fn round<O: Sink, I: Source, P: Sink, L: Ledger>(
        &mut self,
        alloc: Global,
        trace: &mut Block<'_, O>,
        from: &mut I,
        to: &mut P,
        moments: &mut Steps<L>,
    ) -> Result<Came, LiveStatus>
        requires { IsReady self.old }
        ensures going { IfOk result (λ came. MayGoOn came self.new) }
        ensures goes { PointRoundFrom (λ script. streams script (held O.held trace.old) (I.left from.old) (P.held
            to.old) moments.old)
            (λ script. streams script (held O.held trace.new) (I.left from.new) (P.held to.new) moments.new) self.old
            self.new result }
        ensures moments { moments.new ≤ moments.old + 1 }
        ensures answers { Answers IsOfRound result }
        ensures unread { Unread result (I.faults from.old) (I.faults from.new) }
        ensures unwritten { UnwrittenBoth result (O.faults (sink trace.old)) (O.faults (sink trace.new)) (P.faults
            to.old) (P.faults to.new) }
        ensures from_counted { I.faults from.old ≤ I.faults from.new }
        ensures trace_counted { O.faults (sink trace.old) ≤ O.faults (sink trace.new) }
        ensures onward { Onward (way O.held trace.old) (way O.held trace.new) }
        ensures to_counted { P.faults to.old ≤ P.faults to.new }
    {
        match self.receive(trace, from)? {
            Came::ScriptEnd => Ok(Came::ScriptEnd),
            Came::Message => {
                self.reply(alloc, trace, to, moments)?;
                Ok(Came::Message)
            }
        }
    }

    /// So many rounds, or as many as come before the end of the vehicle's script.
    fn rounds<O: Sink, I: Source, P: Sink, L: Ledger>(
        &mut self,
        alloc: Global,
        count: u32,
        trace: &mut Block<'_, O>,
        from: &mut I,
        to: &mut P,
        moments: &mut Steps<L>,
    ) -> Result<Came, LiveStatus>
        requires ready { IsReady self.old }
        requires some { 0 < count }
        ensures going { IfOk result (λ came. MayGoOn came self.new) }
        ensures goes { PointBeatsFrom (λ script. streams script (held O.held trace.old) (I.left from.old) (P.held
            to.old) moments.old)
            (λ script. streams script (held O.held trace.new) (I.left from.new) (P.held to.new) moments.new) self.old
            self.new (rounds_of count) result }
        ensures moments { moments.new ≤ moments.old + count }
        ensures answers { Answers IsOfRound result }
        ensures unread { Unread result (I.faults from.old) (I.faults from.new) }
        ensures unwritten { UnwrittenBoth result (O.faults (sink trace.old)) (O.faults (sink trace.new)) (P.faults
            to.old) (P.faults to.new) }
        ensures from_counted { I.faults from.old ≤ I.faults from.new }
        ensures trace_counted { O.faults (sink trace.old) ≤ O.faults (sink trace.new) }
        ensures onward { Onward (way O.held trace.old) (way O.held trace.new) }
        ensures to_counted { P.faults to.old ≤ P.faults to.new }
    {
        for _ in 0..count {
            match self.round(alloc, trace, from, to, moments)? {
                Came::ScriptEnd => return Ok(Came::ScriptEnd),
                Came::Message => {}
            }
        }
        Ok(Came::Message)
    }

    /// Does what an event line says.
    fn obey<O: Sink, I: Source, P: Sink, L: Ledger>(
        &mut self,
        alloc: Global,
        event: &Event,
        trace: &mut Block<'_, O>,
        from: &mut I,
        to: &mut P,
        moments: &mut Steps<L>,
    ) -> Result<Came, LiveStatus>
        requires { IsReady self.old }
        ensures going { IfOk result (λ came. MayGoOn came self.new) }
        ensures goes { PointBeatsFrom (λ script. streams script (held O.held trace.old) (I.left from.old) (P.held
            to.old) moments.old)
            (λ script. streams script (held O.held trace.new) (I.left from.new) (P.held to.new) moments.new) self.old
            self.new (beat_of event.now) result }
        ensures answers { Answers IsOfRound result }
        ensures unread { Unread result (I.faults from.old) (I.faults from.new) }
        ensures unwritten { UnwrittenBoth result (O.faults (sink trace.old)) (O.faults (sink trace.new)) (P.faults
            to.old) (P.faults to.new) }
        ensures from_counted { I.faults from.old ≤ I.faults from.new }
        ensures trace_counted { O.faults (sink trace.old) ≤ O.faults (sink trace.new) }
        ensures onward { Onward (way O.held trace.old) (way O.held trace.new) }
        ensures to_counted { P.faults to.old ≤ P.faults to.new }
    {
        if let Event::Tick(ticks) = event {
            return self.rounds(alloc, ticks.number(), trace, from, to, moments);
        }
        match tell_line(alloc, &mut self.end, event, trace) {
            Ok(()) => Ok(Came::Message),
            Err(fault) => Err(failed(fault)),
        }
    }

    /// Goes on without events, up to how the run ends.
    fn go_on<O: Sink, I: Source, P: Sink, L: Ledger>(
        &mut self,
        alloc: Global,
        trace: &mut Block<'_, O>,
        from: &mut I,
        to: &mut P,
        moments: &mut Steps<L>,
    ) -> LiveStatus
        requires { IsReady self.old }
        ensures goes { OnFrom (λ script. streams script (held O.held trace.old) (I.left from.old) (P.held to.old)
            moments.old)
            (λ script. streams script (held O.held trace.new) (I.left from.new) (P.held to.new) moments.new) self.old
            result }
        ensures answers { IsAnswerOf «end».Point result }
        ensures unread { ReadCause result (I.faults from.old) (I.faults from.new) }
        ensures unwritten { LiveWriteCause result (O.faults (sink trace.old)) (O.faults (sink trace.new)) (P.faults
            to.old) (P.faults to.new) }
        ensures from_counted { I.faults from.old ≤ I.faults from.new }
        ensures trace_counted { O.faults (sink trace.old) ≤ O.faults (sink trace.new) }
        ensures onward { Onward (way O.held trace.old) (way O.held trace.new) }
        ensures to_counted { P.faults to.old ≤ P.faults to.new }
    {
        for _ in 0..u64::MAX {
            match self.round(alloc, trace, from, to, moments) {
                Ok(Came::Message) => {}
                Ok(Came::ScriptEnd) => return LiveStatus::Done,
                Err(status) => return status,
            }
        }
        LiveStatus::Memory
    }

    /// Reads a line and does what it says; an error is how the run ends.
    fn turn<S: Source, O: Sink, I: Source, P: Sink, L: Ledger>(
        &mut self,
        alloc: Global,
        lines: &mut Lines,
        script: &mut S,
        trace: &mut Block<'_, O>,
        from: &mut I,
        to: &mut P,
        moments: &mut Steps<L>,
    ) -> Result<(), LiveStatus>
        requires ready { IsReady self.old }
        requires alive { lines.old.failed ≡ false }
        ensures ready { OnOk result (IsReady self.new) }
        ensures goes { (over : Over) (start : LiveStreams) →
            PointOver over start (streams (S.left script.old) (held O.held trace.old) (I.left from.old) (P.held to.old)
            moments.old) self.old lines.old →
            PointTurns over start (streams (S.left script.new) (held O.held trace.new) (I.left from.new) (P.held
            to.new) moments.new) self.new lines.new result }
        ensures read { OnOk result (HasRead lines.old lines.new) }
        ensures answers { Answers (IsAnswerOf «end».Point) result }
        ensures unread { UnreadBoth result (S.faults script.old) (S.faults script.new) (I.faults from.old) (I.faults
            from.new) }
        ensures unwritten { UnwrittenBoth result (O.faults (sink trace.old)) (O.faults (sink trace.new)) (P.faults
            to.old) (P.faults to.new) }
        ensures script_counted { S.faults script.old ≤ S.faults script.new }
        ensures from_counted { I.faults from.old ≤ I.faults from.new }
        ensures trace_counted { O.faults (sink trace.old) ≤ O.faults (sink trace.new) }
        ensures onward { Onward (way O.held trace.old) (way O.held trace.new) }
        ensures to_counted { P.faults to.old ≤ P.faults to.new }
    {
        match read_event(lines, script, trace)? {
            None => Err(self.go_on(alloc, trace, from, to, moments)),
            Some(event) => match self.obey(alloc, &event, trace, from, to, moments)? {
                Came::Message => Ok(()),
                Came::ScriptEnd => Err(end_peer(lines, script, trace)),
            },
        }
    }
}

/// Reads a line that says something; none is the end of the script.
fn read_event<S: Source, O: Sink>(
    lines: &mut Lines,
    script: &mut S,
    trace: &mut Block<'_, O>,
) -> Result<Option<Event>, LiveStatus>
    requires { lines.old.failed ≡ false }
    ensures finds { FindsSome lines.old lines.new result }
    ensures reads { ReadsEvent «end».Point reason.Word lines.old lines.new (S.left script.old) (S.left script.new) result }
    ensures held { held O.held trace.new ≡ held O.held trace.old }
    ensures answers { Answers IsOfScript result }
    ensures unread { Unread result (S.faults script.old) (S.faults script.new) }
    ensures unwritten { Unwritten result (O.faults (sink trace.old)) (O.faults (sink trace.new)) }
    ensures script_counted { S.faults script.old ≤ S.faults script.new }
    ensures trace_counted { O.faults (sink trace.old) ≤ O.faults (sink trace.new) }
    ensures onward { Onward (way O.held trace.old) (way O.held trace.new) }
{
    let found = next_line(lines, script, trace)?;
    if !found {
        return Ok(None);
    }
    let line = lines.line();
    match read_own(End::Point, line.text()) {
        Err(reason) => Err(refused(line.number(), reason)),
        Ok(ScriptLine::Event(event)) => Ok(Some(event)),
        Ok(ScriptLine::Fact(_)) => Err(refused(line.number(), Reason::Word)),
    }
}

/// The vehicle's script is at its end: the next line of the point's decides how the run ends.
fn end_peer<S: Source, O: Sink>(
    lines: &mut Lines,
    script: &mut S,
    trace: &mut Block<'_, O>,
) -> LiveStatus
    requires { lines.old.failed ≡ false }
    ensures goes { (over : Over) (start : LiveStreams) (from to : Option (List ℕ)) (passes : ℕ) (seen : List (List ℕ))
        (said : Said) →
        LinesSoFar start.script (S.left script.old) lines.old seen →
        PeerAt over start (streams (S.left script.old) (held O.held trace.old) from to passes) seen
        (script_from «end».Point said (length seen + 1)) →
        LiveOutcome no_last over start (streams (S.left script.new) (held O.held trace.new) from to passes) result }
    ensures answers { IsAnswerOf «end».Point result }
    ensures unread { ReadCause result (S.faults script.old) (S.faults script.new) }
    ensures unwritten { WriteCause result (O.faults (sink trace.old)) (O.faults (sink trace.new)) }
    ensures script_counted { S.faults script.old ≤ S.faults script.new }
    ensures trace_counted { O.faults (sink trace.old) ≤ O.faults (sink trace.new) }
    ensures onward { Onward (way O.held trace.old) (way O.held trace.new) }
{
    match read_event(lines, script, trace) {
        Ok(None) => LiveStatus::Done,
        Ok(Some(_)) => LiveStatus::PeerEnded,
        Err(status) => status,
    }
}

/// Runs the point's end up to how it ends.
pub(crate) fn run_point<S: Source, O: Sink, I: Source, P: Sink, L: Ledger>(
    alloc: Global,
    script: &mut S,
    trace: &mut Block<'_, O>,
    from: &mut I,
    to: &mut P,
    moments: &mut Steps<L>,
) -> LiveStatus
    ensures goes { LiveOutcome no_last point_over (streams (S.left script.old) (held O.held trace.old) (I.left
        from.old) (P.held to.old) moments.old)
        (streams (S.left script.new) (held O.held trace.new) (I.left from.new) (P.held to.new) moments.new) result }
    ensures answers { IsAnswerOf «end».Point result }
    ensures unread { LiveReadCause result (S.faults script.old) (S.faults script.new) (I.faults from.old) (I.faults
        from.new) }
    ensures unwritten { LiveWriteCause result (O.faults (sink trace.old)) (O.faults (sink trace.new)) (P.faults to.old)
        (P.faults to.new) }
    ensures script_counted { S.faults script.old ≤ S.faults script.new }
    ensures from_counted { I.faults from.old ≤ I.faults from.new }
    ensures trace_counted { O.faults (sink trace.old) ≤ O.faults (sink trace.new) }
    ensures onward { Onward (way O.held trace.old) (way O.held trace.new) }
    ensures to_counted { P.faults to.old ≤ P.faults to.new }
{
    let mut lines = Lines::new();
    let mut side = PointSide::new(alloc);
    loop {
        if let Err(status) = side.turn(alloc, &mut lines, script, trace, from, to, moments) {
            return status;
        }
    }
}
