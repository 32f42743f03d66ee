//! The point's end of a live link: what it does at each part that it reads.

ghost use Rattle.std.specs.Prelude.{◌≡◌, ◌≤◌, ◌<◌, ◌+◌, ◌++◌, ◌^◌, true, false, Some, None, IfSome, OnOk, OnErr, IfErr, MatchOption, Option};
ghost use Rattle.std.specs.List.{flat_map};
ghost use Rattle.live_link.specs.EndFault.{EndFaultCause};
ghost use Rattle.trace_fit.specs.Seats.{left_by};
ghost use Rattle.psap_machine.specs.Point.{Point};
ghost use Rattle.psap_machine.specs.PointRows.{arriving, called, heard, point_row};
ghost use Rattle.psap_machine.specs.SessionStands.{SessionStandsFor};
ghost use Rattle.trace_model.specs.History.{told};
ghost use Rattle.link_parts.specs.Messages.{part_octets, parts_of};
ghost use Rattle.live_link.specs.PointLive.{LivePoint, answers, comes_up, first_live, gives, hears_in, hears_line, hears_part, if_up, is_rung, loses, passes, resets, rings, round};
ghost use Rattle.live_link.specs.Runs.{quiet};
ghost use Rattle.link_parts.specs.declared.part.Part.TheVariants as part;
ghost use Rattle.live_link.specs.inner.PointEnd.{IsUp, PointActs, PointActsPartly, PointStandsFor, SessionIs, all_parts, is_in};

use crate::fault::EndFault;
use crate::gathering::{gather_all, put_part, tell};
use link_frames::{End, Frame, Note, Steps, Why};
use link_parts::Part;
use psap_machine::{PointEvent, Session};
use std::alloc::{AllocError, Global};
use std::sync::ledger::Ledger;
use trace_model::{Event, Listener};

/// The point's end: the session whose leg is up; the last call numbers that were drawn, rung, and had a session; the
/// tick; and the octets of what it has to send.
#[derive(Drop)]
pub(crate) struct PointEnd {
    session: Option<Session>,
    drawn: u32,
    rung: u32,
    had: u32,
    tick: u64,
    gathered: Vec<u8>,
}

/// What a session leaves: one that is over is gone.
fn left(session: Session) -> Option<Session>
    ensures { (p : Point) → SessionStandsFor session p → SessionIs result (left_by p) }
{
    if session.over() { None } else { Some(session) }
}

impl PointEnd {
    /// A point before its first round.
    pub(crate) fn new(alloc: Global) -> PointEnd
        ensures { PointStandsFor result first_live }
    {
        PointEnd {
            session: None,
            drawn: 0,
            rung: 0,
            had: 0,
            tick: 0,
            gathered: Vec::new(alloc),
        }
    }

    /// The octets of the parts that it has to send.
    pub(crate) fn gathered(&self) -> &[u8]
        ensures { result.now ≡ self.now.gathered.items }
    {
        self.gathered.as_slice()
    }

    /// Tells the items of a step, and gathers what they give to send.
    fn put<H: Listener>(
        &mut self,
        alloc: Global,
        followed: bool,
        items: &[Note],
        to: &mut H,
    ) -> Result<(), EndFault>
        ensures ok { OnOk result (H.grew to.old to.new (told self.old.tick items.now)) }
        ensures changed { self.new ≡ record self.old { gathered = self.new.gathered } }
        ensures gathered { OnOk result (self.new.gathered.items
            ≡ self.old.gathered.items ++ flat_map part_octets (parts_of followed items.now)) }
        ensures err { OnErr result (H.partly to.old to.new (told self.old.tick items.now)) }
        ensures stood { OnOk result (H.faults to.new ≡ H.faults to.old) }
        ensures cause { IfErr result (λ e. EndFaultCause e (H.faults to.old) (H.faults to.new)) }
        ensures counted { H.faults to.old ≤ H.faults to.new }
    {
        tell(alloc, self.tick, items, to)?;
        gather_all(&mut self.gathered, followed, items)?;
        Ok(())
    }

    /// Whether the session of this call is up.
    fn is_in(&self, call: u32) -> bool
        ensures { (s : LivePoint) → PointStandsFor self.now s → result ≡ is_in call s }
    {
        match &self.session {
            Some(session) => session.call() == call,
            None => false,
        }
    }

    /// The session that is up hears an event, because the other end had left the call or not; without one nothing is
    /// done.
    fn hear<H: Listener>(
        &mut self,
        alloc: Global,
        event: &PointEvent<'_>,
        followed: bool,
        to: &mut H,
    ) -> Result<(), EndFault>
        ensures ok { OnOk result (PointActs (H.grew to.old to.new) self.old self.new
            (if_up followed (heard event.now))) }
        ensures err { OnErr result (PointActsPartly (H.partly to.old to.new) self.old
            (if_up followed (heard event.now))) }
        ensures stood { OnOk result (H.faults to.new ≡ H.faults to.old) }
        ensures cause { IfErr result (λ e. EndFaultCause e (H.faults to.old) (H.faults to.new)) }
        ensures counted { H.faults to.old ≤ H.faults to.new }
    {
        match self.session.take() {
            None => Ok(()),
            Some(mut session) => {
                let items = session.hear(event);
                self.session = left(session);
                self.put(alloc, followed, items.as_slice(), to)
            }
        }
    }

    /// The session that is up is lost, and the vehicle is told so.
    #[tactic(auto, using(crate::proofs::PointSteps::lost_left))]
    fn lose<H: Listener>(&mut self, alloc: Global, to: &mut H) -> Result<(), EndFault>
        ensures ok { OnOk result (PointActs (H.grew to.old to.new) self.old self.new (λ s. loses s s.session)) }
        ensures err { OnErr result (PointActsPartly (H.partly to.old to.new) self.old (λ s. loses s s.session)) }
        ensures none { OnOk result (self.new.session ≡ None) }
        ensures same { OnOk result ((self.new.drawn ≡ self.old.drawn) × (self.new.had ≡ self.old.had)) }
        ensures stood { OnOk result (H.faults to.new ≡ H.faults to.old) }
        ensures cause { IfErr result (λ e. EndFaultCause e (H.faults to.old) (H.faults to.new)) }
        ensures counted { H.faults to.old ≤ H.faults to.new }
    {
        match self.session.take() {
            None => Ok(()),
            Some(mut session) => {
                let call = session.call();
                let items = session.hear(&PointEvent::Ended(Why::Lost));
                self.put(alloc, false, items.as_slice(), to)?;
                put_part(&mut self.gathered, &Part::Leaves(call))?;
                Ok(())
            }
        }
    }

    /// A session of this number comes up that the vehicle placed.
    fn arrive<H: Listener>(&mut self, alloc: Global, call: u32, to: &mut H) -> Result<(), EndFault>
        ensures ok { OnOk result (PointActs (H.grew to.old to.new) self.old self.new (comes_up call (arriving call))) }
        ensures err { OnErr result (PointActsPartly (H.partly to.old to.new) self.old (comes_up call (arriving call))) }
        ensures stood { OnOk result (H.faults to.new ≡ H.faults to.old) }
        ensures cause { IfErr result (λ e. EndFaultCause e (H.faults to.old) (H.faults to.new)) }
        ensures counted { H.faults to.old ≤ H.faults to.new }
    {
        let (session, items) = Session::arriving(call);
        self.had = call;
        self.session = Some(session);
        self.put(alloc, false, items.as_slice(), to)
    }

    /// A session of this number comes up that the point placed.
    fn place<H: Listener>(&mut self, alloc: Global, call: u32, to: &mut H) -> Result<(), EndFault>
        ensures ok { OnOk result (PointActs (H.grew to.old to.new) self.old self.new (comes_up call (called call))) }
        ensures err { OnErr result (PointActsPartly (H.partly to.old to.new) self.old (comes_up call (called call))) }
        ensures stood { OnOk result (H.faults to.new ≡ H.faults to.old) }
        ensures cause { IfErr result (λ e. EndFaultCause e (H.faults to.old) (H.faults to.new)) }
        ensures counted { H.faults to.old ≤ H.faults to.new }
    {
        let (session, items) = Session::called(call);
        self.had = call;
        self.session = Some(session);
        self.put(alloc, false, items.as_slice(), to)
    }

    /// The vehicle dials.
    fn answers<H: Listener>(&mut self, alloc: Global, to: &mut H) -> Result<(), EndFault>
        requires { self.old.drawn + 1 < 2 ^ 32 }
        ensures ok { OnOk result (PointActs (H.grew to.old to.new) self.old self.new (λ s. answers s)) }
        ensures err { OnErr result (PointActsPartly (H.partly to.old to.new) self.old (λ s. answers s)) }
        ensures stood { OnOk result (H.faults to.new ≡ H.faults to.old) }
        ensures cause { IfErr result (λ e. EndFaultCause e (H.faults to.old) (H.faults to.new)) }
        ensures counted { H.faults to.old ≤ H.faults to.new }
    {
        self.drawn += 1;
        let call = self.drawn;
        self.lose(alloc, to)?;
        self.arrive(alloc, call, to)?;
        put_part(&mut self.gathered, &Part::Answers(call))?;
        Ok(())
    }

    /// Whether the vehicle may take the point's call of this number.
    fn may_take(&self, call: u32) -> bool
        ensures { (s : LivePoint) → PointStandsFor self.now s → result ≡ is_rung call s }
    {
        call == self.drawn && call == self.rung && self.had < call
    }

    /// The vehicle takes the point's call.
    fn takes<H: Listener>(&mut self, alloc: Global, call: u32, to: &mut H) -> Result<(), EndFault>
        ensures ok { OnOk result (PointActs (H.grew to.old to.new) self.old self.new (λ s. hears_part s (part.Takes call))) }
        ensures err { OnErr result (PointActsPartly (H.partly to.old to.new) self.old (λ s. hears_part s (part.Takes
            call))) }
        ensures stood { OnOk result (H.faults to.new ≡ H.faults to.old) }
        ensures cause { IfErr result (λ e. EndFaultCause e (H.faults to.old) (H.faults to.new)) }
        ensures counted { H.faults to.old ≤ H.faults to.new }
    {
        if self.may_take(call) {
            self.lose(alloc, to)?;
            self.place(alloc, call, to)?;
        }
        Ok(())
    }

    /// The vehicle left a call.
    fn leaves<H: Listener>(&mut self, alloc: Global, call: u32, to: &mut H) -> Result<(), EndFault>
        ensures ok { OnOk result (PointActs (H.grew to.old to.new) self.old self.new (λ s. hears_part s (part.Leaves
            call))) }
        ensures err { OnErr result (PointActsPartly (H.partly to.old to.new) self.old (λ s. hears_part s (part.Leaves
            call))) }
        ensures stood { OnOk result (H.faults to.new ≡ H.faults to.old) }
        ensures cause { IfErr result (λ e. EndFaultCause e (H.faults to.old) (H.faults to.new)) }
        ensures counted { H.faults to.old ≤ H.faults to.new }
    {
        if self.is_in(call) {
            self.hear(alloc, &PointEvent::Ended(Why::Release), true, to)
        } else {
            Ok(())
        }
    }

    /// A frame came in a call.
    fn carries<H: Listener>(
        &mut self,
        alloc: Global,
        call: u32,
        frame: &Frame,
        to: &mut H,
    ) -> Result<(), EndFault>
        ensures ok { OnOk result (PointActs (H.grew to.old to.new) self.old self.new (λ s. hears_part s (part.Carries
            call frame.now))) }
        ensures err { OnErr result (PointActsPartly (H.partly to.old to.new) self.old (λ s. hears_part s (part.Carries
            call frame.now))) }
        ensures stood { OnOk result (H.faults to.new ≡ H.faults to.old) }
        ensures cause { IfErr result (λ e. EndFaultCause e (H.faults to.old) (H.faults to.new)) }
        ensures counted { H.faults to.old ≤ H.faults to.new }
    {
        if self.is_in(call) {
            self.hear(alloc, &PointEvent::Frame(frame.lend()), false, to)
        } else {
            Ok(())
        }
    }

    /// A part of a message; one that doesn't apply is passed over.
    fn part<H: Listener>(&mut self, alloc: Global, part: &Part, to: &mut H) -> Result<(), EndFault>
        ensures ok { OnOk result (PointActs (H.grew to.old to.new) self.old self.new (λ s. hears_part s part.now)) }
        ensures err { OnErr result (PointActsPartly (H.partly to.old to.new) self.old (λ s. hears_part s part.now)) }
        ensures stood { OnOk result (H.faults to.new ≡ H.faults to.old) }
        ensures cause { IfErr result (λ e. EndFaultCause e (H.faults to.old) (H.faults to.new)) }
        ensures counted { H.faults to.old ≤ H.faults to.new }
    {
        if self.drawn == u32::MAX {
            return Err(EndFault::Memory);
        }
        match part {
            Part::Dials => self.answers(alloc, to),
            Part::Takes(call) => self.takes(alloc, *call, to),
            Part::Leaves(call) => self.leaves(alloc, *call, to),
            Part::Carries(call, frame) => self.carries(alloc, *call, frame, to),
            Part::Answers(_) | Part::Rings(_) => Ok(()),
        }
    }

    /// The vehicle is rung with the next number.
    fn rings(&mut self) -> Result<(), AllocError>
        requires { self.old.drawn + 1 < 2 ^ 32 }
        ensures { OnOk result ((s : LivePoint) → PointStandsFor self.old s → PointStandsFor self.new (rings s).new) }
    {
        self.drawn += 1;
        self.rung = self.drawn;
        put_part(&mut self.gathered, &Part::Rings(self.drawn))
    }

    /// An item of no session.
    fn give<H: Listener>(&mut self, alloc: Global, item: Note, to: &mut H) -> Result<(), EndFault>
        ensures ok { OnOk result (PointActs (H.grew to.old to.new) self.old self.new (gives item)) }
        ensures err { OnErr result (PointActsPartly (H.partly to.old to.new) self.old (gives item)) }
        ensures stood { OnOk result (H.faults to.new ≡ H.faults to.old) }
        ensures cause { IfErr result (λ e. EndFaultCause e (H.faults to.old) (H.faults to.new)) }
        ensures counted { H.faults to.old ≤ H.faults to.new }
    {
        tell(alloc, self.tick, &[item], to)
    }

    /// The point restarts.
    fn reset<H: Listener>(&mut self, alloc: Global, to: &mut H) -> Result<(), EndFault>
        ensures ok { OnOk result (PointActs (H.grew to.old to.new) self.old self.new (λ s. resets s)) }
        ensures err { OnErr result (PointActsPartly (H.partly to.old to.new) self.old (λ s. resets s)) }
        ensures stood { OnOk result (H.faults to.new ≡ H.faults to.old) }
        ensures cause { IfErr result (λ e. EndFaultCause e (H.faults to.old) (H.faults to.new)) }
        ensures counted { H.faults to.old ≤ H.faults to.new }
    {
        self.hear(alloc, &PointEvent::Reset, false, to)?;
        self.give(alloc, Note::Restart(End::Point), to)?;
        Ok(())
    }

    /// The session of this call hears an event of the script, or nothing happens.
    fn hear_in<H: Listener>(
        &mut self,
        alloc: Global,
        call: u32,
        event: &PointEvent<'_>,
        to: &mut H,
    ) -> Result<(), EndFault>
        ensures ok { OnOk result (PointActs (H.grew to.old to.new) self.old self.new (hears_in call (heard event.now))) }
        ensures err { OnErr result (PointActsPartly (H.partly to.old to.new) self.old (hears_in call (heard event.now))) }
        ensures stood { OnOk result (H.faults to.new ≡ H.faults to.old) }
        ensures cause { IfErr result (λ e. EndFaultCause e (H.faults to.old) (H.faults to.new)) }
        ensures counted { H.faults to.old ≤ H.faults to.new }
    {
        if self.is_in(call) {
            self.hear(alloc, event, false, to)
        } else {
            self.give(alloc, Note::Nothing, to)
        }
    }

    /// A round begins: what was gathered is on its way, and a tick passes.
    #[tactic(auto, using(crate::proofs::PointSteps::due_least, crate::proofs::PointSteps::one_unit))]
    fn pass<H: Listener, L: Ledger>(
        &mut self,
        alloc: Global,
        moments: &mut Steps<L>,
        to: &mut H,
    ) -> Result<(), EndFault>
        requires { self.old.tick + 1 < 2 ^ 64 }
        ensures ok { OnOk result (PointActs (H.grew to.old to.new) self.old self.new passes) }
        ensures err { OnErr result (PointActsPartly (H.partly to.old to.new) self.old passes) }
        ensures moments { moments.new ≤ moments.old + 1 }
        ensures stood { OnOk result (H.faults to.new ≡ H.faults to.old) }
        ensures cause { IfErr result (λ e. EndFaultCause e (H.faults to.old) (H.faults to.new)) }
        ensures counted { H.faults to.old ≤ H.faults to.new }
    {
        self.gathered.clear();
        self.tick += 1;
        match self.session.take() {
            None => Ok(()),
            Some(mut session) => {
                let items = session.pass(1, moments);
                self.session = left(session);
                self.put(alloc, false, items.as_slice(), to)
            }
        }
    }

    /// A line of the script that is the point's.
    pub(crate) fn line<H: Listener>(
        &mut self,
        alloc: Global,
        event: &Event,
        to: &mut H,
    ) -> Result<(), EndFault>
        ensures ok { OnOk result (PointActs (H.grew to.old to.new) self.old self.new (λ s. hears_line s event.now)) }
        ensures err { OnErr result (PointActsPartly (H.partly to.old to.new) self.old (λ s. hears_line s event.now)) }
        ensures stood { OnOk result (H.faults to.new ≡ H.faults to.old) }
        ensures cause { IfErr result (λ e. EndFaultCause e (H.faults to.old) (H.faults to.new)) }
        ensures counted { H.faults to.old ≤ H.faults to.new }
    {
        if self.drawn == u32::MAX {
            return Err(EndFault::Memory);
        }
        match event {
            Event::Callback => {
                self.rings()?;
                Ok(())
            }
            Event::Request(call) => self.hear_in(alloc, call.number(), &PointEvent::Request, to),
            Event::Clear(call) => self.hear_in(alloc, call.number(), &PointEvent::Clear, to),
            Event::Hangup(call) => self.hear_in(alloc, call.number(), &PointEvent::Hangup, to),
            Event::Damaged(call) => self.hear_in(alloc, call.number(), &PointEvent::Damaged, to),
            Event::FaultPoint(call) => self.hear_in(alloc, call.number(), &PointEvent::Fault, to),
            Event::DropPoint(call) => {
                self.hear_in(alloc, call.number(), &PointEvent::Ended(Why::Lost), to)
            }
            Event::Reset(End::Point) => self.reset(alloc, to),
            _ => Ok(()),
        }
    }

    /// The parts of a message, in order.
    fn parts<H: Listener>(
        &mut self,
        alloc: Global,
        parts: &[Part],
        to: &mut H,
    ) -> Result<(), EndFault>
        ensures ok { OnOk result (PointActs (H.grew to.old to.new) self.old self.new (all_parts parts.now)) }
        ensures err { OnErr result (PointActsPartly (H.partly to.old to.new) self.old (all_parts parts.now)) }
        ensures stood { OnOk result (H.faults to.new ≡ H.faults to.old) }
        ensures cause { IfErr result (λ e. EndFaultCause e (H.faults to.old) (H.faults to.new)) }
        ensures counted { H.faults to.old ≤ H.faults to.new }
    {
        for part in parts {
            self.part(alloc, part, to)?;
        }
        Ok(())
    }

    /// A round whose message has these parts.
    pub(crate) fn round<H: Listener, L: Ledger>(
        &mut self,
        alloc: Global,
        parts: &[Part],
        moments: &mut Steps<L>,
        to: &mut H,
    ) -> Result<(), EndFault>
        ensures ok { OnOk result (PointActs (H.grew to.old to.new) self.old self.new (λ s. round s parts.now)) }
        ensures err { OnErr result (PointActsPartly (H.partly to.old to.new) self.old (λ s. round s parts.now)) }
        ensures moments { moments.new ≤ moments.old + 1 }
        ensures stood { OnOk result (H.faults to.new ≡ H.faults to.old) }
        ensures cause { IfErr result (λ e. EndFaultCause e (H.faults to.old) (H.faults to.new)) }
        ensures counted { H.faults to.old ≤ H.faults to.new }
    {
        if self.tick == u64::MAX {
            return Err(EndFault::Memory);
        }
        self.pass(alloc, moments, to)?;
        self.parts(alloc, parts, to)
    }
}
