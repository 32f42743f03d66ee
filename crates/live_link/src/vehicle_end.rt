//! The vehicle's end of a live link: what it does at each part that it reads, and in each round.

ghost use Rattle.std.specs.Prelude.{◌≡◌, ◌≤◌, ◌<◌, ◌+◌, ◌++◌, ◌∷◌, ◌^◌, true, false, OnOk, OnErr, IfErr};
ghost use Rattle.std.specs.List.{flat_map};
ghost use Rattle.live_link.specs.EndFault.{EndFaultCause};
ghost use Rattle.trace_model.specs.History.{told};
ghost use Rattle.link_parts.specs.Messages.{number_octets, part_octets, part_of, parts_of};
ghost use Rattle.link_parts.specs.declared.part.Part.TheVariants as part;

use crate::fault::EndFault;
use crate::gathering::{gather_all, put_part, tell};
use ivs_machine::{Ivs, VehicleEvent};
use link_frames::{End, Frame, Note, Steps};
use link_parts::Part;
use msd_fit::Facts;
use std::alloc::Global;
use std::sync::ledger::Ledger;
use trace_model::{Event, Listener};

/// The vehicle's end: the vehicle, the greatest call number that it took, the tick, and the octets of what it has to
/// send.
#[derive(Drop)]
pub(crate) struct VehicleEnd {
    ivs: Ivs,
    taken: u32,
    tick: u64,
    gathered: Vec<u8>,
}

impl VehicleEnd {
    ghost use Rattle.std.specs.Prelude.{◌&&◌, nat_lt, Some, None};
    ghost use Rattle.ivs_machine.specs.Vehicle.{is_dialling, is_reachable};
    ghost use Rattle.ivs_machine.specs.VehicleRows.{heard, vehicle_row};
    ghost use Rattle.ivs_machine.specs.VehicleRows as row;
    ghost use Rattle.link_frames.specs.Does.{Does};
    ghost use Rattle.ivs_machine.specs.IvsStands.{IvsStandsFor};
    ghost use Rattle.live_link.specs.VehicleLive.{LiveVehicle, does, first_live, hears_line, hears_part, is_in, passes, round};
    ghost use Rattle.live_link.specs.inner.VehicleEnd.{Acts, ActsPartly, EndStandsFor, all_parts};

    /// A vehicle that knows these facts, before its first round.
    pub(crate) fn new(alloc: Global, facts: Facts) -> VehicleEnd
        ensures { EndStandsFor result (first_live facts) }
    {
        VehicleEnd {
            ivs: Ivs::new(facts),
            taken: 0,
            tick: 0,
            gathered: Vec::new(alloc),
        }
    }

    /// The octets of the parts that it has to send.
    pub(crate) fn gathered(&self) -> &[u8]
        ensures { result.now ≡ self.now.gathered.items }
    {
        self.gathered.as_slice()
    }

    /// Tells the items of a step, and gathers what they give to send.
    fn put<H: Listener>(
        &mut self,
        alloc: Global,
        followed: bool,
        items: &[Note],
        to: &mut H,
    ) -> Result<(), EndFault>
        ensures ok { OnOk result (H.grew to.old to.new (told self.old.tick items.now)) }
        ensures changed { self.new ≡ record self.old { gathered = self.new.gathered } }
        ensures gathered { OnOk result (self.new.gathered.items
            ≡ self.old.gathered.items ++ flat_map part_octets (parts_of followed items.now)) }
        ensures err { OnErr result (H.partly to.old to.new (told self.old.tick items.now)) }
        ensures stood { OnOk result (H.faults to.new ≡ H.faults to.old) }
        ensures cause { IfErr result (λ e. EndFaultCause e (H.faults to.old) (H.faults to.new)) }
        ensures counted { H.faults to.old ≤ H.faults to.new }
    {
        tell(alloc, self.tick, items, to)?;
        gather_all(&mut self.gathered, followed, items)?;
        Ok(())
    }

    /// The vehicle hears an event, because the other end had left the call or not.
    fn hear<H: Listener>(
        &mut self,
        alloc: Global,
        event: &VehicleEvent<'_>,
        followed: bool,
        to: &mut H,
    ) -> Result<(), EndFault>
        ensures ok { OnOk result (Acts (H.grew to.old to.new) self.old self.new
            (λ s. does s None followed (vehicle_row s.vehicle (heard event.now)))) }
        ensures err { OnErr result (ActsPartly (H.partly to.old to.new) self.old
            (λ s. does s None followed (vehicle_row s.vehicle (heard event.now)))) }
        ensures stood { OnOk result (H.faults to.new ≡ H.faults to.old) }
        ensures cause { IfErr result (λ e. EndFaultCause e (H.faults to.old) (H.faults to.new)) }
        ensures counted { H.faults to.old ≤ H.faults to.new }
    {
        let items = self.ivs.hear(event);
        self.put(alloc, followed, items.as_slice(), to)
    }

    /// Whether its leg of this call is up.
    fn is_in(&self, call: u32) -> bool
        ensures { (s : LiveVehicle) → EndStandsFor self.now s → result ≡ is_in call s }
    {
        match self.ivs.call() {
            Some(own) => own == call,
            None => false,
        }
    }

    /// Whether it dials and takes a call of this number.
    fn takes_answer(&self, call: u32) -> bool
        ensures { (s : LiveVehicle) → EndStandsFor self.now s →
            result ≡ (is_dialling s.vehicle && nat_lt s.taken call) }
    {
        self.ivs.dialling() && self.taken < call
    }

    /// Whether it is reachable and takes a call of this number.
    fn takes_ring(&self, call: u32) -> bool
        ensures { (s : LiveVehicle) → EndStandsFor self.now s →
            result ≡ (is_reachable s.vehicle && nat_lt s.taken call) }
    {
        self.ivs.reachable() && self.taken < call
    }

    /// The point took a call.
    fn answered<H: Listener>(
        &mut self,
        alloc: Global,
        call: u32,
        to: &mut H,
    ) -> Result<(), EndFault>
        ensures ok { OnOk result (Acts (H.grew to.old to.new) self.old self.new (λ s. hears_part s (part.Answers call))) }
        ensures err { OnErr result (ActsPartly (H.partly to.old to.new) self.old (λ s. hears_part s (part.Answers call))) }
        ensures stood { OnOk result (H.faults to.new ≡ H.faults to.old) }
        ensures cause { IfErr result (λ e. EndFaultCause e (H.faults to.old) (H.faults to.new)) }
        ensures counted { H.faults to.old ≤ H.faults to.new }
    {
        if self.takes_answer(call) {
            self.taken = call;
            self.hear(alloc, &VehicleEvent::Answered(call), false, to)
        } else {
            Ok(())
        }
    }

    /// The point calls.
    fn rung<H: Listener>(&mut self, alloc: Global, call: u32, to: &mut H) -> Result<(), EndFault>
        ensures ok { OnOk result (Acts (H.grew to.old to.new) self.old self.new (λ s. hears_part s (part.Rings call))) }
        ensures err { OnErr result (ActsPartly (H.partly to.old to.new) self.old (λ s. hears_part s (part.Rings call))) }
        ensures stood { OnOk result (H.faults to.new ≡ H.faults to.old) }
        ensures cause { IfErr result (λ e. EndFaultCause e (H.faults to.old) (H.faults to.new)) }
        ensures counted { H.faults to.old ≤ H.faults to.new }
    {
        if self.takes_ring(call) {
            self.taken = call;
            self.hear(alloc, &VehicleEvent::Incoming(call), false, to)?;
            put_part(&mut self.gathered, &Part::Takes(call))?;
        }
        Ok(())
    }

    /// The point left a call.
    fn left<H: Listener>(&mut self, alloc: Global, call: u32, to: &mut H) -> Result<(), EndFault>
        ensures ok { OnOk result (Acts (H.grew to.old to.new) self.old self.new (λ s. hears_part s (part.Leaves call))) }
        ensures err { OnErr result (ActsPartly (H.partly to.old to.new) self.old (λ s. hears_part s (part.Leaves call))) }
        ensures stood { OnOk result (H.faults to.new ≡ H.faults to.old) }
        ensures cause { IfErr result (λ e. EndFaultCause e (H.faults to.old) (H.faults to.new)) }
        ensures counted { H.faults to.old ≤ H.faults to.new }
    {
        if self.is_in(call) {
            self.hear(alloc, &VehicleEvent::Hangup, true, to)
        } else {
            Ok(())
        }
    }

    /// A frame came in a call.
    fn carried<H: Listener>(
        &mut self,
        alloc: Global,
        call: u32,
        frame: &Frame,
        to: &mut H,
    ) -> Result<(), EndFault>
        ensures ok { OnOk result (Acts (H.grew to.old to.new) self.old self.new
            (λ s. hears_part s (part.Carries call frame.now))) }
        ensures err { OnErr result (ActsPartly (H.partly to.old to.new) self.old
            (λ s. hears_part s (part.Carries call frame.now))) }
        ensures stood { OnOk result (H.faults to.new ≡ H.faults to.old) }
        ensures cause { IfErr result (λ e. EndFaultCause e (H.faults to.old) (H.faults to.new)) }
        ensures counted { H.faults to.old ≤ H.faults to.new }
    {
        if self.is_in(call) {
            self.hear(alloc, &VehicleEvent::Frame(frame.lend()), false, to)
        } else {
            Ok(())
        }
    }

    /// A part of a message; one that doesn't apply is passed over.
    fn part<H: Listener>(&mut self, alloc: Global, part: &Part, to: &mut H) -> Result<(), EndFault>
        ensures ok { OnOk result (Acts (H.grew to.old to.new) self.old self.new (λ s. hears_part s part.now)) }
        ensures err { OnErr result (ActsPartly (H.partly to.old to.new) self.old (λ s. hears_part s part.now)) }
        ensures stood { OnOk result (H.faults to.new ≡ H.faults to.old) }
        ensures cause { IfErr result (λ e. EndFaultCause e (H.faults to.old) (H.faults to.new)) }
        ensures counted { H.faults to.old ≤ H.faults to.new }
    {
        match part {
            Part::Answers(call) => self.answered(alloc, *call, to),
            Part::Rings(call) => self.rung(alloc, *call, to),
            Part::Leaves(call) => self.left(alloc, *call, to),
            Part::Carries(call, frame) => self.carried(alloc, *call, frame, to),
            Part::Dials | Part::Takes(_) => Ok(()),
        }
    }

    /// A round begins: what was gathered is on its way, and a tick passes.
    #[tactic(auto, using(crate::proofs::EndSteps::due_least))]
    fn pass<H: Listener, L: Ledger>(
        &mut self,
        alloc: Global,
        moments: &mut Steps<L>,
        to: &mut H,
    ) -> Result<(), EndFault>
        requires { self.old.tick + 1 < 2 ^ 64 }
        ensures ok { OnOk result (Acts (H.grew to.old to.new) self.old self.new passes) }
        ensures err { OnErr result (ActsPartly (H.partly to.old to.new) self.old passes) }
        ensures tick { self.new.tick ≡ self.old.tick + 1 }
        ensures moments { moments.new ≡ moments.old + 1 }
        ensures stood { OnOk result (H.faults to.new ≡ H.faults to.old) }
        ensures cause { IfErr result (λ e. EndFaultCause e (H.faults to.old) (H.faults to.new)) }
        ensures counted { H.faults to.old ≤ H.faults to.new }
    {
        self.gathered.clear();
        self.tick += 1;
        let items = self.ivs.pass(1, moments);
        self.put(alloc, false, items.as_slice(), to)
    }

    /// The parts of a message, in order.
    fn parts<H: Listener>(
        &mut self,
        alloc: Global,
        parts: &[Part],
        to: &mut H,
    ) -> Result<(), EndFault>
        ensures ok { OnOk result (Acts (H.grew to.old to.new) self.old self.new (all_parts parts.now)) }
        ensures err { OnErr result (ActsPartly (H.partly to.old to.new) self.old (all_parts parts.now)) }
        ensures stood { OnOk result (H.faults to.new ≡ H.faults to.old) }
        ensures cause { IfErr result (λ e. EndFaultCause e (H.faults to.old) (H.faults to.new)) }
        ensures counted { H.faults to.old ≤ H.faults to.new }
    {
        for part in parts {
            self.part(alloc, part, to)?;
        }
        Ok(())
    }

    /// A round whose message has these parts.
    pub(crate) fn round<H: Listener, L: Ledger>(
        &mut self,
        alloc: Global,
        parts: &[Part],
        moments: &mut Steps<L>,
        to: &mut H,
    ) -> Result<(), EndFault>
        ensures ok { OnOk result (Acts (H.grew to.old to.new) self.old self.new (λ s. round s parts.now)) }
        ensures err { OnErr result (ActsPartly (H.partly to.old to.new) self.old (λ s. round s parts.now)) }
        ensures moments { moments.new ≤ moments.old + 1 }
        ensures stood { OnOk result (H.faults to.new ≡ H.faults to.old) }
        ensures cause { IfErr result (λ e. EndFaultCause e (H.faults to.old) (H.faults to.new)) }
        ensures counted { H.faults to.old ≤ H.faults to.new }
    {
        if self.tick == u64::MAX {
            return Err(EndFault::Memory);
        }
        self.pass(alloc, moments, to)?;
        self.parts(alloc, parts, to)
    }

    /// A line of the script that is the vehicle's.
    pub(crate) fn line<H: Listener>(
        &mut self,
        alloc: Global,
        event: &Event,
        to: &mut H,
    ) -> Result<(), EndFault>
        ensures ok { OnOk result (Acts (H.grew to.old to.new) self.old self.new (λ s. hears_line s event.now)) }
        ensures err { OnErr result (ActsPartly (H.partly to.old to.new) self.old (λ s. hears_line s event.now)) }
        ensures stood { OnOk result (H.faults to.new ≡ H.faults to.old) }
        ensures cause { IfErr result (λ e. EndFaultCause e (H.faults to.old) (H.faults to.new)) }
        ensures counted { H.faults to.old ≤ H.faults to.new }
    {
        match event {
            Event::Trigger(cause) => self.hear(alloc, &VehicleEvent::Trigger(*cause), false, to),
            Event::Cancel => self.hear(alloc, &VehicleEvent::Cancel, false, to),
            Event::Net(up) => self.hear(alloc, &VehicleEvent::Net(*up), false, to),
            Event::Fail => self.hear(alloc, &VehicleEvent::Failed, false, to),
            Event::Sleep => self.hear(alloc, &VehicleEvent::Sleep, false, to),
            Event::FaultVehicle => self.hear(alloc, &VehicleEvent::Fault, false, to),
            Event::DropVehicle => self.hear(alloc, &VehicleEvent::Lost, false, to),
            Event::Reset(End::Vehicle) => self.hear(alloc, &VehicleEvent::Reset, false, to),
            _ => Ok(()),
        }
    }
}
