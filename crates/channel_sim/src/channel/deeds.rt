//! What an event line has happen at this very tick.

use super::Channel;
use crate::calls::{
    add_call, admit, has_session, hear_session, heard_frame, list_numbers, sent_frame,
};
use crate::fault::SimFault;
use crate::kept::KeptFrame;
use crate::room::{Given, Room};
use crate::telling::tell;
use ivs_machine::VehicleEvent;
use link_frames::{End, Note, Steps, Why};
use psap_machine::{PointEvent, Session};
use std::alloc::Global;
use std::sync::ledger::Ledger;
use trace_model::Listener;

impl Channel {
    ghost use Rattle.std.specs.Prelude.{true, false, ◌≡◌, ◌+◌, ◌++◌, ◌<◌, ◌≤◌, ◌↔◌, ℕ, List, [], ◌∷◌, Some, None, map, OnOk, OnErr, IfOk, IfErr, slice_get, if◌then◌else◌};
    ghost use Rattle.std.specs.Option.{option_map, is_some};
    ghost use Rattle.ivs_machine.specs.Vehicle.{vehicle_call, is_dialling, is_reachable};
    ghost use Rattle.ivs_machine.specs.VehicleRows as vehicle;
    ghost use Rattle.link_frames.specs.declared.note.Note.TheVariants as note;
    ghost use Rattle.psap_machine.specs.PointRows as point;
    ghost use Rattle.trace_model.specs.History.{told};
    ghost use Rattle.channel_sim.specs.Lines as lines;
    ghost use Rattle.channel_sim.specs.World as model;
    ghost use Rattle.channel_sim.specs.SimFault.{CountsFaults};
    ghost use Rattle.link_frames.specs.Row.{Row};
    ghost use Rattle.psap_machine.specs.Point.{Point};
    ghost use Rattle.channel_sim.specs.inner.Acts.{IsArrival};
    ghost use Rattle.channel_sim.specs.Lag.{CameNow, StandsNow};
    ghost use Rattle.channel_sim.specs.Handing.{full};

    /// Tells that a line applies to nothing.
    fn tell_nothing<H: Listener>(&self, alloc: Global, to: &mut H) -> Result<(), SimFault>
        ensures ok { OnOk result (H.grew to.old to.new (told self.now.tick (note.Nothing ∷ []))) }
        ensures err { OnErr result (H.partly to.old to.new (told self.now.tick (note.Nothing ∷ []))) }
        ensures faults { CountsFaults result (H.faults to.old) (H.faults to.new) }
    {
        tell(alloc, self.tick, &[Note::Nothing], to)
    }

    /// A line of the session of a call.
    pub(super) fn point_line<H: Listener, L: Ledger>(
        &mut self,
        alloc: Global,
        number: u32,
        event: &PointEvent<'_>,
        given: &mut Given,
        to: &mut H,
        moments: &mut Steps<L>,
    ) -> Result<(), SimFault>
        ensures step { (settled : ℕ) (w : model.World) → StandsNow settled self.old w →
            CameNow (H.grew to.old to.new) (H.partly to.old to.new) result settled self.new
            (lines.or_nothing (lines.at_point number (point.heard event.now) w) w) }
        ensures faults { CountsFaults result (H.faults to.old) (H.faults to.new) }
        ensures still { self.old.passed ≡ self.old.tick → moments.new ≡ moments.old }
    {
        if hear_session(&mut self.calls, number, self.tick, event, &mut given.own)? {
            let items = given.own.as_slice();
            self.settles(alloc, items, &mut given.other, Some(number), to, moments)
        } else {
            self.tell_nothing(alloc, to)
        }
    }

    /// The vehicle loses the call that it is in.
    pub(super) fn drop_vehicle<H: Listener, L: Ledger>(
        &mut self,
        alloc: Global,
        given: &mut Given,
        to: &mut H,
        moments: &mut Steps<L>,
    ) -> Result<(), SimFault>
        ensures step { (settled : ℕ) (w : model.World) → StandsNow settled self.old w →
            CameNow (H.grew to.old to.new) (H.partly to.old to.new) result settled self.new
            (lines.or_nothing (lines.in_its_call (vehicle_call w.vehicle) vehicle.Lost) w) }
        ensures faults { CountsFaults result (H.faults to.old) (H.faults to.new) }
        ensures still { self.old.passed ≡ self.old.tick → moments.new ≡ moments.old }
    {
        if self.vehicle.call().is_some() {
            self.vehicle_performs(alloc, &VehicleEvent::Lost, given, to, moments)
        } else {
            self.tell_nothing(alloc, to)
        }
    }

    /// Both ends lose this call.
    pub(super) fn drop_both<H: Listener, L: Ledger>(
        &mut self,
        alloc: Global,
        number: u32,
        given: &mut Given,
        to: &mut H,
        moments: &mut Steps<L>,
    ) -> Result<(), SimFault>
        ensures step { (settled : ℕ) (w : model.World) → StandsNow settled self.old w →
            CameNow (H.grew to.old to.new) (H.partly to.old to.new) result settled self.new
            (lines.or_nothing (lines.when (model.vehicle_is_in number w) (lines.Does (model.InCall number vehicle.Lost))
            ++ lines.at_point number (point.Ended Why.Lost) w) w) }
        ensures faults { CountsFaults result (H.faults to.old) (H.faults to.new) }
        ensures still { self.old.passed ≡ self.old.tick → moments.new ≡ moments.old }
    {
        let at_point = has_session(self.calls.all(), number);
        if self.vehicle.call() == Some(number) {
            self.lose_both(alloc, number, at_point, given, to, moments)
        } else {
            self.point_line(
                alloc,
                number,
                &PointEvent::Ended(Why::Lost),
                given,
                to,
                moments,
            )
        }
    }

    /// The vehicle loses this call, and then the session, where it is there.
    fn lose_both<H: Listener, L: Ledger>(
        &mut self,
        alloc: Global,
        number: u32,
        at_point: bool,
        given: &mut Given,
        to: &mut H,
        moments: &mut Steps<L>,
    ) -> Result<(), SimFault>
        ensures step { (settled : ℕ) (w : model.World) → StandsNow settled self.old w →
            model.vehicle_is_in number w ≡ true →
            CameNow (H.grew to.old to.new) (H.partly to.old to.new) result settled self.new
            (model.each lines.deed (lines.Does (model.InCall number vehicle.Lost) ∷
            lines.when at_point (lines.Does (model.Session number (point.Ended Why.Lost)))) w) }
        ensures faults { CountsFaults result (H.faults to.old) (H.faults to.new) }
        ensures still { self.old.passed ≡ self.old.tick → moments.new ≡ moments.old }
    {
        self.vehicle_performs(alloc, &VehicleEvent::Lost, given, to, moments)?;
        if at_point {
            self.session_performs(
                alloc,
                number,
                &PointEvent::Ended(Why::Lost),
                given,
                to,
                moments,
            )
        } else {
            Ok(())
        }
    }

    /// The sessions of these calls hear that the point restarts.
    fn each_session_resets<H: Listener, L: Ledger>(
        &mut self,
        alloc: Global,
        numbers: &[u32],
        given: &mut Given,
        to: &mut H,
        moments: &mut Steps<L>,
    ) -> Result<(), SimFault>
        ensures step { (settled : ℕ) (w : model.World) → StandsNow settled self.old w →
            CameNow (H.grew to.old to.new) (H.partly to.old to.new) result settled self.new
            (model.each lines.session_resets numbers.now w) }
        ensures faults { CountsFaults result (H.faults to.old) (H.faults to.new) }
        ensures still { self.old.passed ≡ self.old.tick → moments.new ≡ moments.old }
    {
        for number in numbers {
            self.session_performs(alloc, *number, &PointEvent::Reset, given, to, moments)?;
        }
        Ok(())
    }

    /// The point restarts: each session hears it, by call, and then its item stands.
    pub(super) fn reset_point<H: Listener, L: Ledger>(
        &mut self,
        alloc: Global,
        room: &mut Room,
        to: &mut H,
        moments: &mut Steps<L>,
    ) -> Result<(), SimFault>
        ensures step { (settled : ℕ) (w : model.World) → StandsNow settled self.old w →
            CameNow (H.grew to.old to.new) (H.partly to.old to.new) result settled self.new (lines.point_resets w) }
        ensures faults { CountsFaults result (H.faults to.old) (H.faults to.new) }
        ensures still { self.old.passed ≡ self.old.tick → moments.new ≡ moments.old }
    {
        list_numbers(self.calls.all(), &mut room.numbers)?;
        self.each_session_resets(alloc, &room.numbers, &mut room.given, to, moments)?;
        tell(alloc, self.tick, &[Note::Restart(End::Point)], to)
    }

    /// A call of the next number comes up at the vehicle, and then at the point.
    fn comes_up<H: Listener>(
        &mut self,
        alloc: Global,
        event: &VehicleEvent<'_>,
        session: Session,
        given: &mut Given,
        to: &mut H,
    ) -> Result<(), SimFault>
        requires { self.old.drawn < 4294967295 }
        ensures step { (settled : ℕ) (w : model.World) (e : ℕ → vehicle.Heard) (arrival : ℕ → Row Point) →
            StandsNow settled self.old w →
            vehicle_call w.vehicle ≡ None → vehicle.heard event.now ≡ e (w.drawn + 1) →
            IsArrival session given.old.other.items (arrival (w.drawn + 1)) →
            CameNow (H.grew to.old to.new) (H.partly to.old to.new) result settled self.new
            (lines.comes_up e arrival w) }
        ensures faults { CountsFaults result (H.faults to.old) (H.faults to.new) }
    {
        self.drawn += 1;
        let (number, tick) = (self.drawn, self.tick);
        add_call(&mut self.calls, alloc, number, tick)?;
        self.vehicle.hear_into(event, &mut given.own);
        self.did(alloc, given.own.as_slice(), Some(number), to)?;
        admit(&mut self.calls, number, tick, session)?;
        self.did(alloc, given.other.as_slice(), Some(number), to)
    }

    /// The point takes the call that is dialled, if one is.
    pub(super) fn answer<H: Listener>(
        &mut self,
        alloc: Global,
        given: &mut Given,
        to: &mut H,
    ) -> Result<(), SimFault>
        requires { self.old.drawn < 4294967295 }
        ensures step { (settled : ℕ) (w : model.World) → StandsNow settled self.old w →
            CameNow (H.grew to.old to.new) (H.partly to.old to.new) result settled self.new
            (lines.or_nothing (lines.when (is_dialling w.vehicle) lines.Answers) w) }
        ensures faults { CountsFaults result (H.faults to.old) (H.faults to.new) }
    {
        if !self.vehicle.dialling() {
            return self.tell_nothing(alloc, to);
        }
        let next = self.drawn + 1;
        let session = Session::arriving_into(next, &mut given.other);
        self.comes_up(alloc, &VehicleEvent::Answered(next), session, given, to)
    }

    /// The point calls the vehicle, if it is reachable.
    pub(super) fn callback<H: Listener>(
        &mut self,
        alloc: Global,
        given: &mut Given,
        to: &mut H,
    ) -> Result<(), SimFault>
        requires { self.old.drawn < 4294967295 }
        ensures step { (settled : ℕ) (w : model.World) → StandsNow settled self.old w →
            CameNow (H.grew to.old to.new) (H.partly to.old to.new) result settled self.new
            (lines.or_nothing (lines.when (is_reachable w.vehicle) lines.CallsBack) w) }
        ensures faults { CountsFaults result (H.faults to.old) (H.faults to.new) }
    {
        if !self.vehicle.reachable() {
            return self.tell_nothing(alloc, to);
        }
        let next = self.drawn + 1;
        let session = Session::called_into(next, &mut given.other);
        self.comes_up(alloc, &VehicleEvent::Incoming(next), session, given, to)
    }

    /// The frame sent up in a call at this place, from 0, if the session is there to hear it.
    fn frame_up(&self, number: u32, place: usize) -> Option<&KeptFrame>
        ensures { (settled : ℕ) (w : model.World) → StandsNow settled self.now w → option_map (λ f. full f.now) result ≡
            option_map (λ s. s.frame) (if model.point_is_in number w
            then slice_get (lines.sent_up (model.call_of number w.calls)) place else None) }
    {
        heard_frame(self.calls.all(), number, place)
    }

    /// The frame sent down in a call at this place, from 0, if the vehicle is in it.
    fn frame_down(&self, number: u32, place: usize) -> Option<&KeptFrame>
        ensures { (settled : ℕ) (w : model.World) → StandsNow settled self.now w → option_map (λ f. full f.now) result ≡
            option_map (λ s. s.frame) (if model.vehicle_is_in number w
            then slice_get (lines.sent_down (model.call_of number w.calls)) place else None) }
    {
        if self.vehicle.call() != Some(number) {
            return None;
        }
        sent_frame(self.calls.all(), number, place)
    }

    /// Hands a frame sent up in a call to the point.
    pub(super) fn deliver_up<H: Listener, L: Ledger>(
        &mut self,
        alloc: Global,
        number: u32,
        place: usize,
        given: &mut Given,
        to: &mut H,
        moments: &mut Steps<L>,
    ) -> Result<(), SimFault>
        ensures step { (settled : ℕ) (w : model.World) → StandsNow settled self.old w →
            CameNow (H.grew to.old to.new) (H.partly to.old to.new) result settled self.new
            (lines.or_nothing (if model.point_is_in number w then
            lines.hands_one lines.HandsUp number (slice_get (lines.sent_up (model.call_of number w.calls)) place)
            else []) w) }
        ensures faults { CountsFaults result (H.faults to.old) (H.faults to.new) }
        ensures still { self.old.passed ≡ self.old.tick → moments.new ≡ moments.old }
    {
        match self.frame_up(number, place) {
            Some(frame) => {
                let kept = frame.share()?;
                let event = PointEvent::Frame(kept.lend());
                self.session_performs(alloc, number, &event, given, to, moments)
            }
            None => self.tell_nothing(alloc, to),
        }
    }

    /// Hands a frame sent down in a call to the vehicle.
    pub(super) fn deliver_down<H: Listener, L: Ledger>(
        &mut self,
        alloc: Global,
        number: u32,
        place: usize,
        given: &mut Given,
        to: &mut H,
        moments: &mut Steps<L>,
    ) -> Result<(), SimFault>
        ensures step { (settled : ℕ) (w : model.World) → StandsNow settled self.old w →
            CameNow (H.grew to.old to.new) (H.partly to.old to.new) result settled self.new
            (lines.or_nothing (if model.vehicle_is_in number w then
            lines.hands_one lines.HandsDown number (slice_get (lines.sent_down (model.call_of number w.calls)) place)
            else []) w) }
        ensures faults { CountsFaults result (H.faults to.old) (H.faults to.new) }
        ensures still { self.old.passed ≡ self.old.tick → moments.new ≡ moments.old }
    {
        match self.frame_down(number, place) {
            Some(frame) => {
                let kept = frame.share()?;
                let event = VehicleEvent::Frame(kept.lend());
                self.vehicle_performs(alloc, &event, given, to, moments)
            }
            None => self.tell_nothing(alloc, to),
        }
    }
}
