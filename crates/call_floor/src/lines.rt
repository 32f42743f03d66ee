//! What a line does that is of a vehicle, of a call, or of both flows.

ghost use Rattle.std.specs.Prelude.{◌≡◌, ◌++◌, ◌∷◌, [], OnOk};

use crate::event::{CallLine, VehicleLine, VehicleNumber, alone_event, named_event};
use crate::fault::FloorFault;
use crate::floor::Floor;
use crate::listener::{FloorListener, Tagged};
use crate::live::Live;
use link_frames::{Note, Steps};
use std::alloc::{AllocError, Global};
use std::sync::ledger::Ledger;
use trace_model::{Entry, Event, Listener, Positive};

/// One more call number was drawn, for this vehicle.
fn add_number(drawn: &mut Vec<u8>, vehicle: u8) -> Result<(), AllocError>
    ensures { OnOk result (drawn.new.items ≡ drawn.old.items ++ vehicle ∷ []) }
{
    drawn.push(vehicle)?;
    Ok(())
}

/// One more call may have a leg up.
fn add_live(live: &mut Vec<Live>, call: u32, place: usize) -> Result<(), AllocError>
    ensures { OnOk result (live.new.items ≡ live.old.items ++ record { call = call; place = place } ∷ []) }
{
    live.push(Live { call, place })?;
    Ok(())
}

impl Floor {
    ghost use Rattle.std.specs.Prelude.{◌≡◌, ◌+◌, ◌<◌, ◌≤◌, ℕ, length, map};
    ghost use Rattle.channel_sim.specs.Lines as lines;
    ghost use Rattle.channel_sim.specs.World as world;
    ghost use Rattle.channel_sim.specs.WorldStands.{NeedsCall};
    ghost use Rattle.call_floor.specs.Floor as model;
    ghost use Rattle.call_floor.specs.FloorEvents.{call_event, vehicle_event};
    ghost use Rattle.call_floor.specs.FloorFault.{CountsFloorFaults};
    ghost use Rattle.call_floor.specs.FloorLines.{drawn_for, in_call, nothing_floor};
    ghost use Rattle.call_floor.specs.Tagged.{heard, FloorGrew};
    ghost use Rattle.call_floor.specs.inner.FloorAt.{CameNow, FloorNow, IsFlow, IsSeat, flow_step, seat_drawn};
    ghost use Rattle.call_floor.specs.inner.Subjects.{IsTurn, subject};

    /// The last call number drawn is this one from now on, for each vehicle.
    fn draw_on(&mut self, last: u32)
        ensures same { self.new ≡ record self.old { last = last; seats = self.new.seats } }
        ensures drawn { self.new.seats.list.items ≡ map (seat_drawn last) self.old.seats.list.items }
    {
        self.last = last;
        for place in 0..self.seats.list.len() {
            self.seats.list[place].world.draw_on(last);
        }
    }

    /// What a line does that is of the vehicle at this place, or of a call that was drawn for it.
    fn line<H: FloorListener, L: Ledger>(
        &mut self,
        alloc: Global,
        place: usize,
        event: &Event,
        to: &mut Tagged<'_, H>,
        moments: &mut Steps<L>,
    ) -> Result<(), FloorFault>
        requires place { place < length self.old.seats.list.items }
        requires turn { IsTurn (subject event.now) }
        requires calls { NeedsCall event.now → self.old.last < 4294967295 }
        ensures step { (w : model.Floor) (v : ℕ) → FloorNow self.old w → IsSeat w place v →
            CameNow (FloorGrew H.grew to.old to.new) (FloorGrew H.partly to.old to.new) result self.new
            (model.turn v (λ u. lines.step u event.now) w) }
        ensures faults { CountsFloorFaults result (H.faults (heard to.old)) (H.faults (heard to.new)) }
        ensures passes { (w : model.Floor) (v : ℕ) → FloorNow self.old w → IsSeat w place v → moments.new ≤ moments.old }
        ensures tick { self.new.tick ≡ self.old.tick }
    {
        let last = self.last;
        let seat = &mut self.seats.list[place];
        let number = seat.number;
        to.speak_for(number);
        seat.world.draw_on(last);
        seat.world.advance(alloc, event, to, moments)?;
        let now = seat.world.calls();
        if now > last {
            add_number(&mut self.drawn, number)?;
            add_live(&mut self.live, now, place)?;
            self.draw_on(now);
        }
        Ok(())
    }

    /// A line of a vehicle; nothing where it isn't there.
    pub(crate) fn vehicle_line<H: FloorListener, L: Ledger>(
        &mut self,
        alloc: Global,
        vehicle: VehicleNumber,
        line: &VehicleLine,
        to: &mut Tagged<'_, H>,
        moments: &mut Steps<L>,
    ) -> Result<(), FloorFault>
        requires { NeedsCall (vehicle_event line.now) → self.old.last < 4294967295 }
        ensures step { (w : model.Floor) → FloorNow self.old w →
            CameNow (FloorGrew H.grew to.old to.new) (FloorGrew H.partly to.old to.new) result self.new
            (model.turn vehicle (λ u. lines.step u (vehicle_event line.now)) w) }
        ensures faults { CountsFloorFaults result (H.faults (heard to.old)) (H.faults (heard to.new)) }
        ensures passes { (w : model.Floor) → FloorNow self.old w → moments.new ≤ moments.old }
        ensures tick { self.new.tick ≡ self.old.tick }
    {
        match self.seats.find(vehicle.number()) {
            Some(place) => self.line(alloc, place, &alone_event(line), to, moments),
            None => Ok(()),
        }
    }

    /// The item `nothing`, of no vehicle.
    fn tell_nothing<H: FloorListener>(
        &self,
        alloc: Global,
        to: &mut Tagged<'_, H>,
    ) -> Result<(), FloorFault>
        ensures step { (w : model.Floor) → FloorNow self.now w →
            CameNow (FloorGrew H.grew to.old to.new) (FloorGrew H.partly to.old to.new) result self.now
            (nothing_floor w) }
        ensures faults { CountsFloorFaults result (H.faults (heard to.old)) (H.faults (heard to.new)) }
    {
        to.speak_for(0);
        let entry = Entry {
            tick: self.tick,
            note: Note::Nothing,
        };
        to.hear(alloc, &entry)?;
        Ok(())
    }

    /// A line that names a call; the item `nothing` where it wasn't drawn yet.
    pub(crate) fn call_line<H: FloorListener, L: Ledger>(
        &mut self,
        alloc: Global,
        call: Positive,
        line: &CallLine,
        to: &mut Tagged<'_, H>,
        moments: &mut Steps<L>,
    ) -> Result<(), FloorFault>
        ensures step { (w : model.Floor) → FloorNow self.old w →
            CameNow (FloorGrew H.grew to.old to.new) (FloorGrew H.partly to.old to.new) result self.new
            (in_call (call_event call line.now) w (drawn_for call w.drawn)) }
        ensures faults { CountsFloorFaults result (H.faults (heard to.old)) (H.faults (heard to.new)) }
        ensures passes { (w : model.Floor) → FloorNow self.old w → moments.new ≤ moments.old }
        ensures tick { self.new.tick ≡ self.old.tick }
    {
        let index = call.number() as usize - 1;
        if index >= self.drawn.len() {
            return self.tell_nothing(alloc, to);
        }
        match self.seats.find(self.drawn[index]) {
            Some(place) => self.line(alloc, place, &named_event(call, line), to, moments),
            None => Ok(()),
        }
    }

    /// The flow up, or down, has this delay from now on, for each vehicle.
    pub(crate) fn set_flow<H: FloorListener, L: Ledger>(
        &mut self,
        alloc: Global,
        event: &Event,
        to: &mut Tagged<'_, H>,
        moments: &mut Steps<L>,
    ) -> Result<(), FloorFault>
        requires { IsFlow event.now }
        ensures step { (w : model.Floor) → FloorNow self.old w →
            CameNow (FloorGrew H.grew to.old to.new) (FloorGrew H.partly to.old to.new) result self.new
            (flow_step event.now w) }
        ensures faults { CountsFloorFaults result (H.faults (heard to.old)) (H.faults (heard to.new)) }
        ensures passes { (w : model.Floor) → FloorNow self.old w → moments.new ≤ moments.old }
        ensures tick { self.new.tick ≡ self.old.tick }
    {
        for place in 0..self.seats.list.len() {
            self.seats.list[place]
                .world
                .advance(alloc, event, to, moments)?;
        }
        Ok(())
    }
}
