//! What is kept of the world, and what one happening does in it.

mod acts;
mod deeds;
mod flows;
mod moments;

use crate::calls::Calls;
use crate::fault::SimFault;
use crate::happening::Happening;
use crate::room::Room;
use crate::vehicle::KeptVehicle;
use ivs_machine::Ivs;
use link_frames::Steps;
use msd_fit::Facts;
use std::alloc::Global;
use std::sync::ledger::Ledger;
use trace_model::Listener;

/// Which ends are passed where a line of elapsed time ends.
#[derive(Clone, Copy)]
pub(crate) enum Passing {
    /// All.
    All,
    /// All but the sessions that are settled.
    Waking,
}

/// A vehicle, the calls with a leg up, and all that was ever sent in them.
#[derive(Drop)]
pub(crate) struct Channel {
    pub(crate) tick: u64,
    pub(crate) vehicle: KeptVehicle,
    /// The tick up to which the vehicle was passed.
    passed: u64,
    pub(crate) drawn: u32,
    pub(crate) calls: Calls,
    /// After how many ticks a flow hands a frame over; 0 is off.
    up_flow: u32,
    down_flow: u32,
}

impl Channel {
    ghost use Rattle.std.specs.Prelude.{◌≡◌, ◌+◌, ◌^◌, ◌<◌, ◌≤◌, ℕ, OnOk, OnErr, IfOk, IfErr, if◌then◌else◌};
    ghost use Rattle.channel_sim.specs.World as model;
    ghost use Rattle.channel_sim.specs.SimFault.{CountsFaults};
    ghost use Rattle.channel_sim.specs.WorldStands.{ChannelStandsFor};
    ghost use Rattle.channel_sim.specs.Lag.{CameNow, StandsNow};
    ghost use Rattle.channel_sim.specs.inner.Happenings.{DrawsCall, IfAll, happens, happening_passes, settled_behind};

    /// The world before anything happened, with a vehicle that knows these facts. It takes no memory.
    pub(crate) fn new(alloc: Global, facts: Facts) -> Channel
        ensures stands { ChannelStandsFor result (model.first_world facts) }
        ensures calls { result.drawn ≡ 0 }
        ensures reached { result.tick ≡ 0 }
    {
        Channel {
            tick: 0,
            vehicle: KeptVehicle::of(Ivs::new(facts)),
            passed: 0,
            drawn: 0,
            calls: Calls::new(alloc),
            up_flow: 0,
            down_flow: 0,
        }
    }

    /// What one happening does. Where it is elapsed time, these ends are passed in the end.
    pub(crate) fn plays<H: Listener, L: Ledger>(
        &mut self,
        alloc: Global,
        happening: &Happening<'_>,
        passing: Passing,
        room: &mut Room,
        to: &mut H,
        moments: &mut Steps<L>,
    ) -> Result<(), SimFault>
        requires calls { DrawsCall happening.now → self.old.drawn < 4294967295 }
        requires ticks { (n : ℕ) → happening.now ≡ Happening.Elapse n → self.old.tick + n < 2 ^ 64 }
        ensures step { (settled : ℕ) (w : model.World) → StandsNow settled self.old w → settled ≤ self.old.tick →
            CameNow (H.grew to.old to.new) (H.partly to.old to.new) result
            (settled_behind happening.now passing settled self.new.tick) self.new (happens happening.now w) }
        ensures faults { CountsFaults result (H.faults to.old) (H.faults to.new) }
        ensures passes { (settled : ℕ) (w : model.World) → StandsNow settled self.old w → settled ≤ self.old.tick →
            IfAll passing (self.old.tick ≤ settled) → moments.new ≤ moments.old + happening_passes happening.now w }
    {
        let given = &mut room.given;
        match happening {
            Happening::Vehicle(event) => self.vehicle_performs(alloc, event, given, to, moments),
            Happening::Point(call, event) => self.point_line(
                alloc, *call, event, given, to, moments,
            ),
            Happening::DropVehicle => self.drop_vehicle(alloc, given, to, moments),
            Happening::DropBoth(call) => self.drop_both(alloc, *call, given, to, moments),
            Happening::Answer => self.answer(alloc, given, to),
            Happening::Callback => self.callback(alloc, given, to),
            Happening::Deliver { up, call, place } => {
                if *up {
                    self.deliver_up(alloc, *call, *place, given, to, moments)
                } else {
                    self.deliver_down(alloc, *call, *place, given, to, moments)
                }
            }
            Happening::Flow { up, delay } => {
                self.set_flow(*up, *delay);
                Ok(())
            }
            Happening::ResetPoint => self.reset_point(alloc, room, to, moments),
            Happening::Elapse(n) => self.elapses(alloc, *n, passing, room, to, moments),
        }
    }

    /// Sets the flow of a direction.
    fn set_flow(&mut self, up: bool, delay: u32)
        ensures { self.new ≡
            (if up then record self.old { up_flow = delay } else record self.old { down_flow = delay }) }
    {
        if up {
            self.up_flow = delay;
        } else {
            self.down_flow = delay;
        }
    }
}
