//! The calls that may have a leg up.

ghost use Rattle.std.specs.Prelude.{◌≡◌, ℕ};
ghost use Rattle.ivs_machine.specs.Vehicle.{vehicle_call};
ghost use Rattle.trace_fit.specs.Seats.{is_number};
ghost use Rattle.channel_sim.specs.World as own;
ghost use Rattle.channel_sim.specs.WorldStands.{WorldStandsFor};
ghost use Rattle.call_floor.specs.Floor as model;
ghost use Rattle.call_floor.specs.FloorStands.{AreLive};
ghost use Rattle.call_floor.specs.inner.FloorAt.{FloorIs, Now};

use crate::seat::Seats;
use channel_sim::World;

/// A call that was drawn, and where the vehicle stands for which it was drawn, counted from 0.
#[derive(Clone, Copy)]
pub(crate) struct Live {
    pub(crate) call: u32,
    pub(crate) place: usize,
}

/// Whether the world's vehicle is in this call.
pub(crate) fn is_in_call(world: &World, call: u32) -> bool
    ensures { (u : own.World) → WorldStandsFor world.now u → result ≡ is_number call (vehicle_call u.vehicle) }
{
    match world.vehicle_call() {
        Some(number) => number == call,
        None => false,
    }
}

/// Calls that have no leg up any more are left out.
pub(crate) fn prune(live: &mut Vec<Live>, seats: &Seats)
    ensures { (w : model.Floor) → FloorIs Now seats.now.list.items w → AreLive w.stands 1 w.drawn live.old.items →
        AreLive w.stands 1 w.drawn live.new.items }
{
    let mut kept = 0;
    for i in 0..live.len() {
        let one = live[i];
        if !seats.may_be_up(one) {
            continue;
        }
        live[kept] = one;
        kept += 1;
    }
    live.truncate(kept);
}
