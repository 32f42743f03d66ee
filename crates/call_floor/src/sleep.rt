//! Which vehicles act at a tick: those whose next tick it is are woken, and asked for their next one behind it.

ghost use Rattle.std.specs.Prelude.{◌≡◌, ◌≤◌, ◌<◌, ◌+◌, ◌^◌, ℕ};
ghost use Rattle.std.specs.List.{AllByRecursion};
ghost use Rattle.channel_sim.specs.World.{World};
ghost use Rattle.channel_sim.specs.World as world;
ghost use Rattle.channel_sim.specs.WorldStands.{WorldStandsFor};
ghost use Rattle.call_floor.specs.Floor as model;
ghost use Rattle.call_floor.specs.Floor as model;
ghost use Rattle.call_floor.specs.FloorLines.{ends};
ghost use Rattle.call_floor.specs.inner.FloorAt.{FloorIs, Now, Resting, Rests};
ghost use Rattle.call_floor.specs.inner.Changes.{ArePaired, IsAsked, IsPlanned, IsWoken};

use crate::seat::{Seat, Seats};
use link_frames::Steps;
use std::sync::ledger::Ledger;

/// The vehicle reaches this tick, if it acts at it.
fn wake_one(seat: &mut Seat, tick: u64)
    ensures { IsWoken tick seat.old seat.new }
{
    if seat.next <= tick {
        seat.world.reach(tick);
    }
}

/// The vehicle is asked for its next tick, at most `limit`, if it acted at this one.
fn plan_one(seat: &mut Seat, tick: u64, limit: u64)
    ensures { IsPlanned tick seat.old seat.new }
{
    if seat.next <= tick {
        seat.next = seat.world.next_tick(limit);
    }
}

/// The vehicle is asked for its next tick, at most `limit`.
fn ask_one(seat: &mut Seat, limit: u64)
    ensures { IsAsked seat.old seat.new }
{
    seat.next = seat.world.next_tick(limit);
}

/// The vehicle's ends that lag are passed up to this tick.
fn catch_one<L: Ledger>(seat: &mut Seat, tick: u64, moments: &mut Steps<L>)
    ensures number { seat.new.number ≡ seat.old.number }
    ensures stands { (floor : ℕ) (u : World) → Rests floor seat.old u → u.tick ≡ tick → WorldStandsFor seat.new.world u }
    ensures passes { (floor : ℕ) (u : World) → Rests floor seat.old u → u.tick ≡ tick → tick < floor + 2 ^ 32 →
        moments.new ≤ moments.old + world.ends u }
{
    seat.world.reach(tick);
    seat.world.catch_all_up(moments);
}

impl Seats {
    /// Each vehicle that acts at this tick reaches it.
    pub(crate) fn wake(&mut self, tick: u64)
        ensures { ArePaired (IsWoken tick) self.old.list.items self.new.list.items }
    {
        for place in 0..self.list.len() {
            wake_one(&mut self.list[place], tick);
        }
    }

    /// Each vehicle is asked for its next tick, at most `limit`.
    pub(crate) fn ask(&mut self, limit: u64)
        ensures { ArePaired IsAsked self.old.list.items self.new.list.items }
    {
        for place in 0..self.list.len() {
            ask_one(&mut self.list[place], limit);
        }
    }

    /// Each vehicle that acted at this tick is asked for its next one, at most `limit`.
    pub(crate) fn plan(&mut self, tick: u64, limit: u64)
        ensures { ArePaired (IsPlanned tick) self.old.list.items self.new.list.items }
    {
        for place in 0..self.list.len() {
            plan_one(&mut self.list[place], tick, limit);
        }
    }

    /// The least next tick of the vehicles; at most `limit`.
    pub(crate) fn soonest(&self, limit: u64) -> u64
        ensures most { result ≤ limit }
        ensures least { AllByRecursion (λ x. result ≤ x.next) self.now.list.items }
    {
        let mut least = limit;
        for seat in &self.list {
            least = least.min(seat.next);
        }
        least
    }

    /// All ends that lag are passed up to this tick: from now on each vehicle stands as between lines.
    pub(crate) fn catch_up<L: Ledger>(&mut self, tick: u64, moments: &mut Steps<L>)
        ensures stands { (floor : ℕ) (w : model.Floor) → FloorIs (Resting floor) self.old.list.items w → w.tick ≡ tick →
            FloorIs Now self.new.list.items w }
        ensures passes { (floor : ℕ) (w : model.Floor) → FloorIs (Resting floor) self.old.list.items w → w.tick ≡ tick →
            tick < floor + 2 ^ 32 → moments.new ≤ moments.old + ends w.stands }
    {
        for place in 0..self.list.len() {
            catch_one(&mut self.list[place], tick, moments);
        }
    }
}
