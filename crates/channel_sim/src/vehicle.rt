//! The vehicle, with what is due at it.

ghost use Rattle.std.specs.Prelude.{◌≡◌, ◌≤◌, ◌<◌, ◌+◌, ◌^◌, IfSome};
ghost use Rattle.ivs_machine.specs.IvsStands.{IvsStandsFor};
ghost use Rattle.ivs_machine.specs.Vehicle.{Vehicle, vehicle_call, is_dialling, is_reachable};
ghost use Rattle.ivs_machine.specs.VehicleRows as vehicle;
ghost use Rattle.link_frames.specs.Does.{Does};
ghost use Rattle.channel_sim.specs.Lag.{VehicleLags};

use crate::quiet::pass_vehicle_known;
use ivs_machine::{Ivs, VehicleEvent};
use link_frames::{Items, Steps};
use std::marker::Model;
use std::sync::ledger::Ledger;

/// The vehicle as it is kept: what is due at it is worked out where it changes, and not at each look.
#[derive(Drop)]
pub(crate) struct KeptVehicle {
    due: Option<u32>,
    ivs: Ivs,
}

impl Model for KeptVehicle {
    ghost use Rattle.std.specs.Prelude.{◌≡◌};
    ghost use Rattle.ivs_machine.specs.declared.vehicle.Ivs.{Ivs};
    ghost use Rattle.ivs_machine.specs.IvsStands.{IvsStandsFor};
    ghost use Rattle.ivs_machine.specs.Vehicle.{Vehicle};
    ghost use Rattle.ivs_machine.specs.VehicleRows.{due_of};

    ghost Value = { Ivs };

    ghost view = { λ s. s.ivs };

    ghost invariant = { λ s. (v : Vehicle) → IvsStandsFor s.ivs v → s.due ≡ due_of v };
}

impl KeptVehicle {
    /// This vehicle, to be kept.
    pub(crate) fn of(ivs: Ivs) -> KeptVehicle
        ensures { result ≡ ivs }
    {
        KeptVehicle {
            due: ivs.due(),
            ivs,
        }
    }

    /// The vehicle itself.
    pub(crate) fn ivs(&self) -> &Ivs
        ensures { result.now ≡ self.now }
    {
        &self.ivs
    }

    /// As `Ivs::hear_into`.
    pub(crate) fn hear_into(&mut self, event: &VehicleEvent<'_>, items: &mut Items)
        ensures { Does IvsStandsFor IvsStandsFor self.old self.new items.new.items
            (λ v. vehicle.vehicle_row v (vehicle.heard event.now)) }
    {
        self.ivs.hear_into(event, items);
        self.due = self.ivs.due();
    }

    /// The vehicle is passed by ticks in which it does nothing. `items` is room.
    pub(crate) fn pass_quietly<L: Ledger>(
        &mut self,
        lag: u64,
        items: &mut Items,
        moments: &mut Steps<L>,
    )
        ensures lags { (v : Vehicle) → VehicleLags lag self.old v → VehicleLags 0 self.new v }
        ensures passes { (v : Vehicle) → VehicleLags lag self.old v → lag < 2 ^ 32 → moments.new ≤ moments.old + 1 }
        ensures still { lag ≡ 0 → moments.new ≡ moments.old }
    {
        if lag == 0 {
            return;
        }
        pass_vehicle_known(&mut self.ivs, lag, self.due, items, moments);
        self.due = self.ivs.due();
    }

    /// The vehicle is passed by ticks in which it does nothing, and hears this. Its items stand in `items`.
    pub(crate) fn reach_into<L: Ledger>(
        &mut self,
        lag: u64,
        event: &VehicleEvent<'_>,
        items: &mut Items,
        moments: &mut Steps<L>,
    )
        ensures gives { (v : Vehicle) → VehicleLags lag self.old v →
            items.new.items ≡ (vehicle.vehicle_row v (vehicle.heard event.now)).items }
        ensures stands { (v : Vehicle) → VehicleLags lag self.old v →
            IvsStandsFor self.new (vehicle.vehicle_row v (vehicle.heard event.now)).new }
        ensures passes { (v : Vehicle) → VehicleLags lag self.old v → lag < 2 ^ 32 → moments.new ≤ moments.old + 1 }
        ensures still { lag ≡ 0 → moments.new ≡ moments.old }
    {
        pass_vehicle_known(&mut self.ivs, lag, self.due, items, moments);
        self.ivs.hear_into(event, items);
        self.due = self.ivs.due();
    }

    /// After how many ticks the vehicle does something; `None` where it does nothing however many pass.
    #[inline]
    pub(crate) fn due(&self) -> Option<u32>
        ensures { (v : Vehicle) → IvsStandsFor self.now v → result ≡ vehicle.due_of v }
    {
        self.due
    }

    /// As `Ivs::pass_into`.
    pub(crate) fn pass_into<L: Ledger>(&mut self, n: u32, moments: &mut Steps<L>, items: &mut Items)
        requires least { 1 ≤ n }
        requires due { (v : Vehicle) → IvsStandsFor self.old v → IfSome (vehicle.due_of v) (λ due. n ≤ due) }
        ensures ticks { Does IvsStandsFor IvsStandsFor self.old self.new items.new.items (vehicle.units n) }
        ensures moments { moments.new ≡ moments.old + 1 }
    {
        self.ivs.pass_into(n, moments, items);
        self.due = self.ivs.due();
    }

    /// The number of the call that the vehicle is in; `None` exactly where it is in none.
    pub(crate) fn call(&self) -> Option<u32>
        ensures { (v : Vehicle) → IvsStandsFor self.now v → result ≡ vehicle_call v }
    {
        self.ivs.call()
    }

    /// Whether the vehicle is dialling.
    pub(crate) fn dialling(&self) -> bool
        ensures { (v : Vehicle) → IvsStandsFor self.now v → result ≡ is_dialling v }
    {
        self.ivs.dialling()
    }

    /// Whether the point may call the vehicle: it is in standby, and the network is there.
    pub(crate) fn reachable(&self) -> bool
        ensures { (v : Vehicle) → IvsStandsFor self.now v → result ≡ is_reachable v }
    {
        self.ivs.reachable()
    }
}
