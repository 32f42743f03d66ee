//! What holds of the vehicle's whole table, said of the definitions alone.

ghost use Rattle.std.specs.Prelude.{None};
ghost use Rattle.link_frames.specs.Owes.{elapsed};
ghost use Rattle.ivs_machine.specs.Vehicle.{Vehicle};
ghost use Rattle.ivs_machine.specs.VehicleKept.{IsKept};
ghost use Rattle.ivs_machine.specs.VehicleOwes.{EventOwes, VehicleOwes, comes_up, seat_of};
ghost use Rattle.ivs_machine.specs.VehicleRows.{Heard, unit_row, vehicle_row};

/// Every row keeps what the states of a vehicle keep among themselves, and owes to the world what it must: the rows of
/// events, those at which a call comes up among them, and of the unit tick.
pub fn rows_owe()
    ensures events { (e : Heard) (v : Vehicle) → IsKept v → EventOwes (comes_up e v) v e (vehicle_row v e) }
    ensures unit_tick { (v : Vehicle) → IsKept v → VehicleOwes v None (elapsed (seat_of v)) (unit_row v) }
{}
