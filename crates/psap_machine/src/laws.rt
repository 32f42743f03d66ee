//! What holds of the point's whole table, said of the definitions alone.

ghost use Rattle.std.specs.Prelude.{ℕ, None};
ghost use Rattle.link_frames.specs.Owes.{elapsed};
ghost use Rattle.psap_machine.specs.Point.{Point};
ghost use Rattle.psap_machine.specs.PointKept.{IsKept};
ghost use Rattle.psap_machine.specs.PointOwes.{PointOwes, ArrivalOwes, came, seat_of};
ghost use Rattle.psap_machine.specs.PointRows.{Heard, arriving, called, point_row, unit_row};

/// Every row keeps what the states of a session keep among themselves, and owes to the world what it must: the rows of
/// events, of the unit tick, and of both ways in which a call comes up.
pub fn rows_owe()
    ensures events { (e : Heard) (s : Point) → IsKept s → PointOwes s (came e) (seat_of s) (point_row s e) }
    ensures unit_tick { (s : Point) → IsKept s → PointOwes s None (elapsed (seat_of s)) (unit_row s) }
    ensures arriving { (c : ℕ) → ArrivalOwes c (arriving c) }
    ensures called { (c : ℕ) → ArrivalOwes c (called c) }
{}
