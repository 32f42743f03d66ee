//! What holds of every script of a floor. The function here does nothing: its contract is the law.

ghost use Rattle.std.specs.Prelude.{ℕ, List};
ghost use Rattle.floor_command.specs.FloorParts.{AreApart};
ghost use Rattle.floor_command.specs.FloorScript.{script_of};

use call_floor::{first_floors_are_kept, vehicles_are_apart};

/// For every script and every vehicle that has facts in it, that vehicle's part of the trace is the trace of its lines in
/// a world in which it is alone, and so safe.
pub fn floor_parts()
    ensures { (bytes : List ℕ) → AreApart (script_of bytes) }
{
    vehicles_are_apart();
    first_floors_are_kept();
}
