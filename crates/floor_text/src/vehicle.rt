//! The number of a vehicle on a floor.

ghost use Rattle.std.specs.Prelude.{◌≡◌, IfSome};
ghost use Rattle.floor_text.specs.VehicleNumbers.{IsVehicle, vehicle_number};

use line_input::read_positive_u8;

/// The number that a word spells in decimal digits, without a zero in front: 1 to 64.
pub(crate) fn read_vehicle_number(text: &[u8]) -> Option<u8>
    ensures value { result ≡ vehicle_number text.now }
    ensures range { IfSome result IsVehicle }
{
    read_positive_u8(text, 65)
}
