//! Values that make no sense in a set that is lawful all the same.
ghost use Rattle.std.specs.Prelude.{◌≡◌, ◌≤ℤ◌, pos, unsigned_abs};
ghost use Rattle.msd_values.specs.Remarks.{is_beyond, remarks_of};

use crate::msd::Msd;

/// The number by which a set says that it doesn't know a latitude or a longitude.
pub const UNKNOWN_ANGLE: i32 = 2_147_483_647;

/// The number by which a set says that it doesn't know its heading.
pub const UNKNOWN_HEADING: u8 = 255;

/// Which values of a set are remarked: a latitude beyond 90 degrees, a longitude beyond 180 degrees, a
/// heading past one turn. Unknown values are none of these.
#[derive(Clone, Copy, Debug, PartialEq, Eq)]
pub struct Remarks {
    pub latitude: bool,
    pub longitude: bool,
    pub heading: bool,
}

/// The remarks on a set. A remark is no refusal.
pub fn find_remarks(msd: &Msd<'_>) -> Remarks
    ensures { result ≡ remarks_of msd.now }
{
    Remarks {
        latitude: is_beyond(324_000_000, msd.latitude),
        longitude: is_beyond(648_000_000, msd.longitude),
        heading: msd.heading >= 180 && msd.heading <= 254,
    }
}

// Whether a known angle lies beyond the limit to either side.
fn is_beyond(limit: i32, angle: i32) -> bool
    requires { pos 0 ≤ℤ limit }
    ensures { result ≡ is_beyond (unsigned_abs limit) angle }
{
    (angle < -limit || angle > limit) && angle != UNKNOWN_ANGLE
}
