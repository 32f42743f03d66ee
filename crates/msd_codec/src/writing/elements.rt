//! Writers of single components, each of the canonical spelling.
ghost use Rattle.std.specs.Prelude.{◌≡◌, ◌+◌, ◌≤◌, ◌<◌, ◌^◌, [], ◌∷◌, ◌++◌, true, length, OnOk, OnErr};
ghost use Rattle.per_bits.specs.Bits.{value_of, room_bits};
ghost use Rattle.per_types.specs.Types.{number};
ghost use Rattle.per_types.specs.Spelling.{TruthElements, PresenceElements, MoreElements};
ghost use Rattle.msd_values.specs.Position.{IsDelta};
ghost use Rattle.msd_codec.specs.Module.{octet, timestamp, angle_delta, vehicle_location, vehicle_type};
ghost use Rattle.msd_codec.specs.Trees.{count_tree, kind_tree, more_of, pair_tree};
ghost use Rattle.msd_codec.specs.inner.Writing.{Puts, Canon, Flag};

use msd_values::VehicleKind;
use per_bits::{Additions, BitBuf, Full};
use per_types::{EnumIndex, write_additions, write_bool, write_enum, write_presence, write_whole};

/// The extension mark of a SEQUENCE.
pub fn write_extended(to: &mut BitBuf, extended: bool) -> Result<(), Full>
    ensures { Puts (TruthElements extended) to.old result to.new }
{
    write_bool(to, extended)
}

/// The presence bits of a SEQUENCE, at most 16.
pub fn write_present(to: &mut BitBuf, present: &[bool]) -> Result<(), Full>
    requires { length present.now ≤ 16 }
    ensures { Puts (PresenceElements (length present.now) present.now) to.old result to.new }
{
    write_presence(to, presence_of(present), present.len() as u32)
}

// The number that the presence bits read.
fn presence_of(present: &[bool]) -> u16
    requires { length present.now ≤ 16 }
    ensures value { result ≡ value_of present.now }
    ensures below { result < 2 ^ length present.now }
{
    let mut number = 0;
    for bit in present {
        number = 2 * number + u16::from(*bit);
    }
    number
}

/// Three BOOLEANs, one behind the other.
pub fn write_truths(to: &mut BitBuf, first: bool, second: bool, third: bool) -> Result<(), Full>
    ensures ok { OnOk result (to.new ≡ to.old ++ (first ∷ second ∷ third ∷ [])) }
    ensures full { OnErr result (room_bits < length to.old + 3) }
{
    to.put(three_bits(first, second, third), 3)
}

// The number that three bits read.
fn three_bits(first: bool, second: bool, third: bool) -> u64
    ensures { result ≡ value_of (first ∷ second ∷ third ∷ []) }
{
    4 * u64::from(first) + 2 * u64::from(second) + u64::from(third)
}

/// A BOOLEAN DEFAULT FALSE, which is written where it is true.
pub fn write_flag(to: &mut BitBuf, value: bool) -> Result<(), Full>
    ensures { Puts (Flag value) to.old result to.new }
{
    if value { write_bool(to, true) } else { Ok(()) }
}

/// A number from 0 to 255.
pub fn write_octet(to: &mut BitBuf, value: u8) -> Result<(), Full>
    ensures { Puts (Canon octet (count_tree value)) to.old result to.new }
{
    write_whole(to, i64::from(value), 0, 255, 8)
}

/// Seconds.
pub fn write_timestamp(to: &mut BitBuf, value: u32) -> Result<(), Full>
    ensures { Puts (Canon timestamp (count_tree value)) to.old result to.new }
{
    write_whole(to, i64::from(value), 0, 4_294_967_295, 32)
}

/// Two angles in milliarcseconds, one behind the other.
pub fn write_angles(to: &mut BitBuf, first: i32, second: i32) -> Result<(), Full>
    ensures { Puts (Canon vehicle_location (pair_tree first second)) to.old result to.new }
{
    let first = u64::from(first.abs_diff(i32::MIN));
    let second = u64::from(second.abs_diff(i32::MIN));
    to.put(4_294_967_296 * first + second, 64)
}

/// Units of 100 milliarcseconds, from -512 to 511.
pub fn write_angle_delta(to: &mut BitBuf, value: i16) -> Result<(), Full>
    requires { IsDelta value }
    ensures { Puts (Canon angle_delta (number value)) to.old result to.new }
{
    write_whole(to, i64::from(value), -512, 511, 10)
}

/// The category of the vehicle.
pub fn write_vehicle_type(to: &mut BitBuf, kind: VehicleKind) -> Result<(), Full>
    ensures { Puts (Canon vehicle_type (kind_tree kind)) to.old result to.new }
{
    match kind {
        VehicleKind::Root(root) => write_enum(to, EnumIndex::Root(root.number() - 1), 13, 4),
        VehicleKind::Added(added) => write_enum(to, EnumIndex::Added(added.number()), 13, 4),
    }
}

/// The additions of a SEQUENCE, if there are any.
pub fn write_more(to: &mut BitBuf, more: &Option<Additions<'_>>) -> Result<(), Full>
    ensures { Puts (MoreElements true (more_of more.now)) to.old result to.new }
{
    match more {
        Some(additions) => write_additions(to, additions.share()),
        None => Ok(()),
    }
}
