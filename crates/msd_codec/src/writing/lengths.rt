//! How many bits the canonical spelling of a set of data has. A value that changes nothing of its length is
//! handed on for the contract, which names it. A number that is asked for and not used is asked for its range,
//! which the proof needs.
ghost use Rattle.std.specs.Prelude.{◌≡◌, ◌+◌, ◌*◌, ◌≤◌, true, None};
ghost use Rattle.std.specs.Option.{option_map};
ghost use Rattle.per_types.specs.Types.{number, presence_count};
ghost use Rattle.msd_values.specs.Format.{HasMarks};
ghost use Rattle.per_types.specs.Spelling.{MoreElements};
ghost use Rattle.msd_codec.specs.Module.{octet, timestamp, control_type, vehicle_identification, storages, propulsion_storage, vehicle_location, location_delta, vehicle_type, msd_structure, msd_message, ecall_message, additional_data};
ghost use Rattle.msd_codec.specs.Trees.{IsPlain, count_tree, control_tree, kind_tree, vin_tree, storage_tree, pair_tree, way_tree, structure_tree, message_tree, extra_tree, more_of, tree};
ghost use Rattle.msd_codec.specs.inner.Writing.{HasLength, Canon, Optional, Flag};

use msd_values::{Delta, Extra, Format, Marks, Msd, VehicleKind, Vin};
use per_bits::Additions;

/// The bits of the whole message.
pub fn message_len(msd: &Msd<'_>) -> u32
    ensures count { HasLength (Canon (ecall_message msd.now.format) (tree msd.now)) result }
    ensures few { IsPlain msd.now → result ≤ 302 }
{
    8 + body_len(msd)
}

// The structure, additional data and additions, behind a mark and one presence bit.
fn body_len(msd: &Msd<'_>) -> u32
    ensures count { HasLength (Canon (msd_message msd.now.format) (message_tree msd.now)) result }
    ensures few { result ≤ 32 * 65535 }
    ensures plain { IsPlain msd.now → result ≤ 294 }
{
    2 + structure_len(msd) + extra_len(&msd.extra) + more_len(&msd.message_more)
}

// The components of the structure, behind a mark and three presence bits.
fn structure_len(msd: &Msd<'_>) -> u32
    ensures count { HasLength (Canon (msd_structure msd.now.format) (structure_tree msd.now)) result }
    ensures few { result ≤ 17 * 65535 }
    ensures plain { msd.now.fuel_more ≡ None → msd.now.set_more ≡ None → result ≤ 292 }
{
    let control = control_len(msd.automatic, msd.test, msd.trusted, msd.kind);
    let storage = storage_len(msd.format, msd.fuel, &msd.fuel_more);
    let vehicle = octet_len(msd.message) + control + vin_len(&msd.vin) + storage;
    let location = location_len(msd.latitude, msd.longitude);
    let place = timestamp_len(msd.time) + location + octet_len(msd.heading);
    let recent = recent_len(msd.before1) + recent_len(msd.before2);
    4 + vehicle + place + recent + passengers_len(msd.passengers) + more_len(&msd.set_more)
}

fn octet_len(_value: u8) -> u32
    ensures count { HasLength (Canon octet (count_tree _value)) result }
    ensures value { result ≡ 8 }
{
    8
}

fn timestamp_len(_value: u32) -> u32
    ensures count { HasLength (Canon timestamp (count_tree _value)) result }
    ensures value { result ≡ 32 }
{
    32
}

fn location_len(_latitude: i32, _longitude: i32) -> u32
    ensures count { HasLength (Canon vehicle_location (pair_tree _latitude _longitude)) result }
    ensures value { result ≡ 64 }
{
    32 + 32
}

fn control_len(_automatic: bool, _test: bool, _trusted: bool, kind: VehicleKind) -> u32
    ensures count { HasLength (Canon control_type (control_tree _automatic _test _trusted kind)) result }
    ensures few { result ≤ 11 }
{
    3 + vehicle_type_len(kind)
}

// A mark, and the index of a root in four bits or a small number.
fn vehicle_type_len(kind: VehicleKind) -> u32
    ensures count { HasLength (Canon vehicle_type (kind_tree kind)) result }
    ensures few { result ≤ 8 }
{
    match kind {
        VehicleKind::Root(root) => {
            let _known = root.number();
            1 + 4
        }
        VehicleKind::Added(added) => {
            let _known = added.number();
            1 + 7
        }
    }
}

fn vin_len(vin: &Vin) -> u32
    ensures count { HasLength (Canon vehicle_identification (vin_tree vin.now)) result }
    ensures few { result ≤ 102 }
{
    6 * vin.text().len() as u32
}

// A mark, a presence bit for each mark, and a bit for each that is set.
fn storage_len(format: Format, fuel: Marks, more: &Option<Additions<'_>>) -> u32
    requires { HasMarks format fuel }
    ensures count { HasLength (Canon (propulsion_storage format) (storage_tree format fuel more.now)) result }
    ensures few { result ≤ 8 * 65535 + 15 }
    ensures plain { more.now ≡ None → result ≤ 15 }
{
    let gas = flag_len(fuel.natural_gas) + flag_len(fuel.propane);
    let burnt = flag_len(fuel.gasoline) + flag_len(fuel.diesel) + gas;
    let others = flag_len(fuel.electric) + flag_len(fuel.hydrogen) + flag_len(fuel.other);
    1 + mark_count(format) + burnt + others + more_len(more)
}

// How many marks a format has.
fn mark_count(format: Format) -> u32
    ensures count { result ≡ presence_count (storages format) }
    ensures few { result ≤ 7 }
{
    match format {
        Format::One => 6,
        Format::Two => 7,
    }
}

fn flag_len(flag: bool) -> u32
    ensures count { HasLength (Flag flag) result }
    ensures few { result ≤ 1 }
{
    u32::from(flag)
}

fn recent_len(before: Option<Delta>) -> u32
    ensures count { HasLength (Optional location_delta (option_map way_tree before)) result }
    ensures few { result ≤ 20 }
{
    match before {
        Some(way) => {
            let _known = (way.latitude(), way.longitude());
            10 + 10
        }
        None => 0,
    }
}

fn passengers_len(passengers: Option<u8>) -> u32
    ensures count { HasLength (Optional octet (option_map count_tree passengers)) result }
    ensures few { result ≤ 8 }
{
    match passengers {
        Some(count) => octet_len(count),
        None => 0,
    }
}

fn extra_len(extra: &Option<Extra<'_>>) -> u32
    ensures count { HasLength (Optional additional_data (option_map extra_tree extra.now)) result }
    ensures few { result ≤ 2048 }
    ensures none { extra.now ≡ None → result ≡ 0 }
{
    match extra {
        Some(extra) => data_len(extra),
        None => 0,
    }
}

/// Two lengths, and their octets.
pub fn data_len(extra: &Extra<'_>) -> u32
    ensures count { HasLength (Canon additional_data (extra_tree extra.now)) result }
    ensures few { result ≤ 2048 }
{
    16 + 8 * extra.oid.octs().count() + 8 * extra.content.count()
}

fn more_len(more: &Option<Additions<'_>>) -> u32
    ensures count { HasLength (MoreElements true (more_of more.now)) result }
    ensures few { result ≤ 8 * 65535 }
    ensures none { more.now ≡ None → result ≡ 0 }
{
    match more {
        Some(additions) => additions.bits().len(),
        None => 0,
    }
}
