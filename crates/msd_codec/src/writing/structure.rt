//! Writers of the structure of a set of data and of its components.
ghost use Rattle.std.specs.Option.{option_map};
ghost use Rattle.msd_codec.specs.Module.{octet, control_type, vehicle_identification, storages, propulsion_storage, location_delta, msd_structure};
ghost use Rattle.msd_codec.specs.Trees.{count_tree, control_tree, vin_tree, storage_tree, way_tree, structure_tree};
ghost use Rattle.msd_codec.specs.inner.Writing.{Puts, Canon, Optional, marks_of};
ghost use Rattle.msd_values.specs.Format.{HasMarks};
ghost use Rattle.per_types.specs.Types.{presence_count};
ghost use Rattle.per_types.specs.Spelling.{PresenceElements};

use crate::writing::elements::{
    write_angle_delta, write_angles, write_extended, write_flag, write_more, write_octet,
    write_present, write_timestamp, write_truths, write_vehicle_type,
};
use crate::writing::texts::write_text;
use msd_values::{Delta, Format, Marks, Msd, VehicleKind, Vin};
use per_bits::{Additions, BitBuf, Full};

/// The structure, which is the set of data without what stands beside it.
pub fn write_structure(to: &mut BitBuf, msd: &Msd<'_>) -> Result<(), Full>
    ensures { Puts (Canon (msd_structure msd.now.format) (structure_tree msd.now)) to.old result to.new }
{
    let before1 = msd.before1.is_some();
    let before2 = msd.before2.is_some();
    let passengers = msd.passengers.is_some();
    write_extended(to, msd.set_more.is_some())?;
    write_present(to, &[before1, before2, passengers])?;
    write_octet(to, msd.message)?;
    write_control(to, msd.automatic, msd.test, msd.trusted, msd.kind)?;
    write_vin(to, &msd.vin)?;
    write_storage(to, msd.format, msd.fuel, &msd.fuel_more)?;
    write_timestamp(to, msd.time)?;
    write_angles(to, msd.latitude, msd.longitude)?;
    write_octet(to, msd.heading)?;
    write_recent(to, msd.before1)?;
    write_recent(to, msd.before2)?;
    write_passengers(to, msd.passengers)?;
    write_more(to, &msd.set_more)
}

// How the call was started, and of which category the vehicle is.
fn write_control(
    to: &mut BitBuf,
    automatic: bool,
    test: bool,
    trusted: bool,
    kind: VehicleKind,
) -> Result<(), Full>
    ensures { Puts (Canon control_type (control_tree automatic test trusted kind)) to.old result to.new }
{
    write_truths(to, automatic, test, trusted)?;
    write_vehicle_type(to, kind)
}

// The four texts of an identification: the manufacturer, the vehicle, its model year and its number.
fn write_vin(to: &mut BitBuf, vin: &Vin) -> Result<(), Full>
    ensures { Puts (Canon vehicle_identification (vin_tree vin.now)) to.old result to.new }
{
    let text = vin.text();
    write_text(to, &text[..3])?;
    write_text(to, &text[3..9])?;
    write_text(to, &text[9..10])?;
    write_text(to, &text[10..])
}

// What the vehicle stores for its propulsion.
fn write_storage(
    to: &mut BitBuf,
    format: Format,
    fuel: Marks,
    more: &Option<Additions<'_>>,
) -> Result<(), Full>
    requires { HasMarks format fuel }
    ensures { Puts (Canon (propulsion_storage format) (storage_tree format fuel more.now)) to.old result to.new }
{
    write_extended(to, more.is_some())?;
    write_marks_present(to, format, fuel)?;
    write_flag(to, fuel.gasoline)?;
    write_flag(to, fuel.diesel)?;
    write_flag(to, fuel.natural_gas)?;
    write_flag(to, fuel.propane)?;
    write_flag(to, fuel.electric)?;
    write_flag(to, fuel.hydrogen)?;
    write_flag(to, fuel.other)?;
    write_more(to, more)
}

// The presence bits of the marks, which are 1 where a mark is set. Format 1 has none for other energies.
fn write_marks_present(to: &mut BitBuf, format: Format, fuel: Marks) -> Result<(), Full>
    ensures { Puts (PresenceElements (presence_count (storages format)) (marks_of format fuel)) to.old result to.new }
{
    let marks = [
        fuel.gasoline,
        fuel.diesel,
        fuel.natural_gas,
        fuel.propane,
        fuel.electric,
        fuel.hydrogen,
        fuel.other,
    ];
    match format {
        Format::One => write_present(to, &marks[..6]),
        Format::Two => write_present(to, &marks),
    }
}

// The way from a recent location, if it is present.
fn write_recent(to: &mut BitBuf, before: Option<Delta>) -> Result<(), Full>
    ensures { Puts (Optional location_delta (option_map way_tree before)) to.old result to.new }
{
    match before {
        Some(way) => write_delta(to, way),
        None => Ok(()),
    }
}

fn write_delta(to: &mut BitBuf, way: Delta) -> Result<(), Full>
    ensures { Puts (Canon location_delta (way_tree way)) to.old result to.new }
{
    write_angle_delta(to, way.latitude())?;
    write_angle_delta(to, way.longitude())
}

// How many passengers there are, if the number is present.
fn write_passengers(to: &mut BitBuf, passengers: Option<u8>) -> Result<(), Full>
    ensures { Puts (Optional octet (option_map count_tree passengers)) to.old result to.new }
{
    match passengers {
        Some(count) => write_octet(to, count),
        None => Ok(()),
    }
}
