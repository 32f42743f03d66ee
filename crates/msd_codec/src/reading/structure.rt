//! Readers of the structure of a set of data and of its components.
ghost use Rattle.std.specs.Prelude.{◌≡◌, ℕ, ◌+◌, ◌<◌, ◌≤◌, false, List, [], ◌∷◌, length, IfOk, OnOk};
ghost use Rattle.per_bits.specs.Bits.{behind};
ghost use Rattle.std.specs.Option.{option_map, option_to_list};
ghost use Rattle.per_types.specs.Reading.{Gives, presence_at, tree_at, text_at};
ghost use Rattle.msd_values.specs.Vin.{IsVin};
ghost use Rattle.msd_codec.specs.Module.{octet, control_type, vehicle_identification, storages, propulsion_storage, vehicle_location, location_delta, msd_structure};
ghost use Rattle.msd_codec.specs.Trees.{count_tree, control_tree, vin_tree, storage_tree, pair_tree, way_tree, structure_tree};
ghost use Rattle.msd_codec.specs.Places.{LieBetween, Fills, StructureEnds, len_of, structure_parts};
ghost use Rattle.msd_codec.specs.inner.Reading.{MovesOn};
ghost use Rattle.msd_codec.specs.inner.Reading.{presence_bit, mark_presence, optional_at};
ghost use Rattle.msd_values.specs.Format.{HasMarks};
ghost use Rattle.msd_values.specs.declared.format.Format.TheVariants.{One};
ghost use Rattle.per_types.specs.Types.{presence_count};

use crate::reading::elements::{
    is_present, read_angle, read_angle_delta, read_extended, read_flag, read_more, read_octet,
    read_present, read_timestamp, read_truth, read_vehicle_type,
};
use crate::reading::texts::known_characters;
use msd_values::{Delta, Format, Marks, Msd, VehicleKind, Vin};
use per_bits::{Additions, Cursor, Refusal};
use per_types::read_char;

// How many bits the characters of an identification have, six each.
const VIN_BITS: u32 = 102;

// How the call was started, and of which category the vehicle is.
#[derive(Drop)]
struct Control {
    automatic: bool,
    test: bool,
    trusted: bool,
    kind: VehicleKind,
}

// What the vehicle stores for its propulsion.
#[derive(Drop)]
struct Storage<'a> {
    fuel: Marks,
    more: Option<Additions<'a>>,
}

/// The structure, as a set of data that has nothing beside it.
pub fn read_structure<'a>(c: &mut Cursor<'a>, format: Format) -> Result<Msd<'a>, Refusal>
    ensures exact { Gives structure_tree result (tree_at (msd_structure format) c.old) c.new }
    ensures format { IfOk result (λ msd. msd.format ≡ format) }
    ensures parts { IfOk result (λ msd. LieBetween c.old.all c.old.start (structure_parts msd) c.new.start) }
    ensures ends { IfOk result (λ msd. StructureEnds msd c.new.start) }
    ensures on { OnOk result (MovesOn c.old c.new) }
{
    let extended = read_extended(c)?;
    let present = read_present(c, 3)?;
    let message = read_octet(c)?;
    let control = read_control(c)?;
    let vin = read_vin(c)?;
    let storage = read_storage(c, format)?;
    let time = read_timestamp(c)?;
    let (latitude, longitude) = read_location(c)?;
    let heading = read_octet(c)?;
    let before1 = read_recent(c, present, 2)?;
    let before2 = read_recent(c, present, 1)?;
    let passengers = read_passengers(c, present)?;
    let set_more = read_more(c, extended)?;
    Ok(Msd {
        format,
        message,
        automatic: control.automatic,
        test: control.test,
        trusted: control.trusted,
        kind: control.kind,
        vin,
        fuel: storage.fuel,
        fuel_more: storage.more,
        time,
        latitude,
        longitude,
        heading,
        before1,
        before2,
        passengers,
        set_more,
        extra: None,
        message_more: None,
    })
}

fn read_control(c: &mut Cursor<'_>) -> Result<Control, Refusal>
    ensures exact { Gives (λ k. control_tree k.automatic k.test k.trusted k.kind) result (tree_at control_type c.old) c.new }
    ensures on { OnOk result (MovesOn c.old c.new) }
{
    let automatic = read_truth(c)?;
    let test = read_truth(c)?;
    let trusted = read_truth(c)?;
    let kind = read_vehicle_type(c)?;
    Ok(Control {
        automatic,
        test,
        trusted,
        kind,
    })
}

fn read_vin(c: &mut Cursor<'_>) -> Result<Vin, Refusal>
    ensures exact { Gives vin_tree result (tree_at vehicle_identification c.old) c.new }
    ensures on { OnOk result (MovesOn c.old c.new) }
{
    let characters = read_characters(c)?;
    Ok(Vin::of(characters))
}

// The characters of an identification, one behind the other.
fn read_characters(c: &mut Cursor<'_>) -> Result<[u8; 17], Refusal>
    ensures exact { Gives (λ v. v) result (text_at 17 c.old) c.new }
    ensures vin { IfOk result IsVin }
    ensures on { OnOk result (MovesOn c.old c.new) }
{
    if let Some(characters) = known_characters(c) {
        leave(c, VIN_BITS);
        return Ok(characters);
    }
    let mut characters = [0; 17];
    for i in 0..17 {
        let character = read_char(c)?;
        characters[i] = character;
    }
    Ok(characters)
}

// Leaves bits behind that are there.
fn leave(c: &mut Cursor<'_>, n: u32)
    requires { n ≤ length c.old.bits }
    ensures { c.new ≡ behind c.old n }
{
    let _ = c.take(n).unwrap();
}

// The presence bits of the marks, as for seven of them: of other energies format 1 has none, which is left out.
fn read_marks_present(c: &mut Cursor<'_>, format: Format) -> Result<u16, Refusal>
    ensures exact { Gives (mark_presence format) result (presence_at (presence_count (storages format)) c.old) c.new }
    ensures none { IfOk result (λ v. format ≡ One → presence_bit v 0 ≡ false) }
    ensures on { OnOk result (MovesOn c.old c.new) }
{
    match format {
        Format::One => {
            let present = read_present(c, 6)?;
            Ok(2 * present)
        }
        Format::Two => read_present(c, 7),
    }
}

fn read_storage<'a>(c: &mut Cursor<'a>, format: Format) -> Result<Storage<'a>, Refusal>
    ensures exact { Gives (λ s. storage_tree format s.fuel s.more) result (tree_at (propulsion_storage format) c.old) c.new }
    ensures marks { IfOk result (λ s. HasMarks format s.fuel) }
    ensures parts { IfOk result (λ s. LieBetween c.old.all c.old.start (option_to_list s.more) c.new.start) }
    ensures ends { IfOk result (λ s. (fuel : ℕ) × Fills fuel s.more c.new.start) }
    ensures on { OnOk result (MovesOn c.old c.new) }
{
    let extended = read_extended(c)?;
    let present = read_marks_present(c, format)?;
    let gasoline = read_flag(c, present, 6)?;
    let diesel = read_flag(c, present, 5)?;
    let natural_gas = read_flag(c, present, 4)?;
    let propane = read_flag(c, present, 3)?;
    let electric = read_flag(c, present, 2)?;
    let hydrogen = read_flag(c, present, 1)?;
    let other = read_flag(c, present, 0)?;
    let more = read_more(c, extended)?;
    let fuel = Marks {
        gasoline,
        diesel,
        natural_gas,
        propane,
        electric,
        hydrogen,
        other,
    };
    Ok(Storage { fuel, more })
}

// Latitude and longitude.
fn read_location(c: &mut Cursor<'_>) -> Result<(i32, i32), Refusal>
    ensures exact { Gives (λ l. pair_tree l.0 l.1) result (tree_at vehicle_location c.old) c.new }
    ensures step { OnOk result (c.new.start ≡ c.old.start + 64) }
    ensures on { OnOk result (MovesOn c.old c.new) }
{
    let latitude = read_angle(c)?;
    let longitude = read_angle(c)?;
    Ok((latitude, longitude))
}

fn read_delta(c: &mut Cursor<'_>) -> Result<Delta, Refusal>
    ensures exact { Gives way_tree result (tree_at location_delta c.old) c.new }
    ensures step { OnOk result (c.new.start ≡ c.old.start + 20) }
    ensures on { OnOk result (MovesOn c.old c.new) }
{
    let latitude = read_angle_delta(c)?;
    let longitude = read_angle_delta(c)?;
    Ok(Delta {
        latitude,
        longitude,
    })
}

// The way from a recent location, if it is present; `others` more stand behind its presence bit.
fn read_recent(c: &mut Cursor<'_>, presence: u16, others: u32) -> Result<Option<Delta>, Refusal>
    requires { others < 16 }
    ensures exact { Gives (option_map way_tree) result (optional_at (presence_bit presence others) location_delta c.old) c.new }
    ensures step { IfOk result (λ way. c.new.start ≡ c.old.start + len_of 20 way) }
    ensures on { OnOk result (MovesOn c.old c.new) }
{
    if !is_present(presence, others) {
        return Ok(None);
    }
    let delta = read_delta(c)?;
    Ok(Some(delta))
}

// How many passengers there are, if the number is present; its presence bit is the last.
fn read_passengers(c: &mut Cursor<'_>, presence: u16) -> Result<Option<u8>, Refusal>
    ensures exact { Gives (option_map count_tree) result (optional_at (presence_bit presence 0) octet c.old) c.new }
    ensures step { IfOk result (λ count. c.new.start ≡ c.old.start + len_of 8 count) }
    ensures on { OnOk result (MovesOn c.old c.new) }
{
    if !is_present(presence, 0) {
        return Ok(None);
    }
    let passengers = read_octet(c)?;
    Ok(Some(passengers))
}
