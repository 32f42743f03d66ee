//! Readers of single elements. Each ends no nearer to the front than it began, in the same octets.
ghost use Rattle.std.specs.Prelude.{◌≡◌, ◌+◌, ◌*◌, ◌/◌, ◌%◌, ◌^◌, ◌<◌, ◌≤◌, nat_eq, pos, true, false, IfOk, OnOk};
ghost use Rattle.std.specs.Option.{option_to_list};
ghost use Rattle.per_bits.specs.Bits.{digits};
ghost use Rattle.per_types.specs.Types.{truth, number, boolean};
ghost use Rattle.per_types.specs.Reading.{Gives, truth_at, presence_at, tree_at, more_at};
ghost use Rattle.msd_values.specs.Position.{IsDelta};
ghost use Rattle.msd_codec.specs.Module.{octet, timestamp, angle, angle_delta, vehicle_type};
ghost use Rattle.msd_codec.specs.Trees.{count_tree, kind_tree, more_of};
ghost use Rattle.msd_codec.specs.Places.{LieBetween, Fills};
ghost use Rattle.msd_codec.specs.inner.Reading.{MovesOn};
ghost use Rattle.msd_codec.specs.inner.Reading.{presence_bit, default_at};

use msd_values::{AddedKind, RootKind, VehicleKind};
use per_bits::{Additions, Cursor, Refusal};
use per_types::{EnumIndex, read_additions, read_bool, read_enum, read_presence, read_whole};

/// Whether additions follow.
pub fn read_extended(c: &mut Cursor<'_>) -> Result<bool, Refusal>
    ensures exact { Gives (λ v. v) result (truth_at c.old) c.new }
    ensures on { OnOk result (MovesOn c.old c.new) }
{
    read_bool(c)
}

/// The presence bits of `n` components, at most 16.
pub fn read_present(c: &mut Cursor<'_>, n: u32) -> Result<u16, Refusal>
    requires { n ≤ 16 }
    ensures exact { Gives (λ v. digits n v) result (presence_at n c.old) c.new }
    ensures below { IfOk result (λ v. v < 2 ^ n) }
    ensures on { OnOk result (MovesOn c.old c.new) }
{
    read_presence(c, n)
}

/// Whether the presence bit of a component is 1, behind which `others` more stand.
pub fn is_present(presence: u16, others: u32) -> bool
    requires { others < 16 }
    ensures { result ≡ presence_bit presence others }
{
    (presence >> others) % 2 == 1
}

/// A BOOLEAN.
pub fn read_truth(c: &mut Cursor<'_>) -> Result<bool, Refusal>
    ensures exact { Gives truth result (tree_at boolean c.old) c.new }
    ensures on { OnOk result (MovesOn c.old c.new) }
{
    read_bool(c)
}

/// A BOOLEAN DEFAULT FALSE, behind whose presence bit `others` more stand.
pub fn read_flag(c: &mut Cursor<'_>, presence: u16, others: u32) -> Result<bool, Refusal>
    requires { others < 16 }
    ensures exact { Gives truth result (default_at (presence_bit presence others) boolean (truth false) c.old) c.new }
    ensures on { OnOk result (MovesOn c.old c.new) }
{
    if is_present(presence, others) {
        read_truth(c)
    } else {
        Ok(false)
    }
}

/// A number from 0 to 255.
pub fn read_octet(c: &mut Cursor<'_>) -> Result<u8, Refusal>
    ensures exact { Gives count_tree result (tree_at octet c.old) c.new }
    ensures step { OnOk result (c.new.start ≡ c.old.start + 8) }
    ensures on { OnOk result (MovesOn c.old c.new) }
{
    let n = read_whole(c, 0, 255, 8)?;
    Ok(n as u8)
}

/// Seconds.
pub fn read_timestamp(c: &mut Cursor<'_>) -> Result<u32, Refusal>
    ensures exact { Gives count_tree result (tree_at timestamp c.old) c.new }
    ensures step { OnOk result (c.new.start ≡ c.old.start + 32) }
    ensures on { OnOk result (MovesOn c.old c.new) }
{
    let n = read_whole(c, 0, 4_294_967_295, 32)?;
    Ok(n as u32)
}

/// Milliarcseconds.
pub fn read_angle(c: &mut Cursor<'_>) -> Result<i32, Refusal>
    ensures exact { Gives number result (tree_at angle c.old) c.new }
    ensures step { OnOk result (c.new.start ≡ c.old.start + 32) }
    ensures on { OnOk result (MovesOn c.old c.new) }
{
    let n = read_whole(c, -2_147_483_648, 2_147_483_647, 32)?;
    Ok(n as i32)
}

/// Units of 100 milliarcseconds, from -512 to 511.
pub fn read_angle_delta(c: &mut Cursor<'_>) -> Result<i16, Refusal>
    ensures exact { Gives number result (tree_at angle_delta c.old) c.new }
    ensures range { IfOk result (λ n. IsDelta n) }
    ensures step { OnOk result (c.new.start ≡ c.old.start + 10) }
    ensures on { OnOk result (MovesOn c.old c.new) }
{
    let n = read_whole(c, -512, 511, 10)?;
    Ok(n as i16)
}

/// The category of the vehicle.
pub fn read_vehicle_type(c: &mut Cursor<'_>) -> Result<VehicleKind, Refusal>
    ensures exact { Gives kind_tree result (tree_at vehicle_type c.old) c.new }
    ensures on { OnOk result (MovesOn c.old c.new) }
{
    match read_enum(c, 13, 4)? {
        EnumIndex::Root(index) => Ok(VehicleKind::Root(RootKind::new(index + 1).unwrap())),
        EnumIndex::Added(index) => Ok(VehicleKind::Added(AddedKind::new(index).unwrap())),
    }
}

/// The additions of a SEQUENCE, where its mark is 1.
pub fn read_more<'a>(c: &mut Cursor<'a>, extended: bool) -> Result<Option<Additions<'a>>, Refusal>
    ensures exact { Gives more_of result (more_at extended c.old) c.new }
    ensures parts { IfOk result (λ more. LieBetween c.old.all c.old.start (option_to_list more) c.new.start) }
    ensures fills { IfOk result (λ more. Fills c.old.start more c.new.start) }
    ensures on { OnOk result (MovesOn c.old c.new) }
{
    if !extended {
        return Ok(None);
    }
    let additions = read_additions(c)?;
    // Asked for the proof alone: that the section's bits stand at its start.
    let _in_place = additions.bits();
    Ok(Some(additions))
}
