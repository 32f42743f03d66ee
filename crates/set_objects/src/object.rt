//! The object of a set.
ghost use Rattle.std.specs.Prelude.{◌≡◌, ◌++◌, OnOk};
ghost use Rattle.per_bits.specs.Bits.{octets_of};
ghost use Rattle.set_objects.specs.Object.{extra_field, extra_object, last_fields, octets_field, remarks_fields, set_object};

use crate::additions::put_additions;
use crate::place::{put_position, put_ways};
use crate::text::{boolean_text, put_octets};
use crate::vehicle::{put_fuel, put_vehicle};
use msd_values::{Extra, Msd, Remarks, find_remarks};
use per_bits::Octs;
use std::alloc::AllocError;
use view_lines::put_all;

#[tactic(auto, unfolding(crate::specs::Object::octets_field))]
// Puts a field of octets.
fn put_octets_field(text: &mut Vec<u8>, name: &[u8], octets: &Octs<'_>) -> Result<(), AllocError>
    ensures { OnOk result (text.new.items ≡ text.old.items ++ octets_field name.now (octets_of octets.now.bits)) }
{
    text.extend_from_slice(name)?;
    put_octets(text, octets)?;
    text.extend_from_slice(b"\"")
}

#[tactic(auto, unfolding(crate::specs::Object::extra_object))]
// Puts additional data.
fn put_extra_object(text: &mut Vec<u8>, extra: &Extra<'_>) -> Result<(), AllocError>
    ensures { OnOk result (text.new.items ≡ text.old.items ++ extra_object extra.now) }
{
    put_octets_field(text, b"{\"oid\":\"", &extra.oid.octs())?;
    put_octets_field(text, b",\"content\":\"", &extra.content)?;
    text.extend_from_slice(b"}")
}

#[tactic(auto, unfolding(crate::specs::Object::extra_field))]
// Puts the field of additional data.
fn put_extra(text: &mut Vec<u8>, extra: &Option<Extra<'_>>) -> Result<(), AllocError>
    ensures { OnOk result (text.new.items ≡ text.old.items ++ extra_field extra.now) }
{
    text.extend_from_slice(b",\"extra\":")?;
    match extra {
        Some(extra) => put_extra_object(text, extra),
        None => text.extend_from_slice(b"null"),
    }
}

#[tactic(auto, unfolding(crate::specs::Object::remarks_fields))]
// Puts the remarks and the end of the object.
fn put_remarks(text: &mut Vec<u8>, remarks: Remarks) -> Result<(), AllocError>
    ensures { OnOk result (text.new.items ≡ text.old.items ++ remarks_fields remarks) }
{
    put_all(
        text,
        &[
            b",\"remarks\":{\"latitude\":",
            boolean_text(remarks.latitude),
            b",\"longitude\":",
            boolean_text(remarks.longitude),
            b",\"heading\":",
            boolean_text(remarks.heading),
            b"}}\n",
        ],
    )
}

#[tactic(auto, unfolding(crate::specs::Object::last_fields))]
// Puts the fields behind how many people there are.
fn put_last(text: &mut Vec<u8>, msd: &Msd<'_>) -> Result<(), AllocError>
    ensures { OnOk result (text.new.items ≡ text.old.items ++ last_fields msd.now) }
{
    put_additions(text, b",\"set_more\":", &msd.set_more)?;
    put_extra(text, &msd.extra)?;
    put_additions(text, b",\"message_more\":", &msd.message_more)?;
    put_remarks(text, find_remarks(msd))
}

#[tactic(auto, unfolding(crate::specs::Object::set_object))]
/// Puts the object of a set that stands in the line of this number.
pub(crate) fn put_set(text: &mut Vec<u8>, line: u64, msd: &Msd<'_>) -> Result<(), AllocError>
    ensures { OnOk result (text.new.items ≡ text.old.items ++ set_object line msd.now) }
{
    put_vehicle(text, line, msd)?;
    put_fuel(text, msd)?;
    put_position(text, msd)?;
    put_ways(text, msd)?;
    put_last(text, msd)
}
