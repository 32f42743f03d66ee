//! The fields of additions.
ghost use Rattle.std.specs.Prelude.{◌≡◌, ◌++◌, OnOk, length};
ghost use Rattle.std.specs.List.{flat_map};
ghost use Rattle.hex.specs.Hex.{encode_lower};
ghost use Rattle.per_bits.specs.Bits.{octets_of};
ghost use Rattle.per_bits.specs.Parts.{members_of, present_members};
ghost use Rattle.set_objects.specs.Object.{addition_field, additions_field, additions_object};

use crate::text::put_octets;
use itoa::Buffer;
use per_bits::{Additions, Octs};
use std::alloc::AllocError;
use view_lines::put_all;

#[tactic(auto, unfolding(crate::specs::Object::addition_field))]
// Puts a present addition.
fn put_addition(text: &mut Vec<u8>, index: u8, octets: &Octs<'_>) -> Result<(), AllocError>
    ensures { OnOk result (text.new.items ≡ text.old.items ++ addition_field (index, octets_of octets.now.bits)) }
{
    let mut digits = Buffer::new();
    put_all(text, &[b",\"", digits.format(index).as_bytes(), b"\":\""])?;
    put_octets(text, octets)?;
    text.extend_from_slice(b"\"")
}

// Puts the present additions.
fn put_present(text: &mut Vec<u8>, additions: &Additions<'_>) -> Result<(), AllocError>
    ensures { OnOk result (text.new.items
        ≡ text.old.items ++ flat_map addition_field (present_members 0 (members_of additions.now.bits))) }
{
    for (index, octets) in additions.iter() {
        put_addition(text, index, &octets)?;
    }
    Ok(())
}

#[tactic(auto, unfolding(crate::specs::Object::additions_object))]
// Puts a section of additions.
fn put_section(text: &mut Vec<u8>, additions: &Additions<'_>) -> Result<(), AllocError>
    ensures { OnOk result (text.new.items ≡ text.old.items ++ additions_object additions.now) }
{
    let mut digits = Buffer::new();
    put_all(
        text,
        &[b"{\"count\":", digits.format(additions.count()).as_bytes()],
    )?;
    put_present(text, additions)?;
    text.extend_from_slice(b"}")
}

#[tactic(auto, unfolding(crate::specs::Object::additions_field))]
/// Puts a field of additions, whose name stands with its comma, its quotes and its colon.
pub(crate) fn put_additions(
    text: &mut Vec<u8>,
    name: &[u8],
    additions: &Option<Additions<'_>>,
) -> Result<(), AllocError>
    ensures { OnOk result (text.new.items ≡ text.old.items ++ additions_field name.now additions.now) }
{
    text.extend_from_slice(name)?;
    match additions {
        Some(additions) => put_section(text, additions),
        None => text.extend_from_slice(b"null"),
    }
}
