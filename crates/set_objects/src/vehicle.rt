//! The fields that say what a set is, and of which vehicle.
ghost use Rattle.std.specs.Prelude.{◌≡◌, ◌++◌, ◌≤◌, OnOk};
ghost use Rattle.msd_values.specs.Texts.{root_name};
ghost use Rattle.set_objects.specs.Object.{first_energies, fuel_fields, kind_fields, last_energies, number_fields, truth_fields, vehicle_fields, vin_field};

use crate::additions::put_additions;
use crate::text::boolean_text;
use itoa::Buffer;
use msd_values::{Marks, Msd, VehicleKind, Vin};
use std::alloc::AllocError;
use view_lines::put_all;

#[tactic(auto, unfolding(crate::specs::Object::number_fields))]
// Puts the number of the line, the format and the number of the message.
fn put_numbers(text: &mut Vec<u8>, line: u64, msd: &Msd<'_>) -> Result<(), AllocError>
    ensures { OnOk result (text.new.items ≡ text.old.items ++ number_fields line msd.now) }
{
    let mut number = Buffer::new();
    let mut format = Buffer::new();
    let mut message = Buffer::new();
    put_all(
        text,
        &[
            b"{\"line\":",
            number.format(line).as_bytes(),
            b",\"format\":",
            format.format(msd.format.number()).as_bytes(),
            b",\"message\":",
            message.format(msd.message).as_bytes(),
        ],
    )
}

#[tactic(auto, unfolding(crate::specs::Object::truth_fields))]
// Puts what is so or not so.
fn put_truths(text: &mut Vec<u8>, msd: &Msd<'_>) -> Result<(), AllocError>
    ensures { OnOk result (text.new.items ≡ text.old.items ++ truth_fields msd.now) }
{
    put_all(
        text,
        &[
            b",\"automatic\":",
            boolean_text(msd.automatic),
            b",\"test\":",
            boolean_text(msd.test),
            b",\"trusted\":",
            boolean_text(msd.trusted),
        ],
    )
}

// The name of a category by its number.
fn root_name(number: u8) -> &'static [u8]
    requires low { 1 ≤ number }
    requires high { number ≤ 13 }
    ensures { result.now ≡ root_name number }
{
    match number {
        1 => b"M1",
        2 => b"M2",
        3 => b"M3",
        4 => b"N1",
        5 => b"N2",
        6 => b"N3",
        7 => b"L1e",
        8 => b"L2e",
        9 => b"L3e",
        10 => b"L4e",
        11 => b"L5e",
        12 => b"L6e",
        _ => b"L7e",
    }
}

#[tactic(auto, unfolding(crate::specs::Object::kind_fields))]
// Puts the category.
fn put_kind(text: &mut Vec<u8>, kind: VehicleKind) -> Result<(), AllocError>
    ensures { OnOk result (text.new.items ≡ text.old.items ++ kind_fields kind) }
{
    match kind {
        VehicleKind::Root(kind) => put_all(
            text,
            &[
                b",\"kind\":\"",
                root_name(kind.number()),
                b"\",\"added_kind\":null",
            ],
        ),
        VehicleKind::Added(kind) => {
            let mut number = Buffer::new();
            put_all(
                text,
                &[
                    b",\"kind\":null,\"added_kind\":",
                    number.format(kind.number()).as_bytes(),
                ],
            )
        }
    }
}

#[tactic(auto, unfolding(crate::specs::Object::vin_field))]
// Puts the identification number.
fn put_vin(text: &mut Vec<u8>, vin: &Vin) -> Result<(), AllocError>
    ensures { OnOk result (text.new.items ≡ text.old.items ++ vin_field vin.now) }
{
    text.extend_from_slice(b",\"vin\":\"")?;
    text.extend_from_slice(vin.text())?;
    text.extend_from_slice(b"\"")
}

#[tactic(auto, unfolding(crate::specs::Object::first_energies))]
// Puts the first four energies.
fn put_first_energies(text: &mut Vec<u8>, fuel: Marks) -> Result<(), AllocError>
    ensures { OnOk result (text.new.items ≡ text.old.items ++ first_energies fuel) }
{
    put_all(
        text,
        &[
            b",\"fuel\":{\"gasoline\":",
            boolean_text(fuel.gasoline),
            b",\"diesel\":",
            boolean_text(fuel.diesel),
            b",\"natural_gas\":",
            boolean_text(fuel.natural_gas),
            b",\"propane\":",
            boolean_text(fuel.propane),
        ],
    )
}

#[tactic(auto, unfolding(crate::specs::Object::last_energies))]
// Puts the other energies.
fn put_last_energies(text: &mut Vec<u8>, fuel: Marks) -> Result<(), AllocError>
    ensures { OnOk result (text.new.items ≡ text.old.items ++ last_energies fuel) }
{
    put_all(
        text,
        &[
            b",\"electric\":",
            boolean_text(fuel.electric),
            b",\"hydrogen\":",
            boolean_text(fuel.hydrogen),
            b",\"other\":",
            boolean_text(fuel.other),
            b"}",
        ],
    )
}

#[tactic(auto, unfolding(crate::specs::Object::vehicle_fields))]
/// Puts what the message and the vehicle are.
pub(crate) fn put_vehicle(text: &mut Vec<u8>, line: u64, msd: &Msd<'_>) -> Result<(), AllocError>
    ensures { OnOk result (text.new.items ≡ text.old.items ++ vehicle_fields line msd.now) }
{
    put_numbers(text, line, msd)?;
    put_truths(text, msd)?;
    put_kind(text, msd.kind)?;
    put_vin(text, &msd.vin)
}

#[tactic(auto, unfolding(crate::specs::Object::fuel_fields))]
/// Puts which energies the vehicle has.
pub(crate) fn put_fuel(text: &mut Vec<u8>, msd: &Msd<'_>) -> Result<(), AllocError>
    ensures { OnOk result (text.new.items ≡ text.old.items ++ fuel_fields msd.now) }
{
    put_first_energies(text, msd.fuel)?;
    put_last_energies(text, msd.fuel)?;
    put_additions(text, b",\"fuel_more\":", &msd.fuel_more)
}
