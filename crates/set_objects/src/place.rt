//! The fields that say when and where a set was made, and who is in the vehicle.
ghost use Rattle.std.specs.Prelude.{◌≡◌, ◌++◌, ◌*◌, OnOk};
ghost use Rattle.msd_values.specs.Civil.{instant_text};
ghost use Rattle.set_objects.specs.Object.{angle_fields, heading_fields, latitude_fields, longitude_fields, passengers_field, position_fields, time_fields, turned_fields, way_field, way_fields, way_object};

use crate::degrees::put_degrees;
use itoa::Buffer;
use msd_values::{Delta, Msd, instant_text};
use std::alloc::AllocError;
use view_lines::put_all;

/// The number by which a set says that it doesn't know a latitude or a longitude.
const UNKNOWN_ANGLE: i32 = 2_147_483_647;

/// The number by which a set says that it doesn't know its heading.
const UNKNOWN_HEADING: u8 = 255;

#[tactic(auto, unfolding(crate::specs::Object::time_fields))]
// Puts the time.
fn put_time(text: &mut Vec<u8>, time: u32) -> Result<(), AllocError>
    ensures { OnOk result (text.new.items ≡ text.old.items ++ time_fields time) }
{
    let mut seconds = Buffer::new();
    let instant = instant_text(time);
    put_all(
        text,
        &[
            b",\"time\":",
            seconds.format(time).as_bytes(),
            b",\"time_utc\":\"",
            &instant,
            b"\"",
        ],
    )
}

#[tactic(auto, unfolding(crate::specs::Object::angle_fields))]
// Puts an angle.
fn put_angle(text: &mut Vec<u8>, name: &[u8], degrees: &[u8], angle: i32) -> Result<(), AllocError>
    ensures { OnOk result (text.new.items ≡ text.old.items ++ angle_fields name.now degrees.now angle) }
{
    if angle == UNKNOWN_ANGLE {
        return put_all(text, &[name, b"null", degrees, b"null"]);
    }
    let mut number = Buffer::new();
    put_all(text, &[name, number.format(angle).as_bytes(), degrees])?;
    put_degrees(text, angle)
}

// How many degrees so many steps of 2 degrees are.
fn degrees_of(steps: u8) -> u16
    ensures { result ≡ 2 * steps }
{
    2 * u16::from(steps)
}

#[tactic(auto, unfolding(crate::specs::Object::turned_fields))]
// Puts a heading that is known.
fn put_turned(
    text: &mut Vec<u8>,
    name: &[u8],
    degrees: &[u8],
    heading: u8,
) -> Result<(), AllocError>
    ensures { OnOk result (text.new.items ≡ text.old.items ++ turned_fields name.now degrees.now heading) }
{
    let mut steps = Buffer::new();
    let mut turned = Buffer::new();
    put_all(
        text,
        &[
            name,
            steps.format(heading).as_bytes(),
            degrees,
            turned.format(degrees_of(heading)).as_bytes(),
        ],
    )
}

#[tactic(auto, unfolding(crate::specs::Object::heading_fields))]
// Puts the heading.
fn put_heading(text: &mut Vec<u8>, heading: u8) -> Result<(), AllocError>
    ensures { OnOk result (text.new.items ≡ text.old.items ++ heading_fields heading) }
{
    if heading == UNKNOWN_HEADING {
        return text.extend_from_slice(b",\"heading\":null,\"heading_degrees\":null");
    }
    put_turned(text, b",\"heading\":", b",\"heading_degrees\":", heading)
}

#[tactic(auto, unfolding(crate::specs::Object::way_object))]
// Puts a way.
fn put_delta(text: &mut Vec<u8>, delta: &Delta) -> Result<(), AllocError>
    ensures { OnOk result (text.new.items ≡ text.old.items ++ way_object delta.now) }
{
    let mut latitude = Buffer::new();
    let mut longitude = Buffer::new();
    put_all(
        text,
        &[
            b"{\"latitude\":",
            latitude.format(delta.latitude()).as_bytes(),
            b",\"longitude\":",
            longitude.format(delta.longitude()).as_bytes(),
            b"}",
        ],
    )
}

#[tactic(auto, unfolding(crate::specs::Object::way_field))]
// Puts the field of a way that may be absent.
fn put_way(text: &mut Vec<u8>, name: &[u8], way: &Option<Delta>) -> Result<(), AllocError>
    ensures { OnOk result (text.new.items ≡ text.old.items ++ way_field name.now way.now) }
{
    text.extend_from_slice(name)?;
    match way {
        Some(delta) => put_delta(text, delta),
        None => text.extend_from_slice(b"null"),
    }
}

#[tactic(auto, unfolding(crate::specs::Object::passengers_field))]
// Puts how many people there are.
fn put_passengers(text: &mut Vec<u8>, passengers: Option<u8>) -> Result<(), AllocError>
    ensures { OnOk result (text.new.items ≡ text.old.items ++ passengers_field passengers) }
{
    match passengers {
        Some(count) => {
            let mut number = Buffer::new();
            put_all(
                text,
                &[b",\"passengers\":", number.format(count).as_bytes()],
            )
        }
        None => put_all(text, &[b",\"passengers\":", b"null"]),
    }
}

#[tactic(auto, unfolding(crate::specs::Object::latitude_fields))]
// Puts the latitude.
fn put_latitude(text: &mut Vec<u8>, msd: &Msd<'_>) -> Result<(), AllocError>
    ensures { OnOk result (text.new.items ≡ text.old.items ++ latitude_fields msd.now.latitude) }
{
    put_angle(
        text,
        b",\"latitude\":",
        b",\"latitude_degrees\":",
        msd.latitude,
    )
}

#[tactic(auto, unfolding(crate::specs::Object::longitude_fields))]
// Puts the longitude.
fn put_longitude(text: &mut Vec<u8>, msd: &Msd<'_>) -> Result<(), AllocError>
    ensures { OnOk result (text.new.items ≡ text.old.items ++ longitude_fields msd.now.longitude) }
{
    put_angle(
        text,
        b",\"longitude\":",
        b",\"longitude_degrees\":",
        msd.longitude,
    )
}

#[tactic(auto, unfolding(crate::specs::Object::position_fields))]
/// Puts when and where the set was made.
pub(crate) fn put_position(text: &mut Vec<u8>, msd: &Msd<'_>) -> Result<(), AllocError>
    ensures { OnOk result (text.new.items ≡ text.old.items ++ position_fields msd.now) }
{
    put_time(text, msd.time)?;
    put_latitude(text, msd)?;
    put_longitude(text, msd)
}

#[tactic(auto, unfolding(crate::specs::Object::way_fields))]
/// Puts where the vehicle came from and went, and who is in it.
pub(crate) fn put_ways(text: &mut Vec<u8>, msd: &Msd<'_>) -> Result<(), AllocError>
    ensures { OnOk result (text.new.items ≡ text.old.items ++ way_fields msd.now) }
{
    put_heading(text, msd.heading)?;
    put_way(text, b",\"before1\":", &msd.before1)?;
    put_way(text, b",\"before2\":", &msd.before2)?;
    put_passengers(text, msd.passengers)
}
