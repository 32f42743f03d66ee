//! The lines of a description that have no additions.
ghost use Rattle.std.specs.Prelude.{◌≡◌, ◌+◌, ◌≤◌, ◌++◌, length, codes, decimal};
ghost use Rattle.arrayvec.specs.ArrayVec.{array_vec_len};
ghost use Rattle.msd_values.specs.inner.Waiting.{Appends};
ghost use Rattle.msd_values.specs.Description.{line};
ghost use Rattle.msd_values.specs.inner.Groups.{vehicle_lines, place_lines};
ghost use Rattle.msd_values.specs.Texts.{or_none, truth_text, root_name, kind_text, mark_digit, marks_text, angle_text, heading_text, way_text};
ghost use Rattle.msd_values.specs.Format.{format_number};
ghost use Rattle.msd_values.specs.Civil.{instant_text};

use crate::date::instant_text;
use crate::format::Format;
use crate::kind::VehicleKind;
use crate::msd::{Delta, Marks, Msd};
use crate::page::{LINE, NAME, PAGE, PLACE_LINES, Page, VEHICLE_LINES, put, put_line, put_number};
use crate::remarks::{UNKNOWN_ANGLE, UNKNOWN_HEADING};
use crate::vin::Vin;
use itoa::Buffer;

// The word for whether something is so.
fn truth_text(truth: bool) -> &'static [u8]
    ensures value { result.now ≡ truth_text truth }
    ensures short { length result.now ≤ 3 }
{
    if truth { b"yes" } else { b"no" }
}

// Puts a line that says whether something is so.
fn put_truth(page: &mut Page, name: &[u8], truth: bool)
    requires name { length name.now ≤ NAME }
    requires room { array_vec_len page.old + LINE ≤ PAGE }
    ensures items { Appends page.old.items page.new.items (name.now ++ truth_text truth ++ codes "\n") }
    ensures len { array_vec_len page.new ≤ array_vec_len page.old + LINE }
{
    put_line(page, name, truth_text(truth));
}

// The name of a category by its number.
fn root_name(number: u8) -> &'static [u8]
    requires low { 1 ≤ number }
    requires high { number ≤ 13 }
    ensures value { result.now ≡ root_name number }
    ensures short { length result.now ≤ 3 }
{
    match number {
        1 => b"M1",
        2 => b"M2",
        3 => b"M3",
        4 => b"N1",
        5 => b"N2",
        6 => b"N3",
        7 => b"L1e",
        8 => b"L2e",
        9 => b"L3e",
        10 => b"L4e",
        11 => b"L5e",
        12 => b"L6e",
        _ => b"L7e",
    }
}

// Puts the line of the vehicle's category.
fn put_kind(page: &mut Page, kind: VehicleKind)
    requires { array_vec_len page.old + LINE ≤ PAGE }
    ensures items { Appends page.old.items page.new.items (line (codes "kind") (kind_text kind)) }
    ensures len { array_vec_len page.new ≤ array_vec_len page.old + LINE }
{
    match kind {
        VehicleKind::Root(root) => put_line(page, b"kind ", root_name(root.number())),
        VehicleKind::Added(added) => put_number(page, b"kind added ", added.number()),
    }
}

fn mark_digit(mark: bool) -> u8
    ensures { result ≡ mark_digit mark }
{
    if mark { b'1' } else { b'0' }
}

// The seven digits of the energies.
fn marks_text(marks: &Marks) -> [u8; 7]
    ensures { result ≡ marks_text marks.now }
{
    [
        mark_digit(marks.gasoline),
        mark_digit(marks.diesel),
        mark_digit(marks.natural_gas),
        mark_digit(marks.propane),
        mark_digit(marks.electric),
        mark_digit(marks.hydrogen),
        mark_digit(marks.other),
    ]
}

// Puts the line of the vehicle's identification number.
fn put_vin(page: &mut Page, vin: &Vin)
    requires { array_vec_len page.old + LINE ≤ PAGE }
    ensures items { Appends page.old.items page.new.items (line (codes "vin") vin.now) }
    ensures len { array_vec_len page.new ≤ array_vec_len page.old + LINE }
{
    put_line(page, b"vin ", vin.text());
}

// Puts the line of the vehicle's energies.
fn put_marks(page: &mut Page, marks: &Marks)
    requires { array_vec_len page.old + LINE ≤ PAGE }
    ensures items { Appends page.old.items page.new.items (line (codes "fuel") (marks_text marks.now)) }
    ensures len { array_vec_len page.new ≤ array_vec_len page.old + LINE }
{
    let digits = marks_text(marks);
    put_line(page, b"fuel ", &digits);
}

// Puts the line of the format.
fn put_format(page: &mut Page, format: Format)
    requires { array_vec_len page.old + LINE ≤ PAGE }
    ensures items { Appends page.old.items page.new.items (line (codes "format") (decimal (format_number format))) }
    ensures len { array_vec_len page.new ≤ array_vec_len page.old + LINE }
{
    put_number(page, b"format ", format.number());
}

/// Puts the lines that say what the set is, and of which vehicle.
pub fn put_vehicle_lines(page: &mut Page, msd: &Msd<'_>)
    requires { array_vec_len page.old + VEHICLE_LINES ≤ PAGE }
    ensures items { Appends page.old.items page.new.items (vehicle_lines msd.now) }
    ensures len { array_vec_len page.new ≤ array_vec_len page.old + VEHICLE_LINES }
{
    put_format(page, msd.format);
    put_number(page, b"message ", msd.message);
    put_truth(page, b"automatic ", msd.automatic);
    put_truth(page, b"test ", msd.test);
    put_truth(page, b"trusted ", msd.trusted);
    put_kind(page, msd.kind);
    put_vin(page, &msd.vin);
    put_marks(page, &msd.fuel);
}

// Puts the line of the time.
fn put_time(page: &mut Page, time: u32)
    requires { array_vec_len page.old + LINE ≤ PAGE }
    ensures items { Appends page.old.items page.new.items (line (codes "time") (decimal time ++ (codes " " ++ instant_text time))) }
    ensures len { array_vec_len page.new ≤ array_vec_len page.old + LINE }
{
    let mut digits = Buffer::new();
    let instant = instant_text(time);
    put(page, b"time ");
    put(page, digits.format(time).as_bytes());
    put(page, b" ");
    put(page, &instant);
    put(page, b"\n");
}

// Puts a line with a latitude or a longitude.
fn put_angle(page: &mut Page, name: &[u8], angle: i32)
    requires name { length name.now ≤ NAME }
    requires room { array_vec_len page.old + LINE ≤ PAGE }
    ensures items { Appends page.old.items page.new.items (name.now ++ angle_text angle ++ codes "\n") }
    ensures len { array_vec_len page.new ≤ array_vec_len page.old + LINE }
{
    if angle == UNKNOWN_ANGLE {
        put_line(page, name, b"unknown");
    } else {
        put_number(page, name, angle);
    }
}

// Puts the line of the heading.
fn put_heading(page: &mut Page, heading: u8)
    requires { array_vec_len page.old + LINE ≤ PAGE }
    ensures items { Appends page.old.items page.new.items (line (codes "heading") (heading_text heading)) }
    ensures len { array_vec_len page.new ≤ array_vec_len page.old + LINE }
{
    if heading == UNKNOWN_HEADING {
        put_line(page, b"heading ", b"unknown");
    } else {
        put_number(page, b"heading ", heading);
    }
}

// Puts a line with the way from a recent location.
fn put_way(page: &mut Page, name: &[u8], way: &Delta)
    requires name { length name.now ≤ NAME }
    requires room { array_vec_len page.old + LINE ≤ PAGE }
    ensures items { Appends page.old.items page.new.items (name.now ++ way_text way.now ++ codes "\n") }
    ensures len { array_vec_len page.new ≤ array_vec_len page.old + LINE }
{
    let mut latitude = Buffer::new();
    let mut longitude = Buffer::new();
    put(page, name);
    put(page, latitude.format(way.latitude()).as_bytes());
    put(page, b" ");
    put(page, longitude.format(way.longitude()).as_bytes());
    put(page, b"\n");
}

// Puts a line with the way from a recent location, if there is one.
fn put_before(page: &mut Page, name: &[u8], way: &Option<Delta>)
    requires name { length name.now ≤ NAME }
    requires room { array_vec_len page.old + LINE ≤ PAGE }
    ensures items { Appends page.old.items page.new.items (name.now ++ or_none way_text way.now ++ codes "\n") }
    ensures len { array_vec_len page.new ≤ array_vec_len page.old + LINE }
{
    match way {
        Some(way) => put_way(page, name, way),
        None => put_line(page, name, b"none"),
    }
}

// Puts the line of the passengers.
fn put_passengers(page: &mut Page, passengers: Option<u8>)
    requires { array_vec_len page.old + LINE ≤ PAGE }
    ensures items { Appends page.old.items page.new.items (line (codes "passengers") (or_none decimal passengers)) }
    ensures len { array_vec_len page.new ≤ array_vec_len page.old + LINE }
{
    match passengers {
        Some(number) => put_number(page, b"passengers ", number),
        None => put_line(page, b"passengers ", b"none"),
    }
}

/// Puts the lines that say when and where the set was made, and who is in the vehicle.
pub fn put_place_lines(page: &mut Page, msd: &Msd<'_>)
    requires { array_vec_len page.old + PLACE_LINES ≤ PAGE }
    ensures items { Appends page.old.items page.new.items (place_lines msd.now) }
    ensures len { array_vec_len page.new ≤ array_vec_len page.old + PLACE_LINES }
{
    put_time(page, msd.time);
    put_angle(page, b"latitude ", msd.latitude);
    put_angle(page, b"longitude ", msd.longitude);
    put_heading(page, msd.heading);
    put_before(page, b"before1 ", &msd.before1);
    put_before(page, b"before2 ", &msd.before2);
    put_passengers(page, msd.passengers);
}
