//! The fact lines of a text, each read by a function of its own.

ghost use Rattle.std.specs.Prelude.{◌≡◌, false, ℕ, List, None};
ghost use Rattle.std.specs.List.{list_all};
ghost use Rattle.std.specs.Option.{is_some, option_copied};
ghost use Rattle.trace_text.specs.inner.ShortFacts.{extra_fact, said, says_or};
ghost use Rattle.trace_text.specs.FactLines.{before1_line, before2_line, extra_line, format_line, fuel_line, heading_line, is_mark as is_mark_digit, kind_line, marks_of, own_fact, passengers_line, place_line, set_line, time_line, trusted_line, vehicle_fact, vin_line, vin_text, way_fact, way_text};
ghost use Rattle.line_input.specs.Numbers.{positive_below};
ghost use Rattle.line_input.specs.Arguments.{words_behind};

use crate::choices::{read_format_number, read_yes_or_no};
use crate::fact_line::{FactLine, ShortFact};
use crate::hexadecimal::{read_candidate, read_set_octets};
use line_input::{
    Reason, is_word, only_argument, read_positive_u8, read_signed, read_u8, read_u32, two_arguments,
};
use msd_values::{Delta, Marks, RootKind, Vin};

/// The limit of an angle, in milliarcseconds.
const ANGLE_LIMIT: u32 = 2147483648;

/// The limit of a way's numbers.
const WAY_LIMIT: u32 = 512;

/// Whether the first word is that of a fact that the vehicle knows of itself.
pub fn names_own_fact(first: &[u8]) -> bool
    ensures { (rest : List (List ℕ)) → result ≡ is_some (own_fact first.now rest) }
{
    names_vehicle_fact(first) || names_way_fact(first)
}

fn names_vehicle_fact(first: &[u8]) -> bool
    ensures { (rest : List (List ℕ)) → result ≡ is_some (vehicle_fact first.now rest) }
{
    is_word(first, "vin")
        || is_word(first, "kind")
        || is_word(first, "format")
        || is_word(first, "fuel")
        || is_word(first, "passengers")
        || is_word(first, "extra")
}

fn names_way_fact(first: &[u8]) -> bool
    ensures { (rest : List (List ℕ)) → result ≡ is_some (way_fact first.now rest) }
{
    is_word(first, "time")
        || is_word(first, "place")
        || is_word(first, "heading")
        || is_word(first, "trusted")
        || is_word(first, "before1")
        || is_word(first, "before2")
}

/// A fact that the vehicle knows of itself, where the first word is that of one.
pub fn read_own_fact(first: &[u8], rest: Option<&[u8]>) -> Option<Result<FactLine, Reason>>
    ensures { result ≡ own_fact first.now (words_behind (option_copied rest.entry)) }
{
    match read_short_fact(first, rest) {
        Some(says) => Some(whole(says)),
        None => read_extra_fact(first, rest),
    }
}

/// What a short fact's line says, with room for every fact.
fn whole(says: Result<ShortFact, Reason>) -> Result<FactLine, Reason>
    ensures { result ≡ said says }
{
    let fact = says?;
    Ok(fact.whole())
}

/// A fact that the vehicle knows of itself, but for additional data, where the first word is that of one.
pub fn read_short_fact(first: &[u8], rest: Option<&[u8]>) -> Option<Result<ShortFact, Reason>>
    ensures { says_or result (extra_fact first.now (words_behind (option_copied rest.entry))) ≡
        own_fact first.now (words_behind (option_copied rest.entry)) }
{
    match read_vehicle_fact(first, rest) {
        Some(says) => Some(says),
        None if is_word(first, "extra") => None,
        None => read_way_fact(first, rest),
    }
}

/// Additional data, where the first word is theirs.
pub fn read_extra_fact(first: &[u8], rest: Option<&[u8]>) -> Option<Result<FactLine, Reason>>
    ensures { result ≡ extra_fact first.now (words_behind (option_copied rest.entry)) }
{
    if is_word(first, "extra") {
        Some(read_extra(rest))
    } else {
        None
    }
}

/// A fact about the vehicle, but for additional data.
fn read_vehicle_fact(first: &[u8], rest: Option<&[u8]>) -> Option<Result<ShortFact, Reason>>
    ensures { says_or result (extra_fact first.now (words_behind (option_copied rest.entry))) ≡
        vehicle_fact first.now (words_behind (option_copied rest.entry)) }
{
    if is_word(first, "vin") {
        Some(read_vin(rest))
    } else if is_word(first, "kind") {
        Some(read_kind(rest))
    } else if is_word(first, "format") {
        Some(read_format(rest))
    } else if is_word(first, "fuel") {
        Some(read_fuel(rest))
    } else if is_word(first, "passengers") {
        Some(read_passengers(rest))
    } else {
        None
    }
}

/// A fact about its way.
fn read_way_fact(first: &[u8], rest: Option<&[u8]>) -> Option<Result<ShortFact, Reason>>
    ensures { says_or result None ≡ way_fact first.now (words_behind (option_copied rest.entry)) }
{
    if is_word(first, "time") {
        Some(read_time(rest))
    } else if is_word(first, "place") {
        Some(read_place(rest))
    } else if is_word(first, "heading") {
        Some(read_heading(rest))
    } else if is_word(first, "trusted") {
        Some(read_trusted(rest))
    } else if is_word(first, "before1") {
        Some(read_before1(rest))
    } else if is_word(first, "before2") {
        Some(read_before2(rest))
    } else {
        None
    }
}

/// `vin <17 characters>`.
fn read_vin(rest: Option<&[u8]>) -> Result<ShortFact, Reason>
    ensures { said result ≡ vin_line (words_behind (option_copied rest.entry)) }
{
    let text = only_argument(rest).ok_or(Reason::Count)?;
    let vin = read_vin_text(text).ok_or(Reason::Word)?;
    Ok(ShortFact::Vin(vin))
}

/// `kind <1..13>`.
fn read_kind(rest: Option<&[u8]>) -> Result<ShortFact, Reason>
    ensures { said result ≡ kind_line (words_behind (option_copied rest.entry)) }
{
    let text = only_argument(rest).ok_or(Reason::Count)?;
    let kind = read_kind_number(text).ok_or(Reason::Number)?;
    Ok(ShortFact::Kind(kind))
}

/// `fuel <seven digits 0 or 1>`.
fn read_fuel(rest: Option<&[u8]>) -> Result<ShortFact, Reason>
    ensures { said result ≡ fuel_line (words_behind (option_copied rest.entry)) }
{
    let text = only_argument(rest).ok_or(Reason::Count)?;
    let marks = read_marks(text).ok_or(Reason::Word)?;
    Ok(ShortFact::Fuel(marks))
}

/// `format 1|2`.
fn read_format(rest: Option<&[u8]>) -> Result<ShortFact, Reason>
    ensures { said result ≡ format_line (words_behind (option_copied rest.entry)) }
{
    let text = only_argument(rest).ok_or(Reason::Count)?;
    let format = read_format_number(text).ok_or(Reason::Word)?;
    Ok(ShortFact::Format(format))
}

/// `time <0..4294967295>`.
fn read_time(rest: Option<&[u8]>) -> Result<ShortFact, Reason>
    ensures { said result ≡ time_line (words_behind (option_copied rest.entry)) }
{
    let text = only_argument(rest).ok_or(Reason::Count)?;
    let time = read_u32(text).ok_or(Reason::Number)?;
    Ok(ShortFact::Time(time))
}

/// `place <latitude> <longitude>`.
fn read_place(rest: Option<&[u8]>) -> Result<ShortFact, Reason>
    ensures { said result ≡ place_line (words_behind (option_copied rest.entry)) }
{
    let (latitude, longitude) = two_arguments(rest).ok_or(Reason::Count)?;
    let latitude = read_signed(latitude, ANGLE_LIMIT).ok_or(Reason::Number)?;
    let longitude = read_signed(longitude, ANGLE_LIMIT).ok_or(Reason::Number)?;
    Ok(ShortFact::Place {
        latitude,
        longitude,
    })
}

/// `heading <0..255>`.
fn read_heading(rest: Option<&[u8]>) -> Result<ShortFact, Reason>
    ensures { said result ≡ heading_line (words_behind (option_copied rest.entry)) }
{
    let text = only_argument(rest).ok_or(Reason::Count)?;
    let heading = read_u8(text).ok_or(Reason::Number)?;
    Ok(ShortFact::Heading(heading))
}

/// `trusted yes|no`.
fn read_trusted(rest: Option<&[u8]>) -> Result<ShortFact, Reason>
    ensures { said result ≡ trusted_line (words_behind (option_copied rest.entry)) }
{
    let text = only_argument(rest).ok_or(Reason::Count)?;
    let trusted = read_yes_or_no(text).ok_or(Reason::Word)?;
    Ok(ShortFact::Trusted(trusted))
}

/// `before1 <latitude> <longitude>`.
fn read_before1(rest: Option<&[u8]>) -> Result<ShortFact, Reason>
    ensures { said result ≡ before1_line (words_behind (option_copied rest.entry)) }
{
    let (latitude, longitude) = two_arguments(rest).ok_or(Reason::Count)?;
    let way = read_way(latitude, longitude).ok_or(Reason::Number)?;
    Ok(ShortFact::Before1(way))
}

/// `before2 <latitude> <longitude>`.
fn read_before2(rest: Option<&[u8]>) -> Result<ShortFact, Reason>
    ensures { said result ≡ before2_line (words_behind (option_copied rest.entry)) }
{
    let (latitude, longitude) = two_arguments(rest).ok_or(Reason::Count)?;
    let way = read_way(latitude, longitude).ok_or(Reason::Number)?;
    Ok(ShortFact::Before2(way))
}

/// `passengers <0..255>`.
fn read_passengers(rest: Option<&[u8]>) -> Result<ShortFact, Reason>
    ensures { said result ≡ passengers_line (words_behind (option_copied rest.entry)) }
{
    let text = only_argument(rest).ok_or(Reason::Count)?;
    let count = read_u8(text).ok_or(Reason::Number)?;
    Ok(ShortFact::Passengers(count))
}

/// `extra <oid> <data>`.
fn read_extra(rest: Option<&[u8]>) -> Result<FactLine, Reason>
    ensures { result ≡ extra_line (words_behind (option_copied rest.entry)) }
{
    let (oid, content) = two_arguments(rest).ok_or(Reason::Count)?;
    let candidate = read_candidate(oid, content).ok_or(Reason::Hex)?;
    Ok(FactLine::Extra(candidate))
}

/// `set <hexadecimal>`.
pub fn read_set(rest: Option<&[u8]>) -> Result<FactLine, Reason>
    ensures { result ≡ set_line (words_behind (option_copied rest.entry)) }
{
    let text = only_argument(rest).ok_or(Reason::Count)?;
    let octets = read_set_octets(text).ok_or(Reason::Hex)?;
    Ok(FactLine::Set(octets))
}

/// A vehicle identification number.
fn read_vin_text(text: &[u8]) -> Option<Vin>
    ensures { result ≡ vin_text text.now }
{
    match Vin::read(text) {
        Ok(vin) => Some(vin),
        Err(_) => None,
    }
}

/// A category's number, 1 to 13.
fn read_kind_number(text: &[u8]) -> Option<RootKind>
    ensures { result ≡ positive_below 14 text.now }
{
    RootKind::new(read_positive_u8(text, 14)?)
}

/// Seven digits 0 or 1, in the order of the set of data.
fn read_marks(text: &[u8]) -> Option<Marks>
    ensures { result ≡ marks_of text.now }
{
    if text.len() != 7 || !are_marks(text) {
        return None;
    }
    Some(Marks {
        gasoline: text[0] == b'1',
        diesel: text[1] == b'1',
        natural_gas: text[2] == b'1',
        propane: text[3] == b'1',
        electric: text[4] == b'1',
        hydrogen: text[5] == b'1',
        other: text[6] == b'1',
    })
}

/// Whether each byte is a digit 0 or 1.
fn are_marks(text: &[u8]) -> bool
    ensures { result ≡ list_all is_mark_digit text.now }
{
    text.iter().all(|byte| *byte == b'0' || *byte == b'1')
}

/// A way of two numbers, each from -512 to 511.
fn read_way(latitude: &[u8], longitude: &[u8]) -> Option<Delta>
    ensures { result ≡ way_text latitude.now longitude.now }
{
    let latitude = read_signed(latitude, WAY_LIMIT)?;
    let longitude = read_signed(longitude, WAY_LIMIT)?;
    Delta::new(latitude as i16, longitude as i16)
}
