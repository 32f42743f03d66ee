//! The lines of a floor's script.

ghost use Rattle.std.specs.Prelude.{◌≡◌, IfOk, IfSome};
ghost use Rattle.std.specs.Option.{option_copied};
ghost use Rattle.line_input.specs.Arguments.{words_behind};
ghost use Rattle.line_input.specs.Lines.{line_answer};
ghost use Rattle.line_input.specs.Numbers.{is_digit as is_decimal_digit};
ghost use Rattle.trace_text.specs.Script.{script_line};
ghost use Rattle.floor_text.specs.VehicleLines.{begins_with_digit, floor_line, is_for_vehicle as is_vehicle_word, is_of_other as is_other, is_of_vehicle as is_vehicles, may_follow as may_follow_number, may_stand_alone as may_be_alone, names_end as names_an_end, names_shared as names_a_shared, numbered as with_number, own_by_words};
ghost use Rattle.floor_text.specs.VehicleNumbers.{IsVehicle, vehicle_number};

use crate::vehicle::read_vehicle_number;
use line_input::{BadLine, Line, Reason, is_word, split_word};
use trace_text::{ScriptLine, read_text};

/// What a line of a floor's script says, and behind which vehicle's number, 1 to 64, if one stands there.
#[derive(Clone, Copy, Debug, PartialEq, Eq)]
pub struct NumberedLine {
    pub vehicle: Option<u8>,
    pub says: ScriptLine,
}

/// What a line of a floor's script says by itself. Whether it may stand where it stands is not judged here.
pub fn read_floor_line(line: &Line<'_>) -> Result<NumberedLine, BadLine>
    ensures says { result ≡ line_answer line.now (floor_line line.now.text) }
    ensures range { IfOk result (λ line. IfSome line.vehicle IsVehicle) }
{
    match read_by_words(line.text()) {
        Ok(says) => Ok(says),
        Err(reason) => Err(BadLine {
            line: line.number(),
            reason,
        }),
    }
}

fn read_by_words(text: &[u8]) -> Result<NumberedLine, Reason>
    ensures says { result ≡ floor_line text.now }
    ensures range { IfOk result (λ line. IfSome line.vehicle IsVehicle) }
{
    let (first, rest) = split_word(text);
    if is_for_vehicle(first) {
        read_own(first, rest)
    } else if may_stand_alone(first, rest) {
        numbered(None, text)
    } else {
        Err(Reason::Word)
    }
}

/// A line by the first word, which is meant as a vehicle's number, and what stands behind it.
fn read_own(first: &[u8], rest: Option<&[u8]>) -> Result<NumberedLine, Reason>
    ensures says { result ≡ own_by_words (vehicle_number first.now) (words_behind (option_copied rest.entry)) }
    ensures range { IfOk result (λ line. IfSome line.vehicle IsVehicle) }
{
    let text = rest.ok_or(Reason::Count)?;
    let (word, more) = split_word(text);
    let vehicle = read_vehicle_number(first).ok_or(Reason::Number)?;
    if may_follow(word, more) {
        numbered(Some(vehicle), text)
    } else {
        Err(Reason::Word)
    }
}

/// What a line says, behind the number of a vehicle or of none.
fn numbered(vehicle: Option<u8>, text: &[u8]) -> Result<NumberedLine, Reason>
    requires { IfSome vehicle IsVehicle }
    ensures says { result ≡ with_number vehicle (script_line text.now) }
    ensures range { IfOk result (λ line. IfSome line.vehicle IsVehicle) }
{
    let says = read_text(text)?;
    Ok(NumberedLine { vehicle, says })
}

/// Whether a first word is meant as a vehicle's number: it begins with a digit, or with `-` and a digit.
fn is_for_vehicle(first: &[u8]) -> bool
    ensures { result ≡ is_vehicle_word first.now }
{
    match first {
        [] => false,
        [byte, rest @ ..] => is_digit(*byte) || (*byte == b'-' && begins_number(rest)),
    }
}

fn begins_number(text: &[u8]) -> bool
    ensures { result ≡ begins_with_digit text.now }
{
    match text {
        [] => false,
        [byte, ..] => is_digit(*byte),
    }
}

fn is_digit(byte: u8) -> bool
    ensures { result ≡ is_decimal_digit byte }
{
    b'0' <= byte && byte <= b'9'
}

/// Whether a line with this first word may stand behind a vehicle's number.
fn may_follow(first: &[u8], rest: Option<&[u8]>) -> bool
    ensures { result ≡ may_follow_number first.now (words_behind (option_copied rest.entry)) }
{
    if names_end(first) {
        !is_of_other(rest)
    } else {
        !names_shared(first)
    }
}

/// Whether it may stand alone.
fn may_stand_alone(first: &[u8], rest: Option<&[u8]>) -> bool
    ensures { result ≡ may_be_alone first.now (words_behind (option_copied rest.entry)) }
{
    if names_end(first) {
        !is_of_vehicle(rest)
    } else {
        names_shared(first)
    }
}

/// Whether a first word is that of a line that names a call, or is of the whole floor.
fn names_shared(first: &[u8]) -> bool
    ensures { result ≡ names_a_shared first.now }
{
    is_word(first, "deliver")
        || is_word(first, "tick")
        || is_word(first, "flow")
        || is_word(first, "damaged")
        || is_word(first, "request")
        || is_word(first, "clear")
        || is_word(first, "hangup")
}

/// Whether a first word is that of a line whose second word says whose it is.
fn names_end(first: &[u8]) -> bool
    ensures { result ≡ names_an_end first.now }
{
    is_word(first, "fault") || is_word(first, "drop")
}

/// Whether there is a second word, and it is `vehicle`.
fn is_of_vehicle(rest: Option<&[u8]>) -> bool
    ensures { result ≡ is_vehicles (words_behind (option_copied rest.entry)) }
{
    match rest {
        None => false,
        Some(text) => is_word(split_word(text).0, "vehicle"),
    }
}

/// Whether there is a second word, and it is another.
fn is_of_other(rest: Option<&[u8]>) -> bool
    ensures { result ≡ is_other (words_behind (option_copied rest.entry)) }
{
    match rest {
        None => false,
        Some(text) => !is_word(split_word(text).0, "vehicle"),
    }
}
