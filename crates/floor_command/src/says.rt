//! What a line of a floor's script says.

ghost use Rattle.std.specs.Prelude.{◌≡◌, ℕ, List, IfSome};
ghost use Rattle.line_input.specs.Lines.{line_answer};
ghost use Rattle.call_floor.specs.FloorEvents.{floor_event};
ghost use Rattle.floor_command.specs.FloorScript.{event_says, fact_says, floor_says, numbered_says};
ghost use Rattle.floor_text.specs.VehicleNumbers.{IsVehicle};

use call_floor::{FloorEvent, VehicleNumber};
use floor_text::{NumberedLine, read_floor_line};
use line_input::{BadLine, Line, Reason};
use trace_model::Event;
use trace_text::{FactLine, ScriptLine};

/// What a line of a floor's script says.
#[derive(Clone, Copy, Debug, PartialEq, Eq)]
pub(crate) enum FloorLine {
    /// A fact that a vehicle knows of itself, or its ready set.
    Fact {
        vehicle: VehicleNumber,
        fact: FactLine,
    },
    /// An event.
    Event(FloorEvent),
}

/// What a line of a floor's script says by itself. Whether it may stand where it stands is not judged here.
pub(crate) fn read_says(line: &Line<'_>) -> Result<FloorLine, BadLine>
    ensures { result ≡ line_answer line.now (floor_says line.now.text) }
{
    match read_floor_line(line) {
        Ok(numbered) => at_line(line.number(), says_of(&numbered)),
        Err(bad) => Err(bad),
    }
}

/// What a line of a number says, or why it is refused.
fn at_line(number: u32, says: Result<FloorLine, Reason>) -> Result<FloorLine, BadLine>
    ensures { (text : List ℕ) → result ≡ line_answer (record { number = number; text = text }) says }
{
    match says {
        Ok(says) => Ok(says),
        Err(reason) => Err(BadLine {
            line: number,
            reason,
        }),
    }
}

/// What a line says behind the number of a vehicle, or of none.
fn says_of(line: &NumberedLine) -> Result<FloorLine, Reason>
    requires { IfSome line.now.vehicle IsVehicle }
    ensures { result ≡ numbered_says line.now.vehicle line.now.says }
{
    let vehicle = numbered(line.vehicle);
    match &line.says {
        ScriptLine::Fact(fact) => fact_of(vehicle, fact),
        ScriptLine::Event(event) => event_of(vehicle, event),
    }
}

/// The number of a vehicle, if it is one.
fn numbered(vehicle: Option<u8>) -> Option<VehicleNumber>
    requires { IfSome vehicle IsVehicle }
    ensures { result ≡ vehicle }
{
    match vehicle {
        Some(number) => Some(VehicleNumber::new(number).unwrap()),
        None => None,
    }
}

fn fact_of(vehicle: Option<VehicleNumber>, fact: &FactLine) -> Result<FloorLine, Reason>
    ensures { result ≡ fact_says vehicle fact.now }
{
    match vehicle {
        Some(vehicle) => Ok(FloorLine::Fact {
            vehicle,
            fact: *fact,
        }),
        None => Err(Reason::Word),
    }
}

fn event_of(vehicle: Option<VehicleNumber>, event: &Event) -> Result<FloorLine, Reason>
    ensures { result ≡ event_says (floor_event vehicle event.now) }
{
    match FloorEvent::of(vehicle, event) {
        Some(event) => Ok(FloorLine::Event(event)),
        None => Err(Reason::Word),
    }
}
