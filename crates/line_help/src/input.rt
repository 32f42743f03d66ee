//! What an input has on its lines.

use crate::tables::{DESK, ENTRIES, FACTS, NUMBERED, OCTETS, POINT, SHARED, VEHICLE, WRITE};

/// What an input has on its lines.
#[derive(Clone, Copy, Debug, PartialEq, Eq)]
pub enum Input {
    /// The lines of a script.
    Script,
    /// Those of a script with a relay desk.
    RelayScript,
    /// Those of a floor's script that name a call, or are of the whole floor.
    Floor,
    /// What stands behind a vehicle's number in a floor's script.
    FloorVehicle,
    /// Facts, and lines that ask for a set.
    Facts,
    /// The entries of a trace.
    Trace,
    /// Octets in hexadecimal, one word a line.
    Octets,
}

/// The forms of an input's lines, by groups.
pub(crate) type Groups = [&'static [&'static str]; 5];

impl Input {
    ghost use Rattle.std.specs.Prelude.{◌≡◌};
    ghost use Rattle.line_help.specs.Inputs.{input_of};

    /// What the command of this name reads; none where it reads nothing.
    pub fn of_command(name: &str) -> Option<Input>
        ensures { result ≡ input_of name.now }
    {
        if name == "run" {
            Some(Input::Script)
        } else if name == "register" {
            Some(Input::Script)
        } else if name == "tones" {
            Some(Input::Script)
        } else if name == "relay" {
            Some(Input::RelayScript)
        } else if name == "floor" {
            Some(Input::Floor)
        } else if name == "encode" {
            Some(Input::Facts)
        } else if name == "replay" {
            Some(Input::Trace)
        } else if name == "decode" {
            Some(Input::Octets)
        } else if name == "frames" {
            Some(Input::Octets)
        } else {
            None
        }
    }

    /// The forms of its lines.
    pub(crate) fn groups(self) -> Groups {
        match self {
            Input::Script => [&FACTS, &VEHICLE, &SHARED, &POINT, &[]],
            Input::RelayScript => [&FACTS, &VEHICLE, &SHARED, &POINT, &DESK],
            Input::Floor => [&NUMBERED, &SHARED, &[], &[], &[]],
            Input::FloorVehicle => [&FACTS, &VEHICLE, &[], &[], &[]],
            Input::Facts => [&FACTS, &WRITE, &[], &[], &[]],
            Input::Trace => [&ENTRIES, &[], &[], &[], &[]],
            Input::Octets => [&OCTETS, &[], &[], &[], &[]],
        }
    }
}
