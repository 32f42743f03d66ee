//! The commands.

ghost use Rattle.std.specs.Prelude.{◌≡◌, map};
ghost use Rattle.std.specs.String.{string_bytes};
ghost use Rattle.ecall_top.specs.Commands.{command_named, command_noisy, command_numbered, command_of};

use line_input::read_u32;
use tones_command::Noise;

/// What the words ask for.
#[derive(Clone, Copy, Debug, PartialEq, Eq)]
pub enum Command {
    /// Play the script that the input has, and write its trace.
    Run,
    /// Play the script that the input has, and write the register of its calls.
    Register,
    /// Describe the sets of data that the input has, one on each line.
    Decode,
    /// Write the octets of the sets that the lines of the input ask for, each of the facts so far.
    Encode,
    /// Write the frames of the stream that the input has, in pieces of one line each.
    Frames,
    /// Say whether the trace that the input has is safe, and where it breaks a rule.
    Replay,
    /// Write the script of a number.
    Make(u32),
    /// Play the script of a number, and write what its trace comes to.
    Trial(u32),
    /// Write the sets of the vectors, or why they are none.
    Conform,
    /// Play the script that the input has, with a modem on a noisy line behind its `deliver` lines, and write its trace.
    Tones(Noise),
    /// Play the script of a floor of vehicles that the input has, and write the floor's trace.
    Floor,
    /// Play the script that the input has, with a relay desk behind the point, and write its trace.
    Relay,
}

/// The command that the words name, if they name one.
pub(crate) fn read_command(words: &[String]) -> Option<Command>
    ensures { result ≡ command_of (map string_bytes words.now) }
{
    match words {
        [word] => read_word(word.as_str()),
        [word, number] => read_numbered(word.as_str(), read_u32(number.as_bytes())?),
        [word, most, number] => {
            read_noisy(
                word.as_str(),
                read_u32(most.as_bytes())?,
                read_u32(number.as_bytes())?,
            )
        }
        _ => None,
    }
}

/// The command of one word.
fn read_word(word: &str) -> Option<Command>
    ensures { result ≡ command_named word.now }
{
    if word == "run" {
        Some(Command::Run)
    } else if word == "register" {
        Some(Command::Register)
    } else if word == "decode" {
        Some(Command::Decode)
    } else if word == "encode" {
        Some(Command::Encode)
    } else if word == "frames" {
        Some(Command::Frames)
    } else if word == "replay" {
        Some(Command::Replay)
    } else if word == "conform" {
        Some(Command::Conform)
    } else if word == "floor" {
        Some(Command::Floor)
    } else if word == "relay" {
        Some(Command::Relay)
    } else {
        None
    }
}

/// The command of a word and two numbers: the most by which noise moves a sample, and that from which it is drawn.
fn read_noisy(word: &str, most: u32, number: u32) -> Option<Command>
    ensures { result ≡ command_noisy word.now most number }
{
    if word == "tones" {
        match Noise::new(most, number) {
            Some(noise) => Some(Command::Tones(noise)),
            None => None,
        }
    } else {
        None
    }
}

/// The command of a word and a number.
fn read_numbered(word: &str, number: u32) -> Option<Command>
    ensures { result ≡ command_numbered word.now number }
{
    if word == "make" {
        Some(Command::Make(number))
    } else if word == "trial" {
        Some(Command::Trial(number))
    } else {
        None
    }
}
