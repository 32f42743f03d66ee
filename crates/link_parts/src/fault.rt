//! Octets with which no message goes on.

ghost use Rattle.std.specs.Prelude.{◌≡◌};
ghost use Rattle.link_parts.specs.Rounds.{part_fault_code};

use link_frames::Fault;

/// What is wrong with an octet of a stream of messages. This project's profile.
#[derive(Clone, Copy, Debug, PartialEq, Eq)]
pub enum PartFault {
    /// No frame goes on with it.
    Frame(Fault),
    /// A first octet of a part that the other end never sends, or the end of the script within a message.
    Unsent,
    /// The fourth octet of a number that is 0.
    Unnumbered,
}

impl PartFault {
    /// Its number in a text, 1 to 5.
    pub fn code(self) -> u8
        ensures { result ≡ part_fault_code self }
    {
        match self {
            PartFault::Frame(fault) => fault.code(),
            PartFault::Unsent => 4,
            PartFault::Unnumbered => 5,
        }
    }
}

/// Where the octets from the other end stop being messages.
#[derive(Clone, Copy, Debug, PartialEq, Eq)]
pub struct LinkFault {
    /// How many of them stand before it.
    pub place: u32,
    pub fault: PartFault,
    pub octet: u8,
}
