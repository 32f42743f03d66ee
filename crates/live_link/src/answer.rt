//! Which end of a live link runs, over what, and how its run ended.

ghost use Rattle.std.specs.Prelude.{◌≡◌};
ghost use Rattle.live_link.specs.LiveCodes.{live_code};

use line_input::BadLine;
use link_parts::LinkFault;

/// Which end of a live link, with the port that it connects to, or listens on: 1 to 65535.
#[derive(Clone, Copy, Debug, PartialEq, Eq)]
pub enum Live {
    Vehicle(u16),
    Point(u16),
}

/// How a live run ended. The program's exit status is its number.
#[derive(Clone, Copy, Debug, PartialEq, Eq)]
pub enum LiveStatus {
    /// The script was read to its end, and so was that of the vehicle.
    Done,
    /// A line of the script is refused, and why.
    Refused(BadLine),
    /// A read failed.
    ReadFault,
    /// A write failed.
    WriteFault,
    /// There was no memory.
    Memory,
    /// The script, or what the other end wrote, has more than 16,777,216 bytes.
    TooLong,
    /// The vehicle's script is at its end, and a line of the point's follows.
    PeerEnded,
    /// The other end ended within a round.
    LinkCut,
    /// No message goes on with an octet of the other end.
    LinkFault(LinkFault),
    /// There is no link.
    NoLink,
}

impl LiveStatus {
    /// Its number, 0 to 11.
    pub fn code(&self) -> u8
        ensures { result ≡ live_code self.now }
    {
        match self {
            LiveStatus::Done => 0,
            LiveStatus::Refused(_) => 2,
            LiveStatus::ReadFault => 4,
            LiveStatus::WriteFault => 5,
            LiveStatus::Memory => 6,
            LiveStatus::TooLong => 7,
            LiveStatus::PeerEnded => 8,
            LiveStatus::LinkCut => 9,
            LiveStatus::LinkFault(_) => 10,
            LiveStatus::NoLink => 11,
        }
    }
}

/// What goes between the two ends: the octets from the other, and the octets to it.
#[derive(Drop)]
pub struct Link<I, P> {
    pub from: I,
    pub to: P,
}
