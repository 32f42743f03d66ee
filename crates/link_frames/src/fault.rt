//! Octets with which no frame goes on.
ghost use Rattle.std.specs.Prelude.{◌≡◌};
ghost use Rattle.link_frames.specs.FrameOctets.{fault_code};

/// What is wrong with an octet of a stream of frames. This project's profile.
#[derive(Clone, Copy, Debug, PartialEq, Eq)]
pub enum Fault {
    /// A first octet outside 1 to 6.
    Kind,
    /// A request 0.
    Number,
    /// An answer other than 1 or 2.
    Answer,
}

impl Fault {
    /// Its number in a text, 1 to 3.
    pub fn code(self) -> u8
        ensures { result ≡ fault_code self }
    {
        match self {
            Fault::Kind => 1,
            Fault::Number => 2,
            Fault::Answer => 3,
        }
    }
}

/// Where a stream of octets stops being one of frames.
#[derive(Clone, Copy, Debug, PartialEq, Eq)]
pub struct FrameFault {
    /// How many octets of the stream stand before it.
    pub place: u64,
    pub octet: u8,
    pub fault: Fault,
}
