//! What happens at a relay desk, and what comes of it.

use link_frames::OCTETS;

/// What happens at a relay desk.
#[derive(Clone, Copy, Debug, PartialEq, Eq)]
pub enum RelayEvent {
    /// The point shows this set in that call, for a request of that call. It is from then on the one shown last there.
    Shown {
        call: u32,
        request: u8,
        octets: [u8; OCTETS],
    },
    /// The set shown last in that call is to go on to the second point.
    Pass(u32),
    /// The k-th message ever sent to the second point, from 1, is handed over.
    Forth(u32),
    /// The k-th message ever sent back by the second point, from 1, is handed over.
    Back(u32),
    /// So many unit ticks of 100 ms pass.
    Units(u32),
}

/// An item of a relay desk or of the second point. `desk` is the number of a desk request, from 1.
#[derive(Clone, Copy, Debug, PartialEq, Eq)]
pub enum RelayNote {
    /// The desk sends a message with this set to the second point.
    Forth {
        desk: u32,
        call: u32,
        request: u8,
        octets: [u8; OCTETS],
    },
    /// The second point shows this set.
    Shown {
        desk: u32,
        call: u32,
        request: u8,
        octets: [u8; OCTETS],
    },
    /// The second point sends back that it has the set of this desk request.
    Back(u32),
    /// The desk hears that the second point has the set of this desk request, which was pending.
    Done(u32),
    /// The desk gives this desk request up.
    GaveUp(u32),
    /// No set was shown in this call, and none goes on.
    Unshown(u32),
    /// There is no such message.
    Nothing,
}
