//! What a person is told of how a live end ended.

use line_help::{LineSentence, Seen};
use line_input::BadLine;
use link_frames::Fault;
use link_parts::{LinkFault, PartFault};
use live_link::{Live, LiveStatus};
use std::fmt;

/// Why a live end didn't end with status 0. It is written as a part of one sentence.
#[derive(Clone, Copy, Debug)]
pub struct LiveExplanation {
    pub status: LiveStatus,
    pub end: Live,
}

impl fmt::Display for LiveExplanation {
    fn fmt<W: fmt::Write>(&self, f: &mut fmt::Formatter<W>) -> fmt::Result {
        match self.status {
            LiveStatus::Done => write!(f, "all is done"),
            LiveStatus::Refused(bad) => write_line(f, bad),
            LiveStatus::ReadFault => write!(
                f,
                "reading the script or the link failed; {BEGINNING}"
            ),
            LiveStatus::WriteFault => write!(
                f,
                "writing the trace or to the link failed; {BEGINNING}"
            ),
            LiveStatus::Memory => write!(f, "no memory was left; {BEGINNING}"),
            LiveStatus::TooLong => write!(
                f,
                "the script, or what the other end wrote, has more than 16,777,216 bytes; {BEGINNING}"
            ),
            LiveStatus::PeerEnded => write!(
                f,
                "the vehicle's script is at its end, and a line of this one follows"
            ),
            LiveStatus::LinkCut => write!(f, "the other end ended within a round"),
            LiveStatus::LinkFault(fault) => write_link(f, fault),
            LiveStatus::NoLink => write_no_link(f, self.end),
        }
    }
}

/// Why a line is refused. A live end has lines of its own, so it's told by the reason alone.
fn write_line<W: fmt::Write>(f: &mut fmt::Formatter<W>, bad: BadLine) -> fmt::Result {
    let sentence = LineSentence {
        bad,
        input: None,
        seen: NOTHING,
    };
    write!(f, "{sentence}")
}

/// What is kept of a live script.
const NOTHING: Seen<'static> = Seen {
    text: &[],
    ended: 0,
};

/// What holds of the trace where the answer was cut short.
const BEGINNING: &str = "what was written is the beginning of a trace";

/// Why no link was made.
fn write_no_link<W: fmt::Write>(f: &mut fmt::Formatter<W>, end: Live) -> fmt::Result {
    match end {
        Live::Vehicle(port) => write!(
            f,
            "nobody listens at port {port}; start `ecall point {port}` first"
        ),
        Live::Point(port) => write!(f, "port {port} is taken"),
    }
}

/// With which octet of the other end no message goes on, and where it stands.
fn write_link<W: fmt::Write>(f: &mut fmt::Formatter<W>, fault: LinkFault) -> fmt::Result {
    let place = fault.place;
    let octet = fault.octet;
    let wrong = part_fault(fault.fault);
    let code = fault.fault.code();
    write!(
        f,
        "no message of the other end goes on with the octet {octet}, {wrong}; {place} octets stand before it \
        (fault {code})"
    )
}

/// What is wrong with that octet.
fn part_fault(fault: PartFault) -> &'static str {
    match fault {
        PartFault::Frame(Fault::Kind) => "which is no kind of frame from 1 to 6",
        PartFault::Frame(Fault::Number) => "where a request is 1 or more",
        PartFault::Frame(Fault::Answer) => "where an answer is 1 or 2",
        PartFault::Unsent => "with which it begins no part",
        PartFault::Unnumbered => "where a call's number is 1 or more",
    }
}
