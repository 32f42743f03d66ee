//! Frames and items as flat structs of C.
ghost use Rattle.std.specs.Prelude.{◌≡◌, ◌≤◌, ◌↔◌, false, length, take, map, IsSome, IfSome};
ghost use Rattle.link_frames.specs.Frame.{lent};
ghost use Rattle.ecall_c.specs.Items.{IsFrame, frame_of, flat_frame, flat_item, full, no_frame, end_code, why_code, timer_code};

use link_frames::{Answer, End, Frame, FrameRef, Note, OCTETS, Request, Timer, Why};

/// A frame.
#[repr(C)]
#[derive(Clone, Copy, PartialEq, Eq)]
pub struct EcallFrame {
    /// 0 to 6: INIT, START, CONTENT, NACK, ACK, a positive acknowledgement of the application, one that clears.
    pub kind: u8,
    pub request: u8,
    pub attempt: u8,
    pub octets: [u8; 140],
}

/// An item of a trace.
#[repr(C)]
#[derive(Clone, Copy, PartialEq, Eq)]
pub struct EcallItem {
    pub call: u32,
    pub kind: u8,
    /// 0 for the vehicle, 1 for the point.
    pub at_point: u8,
    /// A dial attempt, a cause, a timer.
    pub number: u8,
    pub up: bool,
    pub down: bool,
    pub frame: EcallFrame,
}

/// The items of one step, in order.
#[repr(C)]
pub struct EcallItems {
    pub count: u8,
    pub items: [EcallItem; 8],
}

/// The frame, where it is one.
pub fn lift_frame(frame: &EcallFrame) -> Option<FrameRef<'_>>
    ensures some { IsSome result ↔ IsFrame frame.now }
    ensures value { IfSome result (λ f. lent f ≡ frame_of frame.now) }
{
    if frame.kind == 0 {
        return Some(FrameRef::Init);
    }
    let request = Request::new(frame.request)?;
    match frame.kind {
        1 => Some(FrameRef::Start(request)),
        2 => Some(FrameRef::Content {
            request,
            attempt: frame.attempt,
            octets: &frame.octets,
        }),
        3 => Some(FrameRef::Nack(request)),
        4 => Some(FrameRef::Ack(request)),
        5 => Some(FrameRef::App {
            request,
            answer: Answer::Positive,
        }),
        6 => Some(FrameRef::App {
            request,
            answer: Answer::Clear,
        }),
        _ => None,
    }
}

pub fn flat(kind: u8, request: u8, attempt: u8, octets: &[u8; OCTETS]) -> EcallFrame
    ensures { result ≡ record { kind = kind; request = request; attempt = attempt; octets = octets.now } }
{
    EcallFrame {
        kind,
        request,
        attempt,
        octets: *octets,
    }
}

pub const NO_OCTETS: [u8; OCTETS] = [0; OCTETS];

pub fn flatten_frame(frame: &Frame) -> EcallFrame
    ensures { result ≡ flat_frame frame.now }
{
    match frame {
        Frame::Init => flat(0, 0, 0, &NO_OCTETS),
        Frame::Start(request) => flat(1, request.number(), 0, &NO_OCTETS),
        Frame::Content {
            request,
            attempt,
            octets,
        } => flat(2, request.number(), *attempt, octets),
        Frame::Nack(request) => flat(3, request.number(), 0, &NO_OCTETS),
        Frame::Ack(request) => flat(4, request.number(), 0, &NO_OCTETS),
        Frame::App {
            request,
            answer: Answer::Positive,
        } => flat(5, request.number(), 0, &NO_OCTETS),
        Frame::App {
            request,
            answer: Answer::Clear,
        } => flat(6, request.number(), 0, &NO_OCTETS),
    }
}

fn end_number(end: End) -> u8
    ensures { result ≡ end_code end }
{
    match end {
        End::Vehicle => 0,
        End::Point => 1,
    }
}

fn why_number(why: Why) -> u8
    ensures { result ≡ why_code why }
{
    match why {
        Why::Release => 0,
        Why::Hangup => 1,
        Why::Lost => 2,
    }
}

fn timer_number(timer: Timer) -> u8
    ensures { result ≡ timer_code timer }
{
    match timer {
        Timer::T1 => 1,
        Timer::T2 => 2,
        Timer::T3 => 3,
        Timer::T4 => 4,
        Timer::T5 => 5,
        Timer::T6 => 6,
        Timer::T7 => 7,
        Timer::T8 => 8,
        Timer::T10 => 10,
        Timer::TD => 11,
        Timer::TW => 12,
        Timer::Sum => 13,
    }
}

pub const NO_FRAME: EcallFrame = EcallFrame {
    kind: 0,
    request: 0,
    attempt: 0,
    octets: NO_OCTETS,
};

fn bare(kind: u8, call: u32, at_point: u8, number: u8) -> EcallItem
    ensures { result ≡ Rattle.ecall_c.specs.Items.bare kind call at_point number }
{
    EcallItem {
        call,
        kind,
        at_point,
        number,
        up: false,
        down: false,
        frame: NO_FRAME,
    }
}

/// Both voice ways of an end.
fn voices(end: End, call: u32, up: bool, down: bool) -> EcallItem
    ensures { result ≡ full 12 call (end_code end) 0 up down no_frame }
{
    EcallItem {
        up,
        down,
        ..bare(12, call, end_number(end), 0)
    }
}

/// An item that has a frame.
fn with_frame(kind: u8, call: u32, at_point: u8, frame: EcallFrame) -> EcallItem
    ensures { result ≡ full kind call at_point 0 false false frame }
{
    EcallItem {
        frame,
        ..bare(kind, call, at_point, 0)
    }
}

/// The item as a flat struct.
pub fn flatten_item(note: &Note) -> EcallItem
    ensures { result ≡ flat_item note.now }
{
    match note {
        Note::Nothing => bare(0, 0, 0, 0),
        Note::Dial(attempt) => bare(1, 0, 0, attempt.number()),
        Note::Failed(attempt) => bare(2, 0, 0, attempt.number()),
        Note::GaveUp => bare(3, 0, 0, 0),
        Note::Seeking => bare(4, 0, 0, 0),
        Note::Arming => bare(5, 0, 0, 0),
        Note::Cancelled => bare(6, 0, 0, 0),
        Note::Standby => bare(7, 0, 0, 0),
        Note::Idle => bare(8, 0, 0, 0),
        Note::Net(is_up) => EcallItem {
            up: *is_up,
            ..bare(9, 0, 0, 0)
        },
        Note::Up { end, call } => bare(10, *call, end_number(*end), 0),
        Note::Down { end, call, why } => bare(11, *call, end_number(*end), why_number(*why)),
        Note::Voice {
            end,
            call,
            up,
            down,
        } => voices(*end, *call, *up, *down),
        Note::Send { end, call, frame } => {
            with_frame(13, *call, end_number(*end), flatten_frame(frame))
        }
        Note::Shown {
            call,
            request,
            octets,
        } => with_frame(14, *call, 1, flat(2, request.number(), 0, octets)),
        Note::Acked {
            call,
            request,
            octets,
        } => with_frame(15, *call, 0, flat(2, request.number(), 0, octets)),
        Note::Ended { end, call, timer } => {
            bare(16, *call, end_number(*end), timer_number(*timer))
        }
        Note::Fault { end, call } => bare(17, *call, end_number(*end), 0),
        Note::Busy(call) => bare(18, *call, 0, 0),
        Note::Spent(call) => bare(19, *call, 0, 0),
        Note::Unshown(call) => bare(20, *call, 0, 0),
        Note::Restart(end) => bare(21, 0, end_number(*end), 0),
    }
}

/// Writes the items to the front.
pub fn put_items(notes: &[Note], out: &mut EcallItems)
    requires { length notes.now ≤ 8 }
    ensures count { out.new.count ≡ length notes.now }
    ensures items { take (length notes.now) out.new.items ≡ map flat_item notes.now }
{
    out.count = notes.len() as u8;
    put_front(notes, &mut out.items);
}

#[tactic(auto, using(std::proofs::lemmas::List::take_more_set, std::proofs::lemmas::List::map_more))]
fn put_front(notes: &[Note], items: &mut [EcallItem; 8])
    requires { length notes.now ≤ 8 }
    ensures { take (length notes.now) items.new ≡ map flat_item notes.now }
{
    for i in 0..notes.len() {
        items[i] = flatten_item(&notes[i]);
    }
}
