//! The point's session for C.
ghost use Rattle.std.specs.Prelude.{◌↔◌, IsTrue, not, ◌≡◌, ◌≤◌, ◌<◌, IfSome, IsSome, Some, None};
ghost use Rattle.psap_machine.specs.Point.{Point};
ghost use Rattle.psap_machine.specs.SessionStands.{SessionStandsFor};
ghost use Rattle.psap_machine.specs.PointRows.{arriving, called, heard, point_row, Arrives, due_of, units};
ghost use Rattle.psap_machine.specs.declared.session.Session.{Session as Kept};
ghost use Rattle.ecall_c.specs.Places.{IsThere};
ghost use Rattle.ecall_c.specs.Items.{IsFrame, frame_of};
ghost use Rattle.ecall_c.specs.Flat.{or_zero};
ghost use Rattle.ecall_c.specs.Ticks.{IsPassable};
ghost use Rattle.ecall_c.specs.Sessions.{IsPointEvent, Steps, heard_of};
ghost use Rattle.ecall_c.specs.declared.point.TheConstants.{POINT_SIZE};

use crate::frame::{EcallFrame, EcallItems, lift_frame, put_items};
use crate::place::EcallPoint;
use crate::ticks::is_passable;
use link_frames::Why;
use psap_machine::{PointEvent, Session};
use std::marker::Brand;
use std::sync::ledger::{Blank, Ledger};

/// How many bytes a session has.
const POINT_SIZE: usize = std::mem::size_of::<Session>();

/// A call of this number comes in that the vehicle placed: its session, in the room, and what the point does.
#[unsafe(no_mangle)]
pub extern "C" fn ecall_point_arriving(point: &mut EcallPoint, call: u32, items: &mut EcallItems)
    requires { point.old.session ≡ None }
    ensures row { Steps point.new items.new (arriving call) }
{
    let (session, notes) = Session::arriving(call);
    put_items(notes.as_slice(), items);
    point.settle(session);
}

/// The point places a call of this number: its session, in the room, and what the point does.
#[unsafe(no_mangle)]
pub extern "C" fn ecall_point_called(point: &mut EcallPoint, call: u32, items: &mut EcallItems)
    requires { point.old.session ≡ None }
    ensures row { Steps point.new items.new (called call) }
{
    let (session, notes) = Session::called(call);
    put_items(notes.as_slice(), items);
    point.settle(session);
}

/// An event at the point's session.
#[repr(C)]
pub struct EcallPointEvent {
    /// 0 a frame; 1 damaged; 2 the desk asks; 3 it lets the vehicle go; 4 a fault; 5 the desk hangs up; 6 to 8 the call
    /// ended: released, hung up, lost; 9 the point restarts.
    pub kind: u8,
    pub frame: EcallFrame,
}

fn frame_event(frame: &EcallFrame) -> Option<PointEvent<'_>>
    ensures some { IsSome result ↔ IsFrame frame.now }
    ensures value { IfSome result (λ e. heard e ≡ Arrives (frame_of frame.now)) }
{
    match lift_frame(frame) {
        Some(frame) => Some(PointEvent::Frame(frame)),
        None => None,
    }
}

fn lift_event(event: &EcallPointEvent) -> Option<PointEvent<'_>>
    ensures some { IsSome result ↔ IsPointEvent event.now }
    ensures value { IfSome result (λ e. heard e ≡ heard_of event.now) }
{
    match event.kind {
        0 => frame_event(&event.frame),
        1 => Some(PointEvent::Damaged),
        2 => Some(PointEvent::Request),
        3 => Some(PointEvent::Clear),
        4 => Some(PointEvent::Fault),
        5 => Some(PointEvent::Hangup),
        6 => Some(PointEvent::Ended(Why::Release)),
        7 => Some(PointEvent::Ended(Why::Hangup)),
        8 => Some(PointEvent::Ended(Why::Lost)),
        9 => Some(PointEvent::Reset),
        _ => None,
    }
}

/// What the point does at an event. Answers whether it is one.
#[unsafe(no_mangle)]
pub extern "C" fn ecall_point_hear(
    point: &mut EcallPoint,
    event: &EcallPointEvent,
    items: &mut EcallItems,
) -> bool
    requires { IsThere point.old.session }
    ensures heard { IsTrue result ↔ IsPointEvent event.now }
    ensures kept { IsTrue (not result) → (point.new ≡ point.old) × (items.new ≡ items.old) }
    ensures row { (session : Kept) (s : Point) → point.old.session ≡ Some session → SessionStandsFor session s →
        IsPointEvent event.now → Steps point.new items.new (point_row s (heard_of event.now)) }
{
    let Some(event) = lift_event(event) else {
        return false;
    };
    let session = point.session();
    let notes = session.hear(&event);
    put_items(notes.as_slice(), items);
    true
}

/// How many bytes the room of a session has; it is aligned to 8.
#[unsafe(no_mangle)]
pub extern "C" fn ecall_point_size() -> usize
    ensures { result ≡ POINT_SIZE }
{
    POINT_SIZE
}

// After how many ticks it does something.
fn ticks_left(point: &mut EcallPoint) -> Option<u32>
    requires { IsThere point.old.session }
    ensures kept { point.new ≡ point.old }
    ensures due { (session : Kept) (s : Point) → point.old.session ≡ Some session → SessionStandsFor session s →
        result ≡ due_of s }
{
    let session = point.session();
    session.due()
}

/// After how many ticks the point does something; 0 where it does nothing however many pass.
#[unsafe(no_mangle)]
pub extern "C" fn ecall_point_due(point: &mut EcallPoint) -> u32
    requires { IsThere point.old.session }
    ensures kept { point.new ≡ point.old }
    ensures due { (session : Kept) (s : Point) → point.old.session ≡ Some session → SessionStandsFor session s →
        result ≡ or_zero (due_of s) }
{
    ticks_left(point).unwrap_or(0)
}

/// Lets n ticks pass, at least one and at most those that are due. Answers whether they are so many.
#[unsafe(no_mangle)]
pub extern "C" fn ecall_point_pass(point: &mut EcallPoint, n: u32, items: &mut EcallItems) -> bool
    requires { IsThere point.old.session }
    ensures passed { (session : Kept) (s : Point) → point.old.session ≡ Some session → SessionStandsFor session s →
        IsTrue result ↔ IsPassable n (due_of s) }
    ensures kept { IsTrue (not result) → (point.new ≡ point.old) × (items.new ≡ items.old) }
    ensures row { (session : Kept) (s : Point) → point.old.session ≡ Some session → SessionStandsFor session s →
        IsTrue result → Steps point.new items.new (units n s) }
{
    if !is_passable(n, ticks_left(point)) {
        return false;
    }
    let blank = Blank::new(1);
    pass_session::<Brand>(point, n, items, blank);
    true
}

fn pass_session<L: Ledger>(point: &mut EcallPoint, n: u32, items: &mut EcallItems, blank: Blank)
    requires name { blank.name ≡ L.name }
    requires parts { blank.parts ≡ L.parts }
    requires some { 0 < blank.parts }
    requires there { IsThere point.old.session }
    requires least { 1 ≤ n }
    requires due { (session : Kept) (s : Point) → point.old.session ≡ Some session → SessionStandsFor session s →
        IfSome (due_of s) (λ due. n ≤ due) }
    ensures row { (session : Kept) (s : Point) → point.old.session ≡ Some session → SessionStandsFor session s →
        Steps point.new items.new (units n s) }
{
    let mut moments = link_frames::Steps::<L>::start(blank);
    let session = point.session();
    let notes = session.pass(n, &mut moments);
    put_items(notes.as_slice(), items);
}
