//! What an event line has happen.

ghost use Rattle.std.specs.Prelude.{◌≡◌, ◌≤◌, ℕ};
ghost use Rattle.channel_sim.specs.Lines as lines;
ghost use Rattle.channel_sim.specs.World as model;
ghost use Rattle.channel_sim.specs.WorldStands.{NeedsCall, TicksIn};
ghost use Rattle.channel_sim.specs.inner.Happenings.{DrawsCall, happens, happening_passes};

use ivs_machine::VehicleEvent;
use link_frames::{End, Why};
use psap_machine::PointEvent;
use trace_model::Event;

/// What an event line has happen, with plain numbers.
#[derive(Drop)]
pub(crate) enum Happening<'a> {
    /// The vehicle hears this.
    Vehicle(VehicleEvent<'a>),
    /// The session of a call hears this.
    Point(u32, PointEvent<'a>),
    DropVehicle,
    DropBoth(u32),
    Answer,
    Callback,
    /// A frame is handed over, by its place among those sent in its call and direction, from 0.
    Deliver { up: bool, call: u32, place: usize },
    Flow { up: bool, delay: u32 },
    /// The point restarts.
    ResetPoint,
    /// So many ticks elapse.
    Elapse(u32),
}

/// What this line has happen.
pub(crate) fn happening_of(event: &Event) -> Happening<'_>
    ensures step { (w : model.World) → lines.step w event.now ≡ happens result w }
    ensures passes { (w : model.World) → lines.passes_within w event.now ≡ happening_passes result w }
    ensures calls { DrawsCall result → NeedsCall event.now }
    ensures ticks { (n : ℕ) → result ≡ Happening.Elapse n → event.now ≡ Event.Tick n }
    ensures elapses { (n : ℕ) → event.now ≡ Event.Tick n → result ≡ Happening.Elapse n }
    ensures few { TicksIn event.now (λ n. n ≤ 4294967295) }
{
    match event {
        Event::Trigger(cause) => Happening::Vehicle(VehicleEvent::Trigger(*cause)),
        Event::Cancel => Happening::Vehicle(VehicleEvent::Cancel),
        Event::Net(up) => Happening::Vehicle(VehicleEvent::Net(*up)),
        Event::Fail => Happening::Vehicle(VehicleEvent::Failed),
        Event::Sleep => Happening::Vehicle(VehicleEvent::Sleep),
        Event::FaultVehicle => Happening::Vehicle(VehicleEvent::Fault),
        Event::FaultPoint(call) => Happening::Point(call.number(), PointEvent::Fault),
        Event::Damaged(call) => Happening::Point(call.number(), PointEvent::Damaged),
        Event::Request(call) => Happening::Point(call.number(), PointEvent::Request),
        Event::Clear(call) => Happening::Point(call.number(), PointEvent::Clear),
        Event::Hangup(call) => Happening::Point(call.number(), PointEvent::Hangup),
        Event::DropPoint(call) => Happening::Point(call.number(), PointEvent::Ended(Why::Lost)),
        Event::DropVehicle => Happening::DropVehicle,
        Event::DropBoth(call) => Happening::DropBoth(call.number()),
        Event::Answer => Happening::Answer,
        Event::Callback => Happening::Callback,
        Event::Deliver { up, call, k } => Happening::Deliver {
            up: *up,
            call: call.number(),
            place: k.number() as usize - 1,
        },
        Event::Flow { up, delay } => Happening::Flow {
            up: *up,
            delay: delay.ticks(),
        },
        Event::Reset(End::Vehicle) => Happening::Vehicle(VehicleEvent::Reset),
        Event::Reset(End::Point) => Happening::ResetPoint,
        Event::Tick(n) => Happening::Elapse(n.number()),
    }
}
