//! The vehicle's end of a call. After EN 16062 and EN 16072; the numbers are this project's profile.
ghost use Rattle.std.specs.Prelude.{◌≡◌, ◌≤◌, IfSome};

mod in_call;
mod moves;
mod outside;
mod series;
mod ticks;

use crate::event::VehicleEvent;
use audio_switch::Switch;
use callback::Rest;
use link_frames::{Items, OCTETS, Request, Requests, Steps, no_items};
use msd_fit::{Cause, Facts};
use redial::Redial;
use std::sync::ledger::Ledger;

/// T1, in which a manual trigger may be cancelled: 5 seconds, in ticks of 100 ms.
const CANCEL_PERIOD: u32 = 50;

/// T2, the longest call: one hour.
const LONGEST_CALL: u32 = 36_000;

/// T3, for which the initiation is sent: 2 seconds.
const INITIATION: u32 = 20;

/// T5, for which the vehicle waits for a request: 5 seconds.
const LONGEST_AWAITING: u32 = 50;

/// T6, for which it waits for the application's acknowledgement: 5 seconds.
const LONGEST_CONFIRMING: u32 = 50;

/// T7, for which it sends a set: 20 seconds.
const LONGEST_SENDING: u32 = 200;

/// How long the voice is muted at most: 32 seconds, the sum of T3, T5, T7 and T6.
const MOST_MUTED: u32 = INITIATION + LONGEST_AWAITING + LONGEST_SENDING + LONGEST_CONFIRMING;

/// For how many ticks the voice is open before a request may mute it.
const LEAST_OPENING: u32 = 20;

/// The ticks between two initiations.
const INITIATES_EVERY: u32 = 5;

/// The ticks between two attempts to send a set.
const SENDS_EVERY: u32 = 13;

/// What the vehicle waits for in a call, with its request.
#[derive(Clone, Copy, Debug, PartialEq, Eq)]
enum CallStage {
    Initiating,
    Awaiting,
    Sending(Request),
    Confirming(Request),
    Talking,
}

/// What the vehicle left for the cancel period of a manual trigger.
#[derive(Clone, Copy, Debug, PartialEq, Eq)]
enum Left {
    Idle,
    Standby,
}

/// What the vehicle is doing.
#[derive(Clone, Copy, Debug, PartialEq, Eq)]
enum Phase {
    Idle,
    Standby,
    Arming(Left),
    InSeries,
    InCall(CallStage),
}

/// The call that the vehicle is in, or was in last.
#[derive(Debug, Drop)]
struct Call {
    number: u32,
    ticks: u32,
    voice: Switch,
    /// Whether T5, T7 or the sum of muted ticks ended in it, or it came by callback.
    settled_without_data: bool,
    /// The greatest request obeyed, and 0 before the first.
    greatest_obeyed: u8,
    /// The set made last, and before the first one that of an earlier call or zeros.
    set: [u8; OCTETS],
    /// The last attempt to send it; the number stays at 255.
    last_attempt: u8,
    /// The requests whose acknowledgement was counted, and whether there is one.
    counted: Requests,
    has_counted: bool,
}

impl Call {
    ghost use Rattle.std.specs.Prelude.{false, []};
    ghost use Rattle.link_frames.specs.Requests.{RequestsStandFor};

    /// No call yet.
    fn none() -> Call
        ensures number { result.number ≡ 0 }
        ensures ticks { result.ticks ≡ 0 }
        ensures settled { result.settled_without_data ≡ false }
        ensures obeyed { result.greatest_obeyed ≡ 0 }
        ensures attempt { result.last_attempt ≡ 0 }
        ensures counted { RequestsStandFor result.counted [] }
        ensures has_counted { result.has_counted ≡ false }
    {
        Call {
            number: 0,
            ticks: 0,
            voice: Switch::muted(MOST_MUTED),
            settled_without_data: false,
            greatest_obeyed: 0,
            set: [0; OCTETS],
            last_attempt: 0,
            counted: Requests::none(),
            has_counted: false,
        }
    }
}

/// The in-vehicle system.
#[derive(Debug, Drop)]
pub struct Ivs {
    facts: Facts,
    phase: Phase,
    network: bool,
    cause: Cause,
    /// The sets made since the trigger; the number stays at 255.
    sets_made: u8,
    /// The dial series that is under way, or was last; before the first any.
    redial: Redial,
    standby: Rest,
    /// The ticks in Arming, or a stage of a call.
    in_phase: u32,
    call: Call,
}

impl Ivs {
    ghost use Rattle.std.specs.Prelude.{◌+◌};
    ghost use Rattle.link_frames.specs.Does.{Does};
    ghost use Rattle.ivs_machine.specs.Vehicle.{Vehicle, first_vehicle, vehicle_call, is_dialling, is_reachable};
    ghost use Rattle.ivs_machine.specs.VehicleRows.{heard, vehicle_row, due_of, units, IsLeastDue};
    ghost use Rattle.ivs_machine.specs.IvsStands.{IvsStandsFor};

    /// A vehicle that knows these facts, before anything happened.
    pub fn new(facts: Facts) -> Ivs
        ensures { IvsStandsFor result (first_vehicle facts) }
    {
        let (redial, _next) = Redial::begin(true);
        Ivs {
            facts,
            phase: Phase::Idle,
            network: true,
            cause: Cause::Auto,
            sets_made: 0,
            redial,
            standby: Rest::enter(),
            in_phase: 0,
            call: Call::none(),
        }
    }

    /// What the vehicle does at an event. Items are in order.
    pub fn hear(&mut self, event: &VehicleEvent<'_>) -> Items
        ensures { Does IvsStandsFor IvsStandsFor self.old self.new result.items (λ v. vehicle_row v (heard event.now)) }
    {
        let mut items = Items::new();
        self.hear_into(event, &mut items);
        items
    }

    /// As `hear`; the items stand in `items`, in place of what stood there, and nothing else is copied.
    #[tactic(auto, using(crate::proofs::Hears::row_stands))]
    pub fn hear_into(&mut self, event: &VehicleEvent<'_>, items: &mut Items)
        ensures { Does IvsStandsFor IvsStandsFor self.old self.new items.new.items
            (λ v. vehicle_row v (heard event.now)) }
    {
        no_items(items);
        match event {
            VehicleEvent::Trigger(cause) => self.trigger(*cause, items),
            VehicleEvent::Cancel => self.cancel(items),
            VehicleEvent::Net(true) => self.net_up(items),
            VehicleEvent::Net(false) => self.net_down(items),
            VehicleEvent::Answered(call) => self.answered(*call, items),
            VehicleEvent::Failed => self.failed(items),
            VehicleEvent::Incoming(call) => self.incoming(*call, items),
            VehicleEvent::Sleep => self.sleep(items),
            VehicleEvent::Fault => self.fault(items),
            VehicleEvent::Hangup => self.hung_up(items),
            VehicleEvent::Lost => self.lost(items),
            VehicleEvent::Frame(frame) => self.frame(frame, items),
            VehicleEvent::Reset => self.restarts(items),
        }
    }

    /// After how many ticks the vehicle does something; `None` where it does nothing however many pass.
    pub fn due(&self) -> Option<u32>
        ensures value { (v : Vehicle) → IvsStandsFor self.now v → result ≡ due_of v }
        ensures least { (v : Vehicle) → IvsStandsFor self.now v → IsLeastDue result v }
    {
        self.ticks_left()
    }

    /// Lets `n` ticks pass, at least one and at most `due`. Items are in order.
    pub fn pass<L: Ledger>(&mut self, n: u32, moments: &mut Steps<L>) -> Items
        requires least { 1 ≤ n }
        requires due { (v : Vehicle) → IvsStandsFor self.old v → IfSome (due_of v) (λ due. n ≤ due) }
        ensures ticks { Does IvsStandsFor IvsStandsFor self.old self.new result.items (units n) }
        ensures moments { moments.new ≡ moments.old + 1 }
    {
        let mut items = Items::new();
        self.pass_into(n, moments, &mut items);
        items
    }

    /// As `pass`; the items stand in `items`, in place of what stood there, and nothing else is copied.
    pub fn pass_into<L: Ledger>(&mut self, n: u32, moments: &mut Steps<L>, items: &mut Items)
        requires least { 1 ≤ n }
        requires due { (v : Vehicle) → IvsStandsFor self.old v → IfSome (due_of v) (λ due. n ≤ due) }
        ensures ticks { Does IvsStandsFor IvsStandsFor self.old self.new items.new.items (units n) }
        ensures moments { moments.new ≡ moments.old + 1 }
    {
        moments.tick();
        no_items(items);
        self.elapse(n, items)
    }

    /// The number of the call that the vehicle is in; `None` exactly where it is in none.
    pub fn call(&self) -> Option<u32>
        ensures { (v : Vehicle) → IvsStandsFor self.now v → result ≡ vehicle_call v }
    {
        match self.phase {
            Phase::InCall(_) => Some(self.call.number),
            _ => None,
        }
    }

    /// Whether the vehicle is dialling.
    pub fn dialling(&self) -> bool
        ensures { (v : Vehicle) → IvsStandsFor self.now v → result ≡ is_dialling v }
    {
        match self.phase {
            Phase::InSeries => self.redial.dialling(),
            _ => false,
        }
    }

    /// Whether the point may call the vehicle: it is in standby, and the network is there.
    pub fn reachable(&self) -> bool
        ensures { (v : Vehicle) → IvsStandsFor self.now v → result ≡ is_reachable v }
    {
        match self.phase {
            Phase::Standby => self.network,
            _ => false,
        }
    }
}
