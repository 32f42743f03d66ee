//! The vehicle for C.
ghost use Rattle.std.specs.Prelude.{◌↔◌, IsTrue, not, ◌≡◌, ◌≤◌, ◌<◌, IfSome, IsSome, Some, None};
ghost use Rattle.ivs_machine.specs.Vehicle.{Vehicle, first_vehicle};
ghost use Rattle.ivs_machine.specs.IvsStands.{IvsStandsFor};
ghost use Rattle.ivs_machine.specs.VehicleRows.{vehicle_row, heard, Arrives, due_of, units};
ghost use Rattle.ivs_machine.specs.declared.vehicle.Ivs.{Ivs as Kept};
ghost use Rattle.ecall_c.specs.Seats.{IsThere};
ghost use Rattle.msd_fit.specs.declared.facts.Facts.TheVariants as known;
ghost use Rattle.ecall_c.specs.Items.{IsFrame, frame_of};
ghost use Rattle.ecall_c.specs.Flat.{or_zero};
ghost use Rattle.ecall_c.specs.Facts.{AreFacts, own_of};
ghost use Rattle.ecall_c.specs.Ticks.{IsPassable};
ghost use Rattle.ecall_c.specs.Vehicles.{IsVehicleEvent, Stands, Steps, heard_of};
ghost use Rattle.ecall_c.specs.declared.vehicle.TheConstants.{VEHICLE_SIZE};

use crate::facts::{EcallFacts, own};
use crate::frame::{EcallFrame, EcallItems, lift_frame, put_items};
use crate::seat::EcallVehicle;
use crate::ticks::is_passable;
use ivs_machine::{Ivs, VehicleEvent};
use msd_fit::{Cause, Facts};
use std::marker::Brand;
use std::sync::ledger::{Blank, Ledger};

/// How many bytes a vehicle has.
const VEHICLE_SIZE: usize = std::mem::size_of::<Ivs>();

/// A vehicle that is to send this set, in the room, before anything happened.
#[unsafe(no_mangle)]
pub extern "C" fn ecall_vehicle_new(vehicle: &mut EcallVehicle, set: &[u8; 140])
    requires { vehicle.old.ivs ≡ None }
    ensures { Stands vehicle.new (first_vehicle (known.Ready set.now)) }
{
    vehicle.settle(Ivs::new(Facts::Ready(*set)));
}

/// A vehicle that knows these facts, in the room, before anything happened. Answers whether they are facts.
#[unsafe(no_mangle)]
pub extern "C" fn ecall_vehicle_knows(vehicle: &mut EcallVehicle, facts: &EcallFacts) -> bool
    requires { vehicle.old.ivs ≡ None }
    ensures known { IsTrue result ↔ AreFacts facts.now }
    ensures kept { IsTrue (not result) → vehicle.new ≡ vehicle.old }
    ensures stands { IsTrue result → Stands vehicle.new (first_vehicle (known.Own (own_of facts.now))) }
{
    let Some(own) = own(facts) else {
        return false;
    };
    vehicle.settle(Ivs::new(Facts::Own(own)));
    true
}

/// An event at the vehicle.
#[repr(C)]
pub struct EcallVehicleEvent {
    /// The number of the call that the point took, or places.
    pub call: u32,
    /// 0 a frame; 1 to 3 a trigger by a sensor, a person, a test; 4 its cancelling; 5, 6 the network comes, goes; 7 the
    /// point took the call; 8 the attempt failed; 9 the point calls; 10 sleep; 11 a fault; 12 the point hung up; 13
    /// lost; 14 a restart.
    pub kind: u8,
    pub frame: EcallFrame,
}

fn frame_event(frame: &EcallFrame) -> Option<VehicleEvent<'_>>
    ensures some { IsSome result ↔ IsFrame frame.now }
    ensures value { IfSome result (λ e. heard e ≡ Arrives (frame_of frame.now)) }
{
    match lift_frame(frame) {
        Some(frame) => Some(VehicleEvent::Frame(frame)),
        None => None,
    }
}

fn lift_event(event: &EcallVehicleEvent) -> Option<VehicleEvent<'_>>
    ensures some { IsSome result ↔ IsVehicleEvent event.now }
    ensures value { IfSome result (λ e. heard e ≡ heard_of event.now) }
{
    match event.kind {
        0 => frame_event(&event.frame),
        1 => Some(VehicleEvent::Trigger(Cause::Auto)),
        2 => Some(VehicleEvent::Trigger(Cause::Manual)),
        3 => Some(VehicleEvent::Trigger(Cause::Test)),
        4 => Some(VehicleEvent::Cancel),
        5 => Some(VehicleEvent::Net(true)),
        6 => Some(VehicleEvent::Net(false)),
        7 => Some(VehicleEvent::Answered(event.call)),
        8 => Some(VehicleEvent::Failed),
        9 => Some(VehicleEvent::Incoming(event.call)),
        10 => Some(VehicleEvent::Sleep),
        11 => Some(VehicleEvent::Fault),
        12 => Some(VehicleEvent::Hangup),
        13 => Some(VehicleEvent::Lost),
        14 => Some(VehicleEvent::Reset),
        _ => None,
    }
}

/// What the vehicle does at an event. Answers whether it is one.
#[unsafe(no_mangle)]
pub extern "C" fn ecall_vehicle_hear(
    vehicle: &mut EcallVehicle,
    event: &EcallVehicleEvent,
    items: &mut EcallItems,
) -> bool
    requires { IsThere vehicle.old.ivs }
    ensures heard { IsTrue result ↔ IsVehicleEvent event.now }
    ensures kept { IsTrue (not result) → (vehicle.new ≡ vehicle.old) × (items.new ≡ items.old) }
    ensures row { (ivs : Kept) (s : Vehicle) → vehicle.old.ivs ≡ Some ivs → IvsStandsFor ivs s →
        IsVehicleEvent event.now → Steps vehicle.new items.new (vehicle_row s (heard_of event.now)) }
{
    let Some(event) = lift_event(event) else {
        return false;
    };
    let ivs = vehicle.ivs();
    let notes = ivs.hear(&event);
    put_items(notes.as_slice(), items);
    true
}

/// How many bytes the room of a vehicle has; it is aligned to 8.
#[unsafe(no_mangle)]
pub extern "C" fn ecall_vehicle_size() -> usize
    ensures { result ≡ VEHICLE_SIZE }
{
    VEHICLE_SIZE
}

// After how many ticks it does something.
fn ticks_left(vehicle: &mut EcallVehicle) -> Option<u32>
    requires { IsThere vehicle.old.ivs }
    ensures kept { vehicle.new ≡ vehicle.old }
    ensures due { (ivs : Kept) (s : Vehicle) → vehicle.old.ivs ≡ Some ivs → IvsStandsFor ivs s →
        result ≡ due_of s }
{
    let ivs = vehicle.ivs();
    ivs.due()
}

/// After how many ticks the vehicle does something; 0 where it does nothing however many pass.
#[unsafe(no_mangle)]
pub extern "C" fn ecall_vehicle_due(vehicle: &mut EcallVehicle) -> u32
    requires { IsThere vehicle.old.ivs }
    ensures kept { vehicle.new ≡ vehicle.old }
    ensures due { (ivs : Kept) (s : Vehicle) → vehicle.old.ivs ≡ Some ivs → IvsStandsFor ivs s →
        result ≡ or_zero (due_of s) }
{
    ticks_left(vehicle).unwrap_or(0)
}

/// Lets n ticks pass, at least one and at most those that are due. Answers whether they are so many.
#[unsafe(no_mangle)]
pub extern "C" fn ecall_vehicle_pass(
    vehicle: &mut EcallVehicle,
    n: u32,
    items: &mut EcallItems,
) -> bool
    requires { IsThere vehicle.old.ivs }
    ensures passed { (ivs : Kept) (s : Vehicle) → vehicle.old.ivs ≡ Some ivs → IvsStandsFor ivs s →
        IsTrue result ↔ IsPassable n (due_of s) }
    ensures kept { IsTrue (not result) → (vehicle.new ≡ vehicle.old) × (items.new ≡ items.old) }
    ensures row { (ivs : Kept) (s : Vehicle) → vehicle.old.ivs ≡ Some ivs → IvsStandsFor ivs s →
        IsTrue result → Steps vehicle.new items.new (units n s) }
{
    if !is_passable(n, ticks_left(vehicle)) {
        return false;
    }
    let blank = Blank::new(1);
    pass_ivs::<Brand>(vehicle, n, items, blank);
    true
}

fn pass_ivs<L: Ledger>(vehicle: &mut EcallVehicle, n: u32, items: &mut EcallItems, blank: Blank)
    requires name { blank.name ≡ L.name }
    requires parts { blank.parts ≡ L.parts }
    requires some { 0 < blank.parts }
    requires there { IsThere vehicle.old.ivs }
    requires least { 1 ≤ n }
    requires due { (ivs : Kept) (s : Vehicle) → vehicle.old.ivs ≡ Some ivs → IvsStandsFor ivs s →
        IfSome (due_of s) (λ due. n ≤ due) }
    ensures row { (ivs : Kept) (s : Vehicle) → vehicle.old.ivs ≡ Some ivs → IvsStandsFor ivs s →
        Steps vehicle.new items.new (units n s) }
{
    let mut moments = link_frames::Steps::<L>::start(blank);
    let ivs = vehicle.ivs();
    let notes = ivs.pass(n, &mut moments);
    put_items(notes.as_slice(), items);
}
