//! The moves of the vehicle, and the items that it gives in its call. After EN 16062 and EN 16072.
ghost use Rattle.std.specs.Prelude.{◌≡◌, ◌≤◌, ◌++◌, [], ◌∷◌, length};
ghost use Rattle.link_frames.specs.declared.frame.End.TheVariants as «end»;
ghost use Rattle.link_frames.specs.declared.note.Note.TheVariants as note;

use super::{Call, CallStage, Ivs, Phase};
use callback::Rest;
use link_frames::{End, Frame, Items, Note, Request, Timer, Why, put};
use msd_fit::{Cause, make};

impl Ivs {
    ghost use Rattle.std.specs.Prelude.{true, ◌+◌, ℕ, min, if◌then◌else◌, List};
    ghost use Rattle.audio_switch.specs.Switch.{unmuted};
    ghost use Rattle.link_frames.specs.Requests.{RequestsStandFor};
    ghost use Rattle.link_frames.specs.declared.frame.Frame.TheVariants as frame;
    ghost use Rattle.link_frames.specs.declared.note.Timer.TheVariants as timer;
    ghost use Rattle.link_frames.specs.declared.note.Why.TheVariants as why;
    ghost use Rattle.msd_fit.specs.Fitting.{made};
    ghost use Rattle.ivs_machine.specs.IvsStands.{IvsIs};
    ghost use Rattle.ivs_machine.specs.Vehicle.{first_vehicle};

    /// The standby begins. Its item comes behind those that stand in `items`, here and in the functions below.
    pub(super) fn rests(&mut self, items: &mut Items)
        requires { length items.old.items ≤ 6 }
        ensures items { items.new.items ≡ items.old.items ++ note.Standby ∷ [] }
        ensures new { self.new ≡ record self.old { phase = Phase.Standby; standby = 0 } }
    {
        self.phase = Phase::Standby;
        self.standby = Rest::enter();
        put(items, &Note::Standby);
    }

    /// All is lost but the facts and the network.
    pub(super) fn forgets(&mut self)
        ensures { IvsIs self.new (record (first_vehicle self.old.facts) { network = self.old.network }) }
    {
        self.phase = Phase::Idle;
        self.cause = Cause::Auto;
        self.sets_made = 0;
        self.standby = Rest::enter();
        self.in_phase = 0;
        self.call = Call::none();
    }

    /// A stage of the call begins, with the voice as it is.
    pub(super) fn enters(&mut self, stage: CallStage)
        ensures { self.new ≡ record self.old { phase = Phase.InCall stage; in_phase = 0 } }
    {
        self.phase = Phase::InCall(stage);
        self.in_phase = 0;
    }

    /// Opens a muted voice: the people on both ends talk.
    pub(super) fn opens(&mut self, items: &mut Items)
        requires { length items.old.items ≤ 4 }
        ensures items { items.new.items ≡ items.old.items ++
            note.Voice «end».Vehicle self.old.call.number true true ∷ [] }
        ensures new { self.new ≡ record self.old {
          phase = Phase.InCall CallStage.Talking;
          in_phase = 0;
          call = record self.old.call { voice = self.new.call.voice };
        } }
        ensures voice { self.new.call.voice ≡
            record self.old.call.voice { stretch = unmuted self.old.call.voice.stretch } }
    {
        self.call.voice.unmute();
        self.enters(CallStage::Talking);
        self.voices(true, items);
    }

    /// A wait for data ends, and the voice opens; it may settle the call.
    pub(super) fn times_out(&mut self, timer: Timer, settles: bool, items: &mut Items)
        requires { length items.old.items ≤ 3 }
        ensures items { items.new.items ≡ items.old.items ++ note.Ended «end».Vehicle self.old.call.number timer
            ∷ note.Voice «end».Vehicle self.old.call.number true true ∷ [] }
        ensures new { self.new ≡ record self.old {
          phase = Phase.InCall CallStage.Talking;
          in_phase = 0;
          call = record self.old.call {
            voice = self.new.call.voice;
            settled_without_data = self.new.call.settled_without_data;
          };
        } }
        ensures voice { self.new.call.voice ≡
            record self.old.call.voice { stretch = unmuted self.old.call.voice.stretch } }
        ensures settled { self.new.call.settled_without_data ≡
            (if settles then true else self.old.call.settled_without_data) }
    {
        if settles {
            self.call.settled_without_data = true;
        }
        self.ends(timer, items);
        self.opens(items);
    }

    /// Obeys a request: its set is made once, and sent.
    pub(super) fn takes(&mut self, request: Request, items: &mut Items)
        requires { length items.old.items ≤ 4 }
        ensures sent { items.new.items ≡ items.old.items ++ note.Send «end».Vehicle self.old.call.number
            (frame.Content request 0 (made self.old.facts self.old.cause (min (self.old.sets_made + 1) 255))) ∷ [] }
        ensures new { self.new ≡ record self.old {
          phase = Phase.InCall (CallStage.Sending request);
          in_phase = 0;
          sets_made = min (self.old.sets_made + 1) 255;
          call = record self.old.call {
            greatest_obeyed = request;
            set = made self.old.facts self.old.cause (min (self.old.sets_made + 1) 255);
            last_attempt = 0;
          };
        } }
    {
        self.sets_made = self.sets_made.saturating_add(1);
        self.call.set = make(&self.facts, self.cause, self.sets_made);
        self.call.greatest_obeyed = request.number();
        self.call.last_attempt = 0;
        self.enters(CallStage::Sending(request));
        self.sends_set(request, items);
    }

    /// The next attempt to send the set made last.
    pub(super) fn sends_again(&mut self, request: Request, items: &mut Items)
        requires { length items.old.items ≤ 4 }
        ensures sent { items.new.items ≡ items.old.items ++ note.Send «end».Vehicle self.old.call.number
            (frame.Content request (min (self.old.call.last_attempt + 1) 255) self.old.call.set) ∷ [] }
        ensures new { self.new ≡ record self.old {
          call = record self.old.call { last_attempt = min (self.old.call.last_attempt + 1) 255 };
        } }
    {
        self.call.last_attempt = self.call.last_attempt.saturating_add(1);
        self.sends_set(request, items);
    }

    /// Counts the acknowledgement of a request.
    pub(super) fn counts_as(&mut self, request: Request, items: &mut Items)
        requires { length items.old.items ≤ 4 }
        ensures items { items.new.items ≡ items.old.items ++
            note.Acked self.old.call.number request self.old.call.set ∷ [] }
        ensures new { self.new ≡ record self.old {
          call = record self.old.call { counted = self.new.call.counted; has_counted = true };
        } }
        ensures counted { (rs : List ℕ) → RequestsStandFor self.old.call.counted rs →
            RequestsStandFor self.new.call.counted (request ∷ rs) }
    {
        self.call.counted.add(request);
        self.call.has_counted = true;
        put(
            items,
            &Note::Acked {
                call: self.call.number,
                request,
                octets: self.call.set,
            },
        );
    }

    /// The point lets the vehicle go.
    pub(super) fn is_released(&mut self, items: &mut Items)
        requires { length items.old.items ≤ 3 }
        ensures items { items.new.items ≡ items.old.items ++
            note.Down «end».Vehicle self.old.call.number why.Release ∷ note.Standby ∷ [] }
        ensures new { self.new ≡ record self.old { phase = Phase.Standby; standby = 0 } }
    {
        self.goes_down(Why::Release, items);
        self.rests(items);
    }

    // The items of a call. Out of line: an item is made where it stays, once for each kind.

    #[inline(never)]
    pub(super) fn up(&self, items: &mut Items)
        requires { length items.old.items ≤ 4 }
        ensures { items.new.items ≡ items.old.items ++ note.Up «end».Vehicle self.now.call.number ∷ [] }
    {
        put(
            items,
            &Note::Up {
                end: End::Vehicle,
                call: self.call.number,
            },
        );
    }

    #[inline(never)]
    pub(super) fn goes_down(&self, why: Why, items: &mut Items)
        requires { length items.old.items ≤ 4 }
        ensures { items.new.items ≡ items.old.items ++ note.Down «end».Vehicle self.now.call.number why ∷ [] }
    {
        put(
            items,
            &Note::Down {
                end: End::Vehicle,
                call: self.call.number,
                why,
            },
        );
    }

    #[inline(never)]
    pub(super) fn initiates(&self, items: &mut Items)
        requires { length items.old.items ≤ 4 }
        ensures { items.new.items ≡ items.old.items ++
            note.Send «end».Vehicle self.now.call.number frame.Init ∷ [] }
    {
        put(
            items,
            &Note::Send {
                end: End::Vehicle,
                call: self.call.number,
                frame: Frame::Init,
            },
        );
    }

    /// The set made last is sent for a request.
    #[inline(never)]
    fn sends_set(&self, request: Request, items: &mut Items)
        requires { length items.old.items ≤ 4 }
        ensures { items.new.items ≡ items.old.items ++ note.Send «end».Vehicle self.now.call.number
            (frame.Content request self.now.call.last_attempt self.now.call.set) ∷ [] }
    {
        put(
            items,
            &Note::Send {
                end: End::Vehicle,
                call: self.call.number,
                frame: Frame::Content {
                    request,
                    attempt: self.call.last_attempt,
                    octets: self.call.set,
                },
            },
        );
    }

    #[inline(never)]
    pub(super) fn faults(&self, items: &mut Items)
        requires { length items.old.items ≤ 4 }
        ensures { items.new.items ≡ items.old.items ++ note.Fault «end».Vehicle self.now.call.number ∷ [] }
    {
        put(
            items,
            &Note::Fault {
                end: End::Vehicle,
                call: self.call.number,
            },
        );
    }

    #[inline(never)]
    pub(super) fn ends(&self, timer: Timer, items: &mut Items)
        requires { length items.old.items ≤ 4 }
        ensures { items.new.items ≡ items.old.items ++ note.Ended «end».Vehicle self.now.call.number timer ∷ [] }
    {
        put(
            items,
            &Note::Ended {
                end: End::Vehicle,
                call: self.call.number,
                timer,
            },
        );
    }

    /// Both directions are opened, or both muted.
    #[inline(never)]
    pub(super) fn voices(&self, opened: bool, items: &mut Items)
        requires { length items.old.items ≤ 4 }
        ensures { items.new.items ≡ items.old.items ++
            note.Voice «end».Vehicle self.now.call.number opened opened ∷ [] }
    {
        put(
            items,
            &Note::Voice {
                end: End::Vehicle,
                call: self.call.number,
                up: opened,
                down: opened,
            },
        );
    }
}

/// The item for an event that applies to nothing.
#[inline(never)]
pub(super) fn nothing(items: &mut Items)
    requires { length items.old.items ≤ 4 }
    ensures { items.new.items ≡ items.old.items ++ note.Nothing ∷ [] }
{
    put(items, &Note::Nothing);
}

/// The item for the end of a timer outside a call.
pub(super) fn ended(timer: Timer, items: &mut Items)
    requires { length items.old.items ≤ 4 }
    ensures { items.new.items ≡ items.old.items ++ note.Ended «end».Vehicle 0 timer ∷ [] }
{
    put(
        items,
        &Note::Ended {
            end: End::Vehicle,
            call: 0,
            timer,
        },
    );
}
