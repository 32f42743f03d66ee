//! What the vehicle does at events outside a call, as a call comes up, and as it restarts. After EN 16072.
ghost use Rattle.std.specs.Prelude.{◌≡◌, []};
ghost use Rattle.link_frames.specs.declared.note.Note.TheVariants as note;

use super::moves::nothing;
use super::{CallStage, Ivs, Left, MOST_MUTED, Phase};
use audio_switch::Switch;
use link_frames::{End, Items, Note, Requests, Why, put};
use msd_fit::Cause;

impl Ivs {
    ghost use Rattle.std.specs.Prelude.{true, false, ◌∷◌, None};
    ghost use Rattle.link_frames.specs.Does.{Does};
    ghost use Rattle.link_frames.specs.Requests.{RequestsStandFor};
    ghost use Rattle.ivs_machine.specs.VehicleRows as rows;
    ghost use Rattle.ivs_machine.specs.VehicleRows.{vehicle_row};
    ghost use Rattle.ivs_machine.specs.IvsStands.{IvsIs, IvsStandsFor};
    ghost use Rattle.ivs_machine.specs.inner.Moves.{begun, move_items};
    ghost use Rattle.redial.specs.SeriesRows.{begins};

    /// A trigger.
    pub(super) fn trigger(&mut self, cause: Cause, items: &mut Items)
        requires none { items.old.items ≡ [] }
        ensures { Does IvsStandsFor IvsIs self.old self.new items.new.items (λ v. vehicle_row v (rows.Trigger cause)) }
    {
        match cause {
            Cause::Auto => self.triggered_by_sensor(items),
            Cause::Manual => self.triggered_by_person(items),
            Cause::Test => self.triggered_by_test(items),
        }
    }

    /// A sensor's trigger begins a series, also in the cancel period of a manual one.
    fn triggered_by_sensor(&mut self, items: &mut Items)
        requires none { items.old.items ≡ [] }
        ensures { Does IvsStandsFor IvsIs self.old self.new items.new.items
            (λ v. vehicle_row v (rows.Trigger Cause.Auto)) }
    {
        match self.phase {
            Phase::Idle | Phase::Standby | Phase::Arming(_) => self.begins_for(Cause::Auto, items),
            _ => nothing(items),
        }
    }

    /// A person's trigger begins the cancel period.
    fn triggered_by_person(&mut self, items: &mut Items)
        requires none { items.old.items ≡ [] }
        ensures { Does IvsStandsFor IvsIs self.old self.new items.new.items
            (λ v. vehicle_row v (rows.Trigger Cause.Manual)) }
    {
        match self.phase {
            Phase::Idle => self.arms(Left::Idle, items),
            Phase::Standby => self.arms(Left::Standby, items),
            _ => nothing(items),
        }
    }

    /// A test call's trigger begins a series.
    fn triggered_by_test(&mut self, items: &mut Items)
        requires none { items.old.items ≡ [] }
        ensures { Does IvsStandsFor IvsIs self.old self.new items.new.items
            (λ v. vehicle_row v (rows.Trigger Cause.Test)) }
    {
        match self.phase {
            Phase::Idle | Phase::Standby => self.begins_for(Cause::Test, items),
            _ => nothing(items),
        }
    }

    /// A dial series begins for this cause.
    fn begins_for(&mut self, cause: Cause, items: &mut Items)
        requires none { items.old.items ≡ [] }
        ensures items { items.new.items ≡ move_items None (begins self.old.network).next }
        ensures begun { self.new ≡ begun (record self.old { cause = cause; sets_made = 0 }) }
    {
        self.cause = cause;
        self.sets_made = 0;
        self.begins(items);
    }

    /// The cancel period of a manual trigger begins.
    fn arms(&mut self, before: Left, items: &mut Items)
        requires none { items.old.items ≡ [] }
        ensures items { items.new.items ≡ note.Arming ∷ [] }
        ensures armed { self.new ≡ record self.old { phase = Phase.Arming before; in_phase = 0 } }
    {
        self.phase = Phase::Arming(before);
        self.in_phase = 0;
        put(items, &Note::Arming);
    }

    /// A manual trigger is taken back.
    pub(super) fn cancel(&mut self, items: &mut Items)
        requires none { items.old.items ≡ [] }
        ensures { Does IvsStandsFor IvsIs self.old self.new items.new.items (λ v. vehicle_row v rows.Cancel) }
    {
        match self.phase {
            Phase::Arming(Left::Idle) => {
                self.phase = Phase::Idle;
                put(items, &Note::Cancelled);
            }
            Phase::Arming(Left::Standby) => {
                if self.standby.due().is_some() {
                    self.phase = Phase::Standby;
                    put(items, &Note::Cancelled);
                } else {
                    self.phase = Phase::Idle;
                    put(items, &Note::Cancelled);
                    put(items, &Note::Idle);
                }
            }
            _ => nothing(items),
        }
    }

    /// The network is gone.
    pub(super) fn net_down(&mut self, items: &mut Items)
        requires none { items.old.items ≡ [] }
        ensures { Does IvsStandsFor IvsIs self.old self.new items.new.items (λ v. vehicle_row v (rows.Net false)) }
    {
        if !self.network {
            return nothing(items);
        }
        self.network = false;
        match self.phase {
            Phase::InSeries => self.tells(false, items),
            Phase::InCall(_) => {
                put(items, &Note::Net(false));
                self.goes_down(Why::Lost, items);
                self.begins(items);
            }
            Phase::Idle | Phase::Standby | Phase::Arming(_) => put(items, &Note::Net(false)),
        }
    }

    /// The network is there.
    pub(super) fn net_up(&mut self, items: &mut Items)
        requires none { items.old.items ≡ [] }
        ensures { Does IvsStandsFor IvsIs self.old self.new items.new.items (λ v. vehicle_row v (rows.Net true)) }
    {
        if self.network {
            return nothing(items);
        }
        self.network = true;
        match self.phase {
            Phase::InSeries => self.tells(true, items),
            _ => put(items, &Note::Net(true)),
        }
    }

    /// The point took the call that is dialled.
    pub(super) fn answered(&mut self, call: u32, items: &mut Items)
        requires none { items.old.items ≡ [] }
        ensures { Does IvsStandsFor IvsIs self.old self.new items.new.items (λ v. vehicle_row v (rows.Answered call)) }
    {
        match self.phase {
            Phase::InSeries if self.redial.dialling() => {
                self.enters_call(
                    call,
                    CallStage::Initiating,
                    Switch::muted(MOST_MUTED),
                    false,
                );
                self.up(items);
                self.voices(false, items);
                self.initiates(items);
            }
            _ => nothing(items),
        }
    }

    /// The point calls.
    pub(super) fn incoming(&mut self, call: u32, items: &mut Items)
        requires none { items.old.items ≡ [] }
        ensures { Does IvsStandsFor IvsIs self.old self.new items.new.items (λ v. vehicle_row v (rows.Incoming call)) }
    {
        match self.phase {
            Phase::Standby if self.network => {
                self.enters_call(call, CallStage::Talking, Switch::opened(MOST_MUTED), true);
                self.up(items);
                self.voices(true, items);
            }
            _ => nothing(items),
        }
    }

    /// A call of this number is up, and nothing was made, counted or sent in it.
    fn enters_call(&mut self, call: u32, stage: CallStage, voice: Switch, settled: bool)
        ensures entered { self.new ≡ record self.old {
          phase = Phase.InCall stage;
          in_phase = 0;
          call = record self.old.call {
            number = call;
            ticks = 0;
            voice = voice;
            settled_without_data = settled;
            greatest_obeyed = 0;
            last_attempt = 0;
            counted = self.new.call.counted;
            has_counted = false;
          };
        } }
        ensures counted { RequestsStandFor self.new.call.counted [] }
    {
        self.enters(stage);
        self.call.number = call;
        self.call.last_attempt = 0;
        self.call.ticks = 0;
        self.call.voice = voice;
        self.call.settled_without_data = settled;
        self.call.greatest_obeyed = 0;
        self.call.counted = Requests::none();
        self.call.has_counted = false;
    }

    /// The vehicle leaves its standby, where that lasted long enough.
    pub(super) fn sleep(&mut self, items: &mut Items)
        requires none { items.old.items ≡ [] }
        ensures { Does IvsStandsFor IvsIs self.old self.new items.new.items (λ v. vehicle_row v rows.Sleep) }
    {
        match self.phase {
            Phase::Standby if self.standby.may_sleep() => {
                self.phase = Phase::Idle;
                put(items, &Note::Idle);
            }
            _ => nothing(items),
        }
    }

    /// The vehicle restarts: its leg of a call is lost.
    pub(super) fn restarts(&mut self, items: &mut Items)
        requires none { items.old.items ≡ [] }
        ensures { Does IvsStandsFor IvsIs self.old self.new items.new.items (λ v. vehicle_row v rows.Reset) }
    {
        match self.phase {
            Phase::InCall(_) => {
                self.goes_down(Why::Lost, items);
                put(items, &Note::Restart(End::Vehicle));
            }
            _ => put(items, &Note::Restart(End::Vehicle)),
        }
        self.forgets()
    }
}
