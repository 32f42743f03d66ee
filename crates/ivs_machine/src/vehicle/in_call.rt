//! What the vehicle does at events and frames of its call. After EN 16062.
ghost use Rattle.std.specs.Prelude.{◌≡◌, ◌≤◌, []};

use super::moves::nothing;
use super::{CallStage, Ivs, LEAST_OPENING, Phase};
use link_frames::{Answer, FrameRef, Items, Request, Why};

impl Ivs {
    ghost use Rattle.std.specs.Prelude.{◌<◌, ◌||◌, IsTrue, ◌↔◌};
    ghost use Rattle.audio_switch.specs.Switch.{is_open, open_ticks};
    ghost use Rattle.link_frames.specs.Does.{Does};
    ghost use Rattle.link_frames.specs.Frame.{lent};
    ghost use Rattle.link_frames.specs.declared.frame.Answer.TheVariants as answer;
    ghost use Rattle.link_frames.specs.declared.frame.Frame.TheVariants as frame;
    ghost use Rattle.ivs_machine.specs.VehicleRows as rows;
    ghost use Rattle.ivs_machine.specs.VehicleRows.{vehicle_row};
    ghost use Rattle.ivs_machine.specs.IvsStands.{IvsIs, IvsStandsFor};

    /// A fault of the audio or the modem: a muted voice opens.
    pub(super) fn fault(&mut self, items: &mut Items)
        requires none { items.old.items ≡ [] }
        ensures { Does IvsStandsFor IvsIs self.old self.new items.new.items (λ v. vehicle_row v rows.Fault) }
    {
        match self.phase {
            Phase::InCall(CallStage::Talking) => self.faults(items),
            Phase::InCall(_) => {
                self.faults(items);
                self.opens(items);
            }
            _ => nothing(items),
        }
    }

    /// The point hung up: a call that isn't settled is dialled again.
    pub(super) fn hung_up(&mut self, items: &mut Items)
        requires none { items.old.items ≡ [] }
        ensures { Does IvsStandsFor IvsIs self.old self.new items.new.items (λ v. vehicle_row v rows.Hangup) }
    {
        match self.phase {
            Phase::InCall(_) => {
                self.goes_down(Why::Hangup, items);
                if self.is_settled() {
                    self.rests(items);
                } else {
                    self.begins(items);
                }
            }
            _ => nothing(items),
        }
    }

    /// Whether the call served its end, so that it need not be dialled again.
    fn is_settled(&self) -> bool
        ensures { result ≡ (self.now.call.settled_without_data || self.now.call.has_counted) }
    {
        self.call.settled_without_data || self.call.has_counted
    }

    /// The call was lost.
    pub(super) fn lost(&mut self, items: &mut Items)
        requires none { items.old.items ≡ [] }
        ensures { Does IvsStandsFor IvsIs self.old self.new items.new.items (λ v. vehicle_row v rows.Lost) }
    {
        match self.phase {
            Phase::InCall(_) => {
                self.goes_down(Why::Lost, items);
                self.begins(items);
            }
            _ => nothing(items),
        }
    }

    /// A frame that the link of the call handed up.
    pub(super) fn frame(&mut self, frame: &FrameRef<'_>, items: &mut Items)
        requires none { items.old.items ≡ [] }
        ensures { Does IvsStandsFor IvsIs self.old self.new items.new.items
            (λ v. vehicle_row v (rows.Arrives (lent frame.now))) }
    {
        match frame {
            FrameRef::Start(request) => self.asked(*request, items),
            FrameRef::Nack(request) => self.damaged(*request, items),
            FrameRef::Ack(request) => self.acknowledged(*request, items),
            FrameRef::App {
                request,
                answer: Answer::Positive,
            } => self.confirmed(*request, items),
            FrameRef::App {
                request,
                answer: Answer::Clear,
            } => self.cleared(*request, items),
            FrameRef::Init | FrameRef::Content { .. } => {}
        }
    }

    /// A request is obeyed where it is above the greatest one obeyed, and an open voice was so for long enough.
    fn asked(&mut self, request: Request, items: &mut Items)
        requires none { items.old.items ≡ [] }
        ensures { Does IvsStandsFor IvsIs self.old self.new items.new.items
            (λ v. vehicle_row v (rows.Arrives (frame.Start request))) }
    {
        if request.number() <= self.call.greatest_obeyed {
            return;
        }
        match self.phase {
            Phase::InCall(CallStage::Talking) => self.asked_while_open(request, items),
            Phase::InCall(_) => self.takes(request, items),
            _ => {}
        }
    }

    /// What was sent for a request came damaged: the same set is sent again.
    fn damaged(&mut self, request: Request, items: &mut Items)
        requires none { items.old.items ≡ [] }
        ensures { Does IvsStandsFor IvsIs self.old self.new items.new.items
            (λ v. vehicle_row v (rows.Arrives (frame.Nack request))) }
    {
        let Phase::InCall(stage) = self.phase else {
            return;
        };
        match stage {
            CallStage::Sending(sent) if sent.number() == request.number() => {
                self.sends_again(request, items);
            }
            _ => {}
        }
    }

    /// The acknowledgement of the request that is being sent is counted.
    fn acknowledged(&mut self, request: Request, items: &mut Items)
        requires none { items.old.items ≡ [] }
        ensures { Does IvsStandsFor IvsIs self.old self.new items.new.items
            (λ v. vehicle_row v (rows.Arrives (frame.Ack request))) }
    {
        let Phase::InCall(stage) = self.phase else {
            return;
        };
        match stage {
            CallStage::Sending(current) if current.number() == request.number() => {
                self.counts_as(request, items);
                self.enters(CallStage::Confirming(request));
            }
            _ => {}
        }
    }

    /// A positive application acknowledgement of the present request ends the muting.
    fn confirmed(&mut self, request: Request, items: &mut Items)
        requires none { items.old.items ≡ [] }
        ensures { Does IvsStandsFor IvsIs self.old self.new items.new.items
            (λ v. vehicle_row v (rows.Arrives (frame.App request answer.Positive))) }
    {
        let Phase::InCall(stage) = self.phase else {
            return;
        };
        match stage {
            CallStage::Sending(sent) if sent.number() == request.number() => {
                self.counts_as(request, items);
                self.opens(items);
            }
            CallStage::Confirming(sent) if sent.number() == request.number() => self.opens(items),
            _ => {}
        }
    }

    /// The point lets the vehicle go.
    fn cleared(&mut self, request: Request, items: &mut Items)
        requires none { items.old.items ≡ [] }
        ensures { Does IvsStandsFor IvsIs self.old self.new items.new.items
            (λ v. vehicle_row v (rows.Arrives (frame.App request answer.Clear))) }
    {
        let Phase::InCall(stage) = self.phase else {
            return;
        };
        match stage {
            CallStage::Sending(sent) if sent.number() == request.number() => {
                self.counts_as(request, items);
                self.is_released(items);
            }
            CallStage::Confirming(sent) if sent.number() == request.number() => {
                self.is_released(items)
            }
            CallStage::Talking if self.call.counted.has(request) => self.is_released(items),
            _ => {}
        }
    }

    /// A request of a vehicle that talks is obeyed once the voice was open for long enough.
    fn asked_while_open(&mut self, request: Request, items: &mut Items)
        requires none { items.old.items ≡ [] }
        requires phase { self.old.phase ≡ Phase.InCall CallStage.Talking }
        requires above { self.old.call.greatest_obeyed < request }
        ensures { Does IvsStandsFor IvsIs self.old self.new items.new.items
            (λ v. vehicle_row v (rows.Arrives (frame.Start request))) }
    {
        if self.is_long_open() {
            self.call.voice.mute();
            self.voices(false, items);
            self.takes(request, items);
        }
    }

    /// Whether the voice was open for so long that a request may mute it.
    fn is_long_open(&self) -> bool
        ensures long { IsTrue result ↔ (20 ≤ open_ticks self.now.call.voice.stretch) }
        ensures open { IsTrue result → IsTrue (is_open self.now.call.voice.stretch) }
    {
        self.call.voice.open_for() >= LEAST_OPENING
    }
}
