//! The moves of which the rows of the session are made.
ghost use Rattle.std.specs.Prelude.{◌≡◌, ◌≤◌, ◌++◌, [], ◌∷◌, length};
ghost use Rattle.link_frames.specs.declared.note.Note.TheVariants as note;

use super::{Phase, Session};
use audio_switch::Voice;
use link_frames::{Answer, End, Frame, Items, Note, Request, Timer, put};

impl Session {
    ghost use Rattle.std.specs.Prelude.{true};
    ghost use Rattle.audio_switch.specs.Switch.{is_open, unmuted};
    ghost use Rattle.link_frames.specs.declared.frame.End.TheVariants as «end»;
    ghost use Rattle.link_frames.specs.declared.frame.Frame.TheVariants as frame;
    ghost use Rattle.psap_machine.specs.Point.{Point};

    /// Opens a muted voice: the people on both ends talk. Its item comes behind those that stand in `items`, here and in
    /// the functions below.
    pub(super) fn opens(&mut self, items: &mut Items)
        requires { length items.old.items ≤ 4 }
        ensures item { items.new.items ≡ items.old.items ++ note.Voice «end».Point self.old.call true true ∷ [] }
        ensures new { self.new ≡ record self.old { phase = Phase.Talking; in_phase = 0; voice = self.new.voice } }
        ensures voice { self.new.voice ≡ record self.old.voice { stretch = unmuted self.old.voice.stretch } }
    {
        self.voice.unmute();
        self.enters(Phase::Talking);
        self.voices(items);
    }

    /// Begins a phase, with the voice as it is.
    pub(super) fn enters(&mut self, phase: Phase)
        ensures { self.new ≡ record self.old { phase = phase; in_phase = 0 } }
    {
        self.phase = phase;
        self.in_phase = 0;
    }

    /// Asks for a set.
    pub(super) fn asks(&mut self, request: Request, items: &mut Items)
        requires { length items.old.items ≤ 4 }
        ensures item { items.new.items ≡ items.old.items ++
            note.Send «end».Point self.old.call (frame.Start request) ∷ [] }
        ensures new { self.new ≡ record self.old { phase = Phase.Asking request; in_phase = 0; asked = request } }
    {
        self.enters(Phase::Asking(request));
        self.asked = request.number();
        self.starts(request, items);
    }

    // Out of line: an item is made where it stays, once for each kind.

    /// A request is sent.
    #[inline(never)]
    pub(super) fn starts(&self, request: Request, items: &mut Items)
        requires { length items.old.items ≤ 4 }
        ensures { items.new.items ≡ items.old.items ++
            note.Send «end».Point self.now.call (frame.Start request) ∷ [] }
    {
        put(
            items,
            &Note::Send {
                end: End::Point,
                call: self.call,
                frame: Frame::Start(request),
            },
        );
    }

    /// It is sent that what came for a request was damaged.
    #[inline(never)]
    pub(super) fn refuses(&self, request: Request, items: &mut Items)
        requires { length items.old.items ≤ 4 }
        ensures { items.new.items ≡ items.old.items ++
            note.Send «end».Point self.now.call (frame.Nack request) ∷ [] }
    {
        put(
            items,
            &Note::Send {
                end: End::Point,
                call: self.call,
                frame: Frame::Nack(request),
            },
        );
    }

    /// It is sent that the set of a request came.
    #[inline(never)]
    pub(super) fn acknowledges(&self, request: Request, items: &mut Items)
        requires { length items.old.items ≤ 4 }
        ensures { items.new.items ≡ items.old.items ++
            note.Send «end».Point self.now.call (frame.Ack request) ∷ [] }
    {
        put(
            items,
            &Note::Send {
                end: End::Point,
                call: self.call,
                frame: Frame::Ack(request),
            },
        );
    }

    /// The application acknowledgement is sent.
    #[inline(never)]
    pub(super) fn applies(&self, request: Request, answer: Answer, items: &mut Items)
        requires { length items.old.items ≤ 4 }
        ensures { items.new.items ≡ items.old.items ++
            note.Send «end».Point self.now.call (frame.App request answer) ∷ [] }
    {
        put(
            items,
            &Note::Send {
                end: End::Point,
                call: self.call,
                frame: Frame::App { request, answer },
            },
        );
    }

    /// The item that tells what the voice is now.
    #[inline(never)]
    pub(super) fn voices(&self, items: &mut Items)
        requires { length items.old.items ≤ 4 }
        ensures { let opened = is_open self.now.voice.stretch in
            items.new.items ≡ items.old.items ++ note.Voice «end».Point self.now.call opened opened ∷ [] }
    {
        let Voice { up, down } = self.voice.voice();
        put(
            items,
            &Note::Voice {
                end: End::Point,
                call: self.call,
                up,
                down,
            },
        );
    }

    /// The item for the end of a timer.
    #[inline(never)]
    pub(super) fn timer_ends(&self, timer: Timer, items: &mut Items)
        requires { length items.old.items ≤ 4 }
        ensures { items.new.items ≡ items.old.items ++ note.Ended «end».Point self.now.call timer ∷ [] }
    {
        put(
            items,
            &Note::Ended {
                end: End::Point,
                call: self.call,
                timer,
            },
        );
    }

    /// The item for a fault.
    #[inline(never)]
    pub(super) fn faults(&self, items: &mut Items)
        requires { length items.old.items ≤ 4 }
        ensures { items.new.items ≡ items.old.items ++ note.Fault «end».Point self.now.call ∷ [] }
    {
        put(
            items,
            &Note::Fault {
                end: End::Point,
                call: self.call,
            },
        );
    }
}

/// The item for an event that applies to nothing.
#[inline(never)]
pub(super) fn nothing(items: &mut Items)
    requires { length items.old.items ≤ 4 }
    ensures { items.new.items ≡ items.old.items ++ note.Nothing ∷ [] }
{
    put(items, &Note::Nothing);
}
