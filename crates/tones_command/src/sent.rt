//! The frames that were sent so far, which the modem carries.

ghost use Rattle.std.specs.Prelude.{◌≡◌, ◌<◌, ◌-◌, ◌++◌, ◌∷◌, ℕ, List, [], OnOk, length, slice_get};
ghost use Rattle.std.specs.Option.{option_map};
ghost use Rattle.channel_sim.specs.Handing.{full};
ghost use Rattle.link_frames.specs.declared.frame.End.{End};
ghost use Rattle.link_frames.specs.declared.note.Note.TheVariants as note;
ghost use Rattle.trace_model.specs.History.{sends};
ghost use Rattle.trace_model.specs.declared.entry.Entry.{Entry};
ghost use Rattle.tones_command.specs.Tones.{carried_for};
ghost use Rattle.tones_command.specs.inner.Hearing.{FramesGrew, FramesStandFor, frames_by, frames_of, sender_of, with_frame};

use channel_sim::{KeptFrame, Sends};
use link_frames::{End, Frame, Note};
use std::alloc::{AllocError, Global};
use trace_model::{Entry, Event, Positive};

/// The frames sent in one call: up by the vehicle, down by the point.
#[derive(Drop)]
pub(crate) struct CallFrames {
    up: Sends,
    down: Sends,
}

impl CallFrames {
    /// Nothing was sent.
    fn new(alloc: Global) -> CallFrames
        ensures { result ≡ record { up = []; down = [] } }
    {
        CallFrames {
            up: Sends::new(alloc),
            down: Sends::new(alloc),
        }
    }

    /// This end sent a frame at a tick.
    fn push(&mut self, alloc: Global, end: End, tick: u64, frame: &Frame) -> Result<(), AllocError>
        ensures { OnOk result (self.new ≡ with_frame end (record { tick = tick; frame = frame.now }) self.old) }
    {
        match end {
            End::Vehicle => self.up.push(alloc, tick, frame),
            End::Point => self.down.push(alloc, tick, frame),
        }
    }

    /// The k-th frame that this end sent, from 1.
    fn frame(&self, end: End, k: Positive) -> Option<&KeptFrame>
        ensures { option_map (λ f. full f.now) result ≡
            option_map (λ s. s.frame) (slice_get (frames_by end (Some self.now)) (k - 1)) }
    {
        let place = k.number() as usize - 1;
        match end {
            End::Vehicle => self.up.frame(place),
            End::Point => self.down.frame(place),
        }
    }
}

/// The frames that were sent so far, by the numbers of their calls. There is no call 0.
#[derive(Drop)]
pub(crate) struct SentFrames {
    calls: Vec<CallFrames>,
}

impl SentFrames {
    /// Nothing was sent.
    pub(crate) fn new(alloc: Global) -> SentFrames
        ensures { FramesStandFor result [] }
    {
        SentFrames {
            calls: Vec::new(alloc),
        }
    }

    /// The frame that an event has the modem carry, if it has one.
    pub(crate) fn carried_for(&self, event: &Event) -> Option<&KeptFrame>
        ensures { (entries : List Entry) → FramesStandFor self.now entries →
            option_map (λ f. full f.now) result ≡ carried_for entries event.now }
    {
        match event {
            Event::Deliver { up, call, k } => self.frame(sender(*up), *call, *k),
            _ => None,
        }
    }

    /// The k-th frame that this end sent in a call, from 1.
    fn frame(&self, end: End, call: Positive, k: Positive) -> Option<&KeptFrame>
        ensures { option_map (λ f. full f.now) result ≡
            option_map (λ s. s.frame) (slice_get (frames_of end call self.now.calls.items) (k - 1)) }
    {
        let place = call.number() as usize;
        if place < self.calls.len() {
            self.calls[place].frame(end, k)
        } else {
            None
        }
    }

    /// Keeps the frame that an entry sends, if it sends one.
    pub(crate) fn keep(&mut self, alloc: Global, entry: &Entry) -> Result<(), AllocError>
        ensures { OnOk result (FramesGrew self.old self.new (entry.now ∷ [])) }
    {
        match &entry.note {
            Note::Send { end, call, frame } => { self.push(alloc, *end, *call, entry.tick, frame) }
            _ => Ok(()),
        }
    }

    /// This end sent a frame in a call at a tick.
    fn push(
        &mut self,
        alloc: Global,
        end: End,
        call: u32,
        tick: u64,
        frame: &Frame,
    ) -> Result<(), AllocError>
        ensures { OnOk result ((e : End) (c : ℕ) → frames_of e c self.new.calls.items ≡
            frames_of e c self.old.calls.items ++ sends e c tick (note.Send end call frame.now) []) }
    {
        self.reach(alloc, call)?;
        self.calls[call as usize].push(alloc, end, tick, frame)
    }

    /// Makes a place for the frames of a call.
    fn reach(&mut self, alloc: Global, call: u32) -> Result<(), AllocError>
        ensures place { OnOk result (call < length self.new.calls.items) }
        ensures same { OnOk result ((e : End) (c : ℕ) →
            frames_of e c self.new.calls.items ≡ frames_of e c self.old.calls.items) }
    {
        while self.calls.len() <= call as usize {
            self.calls.push(CallFrames::new(alloc))?;
        }
        Ok(())
    }
}

/// Who sends the frames of a direction; up is towards the point.
fn sender(up: bool) -> End
    ensures { result ≡ sender_of up }
{
    if up { End::Vehicle } else { End::Point }
}
