//! The frames sent in one direction of a call.

ghost use Rattle.std.specs.Prelude.{◌≡◌, ◌≤◌, ◌<◌, ◌+◌, ◌++◌, ◌∷◌, [], true, false, OnOk, OnErr, length, map, slice_get, take, drop, ltb};
ghost use Rattle.std.specs.List.{AllByRecursion};
ghost use Rattle.std.specs.Option.{option_map};
ghost use Rattle.channel_sim.specs.inner.Sends.{IsFirstFrom};
ghost use Rattle.channel_sim.specs.Handing.{full};
ghost use Rattle.channel_sim.specs.Tidy.{ticks_of, AreFrom};

use crate::kept::{KeptFrame, kept_frame};
use link_frames::{Frame, OCTETS};
use std::alloc::{AllocError, Global};
use std::marker::Model;
use std::rc::Rc;

/// A frame that was sent, and when.
#[derive(Drop)]
pub(crate) struct KeptSent {
    tick: u64,
    frame: KeptFrame,
}

/// The frames sent in one direction of a call, in order, each with its tick. A set is kept once for all frames that
/// carry it one behind the other.
#[derive(Drop)]
pub struct Sends {
    frames: Vec<KeptSent>,
    last: Option<Rc<[u8; OCTETS]>>,
}

impl Model for Sends {
    ghost use Rattle.std.specs.Prelude.{List, map};
    ghost use Rattle.trace_model.specs.History.{Sent};
    ghost use Rattle.channel_sim.specs.Sends.{sent_of};

    ghost Value = { List Sent };

    ghost view = { λ s. map sent_of s.frames.items };
}

impl Sends {
    /// Nothing was sent.
    pub fn new(alloc: Global) -> Sends
        ensures { result ≡ [] }
    {
        Sends {
            frames: Vec::new(alloc),
            last: None,
        }
    }

    /// How many frames were sent.
    pub(crate) fn len(&self) -> usize
        ensures { result ≡ length self.now }
    {
        self.frames.len()
    }

    /// The tick of the k-th frame, from 0.
    pub(crate) fn tick(&self, k: usize) -> Option<u64>
        ensures { result ≡ slice_get (ticks_of self.now) k }
    {
        if k < self.frames.len() {
            Some(self.frames[k].tick)
        } else {
            None
        }
    }

    /// The k-th frame, from 0.
    pub fn frame(&self, k: usize) -> Option<&KeptFrame>
        ensures { option_map (λ f. full f.now) result ≡ option_map (λ s. s.frame) (slice_get self.now k) }
    {
        if k < self.frames.len() {
            Some(&self.frames[k].frame)
        } else {
            None
        }
    }

    /// A frame was sent at this tick.
    pub fn push(&mut self, alloc: Global, tick: u64, frame: &Frame) -> Result<(), AllocError>
        ensures ok { OnOk result (self.new ≡ self.old ++ record { tick = tick; frame = frame.now } ∷ []) }
        ensures err { OnErr result (self.new ≡ self.old) }
    {
        let kept = kept_frame(&mut self.last, alloc, frame)?;
        self.frames.push(KeptSent { tick, frame: kept })?;
        Ok(())
    }

    /// The place of the first frame that was sent at this tick or later.
    pub(crate) fn first_from(&self, tick: u64) -> usize
        ensures within { result ≤ length self.now }
        ensures first { AreFrom 0 (ticks_of self.now) → IsFirstFrom tick result (ticks_of self.now) }
    {
        self.frames.partition_point(
            |sent: &KeptSent| -> bool
                ensures { result ≡ ltb sent.now.tick tick }
            { sent.tick < tick },
        )
    }
}
