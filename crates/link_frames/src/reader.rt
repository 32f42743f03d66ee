//! Frames of a stream of octets that comes in pieces.
ghost use Rattle.std.specs.Prelude.{◌≡◌, ◌≤◌, ◌<◌, ◌+◌, ◌-◌, ◌^◌, ◌++◌, ℕ, List, Option, Result, false, true, IfSome, IfOk, length, take, min, option_map};
ghost use Rattle.link_frames.specs.declared.fault.FrameFault.{FrameFault};
ghost use Rattle.link_frames.specs.Frame.{lent};
ghost use Rattle.link_frames.specs.Reading.{Reading, Feeds};
ghost use Rattle.link_frames.specs.Stages.{frame_of, kept, request_of, filled_of};
ghost use Rattle.link_frames.specs.inner.Coming.{is_in_head, is_open, is_stopped, ComesTo};

use crate::fault::FrameFault;
use crate::frame::{FrameRef, OCTETS};
use crate::number::Request;
use crate::stage::{Head, Stage, Stop, fault_of, is_in_head, is_stopped, step};
use std::marker::Model;

/// Reads a stream of octets in pieces, up to the end of one frame at a time. It keeps no more of the stream than that
/// frame.
#[derive(Drop)]
pub struct Reader {
    /// Those of the set that comes, or came last.
    octets: [u8; OCTETS],
    stage: Stage,
    /// How many octets of the stream were taken.
    taken: u64,
}

impl Model for Reader {
    ghost use Rattle.std.specs.Prelude.{◌≡◌, ◌<◌, length};
    ghost use Rattle.link_frames.specs.Reading.{Reading};

    ghost Value = { Reading };

    ghost use Rattle.link_frames.specs.Stages.{kept, whole_frame, fault_at, request_of, filled_of};

    ghost view = { λ r. record {
      kept = kept r.octets r.stage;
      frame = whole_frame r.octets r.stage;
      fault = fault_at r.taken r.stage;
      taken = r.taken;
    } };

    ghost invariant = { λ r. (0 < request_of r.stage) × (filled_of r.stage < 140) × (length r.octets ≡ 140) };
}

impl Reader {
    ghost use Rattle.std.specs.Prelude.{[], None};

    /// A reader at the start of a stream.
    pub fn new() -> Reader
        ensures { result ≡ record { kept = []; frame = None; fault = None; taken = 0 } }
    {
        Reader {
            octets: [0; OCTETS],
            stage: Stage::Nothing,
            taken: 0,
        }
    }

    /// How many octets of the stream were taken.
    pub fn taken(&self) -> u64
        ensures { result ≡ self.now.taken }
    {
        self.taken
    }

    /// How many octets of an unfinished frame are kept.
    pub fn pending(&self) -> u8
        ensures count { result ≡ length self.now.kept }
        ensures most { result ≤ 142 }
    {
        match self.stage {
            Stage::Nothing | Stage::Whole(_) | Stage::Stopped(Stop::Kind(_)) => 0,
            Stage::Kind(_) | Stage::Stopped(Stop::Number(_)) => 1,
            Stage::Content(_) | Stage::App(_) | Stage::Stopped(Stop::Answer { .. }) => 2,
            Stage::Set { filled, .. } => 3 + filled as u8,
        }
    }

    /// The frame with which the last piece that was fed ended.
    pub fn frame(&self) -> Option<FrameRef<'_>>
        ensures { option_map lent result ≡ self.now.frame }
    {
        let Stage::Whole(head) = self.stage else {
            return None;
        };
        Some(lend(head, &self.octets))
    }

    /// Drops a frame that was whole, and takes octets until the next one is or the piece ends: answers how many. What
    /// is left of a piece is fed again. A fault stays.
    #[inline(always)]
    pub fn feed(&mut self, piece: &[u8]) -> Result<usize, FrameFault>
        requires { self.old.taken + length piece.now ≤ 2 ^ 63 }
        ensures fed { self.old.fault ≡ None → Feeds self.old piece.now result self.new }
        ensures only { self.old.fault ≡ None → (answer : Result ℕ FrameFault) (new : Reading) →
            Feeds self.old piece.now answer new → (result ≡ answer) × (self.new ≡ new) }
        ensures bound { IfOk result (λ n. n ≤ length piece.now) }
        ensures some { IfOk result (λ n. 0 < length piece.now → 0 < n) }
        ensures again { IfSome self.old.fault (λ fault. (result ≡ Err fault) × (self.new ≡ self.old)
            × (self.new.frame ≡ None) × (self.new.taken ≡ fault.place)) }
    {
        if let Some(fault) = self.fault() {
            return Err(fault);
        }
        let (stage, n) = take_piece(self.stage, &mut self.octets, piece);
        self.stage = stage;
        self.taken += n as u64;
        match self.fault() {
            Some(fault) => Err(fault),
            None => Ok(n),
        }
    }

    /// Where the stream stopped being one of frames.
    fn fault(&self) -> Option<FrameFault>
        ensures { result ≡ self.now.fault }
    {
        match &self.stage {
            Stage::Stopped(stop) => Some(fault_of(stop, self.taken)),
            _ => None,
        }
    }
}

/// The frame with this head, and these octets where it has a set.
fn lend(head: Head, octets: &[u8; OCTETS]) -> FrameRef<'_>
    ensures { lent result ≡ frame_of octets.now head }
{
    match head {
        Head::Init => FrameRef::Init,
        Head::Start(request) => FrameRef::Start(request),
        Head::Content { request, attempt } => FrameRef::Content {
            request,
            attempt,
            octets,
        },
        Head::Nack(request) => FrameRef::Nack(request),
        Head::Ack(request) => FrameRef::Ack(request),
        Head::App { request, answer } => FrameRef::App { request, answer },
    }
}

/// Takes octets up to the end of a frame, and says how many.
#[inline(always)]
fn take_piece(stage: Stage, octets: &mut [u8; OCTETS], piece: &[u8]) -> (Stage, usize)
    requires going { is_stopped stage ≡ false }
    requires request { 0 < request_of stage }
    requires filled { filled_of stage < 140 }
    ensures comes { ComesTo octets.new (kept octets.old stage) piece.now result.1 result.0 }
    ensures ends { is_open result.0 ≡ true → result.1 ≡ length piece.now }
    ensures bound { result.1 ≤ length piece.now }
    ensures request { 0 < request_of result.0 }
    ensures filled { filled_of result.0 < 140 }
{
    let (stage, n) = take_head(without_frame(stage), piece);
    take_set(stage, octets, piece, n)
}

/// Drops a frame that is whole.
fn without_frame(stage: Stage) -> Stage
    requires { is_stopped stage ≡ false }
    ensures kept { (set : List ℕ) → kept set result ≡ kept set stage }
    ensures open { is_open result ≡ true }
    ensures request { 0 < request_of stage → 0 < request_of result }
    ensures filled { filled_of result ≡ filled_of stage }
{
    match stage {
        Stage::Whole(_) => Stage::Nothing,
        other => other,
    }
}

/// Takes the octets in front of a set one by one.
#[inline(always)]
fn take_head(stage: Stage, piece: &[u8]) -> (Stage, usize)
    requires open { is_open stage ≡ true }
    requires request { 0 < request_of stage }
    requires filled { filled_of stage < 140 }
    ensures comes { (set : List ℕ) → ComesTo set (kept set stage) piece.now result.1 result.0 }
    ensures ends { is_in_head result.0 ≡ true → result.1 ≡ length piece.now }
    ensures bound { result.1 ≤ length piece.now }
    ensures request { 0 < request_of result.0 }
    ensures filled { filled_of result.0 < 140 }
{
    let mut stage = stage;
    let mut n = 0;
    while n < piece.len() && is_in_head(&stage) {
        stage = step(&stage, piece[n]);
        if is_stopped(&stage) {
            return (stage, n);
        }
        n += 1;
    }
    (stage, n)
}

/// Takes the octets of a set at once, behind the first `n` of a piece.
fn take_set(stage: Stage, octets: &mut [u8; OCTETS], piece: &[u8], n: usize) -> (Stage, usize)
    requires filled { filled_of stage < 140 }
    requires request { 0 < request_of stage }
    requires bound { n ≤ length piece.now }
    requires ends { is_in_head stage ≡ true → n ≡ length piece.now }
    ensures comes { (had : List ℕ) → ComesTo octets.old had piece.now n stage
        → ComesTo octets.new had piece.now result.1 result.0 }
    ensures ends { is_open result.0 ≡ true → result.1 ≡ length piece.now }
    ensures bound { result.1 ≤ length piece.now }
    ensures request { 0 < request_of result.0 }
    ensures filled { filled_of result.0 < 140 }
{
    let Stage::Set {
        request,
        attempt,
        filled,
    } = stage
    else {
        return (stage, n);
    };
    let more = fill(octets, filled, &piece[n..]);
    (behind_octets(request, attempt, filled + more), n + more)
}

/// The stage at which so many octets of a set have come.
fn behind_octets(request: Request, attempt: u8, filled: usize) -> Stage
    requires { filled ≤ 140 }
    ensures whole { filled ≡ 140 → result ≡ Stage.Whole (Head.Content request attempt) }
    ensures part { filled < 140 → result ≡ Stage.Set request attempt filled }
{
    if filled == OCTETS {
        Stage::Whole(Head::Content { request, attempt })
    } else {
        Stage::Set {
            request,
            attempt,
            filled,
        }
    }
}

/// Copies the front of `more` behind the first octets of a set, as far as there is room, and says how many.
fn fill(octets: &mut [u8; OCTETS], filled: usize, more: &[u8]) -> usize
    requires { filled ≤ 140 }
    ensures count { result ≡ min (length more.now) (140 - filled) }
    ensures behind { take (filled + result) octets.new ≡ take filled octets.old ++ take result more.now }
{
    let n = more.len().min(OCTETS - filled);
    octets[filled..filled + n].copy_from_slice(&more[..n]);
    n
}
