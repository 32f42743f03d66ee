//! The point's session of one call. After EN 16062; the numbers are this project's profile.
ghost use Rattle.std.specs.Prelude.{◌≡◌, ◌↔◌, ◌≤◌, IsTrue, IfSome};

mod desk;
mod frames;
mod moves;
mod ticks;

use crate::event::PointEvent;
use audio_switch::Switch;
use link_frames::{End, Items, Note, Request, Requests, Steps, Why, no_items, put};
use std::sync::ledger::Ledger;

/// T4, for which the point waits for the initiation: 5 seconds, in ticks of 100 ms.
const LONGEST_LISTENING: u32 = 50;

/// T8, for which the point asks for a set: 20 seconds, in ticks of 100 ms.
const LONGEST_ASKING: u32 = 200;

/// How long the point tells of a set that came, or lets the vehicle go, in ticks of 100 ms.
const TELLING: u32 = 25;

/// The ticks between two repeats of a frame.
const REPEATS_EVERY: u32 = 5;

/// How long the voice is muted at most: the sum of what the phases allow, in ticks of 100 ms.
const MOST_MUTED: u32 = LONGEST_LISTENING + LONGEST_ASKING + TELLING;

/// For how many ticks the voice is open before the desk may ask again or let the vehicle go.
const LEAST_OPENING: u32 = 20;

/// What the point waits for, with its request.
#[derive(Clone, Copy, Debug, PartialEq, Eq)]
enum Phase {
    Listening,
    Asking(Request),
    Telling(Request),
    Talking,
    Clearing(Request),
    Over,
}

/// The answering point's session of one call. What changes as ticks pass stands in front, side by side.
#[derive(Debug, Drop)]
pub struct Session {
    call: u32,
    phase: Phase,
    /// The ticks in the phase; the number stays at its greatest.
    in_phase: u32,
    voice: Switch,
    /// The greatest request asked, and 0 before the first; all from 1 to it were asked.
    asked: u8,
    /// The request whose set was shown last.
    last: Option<Request>,
    /// The requests whose set was shown.
    shown: Requests,
}

impl Session {
    ghost use Rattle.std.specs.Prelude.{[], ◌∷◌, ◌+◌};
    ghost use Rattle.audio_switch.specs.Switch.{is_open};
    ghost use Rattle.link_frames.specs.Does.{Does};
    ghost use Rattle.link_frames.specs.declared.frame.End.TheVariants as «end»;
    ghost use Rattle.link_frames.specs.declared.note.Note.TheVariants as note;
    ghost use Rattle.psap_machine.specs.Point.{Point, Over};
    ghost use Rattle.psap_machine.specs.PointRows.{arriving, called, heard, point_row, acts, due_of, units, IsLeastDue};
    ghost use Rattle.psap_machine.specs.SessionStands.{SessionStandsFor};

    /// A call of this number comes in that the vehicle placed: its session, and what the point does. Items are in
    /// order.
    pub fn arriving(call: u32) -> (Session, Items)
        ensures items { result.1.items ≡ (arriving call).items }
        ensures stands { SessionStandsFor result.0 (arriving call).new }
    {
        let mut items = Items::new();
        let session = Session::arriving_into(call, &mut items);
        (session, items)
    }

    /// As `arriving`; the items stand in `items`, in place of what stood there.
    pub fn arriving_into(call: u32, items: &mut Items) -> Session
        ensures items { items.new.items ≡ (arriving call).items }
        ensures stands { SessionStandsFor result (arriving call).new }
    {
        let session = Session {
            call,
            phase: Phase::Listening,
            in_phase: 0,
            voice: Switch::muted(MOST_MUTED),
            asked: 0,
            last: None,
            shown: Requests::none(),
        };
        session.comes_up(items);
        session
    }

    /// The point places a call of this number: its session, and what the point does. Items are in order.
    pub fn called(call: u32) -> (Session, Items)
        ensures items { result.1.items ≡ (called call).items }
        ensures stands { SessionStandsFor result.0 (called call).new }
    {
        let mut items = Items::new();
        let session = Session::called_into(call, &mut items);
        (session, items)
    }

    /// As `called`; the items stand in `items`, in place of what stood there.
    pub fn called_into(call: u32, items: &mut Items) -> Session
        ensures items { items.new.items ≡ (called call).items }
        ensures stands { SessionStandsFor result (called call).new }
    {
        let session = Session {
            call,
            phase: Phase::Talking,
            in_phase: 0,
            voice: Switch::opened(MOST_MUTED),
            asked: 0,
            last: None,
            shown: Requests::none(),
        };
        session.comes_up(items);
        session
    }

    /// The items of a leg that comes up.
    fn comes_up(&self, items: &mut Items)
        ensures { let opened = is_open self.now.voice.stretch in
            items.new.items ≡ note.Up «end».Point self.now.call
            ∷ note.Voice «end».Point self.now.call opened opened ∷ [] }
    {
        no_items(items);
        let up = Note::Up {
            end: End::Point,
            call: self.call,
        };
        put(items, &up);
        self.voices(items);
    }

    /// What the point does at an event. Items are in order.
    pub fn hear(&mut self, event: &PointEvent<'_>) -> Items
        ensures { Does SessionStandsFor SessionStandsFor self.old self.new result.items
            (λ s. point_row s (heard event.now)) }
    {
        let mut items = Items::new();
        self.hear_into(event, &mut items);
        items
    }

    /// As `hear`; the items stand in `items`, in place of what stood there, and nothing else is copied.
    #[tactic(auto, using(crate::proofs::Hears::row_stands))]
    pub fn hear_into(&mut self, event: &PointEvent<'_>, items: &mut Items)
        ensures { Does SessionStandsFor SessionStandsFor self.old self.new items.new.items
            (λ s. point_row s (heard event.now)) }
    {
        no_items(items);
        match event {
            PointEvent::Frame(frame) => self.frame(frame, items),
            PointEvent::Damaged => self.damaged(items),
            PointEvent::Request => self.request(items),
            PointEvent::Clear => self.clear(items),
            PointEvent::Fault => self.fault(items),
            PointEvent::Hangup => self.ends(Why::Hangup, items),
            PointEvent::Ended(why) => self.ends(*why, items),
            PointEvent::Reset => self.ends(Why::Lost, items),
        }
    }

    /// After how many ticks the point does something; `None` where it does nothing however many pass.
    pub fn due(&self) -> Option<u32>
        ensures value { (s : Point) → SessionStandsFor self.now s → result ≡ due_of s }
        ensures least { (s : Point) → SessionStandsFor self.now s → IsLeastDue result s }
    {
        self.ticks_left()
    }

    /// Lets `n` ticks pass, at least one and at most `due`. Items are in order.
    pub fn pass<L: Ledger>(&mut self, n: u32, moments: &mut Steps<L>) -> Items
        requires least { 1 ≤ n }
        requires due { (s : Point) → SessionStandsFor self.old s → IfSome (due_of s) (λ due. n ≤ due) }
        ensures ticks { Does SessionStandsFor SessionStandsFor self.old self.new result.items (units n) }
        ensures moments { moments.new ≡ moments.old + 1 }
    {
        let mut items = Items::new();
        self.pass_into(n, moments, &mut items);
        items
    }

    /// As `pass`; the items stand in `items`, in place of what stood there, and nothing else is copied.
    pub fn pass_into<L: Ledger>(&mut self, n: u32, moments: &mut Steps<L>, items: &mut Items)
        requires least { 1 ≤ n }
        requires due { (s : Point) → SessionStandsFor self.old s → IfSome (due_of s) (λ due. n ≤ due) }
        ensures ticks { Does SessionStandsFor SessionStandsFor self.old self.new items.new.items (units n) }
        ensures moments { moments.new ≡ moments.old + 1 }
    {
        moments.tick();
        no_items(items);
        self.age(n);
        self.acts(items)
    }

    /// The number of the call.
    pub fn call(&self) -> u32
        ensures { (s : Point) → SessionStandsFor self.now s → result ≡ s.call }
    {
        self.call
    }

    /// Whether the session is over: its leg is down, and nothing more happens.
    pub fn over(&self) -> bool
        ensures { (s : Point) → SessionStandsFor self.now s → IsTrue result ↔ (s.phase ≡ Over) }
    {
        self.is_over()
    }

    fn is_over(&self) -> bool
        ensures { IsTrue result ↔ (self.now.phase ≡ Phase.Over) }
    {
        matches!(self.phase, Phase::Over)
    }
}
