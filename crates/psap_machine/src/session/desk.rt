//! What the session does at what its desk asks for, and as its call ends. After EN 16062 and EN 16072.
ghost use Rattle.std.specs.Prelude.{◌≡◌, ◌↔◌, ◌≤◌, IsTrue, []};

use super::moves::nothing;
use super::{LEAST_OPENING, Phase, Session};
use link_frames::{Answer, End, Items, Note, Request, Why, put};

impl Session {
    ghost use Rattle.std.specs.Prelude.{◌∷◌, if◌then◌else◌};
    ghost use Rattle.audio_switch.specs.Switch.{is_open, open_ticks};
    ghost use Rattle.link_frames.specs.Does.{Does};
    ghost use Rattle.link_frames.specs.declared.frame.End.TheVariants as «end»;
    ghost use Rattle.link_frames.specs.declared.note.Note.TheVariants as note;
    ghost use Rattle.psap_machine.specs.Point.{Point, Over};
    ghost use Rattle.psap_machine.specs.PointRows as rows;
    ghost use Rattle.psap_machine.specs.PointRows.{point_row};
    ghost use Rattle.psap_machine.specs.SessionStands.{SessionIs, SessionStandsFor};

    /// Something came that the link could not read: a point that asks for a set says so.
    pub(super) fn damaged(&mut self, items: &mut Items)
        requires none { items.old.items ≡ [] }
        ensures { Does SessionStandsFor SessionIs self.old self.new items.new.items (λ s. point_row s rows.Damaged) }
    {
        let phase = self.phase;
        match phase {
            Phase::Asking(request) => self.refuses(request, items),
            _ => nothing(items),
        }
    }

    /// The desk asks for another set.
    pub(super) fn request(&mut self, items: &mut Items)
        requires none { items.old.items ≡ [] }
        ensures { Does SessionStandsFor SessionIs self.old self.new items.new.items (λ s. point_row s rows.Request) }
    {
        match self.phase {
            Phase::Over => nothing(items),
            Phase::Talking if self.is_long_open() => self.asks_again(items),
            _ => put(items, &Note::Busy(self.call)),
        }
    }

    /// The desk lets the vehicle go.
    pub(super) fn clear(&mut self, items: &mut Items)
        requires none { items.old.items ≡ [] }
        ensures { Does SessionStandsFor SessionIs self.old self.new items.new.items (λ s. point_row s rows.Clear) }
    {
        match self.phase {
            Phase::Over => nothing(items),
            Phase::Talking if self.is_long_open() => self.lets_go(items),
            _ => put(items, &Note::Busy(self.call)),
        }
    }

    /// Whether the voice was open for so long that the desk may ask again or let the vehicle go.
    pub(super) fn is_long_open(&self) -> bool
        ensures long { IsTrue result ↔ (20 ≤ open_ticks self.now.voice.stretch) }
        ensures open { IsTrue result → IsTrue (is_open self.now.voice.stretch) }
    {
        self.voice.open_for() >= LEAST_OPENING
    }

    /// Mutes an open voice, and asks for the next set; the numbers of requests may be spent.
    fn asks_again(&mut self, items: &mut Items)
        requires none { items.old.items ≡ [] }
        requires open { IsTrue (is_open self.old.voice.stretch) }
        ensures { self.old.phase ≡ Phase.Talking → 20 ≤ open_ticks self.old.voice.stretch →
            Does SessionStandsFor SessionIs self.old self.new items.new.items (λ s. point_row s rows.Request) }
    {
        match self.asked.checked_add(1).and_then(Request::new) {
            Some(request) => {
                self.voice.mute();
                self.voices(items);
                self.asks(request, items);
            }
            None => put(items, &Note::Spent(self.call)),
        }
    }

    /// Mutes an open voice, and tells the vehicle of the set shown last that it may go.
    fn lets_go(&mut self, items: &mut Items)
        requires none { items.old.items ≡ [] }
        requires open { IsTrue (is_open self.old.voice.stretch) }
        ensures { self.old.phase ≡ Phase.Talking → 20 ≤ open_ticks self.old.voice.stretch →
            Does SessionStandsFor SessionIs self.old self.new items.new.items (λ s. point_row s rows.Clear) }
    {
        match self.last {
            Some(request) => {
                self.voice.mute();
                self.enters(Phase::Clearing(request));
                let answer = Answer::Clear;
                self.voices(items);
                self.applies(request, answer, items);
            }
            None => put(items, &Note::Unshown(self.call)),
        }
    }

    /// A fault of the audio or the modem: a muted voice opens.
    pub(super) fn fault(&mut self, items: &mut Items)
        requires none { items.old.items ≡ [] }
        ensures { Does SessionStandsFor SessionIs self.old self.new items.new.items (λ s. point_row s rows.Fault) }
    {
        match self.phase {
            Phase::Over => nothing(items),
            Phase::Talking => self.faults(items),
            Phase::Listening | Phase::Asking(_) | Phase::Telling(_) | Phase::Clearing(_) => {
                self.faults(items);
                self.opens(items);
            }
        }
    }

    /// The call ends.
    pub(super) fn ends(&mut self, why: Why, items: &mut Items)
        requires none { items.old.items ≡ [] }
        ensures { Does SessionStandsFor SessionIs self.old self.new items.new.items
            (λ s. point_row s (rows.Ended why)) }
    {
        if self.is_over() {
            nothing(items)
        } else {
            self.goes_down(why, items)
        }
    }

    /// The leg goes down, and the session is over.
    pub(super) fn goes_down(&mut self, why: Why, items: &mut Items)
        requires none { items.old.items ≡ [] }
        ensures items { items.new.items ≡ note.Down «end».Point self.old.call why ∷ [] }
        ensures new { self.new ≡ record self.old { phase = Phase.Over } }
    {
        self.phase = Phase::Over;
        put(
            items,
            &Note::Down {
                end: End::Point,
                call: self.call,
                why,
            },
        )
    }
}
