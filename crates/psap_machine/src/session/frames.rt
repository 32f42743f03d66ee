//! What the session does with a frame. After EN 16062.
ghost use Rattle.std.specs.Prelude.{◌≡◌, ◌↔◌, IsTrue, []};

use super::{Phase, Session};
use link_frames::{Answer, FrameRef, Items, Note, OCTETS, Request, put};

impl Session {
    ghost use Rattle.std.specs.Prelude.{ℕ, ◌==◌, if◌then◌else◌};
    ghost use Rattle.link_frames.specs.Does.{Does};
    ghost use Rattle.link_frames.specs.Frame.{lent};
    ghost use Rattle.link_frames.specs.Ranks.{behind};
    ghost use Rattle.link_frames.specs.declared.frame.Frame.TheVariants as frame;
    ghost use Rattle.psap_machine.specs.PointRows as rows;
    ghost use Rattle.psap_machine.specs.PointRows.{point_row};
    ghost use Rattle.psap_machine.specs.SessionStands.{SessionIs, SessionStandsFor};

    /// A frame that the link of the call handed up.
    pub(super) fn frame(&mut self, frame: &FrameRef<'_>, items: &mut Items)
        requires none { items.old.items ≡ [] }
        ensures { Does SessionStandsFor SessionIs self.old self.new items.new.items
            (λ s. point_row s (rows.Arrives (lent frame.now))) }
    {
        match frame {
            FrameRef::Init => self.initiated(items),
            FrameRef::Content {
                request,
                attempt: _,
                octets,
            } => self.content(*request, octets, items),
            FrameRef::Start(_) | FrameRef::Nack(_) | FrameRef::Ack(_) | FrameRef::App { .. } => {}
        }
    }

    /// The vehicle is there: a point that listens asks for the first set.
    fn initiated(&mut self, items: &mut Items)
        requires none { items.old.items ≡ [] }
        ensures { Does SessionStandsFor SessionIs self.old self.new items.new.items
            (λ s. point_row s (rows.Arrives frame.Init)) }
    {
        match self.phase {
            Phase::Listening => self.asks(Request::first(), items),
            _ => {}
        }
    }

    /// A set came: it is shown where it was asked for and not shown before, and then acknowledged. A repeat is
    /// acknowledged again.
    fn content(&mut self, request: Request, octets: &[u8; OCTETS], items: &mut Items)
        requires none { items.old.items ≡ [] }
        ensures { (attempt : ℕ) → Does SessionStandsFor SessionIs self.old self.new items.new.items
            (λ s. point_row s (rows.Arrives (frame.Content request attempt octets.now))) }
    {
        if self.is_over() {
            return;
        }
        if self.shown.has(request) {
            self.acknowledges(request, items);
        } else if request.number() <= self.asked {
            self.shows(request, octets, items);
        }
    }

    /// Shows a set that was asked for and not shown before, and acknowledges it. Where it is the one that the point
    /// asks for, the application acknowledges it too.
    fn shows(&mut self, request: Request, octets: &[u8; OCTETS], items: &mut Items)
        requires none { items.old.items ≡ [] }
        ensures { Does SessionStandsFor SessionIs self.old self.new items.new.items (λ s.
            behind (rows.shows request octets.now s)
            (rows.shown_row request (rows.with_shown request octets.now s) s.phase)) }
    {
        self.shown.add(request);
        self.last = Some(request);
        put(
            items,
            &Note::Shown {
                call: self.call,
                request,
                octets: *octets,
            },
        );
        self.acknowledges(request, items);
        if self.asks_for(request) {
            self.enters(Phase::Telling(request));
            let answer = Answer::Positive;
            self.applies(request, answer, items);
        }
    }

    /// Whether it is this request that the point asks for.
    fn asks_for(&self, request: Request) -> bool
        ensures { IsTrue result ↔ (self.now.phase ≡ Phase.Asking request) }
    {
        matches!(self.phase, Phase::Asking(asked) if asked.number() == request.number())
    }
}
