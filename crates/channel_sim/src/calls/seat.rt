//! The session of a call, and for how many ticks it does nothing.

ghost use Rattle.std.specs.Prelude.{◌≡◌, Some, None, not};
ghost use Rattle.std.specs.Option.{is_some, option_copied};
ghost use Rattle.channel_sim.specs.inner.Seats.{IsQuietFor};

use psap_machine::Session;
use std::marker::Model;

/// Where the point's session of a call is, if it is there.
#[derive(Drop)]
pub(crate) struct Seat {
    /// In fewer ticks than these the session does nothing.
    pub(super) quiet: u64,
    pub(super) session: Option<Session>,
}

impl Model for Seat {
    ghost use Rattle.std.specs.Prelude.{Option};
    ghost use Rattle.psap_machine.specs.declared.session.Session.{Session};
    ghost use Rattle.channel_sim.specs.inner.Seats.{IsQuietFor};

    ghost Value = { Option Session };

    ghost view = { λ s. s.session };

    ghost invariant = { λ s. IsQuietFor s.quiet s.session };
}

impl Seat {
    /// No session is there.
    pub(crate) fn free() -> Seat
        ensures { result ≡ None }
    {
        Seat {
            quiet: u64::MAX,
            session: None,
        }
    }

    /// This session is there.
    pub(crate) fn of(session: Session) -> Seat
        ensures { result ≡ Some session }
    {
        Seat {
            quiet: quiet_ticks(&session),
            session: Some(session),
        }
    }

    /// The session, if it is there.
    pub(crate) fn session(&self) -> Option<&Session>
        ensures { option_copied result ≡ self.now }
    {
        self.session.as_ref()
    }

    /// Whether a session is there.
    pub(crate) fn is_some(&self) -> bool
        ensures { result ≡ is_some self.now }
    {
        self.session.is_some()
    }

    /// Whether no session is there.
    pub(crate) fn is_none(&self) -> bool
        ensures { is_some self.now ≡ not result }
    {
        self.session.is_none()
    }

    /// In fewer ticks than these the session, if it is there, does nothing.
    #[inline]
    pub(crate) fn quiet(&self) -> u64
        ensures { IsQuietFor result self.now }
    {
        self.quiet
    }
}

/// In fewer ticks than these this session does nothing.
pub(super) fn quiet_ticks(session: &Session) -> u64
    ensures { IsQuietFor result (Some session.now) }
{
    match session.due() {
        Some(due) => u64::from(due),
        None => u64::MAX,
    }
}
