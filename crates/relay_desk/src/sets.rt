//! The sets that a desk knows of, and the items and messages that they bring.

ghost use Rattle.std.specs.Prelude.{◌≡◌, ◌<◌, ◌+◌, ◌^◌, ◌++◌, ◌∷◌, [], IfOk, OnOk};
ghost use Rattle.relay_desk.specs.Desk.{sent_forth, shown_there, turn_item};
ghost use Rattle.relay_desk.specs.Requests.{message_of};
ghost use Rattle.relay_desk.specs.inner.Sets.{turn_place};

use crate::event::RelayNote;
use crate::turn::Turn;
use link_frames::OCTETS;
use std::alloc::{AllocError, Global};

/// A set that the point showed for a request of a call.
#[derive(Clone, Copy, Debug, PartialEq, Eq)]
pub(crate) struct ShownSet {
    pub(crate) request: u8,
    pub(crate) octets: [u8; OCTETS],
}

/// The set of a desk request, and the call in which the point showed it.
#[derive(Clone, Copy, Debug, PartialEq, Eq)]
pub(crate) struct DeskSet {
    pub(crate) call: u32,
    pub(crate) set: ShownSet,
}

impl DeskSet {
    /// The message with this set, which stands at this place, is sent to the second point.
    pub(crate) fn sent(&self, place: u32) -> RelayNote
        requires { place + 1 < 2 ^ 32 }
        ensures { result ≡ sent_forth (message_of place self.now) }
    {
        RelayNote::Forth {
            desk: place + 1,
            call: self.call,
            request: self.set.request,
            octets: self.set.octets,
        }
    }

    /// The second point shows this set, which stands at this place.
    pub(crate) fn shown(&self, place: u32) -> RelayNote
        requires { place + 1 < 2 ^ 32 }
        ensures { result ≡ shown_there (message_of place self.now) }
    {
        RelayNote::Shown {
            desk: place + 1,
            call: self.call,
            request: self.set.request,
            octets: self.set.octets,
        }
    }
}

/// What a unit tick brings: the items, and the places of the sets whose messages are sent again.
#[derive(Drop)]
pub(crate) struct Turns {
    pub(crate) notes: Vec<RelayNote>,
    pub(crate) again: Vec<u32>,
}

impl Turns {
    /// None yet, with room for so many: where they are many, one that grew would be copied, or be new to the system,
    /// again and again.
    pub(crate) fn with_room(alloc: Global, count: usize) -> Result<Turns, AllocError>
        ensures notes { IfOk result (λ turns. turns.notes.items ≡ []) }
        ensures again { IfOk result (λ turns. turns.again.items ≡ []) }
    {
        Ok(Turns {
            notes: Vec::with_capacity(alloc, count)?,
            again: Vec::with_capacity(alloc, count)?,
        })
    }

    /// The desk request whose set stands at this place has its turn.
    pub(crate) fn add(&mut self, turn: Turn, place: u32, set: &DeskSet) -> Result<(), AllocError>
        requires { place + 1 < 2 ^ 32 }
        ensures notes { OnOk result (self.new.notes.items
            ≡ self.old.notes.items ++ turn_item turn (message_of place set.now)) }
        ensures again { OnOk result (self.new.again.items ≡ self.old.again.items ++ turn_place turn place) }
    {
        match turn {
            Turn::Waits => Ok(()),
            Turn::Resends => self.resend(place, set),
            Turn::GivesUp => self.give_up(place),
        }
    }

    /// The message of this set is sent again.
    fn resend(&mut self, place: u32, set: &DeskSet) -> Result<(), AllocError>
        requires { place + 1 < 2 ^ 32 }
        ensures notes { OnOk result (self.new.notes.items
            ≡ self.old.notes.items ++ sent_forth (message_of place set.now) ∷ []) }
        ensures again { OnOk result (self.new.again.items ≡ self.old.again.items ++ place ∷ []) }
    {
        self.notes.push(set.sent(place))?;
        self.again.push(place)?;
        Ok(())
    }

    /// The desk request is given up.
    fn give_up(&mut self, place: u32) -> Result<(), AllocError>
        requires { place + 1 < 2 ^ 32 }
        ensures notes { OnOk result (self.new.notes.items
            ≡ self.old.notes.items ++ RelayNote.GaveUp (place + 1) ∷ []) }
        ensures again { OnOk result (self.new.again.items ≡ self.old.again.items ++ []) }
    {
        self.notes.push(RelayNote::GaveUp(place + 1))?;
        Ok(())
    }
}
