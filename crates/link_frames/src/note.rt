//! The items of a trace: what an end does that an observer sees.

ghost use Rattle.std.specs.Prelude.{◌≡◌, ◌≤◌, ◌<◌, ◌++◌, [], ◌∷◌, length};

use crate::frame::{End, Frame, OCTETS};
use crate::number::{DialAttempt, Request};
use arrayvec::ArrayVec;

/// Why a leg of a call went down.
#[derive(Clone, Copy, Debug, PartialEq, Eq)]
pub enum Why {
    Release,
    Hangup,
    Lost,
}

/// The timers that a trace names, after EN 16062; `Sum` is the bound on all muting of a stretch.
#[derive(Clone, Copy, Debug, PartialEq, Eq)]
pub enum Timer {
    T1,
    T2,
    T3,
    T4,
    T5,
    T6,
    T7,
    T8,
    T10,
    TD,
    TW,
    Sum,
}

/// One item of a trace. A call's number is 0 outside a call. In `Voice`, `up` is the direction from the vehicle to
/// the point, and `true` is open. `Restart` is of no call: an end lost its state.
#[derive(Clone, Copy, Debug, PartialEq, Eq)]
pub enum Note {
    Dial(DialAttempt),
    Failed(DialAttempt),
    GaveUp,
    Seeking,
    Arming,
    Cancelled,
    Standby,
    Idle,
    Nothing,
    Net(bool),
    Up {
        end: End,
        call: u32,
    },
    Down {
        end: End,
        call: u32,
        why: Why,
    },
    Voice {
        end: End,
        call: u32,
        up: bool,
        down: bool,
    },
    Send {
        end: End,
        call: u32,
        frame: Frame,
    },
    Shown {
        call: u32,
        request: Request,
        octets: [u8; OCTETS],
    },
    Acked {
        call: u32,
        request: Request,
        octets: [u8; OCTETS],
    },
    Ended {
        end: End,
        call: u32,
        timer: Timer,
    },
    Fault {
        end: End,
        call: u32,
    },
    Busy(u32),
    Spent(u32),
    Unshown(u32),
    Restart(End),
}

impl Default for Note {
    ghost use Rattle.std.specs.Prelude.{◌≡◌};
    ghost use Rattle.link_frames.specs.declared.note.Note.TheVariants as note;

    ghost is_default = { λ n. n ≡ note.Nothing };

    fn default() -> Note {
        Note::Nothing
    }
}

/// The most items that one step of an end gives.
pub const MOST_ITEMS: usize = 8;

/// The items of one step of an end, in order.
pub type Items = ArrayVec<Note, MOST_ITEMS>;

/// These items as a list of those that one step gives.
pub fn items_of(notes: &[Note]) -> Items
    requires { length notes.now ≤ MOST_ITEMS }
    ensures { result.items ≡ notes.now }
{
    Items::try_from(notes).unwrap()
}

/// Makes `items` these, in place of what stood there.
pub fn fill(items: &mut Items, notes: &[Note])
    requires { length notes.now ≤ MOST_ITEMS }
    ensures { items.new.items ≡ notes.now }
{
    no_items(items);
    items.try_extend_from_slice(notes).unwrap()
}

/// Takes all items out.
#[inline]
pub fn no_items(items: &mut Items)
    ensures { items.new.items ≡ [] }
{
    if !items.is_empty() {
        drop_items(items);
    }
}

/// The same. Out of line: mostly there are none.
#[inline(never)]
fn drop_items(items: &mut Items)
    ensures { items.new.items ≡ [] }
{
    items.clear();
}

/// Puts an item behind these, which have room for it. It is copied once, where it is put: a caller that makes the item in
/// its argument has that copy alone. A frame moves by a local of its own, without which the prover does not cover the move.
#[inline]
pub fn put(items: &mut Items, item: &Note)
    requires { length items.old.items < MOST_ITEMS }
    ensures { items.new.items ≡ items.old.items ++ item.now ∷ [] }
{
    match item {
        Note::Send { end, call, frame } => {
            let frame = *frame;
            items.push(Note::Send {
                end: *end,
                call: *call,
                frame,
            });
        }
        _ => items.push(*item),
    }
}
