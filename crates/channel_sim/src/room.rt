//! Room that is used again from line to line.

ghost use Rattle.std.specs.Prelude.{◌≡◌};

use crate::calls::Due;
use link_frames::Items;
use std::alloc::Global;

/// What the ends gave last: the one that acted, and the other one by consequence.
#[derive(Drop)]
pub(crate) struct Given {
    pub(crate) own: Items,
    pub(crate) other: Items,
}

/// Places near to which the next frames that a flow hands over stand: among all that were sent in its direction, and in
/// a call.
#[derive(Clone, Copy)]
pub(crate) struct Near {
    pub(crate) sending: usize,
    pub(crate) frame: usize,
}

/// Those for the frames sent up, and down.
#[derive(Clone, Copy)]
pub(crate) struct Nears {
    pub(crate) up: Near,
    pub(crate) down: Near,
}

impl Nears {
    /// At the start of both.
    fn start() -> Nears {
        let near = Near {
            sending: 0,
            frame: 0,
        };
        Nears {
            up: near,
            down: near,
        }
    }

    /// Those for the frames sent up, or down.
    pub(crate) fn at(&self, up: bool) -> Near {
        if up { self.up } else { self.down }
    }

    /// Those for the frames sent up, or down, are these from now on.
    pub(crate) fn set(&mut self, up: bool, near: Near) {
        if up {
            self.up = near;
        } else {
            self.down = near;
        }
    }
}

/// The room of a world: for what ends give, for the numbers of calls, and for frames that are due.
#[derive(Drop)]
pub(crate) struct Room {
    pub(crate) given: Given,
    pub(crate) numbers: Vec<u32>,
    pub(crate) due: Vec<Due>,
    pub(crate) near: Nears,
}

impl Room {
    /// Empty room. It takes no memory.
    pub(crate) fn new(alloc: Global) -> Room {
        Room {
            given: Given {
                own: Items::new(),
                other: Items::new(),
            },
            numbers: Vec::new(alloc),
            due: Vec::new(alloc),
            near: Nears::start(),
        }
    }
}
