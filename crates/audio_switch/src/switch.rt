//! The switch of the voice, with the ticks for which it has been as it is.

ghost use Rattle.std.specs.Prelude.{◌≡◌, ◌≤◌, IsTrue, IfSome};

use std::marker::Model;

/// The two directions of the voice: `up` is from the vehicle to the point, and `true` is open.
#[derive(Clone, Copy, Debug, PartialEq, Eq)]
pub struct Voice {
    pub up: bool,
    pub down: bool,
}

/// An unbroken stretch of muted or open voice, with its ticks.
#[derive(Clone, Copy, Debug, PartialEq, Eq)]
enum Stretch {
    Muted(u32),
    Open(u32),
}

/// A switch of the voice. It has a limit, in ticks of 100 ms, and is never muted for longer.
#[derive(Clone, Copy, Debug, PartialEq, Eq)]
pub struct Switch {
    limit: u32,
    stretch: Stretch,
}

impl Model for Switch {
    ghost use Rattle.std.specs.Prelude.{◌≤◌};
    ghost use Rattle.audio_switch.specs.Switch.{Switching, muted_ticks};

    ghost Value = { Switching };

    ghost view = { λ s. record { limit = s.limit; stretch = s.stretch } };

    ghost invariant = { λ s. muted_ticks s.stretch ≤ s.limit };

    ghost inverse = { λ v. record { limit = v.limit; stretch = v.stretch } };
}

impl Switch {
    ghost use Rattle.audio_switch.specs.Switch.{Switching, is_open, muted_ticks, open_ticks, room_in, aged, aged_within, unmuted};

    /// A voice that is muted from now on, for at most `limit` ticks.
    pub fn muted(limit: u32) -> Switch
        ensures { result ≡ record { limit = limit; stretch = Stretch.Muted 0 } }
    {
        Switch {
            limit,
            stretch: Stretch::Muted(0),
        }
    }

    /// A voice that is open from now on; once muted, it is so for at most `limit` ticks.
    pub fn opened(limit: u32) -> Switch
        ensures { result ≡ record { limit = limit; stretch = Stretch.Open 0 } }
    {
        Switch {
            limit,
            stretch: Stretch::Open(0),
        }
    }

    /// Both directions: they are both open or both muted.
    pub fn voice(&self) -> Voice
        ensures { result ≡ record { up = is_open self.now.stretch; down = is_open self.now.stretch } }
    {
        let open = match self.stretch {
            Stretch::Muted(_) => false,
            Stretch::Open(_) => true,
        };
        Voice {
            up: open,
            down: open,
        }
    }

    /// For how many ticks it has been muted, 0 where it is open. It is never more than the limit.
    pub fn muted_for(&self) -> u32
        ensures value { result ≡ muted_ticks self.now.stretch }
        ensures within { result ≤ self.now.limit }
    {
        match self.stretch {
            Stretch::Muted(ticks) => ticks,
            Stretch::Open(_) => 0,
        }
    }

    /// For how many ticks it has been open, 0 where it is muted. The number stays at the greatest `u32`.
    pub fn open_for(&self) -> u32
        ensures { result ≡ open_ticks self.now.stretch }
    {
        match self.stretch {
            Stretch::Muted(_) => 0,
            Stretch::Open(ticks) => ticks,
        }
    }

    /// For how many ticks it may still be muted; `None` where it is open.
    pub fn room(&self) -> Option<u32>
        ensures value { result ≡ room_in self.now.limit self.now.stretch }
        ensures within { muted_ticks self.now.stretch ≤ self.now.limit }
    {
        match self.stretch {
            Stretch::Muted(ticks) => Some(self.limit - ticks),
            Stretch::Open(_) => None,
        }
    }

    /// Mutes both directions of an open voice.
    pub fn mute(&mut self)
        requires { IsTrue (is_open self.old.stretch) }
        ensures { self.new ≡ record self.old { stretch = Stretch.Muted 0 } }
    {
        self.stretch = Stretch::Muted(0);
    }

    /// Opens both directions; a voice that is open stays so, and its ticks go on.
    pub fn unmute(&mut self)
        ensures { self.new ≡ record self.old { stretch = unmuted self.old.stretch } }
    {
        if let Stretch::Muted(_) = self.stretch {
            self.stretch = Stretch::Open(0);
        }
    }

    /// Lets `n` ticks pass: of a muted voice at most as many as there is room for.
    pub fn pass(&mut self, n: u32)
        requires { IfSome (room_in self.old.limit self.old.stretch) (λ room. n ≤ room) }
        ensures { self.new ≡ record self.old { stretch = aged n self.old.stretch } }
    {
        match &mut self.stretch {
            Stretch::Muted(ticks) => *ticks += n,
            Stretch::Open(ticks) => *ticks = ticks.saturating_add(n),
        }
    }

    /// Lets `n` ticks pass, a muted voice at most as many of them as there is room for.
    pub fn pass_within(&mut self, n: u32)
        ensures { self.new ≡ record self.old { stretch = aged_within n self.old.limit self.old.stretch } }
    {
        let limit = self.limit;
        match &mut self.stretch {
            Stretch::Muted(ticks) => *ticks += n.min(limit - *ticks),
            Stretch::Open(ticks) => *ticks = n.saturating_add(*ticks),
        }
    }
}
