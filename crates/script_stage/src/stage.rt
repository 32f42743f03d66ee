//! The stage: what the lines of a script so far have come to.

ghost use Rattle.std.specs.Prelude.{◌≡◌, ℕ, ◌+◌, ◌^◌, ◌<◌, ◌≤◌, List, [], None, Some};
ghost use Rattle.trace_model.specs.declared.event.Event.{Event};
ghost use Rattle.trace_text.specs.Script.{Said, nothing_said};
ghost use Rattle.channel_sim.specs.Lines as lines;
ghost use Rattle.channel_sim.specs.World as model;
ghost use Rattle.channel_sim.specs.PlayStands.{PlayStandsFor, calls_drawn, ticks_reached};
ghost use Rattle.trace_text.specs.declared.script.ScriptLine.TheVariants as line;
ghost use Rattle.script_stage.specs.Stage.{HaltWriteCause, Learns, Obeys, PlaysEvent, SetsOut};
ghost use Rattle.script_stage.specs.Stage.{StageStandsFor, calls_in, ticks_in};

use channel_sim::{Play, SimFault};
use line_input::Reason;
use link_frames::Steps;
use std::alloc::Global;
use std::sync::ledger::Ledger;
use trace_model::{Event, Listener};
use trace_text::{Draft, FactLine, ScriptLine};

/// What the lines so far have come to: facts, and from the first event line on a world.
#[derive(Drop)]
pub struct Stage {
    draft: Draft,
    world: Option<Play>,
}

/// Why a line isn't played to its end.
#[derive(Clone, Copy, Debug, PartialEq, Eq)]
pub enum Halt {
    /// The line is refused in its place.
    Refused(Reason),
    /// What listens couldn't write, or there was no memory: the stage is spent.
    Sim(SimFault),
}

/// Adds a fact line in front of the first event line.
fn learn(draft: &mut Draft, fact: &FactLine) -> Result<(), Halt>
    ensures { Learns draft.old draft.new fact.now result }
{
    if draft.add(fact) {
        Ok(())
    } else {
        Err(Halt::Refused(Reason::Many))
    }
}

/// A line lets fewer than 2^32 ticks pass. This does nothing: its contract is that law.
fn ticks_are_few(event: &Event)
    ensures { (n : ℕ) → event.now ≡ Event.Tick n → n < 2 ^ 32 }
{
    if let Event::Tick(n) = event {
        n.number();
    }
}

impl Stage {
    /// Before any line.
    pub fn new() -> Stage
        ensures stands { StageStandsFor result nothing_said [] }
        ensures calls { calls_in result ≡ 0 }
        ensures ticks { ticks_in result ≡ 0 }
    {
        Stage {
            draft: Draft::new(),
            world: None,
        }
    }

    /// The tick that its world has reached, in ticks of 100 ms; 0 where there is no world yet.
    pub fn tick(&self) -> u64
        ensures { result ≡ ticks_in self.now }
    {
        match &self.world {
            Some(world) => world.tick(),
            None => 0,
        }
    }

    /// Has the first world, which knows the facts so far, where there is no world yet. Nothing happens in it. It is
    /// refused exactly where the facts are not those that a vehicle needs.
    pub fn set_out(&mut self, alloc: Global) -> Result<(), Reason>
        ensures { (said : Said) (events : List Event) → StageStandsFor self.old said events →
            SetsOut self.old self.new said events result }
    {
        match self.world {
            Some(_) => Ok(()),
            None => self.set_out_first(alloc),
        }
    }

    /// The same where there is no world yet.
    fn set_out_first(&mut self, alloc: Global) -> Result<(), Reason>
        requires first { self.old.world ≡ None }
        ensures { (said : Said) (events : List Event) → StageStandsFor self.old said events →
            SetsOut self.old self.new said events result }
    {
        let Some(facts) = self.draft.facts() else {
            return Err(Reason::Missing);
        };
        self.world = Some(Play::new(alloc, facts));
        Ok(())
    }

    /// Plays one line: a fact in front of the first event, or an event. Where a fault of the simulation is answered,
    /// the stage is spent.
    pub fn obey<H: Listener, L: Ledger>(
        &mut self,
        alloc: Global,
        says: &ScriptLine,
        to: &mut H,
        moments: &mut Steps<L>,
    ) -> Result<(), Halt>
        requires few { calls_in self.old < 4294967295 }
        requires soon { ticks_in self.old + 4294967295 < 2 ^ 64 }
        ensures obeys { (said : Said) (events : List Event) → StageStandsFor self.old said events →
            Obeys (H.grew to.old to.new) (H.partly to.old to.new) (λ n. moments.new ≤ moments.old + n)
            self.old self.new said events says.now result }
        ensures unwritten { HaltWriteCause result (H.faults to.old) (H.faults to.new) }
        ensures counted { H.faults to.old ≤ H.faults to.new }
    {
        match says {
            ScriptLine::Fact(fact) => match self.world {
                Some(_) => Err(Halt::Refused(Reason::Late)),
                None => learn(&mut self.draft, fact),
            },
            ScriptLine::Event(event) => self.go_on(alloc, event, to, moments),
        }
    }

    /// Plays an event: in the world, or in the first one, which knows the facts so far.
    fn go_on<H: Listener, L: Ledger>(
        &mut self,
        alloc: Global,
        event: &Event,
        to: &mut H,
        moments: &mut Steps<L>,
    ) -> Result<(), Halt>
        requires few { calls_in self.old < 4294967295 }
        requires soon { ticks_in self.old + 4294967295 < 2 ^ 64 }
        ensures obeys { (said : Said) (events : List Event) → StageStandsFor self.old said events →
            Obeys (H.grew to.old to.new) (H.partly to.old to.new) (λ n. moments.new ≤ moments.old + n)
            self.old self.new said events (line.Event event.now) result }
        ensures unwritten { HaltWriteCause result (H.faults to.old) (H.faults to.new) }
        ensures counted { H.faults to.old ≤ H.faults to.new }
    {
        match &mut self.world {
            Some(world) => play(world, alloc, event, to, moments),
            None => self.begin(alloc, event, to, moments),
        }
    }

    /// Plays the first event, in the first world, which knows the facts so far.
    #[cold]
    fn begin<H: Listener, L: Ledger>(
        &mut self,
        alloc: Global,
        event: &Event,
        to: &mut H,
        moments: &mut Steps<L>,
    ) -> Result<(), Halt>
        requires first { self.old.world ≡ None }
        ensures obeys { (said : Said) (events : List Event) → StageStandsFor self.old said events →
            Obeys (H.grew to.old to.new) (H.partly to.old to.new) (λ n. moments.new ≤ moments.old + n)
            self.old self.new said events (line.Event event.now) result }
        ensures unwritten { HaltWriteCause result (H.faults to.old) (H.faults to.new) }
        ensures counted { H.faults to.old ≤ H.faults to.new }
    {
        let Some(facts) = self.draft.facts() else {
            return Err(Halt::Refused(Reason::Missing));
        };
        let mut world = Play::new(alloc, facts);
        let played = play(&mut world, alloc, event, to, moments);
        self.world = Some(world);
        played
    }
}

/// Plays an event in a world.
pub fn play<H: Listener, L: Ledger>(
    world: &mut Play,
    alloc: Global,
    event: &Event,
    to: &mut H,
    moments: &mut Steps<L>,
) -> Result<(), Halt>
    requires few { calls_drawn world.old < 4294967295 }
    requires soon { ticks_reached world.old + 4294967295 < 2 ^ 64 }
    ensures played { (w : model.World) → PlayStandsFor world.old w →
        PlaysEvent (H.grew to.old to.new) (H.partly to.old to.new) (λ n. moments.new ≤ moments.old + n)
        world.old (Some world.new) (lines.step w event.now) (lines.passes_within w event.now) result }
    ensures passes { (w : model.World) → PlayStandsFor world.old w →
        moments.new ≤ moments.old + lines.passes_within w event.now }
    ensures unwritten { HaltWriteCause result (H.faults to.old) (H.faults to.new) }
    ensures counted { H.faults to.old ≤ H.faults to.new }
{
    ticks_are_few(event);
    match world.advance(alloc, event, to, moments) {
        Ok(()) => Ok(()),
        Err(fault) => Err(Halt::Sim(fault)),
    }
}
