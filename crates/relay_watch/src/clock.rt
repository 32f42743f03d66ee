//! The relay desk with the tick that it has reached.

ghost use Rattle.std.specs.Prelude.{◌≡◌, ◌<◌, ◌≤◌, ◌+◌, ◌-◌, ℕ, IfErr, OnOk, OnErr, map, [], ◌∷◌};
ghost use Rattle.call_io.specs.Bytes.{Grew, GrewPartly};
ghost use Rattle.call_io.specs.Ways.{Onward};
ghost use Rattle.trace_model.specs.Listener.{DeafCause};
ghost use Rattle.relay_desk.specs.Desk.{MayHappen, happens};
ghost use Rattle.relay_desk.specs.RelayStands.{desk_of};
ghost use Rattle.relay_text.specs.ItemLine.{OfDesk, item_line, text_with_desk};
ghost use Rattle.relay_watch.specs.Hears.{hears_note, order_event};
ghost use Rattle.relay_desk.specs.declared.event.RelayEvent.TheVariants as event;
ghost use Rattle.relay_watch.specs.Clocks.{ComesNearer, IsTold, clock_of, elapses, entry_comes, first_clock, meets, row_at};

use call_io::Sink;
use link_frames::{Note, OCTETS, Request};
use relay_desk::{Relay, RelayEvent, RelayNote};
use relay_text::{RelayOrder, write_item};
use std::alloc::Global;
use trace_model::{Deaf, Entry};
use trace_text::write_entry;

/// The relay desk, and the tick of the trace that it has reached.
#[derive(Drop)]
pub struct DeskClock {
    relay: Relay,
    tick: u64,
}

impl DeskClock {
    /// At tick 0, before anything happened.
    pub fn new(alloc: Global) -> DeskClock
        ensures { clock_of result ≡ first_clock }
    {
        DeskClock {
            relay: Relay::new(alloc),
            tick: 0,
        }
    }

    /// Lets the desk's time pass up to a tick, and writes its items.
    pub fn catch_up<O: Sink>(&mut self, alloc: Global, target: u64, out: &mut O) -> Result<(), Deaf>
        ensures ok { OnOk result (IsTold (elapses (target - self.old.tick) (clock_of self.old)) self.new
            (O.held out.old) (O.held out.new)) }
        ensures err { OnErr result (GrewPartly (O.held out.old) (O.held out.new)
            (text_with_desk (elapses (target - self.old.tick) (clock_of self.old)).items)) }
        ensures stood { OnOk result (O.faults out.new ≡ O.faults out.old) }
        ensures cause { IfErr result (λ e. DeafCause e (O.faults out.old) (O.faults out.new)) }
        ensures counted { O.faults out.old ≤ O.faults out.new }
        ensures onward { Onward (O.way out.old) (O.way out.new) }
    {
        while self.tick < target {
            self.go_on(alloc, target, out)?;
        }
        Ok(())
    }

    /// Lets the desk's time pass up to its next items, but not beyond a tick, and writes these.
    fn go_on<O: Sink>(&mut self, alloc: Global, target: u64, out: &mut O) -> Result<(), Deaf>
        requires { self.old.tick < target }
        ensures ok { OnOk result (ComesNearer self.old self.new target (O.held out.old) (O.held out.new)) }
        ensures err { OnErr result (GrewPartly (O.held out.old) (O.held out.new)
            (text_with_desk (elapses (target - self.old.tick) (clock_of self.old)).items)) }
        ensures stood { OnOk result (O.faults out.new ≡ O.faults out.old) }
        ensures cause { IfErr result (λ e. DeafCause e (O.faults out.old) (O.faults out.new)) }
        ensures counted { O.faults out.old ≤ O.faults out.new }
        ensures onward { Onward (O.way out.old) (O.way out.new) }
    {
        match self.relay.due() {
            None => {
                self.tick = target;
                Ok(())
            }
            Some(due) => {
                let units = at_most(due, target - self.tick);
                self.act(
                    alloc,
                    self.tick + u64::from(units),
                    &RelayEvent::Units(units),
                    out,
                )
            }
        }
    }

    /// Writes an entry of the world at its tick, behind the items of the desk before that tick. The desk hears of a set
    /// that is shown.
    pub fn meet<O: Sink>(&mut self, alloc: Global, entry: &Entry, out: &mut O) -> Result<(), Deaf>
        ensures ok { OnOk result (IsTold (meets entry.now (clock_of self.old)) self.new (O.held out.old)
            (O.held out.new)) }
        ensures err { OnErr result (GrewPartly (O.held out.old) (O.held out.new)
            (text_with_desk (meets entry.now (clock_of self.old)).items)) }
        ensures stood { OnOk result (O.faults out.new ≡ O.faults out.old) }
        ensures cause { IfErr result (λ e. DeafCause e (O.faults out.old) (O.faults out.new)) }
        ensures counted { O.faults out.old ≤ O.faults out.new }
        ensures onward { Onward (O.way out.old) (O.way out.new) }
    {
        self.catch_up(alloc, entry.tick.saturating_sub(1), out)?;
        self.take(alloc, entry, out)
    }

    /// Writes an entry of the world. The desk hears of a set that is shown.
    fn take<O: Sink>(&mut self, alloc: Global, entry: &Entry, out: &mut O) -> Result<(), Deaf>
        ensures ok { OnOk result (IsTold (entry_comes entry.now (clock_of self.old)) self.new (O.held out.old)
            (O.held out.new)) }
        ensures err { OnErr result (GrewPartly (O.held out.old) (O.held out.new)
            (text_with_desk (entry_comes entry.now (clock_of self.old)).items)) }
        ensures stood { OnOk result (O.faults out.new ≡ O.faults out.old) }
        ensures cause { IfErr result (λ e. DeafCause e (O.faults out.old) (O.faults out.new)) }
        ensures counted { O.faults out.old ≤ O.faults out.new }
        ensures onward { Onward (O.way out.old) (O.way out.new) }
    {
        if write_entry(entry, out).is_err() {
            return Err(Deaf::Write);
        }
        self.hear(alloc, &entry.note)
    }

    /// The desk hears of a set that the point shows.
    fn hear(&mut self, alloc: Global, note: &Note) -> Result<(), Deaf>
        ensures ok { OnOk result (clock_of self.new
            ≡ record { desk = hears_note note.now (desk_of self.old.relay); tick = self.old.tick }) }
        ensures err { IfErr result (λ e. e ≡ Deaf.Memory) }
    {
        match note {
            Note::Shown {
                call,
                request,
                octets,
            } => self.show(alloc, *call, *request, octets),
            _ => Ok(()),
        }
    }

    /// The point shows this set.
    fn show(
        &mut self,
        alloc: Global,
        call: u32,
        request: Request,
        octets: &[u8; OCTETS],
    ) -> Result<(), Deaf>
        ensures ok { OnOk result (clock_of self.new ≡ record {
          desk = (happens (desk_of self.old.relay) (event.Shown call request octets.now)).desk;
          tick = self.old.tick;
        }) }
        ensures err { IfErr result (λ e. e ≡ Deaf.Memory) }
    {
        let shown = RelayEvent::Shown {
            call,
            request: request.number(),
            octets: *octets,
        };
        match self.relay.step(alloc, &shown) {
            Ok(_) => Ok(()),
            Err(_) => Err(Deaf::Memory),
        }
    }

    /// Has something happen at the desk that takes no time, and writes the items. There is no memory for more than
    /// 4294967295 desk requests.
    pub fn obey<O: Sink>(
        &mut self,
        alloc: Global,
        order: &RelayOrder,
        out: &mut O,
    ) -> Result<(), Deaf>
        ensures ok { OnOk result (IsTold (row_at self.old.tick (happens (desk_of self.old.relay)
            (order_event order.now))) self.new (O.held out.old) (O.held out.new)) }
        ensures err { OnErr result (GrewPartly (O.held out.old) (O.held out.new)
            (text_with_desk (row_at self.old.tick (happens (desk_of self.old.relay) (order_event order.now))).items)) }
        ensures stood { OnOk result (O.faults out.new ≡ O.faults out.old) }
        ensures cause { IfErr result (λ e. DeafCause e (O.faults out.old) (O.faults out.new)) }
        ensures counted { O.faults out.old ≤ O.faults out.new }
        ensures onward { Onward (O.way out.old) (O.way out.new) }
    {
        if self.relay.requests() == u32::MAX {
            return Err(Deaf::Memory);
        }
        self.act(alloc, self.tick, &event_of(order), out)
    }

    /// Has something happen at the desk, at the tick that it has reached then, and writes the items.
    fn act<O: Sink>(
        &mut self,
        alloc: Global,
        tick: u64,
        event: &RelayEvent,
        out: &mut O,
    ) -> Result<(), Deaf>
        requires { MayHappen (desk_of self.old.relay) event.now }
        ensures ok { OnOk result (IsTold (row_at tick (happens (desk_of self.old.relay) event.now)) self.new
            (O.held out.old) (O.held out.new)) }
        ensures err { OnErr result (GrewPartly (O.held out.old) (O.held out.new)
            (text_with_desk (row_at tick (happens (desk_of self.old.relay) event.now)).items)) }
        ensures stood { OnOk result (O.faults out.new ≡ O.faults out.old) }
        ensures cause { IfErr result (λ e. DeafCause e (O.faults out.old) (O.faults out.new)) }
        ensures counted { O.faults out.old ≤ O.faults out.new }
        ensures onward { Onward (O.way out.old) (O.way out.new) }
    {
        match self.relay.step(alloc, event) {
            Ok(notes) => {
                self.tick = tick;
                write_items(tick, &notes, out)
            }
            Err(_) => Err(Deaf::Memory),
        }
    }
}

/// What happens at the desk by an order.
fn event_of(order: &RelayOrder) -> RelayEvent
    ensures { result ≡ order_event order.now }
{
    match order {
        RelayOrder::Pass(call) => RelayEvent::Pass(call.number()),
        RelayOrder::Forth(k) => RelayEvent::Forth(k.number()),
        RelayOrder::Back(k) => RelayEvent::Back(k.number()),
    }
}

/// So many ticks, and no more than are left.
fn at_most(due: u32, left: u64) -> u32
    ensures due { result ≤ due }
    ensures left { result ≤ left }
    ensures some { 0 < due → 0 < left → 0 < result }
{
    if left < u64::from(due) {
        left as u32
    } else {
        due
    }
}

/// Writes the lines of these items.
fn write_items<O: Sink>(tick: u64, notes: &[RelayNote], out: &mut O) -> Result<(), Deaf>
    ensures ok { OnOk result (Grew (O.held out.old) (O.held out.new) (text_with_desk (map (OfDesk tick) notes.now))) }
    ensures err { OnErr result (GrewPartly (O.held out.old) (O.held out.new)
        (text_with_desk (map (OfDesk tick) notes.now))) }
    ensures stood { OnOk result (O.faults out.new ≡ O.faults out.old) }
    ensures cause { IfErr result (λ e. DeafCause e (O.faults out.old) (O.faults out.new)) }
    ensures counted { O.faults out.old ≤ O.faults out.new }
    ensures onward { Onward (O.way out.old) (O.way out.new) }
{
    for note in notes {
        write_one(tick, note, out)?;
    }
    Ok(())
}

/// Writes the line of an item.
fn write_one<O: Sink>(tick: u64, note: &RelayNote, out: &mut O) -> Result<(), Deaf>
    ensures ok { OnOk result (Grew (O.held out.old) (O.held out.new) (item_line tick note.now)) }
    ensures err { OnErr result (GrewPartly (O.held out.old) (O.held out.new) (item_line tick note.now)) }
    ensures stood { OnOk result (O.faults out.new ≡ O.faults out.old) }
    ensures cause { IfErr result (λ e. DeafCause e (O.faults out.old) (O.faults out.new)) }
    ensures counted { O.faults out.old ≤ O.faults out.new }
    ensures onward { Onward (O.way out.old) (O.way out.new) }
{
    match write_item(tick, note, out) {
        Ok(()) => Ok(()),
        Err(_) => Err(Deaf::Write),
    }
}
