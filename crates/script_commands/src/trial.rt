//! The command `trial`: a number in, the counts of the trace of the script that it makes out.

ghost use Rattle.std.specs.Prelude.{◌≡◌, ℕ, ◌+◌, ◌<◌, ◌≤◌, ◌∷◌, ◌++◌, List, decimal, length, IfOk, OnOk};
ghost use Rattle.arrayvec.specs.ArrayVec.{array_vec_len};
ghost use Rattle.call_io.specs.Ways.{Onward};
ghost use Rattle.msd_fit.specs.declared.facts.Facts.{Facts};
ghost use Rattle.line_input.specs.Characters.{space};
ghost use Rattle.trace_text.specs.Script.{script_of};
ghost use Rattle.trace_model.specs.declared.event.Event.{Event};
ghost use Rattle.channel_sim.specs.Lines.{bound};
ghost use Rattle.script_commands.specs.Make.{made_script};
ghost use Rattle.command_base.specs.Outcome.{WriteCause};
ghost use Rattle.script_stage.specs.ScriptTrace.{script_passes};
ghost use Rattle.script_commands.specs.Trial.{EndsTrial, made_tally, trial_text};
ghost use Rattle.command_base.specs.Ends.{EndsWithText};
ghost use Rattle.script_commands.specs.inner.Made.{AppendsLine};
ghost use Rattle.script_commands.specs.inner.Trialled.{Counted, call_events, made_own, most_events};

use crate::make::{CallTimes, Draws, LinesText, MADE_CALLS};
use arrayvec::ArrayVec;
use call_io::{Sink, write_all};
use channel_sim::Play;
use command_base::Status;
use line_input::push_number;
use link_frames::Steps;
use msd_fit::{Cause, Facts, OwnFacts};
use msd_values::{Format, Marks, RootKind, Vin};
use script_stage::{Halt, play};
use std::alloc::Global;
use std::sync::ledger::Ledger;
use trace_model::{Event, Positive, Tally};

/// Plays the script that a number makes, and writes the counts of its trace once it was played to its end. Before that
/// nothing is written.
pub fn try_script<O: Sink, L: Ledger>(
    alloc: Global,
    seed: u32,
    output: &mut O,
    moments: &mut Steps<L>,
) -> Status
    ensures ends { EndsTrial seed (O.held output.old) (O.held output.new) result }
    ensures passes { moments.new ≤ moments.old + script_passes (script_of (made_script seed)) }
    ensures unwritten { WriteCause result (O.faults output.old) (O.faults output.new) }
    ensures counted { O.faults output.old ≤ O.faults output.new }
    ensures onward { Onward (O.way output.old) (O.way output.new) }
{
    match count_calls(alloc, seed, moments) {
        Ok(tally) => write_counts(&tally, output),
        // A tally writes nothing, so it fails for want of memory alone.
        Err(_) => Status::Memory,
    }
}

/// Plays the calls of the script that a number makes, and counts the entries.
fn count_calls<L: Ledger>(alloc: Global, seed: u32, moments: &mut Steps<L>) -> Result<Tally, Halt>
    ensures tally { IfOk result (λ tally. tally ≡ made_tally seed) }
    ensures passes { moments.new ≤ moments.old + script_passes (script_of (made_script seed)) }
{
    let mut world = Play::new(alloc, Facts::Own(own_facts()));
    let mut tally = Tally::new();
    let mut draws = Draws::new(seed);
    for made in 0..MADE_CALLS {
        count_call(
            made + 1,
            &draws.call(),
            alloc,
            &mut world,
            &mut tally,
            moments,
        )?;
    }
    Ok(tally)
}

/// Plays the events of the call of a number, and counts their entries.
fn count_call<L: Ledger>(
    number: u32,
    times: &CallTimes,
    alloc: Global,
    world: &mut Play,
    tally: &mut Tally,
    moments: &mut Steps<L>,
) -> Result<(), Halt>
    requires some { 0 < number }
    requires early { (start : ℕ) × (known : Facts) × (events : List Event)
        × Counted start known events world.old tally.old moments.old × (length events ≤ most_events) }
    ensures counts { (start : ℕ) (known : Facts) (events : List Event) →
        Counted start known events world.old tally.old moments.old → OnOk result
        (Counted start known (events ++ call_events number times.now) world.new tally.new moments.new) }
    ensures few { (start : ℕ) (known : Facts) (events : List Event) →
        Counted start known events world.old tally.old moments.old →
        moments.new ≤ start + bound known (events ++ call_events number times.now) }
{
    let events = events_of(Positive::new(number).unwrap(), times);
    for event in &events {
        play(world, alloc, event, tally, moments)?;
    }
    Ok(())
}

/// The events of the call of a number.
fn events_of(call: Positive, times: &CallTimes) -> [Event; 10]
    ensures { result ≡ call_events call times.now }
{
    [
        Event::Flow {
            up: true,
            delay: times.up,
        },
        Event::Flow {
            up: false,
            delay: times.down,
        },
        Event::Trigger(Cause::Auto),
        Event::Answer,
        Event::Tick(times.request),
        Event::Request(call),
        Event::Tick(times.clear),
        Event::Clear(call),
        Event::Tick(Positive::new(40).unwrap()),
        Event::Hangup(call),
    ]
}

/// What the vehicle of the script knows of itself.
fn own_facts() -> OwnFacts
    ensures { result ≡ made_own }
{
    OwnFacts {
        format: Format::Two,
        vin: Vin::of(*b"WM9VDSVDSYA123456"),
        kind: RootKind::new(1).unwrap(),
        fuel: gasoline(),
        time: 1_577_836_800,
        latitude: 173_880_000,
        longitude: 41_700_000,
        heading: 45,
        trusted: true,
        before1: None,
        before2: None,
        passengers: None,
        extras: ArrayVec::new(),
    }
}

fn gasoline() -> Marks
    ensures { result ≡ made_own.fuel }
{
    Marks {
        gasoline: true,
        diesel: false,
        natural_gas: false,
        propane: false,
        electric: false,
        hydrogen: false,
        other: false,
    }
}

/// Writes the counts, and ends the command with that.
fn write_counts<O: Sink>(tally: &Tally, output: &mut O) -> Status
    ensures ends { EndsWithText (O.held output.old) (O.held output.new) (trial_text tally.now) Status.Done result }
    ensures unwritten { WriteCause result (O.faults output.old) (O.faults output.new) }
    ensures counted { O.faults output.old ≤ O.faults output.new }
    ensures onward { Onward (O.way output.old) (O.way output.new) }
{
    match write_all(output, &counts_text(tally)) {
        Ok(()) => Status::Done,
        Err(_) => Status::WriteFault,
    }
}

/// The lines of the counts.
fn counts_text(tally: &Tally) -> LinesText
    ensures { result.items ≡ trial_text tally.now }
{
    let [items, calls, shown, acked, ticks] = tally.counts();
    let mut lines = ArrayVec::new();
    push_count_line(&mut lines, b"items", items);
    push_count_line(&mut lines, b"calls", calls);
    push_count_line(&mut lines, b"shown", shown);
    push_count_line(&mut lines, b"acked", acked);
    push_count_line(&mut lines, b"ticks", ticks);
    lines
}

/// Appends a line of a word and a count.
fn push_count_line(lines: &mut LinesText, word: &[u8], count: u64)
    requires { array_vec_len lines.old + length word.now + 22 < 256 }
    ensures line { AppendsLine lines.old.items lines.new.items (word.now ++ space ∷ decimal count) }
    ensures len { array_vec_len lines.new ≤ array_vec_len lines.old + length word.now + 22 }
{
    lines.try_extend_from_slice(word).unwrap();
    push_number(lines, count);
    lines.push(b'\n');
}
