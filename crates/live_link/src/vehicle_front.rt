//! The vehicle's script in front of its first event: its facts.

ghost use Rattle.std.specs.Prelude.{◌≡◌, ◌≤◌, false, [], IfOk, ℕ, List, Option};
ghost use Rattle.call_io.specs.Blocks.{held, sink, way};
ghost use Rattle.call_io.specs.Ways.{Onward};
ghost use Rattle.line_input.specs.Lines.{most_bytes};
ghost use Rattle.trace_text.specs.Drafts.{DraftOf};
ghost use Rattle.trace_text.specs.declared.draft.Draft.{Draft as DraftIs};
ghost use Rattle.trace_text.specs.declared.fact_line.FactLine.{FactLine as FactOf};
ghost use Rattle.trace_text.specs.declared.script.ScriptLine.TheVariants as line;
ghost use Rattle.live_link.specs.LiveOutcome.{LiveStreams, Over, streams};
ghost use Rattle.live_link.specs.inner.FrontGoes.{FrontOver, FrontRead, FrontStep, TakesInFront};
ghost use Rattle.live_link.specs.inner.Going.{Answers, IsOfLine, IsOfScript, Unread, Unwritten};
ghost use Rattle.live_link.specs.inner.VehicleRun.{FindsFirst, IsInFront, MayRun};

use crate::answer::LiveStatus;
use crate::own_lines::read_own;
use crate::script_lines::{next_line, refused};
use call_io::{Block, Sink, Source};
use line_input::{Lines, Reason};
use link_frames::End;
use msd_fit::Facts;
use trace_model::Event;
use trace_text::{Draft, FactLine, ScriptLine};

/// What the facts of a script are followed by.
pub(crate) enum Front {
    /// The first event, and the facts in front of it.
    First(Facts, Event),
    /// The end of the script.
    End,
}

/// Reads the facts of a script, up to its first event.
pub(crate) fn read_front<S: Source, O: Sink>(
    lines: &mut Lines,
    script: &mut S,
    trace: &mut Block<'_, O>,
) -> Result<Front, LiveStatus>
    requires alive { lines.old.failed ≡ false }
    requires few { lines.old.lines ≤ most_bytes }
    ensures runs { IfOk result (λ front. MayRun front lines.new) }
    ensures goes { (over : Over) (start : LiveStreams) (from to : Option (List ℕ)) (passes : ℕ) →
        ((draft : DraftIs) → DraftOf draft [] →
        FrontOver over start (streams (S.left script.old) (held O.held trace.old) from to passes) lines.old draft) →
        FrontRead over start (streams (S.left script.new) (held O.held trace.new) from to passes) lines.new result }
    ensures answers { Answers IsOfScript result }
    ensures unread { Unread result (S.faults script.old) (S.faults script.new) }
    ensures unwritten { Unwritten result (O.faults (sink trace.old)) (O.faults (sink trace.new)) }
    ensures script_counted { S.faults script.old ≤ S.faults script.new }
    ensures trace_counted { O.faults (sink trace.old) ≤ O.faults (sink trace.new) }
    ensures onward { Onward (way O.held trace.old) (way O.held trace.new) }
{
    let mut draft = Draft::new();
    loop {
        match read_fact(lines, script, trace, &mut draft)? {
            None => {}
            Some(front) => return Ok(front),
        }
    }
}

/// Reads a line in front of the first event; none is a fact.
fn read_fact<S: Source, O: Sink>(
    lines: &mut Lines,
    script: &mut S,
    trace: &mut Block<'_, O>,
    draft: &mut Draft,
) -> Result<Option<Front>, LiveStatus>
    requires { lines.old.failed ≡ false }
    ensures finds { FindsFirst lines.old lines.new result }
    ensures goes { (over : Over) (start : LiveStreams) (from to : Option (List ℕ)) (passes : ℕ) →
        FrontOver over start (streams (S.left script.old) (held O.held trace.old) from to passes) lines.old draft.old →
        FrontStep over start (streams (S.left script.new) (held O.held trace.new) from to passes) lines.new draft.new
        result }
    ensures answers { Answers IsOfScript result }
    ensures unread { Unread result (S.faults script.old) (S.faults script.new) }
    ensures unwritten { Unwritten result (O.faults (sink trace.old)) (O.faults (sink trace.new)) }
    ensures script_counted { S.faults script.old ≤ S.faults script.new }
    ensures trace_counted { O.faults (sink trace.old) ≤ O.faults (sink trace.new) }
    ensures onward { Onward (way O.held trace.old) (way O.held trace.new) }
{
    let found = next_line(lines, script, trace)?;
    if !found {
        return Ok(Some(Front::End));
    }
    let line = lines.line();
    match read_own(End::Vehicle, line.text()) {
        Err(reason) => Err(refused(line.number(), reason)),
        Ok(says) => take_in_front(draft, &says, line.number()),
    }
}

/// Takes a line in front of the first event.
fn take_in_front(
    draft: &mut Draft,
    says: &ScriptLine,
    number: u32,
) -> Result<Option<Front>, LiveStatus>
    ensures answers { Answers IsOfLine result }
    ensures going { IfOk result IsInFront }
    ensures takes { (told : List FactOf) → DraftOf draft.old told →
        TakesInFront told draft.new says.now number result }
{
    match says {
        ScriptLine::Fact(fact) => add(draft, fact, number),
        ScriptLine::Event(event) => match draft.facts() {
            None => Err(refused(number, Reason::Missing)),
            Some(facts) => Ok(Some(Front::First(facts, *event))),
        },
    }
}

fn add(draft: &mut Draft, fact: &FactLine, number: u32) -> Result<Option<Front>, LiveStatus>
    ensures answers { Answers IsOfLine result }
    ensures going { IfOk result IsInFront }
    ensures takes { (told : List FactOf) → DraftOf draft.old told →
        TakesInFront told draft.new (line.Fact fact.now) number result }
{
    if draft.add(fact) {
        Ok(None)
    } else {
        Err(refused(number, Reason::Many))
    }
}
