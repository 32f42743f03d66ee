//! The audit of a trace, line by line.

ghost use Rattle.std.specs.Prelude.{◌≡◌, ◌≤◌, ◌<◌, ◌^◌, ◌+◌, false, List, MatchOption, None, Option, [], ℕ};
ghost use Rattle.trace_model.specs.declared.entry.Entry.{Entry as EntryOf};
ghost use Rattle.trace_text.specs.EntryLines.{entry_of};
ghost use Rattle.trace_audit.specs.Outcome.{Outcome, VerdictCause};
ghost use Rattle.trace_audit.specs.inner.AuditTurns.{HeardStandsFor, Hears, HearsLine, IsOfLine, Standing, Turn, verdict_of};

use crate::rules::Rules;
use crate::verdict::Verdict;
use call_io::Source;
use line_input::{BadLine, Line, LineFault, Lines, Reason};
use std::alloc::Global;
use trace_model::Entry;
use trace_text::read_entry;

/// What an audit keeps of the entries so far: what the rules need, the last tick, and how many entries there were.
#[derive(Drop)]
struct Heard {
    rules: Rules,
    tick: u64,
    items: u64,
}

/// Reads the trace that a source has, and says whether it is safe. The first line that is refused, or that breaks a
/// rule, ends the audit. Memory is taken for the legs that are up, their muting, and the sets that were shown.
pub fn audit<I: Source>(alloc: Global, source: &mut I) -> Verdict
    ensures outcome { Outcome (I.left source.old) (I.left source.new) result }
    ensures cause { VerdictCause result (I.faults source.old) (I.faults source.new) }
    ensures counted { I.faults source.old ≤ I.faults source.new }
{
    let mut lines = Lines::new();
    let mut heard = Heard::new(alloc);
    loop {
        match take_turn(alloc, &mut lines, &mut heard, source) {
            None => {}
            Some(verdict) => return verdict,
        }
    }
}

/// Reads one more line and judges it; an answer ends the audit.
fn take_turn<I: Source>(
    alloc: Global,
    lines: &mut Lines,
    heard: &mut Heard,
    source: &mut I,
) -> Option<Verdict>
    requires alive { lines.old.failed ≡ false }
    requires few { heard.old.items < 2 ^ 32 }
    ensures turns { (start : Option (List ℕ)) → Standing start (I.left source.old) lines.old heard.old →
        Turn start (I.left source.new) lines.old lines.new heard.new result }
    ensures cause { MatchOption result (I.faults source.new ≡ I.faults source.old)
        (λ answer. VerdictCause answer (I.faults source.old) (I.faults source.new)) }
    ensures counted { I.faults source.old ≤ I.faults source.new }
{
    match lines.next(source) {
        Ok(found) => {
            if found {
                heard.hear_line(alloc, &lines.line())
            } else {
                Some(Verdict::Sound { items: heard.items })
            }
        }
        Err(fault) => Some(unread(fault)),
    }
}

/// The verdict where there is no further line.
fn unread(fault: LineFault) -> Verdict
    ensures { result ≡ verdict_of fault }
{
    match fault {
        LineFault::Bad(bad) => Verdict::Bad(bad),
        LineFault::ReadFault => Verdict::ReadFault,
        LineFault::TooLong => Verdict::TooLong,
    }
}

impl Heard {
    /// No entry.
    fn new(alloc: Global) -> Heard
        ensures { HeardStandsFor result [] }
    {
        Heard {
            rules: Rules::new(alloc),
            tick: 0,
            items: 0,
        }
    }

    /// Judges one more line; an answer ends the audit.
    fn hear_line(&mut self, alloc: Global, line: &Line<'_>) -> Option<Verdict>
        requires { self.old.items < 2 ^ 32 }
        ensures hears { (before : List EntryOf) → HeardStandsFor self.old before →
            HearsLine before line.now.number (entry_of line.now.text) self.new result }
        ensures said { IsOfLine result }
    {
        match read_entry(line) {
            Ok(entry) => self.hear(alloc, line.number(), &entry),
            Err(bad) => Some(Verdict::Bad(bad)),
        }
    }

    /// Judges one more entry.
    fn hear(&mut self, alloc: Global, line: u32, entry: &Entry) -> Option<Verdict>
        requires { self.old.items < 2 ^ 32 }
        ensures hears { (before : List EntryOf) → HeardStandsFor self.old before →
            Hears before line entry.now self.new result }
        ensures said { IsOfLine result }
    {
        if entry.tick < self.tick {
            let reason = Reason::Number;
            return Some(Verdict::Bad(BadLine { line, reason }));
        }
        match self.rules.hear(alloc, entry) {
            Ok(broken) => match broken {
                Some(rule) => Some(Verdict::Broken { line, rule }),
                None => {
                    self.tick = entry.tick;
                    self.items += 1;
                    None
                }
            },
            Err(_) => Some(Verdict::Memory),
        }
    }
}
