//! A report that is being made.
ghost use Rattle.std.specs.Prelude.{◌≡◌, ◌+◌, ◌++◌, ◌∷◌, [], ℕ, List, IfOk, OnOk, false, length, take};
ghost use Rattle.view_lines.specs.Fault.{most_kept};
ghost use Rattle.view_lines.specs.Told.{Puts};
ghost use Rattle.view_reports.specs.Told.{IsEndReported, IsReported, breaks_told, entry_reported, watch_after};
ghost use Rattle.view_reports.specs.Watch.{breaks_at, watch_behind};
ghost use Rattle.view_reports.specs.inner.Heard.{HasHeard};
ghost use Rattle.view_traces.specs.Told.{tick_after};

use crate::breaks::Break;
use crate::manner::Manner;
use crate::put_breaks::{put_breaks, put_refusal};
use crate::put_rows::{put_calls, put_sets};
use crate::watch::Watch;
use line_input::Reason;
use std::alloc::{AllocError, Global};
use trace_model::Entry;
use view_traces::judge_line;

/// What is kept of the lines of a trace, and the tick of its last entry. The list of breaks is that of one line.
#[derive(Drop)]
pub(crate) struct Report {
    pub(crate) manner: Manner,
    pub(crate) watch: Watch,
    pub(crate) tick: u64,
    pub(crate) breaks: Vec<Break>,
}

impl Report {
    /// Before any line. It takes no memory yet.
    pub(crate) fn new(alloc: Global, manner: Manner) -> Report
        ensures heard { HasHeard result [] }
        ensures manner { result.manner ≡ manner }
    {
        Report {
            manner,
            watch: Watch::new(alloc),
            tick: 0,
            breaks: Vec::new(alloc),
        }
    }

    /// Keeps an entry that stands in this line, and puts what is told of it.
    fn put_entry(
        &mut self,
        text: &mut Vec<u8>,
        line: u64,
        entry: &Entry,
    ) -> Result<bool, AllocError>
        ensures told { IfOk result (λ refused.
            Puts (λ t. t ≡ breaks_told self.old.manner line entry.now.tick
            (breaks_at self.old.watch entry.now.note entry.now.tick)) text.old.items text.new.items refused) }
        ensures watch { OnOk result
            (self.new.watch ≡ watch_behind self.old.watch entry.now.note line entry.now.tick) }
        ensures tick { OnOk result (self.new.tick ≡ entry.now.tick) }
        ensures manner { self.new.manner ≡ self.old.manner }
    {
        self.breaks.clear();
        self.watch.judge(&entry.note, entry.tick, &mut self.breaks)?;
        if self.watch.take(&entry.note, line, entry.tick).is_err() {
            return Err(AllocError);
        }
        self.tick = entry.tick;
        put_breaks(text, &self.manner, line, entry.tick, self.breaks.as_slice())
    }

    /// Puts what is told of a line, by what is read in it. True is for one that is refused, or that breaks a rule.
    fn put_judged(
        &mut self,
        text: &mut Vec<u8>,
        number: u64,
        judged: &Result<Option<Entry>, Reason>,
    ) -> Result<bool, AllocError>
        ensures told { IfOk result (λ refused.
            Puts (λ t. t ≡ entry_reported self.old.manner self.old.watch number judged.now) text.old.items
            text.new.items refused) }
        ensures watch { OnOk result (self.new.watch ≡ watch_after self.old.watch number judged.now) }
        ensures tick { OnOk result (self.new.tick ≡ tick_after self.old.tick judged.now) }
        ensures manner { self.new.manner ≡ self.old.manner }
    {
        match judged {
            Ok(None) => Ok(false),
            Ok(Some(entry)) => self.put_entry(text, number, entry),
            Err(reason) => {
                put_refusal(text, self.manner.layout, number, *reason)?;
                Ok(true)
            }
        }
    }

    /// Puts what is told of one more line.
    pub(crate) fn put_line(
        &mut self,
        text: &mut Vec<u8>,
        number: u64,
        line: &[u8],
    ) -> Result<bool, AllocError>
        ensures told { (before : List (List ℕ)) (whole : List ℕ) → HasHeard self.old before →
            number ≡ length before + 1 → line.now ≡ take most_kept whole → IfOk result
            (λ refused. Puts (IsReported self.old.manner before whole) text.old.items text.new.items refused
            × HasHeard self.new (before ++ whole ∷ [])) }
        ensures manner { self.new.manner ≡ self.old.manner }
    {
        let judged = judge_line(self.tick, line);
        self.put_judged(text, number, &judged)
    }

    /// Puts what is told at the end: of all calls, and then of all sets.
    pub(crate) fn put_end(&self, text: &mut Vec<u8>) -> Result<(), AllocError>
        ensures { (lines : List (List ℕ)) → HasHeard self.now lines →
            OnOk result (Puts (IsEndReported self.now.manner lines) text.old.items text.new.items false) }
    {
        put_calls(text, self.manner.layout, self.watch.calls.rows())?;
        put_sets(text, self.manner.layout, self.watch.sets.rows())
    }
}
