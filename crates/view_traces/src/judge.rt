//! What a line of a trace says.
ghost use Rattle.std.specs.Prelude.{◌≡◌, None, false};
ghost use Rattle.line_input.specs.Lines.{is_comment as is_comment_of, line_fault as line_fault_of};
ghost use Rattle.trace_text.specs.EntryLines.{entry_of};
ghost use Rattle.view_traces.specs.Told.{entry_after, judged_entry, tick_after};

use line_input::{Line, Reason};
use trace_model::Entry;
use trace_text::read_entry;
use view_lines::{is_comment, line_fault};

/// The entry of a line that says something, unless its tick is below this one.
fn entry_after(tick: u64, line: &[u8]) -> Result<Option<Entry>, Reason>
    requires sound { line_fault_of line.now ≡ None }
    requires says { is_comment_of line.now ≡ false }
    ensures { result ≡ entry_after tick (entry_of line.now) }
{
    // An entry is the same in whatever line it stands.
    match read_entry(&Line::of(1, line)) {
        Ok(entry) => {
            if entry.tick < tick {
                Err(Reason::Number)
            } else {
                Ok(Some(entry))
            }
        }
        Err(bad) => Err(bad.reason),
    }
}

/// The entry of a line behind an entry of this tick, nothing where the line is passed over, or why it is refused.
pub fn judge_line(tick: u64, line: &[u8]) -> Result<Option<Entry>, Reason>
    ensures { result ≡ judged_entry tick line.now }
{
    if let Some(reason) = line_fault(line) {
        return Err(reason);
    }
    if is_comment(line) {
        return Ok(None);
    }
    entry_after(tick, line)
}

/// The tick of the last entry, behind one of this tick and then a line.
pub(crate) fn tick_after(tick: u64, judged: &Result<Option<Entry>, Reason>) -> u64
    ensures { result ≡ tick_after tick judged.now }
{
    match judged {
        Ok(Some(entry)) => entry.tick,
        Ok(None) | Err(_) => tick,
    }
}
