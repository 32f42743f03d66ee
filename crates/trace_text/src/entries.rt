//! The lines of a trace, read back.

ghost use Rattle.std.specs.Prelude.{◌≡◌};
ghost use Rattle.trace_text.specs.EntryLines.{entry_of};
ghost use Rattle.trace_text.specs.inner.Placing.{placed};
ghost use Rattle.line_input.specs.Lines.{line_answer};

mod choices;
mod frames;
mod items;
mod kinds;
mod next_words;

use items::read_note;
use line_input::{BadLine, Line, Reason};
use link_frames::Note;
use next_words::NextWords;
use trace_model::Entry;

/// The entry whose line this is. Its words are judged from left to right, and the summary of a set that is shown
/// against the set's octets. Whether its tick may follow on that of another line is not judged here.
pub fn read_entry(line: &Line<'_>) -> Result<Entry, BadLine>
    ensures { result ≡ line_answer line.now (entry_of line.now.text) }
{
    let mut entry = Entry {
        tick: 0,
        note: Note::Nothing,
    };
    match read_text(line.text(), &mut entry) {
        Ok(()) => Ok(entry),
        Err(reason) => Err(BadLine {
            line: line.number(),
            reason,
        }),
    }
}

/// Puts the entry that a text says in place.
#[tactic(auto, unfolding(crate::specs::EntryLines::entry_of))]
fn read_text(text: &[u8], into: &mut Entry) -> Result<(), Reason>
    ensures { placed result into.new ≡ entry_of text.now }
{
    let mut words = NextWords::of(text);
    into.tick = words.tick()?;
    read_note(&mut words, &mut into.note)
}
