//! The object of an entry.
ghost use Rattle.std.specs.Prelude.{◌≡◌, ◌++◌, OnOk, IfOk};
ghost use Rattle.view_lines.specs.Told.{Puts};
ghost use Rattle.view_traces.specs.Object.{entry_object};
ghost use Rattle.view_traces.specs.Told.{entry_told};

use crate::note::put_note;
use itoa::Buffer;
use line_input::Reason;
use std::alloc::AllocError;
use trace_model::Entry;
use view_lines::{put_all, put_line_refusal};

#[tactic(auto, unfolding(crate::specs::Object::entry_object))]
// Puts the object of an entry in the line of this number.
fn put_entry(text: &mut Vec<u8>, line: u64, entry: &Entry) -> Result<(), AllocError>
    ensures { OnOk result (text.new.items ≡ text.old.items ++ entry_object line entry.now) }
{
    let mut number = Buffer::new();
    let mut tick = Buffer::new();
    put_all(
        text,
        &[
            b"{\"line\":",
            number.format(line).as_bytes(),
            b",\"tick\":",
            tick.format(entry.tick).as_bytes(),
        ],
    )?;
    put_note(text, &entry.note)?;
    text.extend_from_slice(b"}\n")
}

/// Puts what is told of a line, by what is read in it. True is for a line that is refused.
pub(crate) fn put_told(
    text: &mut Vec<u8>,
    line: u64,
    judged: &Result<Option<Entry>, Reason>,
) -> Result<bool, AllocError>
    ensures { IfOk result
        (λ refused. Puts (λ t. t ≡ entry_told line judged.now) text.old.items text.new.items refused) }
{
    match judged {
        Ok(None) => Ok(false),
        Ok(Some(entry)) => {
            put_entry(text, line, entry)?;
            Ok(false)
        }
        Err(reason) => {
            put_line_refusal(text, line, *reason)?;
            Ok(true)
        }
    }
}
