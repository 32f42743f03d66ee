//! What is told of a line of a trace.
ghost use Rattle.std.specs.Prelude.{◌≡◌, ◌++◌, OnOk, IfOk};
ghost use Rattle.view_lines.specs.Told.{Puts};
ghost use Rattle.view_reports.specs.Told.{break_text, break_told, breaks_told, is_judged, refusal_sentence, refusal_text};

use crate::break_text::{put_break_object, put_break_sentence};
use crate::breaks::Break;
use crate::manner::{Layout, Manner};
use itoa::Buffer;
use line_input::Reason;
use link_frames::End;
use std::alloc::AllocError;
use view_lines::{put_all, put_line_refusal};

/// Whether a break is judged, where an end is judged alone or where none is.
fn is_judged(end: Option<End>, broken: &Break) -> bool
    ensures { result ≡ is_judged end broken.now }
{
    match end {
        Some(end) => match broken {
            Break::Unshown { .. } => false,
            Break::Unopened { end: of, .. } => end == *of,
            Break::Soon { end: of, .. } => end == *of,
            Break::Long { end: of, .. } => end == *of,
        },
        None => true,
    }
}

fn put_break_text(
    text: &mut Vec<u8>,
    layout: Layout,
    line: u64,
    tick: u64,
    broken: &Break,
) -> Result<(), AllocError>
    ensures { OnOk result (text.new.items ≡ text.old.items ++ break_text layout line tick broken.now) }
{
    match layout {
        Layout::Sentences => put_break_sentence(text, line, tick, broken),
        Layout::Objects => put_break_object(text, line, tick, broken),
    }
}

/// Puts what is told of a break in this line at this tick. True is for one that is judged.
fn put_break(
    text: &mut Vec<u8>,
    manner: &Manner,
    line: u64,
    tick: u64,
    broken: &Break,
) -> Result<bool, AllocError>
    ensures { IfOk result (λ refused.
        Puts (λ t. t ≡ break_told manner.now line tick broken.now) text.old.items text.new.items refused) }
{
    if !is_judged(manner.end, broken) {
        return Ok(false);
    }
    put_break_text(text, manner.layout, line, tick, broken)?;
    Ok(true)
}

/// Puts what is told of these breaks in this line at this tick. True is for any that is judged.
pub(crate) fn put_breaks(
    text: &mut Vec<u8>,
    manner: &Manner,
    line: u64,
    tick: u64,
    breaks: &[Break],
) -> Result<bool, AllocError>
    ensures { IfOk result (λ refused.
        Puts (λ t. t ≡ breaks_told manner.now line tick breaks.now) text.old.items text.new.items refused) }
{
    let mut any = false;
    for broken in breaks {
        any |= put_break(text, manner, line, tick, broken)?;
    }
    Ok(any)
}

#[tactic(auto, unfolding(crate::specs::Told::refusal_sentence))]
// Puts the sentence of a line that is refused.
fn put_refusal_sentence(text: &mut Vec<u8>, line: u64, reason: Reason) -> Result<(), AllocError>
    ensures { OnOk result (text.new.items ≡ text.old.items ++ refusal_sentence line reason) }
{
    let mut number = Buffer::new();
    let mut code = Buffer::new();
    put_all(
        text,
        &[
            b"line ",
            number.format(line).as_bytes(),
            b": refused, reason ",
            code.format(reason.code()).as_bytes(),
            b"\n",
        ],
    )
}

/// Puts what is told of a line that is refused.
pub(crate) fn put_refusal(
    text: &mut Vec<u8>,
    layout: Layout,
    line: u64,
    reason: Reason,
) -> Result<(), AllocError>
    ensures { OnOk result (text.new.items ≡ text.old.items ++ refusal_text layout line reason) }
{
    match layout {
        Layout::Sentences => put_refusal_sentence(text, line, reason),
        Layout::Objects => put_line_refusal(text, line, reason),
    }
}
