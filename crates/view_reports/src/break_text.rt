//! The object and the sentence of a break.
ghost use Rattle.std.specs.Prelude.{◌≡◌, ◌++◌, OnOk};
ghost use Rattle.view_reports.specs.BreakTexts.{break_head, break_object, break_part, break_place, break_sentence, long_part, soon_part, unopened_part};

use crate::breaks::Break;
use crate::fields::put_number;
use crate::limits::{LEAST_OPENING, muting_limit};
use itoa::Buffer;
use std::alloc::AllocError;
use view_lines::put_all;
use view_traces::end_word;

#[tactic(auto, unfolding(crate::specs::BreakTexts::break_head))]
// Puts where a break is, at the front of its object.
fn put_head(text: &mut Vec<u8>, line: u64, tick: u64, broken: &Break) -> Result<(), AllocError>
    ensures { OnOk result (text.new.items ≡ text.old.items ++ break_head line tick broken.now) }
{
    let mut number = Buffer::new();
    let mut at = Buffer::new();
    let mut rule = Buffer::new();
    let mut call = Buffer::new();
    put_all(
        text,
        &[
            b"{\"report\":\"break\",\"line\":",
            number.format(line).as_bytes(),
            b",\"tick\":",
            at.format(tick).as_bytes(),
            b",\"rule\":",
            rule.format(broken.rule().number()).as_bytes(),
            b",\"end\":\"",
            end_word(broken.end()),
            b"\",\"call\":",
            call.format(broken.call()).as_bytes(),
        ],
    )
}

#[tactic(auto, unfolding(crate::specs::BreakTexts::break_object))]
/// Puts the object of a break in this line at this tick.
pub(crate) fn put_break_object(
    text: &mut Vec<u8>,
    line: u64,
    tick: u64,
    broken: &Break,
) -> Result<(), AllocError>
    ensures { OnOk result (text.new.items ≡ text.old.items ++ break_object line tick broken.now) }
{
    put_head(text, line, tick, broken)?;
    put_number(text, b",\"muted\":", b"null", broken.muted())?;
    put_number(text, b",\"open\":", b"null", broken.open())?;
    put_number(text, b",\"bound\":", b"null", broken.bound())?;
    text.extend_from_slice(b"}\n")
}

#[tactic(auto, unfolding(crate::specs::BreakTexts::break_place))]
// Puts where a break is, at the front of its sentence.
fn put_place(text: &mut Vec<u8>, line: u64, tick: u64, broken: &Break) -> Result<(), AllocError>
    ensures { OnOk result (text.new.items ≡ text.old.items ++ break_place line tick broken.now) }
{
    let mut number = Buffer::new();
    let mut at = Buffer::new();
    let mut rule = Buffer::new();
    let mut call = Buffer::new();
    put_all(
        text,
        &[
            b"line ",
            number.format(line).as_bytes(),
            b", tick ",
            at.format(tick).as_bytes(),
            b", rule ",
            rule.format(broken.rule().number()).as_bytes(),
            b", ",
            end_word(broken.end()),
            b", call ",
            call.format(broken.call()).as_bytes(),
        ],
    )
}

#[tactic(auto, unfolding(crate::specs::BreakTexts::unopened_part))]
// Puts that the voice isn't opened.
fn put_unopened(text: &mut Vec<u8>, muted: u64) -> Result<(), AllocError>
    ensures { OnOk result (text.new.items ≡ text.old.items ++ unopened_part muted) }
{
    let mut ticks = Buffer::new();
    put_all(
        text,
        &[
            b": the voice isn't opened, muted for ",
            ticks.format(muted).as_bytes(),
            b" ticks\n",
        ],
    )
}

#[tactic(auto, unfolding(crate::specs::BreakTexts::soon_part))]
// Puts that the voice is muted too soon.
fn put_soon(text: &mut Vec<u8>, opened: u64) -> Result<(), AllocError>
    ensures { OnOk result (text.new.items ≡ text.old.items ++ soon_part opened) }
{
    let mut ticks = Buffer::new();
    let mut bound = Buffer::new();
    put_all(
        text,
        &[
            b": the voice is muted, open for ",
            ticks.format(opened).as_bytes(),
            b" ticks, least ",
            bound.format(LEAST_OPENING).as_bytes(),
            b"\n",
        ],
    )
}

#[tactic(auto, unfolding(crate::specs::BreakTexts::long_part))]
// Puts that the voice is muted for too long.
fn put_long(text: &mut Vec<u8>, muted: u64, most: u64) -> Result<(), AllocError>
    ensures { OnOk result (text.new.items ≡ text.old.items ++ long_part muted most) }
{
    let mut ticks = Buffer::new();
    let mut bound = Buffer::new();
    put_all(
        text,
        &[
            b": the voice is muted for ",
            ticks.format(muted).as_bytes(),
            b" ticks, most ",
            bound.format(most).as_bytes(),
            b"\n",
        ],
    )
}

// Puts what is wrong.
fn put_part(text: &mut Vec<u8>, broken: &Break) -> Result<(), AllocError>
    ensures { OnOk result (text.new.items ≡ text.old.items ++ break_part broken.now) }
{
    match broken {
        Break::Unshown { .. } => {
            text.extend_from_slice(b": a set is acknowledged that was not shown before\n")
        }
        Break::Unopened { muted, .. } => put_unopened(text, *muted),
        Break::Soon { open, .. } => put_soon(text, *open),
        Break::Long { end, muted, .. } => put_long(text, *muted, muting_limit(*end)),
    }
}

#[tactic(auto, unfolding(crate::specs::BreakTexts::break_sentence))]
/// Puts the sentence of a break in this line at this tick.
pub(crate) fn put_break_sentence(
    text: &mut Vec<u8>,
    line: u64,
    tick: u64,
    broken: &Break,
) -> Result<(), AllocError>
    ensures { OnOk result (text.new.items ≡ text.old.items ++ break_sentence line tick broken.now) }
{
    put_place(text, line, tick, broken)?;
    put_part(text, broken)
}
