//! The object and the sentence of a call.
ghost use Rattle.std.specs.Prelude.{◌≡◌, ◌++◌, OnOk};
ghost use Rattle.view_reports.specs.EndTexts.{call_head, call_object, call_place, call_sentence, side_object, side_part, why_field, why_part};

use crate::call::Call;
use crate::fields::put_number;
use crate::side::Side;
use itoa::Buffer;
use link_frames::Why;
use std::alloc::AllocError;
use view_lines::put_all;
use view_traces::why_word;

#[tactic(auto, unfolding(crate::specs::EndTexts::why_field))]
// Puts why a leg went down, at the end of its object.
fn put_why_field(text: &mut Vec<u8>, why: Option<Why>) -> Result<(), AllocError>
    ensures { OnOk result (text.new.items ≡ text.old.items ++ why_field why) }
{
    match why {
        Some(why) => put_all(text, &[b",\"why\":\"", why_word(why), b"\"}"]),
        None => text.extend_from_slice(b",\"why\":null}"),
    }
}

#[tactic(auto, unfolding(crate::specs::EndTexts::side_object))]
// Puts the object of a leg, behind a name.
fn put_side_object(text: &mut Vec<u8>, name: &[u8], side: &Side) -> Result<(), AllocError>
    ensures { OnOk result (text.new.items ≡ text.old.items ++ side_object name.now side.now) }
{
    text.extend_from_slice(name)?;
    put_number(text, b"{\"up\":", b"null", side.came)?;
    put_number(text, b",\"down\":", b"null", side.went)?;
    put_why_field(text, side.why)
}

#[tactic(auto, unfolding(crate::specs::EndTexts::call_head))]
// Puts a call's number, at the front of its object.
fn put_head(text: &mut Vec<u8>, number: u32) -> Result<(), AllocError>
    ensures { OnOk result (text.new.items ≡ text.old.items ++ call_head number) }
{
    let mut digits = Buffer::new();
    put_all(
        text,
        &[
            b"{\"report\":\"call\",\"call\":",
            digits.format(number).as_bytes(),
        ],
    )
}

#[tactic(auto, unfolding(crate::specs::EndTexts::call_object))]
/// Puts the object of a call.
pub(crate) fn put_call_object(
    text: &mut Vec<u8>,
    number: u32,
    call: &Call,
) -> Result<(), AllocError>
    ensures { OnOk result (text.new.items ≡ text.old.items ++ call_object number call.now) }
{
    put_head(text, number)?;
    put_side_object(text, b",\"vehicle\":", &call.vehicle)?;
    put_side_object(text, b",\"point\":", &call.point)?;
    text.extend_from_slice(b"}\n")
}

#[tactic(auto, unfolding(crate::specs::EndTexts::why_part))]
// Puts why a leg went down, at the end of its part of a sentence.
fn put_why_part(text: &mut Vec<u8>, why: Option<Why>) -> Result<(), AllocError>
    ensures { OnOk result (text.new.items ≡ text.old.items ++ why_part why) }
{
    match why {
        Some(why) => put_all(text, &[b", ", why_word(why)]),
        None => Ok(()),
    }
}

#[tactic(auto, unfolding(crate::specs::EndTexts::side_part))]
// Puts what a leg came to, behind a name.
fn put_side_part(text: &mut Vec<u8>, name: &[u8], side: &Side) -> Result<(), AllocError>
    ensures { OnOk result (text.new.items ≡ text.old.items ++ side_part name.now side.now) }
{
    text.extend_from_slice(name)?;
    put_number(text, b" up ", b"-", side.came)?;
    put_number(text, b", down ", b"-", side.went)?;
    put_why_part(text, side.why)
}

#[tactic(auto, unfolding(crate::specs::EndTexts::call_place))]
// Puts a call's number, at the front of its sentence.
fn put_place(text: &mut Vec<u8>, number: u32) -> Result<(), AllocError>
    ensures { OnOk result (text.new.items ≡ text.old.items ++ call_place number) }
{
    let mut digits = Buffer::new();
    put_all(text, &[b"call ", digits.format(number).as_bytes()])
}

#[tactic(auto, unfolding(crate::specs::EndTexts::call_sentence))]
/// Puts the sentence of a call.
pub(crate) fn put_call_sentence(
    text: &mut Vec<u8>,
    number: u32,
    call: &Call,
) -> Result<(), AllocError>
    ensures { OnOk result (text.new.items ≡ text.old.items ++ call_sentence number call.now) }
{
    put_place(text, number)?;
    put_side_part(text, b": vehicle", &call.vehicle)?;
    put_side_part(text, b"; point", &call.point)?;
    text.extend_from_slice(b"\n")
}
