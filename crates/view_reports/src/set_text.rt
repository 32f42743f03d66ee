//! The object and the sentence of a set.
ghost use Rattle.std.specs.Prelude.{◌≡◌, ◌++◌, OnOk};
ghost use Rattle.view_reports.specs.EndTexts.{octets_field, set_head, set_object, set_place, set_sentence, times_part};

use crate::fields::put_number;
use crate::handled::SetOf;
use crate::times::Times;
use itoa::Buffer;
use link_frames::OCTETS;
use std::alloc::AllocError;
use view_lines::put_all;

#[tactic(auto, unfolding(crate::specs::EndTexts::set_head))]
// Puts which set it is, at the front of its object.
fn put_head(text: &mut Vec<u8>, set: &SetOf) -> Result<(), AllocError>
    ensures { OnOk result (text.new.items ≡ text.old.items ++ set_head set.now) }
{
    let mut call = Buffer::new();
    let mut request = Buffer::new();
    put_all(
        text,
        &[
            b"{\"report\":\"set\",\"call\":",
            call.format(set.call).as_bytes(),
            b",\"request\":",
            request.format(set.request).as_bytes(),
        ],
    )
}

#[tactic(auto, unfolding(crate::specs::EndTexts::octets_field))]
// Puts the octets of a set, at the end of its object.
fn put_octets(text: &mut Vec<u8>, octets: &[u8; OCTETS]) -> Result<(), AllocError>
    ensures { OnOk result (text.new.items ≡ text.old.items ++ octets_field octets.now) }
{
    let mut digits = [0; 2 * OCTETS];
    let _ = hex::encode_to_slice(octets, &mut digits);
    put_all(text, &[b",\"octets\":\"", &digits, b"\"}\n"])
}

#[tactic(auto, unfolding(crate::specs::EndTexts::set_object))]
/// Puts the object of a set.
pub(crate) fn put_set_object(
    text: &mut Vec<u8>,
    set: &SetOf,
    times: &Times,
) -> Result<(), AllocError>
    ensures { OnOk result (text.new.items ≡ text.old.items ++ set_object set.now times.now) }
{
    put_head(text, set)?;
    put_number(text, b",\"sent\":", b"null", times.sent)?;
    put_number(text, b",\"shown\":", b"null", times.shown)?;
    put_number(text, b",\"acked\":", b"null", times.acked)?;
    put_number(text, b",\"ticks\":", b"null", times.ticks())?;
    put_octets(text, &set.octets)
}

#[tactic(auto, unfolding(crate::specs::EndTexts::set_place))]
// Puts which set it is, at the front of its sentence.
fn put_place(text: &mut Vec<u8>, set: &SetOf) -> Result<(), AllocError>
    ensures { OnOk result (text.new.items ≡ text.old.items ++ set_place set.now) }
{
    let mut call = Buffer::new();
    let mut request = Buffer::new();
    put_all(
        text,
        &[
            b"call ",
            call.format(set.call).as_bytes(),
            b", request ",
            request.format(set.request).as_bytes(),
        ],
    )
}

#[tactic(auto, unfolding(crate::specs::EndTexts::times_part))]
// Puts when a set was sent, shown and acknowledged.
fn put_times(text: &mut Vec<u8>, times: &Times) -> Result<(), AllocError>
    ensures { OnOk result (text.new.items ≡ text.old.items ++ times_part times.now) }
{
    put_number(text, b": sent ", b"-", times.sent)?;
    put_number(text, b", shown ", b"-", times.shown)?;
    put_number(text, b", acknowledged ", b"-", times.acked)?;
    put_number(text, b", ticks ", b"-", times.ticks())
}

#[tactic(auto, unfolding(crate::specs::EndTexts::set_sentence))]
/// Puts the sentence of a set.
pub(crate) fn put_set_sentence(
    text: &mut Vec<u8>,
    set: &SetOf,
    times: &Times,
) -> Result<(), AllocError>
    ensures { OnOk result (text.new.items ≡ text.old.items ++ set_sentence set.now times.now) }
{
    put_place(text, set)?;
    put_times(text, times)?;
    text.extend_from_slice(b"\n")
}
