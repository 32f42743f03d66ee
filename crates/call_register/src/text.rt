//! The text of a register, token by token.
ghost use Rattle.std.specs.Prelude.{◌≡◌, codes, decimal, OnOk};
ghost use Rattle.hex.specs.Hex.{encode_lower};
ghost use Rattle.json.specs.Token.{number, string};
ghost use Rattle.trace_text.specs.EntryLine as line;
ghost use Rattle.call_register.specs.Vins.{vin_of};
ghost use Rattle.call_register.specs.inner.Tokens.{text_token, until_token, why_token, with_member, with_row, with_set, with_sets};

use crate::record::{CallRecord, Ending, ShownSet};
use json::Writer;
use link_frames::{OCTETS, Why};
use msd_codec::decode;
use msd_values::Vin;
use std::alloc::AllocError;
use std::str;

/// Writes what is kept of a call.
pub(crate) fn write_record(out: &mut Writer, call: u32, kept: &CallRecord) -> Result<(), AllocError>
    ensures tokens { OnOk result (out.new.tokens ≡ with_row out.old.tokens (call, kept.now)) }
    ensures before { out.new.before ≡ out.old.before }
{
    out.begin_object()?;
    write_number(out, "call", u64::from(call))?;
    write_number(out, "from", kept.from())?;
    out.key("sets")?;
    write_sets(out, kept.sets())?;
    write_until(out, kept.ending())?;
    write_why(out, kept.ending())?;
    out.end_object()
}

/// Writes sets that were shown.
fn write_sets(out: &mut Writer, sets: &[ShownSet]) -> Result<(), AllocError>
    ensures tokens { OnOk result (out.new.tokens ≡ with_sets out.old.tokens sets.now) }
    ensures before { out.new.before ≡ out.old.before }
{
    out.begin_array()?;
    for set in sets {
        write_set(out, set)?;
    }
    out.end_array()
}

/// Writes a set that was shown.
fn write_set(out: &mut Writer, set: &ShownSet) -> Result<(), AllocError>
    ensures tokens { OnOk result (out.new.tokens ≡ with_set out.old.tokens set.now) }
    ensures before { out.new.before ≡ out.old.before }
{
    out.begin_object()?;
    write_octets(out, &set.octets)?;
    write_number(out, "request", u64::from(set.request.number()))?;
    write_number(out, "tick", set.tick)?;
    write_vin(out, &set.octets)?;
    out.end_object()
}

/// Writes a number under its name.
fn write_number(out: &mut Writer, name: &str, n: u64) -> Result<(), AllocError>
    ensures tokens { OnOk result (out.new.tokens ≡ with_member out.old.tokens name.now (number (decimal n))) }
    ensures before { out.new.before ≡ out.old.before }
{
    out.key(name)?;
    out.u64(n)
}

/// Writes the octets of a set, in hexadecimal digits of lower case.
fn write_octets(out: &mut Writer, octets: &[u8; OCTETS]) -> Result<(), AllocError>
    ensures tokens { OnOk result (out.new.tokens
        ≡ with_member out.old.tokens (codes "octets") (string (encode_lower octets.now))) }
    ensures before { out.new.before ≡ out.old.before }
{
    let mut digits = [0; 2 * OCTETS];
    hex::encode_to_slice(octets, &mut digits).unwrap();
    out.key("octets")?;
    match str::from_utf8(&digits) {
        Ok(text) => out.string(text),
        Err(_) => unreachable!(),
    }
}

/// Writes the vehicle identification number of the set that octets show, or null where they show none.
#[tactic(auto, using(crate::proofs::VinLemmas::vin_of_read))]
fn write_vin(out: &mut Writer, octets: &[u8]) -> Result<(), AllocError>
    ensures tokens { OnOk result (out.new.tokens
        ≡ with_member out.old.tokens (codes "vin") (text_token (vin_of octets.now))) }
    ensures before { out.new.before ≡ out.old.before }
{
    out.key("vin")?;
    match decode(octets) {
        Ok(msd) => out.string(vin_text(&msd.vin)),
        Err(_) => out.null(),
    }
}

/// The characters of a vehicle identification number.
#[tactic(auto, using(crate::proofs::PlainLemmas::vin_is_text))]
fn vin_text(vin: &Vin) -> &str
    ensures { result.now ≡ vin.now }
{
    match str::from_utf8(vin.text()) {
        Ok(text) => text,
        Err(_) => unreachable!(),
    }
}

/// Writes the tick of an end, or null where there is none.
fn write_until(out: &mut Writer, ending: Option<Ending>) -> Result<(), AllocError>
    ensures tokens { OnOk result (out.new.tokens
        ≡ with_member out.old.tokens (codes "until") (until_token ending)) }
    ensures before { out.new.before ≡ out.old.before }
{
    out.key("until")?;
    match ending {
        Some(ending) => out.u64(ending.tick),
        None => out.null(),
    }
}

/// Writes the word of an end, or null where there is none.
fn write_why(out: &mut Writer, ending: Option<Ending>) -> Result<(), AllocError>
    ensures tokens { OnOk result (out.new.tokens ≡ with_member out.old.tokens (codes "why") (why_token ending)) }
    ensures before { out.new.before ≡ out.old.before }
{
    out.key("why")?;
    match ending {
        Some(ending) => out.string(why_word(ending.why)),
        None => out.null(),
    }
}

/// The word for why a leg went down.
fn why_word(why: Why) -> &'static str
    ensures { result.now ≡ line.why_word why }
{
    match why {
        Why::Release => "release",
        Why::Hangup => "hangup",
        Why::Lost => "lost",
    }
}
