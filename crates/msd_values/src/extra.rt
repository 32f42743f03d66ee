//! The lines of the additional data and of the remarks.
ghost use Rattle.std.specs.Prelude.{◌+◌, ◌≤◌, ◌<◌, ◌++◌, length, codes};
ghost use Rattle.arrayvec.specs.ArrayVec.{array_vec_len};
ghost use Rattle.per_bits.specs.Bits.{octets_of};
ghost use Rattle.msd_values.specs.Description.{line};
ghost use Rattle.msd_values.specs.Texts.{or_none, content_text, extra_text};
ghost use Rattle.msd_values.specs.inner.Groups.{spaced_if, spaced_remarks, remarks_line};
ghost use Rattle.msd_values.specs.inner.Waiting.{Appends};

use crate::msd::{Extra, Msd};
use crate::octets::put_hex;
use crate::page::{EXTRA, EXTRA_LINE, LINE, OCTETS, PAGE, Page, WORD, put};
use crate::remarks::{Remarks, find_remarks};
use per_bits::Octs;

// Puts the data, or a hyphen where there are none.
fn put_content(page: &mut Page, content: &Octs<'_>)
    requires { array_vec_len page.old + OCTETS ≤ PAGE }
    ensures items { Appends page.old.items page.new.items (content_text (octets_of content.now.bits)) }
    ensures len { array_vec_len page.new ≤ array_vec_len page.old + OCTETS }
{
    if content.count() == 0 {
        put(page, b"-");
    } else {
        put_hex(page, content);
    }
}

// Puts the object identifier and the data.
fn put_extra_text(page: &mut Page, extra: &Extra<'_>)
    requires { array_vec_len page.old + EXTRA ≤ PAGE }
    ensures items { Appends page.old.items page.new.items (extra_text extra.now) }
    ensures len { array_vec_len page.new ≤ array_vec_len page.old + EXTRA }
{
    put_hex(page, &extra.oid.octs());
    put(page, b" ");
    put_content(page, &extra.content);
}

/// Puts the line of the additional data.
pub fn put_extra(page: &mut Page, extra: &Option<Extra<'_>>)
    requires { array_vec_len page.old + EXTRA_LINE ≤ PAGE }
    ensures items { Appends page.old.items page.new.items (line (codes "extra") (or_none extra_text extra.now)) }
    ensures len { array_vec_len page.new ≤ array_vec_len page.old + EXTRA_LINE }
{
    put(page, b"extra ");
    match extra {
        Some(extra) => put_extra_text(page, extra),
        None => put(page, b"none"),
    }
    put(page, b"\n");
}

// Puts a space and the word, if it applies.
fn put_word_if(page: &mut Page, applies: bool, word: &[u8])
    requires word { length word.now < WORD }
    requires room { array_vec_len page.old + WORD ≤ PAGE }
    ensures items { Appends page.old.items page.new.items (spaced_if applies word.now) }
    ensures len { array_vec_len page.new ≤ array_vec_len page.old + WORD }
{
    if applies {
        put(page, b" ");
        put(page, word);
    }
}

// Puts the remarks in a line.
fn put_remarks(page: &mut Page, remarks: Remarks)
    requires { array_vec_len page.old + LINE ≤ PAGE }
    ensures items { Appends page.old.items page.new.items (codes "remarks" ++ spaced_remarks remarks ++ codes "\n") }
    ensures len { array_vec_len page.new ≤ array_vec_len page.old + LINE }
{
    put(page, b"remarks");
    if remarks.latitude || remarks.longitude || remarks.heading {
        put_word_if(page, remarks.latitude, b"latitude");
        put_word_if(page, remarks.longitude, b"longitude");
        put_word_if(page, remarks.heading, b"heading");
    } else {
        put(page, b" none");
    }
    put(page, b"\n");
}

/// Puts the line of the remarks.
#[tactic(auto, unfolding(crate::specs::inner::Groups::remarks_line))]
pub fn put_remarks_line(page: &mut Page, msd: &Msd<'_>)
    requires { array_vec_len page.old + LINE ≤ PAGE }
    ensures items { Appends page.old.items page.new.items (remarks_line msd.now) }
    ensures len { array_vec_len page.new ≤ array_vec_len page.old + LINE }
{
    put_remarks(page, find_remarks(msd));
}
