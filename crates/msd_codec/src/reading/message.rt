//! Readers of the whole message, and of what stands beside the structure.
ghost use Rattle.std.specs.Prelude.{◌≡◌, List, [], ◌∷◌, IfOk, IfSome, OnOk};
ghost use Rattle.std.specs.Option.{option_map};
ghost use Rattle.per_types.specs.Reading.{Gives, tree_at};
ghost use Rattle.msd_values.specs.Format.{format_number};
ghost use Rattle.msd_codec.specs.Module.{known_formats, additional_data, msd_message};
ghost use Rattle.msd_codec.specs.Formats.{format_of};
ghost use Rattle.msd_codec.specs.Reading.{set_at};
ghost use Rattle.msd_codec.specs.Trees.{extra_tree, message_tree, tree};
ghost use Rattle.msd_codec.specs.Places.{LieBetween, ContentFollows, ExtraFills, DataFills, MessageEnds, extra_parts, parts_of};
ghost use Rattle.msd_codec.specs.inner.Reading.{MovesOn};
ghost use Rattle.msd_codec.specs.inner.Reading.{presence_bit, optional_at};

use crate::formats::FORMATS;
use crate::reading::elements::{is_present, read_extended, read_more, read_present};
use crate::reading::structure::read_structure;
use msd_values::{Extra, Format, Msd};
use per_bits::{Cursor, Refusal};
use per_types::{read_format, read_octets, read_oid};

/// The message, behind the number of its format.
pub fn read_message<'a>(c: &mut Cursor<'a>) -> Result<Msd<'a>, Refusal>
    ensures exact { Gives tree result (set_at c.old) c.new }
    ensures parts { IfOk result (λ msd. LieBetween c.old.all c.old.start (parts_of msd) c.new.start) }
    ensures content { IfOk result (λ msd. IfSome msd.extra ContentFollows) }
    ensures ends { IfOk result (λ msd. MessageEnds msd c.new.start) }
    ensures on { OnOk result (MovesOn c.old c.new) }
{
    let number = read_format(c, &FORMATS)?;
    let msd = read_body(c, format_of(number))?;
    Ok(msd)
}

// The format of a number, 1 or 2.
fn format_of(number: u8) -> Format
    ensures { result ≡ format_of number }
{
    if number == 1 {
        Format::One
    } else {
        Format::Two
    }
}

// The structure, additional data and additions.
fn read_body<'a>(c: &mut Cursor<'a>, format: Format) -> Result<Msd<'a>, Refusal>
    ensures exact { Gives message_tree result (tree_at (msd_message format) c.old) c.new }
    ensures format { IfOk result (λ msd. msd.format ≡ format) }
    ensures parts { IfOk result (λ msd. LieBetween c.old.all c.old.start (parts_of msd) c.new.start) }
    ensures content { IfOk result (λ msd. IfSome msd.extra ContentFollows) }
    ensures ends { IfOk result (λ msd. MessageEnds msd c.new.start) }
    ensures on { OnOk result (MovesOn c.old c.new) }
{
    let extended = read_extended(c)?;
    let present = read_present(c, 1)?;
    let mut msd = read_structure(c, format)?;
    let extra = read_extra(c, present)?;
    let message_more = read_more(c, extended)?;
    msd.extra = extra;
    msd.message_more = message_more;
    Ok(msd)
}

// Additional data, if it is present; its presence bit is the last.
fn read_extra<'a>(c: &mut Cursor<'a>, presence: u16) -> Result<Option<Extra<'a>>, Refusal>
    ensures exact { Gives (option_map extra_tree) result (optional_at (presence_bit presence 0) additional_data c.old) c.new }
    ensures parts { IfOk result (λ extra. LieBetween c.old.all c.old.start (extra_parts extra) c.new.start) }
    ensures content { IfOk result (λ extra. IfSome extra ContentFollows) }
    ensures fills { IfOk result (λ extra. DataFills c.old.start extra c.new.start) }
    ensures on { OnOk result (MovesOn c.old c.new) }
{
    if !is_present(presence, 0) {
        return Ok(None);
    }
    let extra = read_additional_data(c)?;
    Ok(Some(extra))
}

fn read_additional_data<'a>(c: &mut Cursor<'a>) -> Result<Extra<'a>, Refusal>
    ensures exact { Gives extra_tree result (tree_at additional_data c.old) c.new }
    ensures parts { IfOk result (λ extra. LieBetween c.old.all c.old.start (extra.oid ∷ extra.content ∷ []) c.new.start) }
    ensures content { IfOk result ContentFollows }
    ensures fills { IfOk result (λ extra. ExtraFills c.old.start extra c.new.start) }
    ensures on { OnOk result (MovesOn c.old c.new) }
{
    let oid = read_oid(c)?;
    let content = read_octets(c)?;
    // Asked for the proof alone: that the bits of both stand at their starts.
    let _oid_in_place = oid.octs();
    let _content_in_place = content.bits();
    Ok(Extra { oid, content })
}
