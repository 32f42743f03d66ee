//! Writers of the whole message, and of what stands beside the structure.
ghost use Rattle.std.specs.Option.{option_map};
ghost use Rattle.per_bits.specs.Bits.{octets_of};
ghost use Rattle.per_types.specs.Types.{bytes, format, octet_string, relative_oid};
ghost use Rattle.msd_codec.specs.Module.{additional_data, known_formats, msd_message, ecall_message};
ghost use Rattle.msd_values.specs.Format.{format_number};
ghost use Rattle.msd_codec.specs.Trees.{count_tree, extra_tree, message_tree, tree};
ghost use Rattle.msd_codec.specs.inner.Writing.{Puts, Canon, Optional};

use crate::formats::FORMATS;
use crate::writing::elements::{write_extended, write_more, write_present};
use crate::writing::structure::write_structure;
use msd_values::{Extra, Format, Msd};
use per_bits::{BitBuf, Full, Octs, Oid};
use per_types::{write_format, write_octets, write_oid};

/// The message, behind the number of its format.
pub fn write_message(to: &mut BitBuf, msd: &Msd<'_>) -> Result<(), Full>
    ensures { Puts (Canon (ecall_message msd.now.format) (tree msd.now)) to.old result to.new }
{
    write_known_format(to, msd.format)?;
    write_body(to, msd)
}

// The number of the format.
fn write_known_format(to: &mut BitBuf, known: Format) -> Result<(), Full>
    ensures { Puts (Canon (format known_formats) (count_tree (format_number known))) to.old result to.new }
{
    write_format(to, known.number(), &FORMATS)
}

// The structure, additional data and additions.
fn write_body(to: &mut BitBuf, msd: &Msd<'_>) -> Result<(), Full>
    ensures { Puts (Canon (msd_message msd.now.format) (message_tree msd.now)) to.old result to.new }
{
    write_extended(to, msd.message_more.is_some())?;
    write_present(to, &[msd.extra.is_some()])?;
    write_structure(to, msd)?;
    write_extra(to, &msd.extra)?;
    write_more(to, &msd.message_more)
}

// Additional data, if it is present.
fn write_extra(to: &mut BitBuf, extra: &Option<Extra<'_>>) -> Result<(), Full>
    ensures { Puts (Optional additional_data (option_map extra_tree extra.now)) to.old result to.new }
{
    match extra {
        Some(extra) => write_additional_data(to, extra),
        None => Ok(()),
    }
}

fn write_additional_data(to: &mut BitBuf, extra: &Extra<'_>) -> Result<(), Full>
    ensures { Puts (Canon additional_data (extra_tree extra.now)) to.old result to.new }
{
    write_identifier(to, &extra.oid)?;
    write_content(to, &extra.content)
}

// What additional data is.
fn write_identifier(to: &mut BitBuf, oid: &Oid<'_>) -> Result<(), Full>
    ensures { Puts (Canon relative_oid (bytes (octets_of oid.now.bits))) to.old result to.new }
{
    write_oid(to, oid.share())
}

// The octets of additional data.
fn write_content(to: &mut BitBuf, content: &Octs<'_>) -> Result<(), Full>
    ensures { Puts (Canon octet_string (bytes (octets_of content.now.bits))) to.old result to.new }
{
    write_octets(to, content.share())
}
