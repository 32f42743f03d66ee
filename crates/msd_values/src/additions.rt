//! The lines of additions, and the page that is written where it fills.
ghost use Rattle.std.specs.Prelude.{◌≡◌, ◌+◌, ◌≤◌, [], ◌++◌, length, codes, decimal, OnOk, OnErr};
ghost use Rattle.std.specs.List.{flat_map};
ghost use Rattle.arrayvec.specs.ArrayVec.{array_vec_len};
ghost use Rattle.call_io.specs.Counts.{Rose};
ghost use Rattle.call_io.specs.Ways.{Onward};
ghost use Rattle.per_bits.specs.Parts.{members_of, present_members};
ghost use Rattle.msd_values.specs.Additions.{addition_text, additions_text};
ghost use Rattle.msd_values.specs.Texts.{or_none};
ghost use Rattle.msd_values.specs.inner.Groups.{part_text};
ghost use Rattle.msd_values.specs.inner.Waiting.{Appends, Passes};

use crate::octets::put_hex;
use crate::page::{ADDITION, DIGITS, FULL, NAME, PAGE, Page, put};
use call_io::{Failed, Sink, write_all};
use itoa::Buffer;
use per_bits::{Additions, Octs};

// Writes the page where more waits than may.
fn settle<O: Sink>(page: &mut Page, out: &mut O) -> Result<(), Failed>
    ensures passes { Passes result (O.held out.old) (O.held out.new) page.old.items page.new.items [] }
    ensures room { OnOk result (array_vec_len page.new ≤ FULL) }
    ensures cause { OnErr result (Rose (O.faults out.old) (O.faults out.new)) }
    ensures stood { OnOk result (O.faults out.new ≡ O.faults out.old) }
    ensures counted { O.faults out.old ≤ O.faults out.new }
    ensures onward { Onward (O.way out.old) (O.way out.new) }
{
    if page.len() > FULL {
        write_all(out, page.as_slice())?;
        page.clear();
    }
    Ok(())
}

// Puts a present addition: a space, its index, a colon, and its octets.
fn put_addition(page: &mut Page, index: u8, octets: &Octs<'_>)
    requires { array_vec_len page.old + ADDITION ≤ PAGE }
    ensures items { Appends page.old.items page.new.items (part_text (index, octets.now)) }
    ensures len { array_vec_len page.new ≤ array_vec_len page.old + ADDITION }
{
    let mut digits = Buffer::new();
    put(page, b" ");
    put(page, digits.format(index).as_bytes());
    put(page, b":");
    put_hex(page, octets);
}

// Puts the present additions.
fn write_present<O: Sink>(
    page: &mut Page,
    out: &mut O,
    additions: &Additions<'_>,
) -> Result<(), Failed>
    requires { array_vec_len page.old + ADDITION ≤ PAGE }
    ensures passes { Passes result (O.held out.old) (O.held out.new) page.old.items page.new.items (flat_map addition_text (present_members 0 (members_of additions.now.bits))) }
    ensures room { OnOk result (array_vec_len page.new + ADDITION ≤ PAGE) }
    ensures cause { OnErr result (Rose (O.faults out.old) (O.faults out.new)) }
    ensures stood { OnOk result (O.faults out.new ≡ O.faults out.old) }
    ensures counted { O.faults out.old ≤ O.faults out.new }
    ensures onward { Onward (O.way out.old) (O.way out.new) }
{
    for (index, octets) in additions.iter() {
        settle(page, out)?;
        put_addition(page, index, &octets);
    }
    Ok(())
}

// Puts the number of presence bits.
fn put_count(page: &mut Page, additions: &Additions<'_>)
    requires { array_vec_len page.old + DIGITS ≤ PAGE }
    ensures items { Appends page.old.items page.new.items (decimal (length (members_of additions.now.bits))) }
    ensures len { array_vec_len page.new ≤ array_vec_len page.old + DIGITS }
{
    let mut digits = Buffer::new();
    put(page, digits.format(additions.count()).as_bytes());
}

// Puts the number of presence bits, and the present additions.
fn write_section<O: Sink>(
    page: &mut Page,
    out: &mut O,
    additions: &Additions<'_>,
) -> Result<(), Failed>
    requires { array_vec_len page.old + DIGITS + ADDITION ≤ PAGE }
    ensures passes { Passes result (O.held out.old) (O.held out.new) page.old.items page.new.items (additions_text additions.now) }
    ensures room { OnOk result (array_vec_len page.new + ADDITION ≤ PAGE) }
    ensures cause { OnErr result (Rose (O.faults out.old) (O.faults out.new)) }
    ensures stood { OnOk result (O.faults out.new ≡ O.faults out.old) }
    ensures counted { O.faults out.old ≤ O.faults out.new }
    ensures onward { Onward (O.way out.old) (O.way out.new) }
{
    put_count(page, additions);
    write_present(page, out, additions)
}

// The same of a section that may be absent.
fn write_section_or_none<O: Sink>(
    page: &mut Page,
    out: &mut O,
    additions: &Option<Additions<'_>>,
) -> Result<(), Failed>
    requires { array_vec_len page.old + DIGITS + ADDITION ≤ PAGE }
    ensures passes { Passes result (O.held out.old) (O.held out.new) page.old.items page.new.items (or_none additions_text additions.now) }
    ensures room { OnOk result (array_vec_len page.new + ADDITION ≤ PAGE) }
    ensures cause { OnErr result (Rose (O.faults out.old) (O.faults out.new)) }
    ensures stood { OnOk result (O.faults out.new ≡ O.faults out.old) }
    ensures counted { O.faults out.old ≤ O.faults out.new }
    ensures onward { Onward (O.way out.old) (O.way out.new) }
{
    match additions {
        Some(additions) => write_section(page, out, additions),
        None => {
            put(page, b"none");
            Ok(())
        }
    }
}

/// Puts the line of a section of additions. The name ends in a space. Afterwards at most `FULL` bytes wait.
pub fn write_additions<O: Sink>(
    page: &mut Page,
    out: &mut O,
    name: &[u8],
    additions: &Option<Additions<'_>>,
) -> Result<(), Failed>
    requires name { length name.now ≤ NAME }
    requires room { array_vec_len page.old + NAME + DIGITS + ADDITION ≤ PAGE }
    ensures passes { Passes result (O.held out.old) (O.held out.new) page.old.items page.new.items (name.now ++ or_none additions_text additions.now ++ codes "\n") }
    ensures room { OnOk result (array_vec_len page.new ≤ FULL) }
    ensures cause { OnErr result (Rose (O.faults out.old) (O.faults out.new)) }
    ensures stood { OnOk result (O.faults out.new ≡ O.faults out.old) }
    ensures counted { O.faults out.old ≤ O.faults out.new }
    ensures onward { Onward (O.way out.old) (O.way out.new) }
{
    put(page, name);
    write_section_or_none(page, out, additions)?;
    put(page, b"\n");
    settle(page, out)
}
