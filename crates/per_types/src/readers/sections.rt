//! The reader of a section of extension additions.
ghost use Rattle.std.specs.Prelude.{◌≡◌, ◌≤◌, IfOk, length};
ghost use Rattle.per_bits.specs.Bits.{front};
ghost use Rattle.per_bits.specs.Parts.{members_of};
ghost use Rattle.per_types.specs.Spelling.{SectionElements};
ghost use Rattle.per_types.specs.Stops.{Reads};
ghost use Rattle.per_types.specs.Reading.{Gives, additions_at, member_at, opens_at, over_at, section_at};

use crate::readers::elements::{look, refusal, taken};
use crate::readers::numbers::read_small;
use crate::readers::strings::read_open;
use per_bits::{Additions, Bits, Cursor, Reason, Refusal};

/// A section of extension additions. The part that is handed out begins at the cursor.
pub fn read_additions<'a>(c: &mut Cursor<'a>) -> Result<Additions<'a>, Refusal>
    ensures reads { Reads SectionElements (λ a. members_of a.bits) c.old result c.new }
    ensures part { IfOk result (λ a. a ≡ front c.old (length a.bits)) }
    ensures exact { Gives (λ a. a) result (section_at c.old) c.new }
{
    let mut section = c.fork();
    members(c)?;
    let len = c.place() - section.place();
    let bits = taken(&mut section, len);
    Ok(Additions::known(bits))
}

// Goes over a section.
fn members(c: &mut Cursor<'_>) -> Result<(), Refusal>
    ensures { Gives (λ u. u) result (over_at c.old) c.new }
{
    let last = read_small(c)?;
    let present = presence(c, u32::from(last) + 1)?;
    opens(c, &present)
}

// The presence bits of a section of so many additions.
fn presence<'a>(c: &mut Cursor<'a>, count: u32) -> Result<Bits<'a>, Refusal>
    requires { count ≤ 64 }
    ensures { Gives (λ b. b.bits) result (additions_at count c.old) c.new }
{
    if look(c, count)? == 0 {
        return Err(refusal(c, Reason::NoAddition, u64::from(count)));
    }
    Ok(taken(c, count))
}

// Goes over the present additions of a section.
fn opens(c: &mut Cursor<'_>, present: &Bits<'_>) -> Result<(), Refusal>
    ensures { Gives (λ u. u) result (opens_at present.now.bits c.old) c.new }
{
    for i in 0..present.len() {
        member(c, present.bit(i))?;
    }
    Ok(())
}

// Goes over an addition, if it is present.
fn member(c: &mut Cursor<'_>, present: bool) -> Result<(), Refusal>
    ensures { Gives (λ u. u) result (member_at present c.old) c.new }
{
    if present {
        read_open(c)?;
    }
    Ok(())
}
