//! The reader of an extensible enumeration (ITU-T X.691 (02/2021), clause 14).
ghost use Rattle.std.specs.Prelude.{◌≡◌, ◌≤◌};
ghost use Rattle.per_types.specs.Kinds.{root_width};
ghost use Rattle.per_types.specs.Stops.{Reads};
ghost use Rattle.per_types.specs.Writing.{EnumElements};
ghost use Rattle.per_types.specs.Reading.{Gives, enum_at, root_at};

use crate::index::EnumIndex;
use crate::readers::elements::{look, refusal, skip};
use crate::readers::numbers::{read_bool, read_small};
use per_bits::{Cursor, Reason, Refusal};

/// An index of an extensible enumeration with `roots` roots, whose index needs `width` bits.
pub fn read_enum(c: &mut Cursor<'_>, roots: u8, width: u32) -> Result<EnumIndex, Refusal>
    requires some { 1 ≤ roots }
    requires width { width ≡ root_width roots }
    ensures reads { Reads (EnumElements roots) (λ i. i) c.old result c.new }
    ensures exact { Gives (λ i. i) result (enum_at roots c.old) c.new }
{
    if read_bool(c)? {
        let i = read_small(c)?;
        Ok(EnumIndex::Added(i))
    } else {
        root(c, roots, width)
    }
}

// The index of a root.
fn root(c: &mut Cursor<'_>, roots: u8, width: u32) -> Result<EnumIndex, Refusal>
    requires { width ≡ root_width roots }
    ensures { Gives (λ i. i) result (root_at roots c.old) c.new }
{
    let n = look(c, width)?;
    if n >= u64::from(roots) {
        return Err(refusal(c, Reason::OutOfRange, n));
    }
    skip(c, width);
    Ok(EnumIndex::Root(n as u8))
}
