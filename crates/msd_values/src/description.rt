//! The description of a set for people.
ghost use Rattle.std.specs.Prelude.{◌≡◌, ◌≤◌, OnOk, OnErr};
ghost use Rattle.call_io.specs.Bytes.{Grew, GrewPartly};
ghost use Rattle.call_io.specs.Counts.{Rose};
ghost use Rattle.call_io.specs.Ways.{Onward};
ghost use Rattle.msd_values.specs.Description.{description};

use crate::additions::write_additions;
use crate::extra::{put_extra, put_remarks_line};
use crate::lines::{put_place_lines, put_vehicle_lines};
use crate::msd::Msd;
use crate::page::Page;
use call_io::{Failed, Sink, write_all};

/// Writes the description of a set: twenty lines, a name and its value each. It takes no memory.
/// After a failure a front of the description was written.
pub fn describe<O: Sink>(msd: &Msd<'_>, out: &mut O) -> Result<(), Failed>
    ensures ok { OnOk result (Grew (O.held out.old) (O.held out.new) (description msd.now)) }
    ensures partly { OnErr result (GrewPartly (O.held out.old) (O.held out.new) (description msd.now)) }
    ensures cause { OnErr result (Rose (O.faults out.old) (O.faults out.new)) }
    ensures stood { OnOk result (O.faults out.new ≡ O.faults out.old) }
    ensures counted { O.faults out.old ≤ O.faults out.new }
    ensures onward { Onward (O.way out.old) (O.way out.new) }
{
    let mut page = Page::new();
    put_vehicle_lines(&mut page, msd);
    write_additions(&mut page, out, b"fuel_more ", &msd.fuel_more)?;
    put_place_lines(&mut page, msd);
    write_additions(&mut page, out, b"set_more ", &msd.set_more)?;
    put_extra(&mut page, &msd.extra);
    write_additions(&mut page, out, b"message_more ", &msd.message_more)?;
    put_remarks_line(&mut page, msd);
    write_all(out, page.as_slice())
}
