//! The lines of a floor's trace, written one at a time.

ghost use Rattle.std.specs.Prelude.{◌≡◌, ◌≤◌, OnOk, OnErr};
ghost use Rattle.call_io.specs.Bytes.{Grew, GrewPartly};
ghost use Rattle.call_io.specs.Counts.{Rose};
ghost use Rattle.call_io.specs.Ways.{Onward};
ghost use Rattle.floor_text.specs.VehicleText.{vehicle_line};

use arrayvec::ArrayVec;
use call_io::{Failed, Sink, write_all};
use itoa::Buffer;
use line_input::push_number;
use trace_model::Entry;
use trace_text::push_note_words;

/// The most octets that a line has, its newline included: the longest tick, a vehicle's number behind a space, and the
/// longest words of an item, 20 + 4 + 362, and the newline.
const LONGEST_LINE: usize = 387;

/// A line that is being built.
type LineText = ArrayVec<u8, LONGEST_LINE>;

/// Builds the line of an entry of a vehicle.
fn vehicle_text(vehicle: u8, entry: &Entry) -> LineText
    ensures { result.items ≡ vehicle_line vehicle entry.now }
{
    let mut line = ArrayVec::new();
    let mut digits = Buffer::new();
    line.try_extend_from_slice(digits.format(entry.tick).as_bytes())
        .unwrap();
    push_number(&mut line, vehicle);
    push_note_words(&mut line, &entry.note);
    line.push(b'\n');
    line
}

/// Writes the line of an entry of a vehicle, or of none, where the number is 0. After a failure a front of it was
/// written.
pub fn write_floor_entry<O: Sink>(vehicle: u8, entry: &Entry, out: &mut O) -> Result<(), Failed>
    ensures ok { OnOk result (Grew (O.held out.old) (O.held out.new) (vehicle_line vehicle entry.now)) }
    ensures partly { OnErr result (GrewPartly (O.held out.old) (O.held out.new) (vehicle_line vehicle entry.now)) }
    ensures stood { OnOk result (O.faults out.new ≡ O.faults out.old) }
    ensures cause { OnErr result (Rose (O.faults out.old) (O.faults out.new)) }
    ensures counted { O.faults out.old ≤ O.faults out.new }
    ensures onward { Onward (O.way out.old) (O.way out.new) }
{
    let line = vehicle_text(vehicle, entry);
    write_all(out, &line)
}
