//! The lines of a trace, written one at a time.
ghost use Rattle.std.specs.Prelude.{◌≡◌, ◌≤◌, true, false, [], decimal, OnOk, OnErr};
ghost use Rattle.arrayvec.specs.ArrayVec.{array_vec_len};
ghost use Rattle.call_io.specs.Bytes.{Grew, GrewPartly};
ghost use Rattle.call_io.specs.Counts.{Rose};
ghost use Rattle.call_io.specs.Ways.{Onward};
ghost use Rattle.trace_text.specs.EntryLine.{line_of};
ghost use Rattle.trace_text.specs.Rooms.{carries_set, has_octets as note_has_octets};

use crate::note_text::push_note_words;
use arrayvec::ArrayVec;
use call_io::{Failed, Sink, write_all};
use itoa::Buffer;
use link_frames::{Frame, Note};
use trace_model::Entry;

/// The most digits of a tick.
const TICK: usize = 20;

/// The most octets of a line that has none of a set, its newline included: behind the longest tick the longest words of
/// such an item, 20 + 41, and the newline.
const SHORT_LINE: usize = 62;

/// The most octets that the line of an entry has, its newline included: behind the longest tick the longest words of an
/// item, 20 + 362, and the newline.
const LONGEST_LINE: usize = 383;

/// A line without a set's octets that is being built. Nearly all lines are short, and room is filled with zeros when it
/// is made.
type ShortText = ArrayVec<u8, SHORT_LINE>;

/// A line with a set's octets that is being built.
type LongText = ArrayVec<u8, LONGEST_LINE>;

/// Whether an item has the octets of a set.
fn has_octets(note: &Note) -> bool
    ensures { result ≡ note_has_octets note.now }
{
    match note {
        Note::Send { frame, .. } => is_data(frame),
        Note::Shown { .. } => true,
        Note::Acked { .. } => true,
        _ => false,
    }
}

/// Whether a frame carries a set.
fn is_data(frame: &Frame) -> bool
    ensures { result ≡ carries_set frame.now }
{
    match frame {
        Frame::Content { .. } => true,
        _ => false,
    }
}

/// Appends the tick of an entry, with which its line begins.
fn push_tick<const N: usize>(line: &mut ArrayVec<u8, N>, tick: u64)
    requires empty { line.old.items ≡ [] }
    requires room { TICK ≤ N }
    ensures bytes { line.new.items ≡ decimal tick }
    ensures len { array_vec_len line.new ≤ TICK }
{
    let mut digits = Buffer::new();
    line.try_extend_from_slice(digits.format(tick).as_bytes())
        .unwrap();
}

/// Builds the line of an item at a tick, which has no octets of a set.
fn short_line(line: &mut ShortText, tick: u64, item: &Note)
    requires empty { line.old.items ≡ [] }
    requires short { note_has_octets item.now ≡ false }
    ensures { line.new.items ≡ line_of (record { tick = tick; note = item.now }) }
{
    push_tick(line, tick);
    push_note_words(line, item);
    line.push(b'\n');
}

/// Builds the line of an item at a tick, which has the octets of a set.
fn long_line(line: &mut LongText, tick: u64, item: &Note)
    requires empty { line.old.items ≡ [] }
    requires long { note_has_octets item.now ≡ true }
    ensures { line.new.items ≡ line_of (record { tick = tick; note = item.now }) }
{
    push_tick(line, tick);
    push_note_words(line, item);
    line.push(b'\n');
}

/// Writes the line of an item at a tick, which has no octets of a set. After a failure a front of it was written.
fn write_short<O: Sink>(tick: u64, item: &Note, out: &mut O) -> Result<(), Failed>
    requires short { note_has_octets item.now ≡ false }
    ensures ok { OnOk result (Grew (O.held out.old) (O.held out.new)
        (line_of (record { tick = tick; note = item.now }))) }
    ensures partly { OnErr result (GrewPartly (O.held out.old) (O.held out.new)
        (line_of (record { tick = tick; note = item.now }))) }
    ensures stood { OnOk result (O.faults out.new ≡ O.faults out.old) }
    ensures cause { OnErr result (Rose (O.faults out.old) (O.faults out.new)) }
    ensures counted { O.faults out.old ≤ O.faults out.new }
    ensures onward { Onward (O.way out.old) (O.way out.new) }
{
    let mut line = ShortText::new();
    short_line(&mut line, tick, item);
    write_all(out, &line)
}

/// Writes the line of an item at a tick, which has the octets of a set. After a failure a front of it was written.
// Never inlined: a call has room for the longest line, which a short one would pay for, too.
#[inline(never)]
fn write_long<O: Sink>(tick: u64, item: &Note, out: &mut O) -> Result<(), Failed>
    requires long { note_has_octets item.now ≡ true }
    ensures ok { OnOk result (Grew (O.held out.old) (O.held out.new)
        (line_of (record { tick = tick; note = item.now }))) }
    ensures partly { OnErr result (GrewPartly (O.held out.old) (O.held out.new)
        (line_of (record { tick = tick; note = item.now }))) }
    ensures stood { OnOk result (O.faults out.new ≡ O.faults out.old) }
    ensures cause { OnErr result (Rose (O.faults out.old) (O.faults out.new)) }
    ensures counted { O.faults out.old ≤ O.faults out.new }
    ensures onward { Onward (O.way out.old) (O.way out.new) }
{
    let mut line = LongText::new();
    long_line(&mut line, tick, item);
    write_all(out, &line)
}

/// Writes the line of an entry. After a failure a front of it was written.
pub fn write_entry<O: Sink>(entry: &Entry, out: &mut O) -> Result<(), Failed>
    ensures ok { OnOk result (Grew (O.held out.old) (O.held out.new) (line_of entry.now)) }
    ensures partly { OnErr result (GrewPartly (O.held out.old) (O.held out.new) (line_of entry.now)) }
    ensures stood { OnOk result (O.faults out.new ≡ O.faults out.old) }
    ensures cause { OnErr result (Rose (O.faults out.old) (O.faults out.new)) }
    ensures counted { O.faults out.old ≤ O.faults out.new }
    ensures onward { Onward (O.way out.old) (O.way out.new) }
{
    write_item(entry.tick, &entry.note, out)
}

/// Writes the line of the entry that an item at a tick is. After a failure a front of it was written.
pub(crate) fn write_item<O: Sink>(tick: u64, item: &Note, out: &mut O) -> Result<(), Failed>
    ensures ok { OnOk result (Grew (O.held out.old) (O.held out.new)
        (line_of (record { tick = tick; note = item.now }))) }
    ensures partly { OnErr result (GrewPartly (O.held out.old) (O.held out.new)
        (line_of (record { tick = tick; note = item.now }))) }
    ensures stood { OnOk result (O.faults out.new ≡ O.faults out.old) }
    ensures cause { OnErr result (Rose (O.faults out.old) (O.faults out.new)) }
    ensures counted { O.faults out.old ≤ O.faults out.new }
    ensures onward { Onward (O.way out.old) (O.way out.new) }
{
    if has_octets(item) {
        write_long(tick, item, out)
    } else {
        write_short(tick, item, out)
    }
}
