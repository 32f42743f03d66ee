//! The line of an item of the relay desk, or of the second point.

ghost use Rattle.std.specs.Prelude.{◌≡◌, ◌+◌, ◌<◌, ◌≤◌, ◌∷◌, [], ◌++◌, codes, decimal, length, OnOk, OnErr};
ghost use Rattle.arrayvec.specs.ArrayVec.{array_vec_len};
ghost use Rattle.call_io.specs.Bytes.{Grew, GrewPartly};
ghost use Rattle.call_io.specs.Counts.{Rose};
ghost use Rattle.call_io.specs.Ways.{Onward};
ghost use Rattle.hex.specs.Hex.{encode_lower};
ghost use Rattle.trace_text.specs.EntryLine.{spaced};
ghost use Rattle.relay_text.specs.ItemLine.{item_line, item_words};

use arrayvec::ArrayVec;
use call_io::{Failed, Sink, write_all};
use itoa::Buffer;
use line_input::{push_number, push_word};
use link_frames::OCTETS;
use relay_desk::RelayNote;
use trace_text::push_octets;

/// The most octets of such a line, its newline included: the longest tick, 20; ` relay`, 6; the words of a message with
/// a set, 345 at most; and the newline.
const LONGEST_ITEM: usize = 384;

/// A line that is being built.
type ItemText = ArrayVec<u8, LONGEST_ITEM>;

/// Writes the line of an item at a tick. After a failure a front of it was written.
pub fn write_item<O: Sink>(tick: u64, note: &RelayNote, out: &mut O) -> Result<(), Failed>
    ensures ok { OnOk result (Grew (O.held out.old) (O.held out.new) (item_line tick note.now)) }
    ensures partly { OnErr result (GrewPartly (O.held out.old) (O.held out.new) (item_line tick note.now)) }
    ensures stood { OnOk result (O.faults out.new ≡ O.faults out.old) }
    ensures cause { OnErr result (Rose (O.faults out.old) (O.faults out.new)) }
    ensures counted { O.faults out.old ≤ O.faults out.new }
    ensures onward { Onward (O.way out.old) (O.way out.new) }
{
    let mut line = ItemText::new();
    push_item(&mut line, tick, note);
    write_all(out, &line)
}

/// Builds the line of an item.
fn push_item(line: &mut ItemText, tick: u64, note: &RelayNote)
    requires empty { line.old.items ≡ [] }
    ensures { line.new.items ≡ item_line tick note.now }
{
    let mut digits = Buffer::new();
    line.try_extend_from_slice(digits.format(tick).as_bytes())
        .unwrap();
    push_word(line, "relay");
    push_item_words(line, note);
    line.push(b'\n');
}

/// Appends the words of an item, each behind a space.
fn push_item_words(line: &mut ItemText, note: &RelayNote)
    requires { array_vec_len line.old ≤ 26 }
    ensures bytes { line.new.items ≡ line.old.items ++ spaced (item_words note.now) }
    ensures len { array_vec_len line.new < LONGEST_ITEM }
{
    match note {
        RelayNote::Forth {
            desk,
            call,
            request,
            octets,
        } => push_forth(line, *desk, *call, *request, octets),
        RelayNote::Shown {
            desk,
            call,
            request,
            octets,
        } => push_message(line, "shown", *desk, *call, *request, octets),
        RelayNote::Back(desk) => push_back(line, *desk),
        RelayNote::Done(desk) => push_numbered(line, "done", *desk),
        RelayNote::GaveUp(desk) => push_numbered(line, "gaveup", *desk),
        RelayNote::Unshown(call) => push_numbered(line, "unshown", *call),
        RelayNote::Nothing => push_word(line, "nothing"),
    }
}

/// Appends the words of a message forth.
fn push_forth(line: &mut ItemText, desk: u32, call: u32, request: u8, octets: &[u8; OCTETS])
    requires { array_vec_len line.old ≤ 26 }
    ensures bytes { line.new.items ≡ line.old.items
        ++ spaced (codes "send" ∷ codes "forth" ∷ decimal desk ∷ decimal call ∷ decimal request ∷ encode_lower octets.now
        ∷ []) }
    ensures len { array_vec_len line.new < LONGEST_ITEM }
{
    push_word(line, "send");
    push_message(line, "forth", desk, call, request, octets);
}

/// Appends a word, and the numbers and the octets of a message.
fn push_message(
    line: &mut ItemText,
    word: &str,
    desk: u32,
    call: u32,
    request: u8,
    octets: &[u8; OCTETS],
)
    requires { array_vec_len line.old + length word.now ≤ 59 }
    ensures bytes { line.new.items ≡ line.old.items
        ++ spaced (word.now ∷ decimal desk ∷ decimal call ∷ decimal request ∷ encode_lower octets.now ∷ []) }
    ensures len { array_vec_len line.new < LONGEST_ITEM }
{
    push_word(line, word);
    push_set(line, desk, call, request, octets);
}

/// Appends the words of a message back.
fn push_back(line: &mut ItemText, desk: u32)
    requires { array_vec_len line.old ≤ 26 }
    ensures bytes { line.new.items ≡ line.old.items ++ spaced (codes "send" ∷ codes "back" ∷ decimal desk ∷ []) }
    ensures len { array_vec_len line.new < LONGEST_ITEM }
{
    push_word(line, "send");
    push_numbered(line, "back", desk);
}

/// Appends a word and a number.
fn push_numbered(line: &mut ItemText, word: &str, number: u32)
    requires { array_vec_len line.old + length word.now ≤ 60 }
    ensures bytes { line.new.items ≡ line.old.items ++ spaced (word.now ∷ decimal number ∷ []) }
    ensures len { array_vec_len line.new < LONGEST_ITEM }
{
    push_word(line, word);
    push_number(line, number);
}

/// Appends the numbers and the octets of a set.
fn push_set(line: &mut ItemText, desk: u32, call: u32, request: u8, octets: &[u8; OCTETS])
    requires { array_vec_len line.old ≤ 60 }
    ensures bytes { line.new.items ≡ line.old.items
        ++ spaced (decimal desk ∷ decimal call ∷ decimal request ∷ encode_lower octets.now ∷ []) }
    ensures len { array_vec_len line.new < LONGEST_ITEM }
{
    push_number(line, desk);
    push_number(line, call);
    push_number(line, request);
    push_octets(line, octets.as_slice());
}
