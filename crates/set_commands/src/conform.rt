//! The command `conform`: the reading and the writing of sets, tried on vectors.

ghost use Rattle.std.specs.Prelude.{◌≡◌, ℕ, ◌*◌, ◌<◌, ◌≤◌, ◌++◌, List, OnErr, OnOk, IsOk, map, length};
ghost use Rattle.std.specs.List.{AllByRecursion};
ghost use Rattle.arrayvec.specs.ArrayVec.{array_vec_len};
ghost use Rattle.call_io.specs.Bytes.{Grew, GrewPartly};
ghost use Rattle.call_io.specs.Counts.{Rose};
ghost use Rattle.call_io.specs.Ways.{Onward};
ghost use Rattle.hex.specs.Hex.{decode_of};
ghost use Rattle.msd_codec.specs.Reading.{reading_of};
ghost use Rattle.trace_text.specs.EntryLine.{spaced};
ghost use Rattle.trace_text.specs.Summary.{refused_words};
ghost use Rattle.set_commands.specs.Conform.{IsConformed, octets_of_text};
ghost use Rattle.command_base.specs.Outcome.{WriteCause};
ghost use Rattle.set_commands.specs.inner.ConformLines.{answer_words, lines_from, vector_line};
ghost use Rattle.command_base.specs.Ends.{EndsWithText};

use arrayvec::ArrayVec;
use call_io::{Failed, Sink, write_all};
use command_base::Status;
use itoa::Buffer;
use line_input::{push_number, push_word};
use msd_codec::{decode, encode};
use per_bits::Refusal;
use trace_text::push_octets;

/// The most octets that a set has.
const MOST_OCTETS: usize = 140;

/// The most bytes that a line has: its number of at most 20 digits, two digits for each of 140 octets behind a space,
/// and a newline.
const LONGEST_LINE: usize = 302;

/// The line of a vector that is being built.
type VectorText = ArrayVec<u8, LONGEST_LINE>;

/// The vectors, in hexadecimal.
const VECTORS: [&str; 19] = [
    // A set in its canonical octets.
    "02000681d54970d65c3597ca0420c4146005e0be1008a5d32c0827c4aa02d0",
    // The same set of a vehicle with a gasoline tank, in its canonical octets.
    "02000681d54970d65c3597ca0420c414640af05f080452e9960413e2550168",
    // The first set with each default of its storages written out.
    "02000681d54970d65c3597ca0420c41467f00bc17c20114ba658104f895405a0",
    // A set with each component that may be absent, as long as a set can be.
    "025c0681d54970d65c3597ca0420c41467ffebc17c20114ba658104f895405b053ec007fe040202c60000000000000000000\
    0000000000000000000000000000000000000000000000000000000000000000000000000000000000000000000000000000\
    00000000000000000000000000000000000000000000000000000000000000000000000000000000",
    // A set with an addition.
    "02200681d54970d65c3597ca0420c4146005e0be1008a5d32c0827c4aa02d0103abcdef0",
    // A section of additions without any.
    "02200681d54970d65c3597ca0420c4146005e0be1008a5d32c0827c4aa02d000",
    // A character beyond the alphabet.
    "02000681d54970d65c3597ca0420c4161005e0be1008a5d32c0827c4aa02d0",
    // A length of 128.
    "02400681d54970d65c3597ca0420c4146005e0be1008a5d32c0827c4aa02d800",
    // The second vector without its last octet.
    "02000681d54970d65c3597ca0420c414640af05f080452e9960413e25501",
    // The first vector in format 3.
    "03000681d54970d65c3597ca0420c4146005e0be1008a5d32c0827c4aa02d0",
    // The first vector with a pad bit 1.
    "02000681d54970d65c3597ca0420c4146005e0be1008a5d32c0827c4aa02d1",
    // The first vector with an octet 5 behind it.
    "02000681d54970d65c3597ca0420c4146005e0be1008a5d32c0827c4aa02d00005",
    // A root index of a vehicle's type that has no type.
    "020006b5d54970d65c3597ca0420c4146005e0be1008a5d32c0827c4aa02d0",
    // An addition without octets.
    "02200681d54970d65c3597ca0420c4146005e0be1008a5d32c0827c4aa02d01000",
    // An object identifier without octets.
    "02400681d54970d65c3597ca0420c4146005e0be1008a5d32c0827c4aa02d01800",
    // A section with more additions than a small number counts.
    "02200681d54970d65c3597ca0420c4146005e0be1008a5d32c0827c4aa02d800",
    // The values of the first vector in format 1, in its canonical octets.
    "01000681d54970d65c3597ca0420c414600bc17c20114ba658104f895405a0",
    // The same set of a vehicle with a gasoline tank, in its canonical octets.
    "01000681d54970d65c3597ca0420c4146415e0be1008a5d32c0827c4aa02d0",
    // The first vector of format 1 with a pad bit 1.
    "01000681d54970d65c3597ca0420c414600bc17c20114ba658104f895405b0",
];

/// Writes what each of the vectors comes to: the canonical octets of the set that it shows, or why it shows none. It
/// reads nothing, and takes no memory.
pub fn write_vectors<O: Sink>(output: &mut O) -> Status
    ensures ends { (text : List ℕ) × IsConformed text
        × EndsWithText (O.held output.old) (O.held output.new) text Status.Done result }
    ensures unwritten { WriteCause result (O.faults output.old) (O.faults output.new) }
    ensures counted { O.faults output.old ≤ O.faults output.new }
    ensures onward { Onward (O.way output.old) (O.way output.new) }
{
    match write_lines(&VECTORS, output) {
        Ok(()) => Status::Done,
        Err(_) => Status::WriteFault,
    }
}

/// Writes the lines of vectors in hexadecimal, numbered from 1.
fn write_lines<O: Sink>(texts: &[&str], output: &mut O) -> Result<(), Failed>
    requires hex { AllByRecursion (λ text. IsOk (decode_of text.now)) texts.now }
    requires short { AllByRecursion (λ text. length text.now ≤ 2 * MOST_OCTETS) texts.now }
    ensures whole { OnOk result
        (Grew (O.held output.old) (O.held output.new) (lines_from 1 (map (λ text. text.now) texts.now))) }
    ensures partly { OnErr result
        (GrewPartly (O.held output.old) (O.held output.new) (lines_from 1 (map (λ text. text.now) texts.now))) }
    ensures cause { OnErr result (Rose (O.faults output.old) (O.faults output.new)) }
    ensures stood { OnOk result (O.faults output.new ≡ O.faults output.old) }
    ensures counted { O.faults output.old ≤ O.faults output.new }
    ensures onward { Onward (O.way output.old) (O.way output.new) }
{
    for (index, text) in texts.iter().enumerate() {
        let line = line_of_vector(index + 1, text);
        write_all(output, line.as_slice())?;
    }
    Ok(())
}

/// The line of a vector in hexadecimal.
fn line_of_vector(number: usize, text: &str) -> VectorText
    requires hex { IsOk (decode_of text.now) }
    requires short { length text.now ≤ 2 * MOST_OCTETS }
    ensures { result.items ≡ vector_line number (octets_of_text text.now) }
{
    let mut room = [0; MOST_OCTETS];
    let octets = &mut room[..text.len() / 2];
    hex::decode_to_slice(text, octets).unwrap();
    let mut digits = Buffer::new();
    let mut line = ArrayVec::new();
    line.try_extend_from_slice(digits.format(number).as_bytes())
        .unwrap();
    push_answer(&mut line, octets);
    line.push(b'\n');
    line
}

/// Appends what octets come to.
fn push_answer(line: &mut VectorText, octets: &[u8])
    requires { array_vec_len line.old ≤ 20 }
    ensures bytes { line.new.items ≡ line.old.items ++ spaced (answer_words (reading_of octets.now)) }
    ensures len { array_vec_len line.new < LONGEST_LINE }
{
    match decode(octets) {
        Ok(msd) => {
            let canonical = encode(&msd).unwrap();
            push_octets(line, canonical.as_slice());
        }
        Err(refusal) => push_refusal(line, &refusal),
    }
}

/// Appends why octets are no set.
fn push_refusal(line: &mut VectorText, refusal: &Refusal)
    requires { array_vec_len line.old ≤ 20 }
    ensures bytes { line.new.items ≡ line.old.items ++ spaced (refused_words refusal.now) }
    ensures len { array_vec_len line.new < LONGEST_LINE }
{
    push_word(line, "refused");
    push_number(line, refusal.place);
    push_number(line, refusal.reason.code());
    push_number(line, refusal.value);
}
