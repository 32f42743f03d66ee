//! The command `decode`: sets of data in hexadecimal in, their descriptions out.

ghost use Rattle.std.specs.Prelude.{◌≡◌, [], ℕ, ◌≤◌, true, Ok, Some, length, MatchOption};
ghost use Rattle.call_io.specs.Blocks.{held, pending, sink, way};
ghost use Rattle.call_io.specs.Ways.{Onward};
ghost use Rattle.hex.specs.Hex.{decode_of};
ghost use Rattle.line_input.specs.Lines.{most_in_line};
ghost use Rattle.set_commands.specs.Decode.{AreDecoded, IsDecoded, judged_set, octets_in, some_octets};
ghost use Rattle.command_base.specs.Outcome.{ClosesSilently, Outcome, ReadCause, ToldBefore, WriteCause, streams_of};
ghost use Rattle.set_commands.specs.inner.DecodePlaces.{TakesPlace};
ghost use Rattle.set_commands.specs.inner.DecodeLaws.{decode_lined};

use call_io::{Block, Sink, Source};
use command_base::{LineCommand, Refused, Status, carry_out_lines, refuse, refuse_line};
use line_input::{Line, Reason, only_word};
use msd_codec::decode;
use msd_values::describe;

/// The most octets that a line has in hexadecimal.
const MOST_OCTETS: usize = 256;

/// Describes the set of each line.
#[derive(Drop)]
struct Decode;

impl LineCommand for Decode {
    ghost Seen = { Unit {0} };

    ghost stands = { λ s before seen. Unit {0} };

    ghost rest = { λ seen. AreDecoded };

    ghost most = { λ seen number texts. 0 };

    ghost closes = { ClosesSilently };

    ghost count = { λ s. record { name = 0; passes = 0 } };

    ghost wants_memory = { ⊥ };

    ghost quiet = { ⊥ };

    fn take<O: Sink>(&mut self, line: &Line<'_>, output: &mut O) -> Option<Status> {
        decode_line(line, output)
    }

    fn finish<O: Sink>(&mut self, _output: &mut O) -> Status {
        Status::Done
    }

    ghost lined = { λ s before seen stands. decode_lined };
}

/// Describes the sets of data that the input has in hexadecimal, one on each line. It takes no memory.
pub fn decode_sets<I: Source, O: Sink>(input: &mut I, output: &mut Block<'_, O>) -> Status
    ensures outcome { (passes : ℕ) → Outcome IsDecoded (λ bytes. 0) true
        (streams_of I.left (held O.held) input.old output.old passes)
        (streams_of I.left (held O.held) input.new output.new passes) result }
    ensures told { ToldBefore IsDecoded ClosesSilently (I.left input.old) (I.left input.new)
        (held O.held output.old) (held O.held output.new) result }
    ensures handed { result ≡ Status.ReadFault → pending output.new ≡ [] }
    ensures in_place { result ≡ Status.Memory → ⊥ }
    ensures unread { ReadCause result (I.faults input.old) (I.faults input.new) }
    ensures unwritten { WriteCause result (O.faults (sink output.old)) (O.faults (sink output.new)) }
    ensures reads_counted { I.faults input.old ≤ I.faults input.new }
    ensures writes_counted { O.faults (sink output.old) ≤ O.faults (sink output.new) }
    ensures onward { Onward (way O.held output.old) (way O.held output.new) }
{
    carry_out_lines(&mut Decode, input, output)
}

/// Describes the set of a line.
fn decode_line<O: Sink>(line: &Line<'_>, output: &mut O) -> Option<Status>
    ensures takes { TakesPlace (judged_set line.now.text) line.now.number
        (O.held output.old) (O.held output.new) result }
    ensures in_place { result ≡ Some Status.Memory → ⊥ }
    ensures unwritten { MatchOption result (O.faults output.new ≡ O.faults output.old)
        (λ answer. WriteCause answer (O.faults output.old) (O.faults output.new)) }
    ensures counted { O.faults output.old ≤ O.faults output.new }
    ensures onward { Onward (O.way output.old) (O.way output.new) }
{
    match only_word(line.text()) {
        Some(word) => decode_word(line.number(), word, output),
        None => Some(refuse_line(line.number(), Reason::Count, output)),
    }
}

/// Describes the set that stands in hexadecimal.
fn decode_word<O: Sink>(number: u32, word: &[u8], output: &mut O) -> Option<Status>
    requires { length word.now ≤ most_in_line }
    ensures takes { TakesPlace (some_octets (octets_in (decode_of word.now))) number
        (O.held output.old) (O.held output.new) result }
    ensures in_place { result ≡ Some Status.Memory → ⊥ }
    ensures unwritten { MatchOption result (O.faults output.new ≡ O.faults output.old)
        (λ answer. WriteCause answer (O.faults output.old) (O.faults output.new)) }
    ensures counted { O.faults output.old ≤ O.faults output.new }
    ensures onward { Onward (O.way output.old) (O.way output.new) }
{
    let mut room = [0; MOST_OCTETS];
    let octets = &mut room[..word.len() / 2];
    match hex::decode_to_slice(word, octets) {
        Ok(()) => decode_set(number, octets, output),
        Err(_) => Some(refuse_line(number, Reason::Hex, output)),
    }
}

/// Describes the set that the octets show.
fn decode_set<O: Sink>(number: u32, octets: &[u8], output: &mut O) -> Option<Status>
    ensures takes { TakesPlace (Ok (Some octets.now)) number (O.held output.old) (O.held output.new) result }
    ensures in_place { result ≡ Some Status.Memory → ⊥ }
    ensures unwritten { MatchOption result (O.faults output.new ≡ O.faults output.old)
        (λ answer. WriteCause answer (O.faults output.old) (O.faults output.new)) }
    ensures counted { O.faults output.old ≤ O.faults output.new }
    ensures onward { Onward (O.way output.old) (O.way output.new) }
{
    match decode(octets) {
        Ok(msd) => match describe(&msd, output) {
            Ok(()) => None,
            Err(_) => Some(Status::WriteFault),
        },
        Err(refusal) => {
            let line = number;
            Some(refuse(Refused::Set { line, refusal }, output))
        }
    }
}
