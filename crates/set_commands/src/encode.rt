//! The command `encode`: facts of a vehicle in, the octets of the sets that fit them out.

ghost use Rattle.std.specs.Prelude.{◌≡◌, [], ℕ, ◌≤◌, List, OnErr, OnOk, true, length, take, Some, MatchOption};
ghost use Rattle.call_io.specs.Blocks.{held, pending, sink, way};
ghost use Rattle.call_io.specs.Bytes.{Grew, GrewPartly};
ghost use Rattle.call_io.specs.Counts.{Rose};
ghost use Rattle.call_io.specs.Ways.{Onward};
ghost use Rattle.msd_fit.specs.Fitting.{fits};
ghost use Rattle.trace_text.specs.Drafts.{DraftOf};
ghost use Rattle.trace_text.specs.Encode.{encode_line, encode_placed, encode_placed_line};
ghost use Rattle.trace_text.specs.declared.encode.EncodeLine.TheVariants as says;
ghost use Rattle.trace_text.specs.declared.fact_line.FactLine.{FactLine as Fact};
ghost use Rattle.command_base.specs.Outcome.{ClosesSilently, Outcome, ReadCause, ToldBefore, WriteCause, streams_of};
ghost use Rattle.set_commands.specs.Encode.{encode_reply, octets_line};
ghost use Rattle.set_commands.specs.inner.EncodeLaws.{encode_lined};
ghost use Rattle.set_commands.specs.inner.EncodePlaces.{IsEncoded, TakesPlace};

use call_io::{Block, Failed, Sink, Source, write_all};
use command_base::{LineCommand, Refused, Status, carry_out_lines, refuse, refuse_line};
use line_input::{Line, Reason};
use msd_fit::{Cause, OwnFacts, spell};
use trace_text::{Draft, EncodeLine, FactLine, read_encode};

/// The most bytes that the line of a set has: two digits for each of 140 octets, and its newline.
const LONGEST_LINE: usize = 281;

/// Writes the sets that the lines ask for, each of the facts so far.
#[derive(Drop)]
struct Encode {
    draft: Draft,
}

impl LineCommand for Encode {
    ghost Seen = { List Fact };

    ghost stands = { λ s before facts. DraftOf s.draft facts };

    ghost rest = { IsEncoded };

    ghost most = { λ facts number texts. 0 };

    ghost closes = { ClosesSilently };

    ghost count = { λ s. record { name = 0; passes = 0 } };

    ghost wants_memory = { ⊥ };

    ghost quiet = { ⊥ };

    fn take<O: Sink>(&mut self, line: &Line<'_>, output: &mut O) -> Option<Status> {
        obey(line, &mut self.draft, output)
    }

    fn finish<O: Sink>(&mut self, _output: &mut O) -> Status {
        Status::Done
    }

    ghost lined = { λ s before facts stands. encode_lined facts };
}

/// Writes the sets that the lines of the input ask for, each of the facts so far. It takes no memory.
pub fn encode_sets<I: Source, O: Sink>(input: &mut I, output: &mut Block<'_, O>) -> Status
    ensures outcome { (passes : ℕ) → Outcome (λ bytes r. r ≡ encode_reply bytes) (λ bytes. 0) true
        (streams_of I.left (held O.held) input.old output.old passes)
        (streams_of I.left (held O.held) input.new output.new passes) result }
    ensures told { ToldBefore (λ bytes r. r ≡ encode_reply bytes) ClosesSilently (I.left input.old) (I.left input.new)
        (held O.held output.old) (held O.held output.new) result }
    ensures handed { result ≡ Status.ReadFault → pending output.new ≡ [] }
    ensures in_place { result ≡ Status.Memory → ⊥ }
    ensures unread { ReadCause result (I.faults input.old) (I.faults input.new) }
    ensures unwritten { WriteCause result (O.faults (sink output.old)) (O.faults (sink output.new)) }
    ensures reads_counted { I.faults input.old ≤ I.faults input.new }
    ensures writes_counted { O.faults (sink output.old) ≤ O.faults (sink output.new) }
    ensures onward { Onward (way O.held output.old) (way O.held output.new) }
{
    let draft = Draft::new();
    carry_out_lines(&mut Encode { draft }, input, output)
}

/// Carries out a line.
fn obey<O: Sink>(line: &Line<'_>, draft: &mut Draft, output: &mut O) -> Option<Status>
    ensures takes { (facts : List Fact) → DraftOf draft.old facts →
        TakesPlace facts (encode_placed_line facts (encode_line line.now.text)) line.now.number
        (O.held output.old) (O.held output.new) draft.new result }
    ensures in_place { result ≡ Some Status.Memory → ⊥ }
    ensures unwritten { MatchOption result (O.faults output.new ≡ O.faults output.old)
        (λ answer. WriteCause answer (O.faults output.old) (O.faults output.new)) }
    ensures counted { O.faults output.old ≤ O.faults output.new }
    ensures onward { Onward (O.way output.old) (O.way output.new) }
{
    match read_encode(line) {
        Ok(EncodeLine::Fact(fact)) => take_fact(line.number(), &fact, draft, output),
        Ok(EncodeLine::Write { cause, number }) => {
            write_asked(line.number(), cause, number, draft, output)
        }
        Err(bad) => Some(refuse(Refused::Line(bad), output)),
    }
}

/// Adds a fact to the draft, or refuses its line.
fn take_fact<O: Sink>(
    line: u32,
    fact: &FactLine,
    draft: &mut Draft,
    output: &mut O,
) -> Option<Status>
    ensures takes { (facts : List Fact) → DraftOf draft.old facts →
        TakesPlace facts (encode_placed facts (says.Fact fact.now)) line
        (O.held output.old) (O.held output.new) draft.new result }
    ensures in_place { result ≡ Some Status.Memory → ⊥ }
    ensures unwritten { MatchOption result (O.faults output.new ≡ O.faults output.old)
        (λ answer. WriteCause answer (O.faults output.old) (O.faults output.new)) }
    ensures counted { O.faults output.old ≤ O.faults output.new }
    ensures onward { Onward (O.way output.old) (O.way output.new) }
{
    if draft.add(fact) {
        None
    } else {
        Some(refuse_line(line, Reason::Many, output))
    }
}

/// Writes the set of the draft's facts, or refuses the line that asks for it before its facts came.
fn write_asked<O: Sink>(
    line: u32,
    cause: Cause,
    number: u8,
    draft: &Draft,
    output: &mut O,
) -> Option<Status>
    ensures takes { (facts : List Fact) → DraftOf draft.now facts →
        TakesPlace facts (encode_placed facts (says.Write cause number)) line
        (O.held output.old) (O.held output.new) draft.now result }
    ensures in_place { result ≡ Some Status.Memory → ⊥ }
    ensures unwritten { MatchOption result (O.faults output.new ≡ O.faults output.old)
        (λ answer. WriteCause answer (O.faults output.old) (O.faults output.new)) }
    ensures counted { O.faults output.old ≤ O.faults output.new }
    ensures onward { Onward (O.way output.old) (O.way output.new) }
{
    match draft.own_ref() {
        Some(own) => match write_set(own, cause, number, output) {
            Ok(()) => None,
            Err(_) => Some(Status::WriteFault),
        },
        None => Some(refuse_line(line, Reason::Missing, output)),
    }
}

/// Writes the line of the set that fits these facts.
fn write_set<O: Sink>(
    own: &OwnFacts,
    cause: Cause,
    number: u8,
    output: &mut O,
) -> Result<(), Failed>
    ensures whole { OnOk result
        (Grew (O.held output.old) (O.held output.new) (octets_line (fits own.now cause number))) }
    ensures partly { OnErr result
        (GrewPartly (O.held output.old) (O.held output.new) (octets_line (fits own.now cause number))) }
    ensures cause { OnErr result (Rose (O.faults output.old) (O.faults output.new)) }
    ensures stood { OnOk result (O.faults output.new ≡ O.faults output.old) }
    ensures counted { O.faults output.old ≤ O.faults output.new }
    ensures onward { Onward (O.way output.old) (O.way output.new) }
{
    let octets = spell(own, cause, number);
    let mut room = [0; LONGEST_LINE];
    let length = put_line(octets.as_slice(), &mut room);
    write_all(output, &room[..length])
}

/// Puts the line of these octets in front in `room`: how many bytes it has.
fn put_line(octets: &[u8], room: &mut [u8; LONGEST_LINE]) -> usize
    requires { length octets.now ≤ 140 }
    ensures fits { result ≤ LONGEST_LINE }
    ensures line { take result room.new ≡ octets_line octets.now }
{
    let digits = 2 * octets.len();
    hex::encode_to_slice(octets, &mut room[..digits]).unwrap();
    room[digits] = b'\n';
    digits + 1
}
