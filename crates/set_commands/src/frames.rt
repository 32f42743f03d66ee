//! The command `frames`: pieces of a stream of frames in hexadecimal in, the lines of its frames out.

ghost use Rattle.std.specs.Prelude.{◌≡◌, ℕ, ◌≤◌, ◌<◌, ◌+◌, ◌*◌, ◌^◌, List, [], ◌∷◌, ◌++◌, OnErr, OnOk, IfOk, true, length, Some, None, Ok, MatchOption, MatchResult};
ghost use Rattle.call_io.specs.Blocks.{held, pending, sink, way};
ghost use Rattle.call_io.specs.Bytes.{Grew, GrewPartly};
ghost use Rattle.call_io.specs.Counts.{Rose};
ghost use Rattle.call_io.specs.Ways.{Onward};
ghost use Rattle.hex.specs.Hex.{decode_of};
ghost use Rattle.link_frames.specs.Frame.{lent};
ghost use Rattle.link_frames.specs.Reading.{HasRead};
ghost use Rattle.link_frames.specs.declared.frame.Frame.{Frame};
ghost use Rattle.line_input.specs.Characters.{space};
ghost use Rattle.trace_text.specs.Rooms.{frame_room};
ghost use Rattle.line_input.specs.Lines.{most_in_line};
ghost use Rattle.line_input.specs.Words.{only_word_of, words};
ghost use Rattle.set_commands.specs.Decode.{octets_in, octets_of_word, some_octets};
ghost use Rattle.set_commands.specs.Frames.{ClosesFrames, IsFrames, frame_line, rest_line};
ghost use Rattle.command_base.specs.Outcome.{Outcome, ReadCause, ToldBefore, WriteCause, streams_of};
ghost use Rattle.set_commands.specs.inner.FrameLaws.{frames_lined};
ghost use Rattle.command_base.specs.Ends.{EndsWithText};
ghost use Rattle.set_commands.specs.inner.FrameTurns.{FollowFrames, FramesSeen, FramesStand, IsOfLine, TakesLine, TakesOn, TakesPiece, last_line};

use arrayvec::ArrayVec;
use call_io::{Block, Failed, Sink, Source, write_all};
use command_base::{LineCommand, Refused, Status, carry_out_lines, refuse, refuse_line};
use line_input::{Line, Reason, only_word, push_number};
use link_frames::{FrameRef, Reader};
use trace_text::push_frame_words;

/// The most octets that a line has in hexadecimal.
const MOST_OCTETS: usize = 256;

/// The most bytes that the line of a frame has behind a space: `data`, a request and an attempt of 3 digits, and two
/// digits for each of 140 octets, each behind a space, and its newline.
const LONGEST_LINE: usize = 295;

/// The most bytes that the line of a frame without a set has behind a space: `app`, a request of 3 digits and
/// `positive`, each behind a space, and its newline.
const LONGEST_SHORT: usize = 18;

/// Reads the stream whose pieces the lines have.
#[derive(Drop)]
struct Frames {
    reader: Reader,
}

impl LineCommand for Frames {
    ghost Seen = { FramesSeen };

    ghost stands = { λ s before seen. FramesStand before seen s.reader };

    ghost rest = { FollowFrames };

    ghost most = { λ seen number texts. 0 };

    ghost closes = { ClosesFrames };

    ghost count = { λ s. record { name = 0; passes = 0 } };

    ghost wants_memory = { ⊥ };

    ghost quiet = { ⊥ };

    fn take<O: Sink>(&mut self, line: &Line<'_>, output: &mut O) -> Option<Status> {
        take_line(line, &mut self.reader, output)
    }

    fn finish<O: Sink>(&mut self, output: &mut O) -> Status {
        write_rest(&self.reader, output)
    }

    ghost lined = { λ s before seen stands. frames_lined before seen s.reader stands };
}

/// Writes the frames of the stream whose pieces the input has in hexadecimal, one on each line. It takes no memory.
pub fn read_frames<I: Source, O: Sink>(input: &mut I, output: &mut Block<'_, O>) -> Status
    ensures outcome { (passes : ℕ) → Outcome IsFrames (λ bytes. 0) true
        (streams_of I.left (held O.held) input.old output.old passes)
        (streams_of I.left (held O.held) input.new output.new passes) result }
    ensures told { ToldBefore IsFrames ClosesFrames (I.left input.old) (I.left input.new)
        (held O.held output.old) (held O.held output.new) result }
    ensures handed { result ≡ Status.ReadFault → pending output.new ≡ [] }
    ensures in_place { result ≡ Status.Memory → ⊥ }
    ensures unread { ReadCause result (I.faults input.old) (I.faults input.new) }
    ensures unwritten { WriteCause result (O.faults (sink output.old)) (O.faults (sink output.new)) }
    ensures reads_counted { I.faults input.old ≤ I.faults input.new }
    ensures writes_counted { O.faults (sink output.old) ≤ O.faults (sink output.new) }
    ensures onward { Onward (way O.held output.old) (way O.held output.new) }
{
    let reader = Reader::new();
    carry_out_lines(&mut Frames { reader }, input, output)
}

/// Takes the piece of a line.
fn take_line<O: Sink>(line: &Line<'_>, reader: &mut Reader, output: &mut O) -> Option<Status>
    requires going { reader.old.fault ≡ None }
    requires few { reader.old.taken ≤ 2 ^ 32 }
    ensures takes { (stream : List ℕ) (ended : List Frame) → HasRead stream ended reader.old →
        TakesLine stream ended (some_octets (octets_of_word (only_word_of (words line.now.text)))) line.now.number
        (O.held output.old) (O.held output.new) reader.new result }
    ensures answer { IsOfLine result }
    ensures unwritten { MatchOption result (O.faults output.new ≡ O.faults output.old)
        (λ answer. WriteCause answer (O.faults output.old) (O.faults output.new)) }
    ensures counted { O.faults output.old ≤ O.faults output.new }
    ensures onward { Onward (O.way output.old) (O.way output.new) }
{
    match only_word(line.text()) {
        Some(word) => take_word(line.number(), word, reader, output),
        None => Some(refuse_line(line.number(), Reason::Count, output)),
    }
}

/// Takes the piece that stands in hexadecimal.
fn take_word<O: Sink>(
    number: u32,
    word: &[u8],
    reader: &mut Reader,
    output: &mut O,
) -> Option<Status>
    requires short { length word.now ≤ most_in_line }
    requires going { reader.old.fault ≡ None }
    requires few { reader.old.taken ≤ 2 ^ 32 }
    ensures takes { (stream : List ℕ) (ended : List Frame) → HasRead stream ended reader.old →
        TakesLine stream ended (some_octets (octets_in (decode_of word.now))) number
        (O.held output.old) (O.held output.new) reader.new result }
    ensures answer { IsOfLine result }
    ensures unwritten { MatchOption result (O.faults output.new ≡ O.faults output.old)
        (λ answer. WriteCause answer (O.faults output.old) (O.faults output.new)) }
    ensures counted { O.faults output.old ≤ O.faults output.new }
    ensures onward { Onward (O.way output.old) (O.way output.new) }
{
    let mut room = [0; MOST_OCTETS];
    let octets = &mut room[..word.len() / 2];
    match hex::decode_to_slice(word, octets) {
        Ok(()) => take_piece(number, octets, reader, output),
        Err(_) => Some(refuse_line(number, Reason::Hex, output)),
    }
}

/// Takes a piece of the stream, and writes the frames that end in it.
fn take_piece<O: Sink>(
    number: u32,
    piece: &[u8],
    reader: &mut Reader,
    output: &mut O,
) -> Option<Status>
    requires short { length piece.now ≤ MOST_OCTETS }
    requires going { reader.old.fault ≡ None }
    requires few { reader.old.taken ≤ 2 ^ 32 }
    ensures takes { (stream : List ℕ) (ended : List Frame) → HasRead stream ended reader.old →
        TakesPiece stream ended piece.now number (O.held output.old) (O.held output.new) reader.new result }
    ensures answer { IsOfLine result }
    ensures unwritten { MatchOption result (O.faults output.new ≡ O.faults output.old)
        (λ answer. WriteCause answer (O.faults output.old) (O.faults output.new)) }
    ensures counted { O.faults output.old ≤ O.faults output.new }
    ensures onward { Onward (O.way output.old) (O.way output.new) }
{
    let mut n = 0;
    while n < piece.len() {
        match take_on(number, &piece[n..], reader, output) {
            Ok(more) => n += more,
            Err(status) => return Some(status),
        }
    }
    None
}

/// Takes a piece of the stream up to the end of one frame, which it writes, and says how many octets these are.
fn take_on<O: Sink>(
    number: u32,
    piece: &[u8],
    reader: &mut Reader,
    output: &mut O,
) -> Result<usize, Status>
    requires short { length piece.now ≤ MOST_OCTETS }
    requires going { reader.old.fault ≡ None }
    requires few { reader.old.taken ≤ 2 ^ 33 }
    ensures takes { (stream : List ℕ) (ended : List Frame) → HasRead stream ended reader.old →
        TakesOn stream ended piece.now number (O.held output.old) (O.held output.new) reader.new result }
    ensures going { IfOk result (λ _. reader.new.fault ≡ None) }
    ensures taken { IfOk result (λ n. reader.new.taken ≡ reader.old.taken + n) }
    ensures bound { IfOk result (λ n. n ≤ length piece.now) }
    ensures some { IfOk result (λ n. 0 < length piece.now → 0 < n) }
    ensures answer { MatchResult result (λ _. Unit {0}) (λ answer. IsOfLine (Some answer)) }
    ensures unwritten { MatchResult result (λ _. O.faults output.new ≡ O.faults output.old)
        (λ answer. WriteCause answer (O.faults output.old) (O.faults output.new)) }
    ensures counted { O.faults output.old ≤ O.faults output.new }
    ensures onward { Onward (O.way output.old) (O.way output.new) }
{
    match reader.feed(piece) {
        Ok(n) => match write_whole(reader, output) {
            Ok(()) => Ok(n),
            Err(_) => Err(Status::WriteFault),
        },
        Err(fault) => {
            let line = number;
            Err(refuse(Refused::Frame { line, fault }, output))
        }
    }
}

/// Writes the line of the frame with which the last piece ended, if it was whole.
fn write_whole<O: Sink>(reader: &Reader, output: &mut O) -> Result<(), Failed>
    ensures whole { OnOk result (Grew (O.held output.old) (O.held output.new) (last_line reader.now.frame)) }
    ensures partly { OnErr result
        (GrewPartly (O.held output.old) (O.held output.new) (last_line reader.now.frame)) }
    ensures cause { OnErr result (Rose (O.faults output.old) (O.faults output.new)) }
    ensures stood { OnOk result (O.faults output.new ≡ O.faults output.old) }
    ensures counted { O.faults output.old ≤ O.faults output.new }
    ensures onward { Onward (O.way output.old) (O.way output.new) }
{
    match reader.frame() {
        Some(frame) => write_frame(&frame, output),
        None => Ok(()),
    }
}

/// Writes how many octets of an unfinished frame are left at the end of the input, and ends the command.
fn write_rest<O: Sink>(reader: &Reader, output: &mut O) -> Status
    ensures ends { EndsWithText (O.held output.old) (O.held output.new) (rest_line reader.now.kept) Status.Done result }
    ensures unwritten { WriteCause result (O.faults output.old) (O.faults output.new) }
    ensures counted { O.faults output.old ≤ O.faults output.new }
    ensures onward { Onward (O.way output.old) (O.way output.new) }
{
    let line = rest_text(reader.pending());
    match write_all(output, line.as_slice()) {
        Ok(()) => Status::Done,
        Err(_) => Status::WriteFault,
    }
}

/// The line that says how many octets are left.
fn rest_text(count: u8) -> ArrayVec<u8, 16>
    ensures { (rest : List ℕ) → count ≡ length rest → result.items ≡ rest_line rest }
{
    let mut line = ArrayVec::new();
    line.try_extend_from_slice(b"rest").unwrap();
    push_number(&mut line, count);
    line.push(b'\n');
    line
}

/// Writes the line of a frame, in no more room than its kind may want.
fn write_frame<O: Sink>(frame: &FrameRef<'_>, output: &mut O) -> Result<(), Failed>
    ensures whole { OnOk result (Grew (O.held output.old) (O.held output.new) (frame_line (lent frame.now))) }
    ensures partly { OnErr result (GrewPartly (O.held output.old) (O.held output.new) (frame_line (lent frame.now))) }
    ensures cause { OnErr result (Rose (O.faults output.old) (O.faults output.new)) }
    ensures stood { OnOk result (O.faults output.new ≡ O.faults output.old) }
    ensures counted { O.faults output.old ≤ O.faults output.new }
    ensures onward { Onward (O.way output.old) (O.way output.new) }
{
    match frame {
        FrameRef::Content { .. } => {
            let mut line = ArrayVec::<u8, LONGEST_LINE>::new();
            push_frame(&mut line, frame);
            write_all(output, &line.as_slice()[1..])
        }
        FrameRef::Init
        | FrameRef::Start(_)
        | FrameRef::Nack(_)
        | FrameRef::Ack(_)
        | FrameRef::App { .. } => {
            let mut line = ArrayVec::<u8, LONGEST_SHORT>::new();
            push_frame(&mut line, frame);
            write_all(output, &line.as_slice()[1..])
        }
    }
}

/// Builds the line of a frame, behind a space.
fn push_frame<const N: usize>(line: &mut ArrayVec<u8, N>, frame: &FrameRef<'_>)
    requires empty { line.old.items ≡ [] }
    requires room { frame_room (lent frame.now) < N }
    ensures { line.new.items ≡ space ∷ frame_line (lent frame.now) }
{
    push_frame_words(line, frame);
    line.push(b'\n');
}
