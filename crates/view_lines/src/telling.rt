//! Telling a whole input.
ghost use Rattle.std.specs.Prelude.{◌≡◌, ◌+◌, ◌<◌, ◌≤◌, ◌++◌, [], ℕ, List, Option, OnOk, OnErr, IfErr, MatchResult, length};
ghost use Rattle.std.specs.Io.KnownBytes.{IsAtEnd};
ghost use Rattle.call_io.specs.Bytes.{Grew, GrewPartly, Took};
ghost use Rattle.call_io.specs.Counts.{Rose};
ghost use Rattle.view_lines.specs.Outcome.{Outcome, ReadCause, WriteCause};
ghost use Rattle.view_lines.specs.inner.Telling.{HandsOn, Pieced, SoFar, Turned, answer_of, whole_answer};

use crate::answer::Answer;
use crate::line_teller::LineTeller;
use crate::teller::{Stop, Teller};
use call_io::{Failed, Sink, Source, write_all};
use std::alloc::Global;

/// How many bytes are read at once.
const BLOCK: usize = 8192;

/// The answer of what stopped a teller.
fn answer_of(stop: Stop) -> Answer
    ensures { result ≡ answer_of stop }
{
    match stop {
        Stop::Memory => Answer::Memory,
        Stop::TooLong => Answer::TooLong,
    }
}

/// The answer where a whole input was told.
fn whole_answer(refused: bool) -> Answer
    ensures { result ≡ whole_answer refused }
{
    if refused {
        Answer::SomeRefused
    } else {
        Answer::Done
    }
}

/// Hands the text at hand on to the sink.
fn hand_on<T, O: Sink>(teller: &mut Teller<T>, output: &mut O) -> Result<(), Failed>
    ensures ok { OnOk result (Grew (O.held output.old) (O.held output.new) teller.old.text.items) }
    ensures partly { OnErr result (GrewPartly (O.held output.old) (O.held output.new) teller.old.text.items) }
    ensures on { OnOk result (HandsOn teller.old teller.new) }
    ensures cause { OnErr result (Rose (O.faults output.old) (O.faults output.new)) }
    ensures stood { OnOk result (O.faults output.new ≡ O.faults output.old) }
{
    write_all(output, teller.text.as_slice())?;
    teller.text.clear();
    Ok(())
}

/// Takes the bytes that were read, and hands on what is told of the lines that end in them.
fn tell_piece<T: LineTeller, O: Sink>(
    teller: &mut Teller<T>,
    output: &mut O,
    piece: &[u8],
) -> Result<(), Answer>
    requires { 0 < length piece.now }
    ensures told { (left left' mid held : Option (List ℕ)) (front : List ℕ) (reads : ℕ) → reads ≤ length front →
        SoFar T.tells T.ends T.heard left mid held (O.held output.old) teller.old front → Took mid left' piece.now →
        Pieced T.tells T.ends T.heard left left' held (O.held output.new) teller.new (front ++ piece.now) (reads + 1)
        result }
    ensures unread { (n : ℕ) → IfErr result (λ answer. ReadCause answer n n) }
    ensures unwritten { MatchResult result (λ _. O.faults output.new ≡ O.faults output.old)
        (λ answer. WriteCause answer (O.faults output.old) (O.faults output.new)) }
{
    match teller.take(piece) {
        Ok(()) => {}
        Err(stop) => return Err(answer_of(stop)),
    }
    match hand_on(teller, output) {
        Ok(()) => Ok(()),
        Err(_) => Err(Answer::WriteFault),
    }
}

/// Reads the next bytes and tells the lines that end in them. False is for the end of the input.
fn tell_block<T: LineTeller, I: Source, O: Sink>(
    teller: &mut Teller<T>,
    input: &mut I,
    output: &mut O,
    block: &mut [u8; BLOCK],
) -> Result<bool, Answer>
    ensures told { (left held : Option (List ℕ)) (front : List ℕ) (reads : ℕ) → reads ≤ length front →
        SoFar T.tells T.ends T.heard left (I.left input.old) held (O.held output.old) teller.old front →
        Turned T.tells T.ends T.heard left (I.left input.new) held (O.held output.new) teller.new (reads + 1) result }
    ensures unread { MatchResult result (λ _. I.faults input.new ≡ I.faults input.old)
        (λ answer. ReadCause answer (I.faults input.old) (I.faults input.new)) }
    ensures unwritten { MatchResult result (λ _. O.faults output.new ≡ O.faults output.old)
        (λ answer. WriteCause answer (O.faults output.old) (O.faults output.new)) }
{
    match input.read(block) {
        Ok(0) => Ok(false),
        Ok(count) => match tell_piece(teller, output, &block[..count]) {
            Ok(()) => Ok(true),
            Err(answer) => Err(answer),
        },
        Err(_) => Err(Answer::ReadFault),
    }
}

/// Tells the last line, where the input ended within it, and the end, and hands that on.
fn tell_end<T: LineTeller, O: Sink>(teller: &mut Teller<T>, output: &mut O) -> Answer
    ensures told { (left left' held : Option (List ℕ)) (front : List ℕ) →
        SoFar T.tells T.ends T.heard left left' held (O.held output.old) teller.old front → IsAtEnd left' →
        Outcome T.tells T.ends left left' held (O.held output.new) result }
    ensures unread { (n : ℕ) → ReadCause result n n }
    ensures unwritten { WriteCause result (O.faults output.old) (O.faults output.new) }
{
    match teller.finish() {
        Ok(()) => {}
        Err(stop) => return answer_of(stop),
    }
    match hand_on(teller, output) {
        Ok(()) => whole_answer(teller.refused),
        Err(_) => Answer::WriteFault,
    }
}

/// Tells the lines of an input of any length in order, and then its end. What it keeps doesn't grow with the input,
/// unless what tells the lines does: a block of it, the first bytes of one line, and what is told of the lines that end
/// in a block.
pub fn tell_lines<T: LineTeller + Drop, I: Source, O: Sink>(
    alloc: Global,
    lines: T,
    input: &mut I,
    output: &mut O,
) -> Answer
    requires { T.heard lines [] }
    ensures outcome { Outcome T.tells T.ends (I.left input.old) (I.left input.new) (O.held output.old)
        (O.held output.new) result }
    ensures unread { ReadCause result (I.faults input.old) (I.faults input.new) }
    ensures unwritten { WriteCause result (O.faults output.old) (O.faults output.new) }
{
    let mut teller = Teller::new(alloc, lines);
    let mut block = [0; BLOCK];
    for _ in 0..u64::MAX {
        match tell_block(&mut teller, input, output, &mut block) {
            Ok(more) => {
                if !more {
                    return tell_end(&mut teller, output);
                }
            }
            Err(answer) => return answer,
        }
    }
    Answer::TooLong
}
