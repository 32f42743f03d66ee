//! The program `ecall`: its words, standard input and output, and its exit status.
#![tactic(auto)]

ghost use Rattle.std.specs.Prelude.{◌≡◌, ◌<◌};

mod explanation;
mod link;
mod live_explanation;

use crate::explanation::Explanation;
use crate::link::run_live;
use crate::live_explanation::LiveExplanation;
use call_io::{RealSink, RealSource, Sink, Source};
use ecall_top::{Status, ecall};
use line_help::{Seen, Watch};
use link_frames::Steps;
use live_link::{Live, LiveStatus, live_words};
use std::alloc::Global;
use std::env::{self, Env};
use std::io;
use std::marker::Brand;
use std::process::ExitCode;
use std::sync::ledger::{Blank, Ledger};

/// The command line's words without the program's name. A word that is not UTF-8 is no word of any form, so such a
/// command line has none.
fn words(rt: &(impl Env + AllocGlobal)) -> Result<Vec<String>, Status> {
    match env::args(rt) {
        Ok(args) => args.skip(1).collect(rt.alloc()).map_err(|_| Status::Memory),
        Err(error) if error.kind() == io::ErrorKind::OutOfMemory => Err(Status::Memory),
        Err(_) => Ok(Vec::new(rt.alloc())),
    }
}

/// What was read where nothing was.
const NOTHING: Seen<'static> = Seen {
    text: &[],
    ended: 0,
};

/// Tells a person why the call didn't end with status 0, by a second look at the end of what was read. Where that can't
/// be written, the exit status still says it.
fn explain(rt: &impl Eprint, status: Status, word: Option<&str>, seen: Seen<'_>) {
    if status.code() != 0 {
        let why = Explanation { status, word, seen };
        let _ = eprintln!(rt; "ecall: {why}");
    }
}

/// Carries out what the words ask for. Nobody reads how often the ends of calls were passed, so that count is begun
/// here.
fn carry_out<I: Source, O: Sink, L: Ledger>(
    alloc: Global,
    words: &[String],
    input: &mut I,
    output: &mut O,
    blank: Blank,
) -> Status
    requires name { blank.name ≡ L.name }
    requires parts { blank.parts ≡ L.parts }
    requires some { 0 < blank.parts }
{
    let mut moments = Steps::<L>::start(blank);
    ecall(alloc, words, input, output, &mut moments)
}

/// Carries out a command that needs no link, and answers its status's number.
fn command(rt: &HostRuntime, words: &[String]) -> u8 {
    let mut input = Watch::over(RealSource::new(rt.reader()));
    let mut output = RealSink::new(io::writer(rt));
    let blank = Blank::new(1);
    let status = carry_out::<_, _, Brand>(rt.alloc(), words, &mut input, &mut output, blank);
    let word = words.first().map(|word| word.as_str());
    explain(rt, status, word, input.seen());
    status.code()
}

/// Tells a person why a live end didn't end with status 0.
fn explain_live(rt: &impl Eprint, status: LiveStatus, end: Live) {
    if status.code() != 0 {
        let why = LiveExplanation { status, end };
        let _ = eprintln!(rt; "ecall: {why}");
    }
}

/// Runs a live end, and answers its status's number.
fn live_end(rt: &HostRuntime, end: Live) -> u8 {
    let mut script = RealSource::new(rt.reader());
    let mut trace = RealSink::new(io::writer(rt));
    let status = run_live(rt.alloc(), rt, end, &mut script, &mut trace);
    explain_live(rt, status, end);
    status.code()
}

fn main(rt: HostRuntime) -> ExitCode {
    let code = match words(&rt) {
        Ok(words) => match live_words(words.as_slice()) {
            Some(end) => live_end(&rt, end),
            None => command(&rt, words.as_slice()),
        },
        Err(status) => {
            explain(&rt, status, None, NOTHING);
            status.code()
        }
    };
    ExitCode::from(code)
}
