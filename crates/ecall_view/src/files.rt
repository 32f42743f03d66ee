//! The files that the words name, told one behind the other.

use call_io::{RealSink, RealSource, Sink};
use clap::ArgMatches;
use std::fs::{self, Files};
use std::io::{self, Write};
use view_commands::{Ending, FILES, PipeWriter, Subject, complain, tell_ending, tell_input};
use view_lines::Answer;

/// Tells one file, `-` being standard input.
fn tell_file(
    rt: &(impl Files + Input + AllocGlobal),
    subject: Subject,
    file: &str,
    output: &mut impl Sink,
) -> io::Result<Answer> {
    if file == "-" {
        let mut input = RealSource::new(rt.reader());
        Ok(tell_input(rt.alloc(), subject, &mut input, output))
    } else {
        let mut input = RealSource::new(fs::open(rt, file)?);
        Ok(tell_input(rt.alloc(), subject, &mut input, output))
    }
}

/// Tells the files that the words name, one behind the other. After a failed write it stops: nobody is
/// there who could read what follows.
pub(crate) fn tell_files(
    rt: &(impl Files + Input + Print + Eprint + AllocGlobal),
    subject: Subject,
    words: &ArgMatches<'_>,
) -> Ending {
    let mut writer = PipeWriter::new(io::writer(rt));
    let mut ending = Ending::Done;
    for file in words.get_strs(FILES).unwrap_or(&[]) {
        let mut output = RealSink::new(&mut writer);
        let told = tell_file(rt, subject, file, &mut output);
        let part = match &told {
            Ok(answer) => tell_ending(rt, file, *answer, writer.is_closed()),
            Err(error) => complain(rt, file, error),
        };
        ending = ending.and(part);
        if matches!(told, Ok(Answer::WriteFault)) {
            return ending;
        }
    }
    ending
}
