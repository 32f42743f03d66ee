//! The program `ecall_view`: sets of data and traces in JSON, one object for each line, for other tools; and reports on traces.
#![tactic(auto)]

mod files;

use crate::files::tell_files;
use clap::error::ErrorKind;
use clap::{ArgMatches, Error};
use std::env::{self, Env};
use std::fs::Files;
use std::io;
use std::process::ExitCode;
use view_commands::{Ending, REPORT, SETS, Subject, TRACE, command_line, complain, manner_of};

/// The words of the command line, the program's name first.
fn words(rt: &(impl Env + AllocGlobal)) -> io::Result<Vec<String>> {
    Ok(env::args(rt)?.collect(rt.alloc())?)
}

/// Carries out what the words ask for.
fn carry_out(
    rt: &(impl Files + Input + Print + Eprint + AllocGlobal),
    matches: &ArgMatches<'_>,
) -> Ending {
    if let Some(words) = matches.subcommand_matches(SETS) {
        return tell_files(rt, Subject::Sets, words);
    }
    if let Some(words) = matches.subcommand_matches(TRACE) {
        return tell_files(rt, Subject::Traces, words);
    }
    match matches.subcommand_matches(REPORT) {
        Some(words) => tell_files(rt, Subject::Reports(manner_of(words)), words),
        None => Ending::Failed,
    }
}

/// Tells why the words ask for nothing that can be carried out, or what they ask to be told of the program.
fn show(rt: &(impl Print + Eprint), error: &Error) -> Ending {
    let printed = error.print(rt);
    match error.kind() {
        ErrorKind::DisplayHelp | ErrorKind::DisplayVersion if printed.is_ok() => Ending::Done,
        ErrorKind::DisplayHelp | ErrorKind::DisplayVersion | ErrorKind::OutOfMemory => {
            Ending::Failed
        }
        _ => Ending::Refused,
    }
}

/// Reads the words and carries them out.
fn run(rt: &(impl Env + Files + Input + Print + Eprint + AllocGlobal)) -> Ending {
    let words = match words(rt) {
        Ok(words) => words,
        Err(error) => return complain(rt, "the command line", &error),
    };
    let Ok(command) = command_line(rt.alloc()) else {
        return complain(rt, "the command line", &"out of memory");
    };
    match command.try_get_matches_from(words.as_slice()) {
        Ok(matches) => carry_out(rt, &matches),
        Err(error) => show(rt, &error),
    }
}

fn main(rt: HostRuntime) -> ExitCode {
    ExitCode::from(run(&rt).code())
}
