//! The words that the program takes.
ghost use Rattle.std.specs.Prelude.{◌≡◌, [], ◌∷◌, codes, IfOk};
ghost use Rattle.clap.specs.Words.{subcommand_names};
ghost use Rattle.view_commands.specs.inner.Words.{name_of};

use clap::{Arg, ArgAction, Command};
use std::alloc::{AllocError, Global};

/// The name of the command that tells sets of data.
pub const SETS: &str = "sets";

/// The name of the command that tells traces.
pub const TRACE: &str = "trace";

/// The name of the command that reports on traces.
pub const REPORT: &str = "report";

/// The flag for a report as data.
pub const JSON: &str = "json";

/// The option that names the end that is judged alone.
pub const END: &str = "end";

/// The ends that it names.
static ENDS: [&str; 2] = ["vehicle", "point"];

/// The files that a command reads.
pub const FILES: &str = "FILE";

/// The program's version.
const VERSION: &str = "0.1.0";

/// What is said of the whole program below its help.
const STATUSES: &str = "\
Exit status: 0 where all was told, 1 where a file, a read, a write or memory failed, 2 where a line was refused or the \
words are wrong.";

/// The same below the help of `report`.
const REPORT_STATUSES: &str = "\
Exit status: 0 where no line breaks a rule, 1 where a file, a read, a write or memory failed, 2 where a line breaks a rule or \
was refused, or the words are wrong.";

/// The files of a command; without any it reads standard input.
fn files<'a>(alloc: Global) -> Arg<'a> {
    Arg::new(alloc, FILES)
        .num_args(0..)
        .default_value("-")
        .help("Files to read, one behind the other; - is standard input")
}

/// The command for sets of data.
fn sets<'a>(alloc: Global) -> Result<Command<'a>, AllocError>
    ensures { IfOk result (λ command. name_of command ≡ codes "sets") }
{
    Command::new(alloc, SETS)
        .about("Tells sets of data, one a line in hexadecimal, as JSON Lines: one object a line")
        .after_help(STATUSES)
        .arg(files(alloc))
}

/// The command for traces.
fn trace<'a>(alloc: Global) -> Result<Command<'a>, AllocError>
    ensures { IfOk result (λ command. name_of command ≡ codes "trace") }
{
    Command::new(alloc, TRACE)
        .about("Tells the entries of a trace as JSON Lines: one object a line")
        .after_help(STATUSES)
        .arg(files(alloc))
}

/// The flag for a report as data.
fn json<'a>(alloc: Global) -> Arg<'a> {
    Arg::new(alloc, JSON)
        .long(JSON)
        .action(ArgAction::SetTrue)
        .help("Report in JSON Lines: one object a line")
}

/// The option that names an end.
fn end<'a>(alloc: Global) -> Arg<'a> {
    Arg::new(alloc, END)
        .long(END)
        .value_name("END")
        .value_parser(ENDS.as_slice())
        .help("Judge rules 2 and 3 of this end alone, for a log of one side")
}

/// The command for reports.
fn report<'a>(alloc: Global) -> Result<Command<'a>, AllocError>
    ensures { IfOk result (λ command. name_of command ≡ codes "report") }
{
    Command::new(alloc, REPORT)
        .about("Reports on a trace: each line that breaks a rule, and what its calls came to")
        .after_help(REPORT_STATUSES)
        .arg(json(alloc))?
        .arg(end(alloc))?
        .arg(files(alloc))
}

/// What the program takes to tell lines as data.
fn data_commands<'a>(alloc: Global) -> Result<Command<'a>, AllocError>
    ensures { IfOk result (λ program. subcommand_names program ≡ codes "sets" ∷ codes "trace" ∷ []) }
{
    Command::new(alloc, "ecall_view")
        .about("Tells what ecall reads and writes, as data for other tools")
        .version(VERSION)
        .after_help(STATUSES)
        .subcommand_required(true)
        .arg_required_else_help(true)
        .subcommand(sets(alloc)?)?
        .subcommand(trace(alloc)?)
}

/// All that the program takes.
pub fn command_line<'a>(alloc: Global) -> Result<Command<'a>, AllocError>
    ensures { IfOk result (λ program. subcommand_names program ≡ codes "sets" ∷ codes "trace" ∷ codes "report" ∷ []) }
{
    let program = data_commands(alloc)?;
    program.subcommand(report(alloc)?)
}
