//! What the words of a command line ask for.

ghost use Rattle.std.specs.Prelude.{◌≤◌, IfOk};
ghost use Rattle.swift_types.specs.declared.limits.TheConstants.{WORKERS};

use crate::settings::Options;
use clap::{Arg, ArgAction, Command, Error, value_parser};
use std::alloc::Global;
use swift_types::limits::WORKERS;

// The words that the program takes.
fn command<'a>(alloc: Global) -> Result<Command<'a>, Error> {
    let workers = Arg::new(alloc, "workers")
        .long("workers")
        .value_name("N")
        .help("Runs the tasks on N threads, from 1 to 8")
        .action(ArgAction::Set)
        .value_parser(value_parser!(u32).range(1..9))
        .default_value("1");
    let quiet = Arg::new(alloc, "quiet")
        .long("quiet")
        .help("Leaves the journals out of the report")
        .action(ArgAction::SetTrue);
    let command = Command::new(alloc, "swiftrun")
        .about(
            "Runs a script of actors from standard input, and prints the journal of each executor, how each task ended, and the fields",
        )
        .arg(workers)?
        .arg(quiet)?;
    Ok(command)
}

/// Reads the arguments of a command line, of which the first is the program's name: `--workers N` or `--workers=N`, from 1 to 8 and
/// 1 where it is not given, and `--quiet` (our own).
///
/// # Errors
///
/// Any other argument, a number that is none or out of range, one given twice, `--help`, and arguments for which there is no memory.
/// The error's text is the one to show, and its `exit_code` the status to end with: 0 for help, else 2.
pub fn options<'a>(alloc: Global, words: &'a [String]) -> Result<Options, Error>
    ensures least { IfOk result (λ options. 1 ≤ options.workers) }
    ensures most { IfOk result (λ options. options.workers ≤ WORKERS) }
{
    let matches = command(alloc)?.try_get_matches_from(words)?;
    // What the command says of its word is said again, for the contract.
    let workers = matches.get_one::<u32>("workers").unwrap_or(1);
    Ok(Options {
        workers: workers.clamp(1, WORKERS as u32),
        quiet: matches.get_flag("quiet"),
    })
}
