//! Runs a script that it reads from standard input, and prints the journal of each executor, how each task ended, and
//! the fields.
//!
//! It takes the words `--workers N`, from 1 to 8, `--quiet` and `--help`. Status 0 stands for a run whose tasks all ended with a
//! value, and for help; 1 for a run with a task that ended with a fault, 2 for words that were refused, 3 for a script that was
//! refused, 4 for a run that was refused or a device that failed.
#![tactic(auto)]

use std::alloc::{AllocError, AllocGlobal};
use std::env;
use std::io::ErrorKind;
use std::process::ExitCode;
use std::random::RandomSource;
use std::sync::Wait;
use std::thread::Threads;
use swift_tool::{Options, ToolFault, options, read_input, run_text, status};
use swift_workers::Open;

fn main(rt: HostRuntime) -> ExitCode {
    let alloc = rt.alloc();
    let found = match env::args(&rt) {
        Ok(found) => found,
        Err(error) => return no_words(&rt, error.kind()),
    };
    let collected: Result<Vec<String>, AllocError> = found.collect(alloc);
    let Ok(words) = collected else {
        return no_words(&rt, ErrorKind::OutOfMemory);
    };
    match options(alloc, &words) {
        Ok(options) => tell(&rt, whole(&rt, &rt, options)),
        Err(refused) => match refused.print(&rt) {
            Ok(()) => ExitCode::from(refused.exit_code() as u8),
            Err(_) => tell(&rt, Err(ToolFault::Device)),
        },
    }
}

// Says what went wrong, if anything did.
fn tell(rt: &HostRuntime, ended: Result<bool, ToolFault>) -> ExitCode {
    if let Err(fault) = ended {
        let _ = eprintln!(rt; "swiftrun: {fault}");
    }
    ExitCode::from(status(&ended))
}

// Says why the words could not be read.
fn no_words(rt: &HostRuntime, kind: ErrorKind) -> ExitCode {
    let why = match kind {
        ErrorKind::InvalidData => "an argument is not UTF-8",
        _ => "no memory for the words",
    };
    let _ = eprintln!(rt; "swiftrun: {why}");
    ExitCode::from(2)
}

// Whether each task ended with a value. The runtime comes twice, since it waits in `main` alone.
fn whole<R>(host: &HostRuntime, rt: &R, options: Options) -> Result<bool, ToolFault>
where
    R: RandomSource + AllocGlobal + Threads + Wait + Sync,
{
    let text = read_input(rt.alloc(), &mut host.stdin())?;
    run_text(
        rt,
        &text,
        options.workers,
        options.quiet,
        &Open,
        &mut host.stdout(),
    )
}
