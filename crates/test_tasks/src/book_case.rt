//! A case of calls on a book.

use crate::book::Tasks;
use std::alloc::Global;
use test_support::{CaseFault, Form, Said, play};

/// Writes what a case answers: each call with its answer, and what closing its book gives.
pub fn play_book(alloc: Global, case: &str, out: &mut Said) -> Result<(), CaseFault> {
    let Some((script, calls)) = case.split_once("\n--\n") else {
        return Err(CaseFault::Form);
    };
    let mut tasks = Tasks::new(alloc, script)?;
    let played = play(alloc, &mut tasks, Form::Named, calls, out);
    let mut closed = Said::new(alloc);
    tasks.close(&mut closed);
    // Where a call was refused memory, the case has written its answers alone.
    played?;
    out.part(&closed);
    out.put("\n");
    Ok(())
}
