//! Whole scripts.

ghost use Rattle.std.specs.Prelude.{◌≡◌, IfOk, map};
ghost use Rattle.script_grammar.specs.Tree.{view_executor, view_local, view_actor, view_root};
ghost use Rattle.script_printing.specs.Printed.{printed};

use crate::list::write_lines;
use script_grammar::{Actor, Executor, Local, Root};
use script_tokens::Keyword;
use std::alloc::{AllocError, Global};

/// The printed form of declarations: the executors, the task locals, the actors and then the roots, each on one line
/// that an LF ends, with one space between two tokens. Each use of an operator stands in a parenthesis, and nothing
/// else does. Leading zeros are dropped. A root or a `detach` is always printed with its priority, a
/// `spawn` or an `add` where one was given. An `on`, an invariant or an `else` that is absent is not printed.
///
/// `Err` says that there was no memory. Time and memory are linear in the printed form. What is printed of a script
/// that was read is ASCII and reads back as that script (`printed_is_ascii`, `printed_reads_back`). The form is our
/// own.
pub fn print(
    alloc: Global,
    executors: &[Executor],
    locals: &[Local],
    actors: &[Actor],
    roots: &[Root],
) -> Result<Vec<u8>, AllocError>
    ensures { IfOk result (λ v. v.items ≡ printed (record { executors = map view_executor executors.now; locals = map view_local locals.now; actors = map view_actor actors.now; roots = map view_root roots.now })) }
{
    let mut out = Vec::new(alloc);
    write_lines(&mut out, Keyword::Executor, executors)?;
    write_lines(&mut out, Keyword::Local, locals)?;
    write_lines(&mut out, Keyword::Actor, actors)?;
    write_lines(&mut out, Keyword::Root, roots)?;
    Ok(out)
}
