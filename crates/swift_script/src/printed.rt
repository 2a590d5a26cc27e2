//! The printed form of a script.

ghost use Rattle.std.specs.Prelude.{◌≡◌, ◌≤◌, IfOk, length};
ghost use Rattle.std.specs.String.{string_bytes};
ghost use Rattle.script_parser.specs.declared.limits.TheConstants.{NESTING};
ghost use Rattle.script_printing.specs.Printed.{printed};
ghost use Rattle.swift_script.specs.Accepted.{Spells, IsAccepted};

use crate::script::Script;
use std::alloc::{AllocError, Global};
use swift_types::limits::BYTES;

/// The printed form of a script: its executors, task locals, actors and then roots, each kind in text order and each on
/// one line that an LF ends, with one space between two tokens. Each use of an operator stands in a parenthesis, and
/// other expressions in none. Roots are printed with their priorities. Equal scripts are printed as one text, whatever
/// the texts that they were read from.
///
/// The printed form can be longer than what was read. Up to 65,536 bytes `read` makes an equal script of it (or answers
/// that there is no memory), and it refuses a longer one. `Err` says that there was no memory. Time and memory are
/// linear in the printed form. The form is our own.
pub fn print_script(alloc: Global, script: &Script) -> Result<String, AllocError>
    ensures printed { IfOk result (λ text. string_bytes text ≡ printed script.now) }
    // It spells this script within the limits.
    ensures spelled { IfOk result (λ text. Spells NESTING (string_bytes text) script.now) }
    // It is accepted as this script, unless it is too long.
    ensures accepted { IfOk result (λ text. length (string_bytes text) ≤ BYTES → IsAccepted (string_bytes text) script.now) }
{
    let bytes = Vec::from_slice(alloc, script.printed())?;
    Ok(String::from_utf8(bytes).unwrap())
}
