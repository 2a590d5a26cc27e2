//! From declarations to what a run needs.

ghost use Rattle.std.specs.Prelude.{◌≤◌, map, IfOk};
ghost use Rattle.swift_types.specs.declared.limits.TheConstants.{BYTES};
ghost use Rattle.script_grammar.specs.Tree.{view_decl};
ghost use Rattle.script_grammar.specs.Size.{script_size};
ghost use Rattle.script_names.specs.Rules.{names_in, names_error};
ghost use Rattle.script_names.specs.Finds.{Finds};
ghost use Rattle.script_printing.specs.Script.{script_in};
ghost use Rattle.script_compiler.specs.Compiled.{compiled_of};
ghost use Rattle.script_compiler.specs.IsCompiled.{IsCompiled};

use crate::compiled::Compiled;
use crate::executors::compile_executors;
use crate::lowering::{Parts, Plan, declarations};
use script_grammar::Decl;
use script_names::{CheckError, Declared, Seed};
use std::alloc::Global;

/// What a run needs of a script, where its names and counts are in order (our own). Its declarations are gone through once, in
/// the order of the text, and before that for what they declare, since roots and calls may name actors that are declared
/// later.
///
/// An error is the first one in the order of the text. It stands at the name that is concerned: the second of two of
/// one name, a name that nothing stands under or that stands for something else, the group of a child that is added
/// inside a `bind`, the actor or the method of a call, and for a wrong number of arguments the method. For the number
/// after `pinned` it stands at the executor's name.
///
/// Time and memory are linear in the declarations and all within them, and beside that in the pairs of executors and
/// actors, of which there are 128 and 64 at most; for each `assume` time is linear in the fields of its actor or in the
/// names of the method that are new since that actor was last assumed, whichever are fewer.
pub fn compile(alloc: Global, seed: Seed, decls: &[Decl]) -> Result<Compiled, CheckError>
    // They have no more names than a text may have bytes, and are no larger, so all of it has numbers of 32 bits.
    requires names { names_in (map view_decl decls.now) ≤ BYTES }
    requires size { script_size (map view_decl decls.now) ≤ BYTES }
    // It is the first error, with its place, and there is none where it answers Ok, unless memory runs out.
    ensures finds { Finds result (names_error (map view_decl decls.now)) }
    ensures compiled { IfOk result (λ c. IsCompiled c (compiled_of (script_in (map view_decl decls.now)))) }
{
    let declared = Declared::of(alloc, seed, decls)?;
    let plan = Plan::of(alloc, declared, decls)?;
    let parts = declarations(alloc, &plan, decls)?;
    let executors = compile_executors(alloc, &plan, &parts.actors, decls)?;
    Ok(parts.with_executors(executors))
}
