//! A script as a Swift program.

ghost use Rattle.std.specs.Prelude.{IfErr, IfOk, map};
ghost use Rattle.script_grammar.specs.Tree.{view_decl};
ghost use Rattle.script_parser.specs.declared.limits.TheConstants.{NESTING};
ghost use Rattle.swift_script.specs.Accepted.{SpellsDecls};
ghost use Rattle.swift_script.specs.FaultPlaces.{IsAtItsPlace};
ghost use Rattle.swift_script.specs.Refuses.{Refuses};
ghost use Rattle.swift_programs.specs.Translations.{IsSwiftOf};

use crate::{spell, swift_program};
use script_grammar::Decl;
use script_parser::{ReadError, parse};
use script_tokens::tokens;
use std::alloc::{AllocError, Global};
use swift_script::{ScriptFault, read};

/// The Swift program of the script that a text spells (the form is our own). It has an actor for each actor and a method for each
/// method, in order. Linear in both texts.
///
/// # Errors
///
/// The refusal of the text; S14 also where there is no memory for the program.
pub fn translate(alloc: Global, text: &[u8]) -> Result<Vec<u8>, ScriptFault>
    ensures translated { IfOk result (λ said. IsSwiftOf text.now said.items) }
    ensures refused { IfErr result (λ fault. Refuses fault.kind text.now) }
    ensures place { IfErr result (λ fault. IsAtItsPlace fault text.now) }
{
    let script = read(alloc, text)?;
    drop(script);
    let decls = declarations(alloc, text)?;
    let program = swift_program(alloc, &decls)?;
    Ok(spell(alloc, &program)?)
}

// The declarations of a text that is accepted.
fn declarations(alloc: Global, text: &[u8]) -> Result<Vec<Decl>, AllocError>
    ensures { IfOk result (λ decls. SpellsDecls NESTING text.now (map view_decl decls.items)) }
{
    let found = tokens(alloc, text)?;
    match parse(alloc, &found.tokens) {
        Ok(decls) => Ok(decls),
        Err(ReadError::Memory | ReadError::Fault(_)) => Err(AllocError),
    }
}
