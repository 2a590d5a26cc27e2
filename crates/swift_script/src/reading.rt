//! From text to a script.

ghost use Rattle.std.specs.Prelude.{◌≡◌, None, map, OnOk, IfOk, IfErr};
ghost use Rattle.script_grammar.specs.Tree.{view_decl};
ghost use Rattle.script_names.specs.Rules.{names_error};
ghost use Rattle.script_parser.specs.declared.limits.TheConstants.{NESTING};
ghost use Rattle.script_printing.specs.Script.{ScriptView, script_in};
ghost use Rattle.script_compiler.specs.IsCompiled.{IsCompiled};
ghost use Rattle.swift_script.specs.Accepted.{IsAccepted, IsPlain, NoRootWaits, SpellsDecls, first_false};
ghost use Rattle.swift_script.specs.Answers.{IsReadAs};
ghost use Rattle.swift_script.specs.FaultPlaces.{IsAtItsPlace};
ghost use Rattle.swift_script.specs.Refuses.{Refuses};
ghost use Rattle.swift_script.specs.ScriptInvariant.{tree_of};
ghost use Rattle.swift_script.specs.Scripts.{parts_of};
ghost use Rattle.swift_script.specs.SpelledInside.{HasNamesInOrder};

use crate::fault::ScriptFault;
use crate::naming::compile_named;
use crate::script::Script;
use crate::spelled::{Spelled, all_tokens, spell};
use crate::split::{Declarations, split};
use crate::start::{fault_of, first_broken};
use script_compiler::Compiled;
use script_grammar::Decl;
use script_printing::print;
use std::alloc::Global;

/// The script that a text spells (the language is our own), in time and memory linear in the text.
///
/// Faults are looked for in this order, and the first one is answered with its line and the bytes that it blames: the length
/// (line 1, no bytes), bytes outside text anywhere, the grammar from left to right, names and counts by place, invariants at the
/// start by actors, roots that wait by roots. Out of memory is answered, with line 0 and no bytes, wherever a growth was refused.
pub fn read(alloc: Global, bytes: &[u8]) -> Result<Script, ScriptFault>
    // What is read is accepted, and its tree is what the text spells.
    ensures found { IfOk result (λ s. IsAccepted bytes.now s) }
    // What is accepted is read, unless memory runs out.
    ensures accepted { (tree : ScriptView) → IsAccepted bytes.now tree → IsReadAs tree result }
    // Each refusal has its stated cause, and for none that is looked for before it.
    ensures refused { IfErr result (λ e. Refuses e.kind bytes.now) }
    // It blames the first byte outside text, the token at which the grammar fails, the name that is concerned, the keyword
    // of the first invariant that is false at the start or of the first root that waits; and stands on the line of that.
    ensures place { IfErr result (λ e. IsAtItsPlace e bytes.now) }
{
    accept(alloc, bytes)
}

#[tactic(auto, using(crate::proofs::Refusing::spells))]
fn accept(alloc: Global, text: &[u8]) -> Result<Script, ScriptFault>
    ensures found { IfOk result (λ s. IsAccepted text.now s) }
    ensures refused { IfErr result (λ e. Refuses e.kind text.now) }
    ensures place { IfErr result (λ e. IsAtItsPlace e text.now) }
{
    let spelled = spell(alloc, text)?;
    let compiled = compile_named(alloc, text, &spelled.decls, &spelled.tokens)?;
    // Tokens take much memory, and after this a refusal alone needs them, which finds them again.
    let Spelled { decls, tokens } = spelled;
    drop(tokens);
    build(alloc, text, decls, compiled)
}

// The script of declarations whose names are in order.
fn build(
    alloc: Global,
    text: &[u8],
    decls: Vec<Decl>,
    compiled: Compiled,
) -> Result<Script, ScriptFault>
    requires plain { IsPlain text.now }
    requires spelled { SpellsDecls NESTING text.now (map view_decl decls.items) }
    requires names { names_error (map view_decl decls.items) ≡ None }
    requires compiled { IsCompiled compiled (parts_of (script_in (map view_decl decls.items))) }
    ensures found { IfOk result (λ s. IsAccepted text.now s) }
    ensures refused { IfErr result (λ e. Refuses e.kind text.now) }
    ensures place { IfErr result (λ e. IsAtItsPlace e text.now) }
{
    let by_kind = split(alloc, decls)?;
    finish(alloc, text, by_kind, compiled)
}

// The script of what was compiled, unless an invariant is false or a root waits.
fn finish(
    alloc: Global,
    text: &[u8],
    declarations: Declarations,
    compiled: Compiled,
) -> Result<Script, ScriptFault>
    requires named { HasNamesInOrder text.now (tree_of declarations) }
    requires compiled { IsCompiled compiled (parts_of (tree_of declarations)) }
    ensures found { IfOk result (λ s. IsAccepted text.now s) }
    ensures refused { IfErr result (λ e. Refuses e.kind text.now) }
    ensures place { IfErr result (λ e. IsAtItsPlace e text.now) }
{
    settle(alloc, text, &declarations, &compiled)?;
    let printed = print(
        alloc,
        &declarations.executors,
        &declarations.locals,
        &declarations.actors,
        &declarations.roots,
    )?;
    Ok(Script::of(printed, compiled))
}

// The rules that are looked at once a script is compiled. Only where one is broken the tokens are found again, for its bytes.
#[tactic(auto, using(crate::proofs::Finishing::named_again))]
fn settle(
    alloc: Global,
    text: &[u8],
    declarations: &Declarations,
    compiled: &Compiled,
) -> Result<(), ScriptFault>
    requires named { HasNamesInOrder text.now (tree_of declarations.now) }
    requires compiled { IsCompiled compiled.now (parts_of (tree_of declarations.now)) }
    ensures starts { OnOk result (first_false (tree_of declarations.now) ≡ None) }
    ensures waits { OnOk result (NoRootWaits (tree_of declarations.now)) }
    ensures refused { IfErr result (λ e. Refuses e.kind text.now) }
    ensures place { IfErr result (λ e. IsAtItsPlace e text.now) }
{
    let Some(rule) = first_broken(alloc, declarations, compiled)? else {
        return Ok(());
    };
    let tokens = all_tokens(alloc, text)?;
    Err(fault_of(text, &tokens, declarations, rule))
}
