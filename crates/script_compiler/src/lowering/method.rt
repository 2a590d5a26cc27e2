//! Whole methods, and invariants: their names are in order, and become places.

ghost use Rattle.std.specs.Prelude.{◌≡◌, ◌≤◌, ◌<◌, ◌+◌, ◌*◌, length, map, suc, IfOk, OnOk};
ghost use Rattle.swift_types.specs.declared.limits.TheConstants.{BYTES};
ghost use Rattle.script_grammar.specs.Tree.{text_of, view_if, view_stmt, view_method, block_tree};
ghost use Rattle.script_grammar.specs.Size.{block_size, method_size};
ghost use Rattle.script_names.specs.Scope.{fields_alone};
ghost use Rattle.script_names.specs.Rules.{past_names, past_block, past_if, past_method, parameters_error, with_parameters, block_error, optional_error, method_error};
ghost use Rattle.script_names.specs.Finds.{Finds};
ghost use Rattle.script_code.specs.Tree.{term_if};
ghost use Rattle.script_code.specs.Instructions.{FollowsCode};
ghost use Rattle.script_code.specs.Layout.{code_at, greatest};
ghost use Rattle.script_compiler.specs.Compiled.{method_of};
ghost use Rattle.script_compiler.specs.IsCompiled.{IsMethod};
ghost use Rattle.script_compiler.specs.Lowered.{lowered_if, block_code};

use crate::compiled::CompiledMethod;
use crate::lowering::action::new_name;
use crate::lowering::block::inner;
use crate::lowering::counts::most_of;
use crate::lowering::expression::expression_if;
use crate::lowering::plan::Plan;
use crate::lowering::standing::StandingNames;
use script_code::{Formula, Instruction, instructions_of};
use script_grammar::{Expr, Method, Name, Stmt};
use script_names::{CheckError, NameKind, Names, unless_seen};
use std::alloc::Global;
use swift_types::ActorId;

/// A method of an actor, where its name is none of those that are seen: its parameters are new, and the names of its body in
/// order. Time and memory are linear in its statements.
pub(crate) fn method(
    alloc: Global,
    plan: &Plan,
    actor: ActorId,
    seen: &Names,
    at: &mut u32,
    method: &Method,
) -> Result<CompiledMethod, CheckError>
    requires names { past_method (view_method method.now) at.old ≤ BYTES }
    requires size { method_size (view_method method.now) ≤ BYTES }
    ensures finds { Finds result (method_error (fields_alone plan.now.directory actor.0) seen.now at.old (view_method method.now)) }
    ensures after { OnOk result (at.new ≡ past_method (view_method method.now) at.old) }
    ensures method { IfOk result (λ m. IsMethod m (method_of plan.now actor.0 (view_method method.now))) }
{
    unless_seen(seen, at, &method.name)?;
    let mut scope = StandingNames::fields_alone(alloc, plan.declared(), actor.0 as usize);
    parameters(alloc, &mut scope, at, &method.params)?;
    let most = most_of(scope.counts(), &method.body);
    let instructions = instructions(alloc, plan, &mut scope, at, &method.body)?;
    let name = Vec::from_slice(alloc, &method.name.text)?;
    Ok(CompiledMethod {
        name,
        actor,
        params: method.params.len() as u32,
        numbers: most.numbers,
        handles: most.handles,
        instructions,
    })
}

/// An invariant of the actor at a place, if it has one: it names fields of that actor alone.
pub(crate) fn invariant(
    alloc: Global,
    plan: &Plan,
    actor: usize,
    at: &mut u32,
    test: &Option<Expr>,
) -> Result<Option<Formula>, CheckError>
    requires { past_if (view_if test.now) at.old ≤ BYTES }
    ensures finds { Finds result (optional_error (fields_alone plan.now.directory actor) at.old (view_if test.now)) }
    ensures after { OnOk result (at.new ≡ past_if (view_if test.now) at.old) }
    ensures formula { IfOk result (λ f. term_if f ≡ lowered_if plan.now (fields_alone plan.now.directory actor) (view_if test.now)) }
{
    let scope = StandingNames::fields_alone(alloc, plan.declared(), actor);
    expression_if(alloc, plan, &scope, at, test)
}

// The parameters are distinct, and distinct from the fields. They stand from then on.
fn parameters(
    alloc: Global,
    scope: &mut StandingNames<'_>,
    at: &mut u32,
    params: &[Name],
) -> Result<(), CheckError>
    requires names { past_names (map text_of params.now) at.old ≤ BYTES }
    requires room { length scope.old.kinds + length params.now ≤ greatest }
    ensures finds { Finds result (parameters_error scope.old at.old (map text_of params.now)) }
    ensures after { OnOk result (at.new ≡ past_names (map text_of params.now) at.old) }
    ensures scope { OnOk result (scope.new ≡ with_parameters scope.old (map text_of params.now)) }
{
    for param in params {
        new_name(scope, at, param)?;
        scope.add(alloc, &param.text, NameKind::Number)?;
    }
    Ok(())
}

// The instructions of what the statements of a body stand for.
fn instructions(
    alloc: Global,
    plan: &Plan,
    scope: &mut StandingNames<'_>,
    at: &mut u32,
    body: &[Stmt],
) -> Result<Vec<Instruction>, CheckError>
    requires names { past_block (block_tree (map view_stmt body.now)) at.old ≤ BYTES }
    requires room { length scope.old.kinds + 2 * block_size (block_tree (map view_stmt body.now)) < greatest }
    ensures finds { Finds result (block_error scope.old at.old (block_tree (map view_stmt body.now))) }
    ensures after { OnOk result (at.new ≡ past_block (block_tree (map view_stmt body.now)) at.old) }
    ensures code { let code = block_code plan.now scope.old (block_tree (map view_stmt body.now)) in
        IfOk result (λ v. FollowsCode v.items code (code_at code)) }
{
    let statements = inner(alloc, plan, scope, at, body)?;
    Ok(instructions_of(alloc, statements)?)
}
