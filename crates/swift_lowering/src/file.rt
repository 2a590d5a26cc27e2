//! Whole files.

ghost use Rattle.std.specs.Prelude.{◌≡◌, ◌++◌, ◌∷◌, [], ℕ, All, IfSome, IsNone, length};
ghost use Rattle.swift_syntax.specs.Places.{IsBlamedIn, IsTokenOf};
ghost use Rattle.swift_expressions.specs.Instructions.{KeepsRefusal};
ghost use Rattle.swift_expressions.specs.States.{Becomes, state_of};
ghost use Rattle.swift_lowering.specs.Files.{AsksAll, AsksExpectation, AsksInvariant, BeginsMain, BeginsMethod, InOrder, IsAsked, IsCodeOf, LowersBody, LowersMethod, TakesParam, has_result, in_method, is_returned, params_of};

use crate::alone::lone_value;
use crate::checks::{check_globals, check_members, check_starts, check_whole};
use crate::returns::exits;
use crate::statement::body_statements;
use crate::unit::bound;
use std::alloc::Global;
use swift_expressions::{
    Code, Instruction, Kind, Lowering, NONE, UnitKind, declare, expression, kind_of, leave,
    setting_of, standing_at, want,
};
use swift_syntax::{
    Breach, ExpectDecl, InvariantDecl, MethodDecl, ParamDecl, Refusal, Rule, Token, Tree,
};

/// What a file becomes.
#[derive(Drop)]
pub struct Lowered {
    /// Its instructions.
    pub code: Code,
    /// The first rule that it breaks.
    pub refused: Option<Refusal>,
}

// The parameters of a method.
fn params_of(tree: &Box<Tree>, method: MethodDecl) -> &[ParamDecl]
    ensures { result.now ≡ params_of tree.now.value method }
{
    tree.params
        .get(method.first_param..method.params_end)
        .unwrap_or(&[])
}

// Puts a parameter into scope.
fn declare_param(lowering: &mut Lowering<'_>, param: ParamDecl)
    ensures takes { (place : ℕ) → IsNone lowering.new.refused → TakesParam place param (state_of lowering.old) (state_of lowering.new) }
    ensures refused { KeepsRefusal lowering.old lowering.new }
{
    let is_twice = standing_at(lowering, param.name).is_some();
    lowering.refuse_where(is_twice, Rule::NameTwice, param.name);
    let variable = lowering.variable(param.name, true);
    let kind = kind_of(param.value_type);
    declare(lowering, param.name, variable, kind, false);
}

// Puts the parameters of a method into scope.
fn declare_params(lowering: &mut Lowering<'_>, method: MethodDecl)
    ensures takes { IsNone lowering.new.refused → InOrder ParamDecl TakesParam 0 (params_of lowering.old.tree.now.value method) (state_of lowering.old) (state_of lowering.new) }
    ensures refused { KeepsRefusal lowering.old lowering.new }
{
    let params = params_of(lowering.tree, method);
    for param in params.iter() {
        declare_param(lowering, *param);
    }
}

// Whether something is returned.
fn has_result(kind: Kind) -> bool
    ensures { result ≡ has_result kind }
{
    match kind {
        Kind::Void => false,
        Kind::Int | Kind::Bool | Kind::Urgency => true,
    }
}

// Whether a body is but a value, at this place where that is not 0, which is what its method returns.
fn is_returned(method: MethodDecl, lone: usize) -> bool
    ensures { result ≡ is_returned method lone }
{
    lone != 0 && has_result(kind_of(method.result))
}

// Refuses a method with a value that may end without one.
fn want_return(lowering: &mut Lowering<'_>, method: MethodDecl)
    ensures state { Becomes lowering.new (state_of lowering.old) }
    ensures refused { KeepsRefusal lowering.old lowering.new }
{
    if has_result(kind_of(method.result)) && !exits(lowering, method.body) {
        lowering.refuse(Rule::NoReturn, method.end);
    }
}

// The body of a method: a value alone is what is returned.
fn method_body(lowering: &mut Lowering<'_>, method: MethodDecl)
    ensures body { IsNone lowering.new.refused → LowersBody method (state_of lowering.old) (state_of lowering.new) }
    ensures refused { KeepsRefusal lowering.old lowering.new }
{
    let lone = lone_value(lowering, method.body);
    if is_returned(method, lone) {
        let found = expression(lowering, lone);
        want(lowering, found, kind_of(method.result), method.name);
        lowering.put(Instruction::Return(found.value));
        return;
    }
    body_statements(lowering, method.body);
    want_return(lowering, method);
}

// A method begins, or `main`, as the unit at its place.
fn enter(lowering: &mut Lowering<'_>, unit: usize, method: MethodDecl)
    ensures state { Becomes lowering.new (in_method unit method (state_of lowering.old)) }
    ensures refused { KeepsRefusal lowering.old lowering.new }
{
    let mut setting = setting_of(unit, method.actor);
    setting.is_async = method.is_async;
    setting.is_throwing = method.is_throwing;
    setting.is_closure = method.actor == NONE;
    setting.result = Some(kind_of(method.result));
    lowering.setting = setting;
}

// A method, or `main`, as the unit at its place.
fn lower_method(lowering: &mut Lowering<'_>, unit: usize, method: MethodDecl)
    ensures lowers { IsNone lowering.new.refused → LowersMethod unit method (state_of lowering.old) (state_of lowering.new) }
    ensures refused { KeepsRefusal lowering.old lowering.new }
{
    let from = lowering.here();
    enter(lowering, unit, method);
    declare_params(lowering, method);
    method_body(lowering, method);
    leave(lowering, 0);
    let to = lowering.here();
    bound(lowering, unit, from, to, method.end);
}

// The units of methods, which have their places.
fn begin_methods(lowering: &mut Lowering<'_>, methods: &[MethodDecl])
    ensures begins { IsNone lowering.new.refused → InOrder MethodDecl BeginsMethod 0 methods.now (state_of lowering.old) (state_of lowering.new) }
    ensures refused { KeepsRefusal lowering.old lowering.new }
{
    let mut place: usize = 0;
    for method in methods.iter() {
        lowering.unit(
            UnitKind::Method(place),
            method.actor,
            method.name,
            method.name,
        );
        place = place.saturating_add(1);
    }
}

// The unit of `main`.
fn begin_main(lowering: &mut Lowering<'_>, mains: &[MethodDecl])
    ensures begins { IsNone lowering.new.refused → InOrder MethodDecl BeginsMain 0 mains.now (state_of lowering.old) (state_of lowering.new) }
    ensures refused { KeepsRefusal lowering.old lowering.new }
{
    for main in mains.iter() {
        lowering.unit(UnitKind::Main, NONE, NONE, main.name);
    }
}

// The instructions of methods, as the units from a place on.
fn lower_each(lowering: &mut Lowering<'_>, first: usize, methods: &[MethodDecl])
    ensures lowers { IsNone lowering.new.refused → InOrder MethodDecl LowersMethod first methods.now (state_of lowering.old) (state_of lowering.new) }
    ensures refused { KeepsRefusal lowering.old lowering.new }
{
    let mut unit = first;
    for method in methods.iter() {
        lower_method(lowering, unit, *method);
        unit = unit.saturating_add(1);
    }
}

// A value that has to be Bool, for which nothing has to be done.
fn lower_test(lowering: &mut Lowering<'_>, test: usize) -> usize
    ensures asked { IsNone lowering.new.refused → IsAsked (state_of lowering.old) test (state_of lowering.new) result }
    ensures refused { KeepsRefusal lowering.old lowering.new }
{
    let before = lowering.here();
    let found = expression(lowering, test);
    let token = lowering.tree.expr(test).token;
    want(lowering, found, Kind::Bool, token);
    if lowering.here() != before {
        lowering.refuse(Rule::NotYet, token);
    }
    found.value
}

// The value of an invariant.
fn lower_invariant(lowering: &mut Lowering<'_>, invariant: InvariantDecl) -> usize
    ensures asks { IsNone lowering.new.refused → AsksInvariant invariant (state_of lowering.old) (state_of lowering.new) result }
    ensures refused { KeepsRefusal lowering.old lowering.new }
{
    lowering.setting = setting_of(NONE, invariant.actor);
    lower_test(lowering, invariant.test)
}

// Puts a value behind others.
fn keep_value(lowering: &mut Lowering<'_>, values: &mut Vec<usize>, value: usize)
    ensures kept { IsNone lowering.new.refused → values.new.items ≡ values.old.items ++ value ∷ [] }
    ensures state { Becomes lowering.new (state_of lowering.old) }
    ensures refused { KeepsRefusal lowering.old lowering.new }
{
    if values.push(value).is_err() {
        lowering.refuse(Rule::Memory, 0);
    }
}

// The values of invariants.
fn lower_invariants(
    alloc: Global,
    lowering: &mut Lowering<'_>,
    invariants: &[InvariantDecl],
) -> Vec<usize>
    ensures asks { IsNone lowering.new.refused → AsksAll InvariantDecl AsksInvariant invariants.now (state_of lowering.old) (state_of lowering.new) result.items }
    ensures refused { KeepsRefusal lowering.old lowering.new }
{
    let mut values = Vec::new(alloc);
    for invariant in invariants.iter() {
        let value = lower_invariant(lowering, *invariant);
        keep_value(lowering, &mut values, value);
    }
    values
}

// The value of an expectation, which reads what instances have at the end.
fn lower_expectation(lowering: &mut Lowering<'_>, expectation: ExpectDecl) -> usize
    ensures asks { IsNone lowering.new.refused → AsksExpectation expectation (state_of lowering.old) (state_of lowering.new) result }
    ensures refused { KeepsRefusal lowering.old lowering.new }
{
    lowering.setting = setting_of(NONE, NONE);
    lowering.setting.is_expectation = true;
    lower_test(lowering, expectation.test)
}

// The values of expectations.
fn lower_expectations(
    alloc: Global,
    lowering: &mut Lowering<'_>,
    expectations: &[ExpectDecl],
) -> Vec<usize>
    ensures asks { IsNone lowering.new.refused → AsksAll ExpectDecl AsksExpectation expectations.now (state_of lowering.old) (state_of lowering.new) result.items }
    ensures refused { KeepsRefusal lowering.old lowering.new }
{
    let mut values = Vec::new(alloc);
    for expectation in expectations.iter() {
        let value = lower_expectation(lowering, *expectation);
        keep_value(lowering, &mut values, value);
    }
    values
}

/// The instructions of a file with these tokens and this tree, or the first rule that it breaks: by names and types, in the order in which
/// they are looked at.
pub fn lower(alloc: Global, text: &[u8], tokens: &[Token], tree: &Box<Tree>) -> Lowered
    requires { All (IsTokenOf text.now) tokens.now }
    ensures blamed { IfSome result.refused (IsBlamedIn text.now) }
    ensures code { IsNone result.refused → IsCodeOf text.now tokens.now tree.now.value result.code }
{
    let (code, breach) = lower_all(alloc, text, tokens, tree);
    let refused = breach.map(|b| b.refusal(text, tokens));
    Lowered { code, refused }
}

// The instructions of a file, and the first rule that it breaks.
fn lower_all<'a>(
    alloc: Global,
    text: &'a [u8],
    tokens: &'a [Token],
    tree: &'a Box<Tree>,
) -> (Code, Option<Breach>)
    ensures code { IsNone result.1 → IsCodeOf text.now tokens.now tree.now.value result.0 }
{
    let methods: &[MethodDecl] = &tree.methods;
    let mains: &[MethodDecl] = &tree.mains;
    let mut lowering = Lowering::new(alloc, text, tokens, tree);
    check_globals(&mut lowering);
    check_members(&mut lowering);
    check_starts(&mut lowering);
    begin_methods(&mut lowering, methods);
    begin_main(&mut lowering, mains);
    lower_each(&mut lowering, 0, methods);
    lower_each(&mut lowering, methods.len(), mains);
    let invariants = lower_invariants(alloc, &mut lowering, &tree.invariants);
    let expectations = lower_expectations(alloc, &mut lowering, &tree.expectations);
    check_whole(&mut lowering);
    let mut code = lowering.code;
    code.invariants = invariants;
    code.expectations = expectations;
    (code, lowering.refused)
}
