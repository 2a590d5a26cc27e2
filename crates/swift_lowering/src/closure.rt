//! Closures, and the methods that they become.

ghost use Rattle.std.specs.Prelude.{◌≡◌, ◌-◌, IfNone, IfSome, IsNone, length};
ghost use Rattle.swift_expressions.specs.Instructions.{KeepsRefusal};
ghost use Rattle.swift_expressions.specs.States.{Becomes, expr_at, form_at, left_to, state_of};
ghost use Rattle.swift_lowering.specs.Closures.{HandsOver, IsCallee, IsDirect, IsGiven, OpensClosure, covered_by, in_closure, uncovered, with_setting};
ghost use Rattle.swift_lowering.specs.Units.{unit_ended};

use crate::assignment::given_back;
use crate::capture::{capture_all, refuse_unknown};
use crate::returns::exits;
use crate::unit::{OpenUnit, begin_unit, end_unit};
use swift_expressions::{
    Callee, Fallback, Instruction, Kind, Lowering, NONE, Returns, Setting, Standing, actor_of,
    call_operands, constant_named, expression, function_named, instance_named, is_hidden, kind_of,
    leave, method_at, method_named, standing_at, want_arguments,
};
use swift_syntax::{Access, ExprForm, MethodDecl, Receiver, Rule};

/// What a closure says.
#[derive(Clone, Copy)]
pub(crate) struct ClosureBody {
    /// Its first statement, or 0.
    pub first: usize,
    /// Its value, where it is one alone, or 0.
    pub value: usize,
    /// The first of the names in its list.
    pub captures: usize,
    /// Its first token.
    pub from: usize,
    /// The token behind its last one.
    pub to: usize,
    /// Whether `await` and `try` are understood, as in an `async let`.
    pub is_implicit: bool,
    /// Whether it may throw.
    pub may_throw: bool,
    /// Whether it is a child of a group that others may join: then it ends after the actor that it calls was left.
    pub is_among_others: bool,
}

/// What became of a closure.
#[derive(Clone, Copy)]
pub(crate) struct MadeClosure {
    /// The method that a task runs.
    pub callee: Callee,
    /// What it gives.
    pub kind: Kind,
    /// Whether it may throw.
    pub is_throwing: bool,
}

// What an `await` or a `try` covers; any other expression is itself.
fn covered_by(lowering: &Lowering<'_>, place: usize) -> usize
    ensures { result ≡ covered_by place (form_at (state_of lowering.now) place) }
{
    match lowering.expr(place).form {
        ExprForm::Await(inner) => inner,
        ExprForm::Try(inner) => inner,
        _ => place,
    }
}

// An expression without the `await` and `try` before it, of which there are at most three.
fn uncovered(lowering: &Lowering<'_>, place: usize) -> usize
    ensures { result ≡ uncovered (state_of lowering.now) place }
{
    let once = covered_by(lowering, place);
    let twice = covered_by(lowering, once);
    covered_by(lowering, twice)
}

// Whether an `await` stands before an expression, and whether a `try` does.
fn covers(lowering: &Lowering<'_>, place: usize) -> (bool, bool) {
    let mut inner = place;
    let mut is_awaited = false;
    let mut is_tried = false;
    for _ in 0..3 {
        match lowering.tree.expr(inner).form {
            ExprForm::Await(next) => {
                is_awaited = true;
                inner = next;
            }
            ExprForm::Try(next) => {
                is_tried = true;
                inner = next;
            }
            _ => {}
        }
    }
    (is_awaited, is_tried)
}

// Whether an argument is the same wherever it is computed.
fn is_fixed(lowering: &Lowering<'_>, value: usize) -> bool {
    let expr = lowering.tree.expr(value);
    match expr.form {
        ExprForm::Number(_) | ExprForm::Truth(_) => true,
        ExprForm::Name => match standing_at(lowering, expr.token) {
            Some(found) => found.standing == Standing::Constant,
            None => {
                constant_named(lowering, expr.token).is_some() && !is_hidden(lowering, expr.token)
            }
        },
        _ => false,
    }
}

fn are_fixed(lowering: &Lowering<'_>, first: usize) -> bool {
    let mut place = first;
    for _ in 0..lowering.tree.arguments.len() {
        match lowering.tree.argument(place) {
            Some(argument) => {
                if !is_fixed(lowering, argument.value) {
                    return false;
                }
                place = argument.next;
            }
            None => return true,
        }
    }
    true
}

// A call of a method of an instance, or of a function for that of `NONE`, with the first of its arguments and the token of its name.
#[derive(Clone, Copy)]
struct InstanceCall {
    instance: usize,
    method: usize,
    declared: MethodDecl,
    first: usize,
    token: usize,
}

// The function that is all that a closure calls, with values that are the same wherever they are computed.
fn called_function(lowering: &Lowering<'_>, place: usize) -> Option<InstanceCall>
    ensures { IfSome result (λ call. (receiver : Receiver) × (form_at (state_of lowering.now) place ≡ ExprForm.Call receiver call.first) × IsCallee (state_of lowering.now) (expr_at (state_of lowering.now) place).token receiver call.instance call.method) }
{
    let expr = lowering.expr(place);
    let ExprForm::Call(receiver, first) = expr.form else {
        return None;
    };
    let Receiver::Nobody = receiver else {
        return None;
    };
    let token = expr.token;
    if let Some(_) = standing_at(lowering, token) {
        return None;
    }
    if is_hidden(lowering, token) || !are_fixed(lowering, first) {
        return None;
    }
    let Some(method) = function_named(lowering, token) else {
        return None;
    };
    let Some(declared) = method_at(lowering, method) else {
        return None;
    };
    if !declared.is_async {
        return None;
    }
    Some(InstanceCall {
        instance: NONE,
        method,
        declared,
        first,
        token,
    })
}

// The method of an instance that is all that a closure calls, with values that are the same wherever they are computed.
fn called_method(lowering: &Lowering<'_>, place: usize) -> Option<InstanceCall>
    ensures { IfSome result (λ call. (receiver : Receiver) × (form_at (state_of lowering.now) place ≡ ExprForm.Call receiver call.first) × IsCallee (state_of lowering.now) (expr_at (state_of lowering.now) place).token receiver call.instance call.method) }
{
    let expr = lowering.expr(place);
    let ExprForm::Call(receiver, first) = expr.form else {
        return None;
    };
    let Receiver::Named(of) = receiver else {
        return None;
    };
    let token = expr.token;
    if let Some(_) = standing_at(lowering, of) {
        return None;
    }
    if is_hidden(lowering, of) || !are_fixed(lowering, first) {
        return None;
    }
    let Some(instance) = instance_named(lowering, of) else {
        return None;
    };
    let actor = actor_of(lowering, instance);
    let Some(method) = method_named(lowering, actor, token) else {
        return None;
    };
    let Some(declared) = method_at(lowering, method) else {
        return None;
    };
    Some(InstanceCall {
        instance,
        method,
        declared,
        first,
        token,
    })
}

// What a closure calls, if that is all that it does.
fn called(lowering: &Lowering<'_>, place: usize) -> Option<InstanceCall>
    ensures { IfSome result (λ call. (receiver : Receiver) × (form_at (state_of lowering.now) place ≡ ExprForm.Call receiver call.first) × IsCallee (state_of lowering.now) (expr_at (state_of lowering.now) place).token receiver call.instance call.method) }
{
    match called_function(lowering, place) {
        Some(call) => Some(call),
        None => called_method(lowering, place),
    }
}

/// A closure that only calls a method of an instance is that method; one that only calls a function that is `async` is that function, which
/// runs outside of actors as the closure does.
pub(crate) fn direct(lowering: &mut Lowering<'_>, body: ClosureBody) -> Option<MadeClosure>
    ensures direct { IfSome result (λ made. IsNone lowering.new.refused → IsDirect (state_of lowering.old) body.value (state_of lowering.new) made.callee) }
    ensures other { IfNone result (Becomes lowering.new (state_of lowering.old)) }
    ensures refused { KeepsRefusal lowering.old lowering.new }
{
    refuse_unknown(lowering, body.captures);
    let place = uncovered(lowering, body.value);
    let (is_awaited, is_tried) = covers(lowering, body.value);
    let Some(call) = called(lowering, place) else {
        return None;
    };
    if body.is_among_others && call.instance != NONE {
        return None;
    }
    let is_tried = is_tried && body.may_throw;
    if !body.is_implicit && (!is_awaited || (call.declared.is_throwing && !is_tried)) {
        return None;
    }
    Some(hand_over(lowering, call, is_tried))
}

// What is called as what a task runs.
fn hand_over(lowering: &mut Lowering<'_>, call: InstanceCall, is_tried: bool) -> MadeClosure
    ensures hands { IsNone lowering.new.refused → HandsOver (state_of lowering.old) call.first call.instance call.method (state_of lowering.new) result.callee }
    ensures refused { KeepsRefusal lowering.old lowering.new }
{
    let InstanceCall {
        instance,
        method,
        declared,
        first,
        token,
    } = call;
    let given = call_operands(lowering, first);
    let first_param = declared.first_param;
    want_arguments(
        lowering,
        first_param,
        declared.params_end,
        first,
        given,
        token,
    );
    let is_private = declared.access == Access::Private;
    lowering.refuse_where(is_private, Rule::Private, token);
    MadeClosure {
        callee: Callee::Method(instance, method, given.first),
        kind: kind_of(declared.result),
        is_throwing: declared.is_throwing || is_tried,
    }
}

// A closure begins, in which what was captured stands from a place of the scope on.
fn enter(lowering: &mut Lowering<'_>, unit: usize, boundary: usize, body: ClosureBody)
    ensures state { Becomes lowering.new (in_closure unit boundary body.is_implicit (state_of lowering.old)) }
    ensures refused { KeepsRefusal lowering.old lowering.new }
{
    lowering.setting = Setting {
        unit,
        actor: NONE,
        boundary,
        is_async: true,
        is_throwing: body.may_throw,
        catching: NONE,
        is_closure: true,
        is_expectation: false,
        is_awaited: body.is_implicit,
        is_tried: body.is_implicit,
        fallback: Fallback::None,
        result: None,
        returns: Returns::Unit,
        has_thrown: false,
        block_start: boundary,
        blocks: 0,
        loops: 0,
        groups: 0,
    };
}

/// A closure that is lowered, as a unit of its own.
#[derive(Clone, Copy)]
pub(crate) struct OpenClosure {
    /// Its unit.
    pub begun: OpenUnit,
    /// The first of the operands that it captures, or `NONE`.
    pub operand: usize,
    // What holds around it.
    outer: Setting,
    // How many names are in scope around it.
    boundary: usize,
}

/// A closure begins here, as a unit with what it captures.
pub(crate) fn begin_closure(lowering: &mut Lowering<'_>, body: ClosureBody) -> OpenClosure
    ensures opens { IsNone lowering.new.refused → OpensClosure (state_of lowering.old) body result.operand (state_of lowering.new) }
    ensures unit { IsNone lowering.new.refused → result.begun.unit ≡ length lowering.old.code.units.items }
    ensures skip { IsNone lowering.new.refused → result.begun.skip ≡ length lowering.old.code.instructions.items }
    ensures around { (result.outer ≡ lowering.old.setting) × (result.boundary ≡ length lowering.old.scope.items) }
    ensures refused { KeepsRefusal lowering.old lowering.new }
{
    let outer = lowering.setting;
    let boundary = lowering.scope.len();
    let begun = begin_unit(lowering, body.from);
    let operand = capture_all(lowering, begun.unit, body);
    enter(lowering, begun.unit, boundary, body);
    OpenClosure {
        begun,
        operand,
        outer,
        boundary,
    }
}

/// A value that is all that a closure says is what it gives.
pub(crate) fn give_lone(lowering: &mut Lowering<'_>, value: usize)
    ensures given { IsNone lowering.new.refused → IsGiven (state_of lowering.old) value (state_of lowering.new) }
    ensures refused { KeepsRefusal lowering.old lowering.new }
{
    let found = expression(lowering, value);
    lowering.setting.result = Some(found.kind);
    lowering.put(Instruction::Return(given_back(found)));
}

/// Refuses a closure with a value that may end without one.
pub(crate) fn want_end(lowering: &mut Lowering<'_>, body: ClosureBody)
    ensures state { Becomes lowering.new (state_of lowering.old) }
    ensures refused { KeepsRefusal lowering.old lowering.new }
{
    let kind = lowering.setting.result.unwrap_or(Kind::Void);
    if kind != Kind::Void && !exits(lowering, body.first) {
        lowering.refuse(Rule::NoReturn, body.to.saturating_sub(1));
    }
}

/// A closure ends here. What became of it.
pub(crate) fn end_closure(
    lowering: &mut Lowering<'_>,
    closure: OpenClosure,
    body: ClosureBody,
) -> MadeClosure
    ensures state { Becomes lowering.new (with_setting closure.outer (left_to closure.boundary (unit_ended closure.begun.unit closure.begun.skip (body.to - 1) (state_of lowering.old)))) }
    ensures callee { result.callee ≡ Callee.Unit closure.begun.unit closure.operand }
    ensures refused { KeepsRefusal lowering.old lowering.new }
{
    let kind = lowering.setting.result.unwrap_or(Kind::Void);
    let is_throwing = lowering.setting.has_thrown;
    end_unit(lowering, closure.begun, body.to.saturating_sub(1));
    leave(lowering, closure.boundary);
    lowering.setting = closure.outer;
    MadeClosure {
        callee: Callee::Unit(closure.begun.unit, closure.operand),
        kind,
        is_throwing,
    }
}
