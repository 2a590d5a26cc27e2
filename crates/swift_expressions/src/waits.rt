//! What is waited for.

ghost use Rattle.std.specs.Prelude.{◌≡◌, ℕ, Bool, false, IfSome, IsNone, Some, slice_get};
ghost use Rattle.swift_expressions.specs.Instructions.{IsHoisted, KeepsRefusal};
ghost use Rattle.swift_expressions.specs.Lowered.{Calls, Means, Names, ReadsOther, Waits, child_test, counted, counted_child, with_child_test, yielding};
ghost use Rattle.swift_expressions.specs.Scopes.{IsFieldOf, IsInnermost};
ghost use Rattle.swift_expressions.specs.States.{Becomes, state_of};
ghost use Rattle.swift_expressions.specs.declared.call.Called.TheVariants as callees;
ghost use Rattle.swift_expressions.specs.declared.operands.Operands.{Operands};

use crate::code::{Instruction, Kind, NONE, Target, Value, Wait};
use crate::lowering::{Fallback, Lowering};
use crate::name::field_kind;
use crate::naming::{actor_of, field_at, field_named};
use crate::scope::{Binding, Standing, binding_at, mark_used};
use crate::typed::{Typed, literal, refused, with_kind};
use swift_syntax::{Access, ExprForm, FieldStart, Rule};
use swift_types::Operator;

/// Refuses what is not covered by `await`.
pub(crate) fn want_await(lowering: &mut Lowering<'_>, token: usize)
    ensures code { lowering.new.code ≡ lowering.old.code }
    ensures state { Becomes lowering.new (state_of lowering.old) }
    ensures refused { KeepsRefusal lowering.old lowering.new }
{
    if !lowering.setting.is_awaited {
        lowering.refuse(Rule::Await, token);
    }
}

/// The same of what may wait or not.
pub(crate) fn want_await_where(lowering: &mut Lowering<'_>, waits: bool, token: usize)
    ensures state { Becomes lowering.new (state_of lowering.old) }
    ensures refused { KeepsRefusal lowering.old lowering.new }
{
    if waits {
        want_await(lowering, token);
    }
}

/// Refuses what may throw and is not covered by `try`.
pub(crate) fn want_try(lowering: &mut Lowering<'_>, token: usize)
    ensures state { Becomes lowering.new (state_of lowering.old) }
    ensures refused { KeepsRefusal lowering.old lowering.new }
{
    if let Fallback::Fault(_) = lowering.setting.fallback {
        return;
    }
    lowering.setting.has_thrown = true;
    if !lowering.setting.is_tried {
        lowering.refuse(Rule::Try, token);
    }
}

/// The same of what may throw or not.
pub(crate) fn want_try_where(lowering: &mut Lowering<'_>, is_throwing: bool, token: usize)
    ensures state { Becomes lowering.new (state_of lowering.old) }
    ensures refused { KeepsRefusal lowering.old lowering.new }
{
    if is_throwing {
        want_try(lowering, token);
    }
}

/// Waits, and gives what comes of it.
pub(crate) fn wait(lowering: &mut Lowering<'_>, what: Wait, kind: Kind) -> Typed
    ensures hoisted { IsNone lowering.new.refused → IsHoisted lowering.old lowering.new what result }
    ensures kind { result.kind ≡ kind }
    ensures waits { IsNone lowering.new.refused → Waits (state_of lowering.old) what kind (state_of lowering.new) result }
    ensures refused { KeepsRefusal lowering.old lowering.new }
{
    let otherwise = lowering.take_fault();
    if kind == Kind::Void {
        lowering.put(Instruction::Wait(Target::Nothing, what, otherwise));
        return with_kind(lowering, Value::Number(0), Kind::Void);
    }
    let variable = lowering.temporary();
    lowering.put(Instruction::Wait(Target::Declare(variable), what, otherwise));
    with_kind(lowering, Value::Variable(variable), kind)
}

/// The place of the field of an instance with the bytes of a token: of its actor's the first one. An executor has none.
pub(crate) fn field_of(lowering: &Lowering<'_>, instance: usize, token: usize) -> Option<usize>
    ensures found { IfSome result (IsFieldOf (state_of lowering.now) instance token) }
{
    let actor = actor_of(lowering, instance);
    if actor == NONE {
        return None;
    }
    field_named(lowering, actor, token)
}

/// A field of an instance.
pub(crate) fn getter(lowering: &mut Lowering<'_>, instance: usize, token: usize) -> Typed
    ensures reads { IsNone lowering.new.refused → ReadsOther (state_of lowering.old) instance token (state_of lowering.new) result }
    ensures refused { KeepsRefusal lowering.old lowering.new }
{
    let Some(field) = field_of(lowering, instance, token) else {
        return refused(lowering, Rule::UnknownName, token);
    };
    let Some(declared) = field_at(lowering, field) else {
        return refused(lowering, Rule::UnknownName, token);
    };
    if declared.access == Access::Private {
        return refused(lowering, Rule::Private, token);
    }
    let kind = field_kind(lowering, field);
    if declared.is_var {
        want_await(lowering, token);
        return wait(lowering, Wait::Getter(instance, field), kind);
    }
    match declared.start {
        FieldStart::Value(value) => {
            let (number, kind) = literal(lowering, value);
            with_kind(lowering, Value::Number(number), kind)
        }
        FieldStart::None => refused(lowering, Rule::NotYet, token),
    }
}

// What was made before may read its priority before it is raised by a wait: its turn comes first.
fn yield_before(lowering: &mut Lowering<'_>)
    ensures state { IsNone lowering.new.refused → (yields : Bool) × (state_of lowering.new ≡ yielding yields (state_of lowering.old)) }
    ensures refused { KeepsRefusal lowering.old lowering.new }
{
    let yields = lowering.setting.is_closure && reads_priority(lowering);
    yield_where(lowering, yields);
}

/// The turn ends here, where that is so.
pub(crate) fn yield_where(lowering: &mut Lowering<'_>, yields: bool)
    ensures state { Becomes lowering.new (yielding yields (state_of lowering.old)) }
    ensures refused { KeepsRefusal lowering.old lowering.new }
{
    if yields {
        lowering.put(Instruction::Yield);
    }
}

// Whether something in the file reads a priority.
fn reads_priority(lowering: &Lowering<'_>) -> bool {
    lowering
        .tree
        .exprs
        .iter()
        .any(|e| lowering.spells(e.token, "currentPriority"))
}

/// The value of the task at a place in scope.
pub(crate) fn task_value(lowering: &mut Lowering<'_>, place: usize, token: usize) -> Typed
    ensures names { (of : ℕ) → lowering.old.setting.is_expectation ≡ false → IsInnermost (state_of lowering.old) of place → IsNone lowering.new.refused → Names (state_of lowering.old) token (state_of lowering.new) result (ExprForm.Member of) }
    ensures refused { KeepsRefusal lowering.old lowering.new }
{
    let Some(found) = binding_at(lowering, place) else {
        return refused(lowering, Rule::UnknownName, token);
    };
    let Standing::Task = found.standing else {
        return refused(lowering, Rule::UnknownName, token);
    };
    if lowering.spells(token, "value") {
        want_await(lowering, token);
        want_try_where(lowering, found.is_throwing, token);
        mark_used(lowering, place);
        yield_before(lowering);
        return wait(lowering, Wait::Task(found.variable), found.kind);
    }
    refused(lowering, Rule::UnknownName, token)
}

/// What the one child of an `async let` gives.
pub(crate) fn next_child(
    lowering: &mut Lowering<'_>,
    place: usize,
    found: Binding,
    token: usize,
) -> Typed
    requires { slice_get lowering.old.scope.items place ≡ Some found }
    ensures means { IsInnermost (state_of lowering.old) token place → found.standing ≡ Standing.Child → IsNone lowering.new.refused → Means (state_of lowering.old) token (state_of lowering.new) result }
    ensures refused { KeepsRefusal lowering.old lowering.new }
{
    want_await(lowering, token);
    want_try_where(lowering, found.is_throwing, token);
    // It is an operand of what a `try?` or a `do` covers: it would take what stands for the value of that.
    let is_operand = !matches!(lowering.setting.fallback, Fallback::None);
    lowering.refuse_where(is_operand, Rule::NotYet, token);
    if found.is_used || found.loops != lowering.setting.loops {
        return refused(lowering, Rule::NotYet, token);
    }
    mark_used(lowering, place);
    let value = wait(lowering, Wait::Next(found.variable), found.kind);
    count_child(lowering, found);
    value
}

// Takes the child of an `async let` from its count, where it has one.
fn count_child(lowering: &mut Lowering<'_>, found: Binding)
    ensures state { Becomes lowering.new (counted_child found (state_of lowering.old)) }
    ensures refused { KeepsRefusal lowering.old lowering.new }
{
    if found.count != found.variable {
        count_down(lowering, found.count);
    }
}

/// Takes one from a group's count of children.
pub fn count_down(lowering: &mut Lowering<'_>, count: usize)
    ensures state { Becomes lowering.new (counted Operator.Minus count (state_of lowering.old)) }
    ensures refused { KeepsRefusal lowering.old lowering.new }
{
    count_by(lowering, count, Operator::Minus);
}

/// Adds one to a group's count of children.
pub fn count_up(lowering: &mut Lowering<'_>, count: usize)
    ensures state { Becomes lowering.new (counted Operator.Plus count (state_of lowering.old)) }
    ensures refused { KeepsRefusal lowering.old lowering.new }
{
    count_by(lowering, count, Operator::Plus);
}

fn count_by(lowering: &mut Lowering<'_>, count: usize, operator: Operator)
    ensures state { Becomes lowering.new (counted operator count (state_of lowering.old)) }
    ensures refused { KeepsRefusal lowering.old lowering.new }
{
    let before = lowering.value(Value::Variable(count));
    let one = lowering.number(1);
    let after = lowering.value(Value::Binary(operator, before, one));
    lowering.put(Instruction::Set(count, after));
}

/// Whether a group's count says that a child is left.
pub fn has_child(lowering: &mut Lowering<'_>, count: usize) -> usize
    ensures instructions { lowering.new.code.instructions ≡ lowering.old.code.instructions }
    ensures state { Becomes lowering.new (with_child_test count (state_of lowering.old)) }
    ensures place { IsNone lowering.new.refused → result ≡ child_test count (state_of lowering.old) }
    ensures refused { KeepsRefusal lowering.old lowering.new }
{
    let many = lowering.value(Value::Variable(count));
    let none = lowering.number(0);
    lowering.value(Value::Binary(Operator::Greater, many, none))
}

/// The next result of a group, or a fallback where no child is left.
pub(crate) fn group_next(lowering: &mut Lowering<'_>, place: usize, token: usize) -> Typed
    ensures calls { (given : Operands) (at : ℕ) → IsNone lowering.new.refused → Calls (state_of lowering.old) given at (state_of lowering.new) result (callees.Next place) }
    ensures refused { KeepsRefusal lowering.old lowering.new }
{
    let Some(found) = binding_at(lowering, place) else {
        return refused(lowering, Rule::UnknownName, token);
    };
    want_await(lowering, token);
    want_try_where(lowering, found.is_throwing, token);
    let Fallback::Nil(otherwise) = lowering.setting.fallback else {
        return refused(lowering, Rule::NotYet, token);
    };
    lowering.setting.fallback = Fallback::None;
    let is_left_out = found.is_partial || found.kind == Kind::Void;
    lowering.refuse_where(is_left_out, Rule::NotYet, token);
    let variable = lowering.temporary();
    lowering.put(Instruction::Let(variable, otherwise));
    let test = has_child(lowering, found.count);
    lowering.put(Instruction::If(test));
    let next = wait(lowering, Wait::Next(found.variable), found.kind);
    count_down(lowering, found.count);
    lowering.put(Instruction::Set(variable, next.value));
    lowering.put(Instruction::End);
    mark_used(lowering, place);
    with_kind(lowering, Value::Variable(variable), found.kind)
}

/// Takes all results that are left of a group.
pub(crate) fn wait_for_all(lowering: &mut Lowering<'_>, place: usize, token: usize) -> Typed
    ensures calls { (given : Operands) (at : ℕ) → IsNone lowering.new.refused → Calls (state_of lowering.old) given at (state_of lowering.new) result (callees.WaitForAll place) }
    ensures refused { KeepsRefusal lowering.old lowering.new }
{
    let Some(found) = binding_at(lowering, place) else {
        return refused(lowering, Rule::UnknownName, token);
    };
    want_await(lowering, token);
    want_try_where(lowering, found.is_throwing, token);
    lowering.refuse_where(found.is_partial, Rule::NotYet, token);
    let test = has_child(lowering, found.count);
    lowering.put(Instruction::While(test));
    lowering.put(Instruction::Wait(Target::Nothing, Wait::Next(found.variable), NONE));
    count_down(lowering, found.count);
    lowering.put(Instruction::End);
    mark_used(lowering, place);
    with_kind(lowering, Value::Number(0), Kind::Void)
}
