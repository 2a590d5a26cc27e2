//! Tasks, groups and bindings, beside their closures.

ghost use Rattle.std.specs.Prelude.{◌≡◌, ℕ, IfNone, IfSome, IsNone, IsSome};
ghost use Rattle.swift_expressions.specs.Instructions.{KeepsRefusal};
ghost use Rattle.swift_expressions.specs.States.{Becomes, Gives, left_to, next_variable, put, state_of};
ghost use Rattle.swift_expressions.specs.Lowered.{yielding};
ghost use Rattle.swift_lowering.specs.Blocks.{AddsTask, BeginsChild, EndsChild, IsGroupAt, IsNext, IsUrgency, MakesTask, TakesResults, child_begun, child_count, counted_in, open_results, with_child_count};
ghost use Rattle.swift_lowering.specs.Closures.{IsOfChild, IsOfTask};
ghost use Rattle.swift_lowering.specs.Groups.{BeginsBind, BeginsGroup, entered, result_variable, with_result};
ghost use Rattle.swift_lowering.specs.Returning.{leaves_early};
ghost use Rattle.swift_lowering.specs.EndsInside.{EndsCancelled};
ghost use Rattle.swift_lowering.specs.Statements.{result_given, result_set};

use crate::alone::lone_value;
use crate::catching::begin_at_zero;
use crate::closure::{ClosureBody, MadeClosure};
use crate::returns::leaves_early;
use swift_expressions::{
    Binding, Instruction, Kind, Lowering, NONE, Returns, Setting, Standing, Target, Typed, Value,
    Wait, binding_at, count_down, count_up, declare, declare_as, expression, find, has_child,
    leave, local_kind, local_named, mark_partial, mark_used, priority_named, refuse_hidden, want,
    with_kind,
};
use swift_syntax::{Into, Rule, Stmt, TaskForm};
use swift_types::Priority;

/// The closure of a task.
pub(crate) fn task_body(
    lowering: &Lowering<'_>,
    stmt: Stmt,
    form: TaskForm,
    is_among_others: bool,
) -> ClosureBody
    ensures { IsOfTask (state_of lowering.now) stmt form result }
{
    ClosureBody {
        first: form.body,
        value: lone_value(lowering, form.body),
        captures: form.captures,
        from: stmt.token.saturating_add(1),
        to: stmt.end,
        is_implicit: false,
        may_throw: true,
        is_among_others,
    }
}

/// The value of an `async let` as a closure.
pub(crate) fn child_body(stmt: Stmt, value: usize) -> ClosureBody
    ensures { IsOfChild stmt value result }
{
    ClosureBody {
        first: 0,
        value,
        captures: 0,
        from: stmt.token.saturating_add(1),
        to: stmt.end,
        is_implicit: true,
        may_throw: true,
        is_among_others: false,
    }
}

// The priority that a token names; none where the token is 0.
fn priority(lowering: &mut Lowering<'_>, token: usize) -> Option<Priority>
    ensures urgent { IsNone lowering.new.refused → IsUrgency (state_of lowering.old) token result }
    ensures state { Becomes lowering.new (state_of lowering.old) }
    ensures refused { KeepsRefusal lowering.old lowering.new }
{
    if token == 0 {
        None
    } else {
        Some(priority_named(lowering, token))
    }
}

/// Makes a task.
pub(crate) fn make_task(
    lowering: &mut Lowering<'_>,
    stmt: Stmt,
    name: usize,
    form: TaskForm,
    made: MadeClosure,
)
    ensures makes { IsNone lowering.new.refused → MakesTask (state_of lowering.old) name form made.callee (state_of lowering.new) }
    ensures refused { KeepsRefusal lowering.old lowering.new }
{
    lowering.refuse_where(name == 0, Rule::TaskLeft, stmt.token);
    let variable = lowering.variable(name, false);
    let urgency = priority(lowering, form.priority);
    lowering.put(Instruction::Make(variable, form.is_detached, made.callee, urgency));
    declare_as(
        lowering,
        name,
        Standing::Task,
        variable,
        made.kind,
        made.is_throwing,
        variable,
    );
}

/// The group in scope with the name of a token; refuses another name.
pub(crate) fn group_named(lowering: &mut Lowering<'_>, token: usize) -> Option<(usize, Binding)>
    ensures found { IfSome result (λ r. IsGroupAt (state_of lowering.old) token r.0 r.1) }
    ensures unknown { IfNone result (IsSome lowering.new.refused) }
    ensures state { Becomes lowering.new (state_of lowering.old) }
    ensures refused { KeepsRefusal lowering.old lowering.new }
{
    let Some(place) = find(lowering, token) else {
        lowering.refuse(Rule::UnknownName, token);
        return None;
    };
    let Some(found) = binding_at(lowering, place) else {
        lowering.refuse(Rule::UnknownName, token);
        return None;
    };
    let Standing::Group = found.standing else {
        lowering.refuse(Rule::WrongType, token);
        return None;
    };
    Some((place, found))
}

// Refuses a child that gives or throws what its group does not. Of a group of nothing the value of a child is let go.
fn want_child(lowering: &mut Lowering<'_>, made: MadeClosure, group: Binding, token: usize)
    ensures state { Becomes lowering.new (state_of lowering.old) }
    ensures refused { KeepsRefusal lowering.old lowering.new }
{
    let is_given = group.kind == Kind::Void || made.kind == group.kind;
    lowering.refuse_where(!is_given, Rule::WrongType, token);
    let is_thrown = !made.is_throwing || group.is_throwing;
    lowering.refuse_where(!is_thrown, Rule::Try, token);
}

// A child that may be left out may be missing from its group, of which no result was taken so far; any other is counted.
fn count_in(lowering: &mut Lowering<'_>, is_only: bool, place: usize, group: Binding, token: usize)
    ensures state { Becomes lowering.new (counted_in is_only place group (state_of lowering.old)) }
    ensures refused { KeepsRefusal lowering.old lowering.new }
{
    if is_only {
        lowering.refuse_where(group.is_used, Rule::NotYet, token);
        mark_partial(lowering, place);
    } else {
        count_up(lowering, group.count);
    }
}

/// Adds a child to a group.
pub(crate) fn add_task(
    lowering: &mut Lowering<'_>,
    stmt: Stmt,
    is_only: bool,
    form: TaskForm,
    made: MadeClosure,
)
    ensures adds { IsNone lowering.new.refused → AddsTask (state_of lowering.old) stmt.token is_only made.callee (state_of lowering.new) }
    ensures refused { KeepsRefusal lowering.old lowering.new }
{
    let Some((place, group)) = group_named(lowering, stmt.token) else {
        return;
    };
    want_child(lowering, made, group, stmt.token);
    // In Swift it has no effect: a child has its owner's.
    priority(lowering, form.priority);
    lowering.put(Instruction::Add(group.variable, is_only, made.callee, None));
    count_in(lowering, is_only, place, group, stmt.token);
}

// A variable that says whether the child of an `async let` is left, where its scope may be left before that is awaited; else the child's.
fn count_child(lowering: &mut Lowering<'_>, is_left_early: bool, variable: usize) -> usize
    ensures state { Becomes lowering.new (with_child_count is_left_early (state_of lowering.old)) }
    ensures place { IsNone lowering.new.refused → result ≡ child_count is_left_early variable (state_of lowering.old) }
    ensures refused { KeepsRefusal lowering.old lowering.new }
{
    if is_left_early {
        let count = lowering.temporary();
        let one = lowering.number(1);
        lowering.put(Instruction::Let(count, one));
        count
    } else {
        variable
    }
}

/// Begins the group of an `async let`. Its variable, and one that counts the child where its scope may be left before that is awaited; else
/// the same.
pub(crate) fn begin_child(
    lowering: &mut Lowering<'_>,
    stmt: Stmt,
    made: MadeClosure,
) -> (usize, usize)
    ensures begins { IsNone lowering.new.refused → BeginsChild (state_of lowering.old) stmt.token (leaves_early (state_of lowering.old) stmt.next) made.callee result.0 result.1 (state_of lowering.new) }
    ensures refused { KeepsRefusal lowering.old lowering.new }
{
    let is_left_early = leaves_early(lowering, stmt.next);
    let variable = lowering.variable(stmt.token, false);
    let count = count_child(lowering, is_left_early, variable);
    lowering.put(Instruction::Group(variable));
    lowering.put(Instruction::Add(variable, false, made.callee, None));
    declare_as(
        lowering,
        stmt.token,
        Standing::Child,
        variable,
        made.kind,
        made.is_throwing,
        count,
    );
    lowering.setting.groups = lowering.setting.groups.saturating_add(1);
    (variable, count)
}

// Whether the child of a variable is awaited somewhere.
fn is_awaited(lowering: &Lowering<'_>, variable: usize) -> bool {
    lowering
        .scope
        .iter()
        .any(|b| b.variable == variable && b.is_used)
}

// The turn ends here, where that is so.
fn yield_where(lowering: &mut Lowering<'_>, yields: bool)
    ensures state { Becomes lowering.new (yielding yields (state_of lowering.old)) }
    ensures refused { KeepsRefusal lowering.old lowering.new }
{
    if yields {
        lowering.put(Instruction::Yield);
    }
}

// A child that nobody has awaited is waited for at the end of its scope, and may begin before it is cancelled.
fn begin_unawaited(lowering: &mut Lowering<'_>, is_left: bool, variable: usize, count: usize)
    ensures state { Becomes lowering.new (child_begun is_left variable count (state_of lowering.old)) }
    ensures refused { KeepsRefusal lowering.old lowering.new }
{
    if count == variable {
        yield_where(lowering, is_left);
    } else {
        let test = has_child(lowering, count);
        lowering.put(Instruction::If(test));
        lowering.put(Instruction::Yield);
        lowering.put(Instruction::End);
    }
}

/// Ends the group of an `async let`: what is left of it is cancelled and waited for.
pub(crate) fn end_child(lowering: &mut Lowering<'_>, variable: usize, count: usize)
    ensures cancelled { IsNone lowering.new.refused → EndsCancelled lowering.new.code variable }
    ensures ends { IsNone lowering.new.refused → EndsChild (state_of lowering.old) variable count (state_of lowering.new) }
    ensures refused { KeepsRefusal lowering.old lowering.new }
{
    let is_left = !is_awaited(lowering, variable);
    begin_unawaited(lowering, is_left, variable, count);
    lowering.put(Instruction::Cancel(variable));
    lowering.put(Instruction::End);
    lowering.setting.groups = lowering.setting.groups.saturating_sub(1);
}

/// A variable for what a closure gives, where that goes somewhere; else `NONE`.
pub(crate) fn begin_result(lowering: &mut Lowering<'_>, into: Into) -> usize
    ensures state { Becomes lowering.new (with_result into (state_of lowering.old)) }
    ensures variable { result ≡ result_variable into (state_of lowering.old) }
    ensures refused { KeepsRefusal lowering.old lowering.new }
{
    match into {
        Into::Nothing => NONE,
        Into::Let(..) | Into::Var(..) | Into::Assign(_) | Into::Return => begin_at_zero(lowering),
    }
}

/// Begins a closure that stands in its unit: what returns from it goes to a variable.
pub(crate) fn enter_closure(lowering: &mut Lowering<'_>, variable: usize)
    ensures enters { (blocks : ℕ) × Becomes lowering.new (entered variable blocks (state_of lowering.old)) }
    ensures refused { KeepsRefusal lowering.old lowering.new }
{
    let blocks = lowering.setting.blocks.saturating_add(1);
    lowering.setting.returns = Returns::Closure(variable, blocks);
    lowering.setting.result = None;
    lowering.setting.is_awaited = false;
    lowering.setting.is_tried = false;
}

/// Gives a closure's value to where it goes.
pub(crate) fn give_result(lowering: &mut Lowering<'_>, found: Typed)
    ensures state { Becomes lowering.new (result_given lowering.old.setting.returns found (state_of lowering.old)) }
    ensures refused { KeepsRefusal lowering.old lowering.new }
{
    if let Returns::Closure(variable, _) = lowering.setting.returns {
        set_result(lowering, variable, found);
        lowering.setting.result = Some(found.kind);
    }
}

// A value goes to a closure's variable, where it has one.
fn set_result(lowering: &mut Lowering<'_>, variable: usize, found: Typed)
    ensures state { Becomes lowering.new (result_set variable found.kind found.value (state_of lowering.old)) }
    ensures refused { KeepsRefusal lowering.old lowering.new }
{
    match found.kind {
        Kind::Void => {}
        Kind::Int | Kind::Bool | Kind::Urgency => {
            if variable != NONE {
                lowering.put(Instruction::Set(variable, found.value));
            }
        }
    }
}

/// A closure that stands in its unit ends, with the names from a place on. What held around it holds again.
pub(crate) fn end_closed(lowering: &mut Lowering<'_>, outer: Setting, start: usize)
    ensures state { Becomes lowering.new (left_to start (put Instruction.End (state_of lowering.old))) }
    ensures refused { KeepsRefusal lowering.old lowering.new }
{
    lowering.setting.is_throwing = outer.is_throwing;
    lowering.setting.is_async = outer.is_async;
    lowering.put(Instruction::End);
    leave(lowering, start);
}

/// What a closure gave.
pub(crate) fn result_of(
    lowering: &mut Lowering<'_>,
    variable: usize,
    kind: Option<Kind>,
    token: usize,
) -> Option<Typed>
    ensures given { IfSome result (λ found. IsNone lowering.new.refused → Gives (state_of lowering.old) (Value.Variable variable) found.kind (state_of lowering.new) found) }
    ensures nowhere { IfNone result (IsNone lowering.new.refused → (variable ≡ NONE) × (state_of lowering.new ≡ state_of lowering.old)) }
    ensures refused { KeepsRefusal lowering.old lowering.new }
{
    if variable == NONE {
        return None;
    }
    match kind {
        Some(Kind::Void) | None => {
            lowering.refuse(Rule::WrongType, token);
            None
        }
        Some(kind) => Some(with_kind(lowering, Value::Variable(variable), kind)),
    }
}

/// Begins a group.
pub(crate) fn begin_group(lowering: &mut Lowering<'_>, stmt: Stmt, kind: Kind, is_throwing: bool)
    ensures begins { IsNone lowering.new.refused → BeginsGroup (state_of lowering.old) stmt.token kind (state_of lowering.new) }
    ensures refused { KeepsRefusal lowering.old lowering.new }
{
    let variable = lowering.variable(stmt.token, false);
    lowering.put(Instruction::Group(variable));
    let count = begin_at_zero(lowering);
    declare_as(
        lowering,
        stmt.token,
        Standing::Group,
        variable,
        kind,
        is_throwing,
        count,
    );
}

/// Binds a task local.
pub(crate) fn begin_bind(lowering: &mut Lowering<'_>, of: usize, name: usize, given: usize)
    ensures begins { IsNone lowering.new.refused → BeginsBind (state_of lowering.old) of name given (state_of lowering.new) }
    ensures refused { KeepsRefusal lowering.old lowering.new }
{
    let found = expression(lowering, given);
    let Some(local) = local_named(lowering, of, name) else {
        lowering.refuse(Rule::UnknownName, name);
        return;
    };
    refuse_hidden(lowering, of);
    let kind = local_kind(lowering, local);
    want(lowering, found, kind, name);
    lowering.put(Instruction::Bind(local, found.value));
}

// Refuses a loop over the results of a group that may lack a child, or that is not covered.
fn want_results(lowering: &mut Lowering<'_>, found: Binding, group: usize, is_tried: bool)
    ensures state { Becomes lowering.new (state_of lowering.old) }
    ensures refused { KeepsRefusal lowering.old lowering.new }
{
    let is_kept = !found.is_partial && lowering.setting.is_async;
    lowering.refuse_where(!is_kept, Rule::NotYet, group);
    lowering.setting.has_thrown = lowering.setting.has_thrown || is_tried;
    let is_covered = !found.is_throwing || (is_tried && lowering.setting.is_throwing);
    lowering.refuse_where(!is_covered, Rule::Try, group);
}

// A loop begins, while a group's count says that a child is left.
fn open_results(lowering: &mut Lowering<'_>, found: Binding)
    ensures state { Becomes lowering.new (open_results found (state_of lowering.old)) }
    ensures refused { KeepsRefusal lowering.old lowering.new }
{
    let test = has_child(lowering, found.count);
    lowering.put(Instruction::While(test));
}

// The next result of a group goes to a variable, with the name of a token or without one where that is 0. The place of the variable.
fn next_result(lowering: &mut Lowering<'_>, found: Binding, name: usize) -> usize
    ensures next { IsNone lowering.new.refused → IsNext (state_of lowering.old) found name (state_of lowering.new) }
    ensures place { result ≡ next_variable (state_of lowering.old) }
    ensures refused { KeepsRefusal lowering.old lowering.new }
{
    let variable = lowering.variable(name, false);
    let target = Target::Declare(variable);
    lowering.put(Instruction::Wait(target, Wait::Next(found.variable), NONE));
    count_down(lowering, found.count);
    variable
}

/// Begins a loop over the results of a group, with the name of each.
pub(crate) fn begin_results(lowering: &mut Lowering<'_>, name: usize, group: usize, is_tried: bool)
    ensures takes { IsNone lowering.new.refused → TakesResults (state_of lowering.old) group name (state_of lowering.new) }
    ensures refused { KeepsRefusal lowering.old lowering.new }
{
    let Some((place, found)) = group_named(lowering, group) else {
        return;
    };
    want_results(lowering, found, group, is_tried);
    mark_used(lowering, place);
    open_results(lowering, found);
    if found.kind == Kind::Void {
        lowering.put(Instruction::Wait(Target::Nothing, Wait::Next(found.variable), NONE));
        count_down(lowering, found.count);
        return;
    }
    if lowering.spells(name, "_") {
        next_result(lowering, found, 0);
        return;
    }
    let variable = next_result(lowering, found, name);
    declare(lowering, name, variable, found.kind, false);
}

/// Refuses a group or a binding without `await`, or with `try` missing.
pub(crate) fn want_cover(lowering: &mut Lowering<'_>, stmt: Stmt, is_throwing: bool)
    ensures state { Becomes lowering.new (state_of lowering.old) }
    ensures refused { KeepsRefusal lowering.old lowering.new }
{
    if stmt.is_tried {
        lowering.setting.has_thrown = true;
    }
    if !stmt.is_awaited || !lowering.setting.is_async {
        lowering.refuse(Rule::Await, stmt.token);
    }
    if is_throwing && (!stmt.is_tried || !lowering.setting.is_throwing) {
        lowering.refuse(Rule::Try, stmt.token);
    }
}
