//! Statements with blocks.

ghost use Rattle.std.specs.Prelude.{◌≡◌, IsNone, length};
ghost use Rattle.swift_expressions.specs.Instructions.{KeepsRefusal};
ghost use Rattle.swift_expressions.specs.States.{Becomes, state_of};
ghost use Rattle.swift_lowering.specs.Groups.{GivesClosed};
ghost use Rattle.swift_lowering.specs.Blocks.{AttemptsAll, AttemptsBlock, CountsOn, Does, DoesAll, DoesBlock, DoesClosed, DoesElse, Encloses, LoopsOver, Repeats, Says, SaysClosed, StartsChild, open_guard};

use crate::alone::lone_value;
use crate::assignment::{begin_given, give};
use crate::catching::{
    begin_at_zero, begin_caught, caught_wait, lone_wait, open_caught, open_rest, set_flag,
};
use crate::closure::{
    ClosureBody, MadeClosure, begin_closure, direct, end_closure, give_lone, want_end,
};
use crate::effect::simple;
use crate::looping::{
    begin_count, close_while, done_where, end_where, name_counter, open_while, rest_where, test_of,
};
use crate::returns::{exits, has_rest, may_return};
use crate::tasks::{
    add_task, begin_bind, begin_child, begin_group, begin_result, begin_results, child_body,
    end_child, end_closed, enter_closure, give_result, make_task, result_of, task_body, want_cover,
};
use swift_expressions::{
    DEPTH, Instruction, Kind, Lowering, Value, count_up, expression, kind_of, leave,
};
use swift_syntax::{Into, Rule, Stmt, StmtForm, TaskForm, ValueType};

// A closure as the method of a task.
#[cycle(statement)]
fn closure(lowering: &mut Lowering<'_>, body: ClosureBody, depth: u32) -> MadeClosure
    ensures encloses { IsNone lowering.new.refused → Encloses (state_of lowering.old) body (state_of lowering.new) result.callee }
    ensures refused { KeepsRefusal lowering.old lowering.new }
{
    if let Some(found) = direct(lowering, body) {
        return found;
    }
    let begun = begin_closure(lowering, body);
    say(lowering, body, depth);
    end_closure(lowering, begun, body)
}

// What a closure says.
#[cycle(statement)]
fn say(lowering: &mut Lowering<'_>, body: ClosureBody, depth: u32)
    ensures says { IsNone lowering.new.refused → Says (state_of lowering.old) body (state_of lowering.new) }
    ensures refused { KeepsRefusal lowering.old lowering.new }
{
    if body.value == 0 {
        statements(lowering, body.first, depth);
        want_end(lowering, body);
    } else {
        give_lone(lowering, body.value);
    }
}

// A block, in which names of its own stand.
#[cycle(statement)]
fn block(lowering: &mut Lowering<'_>, first: usize, depth: u32)
    ensures block { IsNone lowering.new.refused → DoesBlock (state_of lowering.old) first (state_of lowering.new) }
    ensures refused { KeepsRefusal lowering.old lowering.new }
{
    let start = lowering.scope.len();
    let outer = lowering.setting.block_start;
    lowering.setting.block_start = start;
    lowering.setting.blocks = lowering.setting.blocks.saturating_add(1);
    statements(lowering, first, depth);
    lowering.setting.blocks = lowering.setting.blocks.saturating_sub(1);
    lowering.setting.block_start = outer;
    leave(lowering, start);
}

// What is done where a test does not hold, if there is such a block.
#[cycle(statement)]
fn otherwise(lowering: &mut Lowering<'_>, failed: usize, depth: u32)
    ensures other { IsNone lowering.new.refused → DoesElse (state_of lowering.old) failed (state_of lowering.new) }
    ensures refused { KeepsRefusal lowering.old lowering.new }
{
    if failed != 0 {
        lowering.put(Instruction::Else);
        block(lowering, failed, depth);
    }
}

#[cycle(statement)]
fn conditional(
    lowering: &mut Lowering<'_>,
    test: usize,
    held: usize,
    failed: usize,
    token: usize,
    depth: u32,
)
    ensures does { (stmt : Stmt) → stmt.form ≡ StmtForm.If test held failed → IsNone lowering.new.refused → Does (state_of lowering.old) stmt (state_of lowering.new) }
    ensures refused { KeepsRefusal lowering.old lowering.new }
{
    let test = test_of(lowering, test, token);
    lowering.put(Instruction::If(test));
    block(lowering, held, depth);
    otherwise(lowering, failed, depth);
    lowering.put(Instruction::End);
}

// A block in a loop.
#[cycle(statement)]
fn repeated(lowering: &mut Lowering<'_>, body: usize, depth: u32)
    ensures repeats { IsNone lowering.new.refused → Repeats (state_of lowering.old) body (state_of lowering.new) }
    ensures refused { KeepsRefusal lowering.old lowering.new }
{
    let returns = may_return(lowering, body);
    done_where(lowering, returns);
    let loops = lowering.setting.loops;
    lowering.setting.loops = loops.saturating_add(1);
    block(lowering, body, depth);
    lowering.setting.loops = loops;
}

// A `while`. A test that does something is done before the loop, and again at the end of its body.
#[cycle(statement)]
fn loop_while(lowering: &mut Lowering<'_>, test: usize, body: usize, token: usize, depth: u32)
    ensures does { (stmt : Stmt) → stmt.form ≡ StmtForm.While test body → IsNone lowering.new.refused → Does (state_of lowering.old) stmt (state_of lowering.new) }
    ensures refused { KeepsRefusal lowering.old lowering.new }
{
    let before = lowering.here();
    let first = test_of(lowering, test, token);
    // It is but a value; a comma makes more of it.
    if lowering.here() == before {
        lowering.put(Instruction::While(first));
        repeated(lowering, body, depth);
        lowering.put(Instruction::End);
        return;
    }
    let variable = open_while(lowering, first);
    repeated(lowering, body, depth);
    let returns = may_return(lowering, body);
    rest_where(lowering, returns);
    let again = test_of(lowering, test, token);
    let returns = may_return(lowering, body);
    close_while(lowering, variable, again, returns);
}

// A `for` over numbers.
#[cycle(statement)]
fn loop_for(lowering: &mut Lowering<'_>, counter: usize, body: usize, name: usize, depth: u32)
    ensures counts { IsNone lowering.new.refused → CountsOn (state_of lowering.old) name counter body (state_of lowering.new) }
    ensures refused { KeepsRefusal lowering.old lowering.new }
{
    let start = lowering.scope.len();
    name_counter(lowering, counter, name);
    repeated(lowering, body, depth);
    count_up(lowering, counter);
    lowering.put(Instruction::End);
    leave(lowering, start);
}

// What a group's or a binding's block says: its one value goes to its variable.
#[cycle(statement)]
fn say_closed(lowering: &mut Lowering<'_>, first: usize, depth: u32)
    ensures says { IsNone lowering.new.refused → SaysClosed (state_of lowering.old) first (state_of lowering.new) }
    ensures refused { KeepsRefusal lowering.old lowering.new }
{
    let lone = lone_value(lowering, first);
    if lone == 0 {
        block(lowering, first, depth);
        return;
    }
    let found = expression(lowering, lone);
    give_result(lowering, found);
}

// A group's or a binding's block, whose value goes to a variable. The type of that.
#[cycle(statement)]
fn closure_block(
    lowering: &mut Lowering<'_>,
    first: usize,
    variable: usize,
    depth: u32,
) -> Option<Kind>
    ensures closed { IsNone lowering.new.refused → DoesClosed (state_of lowering.old) first variable (state_of lowering.new) }
    ensures refused { KeepsRefusal lowering.old lowering.new }
{
    let outer = lowering.setting;
    enter_closure(lowering, variable);
    say_closed(lowering, first, depth);
    let kind = lowering.setting.result;
    let has_thrown = lowering.setting.has_thrown;
    lowering.setting = outer;
    lowering.setting.has_thrown = has_thrown;
    kind
}

// Gives what a closure gave to where it goes.
fn give_closed(
    lowering: &mut Lowering<'_>,
    stmt: Stmt,
    into: Into,
    variable: usize,
    kind: Option<Kind>,
)
    ensures gives { IsNone lowering.new.refused → GivesClosed (state_of lowering.old) into variable (state_of lowering.new) }
    ensures refused { KeepsRefusal lowering.old lowering.new }
{
    let Some(found) = result_of(lowering, variable, kind, stmt.token) else {
        return;
    };
    give(lowering, into, found, stmt);
}

// A group.
#[cycle(statement)]
fn grouped(
    lowering: &mut Lowering<'_>,
    stmt: Stmt,
    into: Into,
    of: ValueType,
    is_throwing: bool,
    body: usize,
    depth: u32,
)
    ensures does { stmt.form ≡ StmtForm.Group into of is_throwing body → IsNone lowering.new.refused → Does (state_of lowering.old) stmt (state_of lowering.new) }
    ensures refused { KeepsRefusal lowering.old lowering.new }
{
    let start = lowering.scope.len();
    let outer = lowering.setting;
    want_cover(lowering, stmt, is_throwing);
    let variable = begin_result(lowering, into);
    begin_group(lowering, stmt, kind_of(of), is_throwing);
    lowering.setting.is_throwing = is_throwing;
    let kind = closure_block(lowering, body, variable, depth);
    end_closed(lowering, outer, start);
    give_closed(lowering, stmt, into, variable, kind);
}

// A task local that is bound.
#[cycle(statement)]
fn bound(
    lowering: &mut Lowering<'_>,
    stmt: Stmt,
    into: Into,
    of: usize,
    given: usize,
    body: usize,
    depth: u32,
)
    ensures does { stmt.form ≡ StmtForm.Bind into of given body → IsNone lowering.new.refused → Does (state_of lowering.old) stmt (state_of lowering.new) }
    ensures refused { KeepsRefusal lowering.old lowering.new }
{
    let start = lowering.scope.len();
    let outer = lowering.setting;
    let variable = begin_result(lowering, into);
    begin_bind(lowering, of, stmt.token, given);
    lowering.setting.is_throwing = outer.is_throwing && stmt.is_tried;
    lowering.setting.is_async = outer.is_async && stmt.is_awaited;
    let kind = closure_block(lowering, body, variable, depth);
    end_closed(lowering, outer, start);
    give_closed(lowering, stmt, into, variable, kind);
}

// What is done where the test of a `guard` does not hold begins here.
fn open_guard(lowering: &mut Lowering<'_>, test: usize)
    ensures state { Becomes lowering.new (open_guard test (state_of lowering.old)) }
    ensures refused { KeepsRefusal lowering.old lowering.new }
{
    let failed = lowering.value(Value::Not(test));
    lowering.put(Instruction::If(failed));
}

// A `guard`.
#[cycle(statement)]
fn guarded(lowering: &mut Lowering<'_>, test: usize, body: usize, token: usize, depth: u32)
    ensures does { (stmt : Stmt) → stmt.form ≡ StmtForm.Guard test body → IsNone lowering.new.refused → Does (state_of lowering.old) stmt (state_of lowering.new) }
    ensures refused { KeepsRefusal lowering.old lowering.new }
{
    let exits = exits(lowering, body);
    lowering.refuse_where(!exits, Rule::NoReturn, token);
    let held = test_of(lowering, test, token);
    open_guard(lowering, held);
    block(lowering, body, depth);
    lowering.put(Instruction::End);
}

// A loop over the results of a group.
#[cycle(statement)]
fn loop_results(
    lowering: &mut Lowering<'_>,
    name: usize,
    group: usize,
    is_tried: bool,
    body: usize,
    depth: u32,
)
    ensures results { IsNone lowering.new.refused → LoopsOver (state_of lowering.old) group name body (state_of lowering.new) }
    ensures refused { KeepsRefusal lowering.old lowering.new }
{
    let start = lowering.scope.len();
    begin_results(lowering, name, group, is_tried);
    repeated(lowering, body, depth);
    lowering.put(Instruction::End);
    leave(lowering, start);
}

// A task.
#[cycle(statement)]
fn task(lowering: &mut Lowering<'_>, stmt: Stmt, name: usize, form: TaskForm, depth: u32)
    ensures makes { stmt.form ≡ StmtForm.Task name form → IsNone lowering.new.refused → Does (state_of lowering.old) stmt (state_of lowering.new) }
    ensures refused { KeepsRefusal lowering.old lowering.new }
{
    let body = task_body(lowering, stmt, form, false);
    let made = closure(lowering, body, depth);
    make_task(lowering, stmt, name, form, made);
}

// A child of a group.
#[cycle(statement)]
fn group_child(lowering: &mut Lowering<'_>, stmt: Stmt, is_only: bool, form: TaskForm, depth: u32)
    ensures adds { stmt.form ≡ StmtForm.AddTask is_only form → IsNone lowering.new.refused → Does (state_of lowering.old) stmt (state_of lowering.new) }
    ensures refused { KeepsRefusal lowering.old lowering.new }
{
    let body = task_body(lowering, stmt, form, true);
    let made = closure(lowering, body, depth);
    add_task(lowering, stmt, is_only, form, made);
}

// A `do`. Where it has more than one statement, a variable says whether a fault was caught.
#[cycle(statement)]
fn do_catch(lowering: &mut Lowering<'_>, body: usize, caught: usize, token: usize, depth: u32)
    ensures does { (stmt : Stmt) → stmt.form ≡ StmtForm.DoCatch body caught → stmt.token ≡ token → IsNone lowering.new.refused → Does (state_of lowering.old) stmt (state_of lowering.new) }
    ensures refused { KeepsRefusal lowering.old lowering.new }
{
    if let Some((stmt, place)) = lone_wait(lowering, body) {
        let found = begin_caught(lowering, place, token);
        block(lowering, caught, depth);
        begin_given(lowering, found, stmt);
        lowering.put(Instruction::End);
        return;
    }
    let flag = begin_at_zero(lowering);
    do_block(lowering, body, flag, token, depth);
    open_caught(lowering, flag);
    block(lowering, caught, depth);
    lowering.put(Instruction::End);
}

// The block of a `do`, in which names of its own stand. What it throws is caught, so it stands in a unit that does not throw.
#[cycle(statement)]
fn do_block(lowering: &mut Lowering<'_>, first: usize, flag: usize, token: usize, depth: u32)
    ensures attempts { IsNone lowering.new.refused → AttemptsBlock (state_of lowering.old) flag token first (state_of lowering.new) }
    ensures refused { KeepsRefusal lowering.old lowering.new }
{
    let start = lowering.scope.len();
    let outer = lowering.setting;
    lowering.setting.block_start = start;
    lowering.setting.blocks = outer.blocks.saturating_add(1);
    lowering.setting.is_throwing = false;
    lowering.setting.catching = token;
    do_statements(lowering, first, flag, token, depth);
    lowering.setting.catching = outer.catching;
    lowering.setting.is_throwing = outer.is_throwing;
    lowering.setting.blocks = outer.blocks;
    lowering.setting.block_start = outer.block_start;
    leave(lowering, start);
}

// The statements of a `do` from a place on. What follows one whose fault is caught is done where there was none.
#[cycle(statement)]
fn do_statements(lowering: &mut Lowering<'_>, first: usize, flag: usize, token: usize, depth: u32)
    ensures attempts { IsNone lowering.new.refused → AttemptsAll (length lowering.old.tree.now.value.stmts.items) (state_of lowering.old) flag token first (state_of lowering.new) }
    ensures refused { KeepsRefusal lowering.old lowering.new }
{
    if depth == 0 {
        lowering.refuse(Rule::TooLarge, token);
        return;
    }
    let within = depth - 1;
    let mut place = first;
    for _ in 0..lowering.tree.stmts.len() {
        let Some(stmt) = lowering.stmt(place) else {
            return;
        };
        place = stmt.next;
        if let Some(awaited) = caught_wait(lowering, stmt) {
            let found = begin_caught(lowering, awaited, token);
            set_flag(lowering, flag);
            begin_given(lowering, found, stmt);
            let is_early = has_rest(lowering, stmt);
            open_rest(lowering, is_early);
            do_statements(lowering, place, flag, token, within);
            end_where(lowering, is_early);
            lowering.put(Instruction::End);
            return;
        }
        let is_child = matches!(stmt.form, StmtForm::AsyncLet(..));
        lowering.refuse_where(is_child, Rule::NotYet, token);
        statement(lowering, stmt, within);
        if has_rest(lowering, stmt) {
            open_rest(lowering, true);
            do_statements(lowering, place, flag, token, within);
            lowering.put(Instruction::End);
            return;
        }
    }
}

// A statement that is no `async let`.
#[cycle(statement)]
fn statement(lowering: &mut Lowering<'_>, stmt: Stmt, depth: u32)
    ensures does { IsNone lowering.new.refused → Does (state_of lowering.old) stmt (state_of lowering.new) }
    ensures refused { KeepsRefusal lowering.old lowering.new }
{
    let token = stmt.token;
    match stmt.form {
        StmtForm::If(test, held, failed) => {
            conditional(lowering, test, held, failed, token, depth);
        }
        StmtForm::Guard(test, body) => guarded(lowering, test, body, token, depth),
        StmtForm::While(test, body) => loop_while(lowering, test, body, token, depth),
        StmtForm::For(from, to, is_closed, body) => {
            let counter = begin_count(lowering, from, to, is_closed, token);
            loop_for(lowering, counter, body, token, depth);
        }
        StmtForm::ForAwait(group, is_tried, body) | StmtForm::WhileNext(group, is_tried, body) => {
            loop_results(lowering, token, group, is_tried, body, depth);
        }
        StmtForm::Task(name, form) => task(lowering, stmt, name, form, depth),
        StmtForm::AddTask(is_only, form) => group_child(lowering, stmt, is_only, form, depth),
        StmtForm::Group(into, of, is_throwing, body) => {
            grouped(lowering, stmt, into, of, is_throwing, body, depth);
        }
        StmtForm::Bind(into, of, given, body) => {
            bound(lowering, stmt, into, of, given, body, depth);
        }
        StmtForm::DoCatch(body, caught) => do_catch(lowering, body, caught, token, depth),
        _ => simple(lowering, stmt),
    }
}

// Refuses a child that gives another type than is wanted.
fn want_made(
    lowering: &mut Lowering<'_>,
    made: MadeClosure,
    wanted: Option<ValueType>,
    token: usize,
)
    ensures state { Becomes lowering.new (state_of lowering.old) }
    ensures refused { KeepsRefusal lowering.old lowering.new }
{
    if let Some(wanted) = wanted {
        if made.kind != kind_of(wanted) {
            lowering.refuse(Rule::WrongType, token);
        }
    }
}

// The child of an `async let`, in whose group the rest of its block stands. Its variable, and that of its count.
#[cycle(statement)]
fn child(
    lowering: &mut Lowering<'_>,
    stmt: Stmt,
    wanted: Option<ValueType>,
    given: usize,
    depth: u32,
) -> (usize, usize)
    ensures starts { IsNone lowering.new.refused → StartsChild (state_of lowering.old) stmt given result.0 result.1 (state_of lowering.new) }
    ensures refused { KeepsRefusal lowering.old lowering.new }
{
    let is_async = lowering.setting.is_async;
    lowering.refuse_where(!is_async, Rule::Await, stmt.token);
    let made = closure(lowering, child_body(stmt, given), depth);
    want_made(lowering, made, wanted, stmt.token);
    begin_child(lowering, stmt, made)
}

// The statements of a block from a place on. What follows an `async let` stands in its group, and what follows something that may return
// is done where it did not.
#[cycle(statement)]
fn statements(lowering: &mut Lowering<'_>, first: usize, depth: u32)
    ensures does { IsNone lowering.new.refused → DoesAll (length lowering.old.tree.now.value.stmts.items) (state_of lowering.old) first (state_of lowering.new) }
    ensures refused { KeepsRefusal lowering.old lowering.new }
{
    if depth == 0 {
        lowering.refuse(Rule::TooLarge, 0);
        return;
    }
    let mut place = first;
    for _ in 0..lowering.tree.stmts.len() {
        let Some(stmt) = lowering.stmt(place) else {
            return;
        };
        place = stmt.next;
        if let StmtForm::AsyncLet(wanted, given) = stmt.form {
            let (variable, count) = child(lowering, stmt, wanted, given, depth - 1);
            statements(lowering, place, depth - 1);
            end_child(lowering, variable, count);
            return;
        }
        statement(lowering, stmt, depth - 1);
        if has_rest(lowering, stmt) {
            lowering.need_done();
            lowering.put(Instruction::Rest);
            statements(lowering, place, depth - 1);
            lowering.put(Instruction::End);
            return;
        }
    }
}

/// The statements of a body.
pub(crate) fn body_statements(lowering: &mut Lowering<'_>, first: usize)
    ensures does { IsNone lowering.new.refused → DoesAll (length lowering.old.tree.now.value.stmts.items) (state_of lowering.old) first (state_of lowering.new) }
    ensures refused { KeepsRefusal lowering.old lowering.new }
{
    statements(lowering, first, DEPTH);
}
