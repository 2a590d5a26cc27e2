//! Statements and blocks.

use crate::call::{
    is_kept, keep_arguments, say_add, say_awaited, say_awaited_later, say_make, say_task,
};
use crate::expression::{may_throw, say_number, say_test, say_tried};
use crate::flow::{Use, ends, ends_at, returns, uses, uses_in_closure};
use crate::page::SwiftPage;
use crate::prelude::Difference;
use crate::scope::{Handle, MethodScope, find_actor, is_together};
use crate::words::{is_same, say_member, say_type, say_value};
use script_grammar::{Action, Expr, Head, Make, Name, Stmt, Value, Wait};

// What becomes of what is waited for.
#[derive(Clone, Copy)]
enum AssignTarget<'a> {
    None,
    New(&'a Name),
    Known(&'a Name),
}

/// The end of a turn, where an invariant is tested there.
pub(crate) fn say_turn_end(page: &mut SwiftPage, scope: &MethodScope<'_>) {
    match scope.is_checked {
        true => page.line("turnEnds()"),
        false => {}
    }
}

// A field or a variable that is set.
fn say_target(page: &mut SwiftPage, scope: &MethodScope<'_>, name: &Name) {
    if scope.is_assumed(name) {
        page.say("other.");
    }
    say_value(page, name)
}

// A variable that is made: `var` where it is set again.
fn say_new(page: &mut SwiftPage, scope: &MethodScope<'_>, name: &Name) {
    page.say(if scope.is_used(Use::Set, name) {
        "var "
    } else {
        "let "
    });
    say_value(page, name)
}

// A value that is let go. It may be a fault.
fn say_unread(page: &mut SwiftPage, scope: &MethodScope<'_>, value: &Expr) {
    page.begin();
    page.say("_ = ");
    say_number(page, scope, value);
    page.end("")
}

fn say_new_number(page: &mut SwiftPage, scope: &MethodScope<'_>, name: &Name, value: &Expr) {
    page.begin();
    say_new(page, scope, name);
    page.say(": Int64 = ");
    say_number(page, scope, value);
    page.end("")
}

// A `let`. A variable that is never read is not made.
fn say_let<'a>(
    page: &mut SwiftPage,
    scope: &mut MethodScope<'a>,
    name: &'a Name,
    value: &'a Value,
) {
    let is_read = scope.is_used(Use::Read, name);
    match value {
        Value::Expr(value) if is_read => say_new_number(page, scope, name, value),
        Value::Expr(value) => say_unread(page, scope, value),
        Value::Await(wait) if is_read => say_wait(page, scope, AssignTarget::New(name), wait),
        Value::Await(wait) => say_wait(page, scope, AssignTarget::None, wait),
    }
    if !is_read {
        page.need(scope.know(name, Handle::Unread))
    }
}

// Swift refuses that something is set to itself.
fn is_itself(name: &Name, value: &Expr) -> bool {
    match value {
        Expr::Name(other) => is_same(name, other),
        _ => false,
    }
}

fn say_assign(page: &mut SwiftPage, scope: &MethodScope<'_>, name: &Name, value: &Expr) {
    if is_itself(name, value) || scope.is_unread(name) {
        return say_unread(page, scope, value);
    }
    page.begin();
    say_target(page, scope, name);
    page.say(" = ");
    say_number(page, scope, value);
    page.end("")
}

// What is set to what a wait gives.
fn known<'a>(scope: &MethodScope<'_>, name: &'a Name) -> AssignTarget<'a> {
    if scope.is_unread(name) {
        AssignTarget::None
    } else {
        AssignTarget::Known(name)
    }
}

// What a wait gives is set.
fn say_set(page: &mut SwiftPage, scope: &MethodScope<'_>, target: AssignTarget<'_>) {
    page.begin();
    match target {
        AssignTarget::None => page.say("_"),
        AssignTarget::New(name) | AssignTarget::Known(name) => say_target(page, scope, name),
    }
    page.say(" = ")
}

fn say_wait(page: &mut SwiftPage, scope: &MethodScope<'_>, target: AssignTarget<'_>, wait: &Wait) {
    say_turn_end(page, scope);
    match &wait.other {
        Some(other) => say_caught(page, scope, target, wait, other),
        None => {
            match target {
                AssignTarget::New(name) => {
                    page.begin();
                    say_new(page, scope, name);
                    page.say(" = ");
                }
                _ => say_set(page, scope, target),
            }
            page.say("try await ");
            say_awaited(page, scope, &wait.awaited);
            page.end("")
        }
    }
}

// A wait with an `else`.
fn say_caught(
    page: &mut SwiftPage,
    scope: &MethodScope<'_>,
    target: AssignTarget<'_>,
    wait: &Wait,
    other: &Expr,
) {
    if let AssignTarget::New(name) = target {
        page.begin();
        say_new(page, scope, name);
        page.end(": Int64");
    }
    if is_kept(wait) {
        page.begin();
        page.open("do {");
        keep_arguments(page, scope, &wait.awaited);
        say_do(page, scope, target, wait, other);
        page.close("}")
    } else {
        say_do(page, scope, target, wait, other)
    }
}

fn say_do(
    page: &mut SwiftPage,
    scope: &MethodScope<'_>,
    target: AssignTarget<'_>,
    wait: &Wait,
    other: &Expr,
) {
    page.begin();
    page.open("do {");
    say_set(page, scope, target);
    page.say("try await ");
    say_awaited_later(page, scope, &wait.awaited);
    page.end("");
    page.close_open("} catch {");
    match target {
        AssignTarget::None => say_unread(page, scope, other),
        AssignTarget::New(name) | AssignTarget::Known(name) => say_assign(page, scope, name, other),
    }
    page.close("}")
}

// A task, by a name where it is awaited or cancelled.
fn say_task_let<'a>(
    page: &mut SwiftPage,
    scope: &mut MethodScope<'a>,
    name: &'a Name,
    make: &'a Make,
) {
    page.begin();
    if scope.is_used(Use::Task, name) {
        page.say("let ");
        say_value(page, name);
        page.say(" = ");
    }
    say_make(page, scope, make);
    page.need(scope.know(name, Handle::Task))
}

fn say_cancel(page: &mut SwiftPage, scope: &MethodScope<'_>, name: &Name) {
    page.see(Difference::AtOnce);
    page.begin();
    match scope.handle(name) {
        Some(Handle::Group) => {
            say_value(page, name);
            page.end(".cancelAll()")
        }
        _ => {
            say_task(page, scope, name);
            page.end(".cancel()")
        }
    }
}

fn say_check(page: &mut SwiftPage) {
    page.see(Difference::AtThatMoment);
    page.line("try Task.checkCancellation()")
}

fn say_yield(page: &mut SwiftPage, scope: &MethodScope<'_>) {
    say_turn_end(page, scope);
    page.see(Difference::ThroughThePool);
    page.line("await Task.yield()")
}

// A word, a number after it, and the end of the line.
fn say_after(
    page: &mut SwiftPage,
    scope: &MethodScope<'_>,
    before: &str,
    value: &Expr,
    after: &str,
) {
    page.begin();
    page.say(before);
    say_number(page, scope, value);
    page.end(after)
}

fn say_action<'a>(page: &mut SwiftPage, scope: &mut MethodScope<'a>, action: &'a Action) {
    match action {
        Action::Let(name, value) => say_let(page, scope, name, value),
        Action::LetTask(name, make) => say_task_let(page, scope, name, make),
        Action::Assign(name, Value::Expr(value)) => say_assign(page, scope, name, value),
        Action::Assign(name, Value::Await(wait)) => {
            say_wait(page, scope, known(scope, name), wait)
        }
        Action::Await(wait) => say_wait(page, scope, AssignTarget::None, wait),
        Action::Make(make) => {
            page.begin();
            say_make(page, scope, make)
        }
        Action::Add(add) => say_add(page, scope, add),
        Action::Cancel(name) => say_cancel(page, scope, name),
        Action::Return(value) => say_after(page, scope, "return ", value, ""),
        Action::Throw(value) => say_after(page, scope, "throw Fault.thrown(", value, ")"),
        Action::Check => say_check(page),
        Action::Yield => say_yield(page, scope),
    }
}

// A test, and the brace after it.
fn say_headed(page: &mut SwiftPage, scope: &MethodScope<'_>, word: &str, test: &Expr) {
    page.begin();
    page.say(word);
    say_test(page, scope, test);
    page.open(" {")
}

// Swift takes a closure for one of this actor only where it names it.
fn say_own_actor(page: &mut SwiftPage) {
    page.line("_ = self // so that the block is run by this actor")
}

// The line of a `bind`.
fn say_bind(
    page: &mut SwiftPage,
    scope: &MethodScope<'_>,
    local: &Name,
    value: &Expr,
    is_left: bool,
) {
    page.begin();
    if is_left {
        page.say("if let m_result = ");
    }
    page.say("try await Local.$");
    say_member(page, local);
    page.say(".withValue(");
    say_tried(page, scope, value);
    if is_left {
        page.open(", operation: { () async throws -> Int64? in");
    } else {
        page.open(") { () async throws -> Void in");
    }
    say_own_actor(page)
}

// The line of a group. Swift takes it for a race where a closure in its block uses the group, so it gets a copy, which is the same group.
fn say_group_head(page: &mut SwiftPage, scope: &MethodScope<'_>, name: &Name, block: &Vec<Stmt>) {
    page.begin();
    page.say("try await withThrowingTaskGroup(of: Int64.self) { ");
    if uses_in_closure(scope.place(), block, name) {
        page.open("m_group async throws -> Void in");
        page.begin();
        page.say("nonisolated(unsafe) ");
        page.say(if uses(scope.place(), block, Use::Change, name) {
            "var "
        } else {
            "let "
        });
        say_value(page, name);
        page.end(" = m_group");
    } else {
        say_value(page, name);
        page.open(" async throws -> Void in");
    }
    say_own_actor(page)
}

// The end of a `bind`, which hands on what its block returns.
fn say_bound(page: &mut SwiftPage, scope: &MethodScope<'_>, block: &Vec<Stmt>) {
    if !returns(scope.place(), block) {
        return page.close("}");
    }
    if !ends(scope.place(), block) {
        page.line("return nil");
    }
    page.close_open("}) {");
    page.line("return m_result");
    page.close("}")
}

// The line of an `assume`, after which the fields are another actor's. False where it is of another executor: then its block never runs.
fn say_assume<'a>(page: &mut SwiftPage, scope: &mut MethodScope<'a>, name: &Name) -> bool {
    match find_actor(scope.decls, name) {
        Some(actor) if is_together(actor, scope.actor) => {
            page.begin();
            page.say("try Run.assume(");
            say_type(page, name);
            page.open(".shared) { other in");
            scope.assumed = Some(actor);
            true
        }
        _ => {
            page.see(Difference::Isolation);
            page.line("throw Fault.isolation");
            false
        }
    }
}

// What stands before a block. False where the block never runs.
fn begin_block<'a>(
    page: &mut SwiftPage,
    scope: &mut MethodScope<'a>,
    head: &'a Head,
    block: &Vec<Stmt>,
) -> bool {
    match head {
        Head::If(test) => say_headed(page, scope, "if ", test),
        Head::While(test) => say_headed(page, scope, "while ", test),
        Head::Bind(local, value) => {
            let is_left = returns(scope.place(), block);
            say_bind(page, scope, local, value, is_left)
        }
        Head::Group(name) => {
            say_group_head(page, scope, name, block);
            page.need(scope.know(name, Handle::Group));
        }
        Head::Assume(name) => return say_assume(page, scope, name),
    }
    true
}

// What stands after a block.
fn end_block(page: &mut SwiftPage, scope: &MethodScope<'_>, head: &Head, block: &Vec<Stmt>) {
    match head {
        Head::Bind(_, _) => say_bound(page, scope, block),
        Head::Group(_) => {
            if !ends(scope.place(), block) {
                say_turn_end(page, scope);
            }
            page.see(Difference::NoSuspension);
            page.close("}")
        }
        Head::If(_) | Head::While(_) | Head::Assume(_) => page.close("}"),
    }
}

#[cycle(statement)]
fn say_stmt<'a>(page: &mut SwiftPage, scope: &mut MethodScope<'a>, stmt: &'a Stmt) {
    match stmt {
        Stmt::Do(action) => say_action(page, scope, action),
        Stmt::Block(head, block) => say_block(page, scope, head, block),
        Stmt::IfElse(test, held, failed) => {
            say_headed(page, scope, "if ", test);
            say_inner(page, scope, held);
            page.close_open("} else {");
            say_inner(page, scope, failed);
            page.close("}")
        }
    }
}

#[cycle(statement)]
fn say_block<'a>(
    page: &mut SwiftPage,
    scope: &mut MethodScope<'a>,
    head: &'a Head,
    block: &'a Vec<Stmt>,
) {
    let outside = scope.outside();
    if begin_block(page, scope, head, block) {
        say_stmts(page, scope, block);
        scope.leave(outside);
        end_block(page, scope, head, block)
    }
}

// Statements whose names end with them.
#[cycle(statement)]
fn say_inner<'a>(page: &mut SwiftPage, scope: &mut MethodScope<'a>, block: &'a Vec<Stmt>) {
    let outside = scope.outside();
    say_stmts(page, scope, block);
    scope.leave(outside)
}

/// Statements, one after the other, up to one that ends them.
#[cycle(statement)]
pub(crate) fn say_stmts<'a>(
    page: &mut SwiftPage,
    scope: &mut MethodScope<'a>,
    stmts: &'a Vec<Stmt>,
) {
    for (index, stmt) in stmts.iter().enumerate() {
        scope.stand(stmts, index);
        say_stmt(page, scope, stmt);
        if ends_at(scope.place(), stmt) {
            return;
        }
    }
}
