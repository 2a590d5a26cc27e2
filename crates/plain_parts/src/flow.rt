//! What statements do with a name, and whether they end the method.

ghost use Rattle.std.specs.Prelude.{◌≡◌, map};
ghost use Rattle.script_grammar.specs.Tree.{block_tree, text_of, view, view_action, view_call, view_make, view_stmt, view_value, view_wait};
ghost use Rattle.plain_parts.specs.Flow as flow;
ghost use Rattle.plain_parts.specs.Flow.{view_sought};

use crate::names::is_same;
use script_grammar::{Action, Awaited, Call, Expr, Make, Name, Stmt, Value, Wait};

/// Whether the last of these statements ends the method.
#[cycle(ends)]
pub fn ends(stmts: &[Stmt]) -> bool
    ensures { result ≡ flow.ends (block_tree (map view_stmt stmts.now)) }
{
    match stmts {
        [] => false,
        [stmt, rest @ ..] => (rest.is_empty() && ends_at(stmt)) || ends(rest),
    }
}

#[cycle(ends)]
#[tactic(auto, using(crate::proofs::Views::of_action, crate::proofs::Views::of_block, crate::proofs::Views::of_choice))]
fn ends_at(stmt: &Stmt) -> bool
    ensures { result ≡ flow.ends_at (view_stmt stmt.now) }
{
    match stmt {
        Stmt::Do(action) => ends_by(action),
        Stmt::Block(_, _) => false,
        Stmt::IfElse(_, held, failed) => ends(held) && ends(failed),
    }
}

fn ends_by(action: &Action) -> bool
    ensures { result ≡ flow.ends_by (view_action action.now) }
{
    match action {
        Action::Return(_) | Action::Throw(_) => true,
        _ => false,
    }
}

/// What is looked for in statements.
#[derive(Clone, Copy)]
pub enum Sought<'a> {
    /// A number is set.
    Set(&'a Name),
    /// A task is waited for.
    Wait(&'a Name),
    /// The method returns a number.
    Return,
    /// This method of this actor has to give a number.
    Number(&'a Name, &'a Name),
    /// A number is thrown that is no less.
    Throw(i64),
}

/// Whether statements have what is looked for.
#[cycle(has)]
pub fn has(stmts: &[Stmt], sought: Sought<'_>) -> bool
    ensures { result ≡ flow.has (block_tree (map view_stmt stmts.now)) (view_sought sought.entry) }
{
    match stmts {
        [] => false,
        [stmt, rest @ ..] => has_at(stmt, sought) || has(rest, sought),
    }
}

#[cycle(has)]
#[tactic(auto, using(crate::proofs::Views::of_action, crate::proofs::Views::of_block, crate::proofs::Views::of_choice))]
fn has_at(stmt: &Stmt, sought: Sought<'_>) -> bool
    ensures { result ≡ flow.has_at (view_stmt stmt.now) (view_sought sought.entry) }
{
    match stmt {
        Stmt::Do(action) => is_sought(action, sought),
        Stmt::Block(_, block) => has(block, sought),
        Stmt::IfElse(_, held, failed) => has(held, sought) || has(failed, sought),
    }
}

fn is_sought(action: &Action, sought: Sought<'_>) -> bool
    ensures { result ≡ flow.is_sought (view_sought sought.entry) (view_action action.now) }
{
    match sought {
        Sought::Set(name) => sets(action, name),
        Sought::Wait(name) => waits(action, name),
        Sought::Return => returns_number(action),
        Sought::Number(actor, method) => wants_number(action, actor, method),
        Sought::Throw(least) => throws_from(action, least),
    }
}

fn returns_number(action: &Action) -> bool
    ensures { result ≡ flow.returns_number (view_action action.now) }
{
    match action {
        Action::Return(_) => true,
        _ => false,
    }
}

fn is_from(value: &Expr, least: i64) -> bool
    ensures { result ≡ flow.is_from least (view value.now) }
{
    match value {
        Expr::Number(number) => least <= *number,
        _ => false,
    }
}

fn throws_from(action: &Action, least: i64) -> bool
    ensures { result ≡ flow.throws_from least (view_action action.now) }
{
    match action {
        Action::Throw(value) => is_from(value, least),
        _ => false,
    }
}

fn sets(action: &Action, name: &Name) -> bool
    ensures { result ≡ flow.sets (text_of name.now) (view_action action.now) }
{
    match action {
        Action::Assign(target, _) => is_same(target, name),
        _ => false,
    }
}

fn is_wait_for(wait: &Wait, name: &Name) -> bool
    ensures { result ≡ flow.is_wait_for (text_of name.now) (view_wait wait.now) }
{
    match &wait.awaited {
        Awaited::Task(task) => is_same(task, name),
        Awaited::Call(_) | Awaited::Next(_) => false,
    }
}

fn value_waits(value: &Value, name: &Name) -> bool
    ensures { result ≡ flow.value_waits (text_of name.now) (view_value value.now) }
{
    match value {
        Value::Expr(_) => false,
        Value::Await(wait) => is_wait_for(wait, name),
    }
}

fn waits(action: &Action, name: &Name) -> bool
    ensures { result ≡ flow.waits (text_of name.now) (view_action action.now) }
{
    match action {
        Action::Let(_, value) | Action::Assign(_, value) => value_waits(value, name),
        Action::Await(wait) => is_wait_for(wait, name),
        _ => false,
    }
}

/// The call of a task that is made.
pub fn call_of(make: &Make) -> &Call
    ensures { view_call result.now ≡ flow.call_of (view_make make.now) }
{
    match make {
        Make::Spawn(call, _) | Make::Detach(call, _) => call,
    }
}

fn is_call(call: &Call, actor: &Name, method: &Name) -> bool
    ensures { result ≡ flow.is_call (text_of actor.now) (text_of method.now) (view_call call.now) }
{
    is_same(&call.actor, actor) && is_same(&call.method, method)
}

fn is_awaited_call(wait: &Wait, actor: &Name, method: &Name) -> bool
    ensures { result ≡ flow.is_awaited_call (text_of actor.now) (text_of method.now) (view_wait wait.now) }
{
    match &wait.awaited {
        Awaited::Call(call) => is_call(call, actor, method),
        Awaited::Task(_) | Awaited::Next(_) => false,
    }
}

fn value_calls(value: &Value, actor: &Name, method: &Name) -> bool
    ensures { result ≡ flow.value_calls (text_of actor.now) (text_of method.now) (view_value value.now) }
{
    match value {
        Value::Expr(_) => false,
        Value::Await(wait) => is_awaited_call(wait, actor, method),
    }
}

fn has_other(wait: &Wait) -> bool
    ensures { result ≡ flow.has_other (view_wait wait.now) }
{
    match &wait.other {
        Some(_) => true,
        None => false,
    }
}

// Whether what a method gives is used as a number.
fn wants_number(action: &Action, actor: &Name, method: &Name) -> bool
    ensures { result ≡ flow.wants_number (text_of actor.now) (text_of method.now) (view_action action.now) }
{
    match action {
        Action::Let(_, value) | Action::Assign(_, value) => value_calls(value, actor, method),
        Action::Await(wait) => has_other(wait) && is_awaited_call(wait, actor, method),
        Action::LetTask(_, make) | Action::Make(make) => is_call(call_of(make), actor, method),
        Action::Add(add) => is_call(&add.call, actor, method),
        _ => false,
    }
}
