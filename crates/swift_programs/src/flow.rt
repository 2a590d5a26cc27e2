//! What statements do with a name, and where they end. What stands after an end is not printed, and is not looked at.

use crate::scope::{find_actor, is_together};
use crate::words::is_same;
use script_grammar::{
    Action, Actor, Awaited, Call, Decl, Expr, Head, Make, Name, Stmt, Value, Wait,
};

/// What has to be known of a method to say where its statements end.
#[derive(Clone, Copy)]
pub(crate) struct Place<'a> {
    /// The whole script.
    pub decls: &'a [Decl],
    /// The actor whose method it is.
    pub actor: &'a Actor,
}

/// What a statement can do with a name.
#[derive(Clone, Copy)]
pub(crate) enum Use {
    /// It reads a number.
    Read,
    /// It sets a number to something else than itself.
    Set,
    /// It waits for a task or cancels it.
    Task,
    /// It adds to a group, asks for its next result, or cancels it.
    Group,
    /// It adds to a group, or asks for its next result.
    Change,
}

/// Whether the block of an `assume` can run: its actor is one of the same executor.
pub(crate) fn can_assume(place: Place<'_>, name: &Name) -> bool {
    match find_actor(place.decls, name) {
        Some(actor) => is_together(actor, place.actor),
        None => false,
    }
}

/// Whether nothing that stands after these statements runs, so that Swift sees it.
#[cycle(ends)]
pub(crate) fn ends(place: Place<'_>, stmts: &[Stmt]) -> bool {
    for stmt in stmts {
        if ends_at(place, stmt) {
            return true;
        }
    }
    false
}

fn ends_by(action: &Action) -> bool {
    matches!(action, Action::Return(_) | Action::Throw(_))
}

/// Whether nothing that stands after this statement runs, so that Swift sees it.
#[cycle(ends)]
pub(crate) fn ends_at(place: Place<'_>, stmt: &Stmt) -> bool {
    match stmt {
        Stmt::Do(action) => ends_by(action),
        Stmt::Block(Head::Assume(name), _) => !can_assume(place, name),
        Stmt::Block(_, _) => false,
        Stmt::IfElse(_, held, failed) => ends(place, held) && ends(place, failed),
    }
}

/// Whether statements return from the method.
#[cycle(returns)]
pub(crate) fn returns(place: Place<'_>, stmts: &[Stmt]) -> bool {
    for stmt in stmts {
        if returns_in(place, stmt) {
            return true;
        }
        if ends_at(place, stmt) {
            return false;
        }
    }
    false
}

#[cycle(returns)]
fn returns_in(place: Place<'_>, stmt: &Stmt) -> bool {
    match stmt {
        Stmt::Do(action) => matches!(&**action, Action::Return(_)),
        Stmt::Block(_, block) => returns(place, block),
        Stmt::IfElse(_, held, failed) => returns(place, held) || returns(place, failed),
    }
}

/// Whether statements do this with the variable, the task or the group of a name that stands before them.
#[cycle(uses)]
pub(crate) fn uses(place: Place<'_>, stmts: &[Stmt], what: Use, name: &Name) -> bool {
    for stmt in stmts {
        if uses_in(place, stmt, what, name) {
            return true;
        }
        if ends_at(place, stmt) {
            return false;
        }
    }
    false
}

#[cycle(uses)]
fn uses_in(place: Place<'_>, stmt: &Stmt, what: Use, name: &Name) -> bool {
    match stmt {
        Stmt::Do(action) => action_uses(action, what, name),
        Stmt::Block(Head::If(test) | Head::While(test) | Head::Bind(_, test), block) => {
            expr_uses(test, what, name) || uses(place, block, what, name)
        }
        Stmt::Block(Head::Group(_), block) => uses(place, block, what, name),
        Stmt::Block(Head::Assume(actor), block) => {
            can_assume(place, actor) && uses(place, block, what, name)
        }
        Stmt::IfElse(test, held, failed) => {
            expr_uses(test, what, name)
                || (uses(place, held, what, name) || uses(place, failed, what, name))
        }
    }
}

/// Whether statements use a group in the block of a `bind` or of another group, each of which is a closure.
#[cycle(closures)]
pub(crate) fn uses_in_closure(place: Place<'_>, stmts: &[Stmt], name: &Name) -> bool {
    for stmt in stmts {
        if closure_uses(place, stmt, name) {
            return true;
        }
        if ends_at(place, stmt) {
            return false;
        }
    }
    false
}

#[cycle(closures)]
fn closure_uses(place: Place<'_>, stmt: &Stmt, name: &Name) -> bool {
    match stmt {
        Stmt::Do(_) | Stmt::Block(Head::Assume(_), _) => false,
        Stmt::Block(Head::Bind(_, _) | Head::Group(_), block) => {
            uses(place, block, Use::Group, name)
        }
        Stmt::Block(Head::If(_) | Head::While(_), block) => uses_in_closure(place, block, name),
        Stmt::IfElse(_, held, failed) => {
            uses_in_closure(place, held, name) || uses_in_closure(place, failed, name)
        }
    }
}

fn action_uses(action: &Action, what: Use, name: &Name) -> bool {
    match action {
        Action::Let(_, value) => value_uses(value, what, name),
        Action::Assign(target, value) => sets(target, value, what, name)
            || value_uses(value, what, name),
        Action::LetTask(_, Make::Spawn(call, _) | Make::Detach(call, _))
        | Action::Make(Make::Spawn(call, _) | Make::Detach(call, _)) => call_uses(call, what, name),
        Action::Await(wait) => wait_uses(wait, what, name),
        Action::Add(add) => changes(&add.group, what, name) || call_uses(&add.call, what, name),
        Action::Cancel(target) => cancels(target, what, name),
        Action::Return(value) | Action::Throw(value) => expr_uses(value, what, name),
        Action::Check | Action::Yield => false,
    }
}

// Swift has nothing set to itself, so that is printed as a read.
fn sets(target: &Name, value: &Value, what: Use, name: &Name) -> bool {
    match what {
        Use::Set => is_same(target, name) && !is_itself(target, value),
        _ => false,
    }
}

fn is_itself(target: &Name, value: &Value) -> bool {
    match value {
        Value::Expr(Expr::Name(other)) => is_same(target, other),
        _ => false,
    }
}

fn changes(target: &Name, what: Use, name: &Name) -> bool {
    match what {
        Use::Group | Use::Change => is_same(target, name),
        _ => false,
    }
}

fn cancels(target: &Name, what: Use, name: &Name) -> bool {
    match what {
        Use::Group | Use::Task => is_same(target, name),
        _ => false,
    }
}

fn value_uses(value: &Value, what: Use, name: &Name) -> bool {
    match value {
        Value::Expr(value) => expr_uses(value, what, name),
        Value::Await(wait) => wait_uses(wait, what, name),
    }
}

fn wait_uses(wait: &Wait, what: Use, name: &Name) -> bool {
    awaited_uses(&wait.awaited, what, name) || other_uses(&wait.other, what, name)
}

fn awaited_uses(awaited: &Awaited, what: Use, name: &Name) -> bool {
    match awaited {
        Awaited::Call(call) => call_uses(call, what, name),
        Awaited::Task(target) => match what {
            Use::Task => is_same(target, name),
            _ => false,
        },
        Awaited::Next(target) => changes(target, what, name),
    }
}

fn other_uses(other: &Option<Expr>, what: Use, name: &Name) -> bool {
    match other {
        Some(value) => expr_uses(value, what, name),
        None => false,
    }
}

fn call_uses(call: &Call, what: Use, name: &Name) -> bool {
    for arg in &call.args {
        if expr_uses(arg, what, name) {
            return true;
        }
    }
    false
}

fn expr_uses(expr: &Expr, what: Use, name: &Name) -> bool {
    match what {
        Use::Read => expr_reads(expr, name),
        _ => false,
    }
}

fn expr_reads(expr: &Expr, name: &Name) -> bool {
    match expr {
        Expr::Name(read) => is_same(read, name),
        Expr::Number(_) | Expr::Local(_) | Expr::Priority | Expr::Cancelled => false,
        Expr::Negate(operand) | Expr::Not(operand) => expr_reads(operand, name),
        Expr::Binary(_, left, right) => expr_reads(left, name) || expr_reads(right, name),
    }
}
