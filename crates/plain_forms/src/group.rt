//! Groups, and what is left in them.

ghost use Rattle.std.specs.Prelude.{◌≡◌, map};
ghost use Rattle.script_grammar.specs.Tree.{block_tree, text_of, view_action, view_stmt, view_value, view_wait};
ghost use Rattle.plain_forms.specs.Groups as groups;

use plain_parts::{is_same, one_more};
use script_grammar::{Action, Awaited, Name, Stmt, Value, Wait};

fn is_next_wait(wait: &Wait, group: &Name) -> bool
    ensures { result ≡ groups.is_next_wait (text_of group.now) (view_wait wait.now) }
{
    match &wait.awaited {
        Awaited::Next(name) => is_same(name, group),
        Awaited::Call(_) | Awaited::Task(_) => false,
    }
}

fn is_next_value(value: &Value, group: &Name) -> bool
    ensures { result ≡ groups.is_next_value (text_of group.now) (view_value value.now) }
{
    match value {
        Value::Expr(_) => false,
        Value::Await(wait) => is_next_wait(wait, group),
    }
}

// Whether an action waits for a result of a group.
fn is_next(action: &Action, group: &Name) -> bool
    ensures { result ≡ groups.is_next (text_of group.now) (view_action action.now) }
{
    match action {
        Action::Let(_, value) | Action::Assign(_, value) => is_next_value(value, group),
        Action::Await(wait) => is_next_wait(wait, group),
        _ => false,
    }
}

fn is_add(action: &Action, group: &Name) -> bool
    ensures { result ≡ groups.is_add (text_of group.now) (view_action action.now) }
{
    match action {
        Action::Add(add) => is_same(&add.group, group),
        _ => false,
    }
}

// Whether statements wait for a result of a group.
#[cycle(next)]
fn has_next(stmts: &[Stmt], group: &Name) -> bool
    ensures { result ≡ groups.has_next (block_tree (map view_stmt stmts.now)) (text_of group.now) }
{
    match stmts {
        [] => false,
        [stmt, rest @ ..] => has_next_at(stmt, group) || has_next(rest, group),
    }
}

#[cycle(next)]
#[tactic(auto, using(plain_parts::proofs::Views::of_action, plain_parts::proofs::Views::of_block, plain_parts::proofs::Views::of_choice))]
fn has_next_at(stmt: &Stmt, group: &Name) -> bool
    ensures { result ≡ groups.has_next_at (view_stmt stmt.now) (text_of group.now) }
{
    match stmt {
        Stmt::Do(action) => is_next(action, group),
        Stmt::Block(_, block) => has_next(block, group),
        Stmt::IfElse(_, held, failed) => has_next(held, group) || has_next(failed, group),
    }
}

// How many children are left for waits, after an action before which there were so many.
fn left_after(action: &Action, group: &Name, left: usize) -> usize
    ensures { result ≡ groups.left_after (text_of group.now) (view_action action.now) left }
{
    if is_add(action, group) {
        one_more(left)
    } else if is_next(action, group) && 0 < left {
        left - 1
    } else {
        left
    }
}

// Whether a statement waits for a child that may not be left, where so many are.
#[tactic(auto, using(plain_parts::proofs::Views::of_action, plain_parts::proofs::Views::of_block, plain_parts::proofs::Views::of_choice))]
fn lacks(stmt: &Stmt, group: &Name, left: usize) -> bool
    ensures { result ≡ groups.lacks (text_of group.now) (view_stmt stmt.now) left }
{
    match stmt {
        Stmt::Do(action) => left == 0 && is_next(action, group),
        Stmt::Block(_, block) => has_next(block, group),
        Stmt::IfElse(_, held, failed) => has_next(held, group) || has_next(failed, group),
    }
}

#[tactic(auto, using(plain_parts::proofs::Views::of_action, plain_parts::proofs::Views::of_block, plain_parts::proofs::Views::of_choice))]
fn left_behind(stmt: &Stmt, group: &Name, left: usize) -> usize
    ensures { result ≡ groups.left_behind (text_of group.now) (view_stmt stmt.now) left }
{
    match stmt {
        Stmt::Do(action) => left_after(action, group, left),
        Stmt::Block(_, _) | Stmt::IfElse(_, _, _) => left,
    }
}

/// Whether each wait for a result of a group stands in its own block, with a child before it that no other wait has; where so many are left.
pub(crate) fn has_children(block: &[Stmt], group: &Name, left: usize) -> bool
    ensures { result ≡ groups.has_children (block_tree (map view_stmt block.now)) (text_of group.now) left }
{
    match block {
        [] => true,
        [stmt, rest @ ..] => !lacks(stmt, group, left)
            && has_children(rest, group, left_behind(stmt, group, left)),
    }
}
