//! Which statements return.

ghost use Rattle.std.specs.Prelude.{◌≡◌};
ghost use Rattle.swift_expressions.specs.States.{state_of};
ghost use Rattle.swift_lowering.specs.Returning.{block_returns, has_rest, leaves_early, may_return, returns_by, returns_early, stmt_may_return};

use swift_expressions::{DEPTH, Lowering, Returns};
use swift_syntax::{ExprForm, Into, Stmt, StmtForm, Tree};

// Whether a statement of a block may return out of the unit.
#[cycle(returns)]
fn block_returns(lowering: &Lowering<'_>, first: usize, depth: u32) -> bool
    ensures { result ≡ block_returns (state_of lowering.now) depth first }
{
    if depth == 0 {
        return true;
    }
    let mut place = first;
    for _ in 0..lowering.tree.stmts.len() {
        let Some(stmt) = lowering.stmt(place) else {
            return false;
        };
        if returns(lowering, stmt, depth - 1) {
            return true;
        }
        place = stmt.next;
    }
    false
}

// Whether a statement may return out of the unit.
#[cycle(returns)]
fn returns(lowering: &Lowering<'_>, stmt: Stmt, depth: u32) -> bool
    ensures { result ≡ returns_by (block_returns (state_of lowering.now) depth) stmt.form }
{
    match stmt.form {
        StmtForm::Return
        | StmtForm::Value(Into::Return, _)
        | StmtForm::Group(Into::Return, ..)
        | StmtForm::Bind(Into::Return, ..) => true,
        StmtForm::If(_, held, failed) | StmtForm::DoCatch(held, failed) => {
            block_returns(lowering, held, depth) || block_returns(lowering, failed, depth)
        }
        StmtForm::Guard(_, body)
        | StmtForm::While(_, body)
        | StmtForm::For(_, _, _, body)
        | StmtForm::ForAwait(_, _, body)
        | StmtForm::WhileNext(_, _, body) => block_returns(lowering, body, depth),
        StmtForm::Value(..)
        | StmtForm::Assign(..)
        | StmtForm::Toggle(_)
        | StmtForm::Throw(_)
        | StmtForm::AsyncLet(..)
        | StmtForm::Task(..)
        | StmtForm::AddTask(..)
        | StmtForm::Group(..)
        | StmtForm::Bind(..) => false,
    }
}

/// Whether a statement of a block may return.
pub(crate) fn may_return(lowering: &Lowering<'_>, first: usize) -> bool
    ensures { result ≡ may_return (state_of lowering.now) first }
{
    block_returns(lowering, first, DEPTH)
}

// Whether a statement may return.
fn stmt_may_return(lowering: &Lowering<'_>, stmt: Stmt) -> bool
    ensures { result ≡ stmt_may_return (state_of lowering.now) stmt }
{
    returns(lowering, stmt, DEPTH)
}

/// Whether one of the statements from a place on that is not the last one may return out of the unit.
pub(crate) fn leaves_early(lowering: &Lowering<'_>, first: usize) -> bool
    ensures { result ≡ leaves_early (state_of lowering.now) first }
{
    let mut place = first;
    for _ in 0..lowering.tree.stmts.len() {
        let Some(stmt) = lowering.stmt(place) else {
            return false;
        };
        if has_rest(lowering, stmt) {
            return true;
        }
        place = stmt.next;
    }
    false
}

/// Whether something follows a statement that may return out of the unit.
pub(crate) fn has_rest(lowering: &Lowering<'_>, stmt: Stmt) -> bool
    ensures { result ≡ has_rest (state_of lowering.now) stmt }
{
    stmt.next != 0 && returns_early(lowering, stmt)
}

// Whether a statement may return out of the unit.
fn returns_early(lowering: &Lowering<'_>, stmt: Stmt) -> bool
    ensures { result ≡ returns_early (state_of lowering.now) stmt }
{
    match lowering.setting.returns {
        Returns::Unit => stmt_may_return(lowering, stmt),
        Returns::Closure(..) => false,
    }
}

// The last statement of a block.
fn last_of(tree: &Box<Tree>, first: usize) -> Option<Stmt> {
    let mut place = first;
    let mut last = None;
    for _ in 0..tree.stmts.len() {
        let Some(stmt) = tree.stmt(place) else {
            return last;
        };
        last = Some(stmt);
        place = stmt.next;
    }
    last
}

// Whether a loop's test always holds.
fn is_endless(tree: &Box<Tree>, test: usize) -> bool {
    matches!(tree.expr(test).form, ExprForm::Truth(true))
}

// Whether a block never goes on behind its end.
fn exits_at(tree: &Box<Tree>, first: usize, depth: u32) -> bool {
    let Some(stmt) = last_of(tree, first) else {
        return false;
    };
    if depth == 0 {
        return false;
    }
    match stmt.form {
        StmtForm::Return
        | StmtForm::Throw(_)
        | StmtForm::Value(Into::Return, _)
        | StmtForm::Group(Into::Return, ..)
        | StmtForm::Bind(Into::Return, ..) => true,
        StmtForm::If(_, held, failed) | StmtForm::DoCatch(held, failed) => {
            exits_at(tree, held, depth - 1) && exits_at(tree, failed, depth - 1)
        }
        StmtForm::While(test, _) => is_endless(tree, test),
        _ => false,
    }
}

/// Whether a block never goes on behind its end.
pub(crate) fn exits(lowering: &Lowering<'_>, first: usize) -> bool {
    exits_at(lowering.tree, first, DEPTH)
}
