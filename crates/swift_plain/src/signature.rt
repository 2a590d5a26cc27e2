//! What methods give in Swift: a number or nothing, and perhaps an error.

ghost use Rattle.std.specs.Prelude.{◌≡◌, map};
ghost use Rattle.std.specs.List.{list_any};
ghost use Rattle.script_grammar.specs.Tree.{block_tree, text_of, view_action, view_awaited, view_call, view_decl, view_head, view_make, view_method, view_stmt, view_value, view_wait};
ghost use Rattle.plain_parts.specs.Flow.{view_sought};
ghost use Rattle.swift_plain.specs.Signatures as signatures;
ghost use Rattle.swift_plain.specs.Signatures.{view_thrower};

use plain_parts::{Sought, call_of, has, is_same};
use script_grammar::{Action, Awaited, Call, Decl, Head, Make, Method, Name, Stmt, Value, Wait};

/// A method that throws.
#[derive(Clone, Copy)]
pub(crate) struct Thrower<'a> {
    /// Its actor.
    pub actor: &'a Name,
    /// Its name.
    pub method: &'a Name,
}

fn is_thrower(thrower: &Thrower<'_>, actor: &Name, method: &Name) -> bool
    ensures { result ≡ signatures.is_thrower (text_of actor.now) (text_of method.now) (view_thrower thrower.now) }
{
    is_same(thrower.actor, actor) && is_same(thrower.method, method)
}

fn any_thrower(throwers: &[Thrower<'_>], actor: &Name, method: &Name) -> bool
    ensures { result ≡ list_any (λ thrower. signatures.is_thrower (text_of actor.now) (text_of method.now) (view_thrower thrower)) throwers.now }
{
    throwers
        .iter()
        .any(|thrower| is_thrower(thrower, actor, method))
}

/// Whether a method is among those that throw.
pub(crate) fn method_throws(throwers: &[Thrower<'_>], actor: &Name, method: &Name) -> bool
    ensures { result ≡ signatures.method_throws (map view_thrower throwers.now) (text_of actor.now) (text_of method.now) }
{
    any_thrower(throwers, actor, method)
}

/// Whether a call throws.
pub(crate) fn call_throws(throwers: &[Thrower<'_>], call: &Call) -> bool
    ensures { result ≡ signatures.call_throws (map view_thrower throwers.now) (view_call call.now) }
{
    method_throws(throwers, &call.actor, &call.method)
}

fn make_throws(throwers: &[Thrower<'_>], make: &Make) -> bool
    ensures { result ≡ signatures.make_throws (map view_thrower throwers.now) (view_make make.now) }
{
    call_throws(throwers, call_of(make))
}

fn action_makes_throwing(throwers: &[Thrower<'_>], action: &Action) -> bool
    ensures { result ≡ signatures.action_makes_throwing (map view_thrower throwers.now) (view_action action.now) }
{
    match action {
        Action::LetTask(_, make) | Action::Make(make) => make_throws(throwers, make),
        Action::Add(add) => call_throws(throwers, &add.call),
        _ => false,
    }
}

// Whether statements make a task or a child that throws.
#[cycle(makes)]
fn makes_throwing(stmts: &[Stmt], throwers: &[Thrower<'_>]) -> bool
    ensures { result ≡ signatures.makes_throwing (block_tree (map view_stmt stmts.now)) (map view_thrower throwers.now) }
{
    match stmts {
        [] => false,
        [stmt, rest @ ..] => makes_throwing_at(stmt, throwers) || makes_throwing(rest, throwers),
    }
}

#[cycle(makes)]
#[tactic(auto, using(plain_parts::proofs::Views::of_action, plain_parts::proofs::Views::of_block, plain_parts::proofs::Views::of_choice))]
fn makes_throwing_at(stmt: &Stmt, throwers: &[Thrower<'_>]) -> bool
    ensures { result ≡ signatures.makes_throwing_at (view_stmt stmt.now) (map view_thrower throwers.now) }
{
    match stmt {
        Stmt::Do(action) => action_makes_throwing(throwers, action),
        Stmt::Block(_, block) => makes_throwing(block, throwers),
        Stmt::IfElse(_, held, failed) => makes_throwing(held, throwers)
            || makes_throwing(failed, throwers),
    }
}

fn is_throwing_task(action: &Action, throwers: &[Thrower<'_>], task: &Name) -> bool
    ensures { result ≡ signatures.is_throwing_task (map view_thrower throwers.now) (text_of task.now) (view_action action.now) }
{
    match action {
        Action::LetTask(name, make) => is_same(name, task) && make_throws(throwers, make),
        _ => false,
    }
}

/// Whether statements make a task of this name that throws.
#[cycle(task)]
pub(crate) fn task_throws(stmts: &[Stmt], throwers: &[Thrower<'_>], task: &Name) -> bool
    ensures { result ≡ signatures.task_throws (block_tree (map view_stmt stmts.now)) (map view_thrower throwers.now) (text_of task.now) }
{
    match stmts {
        [] => false,
        [stmt, rest @ ..] => task_throws_at(stmt, throwers, task)
            || task_throws(rest, throwers, task),
    }
}

#[cycle(task)]
#[tactic(auto, using(plain_parts::proofs::Views::of_action, plain_parts::proofs::Views::of_block, plain_parts::proofs::Views::of_choice))]
fn task_throws_at(stmt: &Stmt, throwers: &[Thrower<'_>], task: &Name) -> bool
    ensures { result ≡ signatures.task_throws_at (view_stmt stmt.now) (map view_thrower throwers.now) (text_of task.now) }
{
    match stmt {
        Stmt::Do(action) => is_throwing_task(action, throwers, task),
        Stmt::Block(_, block) => task_throws(block, throwers, task),
        Stmt::IfElse(_, held, failed) => task_throws(held, throwers, task)
            || task_throws(failed, throwers, task),
    }
}

fn awaited_throws(awaited: &Awaited, throwers: &[Thrower<'_>], body: &[Stmt]) -> bool
    ensures { result ≡ signatures.awaited_throws (map view_thrower throwers.now) (block_tree (map view_stmt body.now)) (view_awaited awaited.now) }
{
    match awaited {
        Awaited::Call(call) => call_throws(throwers, call),
        Awaited::Task(name) => task_throws(body, throwers, name),
        // Its group throws.
        Awaited::Next(_) => false,
    }
}

fn wait_throws(wait: &Wait, throwers: &[Thrower<'_>], body: &[Stmt]) -> bool
    ensures { result ≡ signatures.wait_throws (map view_thrower throwers.now) (block_tree (map view_stmt body.now)) (view_wait wait.now) }
{
    match &wait.other {
        Some(_) => false,
        None => awaited_throws(&wait.awaited, throwers, body),
    }
}

fn value_throws(value: &Value, throwers: &[Thrower<'_>], body: &[Stmt]) -> bool
    ensures { result ≡ signatures.value_throws (map view_thrower throwers.now) (block_tree (map view_stmt body.now)) (view_value value.now) }
{
    match value {
        Value::Expr(_) => false,
        Value::Await(wait) => wait_throws(wait, throwers, body),
    }
}

fn action_throws(action: &Action, throwers: &[Thrower<'_>], body: &[Stmt]) -> bool
    ensures { result ≡ signatures.action_throws (map view_thrower throwers.now) (block_tree (map view_stmt body.now)) (view_action action.now) }
{
    match action {
        Action::Throw(_) | Action::Check => true,
        Action::Let(_, value) | Action::Assign(_, value) => value_throws(value, throwers, body),
        Action::Await(wait) => wait_throws(wait, throwers, body),
        _ => false,
    }
}

fn is_group(head: &Head) -> bool
    ensures { result ≡ signatures.is_group (view_head head.now) }
{
    match head {
        Head::Group(_) => true,
        Head::If(_) | Head::While(_) | Head::Bind(_, _) | Head::Assume(_) => false,
    }
}

/// Whether statements of a method with this body throw.
#[cycle(throws)]
fn throws(stmts: &[Stmt], throwers: &[Thrower<'_>], body: &[Stmt]) -> bool
    ensures { result ≡ signatures.throws (block_tree (map view_stmt stmts.now)) (map view_thrower throwers.now) (block_tree (map view_stmt body.now)) }
{
    match stmts {
        [] => false,
        [stmt, rest @ ..] => throws_at(stmt, throwers, body) || throws(rest, throwers, body),
    }
}

#[cycle(throws)]
#[tactic(auto, using(plain_parts::proofs::Views::of_action, plain_parts::proofs::Views::of_block, plain_parts::proofs::Views::of_choice))]
fn throws_at(stmt: &Stmt, throwers: &[Thrower<'_>], body: &[Stmt]) -> bool
    ensures { result ≡ signatures.throws_at (view_stmt stmt.now) (map view_thrower throwers.now) (block_tree (map view_stmt body.now)) }
{
    match stmt {
        Stmt::Do(action) => action_throws(action, throwers, body),
        Stmt::Block(head, block) => (is_group(head) && makes_throwing(block, throwers))
            || throws(block, throwers, body),
        Stmt::IfElse(_, held, failed) => throws(held, throwers, body)
            || throws(failed, throwers, body),
    }
}

/// Whether the group of a block throws: a child does, or a statement in it.
pub(crate) fn group_throws(block: &[Stmt], throwers: &[Thrower<'_>], body: &[Stmt]) -> bool
    ensures { result ≡ signatures.group_throws (block_tree (map view_stmt block.now)) (map view_thrower throwers.now) (block_tree (map view_stmt body.now)) }
{
    makes_throwing(block, throwers) || throws(block, throwers, body)
}

/// Whether a method throws, by those that do.
pub(crate) fn body_throws(throwers: &[Thrower<'_>], method: &Method) -> bool
    ensures { result ≡ signatures.body_throws (map view_thrower throwers.now) (view_method method.now) }
{
    throws(&method.body, throwers, &method.body)
}

fn method_has(method: &Method, sought: Sought<'_>) -> bool
    ensures { result ≡ signatures.method_has (view_sought sought.entry) (view_method method.now) }
{
    has(&method.body, sought)
}

fn any_method_has(methods: &[Method], sought: Sought<'_>) -> bool
    ensures { result ≡ list_any (λ method. signatures.method_has (view_sought sought.entry) (view_method method)) methods.now }
{
    methods.iter().any(|method| method_has(method, sought))
}

fn methods_have(methods: &[Method], sought: Sought<'_>) -> bool
    ensures { result ≡ signatures.methods_have (view_sought sought.entry) (map view_method methods.now) }
{
    any_method_has(methods, sought)
}

fn decl_has(decl: &Decl, sought: Sought<'_>) -> bool
    ensures { result ≡ signatures.decl_has (view_sought sought.entry) (view_decl decl.now) }
{
    match decl {
        Decl::Actor(actor) => methods_have(&actor.methods, sought),
        Decl::Executor(_) | Decl::Local(_) | Decl::Root(_) => false,
    }
}

fn any_decl_has(decls: &[Decl], sought: Sought<'_>) -> bool
    ensures { result ≡ list_any (λ decl. signatures.decl_has (view_sought sought.entry) (view_decl decl)) decls.now }
{
    decls.iter().any(|decl| decl_has(decl, sought))
}

/// Whether a method of a script has what is looked for.
pub(crate) fn decls_have(decls: &[Decl], sought: Sought<'_>) -> bool
    ensures { result ≡ signatures.decls_have (view_sought sought.entry) (map view_decl decls.now) }
{
    any_decl_has(decls, sought)
}

// Whether a number is wanted of a method anywhere.
fn is_wanted(decls: &[Decl], actor: &Name, method: &Name) -> bool
    ensures { result ≡ signatures.is_wanted (map view_decl decls.now) (text_of actor.now) (text_of method.now) }
{
    decls_have(decls, Sought::Number(actor, method))
}

fn is_returning(method: &Method, name: &Name) -> bool
    ensures { result ≡ signatures.is_returning (text_of name.now) (view_method method.now) }
{
    is_same(&method.name, name) && method_has(method, Sought::Return)
}

fn any_returning(methods: &[Method], name: &Name) -> bool
    ensures { result ≡ list_any (λ method. signatures.is_returning (text_of name.now) (view_method method)) methods.now }
{
    methods.iter().any(|method| is_returning(method, name))
}

fn returns_by(methods: &[Method], name: &Name) -> bool
    ensures { result ≡ signatures.returns_by (text_of name.now) (map view_method methods.now) }
{
    any_returning(methods, name)
}

fn decl_returns(decl: &Decl, actor: &Name, name: &Name) -> bool
    ensures { result ≡ signatures.decl_returns (text_of actor.now) (text_of name.now) (view_decl decl.now) }
{
    match decl {
        Decl::Actor(found) => is_same(&found.name, actor) && returns_by(&found.methods, name),
        Decl::Executor(_) | Decl::Local(_) | Decl::Root(_) => false,
    }
}

fn any_decl_returns(decls: &[Decl], actor: &Name, name: &Name) -> bool
    ensures { result ≡ list_any (λ decl. signatures.decl_returns (text_of actor.now) (text_of name.now) (view_decl decl)) decls.now }
{
    decls.iter().any(|decl| decl_returns(decl, actor, name))
}

fn returns_number(decls: &[Decl], actor: &Name, name: &Name) -> bool
    ensures { result ≡ signatures.returns_number (map view_decl decls.now) (text_of actor.now) (text_of name.now) }
{
    any_decl_returns(decls, actor, name)
}

/// Whether a method gives a number: it returns one, or one is wanted of it.
pub(crate) fn gives_number(decls: &[Decl], actor: &Name, method: &Name) -> bool
    ensures { result ≡ signatures.gives_number (map view_decl decls.now) (text_of actor.now) (text_of method.now) }
{
    returns_number(decls, actor, method) || is_wanted(decls, actor, method)
}
