//! Statements and blocks.

ghost use Rattle.std.specs.Prelude.{◌≡◌, ◌++◌, map};
ghost use Rattle.script_grammar.specs.Tree.{block_tree, text_of, view, view_action, view_head, view_stmt, view_value, view_wait};
ghost use Rattle.plain_parts.specs.Pages.{GoesOn};
ghost use Rattle.swift_plain.specs.Places.{view_place};
ghost use Rattle.swift_plain.specs.Statements as statements;

use crate::call::{after_arguments, is_number, say_add, say_task, say_wait};
use crate::place::Place;
use crate::signature::group_throws;
use plain_parts::{Page, Sought, call_of, deeper, has, say_number, say_test, say_value};
use script_grammar::{Action, Expr, Head, Name, Stmt, Value, Wait};

// The word before a variable that is made: `var` where it is set in what follows.
fn new_word(rest: &[Stmt], name: &Name) -> &'static str
    ensures { result.now ≡ statements.new_word (block_tree (map view_stmt rest.now)) (text_of name.now) }
{
    if has(rest, Sought::Set(name)) {
        "var "
    } else {
        "let "
    }
}

// What a name is set to, and the end of the line.
fn say_set(page: &mut Page, place: Place<'_>, value: &Value)
    ensures { GoesOn page.old page.new (statements.set_text (view_place place.entry) (view_value value.now)) }
{
    page.say(" = ");
    match value {
        Value::Expr(value) => say_number(page, place.decls, value),
        Value::Await(wait) => say_wait(page, place, wait),
    }
    page.say("\n")
}

// A wait whose number is let go.
fn say_unused(page: &mut Page, place: Place<'_>, depth: usize, wait: &Wait)
    ensures { GoesOn page.old page.new (statements.unused_text (view_place place.entry) depth (view_wait wait.now)) }
{
    page.begin(depth);
    page.say(if is_number(place, &wait.awaited) {
        "_ = "
    } else {
        ""
    });
    say_wait(page, place, wait);
    page.say("\n")
}

// A group is cancelled with all in it.
fn cancelling(place: Place<'_>, name: &Name) -> &'static str
    ensures { result.now ≡ statements.cancelling (view_place place.entry) (text_of name.now) }
{
    if name.text.as_slice() == place.group {
        ".cancelAll()\n"
    } else {
        ".cancel()\n"
    }
}

fn say_cancel(page: &mut Page, place: Place<'_>, depth: usize, name: &Name)
    ensures { GoesOn page.old page.new (statements.cancel_text (view_place place.entry) depth (text_of name.now)) }
{
    page.begin(depth);
    say_value(page, place.decls, name);
    page.say(cancelling(place, name))
}

// The case of an error is the number that is thrown.
fn say_thrown(page: &mut Page, value: &Expr)
    ensures { GoesOn page.old page.new (statements.thrown_text (view value.now)) }
{
    match value {
        Expr::Number(number) => page.say_number(*number),
        _ => page.say(""),
    }
}

#[tactic(auto, unfolding(crate::specs::Statements::throw_text))]
fn say_throw(page: &mut Page, depth: usize, value: &Expr)
    ensures { GoesOn page.old page.new (statements.throw_text depth (view value.now)) }
{
    page.begin(depth);
    page.say("throw Failure.code");
    say_thrown(page, value);
    page.say("\n")
}

fn say_return(page: &mut Page, place: Place<'_>, depth: usize, value: &Expr)
    ensures { GoesOn page.old page.new (statements.return_text (view_place place.entry) depth (view value.now)) }
{
    page.begin(depth);
    page.say("return ");
    say_number(page, place.decls, value);
    page.say("\n")
}

fn say_let(
    page: &mut Page,
    place: Place<'_>,
    depth: usize,
    rest: &[Stmt],
    name: &Name,
    value: &Value,
)
    ensures { GoesOn page.old page.new (statements.let_text (view_place place.entry) depth (block_tree (map view_stmt rest.now)) (text_of name.now) (view_value value.now)) }
{
    page.begin(depth);
    page.say(new_word(rest, name));
    say_value(page, place.decls, name);
    say_set(page, place, value)
}

fn say_assign(page: &mut Page, place: Place<'_>, depth: usize, name: &Name, value: &Value)
    ensures { GoesOn page.old page.new (statements.assign_text (view_place place.entry) depth (text_of name.now) (view_value value.now)) }
{
    page.begin(depth);
    say_value(page, place.decls, name);
    say_set(page, place, value)
}

// An action, before the statements that follow it.
fn say_action(
    page: &mut Page,
    place: Place<'_>,
    depth: usize,
    action: &Action,
    rest: &[Stmt],
    given: usize,
)
    ensures { GoesOn page.old page.new (statements.action_text (view_place place.entry) depth (view_action action.now) (block_tree (map view_stmt rest.now)) given) }
{
    match action {
        Action::Let(name, value) => say_let(page, place, depth, rest, name, value),
        Action::LetTask(name, make) => say_task(page, place, depth, name, make, given),
        Action::Assign(name, value) => say_assign(page, place, depth, name, value),
        Action::Await(wait) => say_unused(page, place, depth, wait),
        // No plain file has one.
        Action::Make(_) => page.say(""),
        Action::Add(add) => say_add(page, place, depth, add, given),
        Action::Cancel(name) => say_cancel(page, place, depth, name),
        Action::Return(value) => say_return(page, place, depth, value),
        Action::Throw(value) => say_throw(page, depth, value),
        Action::Check => page.line(depth, "try Task.checkCancellation()"),
        Action::Yield => page.line(depth, "await Task.yield()"),
    }
}

// The number of the last name that was given, after those of an action.
fn after_action(place: Place<'_>, action: &Action, given: usize) -> usize
    ensures { result ≡ statements.after_action (view_place place.entry) (view_action action.now) given }
{
    match action {
        Action::LetTask(_, make) => after_arguments(place, &call_of(make).args, given),
        Action::Add(add) => after_arguments(place, &add.call.args, given),
        _ => given,
    }
}

#[tactic(auto, using(plain_parts::proofs::Views::of_action, plain_parts::proofs::Views::of_block, plain_parts::proofs::Views::of_choice))]
fn after_stmt(place: Place<'_>, stmt: &Stmt, given: usize) -> usize
    ensures { result ≡ statements.after_stmt (view_place place.entry) (view_stmt stmt.now) given }
{
    match stmt {
        Stmt::Do(action) => after_action(place, action, given),
        Stmt::Block(_, _) | Stmt::IfElse(_, _, _) => given,
    }
}

// A test behind a word, and the brace behind it.
fn say_tested(page: &mut Page, place: Place<'_>, word: &str, test: &Expr)
    ensures { GoesOn page.old page.new (statements.tested_text (view_place place.entry) word.now (view test.now)) }
{
    page.say(word);
    say_test(page, place.decls, test);
    page.say(" {\n")
}

// The word of a group.
#[tactic(auto, unfolding(crate::specs::Statements::group_word))]
fn group_word(throws: bool) -> &'static str
    ensures { result.now ≡ statements.group_word throws }
{
    if throws {
        "try await withThrowingTaskGroup(of: Int.self) { "
    } else {
        "await withTaskGroup(of: Int.self) { "
    }
}

// The line before the block of a group.
#[tactic(auto, unfolding(crate::specs::Statements::group_text))]
fn say_group(page: &mut Page, place: Place<'_>, name: &Name, throws: bool)
    ensures { GoesOn page.old page.new (statements.group_text (view_place place.entry) (text_of name.now) throws) }
{
    page.say(group_word(throws));
    say_value(page, place.decls, name);
    page.say(" in\n")
}

// What stands before a block, up to its brace.
fn say_head(page: &mut Page, place: Place<'_>, head: &Head, throws: bool)
    ensures { GoesOn page.old page.new (statements.head_text (view_place place.entry) (view_head head.now) throws) }
{
    match head {
        Head::If(test) => say_tested(page, place, "if ", test),
        Head::While(test) => say_tested(page, place, "while ", test),
        Head::Group(name) => say_group(page, place, name, throws),
        // No plain file has one.
        Head::Bind(_, _) | Head::Assume(_) => page.say(""),
    }
}

// What a statement inside of a block stands in.
fn inside<'a>(place: Place<'a>, head: &'a Head, throws: bool) -> Place<'a>
    ensures { view_place result ≡ statements.inside (view_place place.entry) (view_head head.now) throws }
{
    match head {
        Head::Group(name) => Place {
            group: name.text.as_slice(),
            group_throws: throws,
            ..place
        },
        Head::If(_) | Head::While(_) | Head::Bind(_, _) | Head::Assume(_) => place,
    }
}

#[cycle(statement)]
#[tactic(auto, using(plain_parts::proofs::Views::of_action, plain_parts::proofs::Views::of_block, plain_parts::proofs::Views::of_choice))]
fn say_stmt(
    page: &mut Page,
    place: Place<'_>,
    depth: usize,
    stmt: &Stmt,
    rest: &[Stmt],
    given: usize,
)
    ensures { GoesOn page.old page.new (statements.stmt_text (view_stmt stmt.now) (view_place place.entry) depth (block_tree (map view_stmt rest.now)) given) }
{
    match stmt {
        Stmt::Do(action) => say_action(page, place, depth, action, rest, given),
        Stmt::Block(head, block) => {
            let throws = group_throws(block, place.throwers, &place.method.body);
            page.begin(depth);
            say_head(page, place, head, throws);
            say_stmts(
                page,
                inside(place, head, throws),
                deeper(depth),
                block,
                given,
            );
            page.line(depth, "}")
        }
        Stmt::IfElse(test, held, failed) => {
            page.begin(depth);
            say_tested(page, place, "if ", test);
            say_stmts(page, place, deeper(depth), held, given);
            page.begin(depth);
            page.say("} else ");
            say_else(page, place, depth, failed, given)
        }
    }
}

// A choice, whose line has begun.
#[cycle(statement)]
#[tactic(auto, using(plain_parts::proofs::Views::of_action, plain_parts::proofs::Views::of_block, plain_parts::proofs::Views::of_choice))]
fn say_choice(page: &mut Page, place: Place<'_>, depth: usize, stmt: &Stmt, given: usize)
    ensures { GoesOn page.old page.new (statements.choice_text (view_stmt stmt.now) (view_place place.entry) depth given) }
{
    match stmt {
        Stmt::Do(_) => page.say(""),
        Stmt::Block(head, block) => {
            say_head(page, place, head, false);
            say_stmts(page, place, deeper(depth), block, given);
            page.line(depth, "}")
        }
        Stmt::IfElse(test, held, failed) => {
            say_tested(page, place, "if ", test);
            say_stmts(page, place, deeper(depth), held, given);
            page.begin(depth);
            page.say("} else ");
            say_else(page, place, depth, failed, given)
        }
    }
}

// Whether a statement is a choice.
#[tactic(auto, using(plain_parts::proofs::Views::of_action, plain_parts::proofs::Views::of_block, plain_parts::proofs::Views::of_choice))]
fn is_choice(stmt: &Stmt) -> bool
    ensures { result ≡ statements.is_choice (view_stmt stmt.now) }
{
    match stmt {
        Stmt::Do(_) => false,
        Stmt::Block(head, _) => is_if(head),
        Stmt::IfElse(_, _, _) => true,
    }
}

fn is_if(head: &Head) -> bool
    ensures { result ≡ statements.is_if (view_head head.now) }
{
    match head {
        Head::If(_) => true,
        Head::While(_) | Head::Bind(_, _) | Head::Group(_) | Head::Assume(_) => false,
    }
}

// What is done where a test fails, behind the word: a choice alone goes on on its line.
#[cycle(statement)]
fn say_else(page: &mut Page, place: Place<'_>, depth: usize, failed: &[Stmt], given: usize)
    ensures { GoesOn page.old page.new (statements.else_text (block_tree (map view_stmt failed.now)) (view_place place.entry) depth given) }
{
    match failed {
        [] => {
            page.say("{\n");
            page.line(depth, "}")
        }
        [stmt, rest @ ..] => {
            if rest.is_empty() && is_choice(stmt) {
                say_choice(page, place, depth, stmt, given)
            } else {
                page.say("{\n");
                say_stmt(page, place, deeper(depth), stmt, rest, given);
                say_stmts(
                    page,
                    place,
                    deeper(depth),
                    rest,
                    after_stmt(place, stmt, given),
                );
                page.line(depth, "}")
            }
        }
    }
}

/// Statements, one after the other; `given` is the number of the last name that an argument was given before them.
#[cycle(statement)]
pub(crate) fn say_stmts(
    page: &mut Page,
    place: Place<'_>,
    depth: usize,
    stmts: &[Stmt],
    given: usize,
)
    ensures { GoesOn page.old page.new (statements.block_text (block_tree (map view_stmt stmts.now)) (view_place place.entry) depth given) }
{
    match stmts {
        [] => page.say(""),
        [stmt, rest @ ..] => {
            say_stmt(page, place, depth, stmt, rest, given);
            say_stmts(page, place, depth, rest, after_stmt(place, stmt, given))
        }
    }
}
