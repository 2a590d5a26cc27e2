//! Actors, with their fields, invariants and methods.

ghost use Rattle.std.specs.Prelude.{◌≡◌, map, IfOk};
ghost use Rattle.script_grammar.specs.Tree.{text_of, view_actor, view_method};
ghost use Rattle.swift_programs.specs.Names as names;
ghost use Rattle.swift_programs.specs.Outline.{actor_for, actor_in, method_for, method_in};

use crate::expression::say_test;
use crate::flow::{Use, ends};
use crate::page::SwiftPage;
use crate::prelude::Difference;
use crate::program::{SwiftActor, SwiftMethod};
use crate::scope::{Handle, MethodScope, has_invariant, is_together};
use crate::statement::say_stmts;
use crate::words::{is_same, method_name, say_member, say_type, say_value, type_name, value_name};
use script_grammar::{Actor, Decl, Expr, Field, Method, Name};
use std::alloc::{AllocError, Global};

// The executor of an actor that has one of its own is Swift's.
fn say_executor(page: &mut SwiftPage, executor: &Option<Name>) {
    match executor {
        Some(name) => {
            page.begin();
            page.say("nonisolated var unownedExecutor: UnownedSerialExecutor { Executors.");
            say_member(page, name);
            page.end(".asUnownedSerialExecutor() }")
        }
        None => {}
    }
}

fn say_field(page: &mut SwiftPage, field: &Field) {
    page.begin();
    page.say("var ");
    say_value(page, &field.name);
    page.say(": Int64 = ");
    page.say_number(field.start);
    page.end("")
}

fn say_invariant(page: &mut SwiftPage, scope: &MethodScope<'_>, test: &Expr) {
    page.end("");
    page.see(Difference::NotUndone);
    page.begin();
    page.open("func invariantHolds() throws -> Bool {");
    page.begin();
    say_test(page, scope, test);
    page.end("");
    page.close("}")
}

// The test of the invariant of an actor, from one of the same executor.
fn say_check(page: &mut SwiftPage, actor: &Actor, other: &Actor) {
    page.begin();
    if is_same(&actor.name, &other.name) {
        page.say("Run.check(\"");
        page.say_bytes(&other.name.text);
        page.end("\", invariantHolds)")
    } else {
        say_type(page, &other.name);
        page.say(".shared.assumeIsolated { Run.check(\"");
        page.say_bytes(&other.name.text);
        page.end("\", $0.invariantHolds) }")
    }
}

// What is tested at the end of each turn, if anything is.
fn say_turn_ends(page: &mut SwiftPage, decls: &[Decl], actor: &Actor) {
    page.end("");
    page.begin();
    page.open("func turnEnds() {");
    for decl in decls {
        if let Decl::Actor(other) = decl {
            if other.invariant.is_some() && is_together(actor, other) {
                say_check(page, actor, other);
            }
        }
    }
    page.close("}")
}

// What stands before an actor's methods.
fn members<'a>(alloc: Global, decls: &'a [Decl], actor: &'a Actor) -> Result<Vec<u8>, AllocError> {
    let mut page = SwiftPage::new(alloc, 1);
    page.begin();
    page.say("static let shared = ");
    say_type(&mut page, &actor.name);
    page.end("()");
    say_executor(&mut page, &actor.executor);
    if !actor.fields.is_empty() {
        page.end("");
    }
    for field in &actor.fields {
        say_field(&mut page, field);
    }
    if let Some(test) = &actor.invariant {
        let scope = MethodScope::new(alloc, decls, actor, None, false);
        say_invariant(&mut page, &scope, test);
    }
    if has_invariant(decls, actor) {
        say_turn_ends(&mut page, decls, actor);
    }
    page.into_text()
}

// A parameter that the method sets is a variable, unless it is never read.
fn say_param<'a>(page: &mut SwiftPage, scope: &mut MethodScope<'a>, param: &'a Name) {
    if !scope.is_used(Use::Read, param) {
        return page.need(scope.know(param, Handle::Unread));
    }
    if scope.is_used(Use::Set, param) {
        page.begin();
        page.say("var ");
        say_value(page, param);
        page.say(" = ");
        say_value(page, param);
        page.end("")
    }
}

// The lines of a method's body.
fn body(
    alloc: Global,
    decls: &[Decl],
    actor: &Actor,
    method: &Method,
    is_counted: bool,
) -> Result<Vec<u8>, AllocError> {
    let is_checked = has_invariant(decls, actor);
    let mut page = SwiftPage::new(alloc, 2);
    let mut scope = MethodScope::new(alloc, decls, actor, Some(&method.body), is_checked);
    for param in &method.params {
        say_param(&mut page, &mut scope, param);
    }
    if is_counted {
        page.line("try Run.beginMethod()");
        page.line("defer { Run.endMethod() }");
    }
    if is_checked {
        page.line("defer { turnEnds() }");
    }
    say_stmts(&mut page, &mut scope, &method.body);
    if !ends(scope.place(), &method.body) {
        page.line("return 0");
    }
    page.into_text()
}

fn params(alloc: Global, params: &[Name]) -> Result<Vec<Vec<u8>>, AllocError>
    ensures { IfOk result (λ said. map (λ p. p.items) said.items ≡ map names.value_name (map text_of params.now)) }
{
    let mut said = Vec::new(alloc);
    for param in params {
        said.push(value_name(alloc, param)?)?;
    }
    Ok(said)
}

fn swift_method(
    alloc: Global,
    decls: &[Decl],
    actor: &Actor,
    method: &Method,
    is_counted: bool,
) -> Result<SwiftMethod, AllocError>
    ensures { IfOk result (λ said. method_in said ≡ method_for (view_actor actor.now) (view_method method.now)) }
{
    let name = method_name(alloc, actor, &method.name)?;
    let params = params(alloc, &method.params)?;
    let body = body(alloc, decls, actor, method, is_counted)?;
    Ok(SwiftMethod { name, params, body })
}

fn methods(
    alloc: Global,
    decls: &[Decl],
    actor: &Actor,
    is_counted: bool,
) -> Result<Vec<SwiftMethod>, AllocError>
    ensures { IfOk result (λ said. map method_in said.items ≡ map (method_for (view_actor actor.now)) (map view_method actor.now.methods.items)) }
{
    let mut methods = Vec::new(alloc);
    for method in &actor.methods {
        methods.push(swift_method(alloc, decls, actor, method, is_counted)?)?;
    }
    Ok(methods)
}

/// The Swift actor of one of the script, whose methods are counted while they are under way, or not.
pub(crate) fn swift_actor(
    alloc: Global,
    decls: &[Decl],
    actor: &Actor,
    is_counted: bool,
) -> Result<SwiftActor, AllocError>
    ensures { IfOk result (λ said. actor_in said ≡ actor_for (view_actor actor.now)) }
{
    let name = type_name(alloc, &actor.name)?;
    let members = members(alloc, decls, actor)?;
    let methods = methods(alloc, decls, actor, is_counted)?;
    Ok(SwiftActor {
        name,
        members,
        methods,
    })
}
