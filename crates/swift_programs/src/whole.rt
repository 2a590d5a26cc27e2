//! Whole programs.

ghost use Rattle.std.specs.Prelude.{◌≡◌, ◌++◌, map, IfOk, OnOk};
ghost use Rattle.script_grammar.specs.Tree.{view_decl};
ghost use Rattle.swift_programs.specs.Outline.{actor_in, actors_for, outline, wanted};

use crate::actor::swift_actor;
use crate::call::{priority, say_called};
use crate::depth::may_pass_frames;
use crate::page::SwiftPage;
use crate::prelude::{NOTES, PRELUDE};
use crate::program::{SwiftActor, SwiftProgram};
use crate::words::{say_member, say_type, say_value};
use script_grammar::{Actor, Decl, Executor, Local, Name, Root};
use std::alloc::{AllocError, Global};
use swift_types::ExecutorKind;

fn say_executor(page: &mut SwiftPage, executor: &Executor) {
    page.begin();
    page.say("static let ");
    say_member(page, &executor.name);
    page.say(" = Run.Executor(");
    match executor.kind {
        ExecutorKind::Priority => page.say(".priority"),
        ExecutorKind::Fifo => page.say(".fifo"),
        ExecutorKind::Pinned(worker) => {
            page.say(".pinned(");
            page.say_number(worker);
            page.say(")");
        }
    }
    page.end(")")
}

fn say_executors(page: &mut SwiftPage, decls: &[Decl]) {
    page.begin();
    page.open("enum Executors {");
    for decl in decls {
        if let Decl::Executor(executor) = decl {
            say_executor(page, executor);
        }
    }
    page.close("}");
    page.end("")
}

fn say_local(page: &mut SwiftPage, local: &Local) {
    page.begin();
    page.say("@TaskLocal static var ");
    say_member(page, &local.name);
    page.say(": Int64 = ");
    page.say_number(local.default);
    page.end("")
}

fn say_locals(page: &mut SwiftPage, decls: &[Decl]) {
    page.begin();
    page.open("enum Local {");
    for decl in decls {
        if let Decl::Local(local) = decl {
            say_local(page, local);
        }
    }
    page.close("}");
    page.end("")
}

// What stands before the actors.
fn head(alloc: Global, decls: &[Decl]) -> Result<Vec<u8>, AllocError> {
    let mut page = SwiftPage::new(alloc, 0);
    page.say(NOTES);
    say_executors(&mut page, decls);
    say_locals(&mut page, decls);
    page.into_text()
}

fn say_root(page: &mut SwiftPage, decls: &[Decl], root: &Root) {
    page.begin();
    page.say("static let ");
    say_value(page, &root.name);
    page.say(" = Task.detached(priority: ");
    page.say(priority(root.priority));
    page.say(") { @Sendable @");
    say_type(page, &root.actor);
    page.say(" [m_task = Run.made(.root(\"");
    page.say_bytes(&root.name.text);
    page.open("\"))] in");
    page.begin();
    page.say("try await Run.noted(m_task) { try await ");
    say_called(page, decls, &root.actor, &root.method);
    page.say("(");
    let mut between = "";
    for arg in &root.args {
        page.say(between);
        page.say_number(*arg);
        between = ", ";
    }
    page.end(") }");
    page.close("}")
}

fn say_roots(page: &mut SwiftPage, decls: &[Decl]) {
    page.begin();
    page.open("enum Root {");
    for decl in decls {
        if let Decl::Root(root) = decl {
            say_root(page, decls, root);
        }
    }
    page.close("}");
    page.end("")
}

// The executor of an actor is kept from its jobs until all roots are there.
fn say_hold(page: &mut SwiftPage, actor: &Actor) {
    page.begin();
    page.say("Task.detached(priority: .high) { @Sendable @");
    say_type(page, &actor.name);
    page.end(" in Run.hold() }")
}

fn say_fields(page: &mut SwiftPage, actor: &Actor) {
    for field in &actor.fields {
        page.begin();
        page.say("await print(\"");
        page.say_bytes(&actor.name.text);
        page.say(".");
        page.say_bytes(&field.name.text);
        page.say("\", ");
        say_type(page, &actor.name);
        page.say(".shared.");
        say_value(page, &field.name);
        page.end(")");
    }
}

fn say_start(page: &mut SwiftPage, decls: &[Decl]) {
    page.line("Run.gate.enter()");
    for decl in decls {
        if let Decl::Actor(actor) = decl {
            say_hold(page, actor);
        }
    }
    for decl in decls {
        if let Decl::Root(root) = decl {
            page.begin();
            page.say("_ = Root.");
            say_value(page, &root.name);
            page.end("");
        }
    }
    page.line("Run.gate.leave()")
}

fn say_end(page: &mut SwiftPage, decls: &[Decl]) {
    page.line("let areValues = Run.report()");
    page.begin();
    page.open("Task.detached {");
    for decl in decls {
        if let Decl::Actor(actor) = decl {
            say_fields(page, actor);
        }
    }
    page.line("exit(areValues ? 0 : 1)");
    page.close("}");
    page.line("dispatchMain()")
}

fn say_main(page: &mut SwiftPage, decls: &[Decl]) {
    page.begin();
    page.open("@main struct Main {");
    page.begin();
    page.open("static func main() {");
    say_start(page, decls);
    say_end(page, decls);
    page.close("}");
    page.close("}");
    page.end("")
}

// What stands after the actors.
fn tail(alloc: Global, decls: &[Decl]) -> Result<Vec<u8>, AllocError> {
    let mut page = SwiftPage::new(alloc, 0);
    say_roots(&mut page, decls);
    say_main(&mut page, decls);
    page.say(PRELUDE);
    page.into_text()
}

// Puts the Swift actor of a declaration after the others, if it is one of an actor.
fn add_actor(
    alloc: Global,
    decls: &[Decl],
    decl: &Decl,
    is_counted: bool,
    actors: &mut Vec<SwiftActor>,
) -> Result<(), AllocError>
    ensures { OnOk result (map actor_in actors.new.items ≡ map actor_in actors.old.items ++ actors_for (view_decl decl.now)) }
{
    match decl {
        Decl::Actor(actor) => actors.push(swift_actor(alloc, decls, actor, is_counted)?)?,
        Decl::Executor(_) | Decl::Local(_) | Decl::Root(_) => {}
    }
    Ok(())
}

fn actors(alloc: Global, decls: &[Decl]) -> Result<Vec<SwiftActor>, AllocError>
    ensures { IfOk result (λ actors. map actor_in actors.items ≡ wanted (map view_decl decls.now)) }
{
    let is_counted = may_pass_frames(decls);
    let mut actors = Vec::new(alloc);
    for decl in decls {
        add_actor(alloc, decls, decl, is_counted, &mut actors)?;
    }
    Ok(actors)
}

/// The Swift program of a script's declarations (our own).
///
/// # Errors
///
/// `AllocError` where there is no memory for it.
pub fn swift_program(alloc: Global, decls: &[Decl]) -> Result<SwiftProgram, AllocError>
    // It has an actor for each actor, and a method for each method, in order.
    ensures { IfOk result (λ program. outline program ≡ wanted (map view_decl decls.now)) }
{
    let head = head(alloc, decls)?;
    let actors = actors(alloc, decls)?;
    let tail = tail(alloc, decls)?;
    Ok(SwiftProgram { head, actors, tail })
}
