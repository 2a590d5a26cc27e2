//! Which methods throw.

ghost use Rattle.std.specs.Prelude.{◌≡◌, true, map, IfOk};
ghost use Rattle.script_grammar.specs.Tree.{text_of, view_decl, view_method};
ghost use Rattle.swift_plain.specs.Signatures.{view_thrower};
ghost use Rattle.swift_plain.specs.Throwers as throwers;

use crate::signature::{Thrower, body_throws, method_throws};
use script_grammar::{Actor, Decl, Method, Name};
use std::alloc::{AllocError, Global};

fn is_told(known: &[Thrower<'_>], actor: &Name, method: &Method) -> bool
    ensures { result ≡ throwers.is_told (map view_thrower known.now) (text_of actor.now) (view_method method.now) }
{
    let is_known = method_throws(known, actor, &method.name);
    let throws = body_throws(known, method);
    (is_known && throws) || (!is_known && !throws)
}

fn methods_are_told(known: &[Thrower<'_>], actor: &Name, methods: &[Method]) -> bool
    ensures { result ≡ throwers.methods_are_told (map view_thrower known.now) (text_of actor.now) (map view_method methods.now) }
{
    match methods {
        [] => true,
        [method, rest @ ..] => is_told(known, actor, method)
            && methods_are_told(known, actor, rest),
    }
}

fn decl_is_told(known: &[Thrower<'_>], decl: &Decl) -> bool
    ensures { result ≡ throwers.decl_is_told (map view_thrower known.now) (view_decl decl.now) }
{
    match decl {
        Decl::Actor(actor) => methods_are_told(known, &actor.name, &actor.methods),
        Decl::Executor(_) | Decl::Local(_) | Decl::Root(_) => true,
    }
}

// Whether a method is among those that are known exactly where it throws by these.
fn are_told(known: &[Thrower<'_>], decls: &[Decl]) -> bool
    ensures { result ≡ throwers.are_told (map view_thrower known.now) (map view_decl decls.now) }
{
    match decls {
        [] => true,
        [decl, rest @ ..] => decl_is_told(known, decl) && are_told(known, rest),
    }
}

// Notes a method that throws by those that are known.
fn note_method<'a>(
    known: &mut Vec<Thrower<'a>>,
    actor: &'a Name,
    method: &'a Method,
) -> Result<(), AllocError> {
    let throws = body_throws(known.as_slice(), method);
    if throws && !method_throws(known.as_slice(), actor, &method.name) {
        known.push(Thrower {
            actor,
            method: &method.name,
        })?;
    }
    Ok(())
}

fn note_methods<'a>(known: &mut Vec<Thrower<'a>>, actor: &'a Actor) -> Result<(), AllocError> {
    for method in &actor.methods {
        note_method(known, &actor.name, method)?;
    }
    Ok(())
}

// Notes the methods that throw by those that are known.
fn note<'a>(known: &mut Vec<Thrower<'a>>, decls: &'a [Decl]) -> Result<(), AllocError> {
    for decl in decls {
        if let Decl::Actor(actor) = decl {
            note_methods(known, actor)?;
        }
    }
    Ok(())
}

fn count_methods(decls: &[Decl]) -> usize {
    let mut count: usize = 0;
    for decl in decls {
        if let Decl::Actor(actor) = decl {
            count = count.saturating_add(actor.methods.len());
        }
    }
    count
}

/// The methods of a script that throw: one of them is there exactly where its body throws by these. Quadratic in the methods, times their
/// statements.
///
/// # Errors
///
/// `AllocError` where there is no memory for them.
pub(crate) fn throwers<'a>(alloc: Global, decls: &'a [Decl]) -> Result<Vec<Thrower<'a>>, AllocError>
    ensures { IfOk result (λ known. throwers.are_told (map view_thrower known.items) (map view_decl decls.now) ≡ true) }
{
    let mut known = Vec::new(alloc);
    // Each round but the last finds a method more, so the last one ends before the count.
    for _ in 0..count_methods(decls).saturating_add(1) {
        if are_told(known.as_slice(), decls) {
            return Ok(known);
        }
        note(&mut known, decls)?;
    }
    Err(AllocError)
}
