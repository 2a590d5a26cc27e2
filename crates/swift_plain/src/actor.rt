//! Actors, with their fields, invariants and methods, and their instances.

ghost use Rattle.std.specs.Prelude.{◌≡◌, ◌++◌, map};
ghost use Rattle.script_grammar.specs.Tree.{text_of, view, view_actor, view_decl, view_field, view_if, view_method};
ghost use Rattle.plain_parts.specs.Pages.{GoesOn};
ghost use Rattle.swift_plain.specs.Actors as actors;
ghost use Rattle.swift_plain.specs.Signatures.{view_thrower};

use crate::place::Place;
use crate::signature::{Thrower, gives_number, method_throws};
use crate::statement::say_stmts;
use plain_parts::{Page, ends, say_instance, say_method, say_test, say_type, say_value};
use script_grammar::{Actor, Decl, Expr, Field, Method, Name};

// The start value of a field, and the end of its line.
#[tactic(auto, unfolding(crate::specs::Actors::start_text))]
fn say_start(page: &mut Page, field: &Field)
    ensures { GoesOn page.old page.new (actors.start_text (view_field field.now)) }
{
    page.say(" = ");
    page.say_number(field.start);
    page.say("\n")
}

#[tactic(auto, unfolding(crate::specs::Actors::field_text))]
fn say_field(page: &mut Page, decls: &[Decl], field: &Field)
    ensures { GoesOn page.old page.new (actors.field_text (map view_decl decls.now) (view_field field.now)) }
{
    page.say("    private(set) var ");
    say_value(page, decls, &field.name);
    say_start(page, field)
}

fn say_fields(page: &mut Page, decls: &[Decl], fields: &[Field])
    ensures { GoesOn page.old page.new (actors.fields_text (map view_decl decls.now) (map view_field fields.now)) }
{
    match fields {
        [] => page.say(""),
        [field, rest @ ..] => {
            say_field(page, decls, field);
            say_fields(page, decls, rest)
        }
    }
}

// What has to hold of an actor.
#[tactic(auto, unfolding(crate::specs::Actors::required_text))]
fn say_required(page: &mut Page, decls: &[Decl], test: &Expr)
    ensures { GoesOn page.old page.new (actors.required_text (map view_decl decls.now) (view test.now)) }
{
    page.say("    // invariant: ");
    say_test(page, decls, test);
    page.say("\n")
}

fn say_invariant(page: &mut Page, decls: &[Decl], invariant: &Option<Expr>)
    ensures { GoesOn page.old page.new (actors.invariant_text (map view_decl decls.now) (view_if invariant.now)) }
{
    match invariant {
        Some(test) => say_required(page, decls, test),
        None => page.say(""),
    }
}

// A parameter has no label.
#[tactic(auto, unfolding(crate::specs::Actors::param_text))]
fn say_param(page: &mut Page, decls: &[Decl], param: &Name)
    ensures { GoesOn page.old page.new (actors.param_text (map view_decl decls.now) (text_of param.now)) }
{
    page.say("_ ");
    say_value(page, decls, param);
    page.say(": Int")
}

fn say_more_params(page: &mut Page, decls: &[Decl], params: &[Name])
    ensures { GoesOn page.old page.new (actors.more_params (map view_decl decls.now) (map text_of params.now)) }
{
    match params {
        [] => page.say(""),
        [param, rest @ ..] => {
            page.say(", ");
            say_param(page, decls, param);
            say_more_params(page, decls, rest)
        }
    }
}

fn say_params(page: &mut Page, decls: &[Decl], params: &[Name])
    ensures { GoesOn page.old page.new (actors.params_text (map view_decl decls.now) (map text_of params.now)) }
{
    match params {
        [] => page.say(""),
        [param, rest @ ..] => {
            say_param(page, decls, param);
            say_more_params(page, decls, rest)
        }
    }
}

// The words behind the parameters of a method, and its brace.
fn say_words(page: &mut Page, throws: bool, is_number: bool)
    ensures { GoesOn page.old page.new (actors.words_text throws is_number) }
{
    page.say(") async");
    page.say(if throws { " throws" } else { "" });
    page.say(if is_number { " -> Int" } else { "" });
    page.say(" {\n")
}

// A method that is to give a number gives 0 at its end.
fn say_last(page: &mut Page, is_missing: bool)
    ensures { GoesOn page.old page.new (actors.last_text is_missing) }
{
    if is_missing {
        page.line(2, "return 0")
    } else {
        page.say("")
    }
}

// What stands before the body of a method.
fn say_head(
    page: &mut Page,
    decls: &[Decl],
    throwers: &[Thrower<'_>],
    actor: &Name,
    method: &Method,
)
    ensures { GoesOn page.old page.new (actors.head_text (map view_decl decls.now) (map view_thrower throwers.now) (text_of actor.now) (view_method method.now)) }
{
    page.say("\n    func ");
    say_method(page, decls, actor, &method.name);
    page.say("(");
    say_params(page, decls, &method.params);
    let throws = method_throws(throwers, actor, &method.name);
    say_words(page, throws, gives_number(decls, actor, &method.name))
}

fn say_body(page: &mut Page, decls: &[Decl], throwers: &[Thrower<'_>], method: &Method)
    ensures { GoesOn page.old page.new (actors.body_text (map view_decl decls.now) (map view_thrower throwers.now) (view_method method.now)) }
{
    let place = Place {
        decls,
        throwers,
        method,
        group: b"",
        group_throws: false,
    };
    say_stmts(page, place, 2, &method.body, 0)
}

#[tactic(auto, unfolding(crate::specs::Actors::method_text))]
fn say_whole_method(
    page: &mut Page,
    decls: &[Decl],
    throwers: &[Thrower<'_>],
    actor: &Name,
    method: &Method,
)
    ensures { GoesOn page.old page.new (actors.method_text (map view_decl decls.now) (map view_thrower throwers.now) (text_of actor.now) (view_method method.now)) }
{
    say_head(page, decls, throwers, actor, method);
    say_body(page, decls, throwers, method);
    let is_number = gives_number(decls, actor, &method.name);
    say_last(page, is_number && !ends(&method.body));
    page.say("    }\n")
}

fn say_methods(
    page: &mut Page,
    decls: &[Decl],
    throwers: &[Thrower<'_>],
    actor: &Name,
    methods: &[Method],
)
    ensures { GoesOn page.old page.new (actors.methods_text (map view_decl decls.now) (map view_thrower throwers.now) (text_of actor.now) (map view_method methods.now)) }
{
    match methods {
        [] => page.say(""),
        [method, rest @ ..] => {
            say_whole_method(page, decls, throwers, actor, method);
            say_methods(page, decls, throwers, actor, rest)
        }
    }
}

/// An actor.
pub(crate) fn say_actor(page: &mut Page, decls: &[Decl], throwers: &[Thrower<'_>], actor: &Actor)
    ensures { GoesOn page.old page.new (actors.actor_text (map view_decl decls.now) (map view_thrower throwers.now) (view_actor actor.now)) }
{
    page.say("actor ");
    say_type(page, &actor.name);
    page.say(" {\n");
    say_fields(page, decls, &actor.fields);
    say_invariant(page, decls, &actor.invariant);
    say_methods(page, decls, throwers, &actor.name, &actor.methods);
    page.say("}\n\n")
}

/// The instance of an actor.
pub(crate) fn say_made(page: &mut Page, actor: &Name)
    ensures { GoesOn page.old page.new (actors.instance_text (text_of actor.now)) }
{
    page.say("let ");
    say_instance(page, actor);
    page.say(" = ");
    say_type(page, actor);
    page.say("()\n")
}
