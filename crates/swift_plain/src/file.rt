//! Whole files.

ghost use Rattle.std.specs.Prelude.{◌≡◌, ◌++◌, map, IfOk};
ghost use Rattle.script_grammar.specs.Tree.{text_of, view_decl, view_root};
ghost use Rattle.plain_parts.specs.Pages.{GoesOn};
ghost use Rattle.swift_plain.specs.Files as files;
ghost use Rattle.swift_plain.specs.Signatures.{view_thrower};

use crate::actor::{say_actor, say_made};
use crate::call::{awaiting, given_of, say_called, say_given, say_priority};
use crate::failures::say_failures;
use crate::signature::{Thrower, gives_number, method_throws};
use plain_parts::{Page, one_more, say_value};
use script_grammar::{Decl, Root};
use std::alloc::{AllocError, Global};

fn say_declared(page: &mut Page, decls: &[Decl], throwers: &[Thrower<'_>], decl: &Decl)
    ensures { GoesOn page.old page.new (files.declared_text (map view_decl decls.now) (map view_thrower throwers.now) (view_decl decl.now)) }
{
    match decl {
        Decl::Actor(actor) => say_actor(page, decls, throwers, actor),
        Decl::Executor(_) | Decl::Local(_) | Decl::Root(_) => page.say(""),
    }
}

fn say_actors(page: &mut Page, decls: &[Decl], throwers: &[Thrower<'_>], left: &[Decl])
    ensures { GoesOn page.old page.new (files.actors_text (map view_decl decls.now) (map view_thrower throwers.now) (map view_decl left.now)) }
{
    match left {
        [] => page.say(""),
        [decl, rest @ ..] => {
            say_declared(page, decls, throwers, decl);
            say_actors(page, decls, throwers, rest)
        }
    }
}

fn say_instance_of(page: &mut Page, decl: &Decl)
    ensures { GoesOn page.old page.new (files.instance_of (view_decl decl.now)) }
{
    match decl {
        Decl::Actor(actor) => say_made(page, &actor.name),
        Decl::Executor(_) | Decl::Local(_) | Decl::Root(_) => page.say(""),
    }
}

fn say_instances(page: &mut Page, left: &[Decl])
    ensures { GoesOn page.old page.new (files.instances_text (map view_decl left.now)) }
{
    match left {
        [] => page.say(""),
        [decl, rest @ ..] => {
            say_instance_of(page, decl);
            say_instances(page, rest)
        }
    }
}

// The number of the last name that was given, after an argument of a root. One below 0 needs a name.
fn after_number(number: i64, given: usize) -> usize
    ensures { result ≡ files.after_number number given }
{
    if number < 0 { one_more(given) } else { given }
}

fn after_numbers(numbers: &[i64], given: usize) -> usize
    ensures { result ≡ files.after_numbers numbers.now given }
{
    match numbers {
        [] => given,
        [number, rest @ ..] => after_numbers(rest, after_number(*number, given)),
    }
}

// What an argument is, and the end of its line.
#[tactic(auto, unfolding(crate::specs::Files::number_text))]
fn say_number(page: &mut Page, number: &i64)
    ensures { GoesOn page.old page.new (files.number_text number.now) }
{
    page.say(" = ");
    page.say_number(*number);
    page.say("\n")
}

// The line that names an argument.
#[tactic(auto, unfolding(crate::specs::Files::number_line))]
fn say_number_line(page: &mut Page, number: &i64, given: usize)
    ensures { GoesOn page.old page.new (files.number_line number.now given) }
{
    page.say("        let ");
    say_given(page, one_more(given));
    say_number(page, number)
}

fn say_named_number(page: &mut Page, number: i64, given: usize)
    ensures { GoesOn page.old page.new (files.named_number number given) }
{
    if number < 0 {
        say_number_line(page, &number, given)
    } else {
        page.say("")
    }
}

fn say_named_numbers(page: &mut Page, numbers: &[i64], given: usize)
    ensures { GoesOn page.old page.new (files.named_numbers numbers.now given) }
{
    match numbers {
        [] => page.say(""),
        [number, rest @ ..] => {
            say_named_number(page, *number, given);
            say_named_numbers(page, rest, after_number(*number, given))
        }
    }
}

fn say_argument(page: &mut Page, number: i64, given: usize)
    ensures { GoesOn page.old page.new (files.root_argument number given) }
{
    if number < 0 {
        say_given(page, one_more(given))
    } else {
        page.say_number(number)
    }
}

fn say_more_arguments(page: &mut Page, numbers: &[i64], given: usize)
    ensures { GoesOn page.old page.new (files.more_root_arguments numbers.now given) }
{
    match numbers {
        [] => page.say(""),
        [number, rest @ ..] => {
            page.say(", ");
            say_argument(page, *number, given);
            say_more_arguments(page, rest, after_number(*number, given))
        }
    }
}

fn say_arguments(page: &mut Page, numbers: &[i64], given: usize)
    ensures { GoesOn page.old page.new (files.root_arguments numbers.now given) }
{
    match numbers {
        [] => page.say(""),
        [number, rest @ ..] => {
            say_argument(page, *number, given);
            say_more_arguments(page, rest, after_number(*number, given))
        }
    }
}

// The line that makes the task of a root.
#[tactic(auto, unfolding(crate::specs::Files::task_text))]
fn say_task(page: &mut Page, decls: &[Decl], throwers: &[Thrower<'_>], root: &Root, given: usize)
    ensures { GoesOn page.old page.new (files.task_text (map view_decl decls.now) (map view_thrower throwers.now) (view_root root.now) given) }
{
    page.say("        let ");
    say_value(page, decls, &root.name);
    page.say(" = Task");
    say_priority(page, given_of(root.priority));
    let throws = method_throws(throwers, &root.actor, &root.method);
    page.say(" { ");
    page.say(awaiting(throws));
    say_called(page, decls, &root.actor, &root.method);
    page.say("(");
    say_arguments(page, &root.args, given);
    page.say(") }\n")
}

#[tactic(auto, unfolding(crate::specs::Files::root_text))]
fn say_root(page: &mut Page, decls: &[Decl], throwers: &[Thrower<'_>], root: &Root, given: usize)
    ensures { GoesOn page.old page.new (files.root_text (map view_decl decls.now) (map view_thrower throwers.now) (view_root root.now) given) }
{
    say_named_numbers(page, &root.args, given);
    say_task(page, decls, throwers, root, given)
}

fn say_roots(page: &mut Page, decls: &[Decl], throwers: &[Thrower<'_>], left: &[Decl], given: usize)
    ensures { GoesOn page.old page.new (files.roots_text (map view_decl decls.now) (map view_thrower throwers.now) (map view_decl left.now) given) }
{
    match left {
        [] => page.say(""),
        [Decl::Root(root), rest @ ..] => {
            say_root(page, decls, throwers, root, given);
            say_roots(
                page,
                decls,
                throwers,
                rest,
                after_numbers(&root.args, given),
            )
        }
        [_, rest @ ..] => say_roots(page, decls, throwers, rest, given),
    }
}

// What stands before a root that is waited for: its number and its error are let go.
fn letting_go(throws: bool, is_number: bool) -> &'static str
    ensures { result.now ≡ files.letting_go throws is_number }
{
    if throws {
        "        _ = try? await "
    } else if is_number {
        "        _ = await "
    } else {
        "        await "
    }
}

// The line that waits for a root.
fn say_wait(page: &mut Page, decls: &[Decl], throwers: &[Thrower<'_>], root: &Root)
    ensures { GoesOn page.old page.new (files.wait_text (map view_decl decls.now) (map view_thrower throwers.now) (view_root root.now)) }
{
    let throws = method_throws(throwers, &root.actor, &root.method);
    page.say(letting_go(throws, gives_number(decls, &root.actor, &root.method)));
    say_value(page, decls, &root.name);
    page.say(".value\n")
}

fn say_waited(page: &mut Page, decls: &[Decl], throwers: &[Thrower<'_>], decl: &Decl)
    ensures { GoesOn page.old page.new (files.waited_text (map view_decl decls.now) (map view_thrower throwers.now) (view_decl decl.now)) }
{
    match decl {
        Decl::Root(root) => say_wait(page, decls, throwers, root),
        Decl::Executor(_) | Decl::Local(_) | Decl::Actor(_) => page.say(""),
    }
}

fn say_waits(page: &mut Page, decls: &[Decl], throwers: &[Thrower<'_>], left: &[Decl])
    ensures { GoesOn page.old page.new (files.waits_text (map view_decl decls.now) (map view_thrower throwers.now) (map view_decl left.now)) }
{
    match left {
        [] => page.say(""),
        [decl, rest @ ..] => {
            say_waited(page, decls, throwers, decl);
            say_waits(page, decls, throwers, rest)
        }
    }
}

// The program makes all roots before it waits for the first one.
#[tactic(auto, unfolding(crate::specs::Files::main_text))]
fn say_main(page: &mut Page, decls: &[Decl], throwers: &[Thrower<'_>])
    ensures { GoesOn page.old page.new (files.main_text (map view_decl decls.now) (map view_thrower throwers.now)) }
{
    page.say("\n@main\nstruct Main {\n    static func main() async {\n");
    say_roots(page, decls, throwers, decls, 0);
    say_waits(page, decls, throwers, decls);
    page.say("    }\n}\n")
}

fn say_file(page: &mut Page, decls: &[Decl], throwers: &[Thrower<'_>])
    ensures { GoesOn page.old page.new (files.file_text (map view_decl decls.now) (map view_thrower throwers.now)) }
{
    say_actors(page, decls, throwers, decls);
    say_failures(page, decls);
    say_instances(page, decls);
    say_main(page, decls, throwers)
}

/// The plain Swift file of a script's declarations, of whose methods these throw (our own).
///
/// # Errors
///
/// `AllocError` where there is no memory for it.
pub(crate) fn file_text(
    alloc: Global,
    decls: &[Decl],
    throwers: &[Thrower<'_>],
) -> Result<Vec<u8>, AllocError>
    ensures { IfOk result (λ text. text.items ≡ files.file_text (map view_decl decls.now) (map view_thrower throwers.now)) }
{
    let mut page = Page::new(alloc);
    say_file(&mut page, decls, throwers);
    page.into_text()
}
