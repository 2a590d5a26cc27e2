//! The errors that a file throws.

ghost use Rattle.std.specs.Prelude.{◌≡◌, ◌++◌, map};
ghost use Rattle.script_grammar.specs.Tree.{view_decl};
ghost use Rattle.plain_parts.specs.Pages.{GoesOn};
ghost use Rattle.swift_plain.specs.Failures as failures;

use crate::signature::decls_have;
use plain_parts::{Page, Sought};
use script_grammar::Decl;

// Whether a number is thrown that is no less.
fn is_needed(decls: &[Decl], code: u8) -> bool
    ensures { result ≡ failures.is_needed (map view_decl decls.now) code }
{
    decls_have(decls, Sought::Throw(i64::from(code)))
}

// What stands before the number of a case.
fn case_word(code: u8) -> &'static str
    ensures { result.now ≡ failures.case_word code }
{
    if code == 0 { "code" } else { ", code" }
}

fn say_case(page: &mut Page, decls: &[Decl], code: u8)
    ensures { GoesOn page.old page.new (failures.case_text (map view_decl decls.now) code) }
{
    if is_needed(decls, code) {
        page.say(case_word(code));
        page.say_count(usize::from(code))
    } else {
        page.say("")
    }
}

// The cases of numbers below one.
fn say_cases(page: &mut Page, decls: &[Decl], count: u8)
    ensures { GoesOn page.old page.new (failures.cases_text (map view_decl decls.now) count) }
{
    if count == 0 {
        page.say("")
    } else {
        say_cases(page, decls, count - 1);
        say_case(page, decls, count - 1)
    }
}

// The errors of a script that throws some.
#[tactic(auto, unfolding(crate::specs::Failures::enum_text))]
fn say_enum(page: &mut Page, decls: &[Decl])
    ensures { GoesOn page.old page.new (failures.enum_text (map view_decl decls.now)) }
{
    page.say("enum Failure: Error { case ");
    say_cases(page, decls, 100);
    page.say(" }\n\n")
}

/// The errors of a script: a case for each number up to the greatest that it throws.
pub(crate) fn say_failures(page: &mut Page, decls: &[Decl])
    ensures { GoesOn page.old page.new (failures.failures_text (map view_decl decls.now)) }
{
    if is_needed(decls, 0) {
        say_enum(page, decls)
    } else {
        page.say("")
    }
}
