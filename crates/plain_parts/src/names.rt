//! How names of a script are spelled in a plain Swift file.

ghost use Rattle.std.specs.Prelude.{◌≡◌, ◌∷◌, bytes_eq, map};
ghost use Rattle.std.specs.List.{list_any};
ghost use Rattle.script_grammar.specs.Tree.{text_of, view_decl, view_field};
ghost use Rattle.plain_parts.specs.Pages.{GoesOn};
ghost use Rattle.plain_parts.specs.Names as names;

use crate::page::Page;
use script_grammar::{Decl, Field, Name};

/// Swift's keywords that a script may have as names, and what the file or the subset means by a name.
pub const WORDS: [&[u8]; 56] = [
    b"_",
    b"as",
    b"assert",
    b"associatedtype",
    b"async",
    b"break",
    b"case",
    b"catch",
    b"class",
    b"continue",
    b"default",
    b"defer",
    b"deinit",
    b"do",
    b"enum",
    b"extension",
    b"fallthrough",
    b"false",
    b"fileprivate",
    b"final",
    b"for",
    b"guard",
    b"import",
    b"in",
    b"init",
    b"inout",
    b"internal",
    b"is",
    b"main",
    b"nil",
    b"nonisolated",
    b"operator",
    b"precedencegroup",
    b"precondition",
    b"print",
    b"private",
    b"protocol",
    b"public",
    b"repeat",
    b"rethrows",
    b"self",
    b"some",
    b"static",
    b"struct",
    b"subscript",
    b"super",
    b"switch",
    b"throws",
    b"toggle",
    b"true",
    b"try",
    b"typealias",
    b"unownedExecutor",
    b"where",
    b"withTaskGroup",
    b"withThrowingTaskGroup",
];

/// Types that the file or the subset names.
pub const TYPES: [&[u8]; 18] = [
    b"Actor",
    b"Any",
    b"Bool",
    b"CancellationError",
    b"Dispatch",
    b"Error",
    b"Failure",
    b"Foundation",
    b"Int",
    b"Main",
    b"Never",
    b"Protocol",
    b"Self",
    b"Sendable",
    b"String",
    b"Task",
    b"Type",
    b"Void",
];

fn is_among(words: &[&[u8]], name: &[u8]) -> bool
    ensures { result ≡ list_any (λ word. bytes_eq word.now name.now) words.now }
{
    words.iter().any(|word| *word == name)
}

fn is_word(name: &[u8]) -> bool
    ensures { result ≡ names.is_word name.now }
{
    is_among(&WORDS, name)
}

fn is_upper(letter: u8) -> bool
    ensures { result ≡ names.is_upper letter }
{
    65 <= letter && letter <= 90
}

fn is_lower(letter: u8) -> bool
    ensures { result ≡ names.is_lower letter }
{
    97 <= letter && letter <= 122
}

fn begins_upper(name: &[u8]) -> bool
    ensures { result ≡ names.begins_upper name.now }
{
    match name {
        [] => false,
        [letter, ..] => is_upper(*letter),
    }
}

// Whether a name begins as those do that a file makes.
fn is_made(name: &[u8]) -> bool
    ensures { result ≡ names.is_made name.now }
{
    match name {
        [] | [_] => false,
        [letter, next, ..] => {
            *next == 95
                && (*letter == 103 || (*letter == 105 || (*letter == 109 || *letter == 118)))
        }
    }
}

// Whether a name can stand for a value.
fn is_plain(name: &[u8]) -> bool
    ensures { result ≡ names.is_plain name.now }
{
    !begins_upper(name) && (!is_made(name) && !is_word(name))
}

// A letter as a capital one.
fn upper(letter: u8) -> u8
    ensures { result ≡ names.upper letter }
{
    if is_lower(letter) {
        letter - 32
    } else {
        letter
    }
}

// A letter as a small one.
fn lower(letter: u8) -> u8
    ensures { result ≡ names.lower letter }
{
    if is_upper(letter) {
        letter + 32
    } else {
        letter
    }
}

/// Whether two names are one.
pub fn is_same(left: &Name, right: &Name) -> bool
    ensures { result ≡ bytes_eq left.now.text.items right.now.text.items }
{
    left.text.as_slice() == right.text.as_slice()
}

// Whether two names differ at most in whether the first letter is capital.
fn is_same_small(left: &[u8], right: &[u8]) -> bool
    ensures { result ≡ bytes_eq (names.small left.now) (names.small right.now) }
{
    match (left, right) {
        ([], []) => true,
        ([first, rest @ ..], [second, others @ ..]) => {
            lower(*first) == lower(*second) && rest == others
        }
        _ => false,
    }
}

// Whether the instances of two actors have one name.
fn is_same_instance(left: &Name, right: &Name) -> bool
    ensures { result ≡ bytes_eq (names.small (text_of left.now)) (names.small (text_of right.now)) }
{
    is_same_small(&left.text, &right.text)
}

/// Whether a name is that of the instance of a declaration's actor.
pub fn is_instance_of(decl: &Decl, name: &Name) -> bool
    ensures { result ≡ names.is_instance_of (text_of name.now) (view_decl decl.now) }
{
    match decl {
        Decl::Actor(actor) => is_same_instance(&actor.name, name),
        Decl::Executor(_) | Decl::Local(_) | Decl::Root(_) => false,
    }
}

// Whether a name is the instance of an actor.
fn is_instance(decls: &[Decl], name: &Name) -> bool
    ensures { result ≡ names.is_instance (map view_decl decls.now) (text_of name.now) }
{
    any_instance(decls, name)
}

fn any_instance(decls: &[Decl], name: &Name) -> bool
    ensures { result ≡ list_any (λ decl. names.is_instance_of (text_of name.now) (view_decl decl)) decls.now }
{
    decls.iter().any(|decl| is_instance_of(decl, name))
}

// Whether a name, with this first letter in place of its own, is one of these words.
fn is_word_with(words: &[&[u8]], first: u8, rest: &[u8]) -> bool
    ensures { result ≡ list_any (λ word. bytes_eq word.now (first ∷ rest.now)) words.now }
{
    words.iter().any(|word| is_text(first, rest, word))
}

fn is_text(first: u8, rest: &[u8], word: &[u8]) -> bool
    ensures { result ≡ bytes_eq word.now (first ∷ rest.now) }
{
    match word {
        [] => false,
        [letter, others @ ..] => *letter == first && others == rest,
    }
}

fn is_type_word(first: u8, rest: &[u8]) -> bool
    ensures { result ≡ names.is_type_word (first ∷ rest.now) }
{
    is_word_with(&TYPES, first, rest)
}

fn is_value_word(first: u8, rest: &[u8]) -> bool
    ensures { result ≡ names.is_word (first ∷ rest.now) }
{
    is_word_with(&WORDS, first, rest)
}

// Whether a name begins with `T_`.
fn is_made_type(first: u8, rest: &[u8]) -> bool
    ensures { result ≡ names.is_made_type (first ∷ rest.now) }
{
    match rest {
        [] => false,
        [next, ..] => *next == 95 && first == 84,
    }
}

// Whether a name begins as those do that a file makes.
fn is_made_with(first: u8, rest: &[u8]) -> bool
    ensures { result ≡ names.is_made (first ∷ rest.now) }
{
    match rest {
        [] => false,
        [next, ..] => {
            *next == 95 && (first == 103 || (first == 105 || (first == 109 || first == 118)))
        }
    }
}

// A name of this first letter and these others, or the same after a prefix.
fn say_with(page: &mut Page, is_plain: bool, prefix: &[u8], first: u8, rest: &[u8])
    ensures { GoesOn page.old page.new (names.spelled is_plain prefix.now (first ∷ rest.now)) }
{
    if !is_plain {
        page.say_bytes(prefix);
    }
    page.say_bytes(&[first]);
    page.say_bytes(rest)
}

/// An actor's type: its name with a capital first letter, after `T_` where Swift means something by that.
pub fn say_type(page: &mut Page, name: &Name)
    ensures { GoesOn page.old page.new (names.type_name (text_of name.now)) }
{
    match name.text.as_slice() {
        [] => page.say(""),
        [letter, rest @ ..] => {
            let first = upper(*letter);
            let is_kept = is_upper(first)
                && (!is_made_type(first, rest) && !is_type_word(first, rest));
            say_with(page, is_kept, b"T_", first, rest)
        }
    }
}

/// An actor's instance: its name with a small first letter, after `i_` where Swift means something by that.
pub fn say_instance(page: &mut Page, name: &Name)
    ensures { GoesOn page.old page.new (names.instance_name (text_of name.now)) }
{
    match name.text.as_slice() {
        [] => page.say(""),
        [letter, rest @ ..] => {
            let first = lower(*letter);
            let is_kept = !is_made_with(first, rest) && !is_value_word(first, rest);
            say_with(page, is_kept, b"i_", first, rest)
        }
    }
}

// A name, or the same after a prefix.
fn say_spelled(page: &mut Page, is_plain: bool, prefix: &[u8], name: &[u8])
    ensures { GoesOn page.old page.new (names.spelled is_plain prefix.now name.now) }
{
    if !is_plain {
        page.say_bytes(prefix);
    }
    page.say_bytes(name)
}

/// A field, a parameter, a variable, a task, a group or a root: its name, after `v_` where that is an instance, or Swift means something by it.
pub fn say_value(page: &mut Page, decls: &[Decl], name: &Name)
    ensures { GoesOn page.old page.new (names.value_name (map view_decl decls.now) (text_of name.now)) }
{
    let is_kept = is_plain(&name.text) && !is_instance(decls, name);
    say_spelled(page, is_kept, b"v_", &name.text)
}

fn any_field(fields: &[Field], name: &Name) -> bool
    ensures { result ≡ list_any (λ field. bytes_eq field.name.text.items name.now.text.items) fields.now }
{
    fields.iter().any(|field| is_same(&field.name, name))
}

fn is_field(fields: &[Field], name: &Name) -> bool
    ensures { result ≡ names.is_field (map view_field fields.now) (text_of name.now) }
{
    any_field(fields, name)
}

fn has_field(decl: &Decl, actor: &Name, name: &Name) -> bool
    ensures { result ≡ names.has_field (text_of actor.now) (text_of name.now) (view_decl decl.now) }
{
    match decl {
        Decl::Actor(found) => is_same(&found.name, actor) && is_field(&found.fields, name),
        Decl::Executor(_) | Decl::Local(_) | Decl::Root(_) => false,
    }
}

fn any_has_field(decls: &[Decl], actor: &Name, name: &Name) -> bool
    ensures { result ≡ list_any (λ decl. names.has_field (text_of actor.now) (text_of name.now) (view_decl decl)) decls.now }
{
    decls.iter().any(|decl| has_field(decl, actor, name))
}

fn is_field_of(decls: &[Decl], actor: &Name, name: &Name) -> bool
    ensures { result ≡ names.is_field_of (map view_decl decls.now) (text_of actor.now) (text_of name.now) }
{
    any_has_field(decls, actor, name)
}

/// A method of an actor: its name, after `m_` where that is a field of the actor or an instance, or Swift means something by it.
pub fn say_method(page: &mut Page, decls: &[Decl], actor: &Name, name: &Name)
    ensures { GoesOn page.old page.new (names.method_name (map view_decl decls.now) (text_of actor.now) (text_of name.now)) }
{
    let is_kept = is_plain(&name.text)
        && (!is_instance(decls, name) && !is_field_of(decls, actor, name));
    say_spelled(page, is_kept, b"m_", &name.text)
}
