//! How names of a script are spelled in Swift.

ghost use Rattle.std.specs.Prelude.{◌≡◌, bytes_eq, IfOk};
ghost use Rattle.std.specs.List.{list_any};
ghost use Rattle.script_grammar.specs.Tree.{text_of, view_actor};
ghost use Rattle.swift_programs.specs.LinesInside.{GoesOn};
ghost use Rattle.swift_programs.specs.Names as names;

use crate::page::SwiftPage;
use script_grammar::{Actor, Field, Name};
use std::alloc::{AllocError, Global};

/// Swift's keywords, and what each program calls its own values, of the names that a script may have.
pub(crate) static VALUES: [&[u8]; 57] = [
    b"_",
    b"as",
    b"associatedtype",
    b"break",
    b"case",
    b"catch",
    b"class",
    b"continue",
    b"default",
    b"defer",
    b"deinit",
    b"didSet",
    b"do",
    b"enum",
    b"error",
    b"extension",
    b"fallthrough",
    b"false",
    b"fileprivate",
    b"for",
    b"guard",
    b"import",
    b"in",
    b"init",
    b"inout",
    b"internal",
    b"is",
    b"nil",
    b"operator",
    b"precedencegroup",
    b"private",
    b"protocol",
    b"public",
    b"repeat",
    b"rethrows",
    b"self",
    b"static",
    b"struct",
    b"subscript",
    b"super",
    b"switch",
    b"throws",
    b"true",
    b"try",
    b"typealias",
    b"where",
    b"Protocol",
    b"Self",
    b"Type",
    b"assumeIsolated",
    b"invariantHolds",
    b"other",
    b"shared",
    b"turnEnds",
    b"unownedExecutor",
    b"willSet",
    b"withThrowingTaskGroup",
];

/// The types that each program names.
pub(crate) static TYPES: [&[u8]; 38] = [
    b"Actor",
    b"Any",
    b"Bool",
    b"BooleanLiteralType",
    b"CancellationError",
    b"Data",
    b"DispatchGroup",
    b"DispatchQueue",
    b"DispatchSemaphore",
    b"Error",
    b"ExecutorJob",
    b"Executors",
    b"Fault",
    b"FileHandle",
    b"FloatLiteralType",
    b"Int",
    b"Int64",
    b"IntegerLiteralType",
    b"Local",
    b"Main",
    b"NSCondition",
    b"NSLock",
    b"Protocol",
    b"Root",
    b"Run",
    b"Self",
    b"Sendable",
    b"SerialExecutor",
    b"String",
    b"StringLiteralType",
    b"Task",
    b"TaskLocal",
    b"TaskPriority",
    b"Thread",
    b"Type",
    b"UnownedJob",
    b"UnownedSerialExecutor",
    b"Void",
];

fn is_among(words: &[&[u8]], name: &[u8]) -> bool
    ensures { result ≡ list_any (λ word. bytes_eq word.now name.now) words.now }
{
    words.iter().any(|word| *word == name)
}

fn is_value_word(name: &[u8]) -> bool
    ensures { result ≡ names.is_value_word name.now }
{
    is_among(&VALUES, name)
}

fn is_type_word(name: &[u8]) -> bool
    ensures { result ≡ names.is_type_word name.now }
{
    is_among(&TYPES, name)
}

fn begins_upper(name: &[u8]) -> bool
    ensures { result ≡ names.begins_upper name.now }
{
    match name {
        [] => false,
        [letter, ..] => 65 <= *letter && *letter <= 90,
    }
}

// Whether a name begins with this letter and an underscore.
fn begins_with(first: u8, name: &[u8]) -> bool
    ensures { result ≡ names.begins_with first name.now }
{
    match name {
        [] | [_] => false,
        [letter, next, ..] => *letter == first && *next == 95,
    }
}

// Whether a field, a parameter or a variable keeps its name.
fn is_plain_value(name: &[u8]) -> bool
    ensures { result ≡ names.is_plain_value name.now }
{
    !begins_upper(name)
        && (!begins_with(b'v', name) && (!begins_with(b'm', name) && !is_value_word(name)))
}

// Whether an actor keeps its name.
fn is_plain_type(name: &[u8]) -> bool
    ensures { result ≡ names.is_plain_type name.now }
{
    begins_upper(name) && (!begins_with(b'T', name) && !is_type_word(name))
}

// Whether an executor or a task local keeps its name.
fn is_plain_member(name: &[u8]) -> bool
    ensures { result ≡ names.is_plain_member name.now }
{
    !begins_with(b'v', name) && (!is_value_word(name) && !is_type_word(name))
}

// A name, or the same after a prefix.
fn spelled(alloc: Global, is_plain: bool, prefix: &[u8], name: &[u8]) -> Result<Vec<u8>, AllocError>
    ensures { IfOk result (λ said. said.items ≡ names.spelled is_plain prefix.now name.now) }
{
    if is_plain {
        return Vec::from_slice(alloc, name);
    }
    let mut said = Vec::from_slice(alloc, prefix)?;
    said.extend_from_slice(name)?;
    Ok(said)
}

/// The Swift name of an actor: its own, or else `T_` and its own (our own).
pub(crate) fn type_name(alloc: Global, name: &Name) -> Result<Vec<u8>, AllocError>
    ensures { IfOk result (λ said. said.items ≡ names.type_name (text_of name.now)) }
{
    spelled(alloc, is_plain_type(&name.text), b"T_", &name.text)
}

/// The Swift name of a field, a parameter or a variable: its own, or else `v_` and its own (our own).
pub(crate) fn value_name(alloc: Global, name: &Name) -> Result<Vec<u8>, AllocError>
    ensures { IfOk result (λ said. said.items ≡ names.value_name (text_of name.now)) }
{
    spelled(alloc, is_plain_value(&name.text), b"v_", &name.text)
}

/// The Swift name of a method: its own, or else `m_` and its own (our own). It differs from those of the fields.
pub(crate) fn method_name(alloc: Global, actor: &Actor, name: &Name) -> Result<Vec<u8>, AllocError>
    ensures { IfOk result (λ said. said.items ≡ names.method_name (view_actor actor.now) (text_of name.now)) }
{
    let is_plain = is_plain_value(&name.text) && !has_field(actor, name);
    spelled(alloc, is_plain, b"m_", &name.text)
}

/// Whether an actor has a field of this name.
pub(crate) fn has_field(actor: &Actor, name: &Name) -> bool
    ensures { result ≡ names.has_field (view_actor actor.now) (text_of name.now) }
{
    is_one_of(&actor.fields, name)
}

fn is_one_of(fields: &[Field], name: &Name) -> bool
    ensures { result ≡ list_any (λ field. bytes_eq field.name.text.items name.now.text.items) fields.now }
{
    fields.iter().any(|field| is_same(&field.name, name))
}

/// Whether two names are one.
pub(crate) fn is_same(left: &Name, right: &Name) -> bool
    ensures { result ≡ bytes_eq left.now.text.items right.now.text.items }
{
    left.text.as_slice() == right.text.as_slice()
}

// A name, or the same after a prefix.
fn say_spelled(page: &mut SwiftPage, is_plain: bool, prefix: &[u8], name: &[u8])
    ensures { GoesOn page.old page.new (names.spelled is_plain prefix.now name.now) }
{
    if !is_plain {
        page.say_bytes(prefix);
    }
    page.say_bytes(name)
}

/// An actor, by its Swift name.
pub(crate) fn say_type(page: &mut SwiftPage, name: &Name)
    ensures { GoesOn page.old page.new (names.type_name (text_of name.now)) }
{
    say_spelled(page, is_plain_type(&name.text), b"T_", &name.text)
}

/// A field, a parameter, a variable or a root, by its Swift name.
pub(crate) fn say_value(page: &mut SwiftPage, name: &Name)
    ensures { GoesOn page.old page.new (names.value_name (text_of name.now)) }
{
    say_spelled(page, is_plain_value(&name.text), b"v_", &name.text)
}

/// An executor or a task local, after the word for these, by its Swift name: its own, or else `v_` and its own (our own).
pub(crate) fn say_member(page: &mut SwiftPage, name: &Name)
    ensures { GoesOn page.old page.new (names.member_name (text_of name.now)) }
{
    say_spelled(page, is_plain_member(&name.text), b"v_", &name.text)
}

/// A method, by its Swift name.
pub(crate) fn say_method(page: &mut SwiftPage, actor: &Actor, name: &Name)
    ensures { GoesOn page.old page.new (names.method_name (view_actor actor.now) (text_of name.now)) }
{
    let is_kept = is_plain_value(&name.text) && !has_field(actor, name);
    say_spelled(page, is_kept, b"m_", &name.text)
}
