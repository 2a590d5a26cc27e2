//! From which lines of a file the methods of its script are.

ghost use Rattle.std.specs.Prelude.{◌≡◌, ◌≤◌, ◌+◌, All, IfOk, IfSome, IsFalse, slice_get};
ghost use Rattle.swift_syntax.specs.Places.{IsTokenOf};
ghost use Rattle.swift_translation.specs.Lines.{feeds};
ghost use Rattle.swift_translation.specs.MethodPlaces.{IsPlaceIn, bytes_of, closure_name, function_closure_name, function_name, line_of, main_closure_name, method_name};
ghost use Rattle.swift_translation.specs.Sources.{token_place};

use crate::line::line_number;
use crate::naming::which_of;
use crate::spelling::{spell_closure, spell_function_closure, spell_main_closure, spell_name};
use crate::writer::Writer;
use std::alloc::{AllocError, Global};
use swift_expressions::{Code, NONE, Unit, UnitKind};
use swift_syntax::{InstanceDecl, MethodDecl, Token, Tree};

/// From which lines of a file a method of its script is.
#[derive(Drop)]
pub struct MethodPlace {
    /// The method, behind its actor, as `account.withdraw`.
    pub name: Vec<u8>,
    /// The number of the line on which it begins, from 1.
    pub first: usize,
    /// That of the line on which it ends.
    pub last: usize,
}

/// The lines from one place of a text to another.
#[derive(Clone, Copy)]
pub(crate) struct Lines {
    /// The number of the first one, from 1.
    pub first: usize,
    /// That of the last one.
    pub last: usize,
}

/// The lines from one place of a text to another; the first one alone, where the other place stands above it.
pub(crate) fn lines_between(text: &[u8], from: usize, end: usize) -> Lines
    ensures first { result.first ≡ line_of text.now from }
    ensures least { 1 ≤ result.first }
    ensures order { result.first ≤ result.last }
    ensures most { result.last ≤ feeds text.now + 1 }
{
    let first = line_number(text, from);
    let last = line_number(text, end);
    Lines {
        first,
        last: last.max(first),
    }
}

/// The place at which a token begins; the end of the text where there is none.
pub(crate) fn place_of_token(text: &[u8], tokens: &[Token], place: usize) -> usize
    ensures { result ≡ token_place text.now (slice_get tokens.now place) }
{
    match tokens.get(place) {
        Some(found) => found.from,
        None => text.len(),
    }
}

// The token at a place.
fn token_at(text: &[u8], tokens: &[Token], place: usize) -> Option<Token>
    requires { All (IsTokenOf text.now) tokens.now }
    ensures { IfSome result (IsTokenOf text.now) }
{
    match tokens.get(place) {
        Some(token) => Some(*token),
        None => None,
    }
}

// The bytes of a token.
fn bytes_of(text: &[u8], token: Token) -> &[u8]
    requires { IsTokenOf text.now token }
    ensures { result.now ≡ bytes_of text.now token }
{
    &text[token.from..token.to]
}

/// What is written, unless something is missing.
pub(crate) fn finished(out: Writer) -> Result<Vec<u8>, AllocError>
    ensures memory { IfOk result (λ bytes. IsFalse out.is_partial) }
    ensures text { IfOk result (λ bytes. bytes.items ≡ out.text.items) }
{
    let Writer {
        text,
        is_partial,
        ..
    } = out;
    if is_partial {
        Err(AllocError)
    } else {
        Ok(text)
    }
}

// What a method of an actor is called.
fn method_name(alloc: Global, actor: &[u8], method: &[u8]) -> Result<Vec<u8>, AllocError>
    ensures { IfOk result (λ name. name.items ≡ method_name actor.now method.now) }
{
    let mut out = Writer::new(alloc);
    spell_name(&mut out, actor);
    out.say(".");
    spell_name(&mut out, method);
    finished(out)
}

// What a closure is called that stands in a method of an instance, on a line; and which one it is there.
fn closure_name(
    alloc: Global,
    instance: &[u8],
    method: &[u8],
    line: usize,
    which: usize,
) -> Result<Vec<u8>, AllocError>
    ensures { IfOk result (λ name. name.items ≡ closure_name instance.now method.now line which) }
{
    let mut out = Writer::new(alloc);
    out.say("Task.");
    spell_closure(&mut out, alloc, instance, method, line, which);
    finished(out)
}

// What a function outside of actors is called.
fn function_name(alloc: Global, function: &[u8]) -> Result<Vec<u8>, AllocError>
    ensures { IfOk result (λ name. name.items ≡ function_name function.now) }
{
    let mut out = Writer::new(alloc);
    out.say("Task.");
    spell_name(&mut out, function);
    finished(out)
}

// What a closure is called that stands in such a function.
fn function_closure_name(
    alloc: Global,
    function: &[u8],
    line: usize,
    which: usize,
) -> Result<Vec<u8>, AllocError>
    ensures { IfOk result (λ name. name.items ≡ function_closure_name function.now line which) }
{
    let mut out = Writer::new(alloc);
    out.say("Task.");
    spell_function_closure(&mut out, alloc, function, line, which);
    finished(out)
}

// What a closure is called that stands in `main`.
fn main_closure_name(alloc: Global, line: usize, which: usize) -> Result<Vec<u8>, AllocError>
    ensures { IfOk result (λ name. name.items ≡ main_closure_name line which) }
{
    let mut out = Writer::new(alloc);
    out.say("Task.");
    spell_main_closure(&mut out, alloc, line, which);
    finished(out)
}

// A method of an instance, which ends at a place.
fn method_place(
    alloc: Global,
    text: &[u8],
    instance: Token,
    method: Token,
    end: usize,
) -> Result<MethodPlace, AllocError>
    requires instance { IsTokenOf text.now instance }
    requires method { IsTokenOf text.now method }
    ensures { IfOk result (IsPlaceIn text.now) }
{
    let name = method_name(alloc, bytes_of(text, instance), bytes_of(text, method))?;
    let Lines { first, last } = lines_between(text, method.from, end);
    Ok(MethodPlace { name, first, last })
}

// A closure in a method of an instance, between two places, and which one it is on its line.
fn closure_place(
    alloc: Global,
    text: &[u8],
    instance: Token,
    method: Token,
    found: Lines,
    which: usize,
) -> Result<MethodPlace, AllocError>
    requires instance { IsTokenOf text.now instance }
    requires method { IsTokenOf text.now method }
    requires least { 1 ≤ found.first }
    requires order { found.first ≤ found.last }
    requires most { found.last ≤ feeds text.now + 1 }
    ensures { IfOk result (IsPlaceIn text.now) }
{
    let Lines { first, last } = found;
    let name = closure_name(
        alloc,
        bytes_of(text, instance),
        bytes_of(text, method),
        first,
        which,
    )?;
    Ok(MethodPlace { name, first, last })
}

// A closure in `main`.
fn main_closure_place(
    alloc: Global,
    text: &[u8],
    found: Lines,
    which: usize,
) -> Result<MethodPlace, AllocError>
    requires least { 1 ≤ found.first }
    requires order { found.first ≤ found.last }
    requires most { found.last ≤ feeds text.now + 1 }
    ensures { IfOk result (IsPlaceIn text.now) }
{
    let Lines { first, last } = found;
    let name = main_closure_name(alloc, first, which)?;
    Ok(MethodPlace { name, first, last })
}

// A function outside of actors, which ends at a place.
fn function_place(
    alloc: Global,
    text: &[u8],
    function: Token,
    end: usize,
) -> Result<MethodPlace, AllocError>
    requires { IsTokenOf text.now function }
    ensures { IfOk result (IsPlaceIn text.now) }
{
    let name = function_name(alloc, bytes_of(text, function))?;
    let Lines { first, last } = lines_between(text, function.from, end);
    Ok(MethodPlace { name, first, last })
}

// A closure in such a function, and which one it is on its line.
fn function_closure_place(
    alloc: Global,
    text: &[u8],
    function: Token,
    found: Lines,
    which: usize,
) -> Result<MethodPlace, AllocError>
    requires function { IsTokenOf text.now function }
    requires least { 1 ≤ found.first }
    requires order { found.first ≤ found.last }
    requires most { found.last ≤ feeds text.now + 1 }
    ensures { IfOk result (IsPlaceIn text.now) }
{
    let Lines { first, last } = found;
    let name = function_closure_name(alloc, bytes_of(text, function), first, which)?;
    Ok(MethodPlace { name, first, last })
}

// `main` of a type, which ends at a place.
fn main_place(
    alloc: Global,
    text: &[u8],
    name: Token,
    end: usize,
) -> Result<MethodPlace, AllocError>
    requires { IsTokenOf text.now name }
    ensures { IfOk result (IsPlaceIn text.now) }
{
    let Lines { first, last } = lines_between(text, name.from, end);
    let name = method_name(alloc, bytes_of(text, name), b"main")?;
    Ok(MethodPlace { name, first, last })
}

// Whether a unit becomes a method of the script. A function outside of actors is put in where it is called, unless it is `async`.
fn is_method(methods: &[MethodDecl], unit: Unit) -> bool {
    match unit.kind {
        UnitKind::Method(place) => match methods.get(place) {
            Some(method) => method.actor != NONE || method.is_async,
            None => false,
        },
        UnitKind::Closure | UnitKind::Main => true,
    }
}

// The method that a unit becomes, of an instance or of none.
fn unit_place(
    alloc: Global,
    text: &[u8],
    tokens: &[Token],
    instance: Option<Token>,
    unit: Unit,
) -> Result<Option<MethodPlace>, AllocError>
    requires tokens { All (IsTokenOf text.now) tokens.now }
    requires instance { IfSome instance (IsTokenOf text.now) }
    ensures { IfOk result (λ found. IfSome found (IsPlaceIn text.now)) }
{
    let from = place_of_token(text, tokens, unit.token);
    let end = place_of_token(text, tokens, unit.end);
    let which = which_of(unit.spot);
    let found = match (unit.kind, instance, token_at(text, tokens, unit.method)) {
        (UnitKind::Method(_), Some(instance), Some(method)) => {
            Some(method_place(alloc, text, instance, method, end)?)
        }
        (UnitKind::Closure, Some(instance), Some(method)) => {
            let found = lines_between(text, from, end);
            Some(closure_place(alloc, text, instance, method, found, which)?)
        }
        (UnitKind::Method(_), None, Some(function)) => {
            Some(function_place(alloc, text, function, end)?)
        }
        (UnitKind::Closure, None, Some(function)) => {
            let found = lines_between(text, from, end);
            Some(function_closure_place(alloc, text, function, found, which)?)
        }
        (UnitKind::Closure, None, None) => {
            let found = lines_between(text, from, end);
            Some(main_closure_place(alloc, text, found, which)?)
        }
        (UnitKind::Main, None, _) => match token_at(text, tokens, unit.token) {
            Some(name) => Some(main_place(alloc, text, name, end)?),
            None => None,
        },
        _ => None,
    };
    Ok(found)
}

// Puts the method that a unit becomes behind others, where it stands in the text of this actor.
fn add_place(
    alloc: Global,
    text: &[u8],
    tokens: &[Token],
    methods: &[MethodDecl],
    unit: Unit,
    actor: usize,
    instance: Option<Token>,
    found: &mut Vec<MethodPlace>,
) -> Result<(), AllocError>
    requires tokens { All (IsTokenOf text.now) tokens.now }
    requires instance { IfSome instance (IsTokenOf text.now) }
    requires found { All (IsPlaceIn text.now) found.old.items }
    ensures { All (IsPlaceIn text.now) found.new.items }
{
    if unit.actor != actor || !is_method(methods, unit) {
        return Ok(());
    }
    match unit_place(alloc, text, tokens, instance, unit)? {
        Some(place) => {
            found.push(place)?;
            Ok(())
        }
        None => Ok(()),
    }
}

// Puts the methods that the units of an actor become behind others, for an instance of it; for none those of `main`.
fn add_places(
    alloc: Global,
    text: &[u8],
    tokens: &[Token],
    methods: &[MethodDecl],
    units: &[Unit],
    actor: usize,
    instance: Option<Token>,
    found: &mut Vec<MethodPlace>,
) -> Result<(), AllocError>
    requires tokens { All (IsTokenOf text.now) tokens.now }
    requires instance { IfSome instance (IsTokenOf text.now) }
    requires found { All (IsPlaceIn text.now) found.old.items }
    ensures { All (IsPlaceIn text.now) found.new.items }
{
    match units {
        [] => Ok(()),
        [unit, rest @ ..] => {
            add_place(alloc, text, tokens, methods, *unit, actor, instance, found)?;
            add_places(alloc, text, tokens, methods, rest, actor, instance, found)
        }
    }
}

// The place of the actor that a token names.
fn actor_named(text: &[u8], tokens: &[Token], tree: &Box<Tree>, of: usize) -> Option<usize>
    requires { All (IsTokenOf text.now) tokens.now }
{
    let Some(wanted) = token_at(text, tokens, of) else {
        return None;
    };
    for (place, actor) in tree.actors.iter().enumerate() {
        if let Some(name) = token_at(text, tokens, actor.name) {
            if bytes_of(text, name) == bytes_of(text, wanted) {
                return Some(place);
            }
        }
    }
    None
}

// Puts the methods of an instance behind others.
fn add_instance(
    alloc: Global,
    text: &[u8],
    tokens: &[Token],
    tree: &Box<Tree>,
    code: &Code,
    declared: InstanceDecl,
    found: &mut Vec<MethodPlace>,
) -> Result<(), AllocError>
    requires tokens { All (IsTokenOf text.now) tokens.now }
    requires found { All (IsPlaceIn text.now) found.old.items }
    ensures { All (IsPlaceIn text.now) found.new.items }
{
    let Some(actor) = actor_named(text, tokens, tree, declared.of) else {
        return Ok(());
    };
    let instance = token_at(text, tokens, declared.name);
    if instance.is_none() {
        return Ok(());
    }
    add_places(
        alloc,
        text,
        tokens,
        &tree.methods,
        &code.units,
        actor,
        instance,
        found,
    )
}

/// The methods of the script that a file with these tokens, this tree and these instructions becomes, and from which lines each is: those
/// of each instance, then functions outside of actors that are `async`, and `main`, in the order of the file, the closures last. Methods that
/// read a field are from no lines.
///
/// # Errors
///
/// `AllocError` where there is no memory for them.
pub(crate) fn places(
    alloc: Global,
    text: &[u8],
    tokens: &[Token],
    tree: &Box<Tree>,
    code: &Code,
) -> Result<Vec<MethodPlace>, AllocError>
    requires { All (IsTokenOf text.now) tokens.now }
    ensures { IfOk result (λ found. All (IsPlaceIn text.now) found.items) }
{
    let mut found = Vec::new(alloc);
    for declared in tree.instances.iter() {
        add_instance(alloc, text, tokens, tree, code, *declared, &mut found)?;
    }
    add_places(
        alloc,
        text,
        tokens,
        &tree.methods,
        &code.units,
        NONE,
        None,
        &mut found,
    )?;
    Ok(found)
}
