//! Statements.
#![tactic(auto, using(crate::proofs::Grown::extends_same, crate::proofs::Grown::grows_same, crate::proofs::Grown::grows_on, crate::proofs::Refused::grows_taken))]

ghost use Rattle.std.specs.Prelude.{◌≡◌, ◌<◌, true, false, IfNone, IfSome, IsFalse, IsNone, IsSome, IsTrue, ℕ};
ghost use Rattle.swift_syntax.specs.Expressions.{kind_at};
ghost use Rattle.swift_syntax.specs.ReadersInside.{Adds, AddsStmt, Extends, Grows, IsBegun, IsLinked, IsStmtPut, lexed_of};
ghost use Rattle.swift_syntax.specs.Statements.{SpellsBlock, SpellsDeclared, SpellsElse, SpellsInto, SpellsNext, SpellsRange, SpellsRest, SpellsTarget, assigning_in, begins_line, closed_form, closed_token, ends_return};
ghost use Rattle.swift_syntax.specs.Statements as statements;

use crate::closure::{Closure, ClosureHead, HeadForm, closure_front, closure_stmt, head};
use crate::expression::{bound, expression, test};
use crate::limits::BLOCKS;
use crate::reader::Reader;
use crate::rule::Rule;
use crate::sign::Sign;
use crate::token::TokenKind;
use crate::tree::{Assigning, Into, StmtForm, ValueType};
use crate::word::Word;

// How the sign at a place assigns, if it does.
fn assigning(reader: &Reader<'_>, place: usize) -> Option<Assigning>
    ensures { result ≡ assigning_in (kind_at reader.now.tokens.now place) }
{
    match reader.token(place).kind {
        TokenKind::Sign(Sign::Assign) => Some(Assigning::Set),
        TokenKind::Sign(Sign::AddAssign) => Some(Assigning::Add),
        TokenKind::Sign(Sign::SubtractAssign) => Some(Assigning::Subtract),
        TokenKind::Sign(Sign::MultiplyAssign) => Some(Assigning::Multiply),
        _ => None,
    }
}

// Wants the same white space on both sides of the next token.
fn want_even(reader: &mut Reader<'_>)
    ensures same { IsNone reader.new.refused → reader.new ≡ reader.old }
    ensures grows { Grows reader.old reader.new }
{
    if reader.here().after_space != reader.ahead(1).after_space {
        reader.refuse(Rule::Spaces, reader.at);
    }
}

// Refuses what is returned or thrown on another line. Whether something is returned.
fn goes_on(reader: &mut Reader<'_>) -> bool
    ensures same { IsNone reader.new.refused → reader.new ≡ reader.old }
    ensures ends { IsNone reader.new.refused → IsFalse result → ends_return (kind_at reader.old.tokens.now reader.old.at) ≡ true }
    ensures line { IsTrue result → begins_line (lexed_of reader.old) reader.old.at ≡ false }
    ensures grows { Grows reader.old reader.new }
{
    if reader.is_sign(Sign::CloseBrace) || reader.is_sign(Sign::Semicolon) {
        return false;
    }
    if reader.here().begins_line {
        reader.refuse(Rule::ReturnLine, reader.at);
        return false;
    }
    true
}

fn throw_stmt(reader: &mut Reader<'_>) -> usize
    ensures spelled { IsNone reader.new.refused → IsBegun reader.old → AddsStmt reader.old reader.new reader.old.at result }
    ensures extends { Extends reader.old reader.new }
{
    let token = reader.at;
    reader.key(Word::Throw);
    reader.on_line(Rule::ReturnLine);
    let value = expression(reader);
    reader.stmt(StmtForm::Throw(value), token)
}

fn async_let(reader: &mut Reader<'_>) -> usize
    ensures spelled { IsNone reader.new.refused → IsBegun reader.old → AddsStmt reader.old reader.new reader.old.at result }
    ensures extends { Extends reader.old reader.new }
{
    reader.key(Word::Async);
    reader.key(Word::Let);
    let name = reader.name();
    let found = reader.annotation();
    want_even(reader);
    reader.sign(Sign::Assign);
    let value = expression(reader);
    reader.stmt(StmtForm::AsyncLet(found, value), name)
}

// An assignment of a name, behind `self.` where the flag says so; or a toggle of it.
fn changed(reader: &mut Reader<'_>, is_own: bool) -> Option<usize>
    ensures spelled { IsNone reader.new.refused → IsBegun reader.old → IfSome result (λ p. (i : ℕ) → SpellsTarget (lexed_of reader.old) i reader.old.at is_own → AddsStmt reader.old reader.new i p) }
    ensures none { IfNone result (Grows reader.old reader.new) }
    ensures extends { Extends reader.old reader.new }
{
    let next = reader.at.saturating_add(1);
    if let Some(how) = assigning(reader, next) {
        let name = reader.name();
        want_even(reader);
        reader.take();
        if begins_closure(reader) {
            return None;
        }
        let value = expression(reader);
        return Some(reader.stmt(StmtForm::Assign(how, is_own, value), name));
    }
    if reader.spells(next.saturating_add(1), "toggle") && reader.is_sign_ahead(1, Sign::Dot) {
        let name = reader.name();
        reader.sign(Sign::Dot);
        reader.word("toggle");
        reader.sign(Sign::Open);
        reader.sign(Sign::Close);
        return Some(reader.stmt(StmtForm::Toggle(is_own), name));
    }
    None
}

// Whether what is assigned has a closure: then nothing is taken of it.
fn begins_closure(reader: &mut Reader<'_>) -> bool
    ensures back { IsNone reader.new.refused → reader.new.at ≡ reader.old.at }
    ensures grows { Grows reader.old reader.new }
{
    let at = reader.at;
    let found = head(reader);
    reader.at = if reader.refused.is_none() {
        at
    } else {
        usize::MAX
    };
    found.is_some()
}

// The head of a statement that begins with a name: where its value goes.
fn into_of(reader: &mut Reader<'_>) -> Into
    ensures spelled { IsNone reader.new.refused → SpellsInto (lexed_of reader.new) reader.old.at reader.new.at result }
    ensures grows { Grows reader.old reader.new }
{
    if reader.is_word("_") && reader.is_sign_ahead(1, Sign::Assign) {
        reader.word("_");
        want_even(reader);
        reader.sign(Sign::Assign);
        return Into::Nothing;
    }
    if reader.is_sign_ahead(1, Sign::Assign) {
        let name = reader.name();
        reader.sign(Sign::Assign);
        return Into::Assign(name);
    }
    Into::Nothing
}

// Refuses a name without a value.
fn want_value(reader: &mut Reader<'_>, name: usize)
    ensures same { IsNone reader.new.refused → reader.new ≡ reader.old }
    ensures grows { Grows reader.old reader.new }
{
    if !reader.is_sign(Sign::Assign) {
        reader.refuse(Rule::NotYet, name);
    }
}

// A name that is declared, perhaps with a type, up to its `=`.
fn declared_name(reader: &mut Reader<'_>) -> (usize, Option<ValueType>)
    ensures spelled { IsNone reader.new.refused → SpellsDeclared (lexed_of reader.new) reader.old.at reader.new.at result.0 result.1 }
    ensures grows { Grows reader.old reader.new }
{
    let name = reader.name();
    let found = reader.annotation();
    want_value(reader, name);
    want_even(reader);
    reader.sign(Sign::Assign);
    (name, found)
}

// `let` or `var` up to its `=`.
fn declared(reader: &mut Reader<'_>) -> Into
    ensures spelled { IsNone reader.new.refused → SpellsInto (lexed_of reader.new) reader.old.at reader.new.at result }
    ensures grows { Grows reader.old reader.new }
{
    if reader.takes_key(Word::Var) {
        let (name, found) = declared_name(reader);
        return Into::Var(name, found);
    }
    reader.key(Word::Let);
    let (name, found) = declared_name(reader);
    Into::Let(name, found)
}

// The token that a value is told by.
fn token_of(into: Into, token: usize) -> usize
    ensures { result ≡ statements.token_of into token }
{
    match into {
        Into::Let(name, _) | Into::Var(name, _) | Into::Assign(name) => name,
        Into::Nothing | Into::Return => token,
    }
}

// A value, which may have a closure, and where it goes.
#[cycle(statement)]
fn valued(reader: &mut Reader<'_>, blocks: u32, into: Into, token: usize) -> usize
    ensures spelled { IsNone reader.new.refused → IsBegun reader.old → SpellsInto (lexed_of reader.old) token reader.old.at into → AddsStmt reader.old reader.new token result }
    ensures extends { Extends reader.old reader.new }
{
    let Some(head) = head(reader) else {
        let value = expression(reader);
        return reader.stmt(StmtForm::Value(into, value), token_of(into, token));
    };
    let mut closure = closure_front(reader);
    closure.body = statements(reader, blocks);
    finish(reader, head, into, closure)
}

fn finish(reader: &mut Reader<'_>, head: ClosureHead, into: Into, closure: Closure) -> usize
    ensures put { IsNone reader.new.refused → IsStmtPut reader.old reader.new (record { form = closed_form head.form into closure.captures closure.body; token = closed_token head.form head.token closure.parameter; end = reader.old.at; next = 0; is_awaited = head.is_awaited; is_tried = head.is_tried }) result }
    ensures extends { Extends reader.old reader.new }
{
    let is_named = matches!(head.form, HeadForm::Group(..));
    if is_named != (closure.parameter != 0) {
        reader.refuse(Rule::Arguments, head.token);
    }
    let (form, token) = closure_stmt(head, into, closure);
    reader.closed_stmt(form, token, head.is_awaited, head.is_tried)
}

fn too_deep(reader: &mut Reader<'_>) -> usize
    ensures noted { IsSome reader.new.refused }
    ensures grows { Grows reader.old reader.new }
{
    reader.refuse(Rule::TooLarge, reader.at);
    0
}

// An `if` with what may follow its `else`.
#[cycle(statement)]
fn conditional(reader: &mut Reader<'_>, blocks: u32) -> usize
    ensures spelled { IsNone reader.new.refused → IsBegun reader.old → AddsStmt reader.old reader.new reader.old.at result }
    ensures extends { Extends reader.old reader.new }
{
    if blocks == 0 {
        return too_deep(reader);
    }
    let token = reader.at;
    reader.key(Word::If);
    let test = test(reader);
    let held = block(reader, blocks);
    let failed = otherwise(reader, blocks);
    reader.stmt(StmtForm::If(test, held, failed), token)
}

// An `else` with its block or its `if`, if there is one: the place of the first statement in it, or 0.
#[cycle(statement)]
fn otherwise(reader: &mut Reader<'_>, blocks: u32) -> usize
    ensures spelled { IsNone reader.new.refused → IsBegun reader.old → Adds reader.old reader.new (λ s. SpellsElse s reader.old.at reader.new.at result) }
    ensures extends { Extends reader.old reader.new }
{
    if !reader.takes_key(Word::Else) {
        return 0;
    }
    if !reader.is_key(Word::If) {
        return block(reader, blocks);
    }
    if blocks == 0 {
        return too_deep(reader);
    }
    conditional(reader, blocks - 1)
}

// `while let NAME = await GROUP.next()`, behind its `while`. The tokens of the name and of the group, and whether it has `try`.
fn next_of(reader: &mut Reader<'_>) -> (usize, usize, bool)
    ensures spelled { IsNone reader.new.refused → SpellsNext (lexed_of reader.new) reader.old.at reader.new.at result.0 result.1 result.2 }
    ensures grows { Grows reader.old reader.new }
{
    reader.key(Word::Let);
    let name = reader.name();
    reader.sign(Sign::Assign);
    let is_tried = reader.takes_key(Word::Try);
    reader.key(Word::Await);
    let group = reader.name();
    reader.sign(Sign::Dot);
    reader.word("next");
    reader.sign(Sign::Open);
    reader.sign(Sign::Close);
    (name, group, is_tried)
}

// A `guard` or a `while`.
#[cycle(statement)]
fn tested(reader: &mut Reader<'_>, blocks: u32) -> usize
    ensures spelled { IsNone reader.new.refused → IsBegun reader.old → AddsStmt reader.old reader.new reader.old.at result }
    ensures extends { Extends reader.old reader.new }
{
    let token = reader.at;
    if reader.takes_key(Word::Guard) {
        let test = test(reader);
        reader.key(Word::Else);
        let body = block(reader, blocks);
        return reader.stmt(StmtForm::Guard(test, body), token);
    }
    reader.key(Word::While);
    if reader.is_key(Word::Let) {
        let (name, group, is_tried) = next_of(reader);
        let body = block(reader, blocks);
        return reader.stmt(StmtForm::WhileNext(group, is_tried, body), name);
    }
    let test = test(reader);
    let body = block(reader, blocks);
    reader.stmt(StmtForm::While(test, body), token)
}

// Takes `..<` or `...`. Whether the end is taken too.
fn range(reader: &mut Reader<'_>) -> bool
    ensures spelled { IsNone reader.new.refused → SpellsRange (lexed_of reader.new) reader.old.at reader.new.at result }
    ensures grows { Grows reader.old reader.new }
{
    want_even(reader);
    if reader.takes(Sign::Through) {
        return true;
    }
    reader.sign(Sign::Below);
    false
}

// A `for`.
#[cycle(statement)]
fn for_in(reader: &mut Reader<'_>, blocks: u32) -> usize
    ensures spelled { IsNone reader.new.refused → IsBegun reader.old → AddsStmt reader.old reader.new reader.old.at result }
    ensures extends { Extends reader.old reader.new }
{
    reader.key(Word::For);
    if reader.is_key(Word::Try) || reader.is_key(Word::Await) {
        let is_tried = reader.takes_key(Word::Try);
        reader.key(Word::Await);
        let name = reader.name();
        reader.key(Word::In);
        let group = reader.name();
        let body = block(reader, blocks);
        return reader.stmt(StmtForm::ForAwait(group, is_tried, body), name);
    }
    let name = reader.name();
    reader.key(Word::In);
    let from = bound(reader);
    let is_closed = range(reader);
    let to = bound(reader);
    let body = block(reader, blocks);
    reader.stmt(StmtForm::For(from, to, is_closed, body), name)
}

// Refuses a pattern behind `catch`.
fn want_no_pattern(reader: &mut Reader<'_>)
    ensures same { IsNone reader.new.refused → reader.new ≡ reader.old }
    ensures grows { Grows reader.old reader.new }
{
    if !reader.is_sign(Sign::OpenBrace) {
        reader.refuse(Rule::CatchPattern, reader.at);
    }
}

// A `do` with its `catch`.
#[cycle(statement)]
fn do_catch(reader: &mut Reader<'_>, blocks: u32) -> usize
    ensures spelled { IsNone reader.new.refused → IsBegun reader.old → AddsStmt reader.old reader.new reader.old.at result }
    ensures extends { Extends reader.old reader.new }
{
    let token = reader.at;
    reader.key(Word::Do);
    let body = block(reader, blocks);
    reader.key(Word::Catch);
    want_no_pattern(reader);
    let caught = block(reader, blocks);
    reader.stmt(StmtForm::DoCatch(body, caught), token)
}

// A `return`, perhaps with a value.
#[cycle(statement)]
fn returned(reader: &mut Reader<'_>, blocks: u32) -> usize
    ensures spelled { IsNone reader.new.refused → IsBegun reader.old → AddsStmt reader.old reader.new reader.old.at result }
    ensures extends { Extends reader.old reader.new }
{
    let token = reader.at;
    reader.key(Word::Return);
    if goes_on(reader) {
        valued(reader, blocks, Into::Return, token)
    } else {
        reader.stmt(StmtForm::Return, token)
    }
}

// A statement. Its place.
#[cycle(statement)]
fn statement(reader: &mut Reader<'_>, blocks: u32) -> usize
    ensures spelled { IsNone reader.new.refused → IsBegun reader.old → AddsStmt reader.old reader.new reader.old.at result }
    ensures extends { Extends reader.old reader.new }
{
    let token = reader.at;
    match reader.here().kind {
        TokenKind::Key(Word::Let | Word::Var) => {
            let into = declared(reader);
            valued(reader, blocks, into, token)
        }
        TokenKind::Key(Word::If) => conditional(reader, blocks),
        TokenKind::Key(Word::Guard | Word::While) => tested(reader, blocks),
        TokenKind::Key(Word::For) => for_in(reader, blocks),
        TokenKind::Key(Word::Do) => do_catch(reader, blocks),
        TokenKind::Key(Word::Async) => async_let(reader),
        TokenKind::Key(Word::Throw) => throw_stmt(reader),
        TokenKind::Key(Word::Return) => returned(reader, blocks),
        _ => match simple(reader) {
            Some(place) => place,
            None => {
                let into = into_of(reader);
                valued(reader, blocks, into, token)
            }
        },
    }
}

// Takes the `self.` before a field that is assigned, if it stands at the front.
fn target(reader: &mut Reader<'_>) -> bool
    ensures spelled { SpellsTarget (lexed_of reader.new) reader.old.at reader.new.at result }
    ensures grows { Grows reader.old reader.new }
{
    if reader.is_key(Word::Own) && reader.is_sign_ahead(1, Sign::Dot) {
        reader.take();
        reader.take();
        return true;
    }
    false
}

// An assignment or a toggle of a field by `self`, or of a name, if one stands at the front.
fn simple(reader: &mut Reader<'_>) -> Option<usize>
    ensures spelled { IsNone reader.new.refused → IsBegun reader.old → IfSome result (λ p. AddsStmt reader.old reader.new reader.old.at p) }
    ensures none { IfNone result (Grows reader.old reader.new) }
    ensures back { IsNone reader.new.refused → IfNone result (reader.new.at ≡ reader.old.at) }
    ensures extends { Extends reader.old reader.new }
{
    let at = reader.at;
    let is_own = target(reader);
    match changed_here(reader, is_own) {
        Some(place) => Some(place),
        None => {
            reader.at = if reader.refused.is_none() {
                at
            } else {
                usize::MAX
            };
            None
        }
    }
}

fn changed_here(reader: &mut Reader<'_>, is_own: bool) -> Option<usize>
    ensures spelled { IsNone reader.new.refused → IsBegun reader.old → IfSome result (λ p. (i : ℕ) → SpellsTarget (lexed_of reader.old) i reader.old.at is_own → AddsStmt reader.old reader.new i p) }
    ensures none { IfNone result (Grows reader.old reader.new) }
    ensures extends { Extends reader.old reader.new }
{
    if reader.is_word("_") {
        return None;
    }
    match reader.here().kind {
        TokenKind::Name => changed(reader, is_own),
        _ => None,
    }
}

// Puts a statement after the last one of its block, if it is not the first. The place of the first one.
fn follow(reader: &mut Reader<'_>, first: usize, last: usize, place: usize) -> usize
    ensures begins { first ≡ 0 → (result ≡ place) × (reader.new ≡ reader.old) }
    ensures links { 0 < first → (result ≡ first) × IsLinked reader.old reader.new last place }
    ensures extends { Extends reader.old reader.new }
{
    if first == 0 {
        return place;
    }
    reader.link(last, place);
    first
}

// The statements up to the closing brace, which is taken too. The first one's place, or 0.
#[cycle(statement)]
fn statements(reader: &mut Reader<'_>, blocks: u32) -> usize
    ensures spelled { IsNone reader.new.refused → IsBegun reader.old → Adds reader.old reader.new (λ s. SpellsRest s reader.old.at reader.new.at result) }
    ensures extends { Extends reader.old reader.new }
{
    if blocks == 0 {
        return too_deep(reader);
    }
    let mut first = 0;
    let mut last = 0;
    for _ in 0..reader.tokens.len() {
        if reader.takes(Sign::Semicolon) {
            continue;
        }
        if reader.takes(Sign::CloseBrace) {
            return first;
        }
        let place = statement(reader, blocks - 1);
        reader.separator();
        first = follow(reader, first, last, place);
        last = place;
    }
    reader.sign(Sign::CloseBrace);
    first
}

#[cycle(statement)]
fn block(reader: &mut Reader<'_>, blocks: u32) -> usize
    ensures spelled { IsNone reader.new.refused → IsBegun reader.old → Adds reader.old reader.new (λ s. SpellsBlock s reader.old.at reader.new.at result) }
    ensures extends { Extends reader.old reader.new }
{
    reader.sign(Sign::OpenBrace);
    statements(reader, blocks)
}

/// A block. The place of its first statement, or 0.
pub(crate) fn body(reader: &mut Reader<'_>) -> usize
    ensures spelled { IsNone reader.new.refused → IsBegun reader.old → Adds reader.old reader.new (λ s. SpellsBlock s reader.old.at reader.new.at result) }
    ensures extends { Extends reader.old reader.new }
{
    block(reader, BLOCKS)
}
