//! Tasks, groups and bindings: what has a closure.
#![tactic(auto, using(crate::proofs::Grown::grows_same, crate::proofs::Grown::grows_on, crate::proofs::Refused::grows_taken))]

ghost use Rattle.std.specs.Prelude.{◌≡◌, ◌↔◌, IfNone, IfSome, IsNone, IsTrue, List};
ghost use Rattle.swift_syntax.specs.Expressions.{kind_at, table_of};
ghost use Rattle.swift_syntax.specs.ReadersInside.{Adds, Grows, ListsNames, lexed_of, source_with};
ghost use Rattle.swift_syntax.specs.declared.tree.Stmt.{Stmt};
ghost use Rattle.swift_syntax.specs.Statements.{SpellsCovered, SpellsFront, SpellsGroup, SpellsHead, SpellsPerhaps, SpellsPriority, closed_form, closed_token};

use crate::expression::{expression, keep, put_arguments};
use crate::reader::Reader;
use crate::rule::Rule;
use crate::sign::Sign;
use crate::token::TokenKind;
use crate::tree::{Argument, Into, StmtForm, TaskForm, ValueType};
use crate::word::Word;

/// What stands before a closure.
#[derive(Clone, Copy)]
pub(crate) enum HeadForm {
    /// `Task`, or `Task.detached` where the flag says so, with the token of a priority, or 0.
    Task(bool, usize),
    /// `NAME.addTask`, or `addTaskUnlessCancelled` where the flag says so, with the token of a priority, or 0.
    Add(bool, usize),
    /// `withTaskGroup`, or `withThrowingTaskGroup` where the flag says so, with the type of results.
    Group(ValueType, bool),
    /// `ENUM.$NAME.withValue`, with the token of the enum and the value.
    Bind(usize, usize),
}

/// What stands before a closure, with `await` and `try` before that.
#[derive(Clone, Copy)]
pub(crate) struct ClosureHead {
    /// What it is.
    pub form: HeadForm,
    /// Its token: the name of a group or of a task local.
    pub token: usize,
    /// Whether `await` stands before it.
    pub is_awaited: bool,
    /// Whether `try` stands before it.
    pub is_tried: bool,
}

/// A closure: the first of the names in its list, its parameter or 0, and its first statement.
#[derive(Clone, Copy)]
pub(crate) struct Closure {
    pub captures: usize,
    pub parameter: usize,
    pub body: usize,
}

// Whether the token at a place is this keyword.
fn is_key_at(reader: &Reader<'_>, place: usize, word: Word) -> bool
    ensures { IsTrue result ↔ (kind_at reader.now.tokens.now place ≡ TokenKind.Key word) }
{
    match reader.token(place).kind {
        TokenKind::Key(found) => found == word,
        _ => false,
    }
}

fn is_sign_at(reader: &Reader<'_>, place: usize, sign: Sign) -> bool
    ensures { IsTrue result ↔ (kind_at reader.now.tokens.now place ≡ TokenKind.Sign sign) }
{
    match reader.token(place).kind {
        TokenKind::Sign(found) => found == sign,
        _ => false,
    }
}

// Whether a closure begins behind `Task` at a place, or arguments before one.
fn begins_task(reader: &Reader<'_>, place: usize) -> bool {
    if !reader.spells(place, "Task") {
        return false;
    }
    let next = place.saturating_add(1);
    is_sign_at(reader, next, Sign::OpenBrace)
        || is_sign_at(reader, next, Sign::Open)
        || reader.spells(next.saturating_add(1), "detached")
}

fn begins_group(reader: &Reader<'_>, place: usize) -> bool {
    reader.spells(place, "withTaskGroup") || reader.spells(place, "withThrowingTaskGroup")
}

fn begins_bind(reader: &Reader<'_>, place: usize) -> bool {
    is_sign_at(reader, place.saturating_add(1), Sign::Dot)
        && is_sign_at(reader, place.saturating_add(2), Sign::Dollar)
}

fn begins_add(reader: &Reader<'_>, place: usize) -> bool {
    let member = place.saturating_add(2);
    is_sign_at(reader, place.saturating_add(1), Sign::Dot)
        && (reader.spells(member, "addTask") || reader.spells(member, "addTaskUnlessCancelled"))
}

// Takes a priority in parentheses, if there is one. Its token, or 0.
fn priority(reader: &mut Reader<'_>) -> usize
    ensures spelled { IsNone reader.new.refused → SpellsPriority (lexed_of reader.new) reader.old.at reader.new.at result }
    ensures grows { Grows reader.old reader.new }
{
    if !reader.takes(Sign::Open) {
        return 0;
    }
    reader.word("priority");
    reader.sign(Sign::Colon);
    reader.sign(Sign::Dot);
    let place = reader.name();
    reader.sign(Sign::Close);
    place
}

fn task_head(reader: &mut Reader<'_>) -> HeadForm
    ensures spelled { IsNone reader.new.refused → Adds reader.old reader.new (λ s. SpellsHead s reader.old.at reader.new.at result reader.old.at) }
    ensures grows { Grows reader.old reader.new }
{
    reader.word("Task");
    if reader.takes(Sign::Dot) {
        reader.word("detached");
        return HeadForm::Task(true, priority(reader));
    }
    HeadForm::Task(false, priority(reader))
}

fn add_head(reader: &mut Reader<'_>) -> HeadForm
    ensures spelled { IsNone reader.new.refused → Adds reader.old reader.new (λ s. SpellsHead s reader.old.at reader.new.at result reader.old.at) }
    ensures grows { Grows reader.old reader.new }
{
    reader.name();
    reader.sign(Sign::Dot);
    if reader.is_word("addTaskUnlessCancelled") {
        reader.word("addTaskUnlessCancelled");
        return HeadForm::Add(true, priority(reader));
    }
    reader.word("addTask");
    HeadForm::Add(false, priority(reader))
}

// Takes the type of the results of a group, in parentheses.
fn group_type(reader: &mut Reader<'_>) -> ValueType
    ensures spelled { IsNone reader.new.refused → SpellsGroup (lexed_of reader.new) reader.old.at reader.new.at result }
    ensures grows { Grows reader.old reader.new }
{
    reader.sign(Sign::Open);
    reader.word("of");
    reader.sign(Sign::Colon);
    let found = reader.value_type();
    reader.sign(Sign::Dot);
    reader.key(Word::Own);
    if reader.is_sign(Sign::Comma) {
        // The type of its result would have to be compared; Swift infers it.
        reader.refuse(Rule::NotYet, reader.at.saturating_add(1));
        return found;
    }
    reader.sign(Sign::Close);
    found
}

fn group_head(reader: &mut Reader<'_>) -> HeadForm
    ensures spelled { IsNone reader.new.refused → Adds reader.old reader.new (λ s. SpellsHead s reader.old.at reader.new.at result reader.old.at) }
    ensures grows { Grows reader.old reader.new }
{
    if reader.is_word("withThrowingTaskGroup") {
        reader.word("withThrowingTaskGroup");
        return HeadForm::Group(group_type(reader), true);
    }
    reader.word("withTaskGroup");
    HeadForm::Group(group_type(reader), false)
}

fn bind_head(reader: &mut Reader<'_>) -> (HeadForm, usize)
    ensures spelled { IsNone reader.new.refused → Adds reader.old reader.new (λ s. SpellsHead s reader.old.at reader.new.at result.0 result.1) }
    ensures grows { Grows reader.old reader.new }
{
    let of = reader.name();
    reader.sign(Sign::Dot);
    reader.sign(Sign::Dollar);
    let name = reader.name();
    reader.sign(Sign::Dot);
    reader.word("withValue");
    reader.sign(Sign::Open);
    let value = expression(reader);
    reader.sign(Sign::Close);
    (HeadForm::Bind(of, value), name)
}

// The place behind a place, where the token there is this keyword, and whether it is.
fn behind(reader: &Reader<'_>, place: usize, word: Word) -> (usize, bool)
    ensures { SpellsPerhaps (lexed_of reader.now) word place result.0 result.1 }
{
    if is_key_at(reader, place, word) {
        (place.saturating_add(1), true)
    } else {
        (place, false)
    }
}

// Whether a closure begins at a place, with what stands before it.
fn begins_head(reader: &Reader<'_>, place: usize) -> bool {
    begins_task(reader, place)
        || begins_group(reader, place)
        || begins_bind(reader, place)
        || begins_add(reader, place)
}

// What stands before a closure, behind `try` and `await`, and its token.
fn head_form(reader: &mut Reader<'_>) -> (HeadForm, usize)
    ensures spelled { IsNone reader.new.refused → Adds reader.old reader.new (λ s. SpellsHead s reader.old.at reader.new.at result.0 result.1) }
    ensures grows { Grows reader.old reader.new }
{
    let first = reader.at;
    if begins_task(reader, first) {
        return (task_head(reader), first);
    }
    if begins_group(reader, first) {
        return (group_head(reader), first);
    }
    if begins_bind(reader, first) {
        return bind_head(reader);
    }
    (add_head(reader), first)
}

/// What stands before a closure at the front, if anything does; it is taken then.
pub(crate) fn head(reader: &mut Reader<'_>) -> Option<ClosureHead>
    ensures spelled { IsNone reader.new.refused → IfSome result (λ h. Adds reader.old reader.new (λ s. SpellsCovered s reader.old.at reader.new.at h)) }
    ensures same { IfNone result (reader.new ≡ reader.old) }
    ensures grows { Grows reader.old reader.new }
{
    let at = reader.at;
    let (place, is_tried) = behind(reader, at, Word::Try);
    let (first, is_awaited) = behind(reader, place, Word::Await);
    if !begins_head(reader, first) {
        return None;
    }
    reader.at = first;
    let (form, token) = head_form(reader);
    Some(ClosureHead {
        form,
        token,
        is_awaited,
        is_tried,
    })
}

// The names in a closure's list, behind its bracket. The first one's place, or 0.
fn captured(reader: &mut Reader<'_>) -> usize
    ensures spelled { IsNone reader.new.refused → ListsNames (lexed_of reader.new) (table_of reader.new.tree.value) reader.old.at reader.new.at result }
    ensures grows { Grows reader.old reader.new }
{
    let mut names = Vec::new(reader.alloc);
    for _ in 0..reader.tokens.len() {
        let name = Argument {
            label: reader.name(),
            value: 0,
            next: 0,
        };
        keep(reader, &mut names, name);
        if !reader.takes(Sign::Comma) {
            reader.sign(Sign::CloseBracket);
            reader.key(Word::In);
            return put_arguments(reader, &names);
        }
    }
    // Each turn takes a name, so the tokens end before the turns do.
    reader.refuse(Rule::TooLarge, reader.at);
    0
}

/// What stands before the statements of a closure, with its brace. Its body is 0.
pub(crate) fn closure_front(reader: &mut Reader<'_>) -> Closure
    ensures spelled { IsNone reader.new.refused → (xs : List Stmt) → SpellsFront (source_with reader.new xs) reader.old.at reader.new.at result.captures result.parameter }
    ensures grows { Grows reader.old reader.new }
{
    reader.on_line(Rule::NewStatement);
    reader.sign(Sign::OpenBrace);
    if reader.takes(Sign::OpenBracket) {
        return opened(captured(reader), 0);
    }
    let next = reader.at.saturating_add(1);
    if is_key_at(reader, next, Word::In) {
        let parameter = reader.name();
        reader.key(Word::In);
        return opened(0, parameter);
    }
    opened(0, 0)
}

// A closure without statements.
fn opened(captures: usize, parameter: usize) -> Closure
    ensures { result ≡ record { captures = captures; parameter = parameter; body = 0 } }
{
    Closure {
        captures,
        parameter,
        body: 0,
    }
}

/// The statement of a closure with what stands before it, and its token.
pub(crate) fn closure_stmt(head: ClosureHead, into: Into, closure: Closure) -> (StmtForm, usize)
    ensures form { result.0 ≡ closed_form head.form into closure.captures closure.body }
    ensures token { result.1 ≡ closed_token head.form head.token closure.parameter }
{
    let body = closure.body;
    let captures = closure.captures;
    match head.form {
        HeadForm::Task(is_detached, priority) => {
            let name = match into {
                Into::Let(name, _) => name,
                _ => 0,
            };
            let form = TaskForm {
                is_detached,
                priority,
                body,
                captures,
            };
            (StmtForm::Task(name, form), head.token)
        }
        HeadForm::Add(only, priority) => {
            let form = TaskForm {
                is_detached: false,
                priority,
                body,
                captures,
            };
            (StmtForm::AddTask(only, form), head.token)
        }
        HeadForm::Group(found, is_throwing) => {
            (
                StmtForm::Group(into, found, is_throwing, body),
                closure.parameter,
            )
        }
        HeadForm::Bind(of, value) => (StmtForm::Bind(into, of, value, body), head.token),
    }
}
