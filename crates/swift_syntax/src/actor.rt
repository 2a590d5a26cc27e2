//! Actors, with their fields, invariants and methods.
#![tactic(auto, using(crate::proofs::Grown::extends_same, crate::proofs::Grown::grows_same, crate::proofs::Grown::grows_on, crate::proofs::Refused::grows_taken))]

ghost use Rattle.std.specs.List.{position, slice_get};
ghost use Rattle.std.specs.Prelude.{[], ◌∷◌, ◌≡◌, IsNone, IsTrue, List, codes, false, length, true, ℕ, ◌<◌};
ghost use Rattle.swift_syntax.specs.Declarations.{IsLiteral, ReadsSuch, SetsVariable, SpellsAccess, SpellsActor, SpellsDeclaration, SpellsKeeper, SpellsMain, SpellsMember, SpellsMembers, SpellsMethod, SpellsParam, SpellsPrivate, SpellsResult, SpellsStart, changed_at, label_of, named_actor, on_executor, IsPlain, SpellsOwn, bytes_at, is_named, same_bytes, with_init, IsLoneValue, SpellsBody, found_returned, lone_returned};
ghost use Rattle.swift_syntax.specs.DeclaringInside.{Declares, PutsField, PutsHead, PutsParam, PutsParams, with_actor, with_field, with_invariant, with_main, with_param, GivesAll, GivesOne, given_at, with_given, IsNew, SaysTest, says_invariant, with_method, with_test};
ghost use Rattle.swift_syntax.specs.Expressions.{SpellsExpr, StandsAt, SwiftTree, kind_at, table_of};
ghost use Rattle.swift_syntax.specs.ReadersInside.{Grows, lexed_of, source_with, Adds, Extends, IsBegun, source_of};
ghost use Rattle.swift_syntax.specs.Declarations as declarations;
ghost use Rattle.swift_syntax.specs.Statements.{Row, SpellsType, a_key, spells_at};

use crate::expression::expression;
use crate::reader::Reader;
use crate::rule::Rule;
use crate::sign::Sign;
use crate::statement::body;
use crate::token::TokenKind;
use crate::tree::{
    Access, ActorDecl, ExprForm, FieldDecl, FieldStart, Into, InvariantDecl, MethodDecl, ParamDecl,
    Stmt, StmtForm, ValueType,
};
use crate::word::Word;

/// A literal: a number, perhaps below 0, `true` or `false`. Its place.
pub(crate) fn literal(reader: &mut Reader<'_>) -> usize
    ensures spelled { IsNone reader.new.refused → (xs : List Stmt) → ReadsSuch IsLiteral (source_with reader.new xs) reader.old.at reader.new.at result }
    ensures grows { Grows reader.old reader.new }
{
    let place = reader.at;
    let found = expression(reader);
    if !is_literal(reader, found) {
        reader.refuse(Rule::Outside, place);
    }
    found
}

fn is_literal(reader: &Reader<'_>, place: usize) -> bool
    ensures { IsTrue result → (i j : ℕ) (v : SwiftTree) → SpellsExpr reader.now.tokens.now i j v → StandsAt (table_of reader.now.tree.value) place v → IsLiteral v }
{
    match reader.tree.expr(place).form {
        ExprForm::Number(_) | ExprForm::Truth(_) => true,
        ExprForm::Negate(inner) => matches!(reader.tree.expr(inner).form, ExprForm::Number(_)),
        _ => false,
    }
}

// Takes the words that say who may use a member, and who may set it.
fn access(reader: &mut Reader<'_>) -> Access
    ensures spelled { IsNone reader.new.refused → SpellsAccess (lexed_of reader.new) reader.old.at reader.new.at result }
    ensures grows { Grows reader.old reader.new }
{
    if reader.takes_key(Word::Private) {
        return private_access(reader);
    }
    if reader.takes_key(Word::Public) {
        if reader.takes_key(Word::Private) {
            return private_access(reader);
        }
        return Access::Open;
    }
    open_access(reader)
}

// Takes the word that opens a member to its file or its module, if it is there.
fn open_access(reader: &mut Reader<'_>) -> Access
    ensures spelled { IsNone reader.new.refused → SpellsAccess (lexed_of reader.new) reader.old.at reader.new.at result }
    ensures grows { Grows reader.old reader.new }
{
    if reader.takes_key(Word::Fileprivate) {
        return Access::Open;
    }
    if reader.takes_key(Word::Internal) {
        return Access::Open;
    }
    Access::Open
}

// `(set)` behind `private`, if it is there.
fn private_access(reader: &mut Reader<'_>) -> Access
    ensures spelled { IsNone reader.new.refused → (i : ℕ) → Row (lexed_of reader.old) (a_key Word.Private ∷ []) i reader.old.at → SpellsPrivate (lexed_of reader.new) i reader.new.at result }
    ensures grows { Grows reader.old reader.new }
{
    if reader.takes(Sign::Open) {
        reader.word("set");
        reader.sign(Sign::Close);
        Access::Open
    } else {
        Access::Private
    }
}

// Parameters behind their parenthesis, which are taken up to the one that closes them.
fn params(reader: &mut Reader<'_>)
    ensures { Declares reader.old reader.new PutsParams }
{
    if reader.takes(Sign::Close) {
        return;
    }
    for _ in 0..reader.tokens.len() {
        param(reader);
        if !reader.takes(Sign::Comma) {
            reader.sign(Sign::Close);
            return;
        }
    }
    reader.unexpected();
}

fn param(reader: &mut Reader<'_>)
    ensures { Declares reader.old reader.new PutsParam }
{
    let (label, name) = param_names(reader);
    let value_type = reader.value_type();
    put_param(
        reader,
        ParamDecl {
            label,
            name,
            value_type,
        },
    );
}

// The label of a parameter and its name, with the colon behind them.
fn param_names(reader: &mut Reader<'_>) -> (usize, usize)
    ensures spelled { IsNone reader.new.refused → (k : ℕ) (t : ValueType) → SpellsType (lexed_of reader.new) reader.new.at k t → SpellsParam (lexed_of reader.new) reader.old.at k (record { label = result.0; name = result.1; value_type = t }) }
    ensures grows { Grows reader.old reader.new }
{
    let first = reader.name();
    let label = label(reader, first);
    if reader.takes(Sign::Colon) {
        return (label, first);
    }
    let name = reader.name();
    reader.sign(Sign::Colon);
    (label, name)
}

// The label that the first name of a parameter is: 0 for `_`.
fn label(reader: &Reader<'_>, name: usize) -> usize
    ensures { result ≡ label_of (lexed_of reader.now) name }
{
    if reader.spells(name, "_") { 0 } else { name }
}

fn put_param(reader: &mut Reader<'_>, param: ParamDecl)
    ensures { Declares reader.old reader.new (λ s i j r t. (i ≡ j) × (t ≡ with_param param r)) }
{
    let grown = reader.tree.params.push(param).is_ok();
    reader.note(grown);
}

// A field, from its `var` or `let` on.
fn field(reader: &mut Reader<'_>, actor: usize, access: Access)
    ensures { Declares reader.old reader.new (λ s. PutsField s actor access) }
{
    let is_var = keeper(reader);
    let name = reader.name();
    let value_type = reader.annotation();
    let start = start(reader);
    put_field(
        reader,
        FieldDecl {
            actor,
            name,
            is_var,
            access,
            value_type,
            start,
            given: 0,
        },
    );
}

// Takes `var` or `let`. Whether it is `var`.
fn keeper(reader: &mut Reader<'_>) -> bool
    ensures spelled { IsNone reader.new.refused → SpellsKeeper (lexed_of reader.new) reader.old.at reader.new.at result }
    ensures grows { Grows reader.old reader.new }
{
    if reader.takes_key(Word::Var) {
        return true;
    }
    reader.key(Word::Let);
    false
}

// The start value of a field, if there is one.
fn start(reader: &mut Reader<'_>) -> FieldStart
    ensures spelled { IsNone reader.new.refused → (xs : List Stmt) → SpellsStart (source_with reader.new xs) reader.old.at reader.new.at result }
    ensures grows { Grows reader.old reader.new }
{
    if reader.takes(Sign::Assign) {
        FieldStart::Value(literal(reader))
    } else {
        FieldStart::None
    }
}

fn put_field(reader: &mut Reader<'_>, field: FieldDecl)
    ensures { Declares reader.old reader.new (λ s i j r t. (i ≡ j) × (t ≡ with_field field r)) }
{
    let grown = reader.tree.fields.push(field).is_ok();
    reader.note(grown);
}

// Whether two tokens have the same bytes.
fn same_name(reader: &Reader<'_>, left: usize, right: usize) -> bool
    ensures { result ≡ same_bytes (bytes_at (lexed_of reader.now) left) (bytes_at (lexed_of reader.now) right) }
{
    let left = reader.token(left);
    let right = reader.token(right);
    match reader.text.get(left.from..left.to) {
        Some(bytes) => match reader.text.get(right.from..right.to) {
            Some(others) => bytes == others,
            None => false,
        },
        None => reader.text.get(right.from..right.to).is_none(),
    }
}

// The place of the first field of an actor with the name that a token spells.
fn field_named(reader: &Reader<'_>, actor: usize, name: usize) -> Option<usize>
    ensures { result ≡ position (is_named (lexed_of reader.now) actor name) reader.now.tree.value.fields.items }
{
    reader.tree.fields.iter().position(|field| field.actor == actor
        && same_name(reader, field.name, name))
}

// Gives a field of an actor its value in the actor's init.
fn give(reader: &mut Reader<'_>, actor: usize, name: usize, value: usize)
    ensures { Declares reader.old reader.new (λ s i j r t. (i ≡ j) × (t ≡ with_given s.lexed actor name value r)) }
{
    match field_named(reader, actor, name) {
        Some(place) => {
            if give_at(reader, place, value) {
                reader.refuse(Rule::Assigned, name);
            }
        }
        None => reader.refuse(Rule::UnknownName, name),
    }
}

// Gives the field at a place its value. Whether it is a constant that had one.
fn give_at(reader: &mut Reader<'_>, place: usize, value: usize) -> bool
    ensures { Declares reader.old reader.new (λ s i j r t. (i ≡ j) × (t ≡ record r { fields = given_at place value r.fields })) }
{
    if let Some(field) = reader.tree.fields.get_mut(place) {
        let is_twice = field.given != 0 && !field.is_var;
        field.given = value;
        return is_twice;
    }
    false
}

// Whether a name is one of the parameters from a place on.
fn is_param(reader: &Reader<'_>, first_param: usize, name: usize) -> bool {
    reader
        .tree
        .params
        .iter()
        .skip(first_param)
        .any(|param| same_name(reader, param.name, name))
}

// Takes `self.`, if it is there. Whether it is.
fn own(reader: &mut Reader<'_>) -> bool
    ensures spelled { IsNone reader.new.refused → SpellsOwn (lexed_of reader.new) reader.old.at reader.new.at }
    ensures grows { Grows reader.old reader.new }
{
    if reader.takes_key(Word::Own) {
        reader.sign(Sign::Dot);
        return true;
    }
    false
}

// Refuses a bare name that is one of the parameters from a place on.
fn want_field(reader: &mut Reader<'_>, is_own: bool, first_param: usize, name: usize)
    ensures same { IsNone reader.new.refused → reader.new ≡ reader.old }
    ensures grows { Grows reader.old reader.new }
{
    if !is_own && is_param(reader, first_param, name) {
        reader.refuse(Rule::Assigned, name);
    }
}

// A name or a literal. Its place.
fn plain(reader: &mut Reader<'_>) -> usize
    ensures spelled { IsNone reader.new.refused → (xs : List Stmt) → ReadsSuch IsPlain (source_with reader.new xs) reader.old.at reader.new.at result }
    ensures grows { Grows reader.old reader.new }
{
    let place = reader.at;
    let found = expression(reader);
    if !is_plain(reader, found) {
        reader.refuse(Rule::Outside, place);
    }
    found
}

fn is_plain(reader: &Reader<'_>, place: usize) -> bool
    ensures { IsTrue result → (i j : ℕ) (v : SwiftTree) → SpellsExpr reader.now.tokens.now i j v → StandsAt (table_of reader.now.tree.value) place v → IsPlain v }
{
    match reader.tree.expr(place).form {
        ExprForm::Name => true,
        _ => is_literal(reader, place),
    }
}

// One assignment of an init, up to what separates it from the next one.
fn init_step(reader: &mut Reader<'_>, actor: usize, first_param: usize)
    ensures { Declares reader.old reader.new (λ s. GivesOne s actor) }
{
    let is_own = own(reader);
    let name = reader.name();
    want_field(reader, is_own, first_param, name);
    reader.sign(Sign::Assign);
    let value = plain(reader);
    give(reader, actor, name, value);
    reader.separator();
}

// The assignments of an init, up to its closing brace, which is taken too.
fn init_steps(reader: &mut Reader<'_>, actor: usize, first_param: usize)
    ensures { Declares reader.old reader.new (λ s. GivesAll s actor) }
{
    for _ in 0..reader.tokens.len() {
        if reader.takes(Sign::CloseBrace) {
            return;
        }
        if reader.takes(Sign::Semicolon) {
            continue;
        }
        init_step(reader, actor, first_param);
    }
    reader.sign(Sign::CloseBrace);
}

// Refuses a second init of an actor.
fn want_first_init(reader: &mut Reader<'_>, actor: usize)
    ensures same { IsNone reader.new.refused → reader.new ≡ reader.old }
    ensures grows { Grows reader.old reader.new }
{
    if reader.tree.actors.get(actor).is_some_and(|a| a.has_init) {
        reader.refuse(Rule::NameTwice, reader.at);
    }
}

// An init, from its keyword on.
fn init(reader: &mut Reader<'_>, actor: usize)
    ensures { Declares reader.old reader.new (λ s. SpellsMember s actor) }
{
    want_first_init(reader, actor);
    reader.key(Word::Init);
    reader.sign(Sign::Open);
    let first_param = params_len(reader);
    params(reader);
    let params_end = params_len(reader);
    reader.sign(Sign::OpenBrace);
    init_steps(reader, actor, first_param);
    set_init(reader, actor, first_param, params_end);
}

fn set_init(reader: &mut Reader<'_>, actor: usize, first_param: usize, params_end: usize)
    ensures { Declares reader.old reader.new (λ s i j r t. (i ≡ j) × (t ≡ record r { actors = changed_at (with_init first_param params_end) actor r.actors })) }
{
    if let Some(made) = reader.tree.actors.get_mut(actor) {
        made.has_init = true;
        made.first_param = first_param;
        made.params_end = params_end;
    }
}

// The executor of an actor, from `nonisolated` on.
fn executor(reader: &mut Reader<'_>, actor: usize)
    ensures { Declares reader.old reader.new (λ s. SpellsMember s actor) }
{
    reader.key(Word::Nonisolated);
    reader.key(Word::Var);
    reader.word("unownedExecutor");
    reader.sign(Sign::Colon);
    reader.word("UnownedSerialExecutor");
    reader.sign(Sign::OpenBrace);
    let name = reader.name();
    reader.sign(Sign::Dot);
    reader.word("asUnownedSerialExecutor");
    reader.sign(Sign::Open);
    reader.sign(Sign::Close);
    reader.sign(Sign::CloseBrace);
    set_executor(reader, actor, name);
}

fn set_executor(reader: &mut Reader<'_>, actor: usize, name: usize)
    ensures { Declares reader.old reader.new (λ s i j r t. (i ≡ j) × (t ≡ record r { actors = changed_at (on_executor name) actor r.actors })) }
{
    if let Some(made) = reader.tree.actors.get_mut(actor) {
        made.executor = name;
    }
}

// What has to hold of an actor.
fn invariant(reader: &mut Reader<'_>, actor: usize, test: usize)
    ensures { Declares reader.old reader.new (λ s i j r t. (i ≡ j) × (t ≡ with_invariant actor test r)) }
{
    let grown = reader
        .tree
        .invariants
        .push(InvariantDecl { actor, test })
        .is_ok();
    reader.note(grown);
}

// The value that a body of one statement alone is, or 0.
fn lone_value(reader: &Reader<'_>, first: usize) -> usize
    ensures { 0 < result → (0 < first) × IsLoneValue (source_of reader.now) first result }
{
    let Some(stmt) = reader.tree.stmt(first) else {
        return 0;
    };
    if stmt.next != 0 {
        return 0;
    }
    match stmt.form {
        StmtForm::Value(into, value) => match into {
            Into::Nothing => value,
            Into::Return => value,
            _ => 0,
        },
        _ => 0,
    }
}

// The head of a method, from its `func` on, without a body.
fn method_head(reader: &mut Reader<'_>, actor: usize, access: Access) -> MethodDecl
    ensures { Declares reader.old reader.new (λ s i j r t. PutsHead s actor access i j r t result) }
{
    reader.key(Word::Func);
    let name = reader.name();
    reader.sign(Sign::Open);
    let first_param = params_len(reader);
    params(reader);
    let params_end = params_len(reader);
    let is_async = reader.takes_key(Word::Async);
    let is_throwing = reader.takes_key(Word::Throws);
    let result = result_type(reader);
    MethodDecl {
        actor,
        name,
        access,
        is_async,
        is_throwing,
        result,
        first_param,
        params_end,
        body: 0,
        end: 0,
    }
}

// How many parameters were read.
fn params_len(reader: &Reader<'_>) -> usize
    ensures { result ≡ length reader.now.tree.value.params.items }
{
    reader.tree.params.len()
}

// What a method returns.
fn result_type(reader: &mut Reader<'_>) -> ValueType
    ensures spelled { IsNone reader.new.refused → SpellsResult (lexed_of reader.new) reader.old.at reader.new.at result }
    ensures grows { Grows reader.old reader.new }
{
    if reader.takes(Sign::Arrow) {
        return reader.value_type();
    }
    ValueType::Void
}

// What becomes of the value of a statement that is a whole body, where it is a group or a binding: it is returned.
fn returned(form: StmtForm) -> StmtForm
    ensures { result ≡ declarations.returned form }
{
    match form {
        StmtForm::Group(Into::Nothing, found, is_throwing, body) => {
            StmtForm::Group(Into::Return, found, is_throwing, body)
        }
        StmtForm::Bind(Into::Nothing, of, value, body) => {
            StmtForm::Bind(Into::Return, of, value, body)
        }
        other => other,
    }
}

// Where the statement at a place is the last of its block, it returns what it gives.
fn return_at(reader: &mut Reader<'_>, place: usize)
    ensures at { reader.new.at ≡ reader.old.at }
    ensures stmts { reader.new.tree.value.stmts.items ≡ found_returned place reader.old.tree.value.stmts.items (slice_get reader.old.tree.value.stmts.items place) }
    ensures extends { Extends reader.old reader.new }
{
    if let Some(stmt) = reader.tree.stmts.get_mut(place) {
        if stmt.next == 0 {
            stmt.form = returned(stmt.form);
        }
    }
}

// Where a value is to be returned, a statement that is a whole body returns it.
fn return_lone(reader: &mut Reader<'_>, found: ValueType, place: usize)
    ensures at { reader.new.at ≡ reader.old.at }
    ensures stmts { reader.new.tree.value.stmts.items ≡ lone_returned found place reader.old.tree.value.stmts.items }
    ensures extends { Extends reader.old reader.new }
{
    // The place 0 stands for no statement.
    if found == ValueType::Void || place == 0 {
        return;
    }
    return_at(reader, place);
}

// The body of a method that returns such a value. The place of its first statement, or 0.
fn method_body(reader: &mut Reader<'_>, found: ValueType) -> usize
    ensures spelled { IsNone reader.new.refused → IsBegun reader.old → Adds reader.old reader.new (λ s. SpellsBody s found reader.old.at reader.new.at result × IsNew (length reader.old.tree.value.stmts.items) result) }
    ensures extends { Extends reader.old reader.new }
{
    let place = body(reader);
    return_lone(reader, found, place);
    place
}

// Whether a method says what has to hold of its actor.
fn is_invariant(reader: &Reader<'_>, made: MethodDecl) -> bool
    ensures { result ≡ says_invariant (lexed_of reader.now) made }
{
    let is_member = made.actor != usize::MAX;
    let has_params = made.first_param != made.params_end;
    is_member && (!has_params && reader.spells(made.name, "invariant"))
}

// Refuses an invariant that is no test alone.
fn want_test(reader: &mut Reader<'_>, made: MethodDecl, test: usize)
    ensures same { IsNone reader.new.refused → reader.new ≡ reader.old }
    ensures found { IsNone reader.new.refused → 0 < test }
    ensures is_async { IsNone reader.new.refused → made.is_async ≡ false }
    ensures grows { Grows reader.old reader.new }
{
    if test == 0 || made.is_async {
        reader.refuse(Rule::NotYet, made.name);
    }
}

// The test that a method is, where it says what has to hold of its actor.
fn test_of(reader: &mut Reader<'_>, made: MethodDecl) -> Option<usize>
    ensures same { IsNone reader.new.refused → reader.new ≡ reader.old }
    ensures says { IsNone reader.new.refused → SaysTest (source_of reader.old) made result }
    ensures grows { Grows reader.old reader.new }
{
    if !is_invariant(reader, made) {
        return None;
    }
    let test = lone_value(reader, made.body);
    want_test(reader, made, test);
    Some(test)
}

// What has to hold of an actor, if there is something.
fn perhaps_invariant(reader: &mut Reader<'_>, actor: usize, test: Option<usize>)
    ensures { Declares reader.old reader.new (λ s i j r t. (i ≡ j) × (t ≡ with_test actor test r)) }
{
    if let Some(test) = test {
        invariant(reader, actor, test);
    }
}

fn put_method(reader: &mut Reader<'_>, made: MethodDecl)
    ensures { Declares reader.old reader.new (λ s i j r t. (i ≡ j) × (t ≡ with_method made r)) }
{
    let grown = reader.tree.methods.push(made).is_ok();
    reader.note(grown);
}

// A method, from its `func` on.
fn method(reader: &mut Reader<'_>, actor: usize, access: Access)
    ensures { Declares reader.old reader.new (λ s. SpellsMethod s actor access) }
{
    let head = method_head(reader, actor, access);
    let body = method_body(reader, head.result);
    let end = reader.at.saturating_sub(1);
    let made = MethodDecl { body, end, ..head };
    let test = test_of(reader, made);
    perhaps_invariant(reader, actor, test);
    put_method(reader, made);
}

// A member, up to what separates it from the next one.
fn member(reader: &mut Reader<'_>, actor: usize)
    ensures { Declares reader.old reader.new (λ s. SpellsMember s actor) }
{
    match reader.here().kind {
        TokenKind::Invariant => invariant_comment(reader, actor),
        TokenKind::Key(Word::Init) => init(reader, actor),
        TokenKind::Key(Word::Nonisolated) => executor(reader, actor),
        _ => field_or_method(reader, actor),
    }
}

// What has to hold of an actor, from the comment that says so on.
fn invariant_comment(reader: &mut Reader<'_>, actor: usize)
    ensures { kind_at reader.old.tokens.now reader.old.at ≡ TokenKind.Invariant → Declares reader.old reader.new (λ s. SpellsMember s actor) }
{
    reader.take();
    let test = expression(reader);
    invariant(reader, actor, test);
}

// A field or a method, from the words on that say who may use it.
fn field_or_method(reader: &mut Reader<'_>, actor: usize)
    ensures { Declares reader.old reader.new (λ s. SpellsMember s actor) }
{
    let before = reader.at;
    let access = access(reader);
    want_var(reader, before);
    match reader.here().kind {
        TokenKind::Key(Word::Var | Word::Let) => field(reader, actor, access),
        TokenKind::Key(Word::Func) => method(reader, actor, access),
        _ => reader.unexpected(),
    }
}

// Refuses all but `var` behind `private(set)`. What says who may use the member begins at a place.
fn want_var(reader: &mut Reader<'_>, before: usize)
    ensures settable { IsNone reader.new.refused → SetsVariable (lexed_of reader.old) before reader.old.at }
    ensures same { IsNone reader.new.refused → reader.new ≡ reader.old }
    ensures grows { Grows reader.old reader.new }
{
    let at = reader.at;
    let last = reader.token(at.saturating_sub(1)).kind;
    let has_set = at > before && matches!(last, TokenKind::Sign(Sign::Close));
    if has_set && !reader.is_key(Word::Var) {
        reader.refuse(Rule::Outside, at);
    }
}

/// An actor, from its keyword on.
pub(crate) fn actor(reader: &mut Reader<'_>)
    ensures { Declares reader.old reader.new SpellsActor }
{
    reader.key(Word::Actor);
    let name = reader.name();
    let actor = put_actor(reader, name);
    reader.sign(Sign::OpenBrace);
    members(reader, actor);
}

// Puts an actor of which nothing but the name is known. Its place.
fn put_actor(reader: &mut Reader<'_>, name: usize) -> usize
    ensures { Declares reader.old reader.new (λ s i j r t. (i ≡ j) × (t ≡ with_actor (named_actor name) r) × (result ≡ length r.actors)) }
{
    let actor = reader.tree.actors.len();
    let grown = reader
        .tree
        .actors
        .push(ActorDecl {
            name,
            executor: 0,
            has_init: false,
            first_param: 0,
            params_end: 0,
        })
        .is_ok();
    reader.note(grown);
    actor
}

// The members of an actor, up to its closing brace, which is taken too.
fn members(reader: &mut Reader<'_>, actor: usize)
    ensures { Declares reader.old reader.new (λ s. SpellsMembers s actor) }
{
    for _ in 0..reader.tokens.len() {
        if reader.takes(Sign::CloseBrace) {
            return;
        }
        if reader.takes(Sign::Semicolon) {
            continue;
        }
        member(reader, actor);
        reader.separator();
    }
    reader.sign(Sign::CloseBrace);
}

/// A function outside of actors, from the word on that says who may call it: the whole file may.
pub(crate) fn function(reader: &mut Reader<'_>)
    ensures { Declares reader.old reader.new SpellsDeclaration }
{
    let _ = access(reader);
    method(reader, usize::MAX, Access::Open);
}

/// `main`, from `static` on, of the type of this name.
pub(crate) fn main_method(reader: &mut Reader<'_>, name: usize)
    ensures { Declares reader.old reader.new (λ s. SpellsMain s name) }
{
    reader.key(Word::Static);
    let head = method_head(reader, usize::MAX, Access::Open);
    want_main(reader, head);
    let body = body(reader);
    let end = reader.at.saturating_sub(1);
    put_main(
        reader,
        MethodDecl {
            name,
            body,
            end,
            ..head
        },
    );
}

// Refuses a method that is no `main`.
fn want_main(reader: &mut Reader<'_>, head: MethodDecl)
    ensures same { IsNone reader.new.refused → reader.new ≡ reader.old }
    ensures named { IsNone reader.new.refused → spells_at reader.old.text.now reader.old.tokens.now head.name (codes "main") ≡ true }
    ensures is_async { IsNone reader.new.refused → head.is_async ≡ true }
    ensures throws { IsNone reader.new.refused → head.is_throwing ≡ false }
    ensures grows { Grows reader.old reader.new }
{
    if !reader.spells(head.name, "main") || !head.is_async || head.is_throwing {
        reader.refuse(Rule::Outside, head.name);
    }
}

fn put_main(reader: &mut Reader<'_>, made: MethodDecl)
    ensures { Declares reader.old reader.new (λ s i j r t. (i ≡ j) × (t ≡ with_main made r)) }
{
    let grown = reader.tree.mains.push(made).is_ok();
    reader.note(grown);
}
