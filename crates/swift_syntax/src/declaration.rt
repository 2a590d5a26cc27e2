//! What a file declares.
#![tactic(auto, using(crate::proofs::Grown::grows_same, crate::proofs::Grown::grows_on, crate::proofs::Refused::grows_taken))]

ghost use Rattle.std.specs.Prelude.{◌≡◌, ◌≢◌, ◌⊎◌, ◌++◌, ◌∷◌, [], true, codes, IsNone, length};
ghost use Rattle.swift_syntax.specs.Declarations.{SpellsBalanced, SpellsCase, SpellsCases, SpellsDeclaration, SpellsHolder, SpellsImport, SpellsInstance, SpellsKind, SpellsLocal, SpellsLocals, SpellsSendable, SpellsSomeCases, open_behind, rows_of};
ghost use Rattle.swift_syntax.specs.DeclaringInside.{Continues, Declares};
ghost use Rattle.swift_syntax.specs.Expressions.{kind_at};
ghost use Rattle.swift_syntax.specs.ReadersInside.{Grows, lexed_of, taken};
ghost use Rattle.swift_syntax.specs.RowsInside.{ArePut};
ghost use Rattle.swift_syntax.specs.Statements.{begins_line, spells_at};

use crate::actor::{actor, function, literal, main_method};
use crate::expression::{call_arguments, expression};
use crate::reader::Reader;
use crate::rule::Rule;
use crate::sign::Sign;
use crate::token::TokenKind;
use crate::tree::{
    CaseDecl, ConstantDecl, ExecutorDecl, ExecutorKindDecl, ExpectDecl, InstanceDecl, LocalDecl,
};
use crate::word::Word;

fn import(reader: &mut Reader<'_>)
    ensures spelled { IsNone reader.new.refused → SpellsImport (lexed_of reader.new) reader.old.at reader.new.at }
    ensures grows { Grows reader.old reader.new }
{
    reader.key(Word::Import);
    want_module(reader);
    reader.name();
}

// Refuses any module but these two.
fn want_module(reader: &mut Reader<'_>)
    ensures known { IsNone reader.new.refused → (spells_at reader.old.text.now reader.old.tokens.now reader.old.at (codes "Dispatch") ≡ true) ⊎ (spells_at reader.old.text.now reader.old.tokens.now reader.old.at (codes "Foundation") ≡ true) }
    ensures same { IsNone reader.new.refused → reader.new ≡ reader.old }
    ensures grows { Grows reader.old reader.new }
{
    if reader.is_word("Dispatch") {
        return;
    }
    if !reader.is_word("Foundation") {
        reader.refuse(Rule::Outside, reader.at);
    }
}

fn put_case(reader: &mut Reader<'_>, made: CaseDecl)
    ensures put { IsNone reader.new.refused → ArePut reader.old reader.new (record (rows_of reader.old.tree.value) { cases = (rows_of reader.old.tree.value).cases ++ made ∷ [] }) }
    ensures continues { Continues reader.old reader.new }
{
    let grown = reader.tree.cases.push(made).is_ok();
    reader.note(grown);
}

// A case of an enum of errors, whose first case has this place in the table.
fn case(reader: &mut Reader<'_>, of: usize, first: usize)
    ensures { Declares reader.old reader.new (λ s. SpellsCase s.lexed of first) }
{
    let place = reader.tree.cases.len().saturating_sub(first);
    let name = reader.name();
    put_case(reader, CaseDecl { of, name, place });
}

// The cases of one line of an enum of errors, behind its `case`.
fn cases(reader: &mut Reader<'_>, of: usize, first: usize)
    ensures { Declares reader.old reader.new (λ s. SpellsSomeCases s.lexed of first) }
{
    for _ in 0..reader.tokens.len() {
        case(reader, of, first);
        if !reader.takes(Sign::Comma) {
            return;
        }
    }
    // Each turn takes a name, so the tokens end before the turns do.
    reader.unexpected();
}

// The cases of an enum of errors, up to its closing brace.
fn faults(reader: &mut Reader<'_>, of: usize)
    ensures { Declares reader.old reader.new (λ s i j r t. SpellsCases s.lexed of (length r.cases) i j r t) }
{
    let first = reader.tree.cases.len();
    for _ in 0..reader.tokens.len() {
        if reader.takes(Sign::CloseBrace) {
            return;
        }
        if reader.takes(Sign::Semicolon) {
            continue;
        }
        reader.key(Word::Case);
        cases(reader, of, first);
        reader.separator();
    }
    reader.sign(Sign::CloseBrace);
}

fn put_local(reader: &mut Reader<'_>, made: LocalDecl)
    ensures put { IsNone reader.new.refused → ArePut reader.old reader.new (record (rows_of reader.old.tree.value) { locals = (rows_of reader.old.tree.value).locals ++ made ∷ [] }) }
    ensures continues { Continues reader.old reader.new }
{
    let grown = reader.tree.locals.push(made).is_ok();
    reader.note(grown);
}

fn local(reader: &mut Reader<'_>, of: usize)
    ensures { Declares reader.old reader.new (λ s. SpellsLocal s of) }
{
    reader.sign(Sign::At);
    reader.word("TaskLocal");
    reader.key(Word::Static);
    reader.key(Word::Var);
    let name = reader.name();
    let value_type = reader.annotation();
    reader.sign(Sign::Assign);
    let value = literal(reader);
    put_local(
        reader,
        LocalDecl {
            of,
            name,
            value_type,
            value,
        },
    );
}

// The task locals of an enum, up to its closing brace.
fn locals(reader: &mut Reader<'_>, of: usize)
    ensures { Declares reader.old reader.new (λ s. SpellsLocals s of) }
{
    for _ in 0..reader.tokens.len() {
        if reader.takes(Sign::CloseBrace) {
            return;
        }
        if reader.takes(Sign::Semicolon) {
            continue;
        }
        local(reader, of);
        reader.separator();
    }
    reader.sign(Sign::CloseBrace);
}

fn enumeration(reader: &mut Reader<'_>)
    ensures { Declares reader.old reader.new SpellsDeclaration }
{
    reader.key(Word::Enum);
    let of = reader.name();
    if reader.takes(Sign::Colon) {
        reader.word("Error");
        reader.sign(Sign::OpenBrace);
        faults(reader, of);
        return;
    }
    reader.sign(Sign::OpenBrace);
    locals(reader, of);
}

// The kind of an executor.
fn kind(reader: &mut Reader<'_>) -> ExecutorKindDecl
    ensures spelled { IsNone reader.new.refused → SpellsKind (lexed_of reader.new) reader.old.at reader.new.at result }
    ensures grows { Grows reader.old reader.new }
{
    if reader.takes_word("fifo") {
        return ExecutorKindDecl::Fifo;
    }
    if reader.takes_word("priority") {
        return ExecutorKindDecl::Priority;
    }
    reader.word("pinned");
    match reader.here().kind {
        TokenKind::Number(number) => {
            reader.take();
            ExecutorKindDecl::Pinned(number)
        }
        _ => {
            reader.unexpected();
            ExecutorKindDecl::Priority
        }
    }
}

// Takes a token that is not read. How many braces are open behind it.
fn skip(reader: &mut Reader<'_>, depth: usize) -> usize
    ensures depth { result ≡ open_behind (kind_at reader.old.tokens.now reader.old.at) depth }
    ensures taken { IsNone reader.new.refused → (kind_at reader.old.tokens.now reader.old.at ≢ TokenKind.End) × (reader.new ≡ taken reader.old) }
    ensures grows { Grows reader.old reader.new }
{
    let kind = reader.here().kind;
    if let TokenKind::End = kind {
        reader.unexpected();
    }
    reader.take();
    match kind {
        TokenKind::Sign(Sign::OpenBrace) => depth.saturating_add(1),
        TokenKind::Sign(Sign::CloseBrace) => depth.saturating_sub(1),
        _ => depth,
    }
}

// Braces that balance, with what stands in them, which is not read.
fn skip_braces(reader: &mut Reader<'_>)
    ensures spelled { IsNone reader.new.refused → SpellsBalanced (lexed_of reader.new) 0 reader.old.at reader.new.at }
    ensures grows { Grows reader.old reader.new }
{
    let mut depth = 0;
    for _ in 0..reader.tokens.len() {
        depth = skip(reader, depth);
        if depth == 0 {
            return;
        }
    }
    // Each turn takes a token, so the tokens end before the turns do.
    reader.unexpected();
}

fn put_executor(reader: &mut Reader<'_>, made: ExecutorDecl)
    ensures put { IsNone reader.new.refused → ArePut reader.old reader.new (record (rows_of reader.old.tree.value) { executors = (rows_of reader.old.tree.value).executors ++ made ∷ [] }) }
    ensures continues { Continues reader.old reader.new }
{
    let grown = reader.tree.executors.push(made).is_ok();
    reader.note(grown);
}

// Refuses a token on the line of what stands before it.
fn want_line(reader: &mut Reader<'_>)
    ensures line { IsNone reader.new.refused → begins_line (lexed_of reader.old) reader.old.at ≡ true }
    ensures same { IsNone reader.new.refused → reader.new ≡ reader.old }
    ensures grows { Grows reader.old reader.new }
{
    if !reader.here().begins_line {
        reader.unexpected();
    }
}

// What the class of an executor says of being sent.
fn sendable(reader: &mut Reader<'_>)
    ensures spelled { IsNone reader.new.refused → SpellsSendable (lexed_of reader.new) reader.old.at reader.new.at }
    ensures grows { Grows reader.old reader.new }
{
    if reader.takes(Sign::Comma) {
        reader.sign(Sign::At);
        reader.word("unchecked");
        reader.word("Sendable");
    }
}

// The body of a class of executors, which is not read.
fn unread(reader: &mut Reader<'_>)
    ensures opened { IsNone reader.new.refused → kind_at reader.new.tokens.now reader.old.at ≡ TokenKind.Sign Sign.OpenBrace }
    ensures spelled { IsNone reader.new.refused → SpellsBalanced (lexed_of reader.new) 0 reader.old.at reader.new.at }
    ensures grows { Grows reader.old reader.new }
{
    if !reader.is_sign(Sign::OpenBrace) {
        reader.unexpected();
    }
    skip_braces(reader);
}

// A class of executors, from the comment that says its kind on.
fn executor(reader: &mut Reader<'_>)
    ensures { kind_at reader.old.tokens.now reader.old.at ≡ TokenKind.Executor → Declares reader.old reader.new SpellsDeclaration }
{
    reader.take();
    let kind = kind(reader);
    want_line(reader);
    reader.key(Word::Final);
    reader.key(Word::Class);
    let name = reader.name();
    reader.sign(Sign::Colon);
    reader.word("SerialExecutor");
    sendable(reader);
    unread(reader);
    put_executor(reader, ExecutorDecl { name, kind });
}

fn put_instance(reader: &mut Reader<'_>, made: InstanceDecl)
    ensures put { IsNone reader.new.refused → ArePut reader.old reader.new (record (rows_of reader.old.tree.value) { instances = (rows_of reader.old.tree.value).instances ++ made ∷ [] }) }
    ensures continues { Continues reader.old reader.new }
{
    let grown = reader.tree.instances.push(made).is_ok();
    reader.note(grown);
}

// An instance of this name, from that of its actor or executor on.
fn instance(reader: &mut Reader<'_>, name: usize)
    ensures { Declares reader.old reader.new (λ s. SpellsInstance s name) }
{
    let of = reader.name();
    reader.sign(Sign::Open);
    let arguments = call_arguments(reader);
    put_instance(
        reader,
        InstanceDecl {
            name,
            of,
            arguments,
        },
    );
}

fn put_constant(reader: &mut Reader<'_>, made: ConstantDecl)
    ensures put { IsNone reader.new.refused → ArePut reader.old reader.new (record (rows_of reader.old.tree.value) { constants = (rows_of reader.old.tree.value).constants ++ made ∷ [] }) }
    ensures continues { Continues reader.old reader.new }
{
    let grown = reader.tree.constants.push(made).is_ok();
    reader.note(grown);
}

// A global `let`: an instance, or a constant.
fn global(reader: &mut Reader<'_>)
    ensures { Declares reader.old reader.new SpellsDeclaration }
{
    reader.key(Word::Let);
    let name = reader.name();
    let value_type = reader.annotation();
    reader.sign(Sign::Assign);
    if let TokenKind::Name = reader.here().kind {
        instance(reader, name);
        return;
    }
    let value = literal(reader);
    put_constant(
        reader,
        ConstantDecl {
            name,
            value_type,
            value,
        },
    );
}

// Takes `main` behind `@`.
fn main_word(reader: &mut Reader<'_>)
    ensures taken { IsNone reader.new.refused → (spells_at reader.old.text.now reader.old.tokens.now reader.old.at (codes "main") ≡ true) × (reader.new ≡ taken reader.old) }
    ensures grows { Grows reader.old reader.new }
{
    if !reader.is_word("main") {
        reader.refuse(Rule::Outside, reader.at.saturating_sub(1));
    }
    reader.name();
}

// Takes `struct` or `enum`.
fn holder(reader: &mut Reader<'_>)
    ensures spelled { IsNone reader.new.refused → SpellsHolder (lexed_of reader.new) reader.old.at reader.new.at }
    ensures grows { Grows reader.old reader.new }
{
    if reader.takes_key(Word::Enum) {
        return;
    }
    reader.key(Word::Struct);
}

// The type that has `main`, from `@main` on.
fn main_type(reader: &mut Reader<'_>)
    ensures { Declares reader.old reader.new SpellsDeclaration }
{
    reader.sign(Sign::At);
    main_word(reader);
    holder(reader);
    let name = reader.name();
    reader.sign(Sign::OpenBrace);
    main_method(reader, name);
    reader.sign(Sign::CloseBrace);
}

fn put_expectation(reader: &mut Reader<'_>, made: ExpectDecl)
    ensures put { IsNone reader.new.refused → ArePut reader.old reader.new (record (rows_of reader.old.tree.value) { expectations = (rows_of reader.old.tree.value).expectations ++ made ∷ [] }) }
    ensures continues { Continues reader.old reader.new }
{
    let grown = reader.tree.expectations.push(made).is_ok();
    reader.note(grown);
}

// What is expected of the end of each run, from the comment that says so on.
fn expect(reader: &mut Reader<'_>)
    ensures { kind_at reader.old.tokens.now reader.old.at ≡ TokenKind.Expect → Declares reader.old reader.new SpellsDeclaration }
{
    let token = reader.take();
    let test = expression(reader);
    put_expectation(reader, ExpectDecl { token, test });
}

// Whether a function begins here.
fn is_function(reader: &Reader<'_>) -> bool {
    match reader.here().kind {
        TokenKind::Key(Word::Func) => true,
        TokenKind::Key(Word::Private | Word::Fileprivate | Word::Internal | Word::Public) => {
            matches!(reader.ahead(1).kind, TokenKind::Key(Word::Func))
        }
        _ => false,
    }
}

/// A declaration.
pub(crate) fn declaration(reader: &mut Reader<'_>)
    ensures { Declares reader.old reader.new SpellsDeclaration }
{
    if is_function(reader) {
        function(reader);
        return;
    }
    match reader.here().kind {
        TokenKind::Key(Word::Import) => import(reader),
        TokenKind::Key(Word::Enum) => enumeration(reader),
        TokenKind::Executor => executor(reader),
        TokenKind::Expect => expect(reader),
        TokenKind::Key(Word::Let) => global(reader),
        TokenKind::Sign(Sign::At) => main_type(reader),
        TokenKind::Key(Word::Actor) => actor(reader),
        TokenKind::Key(Word::Final) => {
            reader.key(Word::Final);
            actor(reader);
        }
        TokenKind::Key(_) => reader.refuse(Rule::Outside, reader.at),
        _ => reader.unexpected(),
    }
}
