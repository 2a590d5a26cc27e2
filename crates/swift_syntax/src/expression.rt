//! Expressions.
#![tactic(auto, using(crate::proofs::Grown::grows_same, crate::proofs::Grown::grows_on, crate::proofs::Refused::grows_taken))]

ghost use Rattle.std.specs.Prelude.{[], ◌∷◌, ◌++◌, ◌≡◌, ◌↔◌, ◌+◌, IsNone, IsSome, IsTrue, Some, false, true};
ghost use Rattle.swift_syntax.specs.Expressions.{Reads, ReadsArguments, SpellsAtom, SpellsCalled, SpellsChoice, SpellsExpr, SpellsNamed, SpellsOperands, SpellsPrefixed, binary_of, both_form, has_label, kind_at, literal_of, opens_at, operator_in, table_of};
ghost use Rattle.swift_syntax.specs.Statements.{IsTest};
ghost use Rattle.swift_syntax.specs.ReadersInside.{Adds, AreFrom, Grows, IsPut, ReadsArgument, taken, takes_if, tried_form};

use crate::limits::DEPTH;
use crate::reader::Reader;
use crate::rule::Rule;
use crate::sign::Sign;
use crate::token::TokenKind;
use crate::tree::{Argument, ExprForm, Receiver, Tree};
use crate::word::Word;
use swift_types::Operator;

// An operator between two operands, and how tightly it binds.
#[derive(Clone, Copy)]
struct BinaryOperator {
    // None for `??`.
    operator: Option<Operator>,
    level: u32,
}

const COMPARISON: u32 = 2;

fn found(operator: Operator, level: u32) -> Option<BinaryOperator>
    ensures { result ≡ Some (record { operator = Some operator; level = level }) }
{
    Some(BinaryOperator {
        operator: Some(operator),
        level,
    })
}

fn operator_of(sign: Sign) -> Option<BinaryOperator>
    ensures { result ≡ binary_of sign }
{
    match sign {
        Sign::Or => found(Operator::Or, 0),
        Sign::And => found(Operator::And, 1),
        Sign::Equal => found(Operator::Equal, COMPARISON),
        Sign::Unequal => found(Operator::Unequal, COMPARISON),
        Sign::Less => found(Operator::Less, COMPARISON),
        Sign::AtMost => found(Operator::AtMost, COMPARISON),
        Sign::Greater => found(Operator::Greater, COMPARISON),
        Sign::AtLeast => found(Operator::AtLeast, COMPARISON),
        Sign::Coalesce => Some(BinaryOperator {
            operator: None,
            level: 3,
        }),
        Sign::Plus => found(Operator::Plus, 4),
        Sign::Minus => found(Operator::Minus, 4),
        Sign::Times => found(Operator::Times, 5),
        _ => None,
    }
}

// The operator at the front, if it binds at least so tightly.
fn operator(reader: &Reader<'_>, loosest: u32) -> Option<BinaryOperator>
    ensures { result ≡ operator_in loosest (kind_at reader.now.tokens.now reader.now.at) }
{
    let TokenKind::Sign(sign) = reader.here().kind else {
        return None;
    };
    let Some(found) = operator_of(sign) else {
        return None;
    };
    if found.level < loosest {
        return None;
    }
    Some(found)
}

// Takes an operator, with as much white space as Swift wants. Its place.
fn take_operator(reader: &mut Reader<'_>) -> usize
    ensures place { result ≡ reader.old.at }
    ensures taken { IsNone reader.new.refused → reader.new ≡ taken reader.old }
    ensures grows { Grows reader.old reader.new }
{
    let before = reader.here().after_space;
    let behind = reader.ahead(1).after_space;
    let begins_line = reader.here().begins_line;
    let needs_space = reader.is_sign(Sign::Less) || reader.is_sign(Sign::Greater);
    let place = reader.take();
    if before != behind {
        let rule = if begins_line {
            Rule::NewStatement
        } else {
            Rule::Spaces
        };
        reader.refuse(rule, place);
    } else if needs_space && !before {
        reader.refuse(Rule::Spaces, place);
    }
    place
}

fn both(found: BinaryOperator, left: usize, right: usize) -> ExprForm
    ensures { result ≡ both_form found.operator left right }
{
    match found.operator {
        Some(operator) => ExprForm::Binary(operator, left, right),
        None => ExprForm::Otherwise(left, right),
    }
}

fn missing(reader: &mut Reader<'_>, rule: Rule) -> usize
    ensures noted { IsSome reader.new.refused }
    ensures grows { Grows reader.old reader.new }
{
    reader.refuse(rule, reader.at);
    0
}

// Operands with operators between them that bind at least so tightly.
#[cycle(expression)]
fn operands(reader: &mut Reader<'_>, depth: u32, loosest: u32) -> usize
    ensures spelled { IsNone reader.new.refused → Reads (SpellsOperands reader.new.tokens.now loosest) (table_of reader.new.tree.value) reader.old.at reader.new.at result }
    ensures grows { Grows reader.old reader.new }
{
    if depth == 0 {
        return missing(reader, Rule::TooLarge);
    }
    let mut left = prefixed(reader, depth - 1);
    for _ in 0..reader.tokens.len() {
        let Some(found) = operator(reader, loosest) else {
            return left;
        };
        let place = take_operator(reader);
        let right = operands(reader, depth - 1, found.level.saturating_add(1));
        left = reader.expr(both(found, left, right), place);
        refuse_chain(reader, found.level);
    }
    // Each turn takes an operator, so the tokens end before the turns do.
    missing(reader, Rule::TooLarge)
}

// Comparisons are not chained.
fn refuse_chain(reader: &mut Reader<'_>, level: u32)
    ensures same { IsNone reader.new.refused → reader.new ≡ reader.old }
    ensures grows { Grows reader.old reader.new }
{
    if level != COMPARISON {
        return;
    }
    if let Some(next) = operator(reader, COMPARISON) {
        if next.level == COMPARISON {
            reader.unexpected();
        }
    }
}

// Whether an operator stands right before the next token: Swift takes both for one.
fn follows_operator(reader: &Reader<'_>) -> bool {
    let before = reader.here().from.saturating_sub(1);
    match reader.text.get(before) {
        Some(byte) => {
            matches!(*byte, b'+' | b'-' | b'*' | b'/' | b'%' | b'=' | b'<' | b'>')
                || matches!(*byte, b'!' | b'&' | b'|' | b'^' | b'~' | b'?' | b'.')
        }
        None => false,
    }
}

// Takes a prefix, which stands at its operand. Its place.
fn take_prefix(reader: &mut Reader<'_>) -> usize
    ensures place { result ≡ reader.old.at }
    ensures taken { IsNone reader.new.refused → reader.new ≡ taken reader.old }
    ensures grows { Grows reader.old reader.new }
{
    let is_joined = !reader.here().after_space && follows_operator(reader);
    let place = reader.take();
    if is_joined || reader.here().after_space {
        reader.refuse(Rule::Spaces, place);
    }
    place
}

// Whether a part is a number, perhaps with prefixes, or chooses between two of these: Swift then does not know of which type `-` is.
fn is_numeral(tree: &Tree, place: usize, depth: u32) -> bool {
    if depth == 0 {
        return true;
    }
    match tree.expr(place).form {
        ExprForm::Number(_) => true,
        ExprForm::Negate(inner) => is_numeral(tree, inner, depth - 1),
        ExprForm::Choice(_, held, failed) => {
            is_numeral(tree, held, depth - 1) && is_numeral(tree, failed, depth - 1)
        }
        _ => false,
    }
}

// Refuses a `-` at a place before a number in parentheses.
fn refuse_numeral(reader: &mut Reader<'_>, is_covered: bool, operand: usize, place: usize)
    ensures same { IsNone reader.new.refused → reader.new ≡ reader.old }
    ensures grows { Grows reader.old reader.new }
{
    if is_covered && is_numeral(&reader.tree, operand, DEPTH) {
        reader.refuse(Rule::NotYet, place);
    }
}

// An operand with at most one prefix.
#[cycle(expression)]
fn prefixed(reader: &mut Reader<'_>, depth: u32) -> usize
    ensures spelled { IsNone reader.new.refused → Reads (SpellsPrefixed reader.new.tokens.now) (table_of reader.new.tree.value) reader.old.at reader.new.at result }
    ensures grows { Grows reader.old reader.new }
{
    if reader.is_sign(Sign::Minus) {
        let place = take_prefix(reader);
        let is_covered = reader.is_sign(Sign::Open);
        let operand = atom(reader, depth);
        refuse_numeral(reader, is_covered, operand, place);
        return reader.expr(ExprForm::Negate(operand), place);
    }
    if reader.is_sign(Sign::Bang) {
        let place = take_prefix(reader);
        let operand = atom(reader, depth);
        return reader.expr(ExprForm::Not(operand), place);
    }
    atom(reader, depth)
}

// Whether the next token opens arguments of what stands before it.
fn opens_arguments(reader: &Reader<'_>) -> bool
    ensures { result ≡ opens_at reader.now.tokens.now reader.now.at }
{
    reader.is_sign(Sign::Open) && !reader.here().begins_line
}

// A call of what stands before its arguments, or that alone.
#[cycle(expression)]
fn called(
    reader: &mut Reader<'_>,
    depth: u32,
    receiver: Receiver,
    alone: ExprForm,
    name: usize,
) -> usize
    ensures spelled { IsNone reader.new.refused → Reads (SpellsCalled reader.new.tokens.now receiver alone name) (table_of reader.new.tree.value) reader.old.at reader.new.at result }
    ensures grows { Grows reader.old reader.new }
{
    if !opens_arguments(reader) {
        return reader.expr(alone, name);
    }
    reader.sign(Sign::Open);
    let first = arguments(reader, depth);
    reader.expr(ExprForm::Call(receiver, first), name)
}

// A name with what belongs to it.
#[cycle(expression)]
fn named(reader: &mut Reader<'_>, depth: u32) -> usize
    ensures spelled { IsNone reader.new.refused → Reads (SpellsNamed reader.new.tokens.now) (table_of reader.new.tree.value) reader.old.at reader.new.at result }
    ensures grows { Grows reader.old reader.new }
{
    let first = reader.take();
    if reader.takes(Sign::Dot) {
        let member = reader.name();
        let receiver = Receiver::Named(first);
        return called(reader, depth, receiver, ExprForm::Member(first), member);
    }
    called(reader, depth, Receiver::Nobody, ExprForm::Name, first)
}

// An expression of one token.
fn take_as(reader: &mut Reader<'_>, form: ExprForm) -> usize
    ensures put { IsNone reader.new.refused → IsPut (taken reader.old) reader.new form reader.old.at result }
    ensures grows { Grows reader.old reader.new }
{
    let place = reader.take();
    reader.expr(form, place)
}

// An operand without a prefix.
#[cycle(expression)]
fn atom(reader: &mut Reader<'_>, depth: u32) -> usize
    ensures spelled { IsNone reader.new.refused → Reads (SpellsAtom reader.new.tokens.now) (table_of reader.new.tree.value) reader.old.at reader.new.at result }
    ensures grows { Grows reader.old reader.new }
{
    match reader.here().kind {
        TokenKind::Number(value) => take_as(reader, ExprForm::Number(value)),
        TokenKind::Text => take_as(reader, ExprForm::Text),
        TokenKind::Key(Word::True) => take_as(reader, ExprForm::Truth(true)),
        TokenKind::Key(Word::False) => take_as(reader, ExprForm::Truth(false)),
        TokenKind::Key(Word::Own) => {
            reader.take();
            reader.sign(Sign::Dot);
            let member = reader.name();
            let alone = ExprForm::OwnMember;
            called(reader, depth, Receiver::Own, alone, member)
        }
        TokenKind::Sign(Sign::Dot) => {
            reader.take();
            let name = reader.name();
            called(reader, depth, Receiver::Nobody, ExprForm::Case, name)
        }
        TokenKind::Sign(Sign::Open) => {
            reader.take();
            let inner = covered(reader, depth);
            reader.sign(Sign::Close);
            inner
        }
        TokenKind::Name => named(reader, depth),
        // They cover all to their right, and stand at the left end.
        TokenKind::Key(Word::Await) => missing(reader, Rule::Await),
        TokenKind::Key(Word::Try) => missing(reader, Rule::Try),
        _ => {
            reader.unexpected();
            0
        }
    }
}

// Takes the label at the front and its colon, if there is one. Its place, or 0.
fn label(reader: &mut Reader<'_>) -> usize
    ensures there { has_label reader.old.tokens.now reader.old.at ≡ true → (result ≡ reader.old.at) × (reader.new ≡ taken (taken reader.old)) }
    ensures none { has_label reader.old.tokens.now reader.old.at ≡ false → (result ≡ 0) × (reader.new ≡ reader.old) }
    ensures grows { Grows reader.old reader.new }
{
    if !has_label(reader) {
        return 0;
    }
    let place = reader.take();
    reader.take();
    place
}

// Whether a name or a keyword stands at the front, and a colon behind it.
fn has_label(reader: &Reader<'_>) -> bool
    ensures { result ≡ has_label reader.now.tokens.now reader.now.at }
{
    match reader.here().kind {
        TokenKind::Name | TokenKind::Key(_) => reader.is_sign_ahead(1, Sign::Colon),
        _ => false,
    }
}

// One argument, which nothing follows yet.
#[cycle(expression)]
fn argument(reader: &mut Reader<'_>, depth: u32) -> Argument
    ensures spelled { IsNone reader.new.refused → ReadsArgument reader.new.tokens.now (table_of reader.new.tree.value) reader.old.at reader.new.at result }
    ensures grows { Grows reader.old reader.new }
{
    let label = label(reader);
    let value = covered(reader, depth);
    Argument {
        label,
        value,
        next: 0,
    }
}

// Arguments up to the parenthesis that closes them, which is taken too. The first one's place, or 0.
#[cycle(expression)]
fn arguments(reader: &mut Reader<'_>, depth: u32) -> usize
    ensures spelled { IsNone reader.new.refused → ReadsArguments reader.new.tokens.now (table_of reader.new.tree.value) reader.old.at reader.new.at result }
    ensures grows { Grows reader.old reader.new }
{
    if reader.takes(Sign::Close) {
        return 0;
    }
    let mut given = Vec::new(reader.alloc);
    for _ in 0..reader.tokens.len() {
        let one = argument(reader, depth);
        keep(reader, &mut given, one);
        if !reader.takes(Sign::Comma) {
            reader.sign(Sign::Close);
            return put_arguments(reader, &given);
        }
    }
    // Each turn takes a comma, so the tokens end before the turns do.
    missing(reader, Rule::TooLarge)
}

/// Keeps an argument behind those that were given.
pub(crate) fn keep(reader: &mut Reader<'_>, given: &mut Vec<Argument>, one: Argument)
    ensures kept { IsNone reader.new.refused → (given.new.items ≡ given.old.items ++ one ∷ []) × (reader.new ≡ reader.old) }
    ensures grows { Grows reader.old reader.new }
{
    let grown = given.push(one).is_ok();
    reader.note(grown);
}

/// Puts these arguments into their table, each with the place of the next one. The first one's place, or 0 where there is none.
pub(crate) fn put_arguments(reader: &mut Reader<'_>, given: &[Argument]) -> usize
    ensures put { IsNone reader.new.refused → AreFrom reader.new.tree.value.arguments.items result given.now }
    ensures at { IsNone reader.new.refused → reader.new.at ≡ reader.old.at }
    ensures grows { Grows reader.old reader.new }
{
    let mut next = 0;
    let mut left = given.len();
    'put: while left > 0 {
        left -= 1;
        next = reader.argument(Argument {
            next,
            ..given[left]
        });
    }
    next
}

// What a `try` at the front says.
fn cover_of_try(reader: &mut Reader<'_>, inner: usize, place: usize, optional: bool) -> usize
    ensures put { IsNone reader.new.refused → IsPut reader.old reader.new (tried_form optional inner) place result }
    ensures grows { Grows reader.old reader.new }
{
    let form = if optional {
        ExprForm::TryOptional(inner)
    } else {
        ExprForm::Try(inner)
    };
    reader.expr(form, place)
}

// Takes the `?` of a `try?`, if it is there.
fn is_optional(reader: &mut Reader<'_>) -> bool
    ensures taken { reader.new ≡ takes_if result reader.old }
    ensures found { IsTrue result → kind_at reader.old.tokens.now reader.old.at ≡ TokenKind.Sign Sign.Question }
{
    if reader.is_sign(Sign::Question) && !reader.here().after_space {
        reader.take();
        return true;
    }
    false
}

// What `await` and `try` stand before.
#[cycle(expression)]
fn covered(reader: &mut Reader<'_>, depth: u32) -> usize
    ensures spelled { IsNone reader.new.refused → Reads (SpellsExpr reader.new.tokens.now) (table_of reader.new.tree.value) reader.old.at reader.new.at result }
    ensures grows { Grows reader.old reader.new }
{
    if depth == 0 {
        return missing(reader, Rule::TooLarge);
    }
    if reader.is_key(Word::Try) {
        let place = reader.take();
        let optional = is_optional(reader);
        let inner = covered(reader, depth - 1);
        return cover_of_try(reader, inner, place, optional);
    }
    if reader.is_key(Word::Await) {
        let place = reader.take();
        let inner = covered(reader, depth - 1);
        return reader.expr(ExprForm::Await(inner), place);
    }
    choice(reader, depth - 1)
}

// Operands, perhaps with a choice.
#[cycle(expression)]
fn choice(reader: &mut Reader<'_>, depth: u32) -> usize
    ensures spelled { IsNone reader.new.refused → Reads (SpellsChoice reader.new.tokens.now) (table_of reader.new.tree.value) reader.old.at reader.new.at result }
    ensures grows { Grows reader.old reader.new }
{
    if depth == 0 {
        return missing(reader, Rule::TooLarge);
    }
    let test = operands(reader, depth, 0);
    if !reader.is_sign(Sign::Question) {
        return test;
    }
    let place = take_choice(reader, Sign::Question);
    let held = choice(reader, depth - 1);
    take_choice(reader, Sign::Colon);
    let failed = choice(reader, depth - 1);
    reader.expr(ExprForm::Choice(test, held, failed), place)
}

// Takes the `?` or `:` of a choice, with white space on both sides. Its place.
fn take_choice(reader: &mut Reader<'_>, sign: Sign) -> usize
    ensures place { result ≡ reader.old.at }
    ensures taken { IsNone reader.new.refused → (kind_at reader.old.tokens.now reader.old.at ≡ TokenKind.Sign sign) × (reader.new ≡ taken reader.old) }
    ensures grows { Grows reader.old reader.new }
{
    let place = reader.at;
    let before = reader.here().after_space;
    reader.sign(sign);
    if !before || !reader.here().after_space {
        reader.refuse(Rule::Spaces, place);
    }
    place
}

/// An expression, perhaps with `await` and `try`. Its place.
pub(crate) fn expression(reader: &mut Reader<'_>) -> usize
    ensures spelled { IsNone reader.new.refused → Reads (SpellsExpr reader.new.tokens.now) (table_of reader.new.tree.value) reader.old.at reader.new.at result }
    ensures grows { Grows reader.old reader.new }
{
    covered(reader, DEPTH)
}

/// What stands between `if`, `guard` or `while` and its block: expressions with commas between them. Its place.
pub(crate) fn test(reader: &mut Reader<'_>) -> usize
    ensures spelled { IsNone reader.new.refused → Adds reader.old reader.new (λ s. IsTest s reader.old.at reader.new.at result) }
    ensures grows { Grows reader.old reader.new }
{
    let mut left = expression(reader);
    for _ in 0..reader.tokens.len() {
        if !reader.is_sign(Sign::Comma) {
            return left;
        }
        let place = reader.take();
        let right = expression(reader);
        left = reader.expr(ExprForm::Both(left, right), place);
    }
    // Each turn takes a comma, so the tokens end before the turns do.
    missing(reader, Rule::TooLarge)
}

/// The arguments behind a parenthesis that is taken. The first one's place, or 0.
pub(crate) fn call_arguments(reader: &mut Reader<'_>) -> usize
    ensures spelled { IsNone reader.new.refused → ReadsArguments reader.new.tokens.now (table_of reader.new.tree.value) reader.old.at reader.new.at result }
    ensures grows { Grows reader.old reader.new }
{
    arguments(reader, DEPTH)
}

/// An operand of `..<` and `...`. Its place.
pub(crate) fn bound(reader: &mut Reader<'_>) -> usize
    ensures spelled { IsNone reader.new.refused → Reads (SpellsOperands reader.new.tokens.now 4) (table_of reader.new.tree.value) reader.old.at reader.new.at result }
    ensures grows { Grows reader.old reader.new }
{
    operands(reader, DEPTH, 4)
}
