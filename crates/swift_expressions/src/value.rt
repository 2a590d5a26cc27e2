//! Expressions.

ghost use Rattle.std.specs.Prelude.{◌≡◌, ℕ, IsNone, length, true, false};
ghost use Rattle.swift_expressions.specs.Instructions.{KeepsRefusal};
ghost use Rattle.swift_expressions.specs.Lowered.{Hands, HandsIf, IsLeaf, Lowers, caught_by, close_shortcut, fallback_by, is_cut_short, kind_by, no_operands, open_choice, open_shortcut, turn_choice, with_open_test};
ghost use Rattle.swift_expressions.specs.States.{Becomes, form_at, next_value, next_variable, state_of};

use crate::call::{call, method_of};
use crate::code::{Instruction, Kind, Value};
use crate::effect::{DEPTH, acts, any_acts, is_acting};
use crate::lowering::{Fallback, Lowering};
use crate::name::{member, name, own_field, priority_named};
use crate::operands::Operands;
use crate::typed::{Typed, keep_if, refused, want, with_kind};
use swift_syntax::{Expr, ExprForm, Receiver, Rule};
use swift_types::Operator;

// The type of what an operator gives, of two operands of a type.
fn result_kind(
    lowering: &mut Lowering<'_>,
    operator: Operator,
    left: Typed,
    right: Typed,
    token: usize,
) -> Kind
    ensures kind { result ≡ kind_by operator left.kind }
    ensures state { Becomes lowering.new (state_of lowering.old) }
    ensures refused { KeepsRefusal lowering.old lowering.new }
{
    want(lowering, right, left.kind, token);
    let fits = match operator {
        Operator::And | Operator::Or => left.kind == Kind::Bool,
        Operator::Equal | Operator::Unequal => left.kind != Kind::Void,
        Operator::Plus | Operator::Minus | Operator::Times => left.kind == Kind::Int,
        _ => left.kind == Kind::Int || left.kind == Kind::Urgency,
    };
    lowering.refuse_where(!fits, Rule::WrongType, token);
    match operator {
        Operator::Plus | Operator::Minus | Operator::Times | Operator::And | Operator::Or => {
            left.kind
        }
        _ => Kind::Bool,
    }
}

// Two operands, of which the left one is kept where the right one may change it.
#[cycle(value)]
fn binary(
    lowering: &mut Lowering<'_>,
    operator: Operator,
    left: usize,
    right: usize,
    token: usize,
    depth: u32,
) -> Typed
    ensures binary { (p : ℕ) → form_at (state_of lowering.old) p ≡ ExprForm.Binary operator left right → is_cut_short (state_of lowering.old) operator right ≡ false → IsNone lowering.new.refused → Lowers (state_of lowering.old) p (state_of lowering.new) result }
    ensures refused { KeepsRefusal lowering.old lowering.new }
{
    let is_changing = acts(lowering, right);
    let first = value(lowering, left, depth);
    let first = keep_if(lowering, first, is_changing);
    let second = value(lowering, right, depth);
    let kind = result_kind(lowering, operator, first, second, token);
    with_kind(
        lowering,
        Value::Binary(operator, first.value, second.value),
        kind,
    )
}

// Refuses `await` and `try` to the right of `&&` and `||`.
fn refuse_await(lowering: &mut Lowering<'_>, right: usize)
    ensures state { Becomes lowering.new (state_of lowering.old) }
    ensures refused { KeepsRefusal lowering.old lowering.new }
{
    let expr = lowering.expr(right);
    match expr.form {
        ExprForm::Await(_) => lowering.refuse(Rule::Await, expr.token),
        ExprForm::Try(_) | ExprForm::TryOptional(_) => lowering.refuse(Rule::Try, expr.token),
        _ => {}
    }
}

// Whether the right operand of an operator is not always computed, and does something.
fn is_cut_short(lowering: &mut Lowering<'_>, operator: Operator, right: usize) -> bool
    ensures found { IsNone lowering.new.refused → result ≡ is_cut_short (state_of lowering.old) operator right }
    ensures state { Becomes lowering.new (state_of lowering.old) }
    ensures refused { KeepsRefusal lowering.old lowering.new }
{
    match operator {
        Operator::And | Operator::Or => {
            refuse_await(lowering, right);
            acts(lowering, right)
        }
        _ => false,
    }
}

// The test of `&&` and `||`, by what is known so far: whether their right operand is still computed.
fn open_test(lowering: &mut Lowering<'_>, operator: Operator, so_far: usize)
    ensures state { Becomes lowering.new (with_open_test operator so_far (state_of lowering.old)) }
    ensures refused { KeepsRefusal lowering.old lowering.new }
{
    match operator {
        Operator::Or => {
            let test = lowering.value(Value::Not(so_far));
            lowering.put(Instruction::If(test));
        }
        _ => lowering.put(Instruction::If(so_far)),
    }
}

// A variable for what is known after the left operand of `&&` or `||`, and the block of the right one. The variable's place, and its value's.
fn open_shortcut(lowering: &mut Lowering<'_>, operator: Operator, first: Typed) -> (usize, usize)
    ensures state { Becomes lowering.new (open_shortcut operator first (state_of lowering.old)) }
    ensures variable { result.0 ≡ next_variable (state_of lowering.old) }
    ensures value { IsNone lowering.new.refused → result.1 ≡ next_value (state_of lowering.old) }
    ensures refused { KeepsRefusal lowering.old lowering.new }
{
    let variable = lowering.temporary();
    lowering.put(Instruction::Let(variable, first.value));
    let so_far = lowering.value(Value::Variable(variable));
    open_test(lowering, operator, so_far);
    (variable, so_far)
}

// The variable gets the value of the block, which ends.
fn close_shortcut(lowering: &mut Lowering<'_>, variable: usize, second: Typed)
    ensures state { Becomes lowering.new (close_shortcut variable second (state_of lowering.old)) }
    ensures refused { KeepsRefusal lowering.old lowering.new }
{
    lowering.put(Instruction::Set(variable, second.value));
    lowering.put(Instruction::End);
}

// `&&`, `||` or a comma, whose right operand is not always computed.
#[cycle(value)]
fn shortcut(
    lowering: &mut Lowering<'_>,
    operator: Operator,
    left: usize,
    right: usize,
    token: usize,
    depth: u32,
) -> Typed
    ensures shortcut { (p : ℕ) → form_at (state_of lowering.old) p ≡ ExprForm.Binary operator left right → is_cut_short (state_of lowering.old) operator right ≡ true → IsNone lowering.new.refused → Lowers (state_of lowering.old) p (state_of lowering.new) result }
    ensures comma { (p : ℕ) → form_at (state_of lowering.old) p ≡ ExprForm.Both left right → operator ≡ Operator.And → IsNone lowering.new.refused → Lowers (state_of lowering.old) p (state_of lowering.new) result }
    ensures refused { KeepsRefusal lowering.old lowering.new }
{
    let first = value(lowering, left, depth);
    want(lowering, first, Kind::Bool, token);
    let (variable, so_far) = open_shortcut(lowering, operator, first);
    // It is an autoclosure, which an `await` on its left does not cover; one of its own stands only behind a comma.
    let before = lowering.setting.is_awaited;
    lowering.setting.is_awaited = false;
    let second = value(lowering, right, depth);
    lowering.setting.is_awaited = before;
    want(lowering, second, Kind::Bool, token);
    close_shortcut(lowering, variable, second);
    Typed {
        value: so_far,
        kind: Kind::Bool,
    }
}

// A variable for what is chosen, and the block of what is where the test holds. The variable's place.
fn open_choice(lowering: &mut Lowering<'_>, test: Typed) -> usize
    ensures state { Becomes lowering.new (open_choice test (state_of lowering.old)) }
    ensures variable { result ≡ next_variable (state_of lowering.old) }
    ensures refused { KeepsRefusal lowering.old lowering.new }
{
    let variable = lowering.temporary();
    let zero = lowering.number(0);
    lowering.put(Instruction::Let(variable, zero));
    lowering.put(Instruction::If(test.value));
    variable
}

// The variable gets the value of that block, and the other one begins.
fn turn_choice(lowering: &mut Lowering<'_>, variable: usize, first: Typed)
    ensures state { Becomes lowering.new (turn_choice variable first (state_of lowering.old)) }
    ensures refused { KeepsRefusal lowering.old lowering.new }
{
    lowering.put(Instruction::Set(variable, first.value));
    lowering.put(Instruction::Else);
}

// `test ? held : failed`
#[cycle(value)]
fn choice(
    lowering: &mut Lowering<'_>,
    test: usize,
    held: usize,
    failed: usize,
    token: usize,
    depth: u32,
) -> Typed
    ensures choice { (p : ℕ) → form_at (state_of lowering.old) p ≡ ExprForm.Choice test held failed → IsNone lowering.new.refused → Lowers (state_of lowering.old) p (state_of lowering.new) result }
    ensures refused { KeepsRefusal lowering.old lowering.new }
{
    let found = value(lowering, test, depth);
    want(lowering, found, Kind::Bool, token);
    let variable = open_choice(lowering, found);
    let first = value(lowering, held, depth);
    turn_choice(lowering, variable, first);
    let second = value(lowering, failed, depth);
    close_shortcut(lowering, variable, second);
    want(lowering, second, first.kind, token);
    with_kind(lowering, Value::Variable(variable), first.kind)
}

// A value that `await` covers.
#[cycle(value)]
fn awaited(lowering: &mut Lowering<'_>, inner: usize, token: usize, depth: u32) -> Typed
    ensures awaited { (p : ℕ) → form_at (state_of lowering.old) p ≡ ExprForm.Await inner → IsNone lowering.new.refused → Lowers (state_of lowering.old) p (state_of lowering.new) result }
    ensures refused { KeepsRefusal lowering.old lowering.new }
{
    lowering.refuse_where(!lowering.setting.is_async, Rule::Await, token);
    let before = lowering.setting.is_awaited;
    lowering.setting.is_awaited = true;
    let found = value(lowering, inner, depth);
    lowering.setting.is_awaited = before;
    found
}

// A value that `try` covers.
#[cycle(value)]
fn tried(lowering: &mut Lowering<'_>, inner: usize, token: usize, depth: u32) -> Typed
    ensures tried { (p : ℕ) → form_at (state_of lowering.old) p ≡ ExprForm.Try inner → IsNone lowering.new.refused → Lowers (state_of lowering.old) p (state_of lowering.new) result }
    ensures refused { KeepsRefusal lowering.old lowering.new }
{
    lowering.refuse_thrown(token);
    // Swift takes a closure with a `try` for one that throws, whatever is tried.
    lowering.setting.has_thrown = true;
    let before = lowering.setting.is_tried;
    lowering.setting.is_tried = true;
    let found = value(lowering, inner, depth);
    lowering.setting.is_tried = before;
    found
}

// `-inner`
#[cycle(value)]
fn negated(lowering: &mut Lowering<'_>, inner: usize, token: usize, depth: u32) -> Typed
    ensures negated { (p : ℕ) → form_at (state_of lowering.old) p ≡ ExprForm.Negate inner → IsNone lowering.new.refused → Lowers (state_of lowering.old) p (state_of lowering.new) result }
    ensures refused { KeepsRefusal lowering.old lowering.new }
{
    let found = value(lowering, inner, depth);
    want(lowering, found, Kind::Int, token);
    with_kind(lowering, Value::Negate(found.value), Kind::Int)
}

// `!inner`
#[cycle(value)]
fn inverted(lowering: &mut Lowering<'_>, inner: usize, token: usize, depth: u32) -> Typed
    ensures inverted { (p : ℕ) → form_at (state_of lowering.old) p ≡ ExprForm.Not inner → IsNone lowering.new.refused → Lowers (state_of lowering.old) p (state_of lowering.new) result }
    ensures refused { KeepsRefusal lowering.old lowering.new }
{
    let found = value(lowering, inner, depth);
    want(lowering, found, Kind::Bool, token);
    with_kind(lowering, Value::Not(found.value), Kind::Bool)
}

// What is awaited in a `try?`.
fn caught(lowering: &Lowering<'_>, place: usize) -> usize
    ensures { result ≡ caught_by place (form_at (state_of lowering.now) place) }
{
    match lowering.expr(place).form {
        ExprForm::TryOptional(inner) => inner,
        _ => place,
    }
}

// What a value stands for behind `??`, by what is left of that.
fn fallback_of(lowering: &Lowering<'_>, left: usize, value: usize) -> Fallback
    ensures { result ≡ fallback_by value (form_at (state_of lowering.now) left) }
{
    match lowering.expr(left).form {
        ExprForm::TryOptional(_) => Fallback::Fault(value),
        _ => Fallback::Nil(value),
    }
}

/// Refuses a wait with a fallback that is no wait, or whose operands wait themselves.
pub fn want_wait(lowering: &mut Lowering<'_>, place: usize)
    ensures state { Becomes lowering.new (state_of lowering.old) }
    ensures refused { KeepsRefusal lowering.old lowering.new }
{
    let expr = lowering.expr(place);
    let inner = match expr.form {
        ExprForm::Await(inner) => inner,
        _ => place,
    };
    let waited = lowering.expr(inner);
    let is_wait = match waited.form {
        ExprForm::Member(_) => true,
        ExprForm::Call(receiver, first) => {
            is_sleep(lowering, receiver, waited.token) || !any_acts(lowering, first)
        }
        _ => false,
    };
    if !is_wait {
        lowering.refuse(Rule::NotYet, expr.token);
    }
}

// Whether what is called is `Task.sleep`. Its argument is not computed, so that may be `.seconds(1)`.
fn is_sleep(lowering: &Lowering<'_>, receiver: Receiver, token: usize) -> bool {
    match receiver {
        Receiver::Named(of) => lowering.spells(of, "Task") && lowering.spells(token, "sleep"),
        Receiver::Nobody | Receiver::Own => false,
    }
}

// `left ?? right`
#[cycle(value)]
fn otherwise(
    lowering: &mut Lowering<'_>,
    left: usize,
    right: usize,
    token: usize,
    depth: u32,
) -> Typed
    ensures otherwise { (p : ℕ) → form_at (state_of lowering.old) p ≡ ExprForm.Otherwise left right → IsNone lowering.new.refused → Lowers (state_of lowering.old) p (state_of lowering.new) result }
    ensures refused { KeepsRefusal lowering.old lowering.new }
{
    let inner = caught(lowering, left);
    want_wait(lowering, inner);
    let is_acting = is_acting(lowering, right);
    lowering.refuse_where(is_acting, Rule::NotYet, token);
    let instead = value(lowering, right, depth);
    lowering.setting.fallback = fallback_of(lowering, left, instead.value);
    let found = value(lowering, inner, depth);
    // It is taken by the wait.
    let is_left = !matches!(lowering.setting.fallback, Fallback::None);
    lowering.refuse_where(is_left, Rule::NotYet, token);
    want(lowering, found, instead.kind, token);
    found
}

// The operands of a call, each kept where a later one may change it.
#[cycle(value)]
fn lower_operands(lowering: &mut Lowering<'_>, first: usize, depth: u32) -> Operands
    ensures hands { IsNone lowering.new.refused → Hands (length lowering.old.tree.now.value.arguments.items) (state_of lowering.old) first no_operands (state_of lowering.new) result }
    ensures refused { KeepsRefusal lowering.old lowering.new }
{
    let mut found = Operands::none();
    let mut place = first;
    for _ in 0..lowering.tree.arguments.len() {
        let Some(argument) = lowering.argument(place) else {
            return found;
        };
        let given = value(lowering, argument.value, depth);
        let kept = keep_if(lowering, given, argument.next != 0);
        found = found.with(lowering, kept);
        place = argument.next;
    }
    found
}

// The operands of what takes values.
#[cycle(value)]
fn given_operands(
    lowering: &mut Lowering<'_>,
    takes_operands: bool,
    first: usize,
    depth: u32,
) -> Operands
    ensures hands { IsNone lowering.new.refused → HandsIf takes_operands (state_of lowering.old) first (state_of lowering.new) result }
    ensures refused { KeepsRefusal lowering.old lowering.new }
{
    if takes_operands {
        lower_operands(lowering, first, depth)
    } else {
        Operands::none()
    }
}

// An expression without parts.
fn leaf(lowering: &mut Lowering<'_>, form: ExprForm, token: usize) -> Typed
    ensures leaf { IsNone lowering.new.refused → IsLeaf (state_of lowering.old) token form (state_of lowering.new) result }
    ensures refused { KeepsRefusal lowering.old lowering.new }
{
    match form {
        ExprForm::Number(number) => with_kind(lowering, Value::Number(number), Kind::Int),
        ExprForm::Truth(truth) => with_kind(lowering, Value::Number(i64::from(truth)), Kind::Bool),
        ExprForm::Text => refused(lowering, Rule::Strings, token),
        ExprForm::Name => name(lowering, token),
        ExprForm::OwnMember => own_field(lowering, token),
        ExprForm::Member(of) => member(lowering, of, token),
        ExprForm::Case => {
            let number = i64::from(priority_named(lowering, token).number());
            with_kind(lowering, Value::Number(number), Kind::Urgency)
        }
        // Without `??` it is a statement.
        ExprForm::TryOptional(_) => refused(lowering, Rule::NotYet, token),
        _ => refused(lowering, Rule::Unexpected, token),
    }
}

/// The value of an expression of a statement; what has to be done for it comes first.
pub fn expression(lowering: &mut Lowering<'_>, place: usize) -> Typed
    ensures lowers { IsNone lowering.new.refused → Lowers (state_of lowering.old) place (state_of lowering.new) result }
    ensures refused { KeepsRefusal lowering.old lowering.new }
{
    value(lowering, place, DEPTH)
}

/// The operands of a call that stands in a statement, each kept where a later one may change it.
pub fn call_operands(lowering: &mut Lowering<'_>, first: usize) -> Operands
    ensures hands { IsNone lowering.new.refused → Hands (length lowering.old.tree.now.value.arguments.items) (state_of lowering.old) first no_operands (state_of lowering.new) result }
    ensures refused { KeepsRefusal lowering.old lowering.new }
{
    lower_operands(lowering, first, DEPTH)
}

// The value of an expression, with what has to be done for it before it.
#[cycle(value)]
fn value(lowering: &mut Lowering<'_>, place: usize, depth: u32) -> Typed
    ensures lowers { IsNone lowering.new.refused → Lowers (state_of lowering.old) place (state_of lowering.new) result }
    ensures refused { KeepsRefusal lowering.old lowering.new }
{
    let Expr { form, token } = lowering.expr(place);
    if depth == 0 {
        return refused(lowering, Rule::TooLarge, token);
    }
    match form {
        ExprForm::Call(receiver, first) => {
            let method = method_of(lowering, receiver, token);
            let given = given_operands(lowering, method.takes_operands, first, depth - 1);
            call(lowering, method, first, given, token)
        }
        ExprForm::Negate(inner) => negated(lowering, inner, token, depth - 1),
        ExprForm::Not(inner) => inverted(lowering, inner, token, depth - 1),
        ExprForm::Binary(operator, left, right) => {
            if is_cut_short(lowering, operator, right) {
                shortcut(lowering, operator, left, right, token, depth - 1)
            } else {
                binary(lowering, operator, left, right, token, depth - 1)
            }
        }
        ExprForm::Both(left, right) => {
            shortcut(lowering, Operator::And, left, right, token, depth - 1)
        }
        ExprForm::Choice(test, held, failed) => {
            choice(lowering, test, held, failed, token, depth - 1)
        }
        ExprForm::Await(inner) => awaited(lowering, inner, token, depth - 1),
        ExprForm::Try(inner) => tried(lowering, inner, token, depth - 1),
        ExprForm::Otherwise(left, right) => otherwise(lowering, left, right, token, depth - 1),
        _ => leaf(lowering, form, token),
    }
}
