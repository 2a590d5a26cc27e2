//! What stands at the head of a loop.

ghost use Rattle.std.specs.Prelude.{◌≡◌, IsNone};
ghost use Rattle.swift_expressions.specs.Instructions.{KeepsRefusal};
ghost use Rattle.swift_expressions.specs.States.{Becomes, next_variable, put, state_of, value_in};
ghost use Rattle.swift_lowering.specs.Blocks.{Counts, Fixes, NamesCounter, Renames, Tests, are_in_order, close_while, done_where, end_where, open_while, range_test, rest_where, trapped, trapped_unless, with_while};

use swift_expressions::{
    Instruction, Kind, Lowering, Typed, Value, declare, expression, want, with_kind,
};
use swift_types::Operator;

/// A test of a statement.
pub(crate) fn test_of(lowering: &mut Lowering<'_>, test: usize, token: usize) -> usize
    ensures tests { IsNone lowering.new.refused → Tests (state_of lowering.old) test (state_of lowering.new) result }
    ensures refused { KeepsRefusal lowering.old lowering.new }
{
    let found = expression(lowering, test);
    want(lowering, found, Kind::Bool, token);
    found.value
}

// Whether two values are numbers of which the first is not above the second.
fn are_in_order(lowering: &Lowering<'_>, first: usize, last: usize) -> bool
    ensures { result ≡ are_in_order (value_in (state_of lowering.now) first) (value_in (state_of lowering.now) last) }
{
    match (lowering.value_at(first), lowering.value_at(last)) {
        (Value::Number(first), Value::Number(last)) => first <= last,
        _ => false,
    }
}

// Traps where a range ends before it begins, as Swift does.
fn trap_below(lowering: &mut Lowering<'_>, here: usize, to: usize)
    ensures state { Becomes lowering.new (trapped here to (state_of lowering.old)) }
    ensures refused { KeepsRefusal lowering.old lowering.new }
{
    let test = lowering.value(Value::Binary(Operator::Greater, here, to));
    lowering.put(Instruction::If(test));
    let most = lowering.number(i64::MAX);
    let one = lowering.number(1);
    let over = lowering.value(Value::Binary(Operator::Plus, most, one));
    let variable = lowering.temporary();
    lowering.put(Instruction::Let(variable, over));
    lowering.put(Instruction::End);
}

// The same, unless it is known that it does not.
fn trap_unless(lowering: &mut Lowering<'_>, are_in_order: bool, here: usize, to: usize)
    ensures state { Becomes lowering.new (trapped_unless are_in_order here to (state_of lowering.old)) }
    ensures refused { KeepsRefusal lowering.old lowering.new }
{
    if !are_in_order {
        trap_below(lowering, here, to);
    }
}

// A value that is computed here, once: the body of a loop may assign the variable that it is.
fn fixed(lowering: &mut Lowering<'_>, found: Typed) -> Typed
    ensures fixes { IsNone lowering.new.refused → Fixes (state_of lowering.old) found (state_of lowering.new) result }
    ensures refused { KeepsRefusal lowering.old lowering.new }
{
    if let Value::Number(_) = lowering.value_at(found.value) {
        return found;
    }
    let variable = lowering.temporary();
    lowering.put(Instruction::Let(variable, found.value));
    with_kind(lowering, Value::Variable(variable), found.kind)
}

// The operator that tests a range.
fn range_test(is_closed: bool) -> Operator
    ensures { result ≡ range_test is_closed }
{
    if is_closed {
        Operator::AtMost
    } else {
        Operator::Less
    }
}

// A loop begins, while a value that is computed here holds.
fn put_while(lowering: &mut Lowering<'_>, test: Value)
    ensures state { Becomes lowering.new (with_while test (state_of lowering.old)) }
    ensures refused { KeepsRefusal lowering.old lowering.new }
{
    let test = lowering.value(test);
    lowering.put(Instruction::While(test));
}

/// The counter of a loop, and the end that is computed once. The place of the counter.
pub(crate) fn begin_count(
    lowering: &mut Lowering<'_>,
    from: usize,
    to: usize,
    is_closed: bool,
    token: usize,
) -> usize
    ensures counts { IsNone lowering.new.refused → Counts (state_of lowering.old) from to is_closed result (state_of lowering.new) }
    ensures refused { KeepsRefusal lowering.old lowering.new }
{
    let first = expression(lowering, from);
    want(lowering, first, Kind::Int, token);
    let counter = lowering.temporary();
    lowering.put(Instruction::Let(counter, first.value));
    let last = expression(lowering, to);
    want(lowering, last, Kind::Int, token);
    let end = fixed(lowering, last);
    let here = with_kind(lowering, Value::Variable(counter), Kind::Int);
    let is_known = are_in_order(lowering, first.value, end.value);
    trap_unless(lowering, is_known, here.value, end.value);
    let operator = range_test(is_closed);
    put_while(lowering, Value::Binary(operator, here.value, end.value));
    counter
}

/// A `while`, by a value that was computed before it and will be again: it goes to a variable. The place of that.
pub(crate) fn open_while(lowering: &mut Lowering<'_>, test: usize) -> usize
    ensures state { Becomes lowering.new (open_while test (state_of lowering.old)) }
    ensures variable { result ≡ next_variable (state_of lowering.old) }
    ensures refused { KeepsRefusal lowering.old lowering.new }
{
    let variable = lowering.temporary();
    lowering.put(Instruction::Let(variable, test));
    put_while(lowering, Value::Variable(variable));
    variable
}

/// What follows is done unless the unit has returned, where it may have.
pub(crate) fn rest_where(lowering: &mut Lowering<'_>, may_return: bool)
    ensures state { Becomes lowering.new (rest_where may_return (state_of lowering.old)) }
    ensures refused { KeepsRefusal lowering.old lowering.new }
{
    if may_return {
        lowering.put(Instruction::Rest);
    }
}

/// The end of that.
pub(crate) fn end_where(lowering: &mut Lowering<'_>, may_return: bool)
    ensures state { Becomes lowering.new (end_where may_return (state_of lowering.old)) }
    ensures refused { KeepsRefusal lowering.old lowering.new }
{
    if may_return {
        lowering.put(Instruction::End);
    }
}

/// The test of a `while` was computed again, at the end of its body.
pub(crate) fn close_while(
    lowering: &mut Lowering<'_>,
    variable: usize,
    again: usize,
    may_return: bool,
)
    ensures state { Becomes lowering.new (close_while variable again may_return (state_of lowering.old)) }
    ensures refused { KeepsRefusal lowering.old lowering.new }
{
    lowering.put(Instruction::Set(variable, again));
    end_where(lowering, may_return);
    lowering.put(Instruction::End);
}

/// Something of the unit follows a `return`, where that is so.
pub(crate) fn done_where(lowering: &mut Lowering<'_>, may_return: bool)
    ensures state { Becomes lowering.new (done_where may_return (state_of lowering.old)) }
    ensures refused { KeepsRefusal lowering.old lowering.new }
{
    if may_return {
        lowering.need_done();
    }
}

// A variable gets the name of a token, unless it has one.
fn rename(lowering: &mut Lowering<'_>, variable: usize, name: usize)
    ensures renames { IsNone lowering.new.refused → Renames (state_of lowering.old) variable name (state_of lowering.new) }
    ensures refused { KeepsRefusal lowering.old lowering.new }
{
    lowering.name_variable(variable, name);
}

/// The counter of a loop has the name of a token in its body, unless that is `_`.
pub(crate) fn name_counter(lowering: &mut Lowering<'_>, counter: usize, name: usize)
    ensures names { IsNone lowering.new.refused → NamesCounter (state_of lowering.old) name counter (state_of lowering.new) }
    ensures refused { KeepsRefusal lowering.old lowering.new }
{
    if lowering.spells(name, "_") {
        return;
    }
    rename(lowering, counter, name);
    declare(lowering, name, counter, Kind::Int, false);
}
