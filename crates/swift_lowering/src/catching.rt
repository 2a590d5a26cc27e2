//! What a `do` catches.
//!
//! A value that nothing else gives tells of a fault: 2 of a Bool or of nothing. An Int comes from a method of its own, which adds one unless
//! it is below 0, so that 0 is free to tell.

ghost use Rattle.std.specs.Prelude.{◌≡◌, ◌-◌, ℕ, IfNone, IfSome, IsNone, Some, length, slice_get, true, false};
ghost use Rattle.swift_expressions.specs.Instructions.{KeepsRefusal};
ghost use Rattle.swift_expressions.specs.States.{Becomes, form_at, next_value, next_variable, put, state_of, stmt_at, value_in, with_value};
ghost use Rattle.swift_lowering.specs.Catching.{Catches, HandsOn, Rewires, Tells, Tries, Wraps, begin_at_zero, begin_or, came_to, caught_wait, fault_sign, given_as_it_was, is_int, is_lone_wait, open_caught, open_rest, open_where, tried_in, variable_for, with_flag, with_variable_for, zero_freed};

use crate::unit::{begin_unit, end_unit, exchange};
use swift_expressions::{
    Fallback, Instruction, Kind, Lowering, NONE, Target, Typed, Value, Wait, count_down, count_up,
    expression, want_wait, with_kind,
};
use swift_syntax::{Assigning, ExprForm, Rule, Stmt, StmtForm};
use swift_types::Operator;

// What the `try` of a value covers, if it has one.
fn tried_in(lowering: &Lowering<'_>, place: usize) -> Option<usize>
    ensures { result ≡ tried_in (form_at (state_of lowering.now) place) }
{
    match lowering.expr(place).form {
        ExprForm::Try(inner) => Some(inner),
        _ => None,
    }
}

/// What a statement of a `do` waits for, if a fault of that is caught.
pub(crate) fn caught_wait(lowering: &Lowering<'_>, stmt: Stmt) -> Option<usize>
    ensures { result ≡ caught_wait (state_of lowering.now) stmt.form }
{
    match stmt.form {
        StmtForm::Value(_, place) => tried_in(lowering, place),
        StmtForm::Assign(Assigning::Set, _, place) => tried_in(lowering, place),
        _ => None,
    }
}

/// The one statement of a block, if it waits for what may be caught; and for what.
pub(crate) fn lone_wait(lowering: &Lowering<'_>, first: usize) -> Option<(Stmt, usize)>
    ensures lone { IfSome result (λ r. (r.0.next ≡ 0) × ((stmt_at (state_of lowering.now) first ≡ Some r.0) × (caught_wait (state_of lowering.now) r.0.form ≡ Some r.1))) }
    ensures more { IfNone result (is_lone_wait (state_of lowering.now) (stmt_at (state_of lowering.now) first) ≡ false) }
{
    let Some(stmt) = lowering.stmt(first) else {
        return None;
    };
    if stmt.next != 0 {
        return None;
    }
    match caught_wait(lowering, stmt) {
        Some(place) => Some((stmt, place)),
        None => None,
    }
}

// The wait that was lowered last.
fn last_wait(lowering: &Lowering<'_>) -> Option<(Target, Wait)>
    ensures { IfSome result (λ r. (otherwise : ℕ) × (slice_get lowering.now.code.instructions.items (length lowering.now.code.instructions.items - 1) ≡ Some (Instruction.Wait r.0 r.1 otherwise))) }
{
    let last = lowering.here().saturating_sub(1);
    match lowering.code.instructions.get(last) {
        Some(Instruction::Wait(target, what, _)) => Some((*target, *what)),
        _ => None,
    }
}

/// The first place, where one more comes.
pub(crate) fn begin_or(begin: usize, place: usize) -> usize
    ensures { result ≡ begin_or begin place }
{
    if begin == NONE { place } else { begin }
}

// Parameters of a unit, one for each operand. The operands that they are.
fn hand_over(lowering: &mut Lowering<'_>, first: usize) -> usize
    ensures hands { IsNone lowering.new.refused → HandsOn (length lowering.old.code.operands.items) (state_of lowering.old) first NONE NONE (state_of lowering.new) result }
    ensures refused { KeepsRefusal lowering.old lowering.new }
{
    let mut place = first;
    let mut begin = NONE;
    let mut last = NONE;
    for _ in 0..lowering.code.operands.len() {
        let Some(operand) = lowering.operand_at(place) else {
            return begin;
        };
        let variable = lowering.variable(0, true);
        let given = with_kind(lowering, Value::Variable(variable), operand.kind);
        last = lowering.operand(given, last);
        begin = begin_or(begin, last);
        place = operand.next;
    }
    begin
}

// What is waited for, with other operands; and the operands that it had.
fn rewired(lowering: &mut Lowering<'_>, what: Wait, token: usize) -> (Wait, usize)
    ensures rewires { IsNone lowering.new.refused → Rewires (state_of lowering.old) what (state_of lowering.new) result.0 result.1 }
    ensures refused { KeepsRefusal lowering.old lowering.new }
{
    match what {
        Wait::Method(instance, method, first) => {
            let handed = hand_over(lowering, first);
            (Wait::Method(instance, method, handed), first)
        }
        Wait::Own(method, first) => {
            let handed = hand_over(lowering, first);
            (Wait::Own(method, handed), first)
        }
        _ => {
            lowering.refuse(Rule::NotYet, token);
            (what, NONE)
        }
    }
}

// The statements that leave 0 free, of what is called at a token: one is added to a value that is not below 0. That this is possible has to
// hold.
fn free_zero(lowering: &mut Lowering<'_>, variable: usize, line: usize)
    ensures state { Becomes lowering.new (zero_freed variable line (state_of lowering.old)) }
    ensures refused { KeepsRefusal lowering.old lowering.new }
{
    let value = lowering.value(Value::Variable(variable));
    let most = lowering.number(i64::MAX);
    let is_less = lowering.value(Value::Binary(Operator::Less, value, most));
    lowering.put(Instruction::Require(is_less, line));
    let zero = lowering.number(0);
    let test = lowering.value(Value::Binary(Operator::AtLeast, value, zero));
    lowering.put(Instruction::If(test));
    count_up(lowering, variable);
    lowering.put(Instruction::End);
    lowering.put(Instruction::Return(value));
}

// A method that waits and leaves 0 free, in the place of a wait.
fn wrap(lowering: &mut Lowering<'_>, place: usize, target: Target, what: Wait, token: usize)
    ensures wraps { IsNone lowering.new.refused → Wraps (state_of lowering.old) place target what token (state_of lowering.new) }
    ensures refused { KeepsRefusal lowering.old lowering.new }
{
    let outer = lowering.setting.unit;
    let begun = begin_unit(lowering, token);
    let unit = begun.unit;
    lowering.setting.unit = unit;
    let (inner, first) = rewired(lowering, what, token);
    let variable = lowering.temporary();
    lowering.put(Instruction::Wait(Target::Declare(variable), inner, NONE));
    let line = lowering.lines.line(token);
    free_zero(lowering, variable, line);
    lowering.setting.unit = outer;
    end_unit(lowering, begun, token);
    let zero = lowering.number(0);
    exchange(
        lowering,
        place,
        Instruction::Wait(target, Wait::Unit(unit, first), zero),
    );
}

// The variable that a wait gives its result to: a new one, where it gives none.
fn variable_for(lowering: &mut Lowering<'_>, target: Target) -> usize
    ensures state { Becomes lowering.new (with_variable_for target (state_of lowering.old)) }
    ensures place { result ≡ variable_for target (state_of lowering.old) }
    ensures refused { KeepsRefusal lowering.old lowering.new }
{
    match target {
        Target::Declare(variable) => variable,
        Target::Nothing => lowering.temporary(),
    }
}

// Whether it is a number that comes.
fn is_int(kind: Kind) -> bool
    ensures { result ≡ is_int kind }
{
    match kind {
        Kind::Int => true,
        Kind::Bool | Kind::Void | Kind::Urgency => false,
    }
}

// A wait of a kind, the last instruction, tells that it has ended with a fault.
fn tell(lowering: &mut Lowering<'_>, target: Target, what: Wait, kind: Kind, token: usize)
    ensures tells { IsNone lowering.new.refused → Tells (state_of lowering.old) target what token kind (state_of lowering.new) }
    ensures refused { KeepsRefusal lowering.old lowering.new }
{
    let place = lowering.here().saturating_sub(1);
    if is_int(kind) {
        wrap(lowering, place, target, what, token);
        return;
    }
    let two = lowering.number(2);
    exchange(lowering, place, Instruction::Wait(target, what, two));
}

// Lowers a wait whose fault is caught.
fn lower_wait(lowering: &mut Lowering<'_>, place: usize) -> Typed
    ensures tries { IsNone lowering.new.refused → Tries (state_of lowering.old) place (state_of lowering.new) result }
    ensures refused { KeepsRefusal lowering.old lowering.new }
{
    let before = lowering.setting.is_tried;
    want_wait(lowering, place);
    let zero = lowering.number(0);
    lowering.setting.fallback = Fallback::Fault(zero);
    lowering.setting.is_tried = true;
    let found = expression(lowering, place);
    lowering.setting.fallback = Fallback::None;
    lowering.setting.is_tried = before;
    found
}

// The number that tells of a fault. Its place.
fn fault_sign(lowering: &mut Lowering<'_>, kind: Kind) -> usize
    ensures state { Becomes lowering.new (with_value (Value.Number (fault_sign kind)) (state_of lowering.old)) }
    ensures place { result ≡ next_value (state_of lowering.old) }
    ensures refused { KeepsRefusal lowering.old lowering.new }
{
    match kind {
        Kind::Int => lowering.number(0),
        Kind::Bool | Kind::Void | Kind::Urgency => lowering.number(2),
    }
}

// What is done where a value of a kind tells of a fault begins.
fn open_where(lowering: &mut Lowering<'_>, place: usize, kind: Kind)
    ensures state { Becomes lowering.new (open_where place (fault_sign kind) (state_of lowering.old)) }
    ensures refused { KeepsRefusal lowering.old lowering.new }
{
    let sign = fault_sign(lowering, kind);
    let test = lowering.value(Value::Binary(Operator::Equal, place, sign));
    lowering.put(Instruction::If(test));
}

/// Waits as a statement of the `do` at a token does, and begins what is done where a fault is caught. What came.
pub(crate) fn begin_caught(lowering: &mut Lowering<'_>, place: usize, token: usize) -> Typed
    ensures catches { IsNone lowering.new.refused → Catches (state_of lowering.old) place token (state_of lowering.new) result }
    ensures refused { KeepsRefusal lowering.old lowering.new }
{
    let before = lowering.here();
    let came = lower_wait(lowering, place);
    // A wait of the statement itself, and not of one before it.
    if lowering.here() <= before {
        lowering.refuse(Rule::NotYet, token);
        return came;
    }
    let Some((target, what)) = last_wait(lowering) else {
        lowering.refuse(Rule::NotYet, token);
        return came;
    };
    let variable = variable_for(lowering, target);
    let target = Target::Declare(variable);
    tell(lowering, target, what, came.kind, token);
    let found = with_kind(lowering, Value::Variable(variable), came.kind);
    open_where(lowering, found.value, came.kind);
    found
}

// A number that came is as it was given: one less, where it is above 0.
fn give_as_it_was(lowering: &mut Lowering<'_>, found: Typed)
    ensures state { Becomes lowering.new (given_as_it_was found.kind (value_in (state_of lowering.old) found.value) found.value (state_of lowering.old)) }
    ensures refused { KeepsRefusal lowering.old lowering.new }
{
    let Kind::Int = found.kind else {
        return;
    };
    if let Value::Variable(variable) = lowering.value_at(found.value) {
        let zero = lowering.number(0);
        let test = lowering.value(Value::Binary(Operator::Greater, found.value, zero));
        lowering.put(Instruction::If(test));
        count_down(lowering, variable);
        lowering.put(Instruction::End);
    }
}

/// The beginning of what is done where no fault is caught: what came is as it was given.
pub(crate) fn begin_came(lowering: &mut Lowering<'_>, found: Typed)
    ensures state { Becomes lowering.new (came_to found (state_of lowering.old)) }
    ensures refused { KeepsRefusal lowering.old lowering.new }
{
    lowering.put(Instruction::Else);
    give_as_it_was(lowering, found);
}

/// A variable begins with 0. Its place.
pub(crate) fn begin_at_zero(lowering: &mut Lowering<'_>) -> usize
    ensures state { Becomes lowering.new (begin_at_zero (state_of lowering.old)) }
    ensures place { result ≡ next_variable (state_of lowering.old) }
    ensures refused { KeepsRefusal lowering.old lowering.new }
{
    let variable = lowering.temporary();
    let zero = lowering.number(0);
    lowering.put(Instruction::Let(variable, zero));
    variable
}

/// A variable says that a fault was caught.
pub(crate) fn set_flag(lowering: &mut Lowering<'_>, flag: usize)
    ensures state { Becomes lowering.new (with_flag flag (state_of lowering.old)) }
    ensures refused { KeepsRefusal lowering.old lowering.new }
{
    let one = lowering.number(1);
    lowering.put(Instruction::Set(flag, one));
}

/// What is done where it says so begins.
pub(crate) fn open_caught(lowering: &mut Lowering<'_>, flag: usize)
    ensures state { Becomes lowering.new (open_caught flag (state_of lowering.old)) }
    ensures refused { KeepsRefusal lowering.old lowering.new }
{
    let is_caught = lowering.value(Value::Variable(flag));
    lowering.put(Instruction::If(is_caught));
}

/// What follows is done unless the unit has returned, where it may have.
pub(crate) fn open_rest(lowering: &mut Lowering<'_>, is_early: bool)
    ensures state { Becomes lowering.new (open_rest is_early (state_of lowering.old)) }
    ensures refused { KeepsRefusal lowering.old lowering.new }
{
    if is_early {
        lowering.need_done();
        lowering.put(Instruction::Rest);
    }
}
