//! What `print`, `precondition` and `assert` say.

ghost use Rattle.std.specs.Prelude.{◌≡◌, IsNone};
ghost use Rattle.swift_expressions.specs.Instructions.{KeepsRefusal};
ghost use Rattle.swift_expressions.specs.Lowered.{Grows};
ghost use Rattle.swift_expressions.specs.States.{Becomes, state_of};
ghost use Rattle.swift_lowering.specs.Statements.{Requires};

use swift_expressions::{Instruction, Kind, Lowering, NONE, UnitKind, expression, keep, want};
use swift_syntax::{Argument, ExprForm, Rule};

/// The values that `main` prints by the `print` at a token become fields, when all of them are computed; elsewhere they are only computed.
pub(crate) fn print(lowering: &mut Lowering<'_>, first: usize, token: usize)
    ensures grows { IsNone lowering.new.refused → Grows (state_of lowering.old) (state_of lowering.new) }
    ensures refused { KeepsRefusal lowering.old lowering.new }
{
    let values = compute(lowering, first);
    if is_main(lowering) {
        print_values(lowering, values, token);
    }
}

// Computes the values of arguments, as operands. The place of the first one, or `NONE`.
fn compute(lowering: &mut Lowering<'_>, first: usize) -> usize
    ensures grows { IsNone lowering.new.refused → Grows (state_of lowering.old) (state_of lowering.new) }
    ensures refused { KeepsRefusal lowering.old lowering.new }
{
    let mut place = first;
    let mut values = NONE;
    let mut last = NONE;
    for _ in 0..lowering.tree.arguments.len() {
        let Some(argument) = lowering.argument(place) else {
            return values;
        };
        place = argument.next;
        last = compute_one(lowering, argument, last);
        if values == NONE {
            values = last;
        }
    }
    values
}

// The same of one argument, behind the operand at a place; a string is no value. The place of the last operand.
fn compute_one(lowering: &mut Lowering<'_>, argument: Argument, last: usize) -> usize
    ensures grows { IsNone lowering.new.refused → Grows (state_of lowering.old) (state_of lowering.new) }
    ensures refused { KeepsRefusal lowering.old lowering.new }
{
    let is_text = matches!(lowering.expr(argument.value).form, ExprForm::Text);
    want_label(lowering, argument.label, is_text);
    if is_text {
        last
    } else {
        printed(lowering, argument.value, last)
    }
}

// Refuses a label that `print` does not have, or without a string.
fn want_label(lowering: &mut Lowering<'_>, label: usize, is_text: bool)
    ensures state { Becomes lowering.new (state_of lowering.old) }
    ensures refused { KeepsRefusal lowering.old lowering.new }
{
    let is_known = lowering.spells(label, "separator") || lowering.spells(label, "terminator");
    if label != 0 && !(is_known && is_text) {
        lowering.refuse(Rule::Arguments, label);
    }
}

fn is_main(lowering: &Lowering<'_>) -> bool {
    match lowering.code.units.get(lowering.setting.unit) {
        Some(unit) => matches!(unit.kind, UnitKind::Main),
        None => false,
    }
}

// A value that is printed, as an operand after others. Its place.
fn printed(lowering: &mut Lowering<'_>, place: usize, last: usize) -> usize
    ensures grows { IsNone lowering.new.refused → Grows (state_of lowering.old) (state_of lowering.new) }
    ensures refused { KeepsRefusal lowering.old lowering.new }
{
    let token = lowering.tree.expr(place).token;
    let found = expression(lowering, place);
    let is_value = found.kind != Kind::Void && found.kind != Kind::Urgency;
    lowering.refuse_where(!is_value, Rule::WrongType, token);
    let kept = keep(lowering, found);
    lowering.operand(kept, last)
}

// Prints the values of operands, by the `print` at a token.
fn print_values(lowering: &mut Lowering<'_>, first: usize, token: usize)
    ensures grows { IsNone lowering.new.refused → Grows (state_of lowering.old) (state_of lowering.new) }
    ensures refused { KeepsRefusal lowering.old lowering.new }
{
    let mut place = first;
    for _ in 0..lowering.code.operands.len() {
        let Some(operand) = lowering.operand_at(place) else {
            return;
        };
        let number = lowering.print_at(token);
        lowering.put(Instruction::Print(number, operand.value));
        place = operand.next;
    }
}

// Refuses labels, and what stands behind the value that has to hold, but for one string.
fn want_message(lowering: &mut Lowering<'_>, value: Argument, token: usize)
    ensures state { Becomes lowering.new (state_of lowering.old) }
    ensures refused { KeepsRefusal lowering.old lowering.new }
{
    let is_message = match lowering.tree.argument(value.next) {
        Some(message) => {
            message.label == 0
                && message.next == 0
                && matches!(lowering.tree.expr(message.value).form, ExprForm::Text)
        }
        None => true,
    };
    if value.label != 0 || !is_message {
        lowering.refuse(Rule::Arguments, token);
    }
}

/// `precondition` and `assert`.
pub(crate) fn require(lowering: &mut Lowering<'_>, first: usize, token: usize)
    ensures required { IsNone lowering.new.refused → Requires (state_of lowering.old) first (state_of lowering.new) }
    ensures refused { KeepsRefusal lowering.old lowering.new }
{
    let Some(argument) = lowering.argument(first) else {
        lowering.refuse(Rule::Arguments, token);
        return;
    };
    want_message(lowering, argument, token);
    // It is an autoclosure, which can neither wait nor throw.
    let outer = lowering.setting;
    lowering.setting.is_async = false;
    lowering.setting.is_throwing = false;
    lowering.setting.catching = NONE;
    lowering.setting.is_awaited = false;
    lowering.setting.is_tried = false;
    let found = expression(lowering, argument.value);
    lowering.setting = outer;
    want(lowering, found, Kind::Bool, token);
    let line = lowering.lines.line(token);
    lowering.put(Instruction::Require(found.value, line));
}
