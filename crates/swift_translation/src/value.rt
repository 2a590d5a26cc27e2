//! Values as expressions.

ghost use Rattle.std.specs.Prelude.{◌≡◌};
ghost use Rattle.std.specs.Fmt.{signed_decimal};
ghost use Rattle.swift_translation.specs.Starts.{start_number};
ghost use Rattle.swift_translation.specs.ValueTexts.{bare_text, deep_text, field_text, local_text, member_text, more_operands, operands_text, read_text, value_text, var_text};
ghost use Rattle.swift_translation.specs.Words.{operator_text};
ghost use Rattle.swift_translation.specs.WritingInside.{GoesOn};

use crate::naming::{write_field_name, write_instance, write_name, write_variable};
use crate::source::{Context, Source};
use crate::start::start_value;
use crate::writer::Writer;
use swift_expressions::Value;
use swift_syntax::{FieldDecl, Rule};
use swift_types::Operator;

fn spelling(operator: Operator) -> &'static str
    ensures { result.now ≡ operator_text operator }
{
    match operator {
        Operator::Or => " || ",
        Operator::And => " && ",
        Operator::Equal => " == ",
        Operator::Unequal => " != ",
        Operator::Less => " < ",
        Operator::AtMost => " <= ",
        Operator::Greater => " > ",
        Operator::AtLeast => " >= ",
        Operator::Plus => " + ",
        Operator::Minus => " - ",
        Operator::Times => " * ",
    }
}

// The start value of a field, which is a `let`.
fn write_number(out: &mut Writer, source: &Source<'_>, instance: usize, field: FieldDecl)
    ensures { GoesOn out.old out.new (signed_decimal (start_number source.now instance field)) }
{
    let number = start_value(out, source, instance, field);
    out.number(source.alloc, number)
}

// A field of the own actor: a `let` is its number.
#[tactic(auto, unfolding(crate::specs::ValueTexts::field_text))]
fn write_field(out: &mut Writer, source: &Source<'_>, field: usize)
    ensures { GoesOn out.old out.new (field_text source.now field) }
{
    if let Some(declared) = source.tree.fields.get(field).copied() {
        if declared.is_var {
            write_field_name(out, source, declared.name)
        } else {
            write_number(out, source, source.instance, declared)
        }
    }
}

// The name of a field of an instance.
#[tactic(auto, unfolding(crate::specs::ValueTexts::var_text))]
fn write_var(out: &mut Writer, source: &Source<'_>, instance: usize, token: usize)
    ensures { GoesOn out.old out.new (var_text source.now instance token) }
{
    write_instance(out, source, instance);
    out.say(".");
    write_field_name(out, source, token)
}

// A field of an instance at the end of a run: a `let` is its number.
#[tactic(auto, unfolding(crate::specs::ValueTexts::member_text))]
fn write_member(out: &mut Writer, source: &Source<'_>, instance: usize, field: usize)
    ensures { GoesOn out.old out.new (member_text source.now instance field) }
{
    if let Some(declared) = source.tree.fields.get(field).copied() {
        if declared.is_var {
            write_var(out, source, instance, declared.name)
        } else {
            write_number(out, source, instance, declared)
        }
    }
}

/// The name of a task local.
#[tactic(auto, unfolding(crate::specs::ValueTexts::local_text))]
pub(crate) fn write_local(out: &mut Writer, source: &Source<'_>, local: usize)
    ensures { GoesOn out.old out.new (local_text source.now local) }
{
    if let Some(declared) = source.tree.locals.get(local).copied() {
        write_name(out, source, declared.name)
    }
}

// A task local that is read.
#[tactic(auto, unfolding(crate::specs::ValueTexts::read_text))]
fn write_read(out: &mut Writer, source: &Source<'_>, local: usize)
    ensures { GoesOn out.old out.new (read_text source.now local) }
{
    out.say("@");
    write_local(out, source, local)
}

// A value with everything in parentheses that has an operator.
#[tactic(auto, unfolding(crate::specs::ValueTexts::deep_text))]
fn write_at(out: &mut Writer, at: &Context<'_>, place: usize, depth: u32)
    ensures { GoesOn out.old out.new (deep_text at.now depth place) }
{
    if depth == 0 {
        out.refuse(Rule::TooLarge, 0);
        return;
    }
    match at.source.value_at(place) {
        Value::Number(number) => out.number(at.source.alloc, number),
        Value::Variable(variable) => write_variable(out, at, variable),
        Value::Field(field) => write_field(out, &at.source, field),
        Value::Member(instance, field) => write_member(out, &at.source, instance, field),
        Value::Local(local) => write_read(out, &at.source, local),
        Value::Priority => out.say("priority"),
        Value::Cancelled => out.say("cancelled"),
        Value::Negate(inner) => {
            out.say("(-");
            write_at(out, at, inner, depth - 1);
            out.say(")")
        }
        Value::Not(inner) => {
            out.say("(!");
            write_at(out, at, inner, depth - 1);
            out.say(")")
        }
        Value::Binary(operator, left, right) => {
            out.say("(");
            write_at(out, at, left, depth - 1);
            out.say(spelling(operator));
            write_at(out, at, right, depth - 1);
            out.say(")")
        }
    }
}

/// A value.
#[tactic(auto, unfolding(crate::specs::ValueTexts::value_text))]
pub(crate) fn write_value(out: &mut Writer, at: &Context<'_>, place: usize)
    ensures { GoesOn out.old out.new (value_text at.now place) }
{
    write_at(out, at, place, 400)
}

/// A value that stands alone, as somebody would write it: without parentheses around all of it.
pub(crate) fn write_bare(out: &mut Writer, at: &Context<'_>, place: usize)
    ensures { GoesOn out.old out.new (bare_text at.now place) }
{
    match at.source.value_at(place) {
        Value::Binary(operator, left, right) => {
            write_value(out, at, left);
            out.say(spelling(operator));
            write_value(out, at, right)
        }
        _ => write_value(out, at, place),
    }
}

// Values that are handed over behind another one, at most so many.
fn write_more(out: &mut Writer, at: &Context<'_>, place: usize, most: usize)
    ensures { GoesOn out.old out.new (more_operands at.now most place) }
{
    if most == 0 {
        return;
    }
    if let Some(operand) = at.source.operand_at(place) {
        out.say(", ");
        write_value(out, at, operand.value);
        write_more(out, at, operand.next, most - 1)
    }
}

/// Values that are handed over, with commas between them.
#[tactic(auto, unfolding(crate::specs::ValueTexts::operands_text))]
pub(crate) fn write_operands(out: &mut Writer, at: &Context<'_>, first: usize)
    ensures { GoesOn out.old out.new (operands_text at.now first) }
{
    if let Some(operand) = at.source.operand_at(first) {
        write_value(out, at, operand.value);
        write_more(out, at, operand.next, at.source.code.operands.len())
    }
}
