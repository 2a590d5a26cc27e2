//! Methods that are put in where they are called.

ghost use Rattle.std.specs.Prelude.{◌≡◌};
ghost use Rattle.swift_translation.specs.MethodTexts.{begin_done, begin_result, begin_text, callee_frame, end_text, first_frame, handed, handed_next, handed_text, moved, param_text, params_text, zero_text};
ghost use Rattle.swift_translation.specs.WritingInside.{GoesOn};

use crate::naming::write_made_between;
use crate::source::{Context, Source};
use crate::statement::write_result;
use crate::value::write_value;
use crate::wait::{begin_line, begin_set};
use crate::writer::Writer;
use swift_expressions::{Operand, Target, Unit};

/// Where the value of a method goes that is written.
#[derive(Clone, Copy)]
pub(crate) enum ResultPlace {
    /// It is returned.
    Returned,
    /// To a variable of its own.
    Own,
    /// To a variable of the method that it is put in, with that one's number.
    Variable(usize, usize),
}

/// A method that is written.
#[derive(Clone, Copy)]
pub(crate) struct Frame {
    /// The place of its unit.
    pub unit: usize,
    /// The place of its next instruction.
    pub at: usize,
    /// The place behind its last one.
    pub to: usize,
    /// Its number among those that were put in; 0 for the first one.
    pub serial: usize,
    /// Where its value goes.
    pub result: ResultPlace,
    /// Whether something of it may follow a `return`.
    pub needs_done: bool,
}

/// The same method at another of its instructions.
pub(crate) fn moved(frame: Frame, at: usize) -> Frame
    ensures { result ≡ moved frame at }
{
    Frame {
        unit: frame.unit,
        at,
        to: frame.to,
        serial: frame.serial,
        result: frame.result,
        needs_done: frame.needs_done,
    }
}

/// A method that is not put in, from its beginning on.
pub(crate) fn first_frame(unit: usize, found: Unit) -> Frame
    ensures { result ≡ first_frame unit found }
{
    Frame {
        unit,
        at: found.from,
        to: found.to,
        serial: 0,
        result: if found.returns_inside {
            ResultPlace::Own
        } else {
            ResultPlace::Returned
        },
        needs_done: found.returns_inside && found.needs_done,
    }
}

/// A method that is put in as the one of a number, into that of another number, from its beginning on.
pub(crate) fn callee_frame(
    unit: usize,
    found: Unit,
    serial: usize,
    target: Target,
    caller: usize,
) -> Frame
    ensures { result ≡ callee_frame unit found serial target caller }
{
    Frame {
        unit,
        at: found.from,
        to: found.to,
        serial,
        result: match target {
            Target::Nothing => ResultPlace::Own,
            Target::Declare(variable) => ResultPlace::Variable(variable, caller),
        },
        needs_done: found.needs_done,
    }
}

// The variable to which the value of a method goes begins at 0.
#[tactic(auto, unfolding(crate::specs::MethodTexts::zero_text))]
fn begin_variable(out: &mut Writer, at: &Context<'_>, to: ResultPlace)
    ensures { GoesOn out.old out.new (zero_text at.now to) }
{
    begin_line(out, at, "let ");
    write_result(out, at, to);
    out.say(" = 0;")
}

// The variable for the value of a method, unless that is returned.
fn begin_result(out: &mut Writer, at: &Context<'_>, to: ResultPlace)
    ensures { GoesOn out.old out.new (begin_result at.now to) }
{
    match to {
        ResultPlace::Returned => {}
        ResultPlace::Own | ResultPlace::Variable(..) => begin_variable(out, at, to),
    }
}

// The variable for whether a method has returned, where something asks for that.
fn begin_done(out: &mut Writer, at: &Context<'_>, needs_done: bool)
    ensures { GoesOn out.old out.new (begin_done at.now needs_done) }
{
    if needs_done {
        out.line(at.open_blocks);
        write_made_between(out, at, "let ", "done", " = 0;")
    }
}

/// The variables that a method begins with: its value, and whether it has returned.
#[tactic(auto, unfolding(crate::specs::MethodTexts::begin_text))]
pub(crate) fn begin(out: &mut Writer, at: &Context<'_>, to: ResultPlace, needs_done: bool)
    ensures { GoesOn out.old out.new (begin_text at.now to needs_done) }
{
    begin_result(out, at, to);
    begin_done(out, at, needs_done)
}

/// A method that returns out of a group's block gives its value at its end.
pub(crate) fn write_end(out: &mut Writer, at: &Context<'_>, frame: Frame)
    ensures { GoesOn out.old out.new (end_text at.now frame) }
{
    if let ResultPlace::Own = frame.result {
        if frame.serial == 0 {
            out.line(at.open_blocks);
            write_made_between(out, at, "return ", "result", ";")
        }
    }
}

// A parameter of a method that is put in, with its value, which the caller has.
#[tactic(auto, unfolding(crate::specs::MethodTexts::param_text))]
fn write_param(out: &mut Writer, at: &Context<'_>, variable: usize, value: usize, caller: usize)
    ensures { GoesOn out.old out.new (param_text at.now variable value caller) }
{
    begin_set(out, at, "let ", variable);
    write_value(out, &at.of_serial(caller), value);
    out.say(";")
}

// The operand for the variable at a place, if it is a parameter of a unit.
fn handed(source: &Source<'_>, unit: usize, place: usize, operand: usize) -> Option<Operand>
    ensures { result ≡ handed source.now unit place operand }
{
    match source.variable_at(place) {
        Some(variable) => {
            if variable.unit == unit && variable.is_param {
                source.operand_at(operand)
            } else {
                None
            }
        }
        None => None,
    }
}

// The variable at a place with its value, if it is a parameter of a unit. The place of the operand for the next one.
fn hand_over(
    out: &mut Writer,
    at: &Context<'_>,
    unit: usize,
    place: usize,
    operand: usize,
    caller: usize,
) -> usize
    ensures text { GoesOn out.old out.new (handed_text at.now place caller (handed at.now.source unit place operand)) }
    ensures next { result ≡ handed_next operand (handed at.now.source unit place operand) }
{
    match handed(&at.source, unit, place, operand) {
        Some(given) => {
            write_param(out, at, place, given.value, caller);
            given.next
        }
        None => operand,
    }
}

/// The parameters of a method that is put in, with their values.
#[tactic(auto, unfolding(crate::specs::MethodTexts::params_text))]
pub(crate) fn write_params(
    out: &mut Writer,
    at: &Context<'_>,
    unit: usize,
    first: usize,
    caller: usize,
)
    ensures { GoesOn out.old out.new (params_text at.now unit first caller) }
{
    let mut operand = first;
    for place in 0..at.source.code.variables.len() {
        operand = hand_over(out, at, unit, place, operand, caller);
    }
}
