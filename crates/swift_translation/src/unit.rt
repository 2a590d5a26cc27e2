//! Units as methods.

ghost use Rattle.std.specs.Prelude.{◌≡◌, ◌&&◌, not};
ghost use Rattle.swift_translation.specs.ActorTexts.{between, closure_method, is_param, line_of_token, lines_at, method_text, param_listed, params_listed, rest_text, unit_lines};
ghost use Rattle.swift_translation.specs.WritingInside.{GoesOn};

use crate::line::{later, line_number};
use crate::naming::{write_name, write_unit, write_variable};
use crate::place_text::say_lines;
use crate::places::place_of_token;
use crate::source::Source;
use crate::walk::write_body;
use crate::writer::Writer;
use swift_expressions::Unit;
use swift_syntax::MethodDecl;

// The number of the line on which a token begins.
#[tactic(auto, unfolding(crate::specs::ActorTexts::line_of_token))]
fn line_of_token(source: &Source<'_>, token: usize) -> usize
    ensures { result ≡ line_of_token source.now token }
{
    line_number(
        source.text,
        place_of_token(source.text, source.tokens, token),
    )
}

// From which lines a unit is; the first one alone, where it ends above it.
#[tactic(auto, unfolding(crate::specs::ActorTexts::unit_lines))]
pub(crate) fn write_lines(out: &mut Writer, source: &Source<'_>, unit: Unit)
    ensures { GoesOn out.old out.new (unit_lines source.now unit) }
{
    let first = line_of_token(source, unit.token);
    let last = line_of_token(source, unit.end);
    out.say("\n    // lines ");
    say_lines(out, source.alloc, first, later(last, first))
}

// Whether a variable is a parameter of a unit.
fn is_param(source: &Source<'_>, unit: usize, place: usize) -> bool
    ensures { result ≡ is_param source.now unit place }
{
    match source.variable_at(place) {
        Some(variable) => variable.unit == unit && variable.is_param,
        None => false,
    }
}

// Between two things, or before the first one.
pub(crate) fn between(out: &mut Writer, is_first: bool, first: &str, other: &str)
    ensures { GoesOn out.old out.new (between is_first first.now other.now) }
{
    out.say(if is_first { first } else { other })
}

// The variable at a place, if it is a parameter of a unit. Whether the next one is the first.
fn list_param(
    out: &mut Writer,
    source: &Source<'_>,
    unit: usize,
    place: usize,
    is_first: bool,
) -> bool
    ensures text { GoesOn out.old out.new (param_listed source.now unit is_first place) }
    ensures first { result ≡ (is_first && not (is_param source.now unit place)) }
{
    if is_param(source, unit, place) {
        between(out, is_first, "", ", ");
        write_variable(out, &source.context(), place);
        false
    } else {
        is_first
    }
}

// The parameters of a unit.
fn write_params(out: &mut Writer, source: &Source<'_>, unit: usize)
    ensures { GoesOn out.old out.new (params_listed source.now unit) }
{
    let mut is_first = true;
    for place in 0..source.code.variables.len() {
        is_first = list_param(out, source, unit, place, is_first);
    }
}

// A unit as a method, whose name is written.
#[tactic(auto, unfolding(crate::specs::ActorTexts::rest_text))]
pub(crate) fn write_rest(out: &mut Writer, source: &Source<'_>, place: usize)
    ensures { GoesOn out.old out.new (rest_text source.now place) }
{
    out.say("(");
    write_params(out, source, place);
    out.say(") {");
    write_body(out, source, place);
    out.say("\n    }\n")
}

// The lines of the unit at a place, if there is one.
pub(crate) fn write_unit_lines(out: &mut Writer, source: &Source<'_>, place: usize)
    ensures { GoesOn out.old out.new (lines_at source.now place) }
{
    if let Some(unit) = source.unit_at(place) {
        write_lines(out, source, unit)
    }
}

// A method of an actor.
#[tactic(auto, unfolding(crate::specs::ActorTexts::method_text))]
pub(crate) fn write_method(out: &mut Writer, source: &Source<'_>, place: usize, method: MethodDecl)
    ensures { GoesOn out.old out.new (method_text source.now place method) }
{
    write_unit_lines(out, source, place);
    out.say("\n    func ");
    write_name(out, source, method.name);
    write_rest(out, source, place)
}

// A closure as a method.
#[tactic(auto, unfolding(crate::specs::ActorTexts::closure_method))]
pub(crate) fn write_closure(out: &mut Writer, source: &Source<'_>, place: usize, unit: Unit)
    ensures { GoesOn out.old out.new (closure_method source.now place unit) }
{
    write_lines(out, source, unit);
    out.say("\n    func ");
    write_unit(out, source, place);
    write_rest(out, source, place)
}
