//! The start values of fields.

ghost use Rattle.std.specs.Prelude.{◌≡◌, []};
ghost use Rattle.swift_translation.specs.Starts.{actor_named, actor_of, argument, argument_among, given, literal_number, negated_number, params_of, start_number, started};
ghost use Rattle.swift_translation.specs.WritingInside.{GoesOn};

use crate::source::Source;
use crate::writer::Writer;
use swift_syntax::{ExprForm, FieldDecl, FieldStart, ParamDecl, Rule};

// The number of a literal, with its sign the other way round.
fn negated(form: ExprForm) -> Option<i64>
    ensures { result ≡ negated_number form }
{
    match form {
        ExprForm::Number(number) => number.checked_neg(),
        _ => None,
    }
}

/// The number of a literal.
pub(crate) fn literal(source: &Source<'_>, place: usize) -> Option<i64>
    ensures { result ≡ literal_number source.now place }
{
    match source.expr(place).form {
        ExprForm::Number(number) => Some(number),
        ExprForm::Truth(truth) => Some(i64::from(truth)),
        ExprForm::Negate(inner) => negated(source.expr(inner).form),
        _ => None,
    }
}

// The place of the actor that a token names.
fn actor_named(source: &Source<'_>, of: usize) -> Option<usize>
    ensures { result ≡ actor_named source.now of }
{
    source
        .tree
        .actors
        .iter()
        .position(|a| source.are_same(a.name, of))
}

/// The place of the actor of an instance.
pub(crate) fn actor_of(source: &Source<'_>, instance: usize) -> Option<usize>
    ensures { result ≡ actor_of source.now instance }
{
    match source.tree.instances.get(instance).copied() {
        Some(declared) => actor_named(source, declared.of),
        None => None,
    }
}

// The parameters of the init of an actor.
fn params_of<'a>(source: &Source<'a>, actor: usize) -> &'a [ParamDecl]
    ensures { result.now ≡ params_of source.now actor }
{
    match source.tree.actors.get(actor).copied() {
        Some(declared) => source
            .tree
            .params
            .get(declared.first_param..declared.params_end)
            .unwrap_or(&[]),
        None => &[],
    }
}

// The number of the argument for the first of some parameters that a token names; the arguments begin at a place.
fn argument_among(
    source: &Source<'_>,
    params: &[ParamDecl],
    name: usize,
    place: usize,
) -> Option<i64>
    ensures { result ≡ argument_among source.now params.now name place }
{
    let [param, rest @ ..] = params else {
        return None;
    };
    let Some(given) = source.argument_at(place) else {
        return None;
    };
    if source.are_same(param.name, name) {
        literal(source, given.value)
    } else {
        argument_among(source, rest, name, given.next)
    }
}

// The number of the argument of an instance for the parameter that a token names.
fn argument(source: &Source<'_>, instance: usize, name: usize) -> Option<i64>
    ensures { result ≡ argument source.now instance name }
{
    let Some(declared) = source.tree.instances.get(instance).copied() else {
        return None;
    };
    match actor_named(source, declared.of) {
        Some(actor) => argument_among(source, params_of(source, actor), name, declared.arguments),
        None => None,
    }
}

// The number that an init gives a field of an instance.
fn given(source: &Source<'_>, instance: usize, place: usize) -> Option<i64>
    ensures { result ≡ given source.now instance place }
{
    let found = source.expr(place);
    match found.form {
        ExprForm::Name => argument(source, instance, found.token),
        _ => literal(source, place),
    }
}

// The start value of a field of an instance, if there is one.
fn started(source: &Source<'_>, instance: usize, field: FieldDecl) -> Option<i64>
    ensures { result ≡ started source.now instance field }
{
    if field.given != 0 {
        return given(source, instance, field.given);
    }
    match field.start {
        FieldStart::Value(value) => literal(source, value),
        FieldStart::None => None,
    }
}

/// The start value of a field of an instance.
#[tactic(auto, unfolding(crate::specs::Starts::start_number))]
pub(crate) fn start_value(
    out: &mut Writer,
    source: &Source<'_>,
    instance: usize,
    field: FieldDecl,
) -> i64
    ensures number { result ≡ start_number source.now instance field }
    ensures out { GoesOn out.old out.new [] }
{
    match started(source, instance, field) {
        Some(number) => number,
        None => {
            out.refuse(Rule::Arguments, field.name);
            0
        }
    }
}
