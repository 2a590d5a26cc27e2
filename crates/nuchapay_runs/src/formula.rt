//! Expressions in words.

ghost use Rattle.std.specs.Prelude.{◌≡◌, [], slice_get, unwrap_or};
ghost use Rattle.script_code.specs.Tree.{term_of};
ghost use Rattle.nuchapay_runs.specs.Formulas.{field_text, formula_text, operator_text, owner_text, variable_text};
ghost use Rattle.nuchapay_runs.specs.NamedInside.{names_view};
ghost use Rattle.nuchapay_runs.specs.SaysInside.{Says};

use crate::notes::actor_at;
use crate::text::Text;
use script_code::{FieldPlace, Formula};
use swift_script::Script;
use swift_types::{ActorId, ExecId, Operator};

/// What names are found by: the executor and the actor, and the names of the first variables, empty where none is known.
#[derive(Clone, Copy)]
pub(crate) struct NamesAt<'a> {
    pub script: &'a Script,
    pub executor: ExecId,
    pub actor: ActorId,
    pub variables: &'a [&'a [u8]],
}

// The name of a variable; empty where none is known.
fn variable_name<'a>(names: &NamesAt<'a>, variable: usize) -> &'a [u8]
    ensures { result.now ≡ unwrap_or (slice_get (names_view names.now).variables variable) [] }
{
    match names.variables.get(variable) {
        Some(name) => name,
        None => &[],
    }
}

/// Goes on with a variable by its name where it has one, and else by its number: `variable 2`.
pub(crate) fn write_variable(out: &mut Text, names: &NamesAt<'_>, variable: usize)
    ensures { Says out.old out.new (variable_text (names_view names.now) variable) }
{
    let name = variable_name(names, variable);
    let [_first, _rest @ ..] = name else {
        out.say(b"variable ");
        out.number(variable);
        return;
    };
    out.say(name)
}

// Goes on with the name of an actor, and a dot, where it is another one.
fn write_owner(out: &mut Text, names: &NamesAt<'_>, actor: ActorId)
    ensures { Says out.old out.new (owner_text (names_view names.now) actor.0) }
{
    if actor != names.actor {
        out.say(names.script.actor_name(actor));
        out.say(b".")
    }
}

/// Goes on with a field by its name, and for one of another actor that in front.
pub(crate) fn write_field(out: &mut Text, names: &NamesAt<'_>, place: FieldPlace)
    ensures { Says out.old out.new (field_text (names_view names.now) place) }
{
    let actor = actor_at(names.script, names.executor, place.actor as usize);
    write_owner(out, names, actor);
    out.say(names.script.field_name(actor, place.field as usize))
}

fn sign(operator: Operator) -> &'static [u8]
    ensures { result.now ≡ operator_text operator }
{
    match operator {
        Operator::Or => b"||",
        Operator::And => b"&&",
        Operator::Equal => b"==",
        Operator::Unequal => b"!=",
        Operator::Less => b"<",
        Operator::AtMost => b"<=",
        Operator::Greater => b">",
        Operator::AtLeast => b">=",
        Operator::Plus => b"+",
        Operator::Minus => b"-",
        Operator::Times => b"*",
    }
}

/// Goes on with an expression, with each use of an operator in a parenthesis, as the printed form has it.
pub(crate) fn write_formula(out: &mut Text, names: &NamesAt<'_>, formula: &Formula)
    ensures { Says out.old out.new (formula_text (names_view names.now) (term_of formula.now)) }
{
    match formula {
        Formula::Number(value) => out.number(*value),
        Formula::Variable(variable) => write_variable(out, names, *variable as usize),
        Formula::Field(place) => write_field(out, names, *place),
        Formula::Local(local, _) => {
            out.say(b"@ ");
            out.say(names.script.local_name(*local))
        }
        Formula::Priority => out.say(b"priority"),
        Formula::Cancelled => out.say(b"cancelled"),
        Formula::Negate(operand) => {
            out.say(b"( - ");
            write_formula(out, names, operand);
            out.say(b" )")
        }
        Formula::Not(operand) => {
            out.say(b"( ! ");
            write_formula(out, names, operand);
            out.say(b" )")
        }
        Formula::Binary(operator, left, right) => {
            out.say(b"( ");
            write_formula(out, names, left);
            out.say(b" ");
            out.say(sign(*operator));
            out.say(b" ");
            write_formula(out, names, right);
            out.say(b" )")
        }
    }
}
