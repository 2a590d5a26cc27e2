//! The invariants of an executor's actors.

ghost use Rattle.std.specs.Prelude.{◌≡◌, [], ◌∷◌, ◌++◌, if◌then◌else◌, map, slice_get, IfOk, OnOk};
ghost use Rattle.script_code.specs.Seen.{rows_of};
ghost use Rattle.script_code.specs.Tree.{term_of};
ghost use Rattle.script_compiler.specs.IsCompiled.{actor_number};
ghost use Rattle.nuchapay_runs.specs.False.{false_text, fields_read, has_field, invariants_among, is_same_field, left_text, names_of};
ghost use Rattle.nuchapay_runs.specs.Formulas.{formula_text};
ghost use Rattle.nuchapay_runs.specs.OwnedInside.{owned_if, owned_of};
ghost use Rattle.nuchapay_runs.specs.SaysInside.{Says};

use crate::fields::value_left;
use crate::formula::{NamesAt, write_formula};
use crate::notes::actor_at;
use crate::text::Text;
use run_pictures::Change;
use script_code::{FieldPlace, Formula};
use std::alloc::{AllocError, Global};
use swift_script::Script;
use swift_types::{ActorId, ExecId};

/// An invariant, and the actor that has it.
#[derive(Clone, Copy)]
pub(crate) struct OwnedInvariant<'a> {
    pub actor: ActorId,
    pub formula: &'a Formula,
}

/// The invariant at a place of those that these actors have, in order.
pub(crate) fn invariant_among<'a>(
    script: &'a Script,
    actors: &[ActorId],
    place: usize,
) -> Option<OwnedInvariant<'a>>
    ensures { owned_if result ≡ slice_get (invariants_among script.now (map actor_number actors.now)) place }
{
    let mut left = place;
    for actor in actors {
        if let Some(formula) = script.actor_invariant(*actor) {
            if left == 0 {
                return Some(OwnedInvariant {
                    actor: *actor,
                    formula,
                });
            }
            left -= 1;
        }
    }
    None
}

fn is_same_field(a: FieldPlace, b: FieldPlace) -> bool
    ensures { result ≡ is_same_field a b }
{
    a.actor == b.actor && a.field == b.field
}

fn has_field(fields: &[FieldPlace], place: FieldPlace) -> bool
    ensures { result ≡ has_field fields.now place }
{
    for field in fields {
        if is_same_field(*field, place) {
            return true;
        }
    }
    false
}

// Appends a field that is not there yet.
fn add_field(fields: &mut Vec<FieldPlace>, place: FieldPlace) -> Result<(), AllocError>
    ensures { OnOk result (fields.new.items ≡ (if has_field fields.old.items place then fields.old.items else fields.old.items ++ place ∷ [])) }
{
    if has_field(fields, place) {
        return Ok(());
    }
    fields.push(place)?;
    Ok(())
}

// Appends the fields that an expression reads.
fn add_fields(fields: &mut Vec<FieldPlace>, formula: &Formula) -> Result<(), AllocError>
    ensures { OnOk result (fields.new.items ≡ fields_read fields.old.items (term_of formula.now)) }
{
    match formula {
        Formula::Field(place) => add_field(fields, *place),
        Formula::Negate(operand) | Formula::Not(operand) => add_fields(fields, operand),
        Formula::Binary(_, left, right) => {
            add_fields(fields, left)?;
            add_fields(fields, right)
        }
        Formula::Number(_)
        | Formula::Variable(_)
        | Formula::Local(_, _)
        | Formula::Priority
        | Formula::Cancelled => Ok(()),
    }
}

// The fields that an expression reads.
fn fields_of(alloc: Global, formula: &Formula) -> Result<Vec<FieldPlace>, AllocError>
    ensures { IfOk result (λ fields. fields.items ≡ fields_read [] (term_of formula.now)) }
{
    let mut fields = Vec::new(alloc);
    add_fields(&mut fields, formula)?;
    Ok(fields)
}

// What a turn with these changes leaves in these fields, by their names.
fn write_left(
    out: &mut Text,
    script: &Script,
    executor: ExecId,
    changes: &[Change],
    before: &[Vec<i64>],
    places: &[FieldPlace],
)
    ensures { Says out.old out.new (left_text script.now executor.0 changes.now (rows_of before.now) [] places.now) }
{
    let mut between: &[u8] = b"";
    for place in places {
        out.say(between);
        between = b", ";
        let actor = actor_at(script, executor, place.actor as usize);
        out.say(script.field_name(actor, place.field as usize));
        out.say(b" ");
        out.number(value_left(changes, before, *place));
    }
}

/// Goes on with an invariant in words.
pub(crate) fn write_invariant(
    out: &mut Text,
    script: &Script,
    executor: ExecId,
    invariant: OwnedInvariant<'_>,
)
    ensures { Says out.old out.new (formula_text (names_of script.now executor.0 invariant.entry.actor.0) (term_of invariant.entry.formula.now)) }
{
    let names = NamesAt {
        script,
        executor,
        actor: invariant.actor,
        variables: &[],
    };
    write_formula(out, &names, invariant.formula)
}

/// Goes on with an invariant that a turn with these changes would have left false, where these are the fields from before it:
/// `invariant ( a >= 0 ) of A is false with a -1`.
pub(crate) fn write_false(
    out: &mut Text,
    alloc: Global,
    script: &Script,
    executor: ExecId,
    changes: &[Change],
    before: &[Vec<i64>],
    invariant: OwnedInvariant<'_>,
)
    ensures { Says out.old out.new (false_text script.now executor.0 changes.now (rows_of before.now) (owned_of invariant.entry)) }
{
    out.say(b"invariant ");
    write_invariant(out, script, executor, invariant);
    out.say(b" of ");
    out.say(script.actor_name(invariant.actor));
    out.say(b" is false with ");
    match fields_of(alloc, invariant.formula) {
        Ok(places) => write_left(out, script, executor, changes, before, &places),
        Err(_) => out.cut(),
    }
}
