//! How a run has ended, as expectations see it.

ghost use Rattle.std.specs.Prelude.{◌≡◌, ◌<◌, ◌^◌, IfOk, map};
ghost use Rattle.script_code.specs.Seen.{rows_of};
ghost use Rattle.script_code.specs.Tree.{term_of};
ghost use Rattle.script_compiler.specs.IsCompiled.{actor_number};
ghost use Rattle.swift_script.specs.Scripts.{actor_count};
ghost use Rattle.expectations.specs.Meaning.{first_have_values, first_rows, has_value, have_values, judged, number_in, row_among, row_of, scene_of, value_in, verdict_of};

use crate::expectation::{Expectation, Verdict};
use script_code::{Formula, Sight, value};
use std::alloc::{AllocError, Global};
use swift_events::Origin;
use swift_locals::Bindings;
use swift_script::Script;
use swift_types::{ActorId, Ending, Env, Priority};

pub(crate) fn value_in(ending: Ending) -> Option<i64>
    ensures { result ≡ value_in ending }
{
    match ending {
        Ending::Value(value) => Some(value),
        Ending::Fault(_) => None,
    }
}

// Whether the root of this number has ended with a value.
pub(crate) fn has_value(endings: &[(Origin, Ending)], root: u32) -> bool
    ensures { result ≡ has_value endings.now root }
{
    match endings.get(root as usize) {
        Some((_, ending)) => value_in(*ending).is_some(),
        None => false,
    }
}

// Whether each root that an expression names has ended with a value.
fn have_values(endings: &[(Origin, Ending)], test: &Formula) -> bool
    ensures { result ≡ have_values endings.now (term_of test.now) }
{
    match test {
        Formula::Variable(root) => has_value(endings, *root),
        Formula::Negate(operand) | Formula::Not(operand) => have_values(endings, operand),
        Formula::Binary(_, left, right) => {
            have_values(endings, left) && have_values(endings, right)
        }
        _ => true,
    }
}

// Whether each of the first roots has ended with a value.
fn first_have_values(endings: &[(Origin, Ending)], roots: usize) -> bool
    requires { roots < 2 ^ 32 }
    ensures { result ≡ first_have_values endings.now roots }
{
    let mut all = true;
    for root in 0..roots {
        all = has_value(endings, root as u32) && all;
    }
    all
}

// The number that a task has ended with; 0 for a fault.
fn number_in(ended: (Origin, Ending)) -> i64
    ensures { result ≡ number_in ended }
{
    value_in(ended.1).unwrap_or(0)
}

// The numbers that tasks have ended with.
fn numbers(alloc: Global, endings: &[(Origin, Ending)]) -> Result<Vec<i64>, AllocError>
    ensures { IfOk result (λ v. v.items ≡ map number_in endings.now) }
{
    let mut numbers = Vec::new(alloc);
    for ended in endings {
        numbers.push(number_in(*ended))?;
    }
    Ok(numbers)
}

// The fields of an actor, among those of the actors of its executor.
fn row_among<'a>(actors: &[ActorId], rows: &'a [Vec<i64>], actor: ActorId) -> &'a [i64]
    ensures { result.now ≡ row_among (map actor_number actors.now) (rows_of rows.now) actor.0 }
{
    let [first, others @ ..] = actors else {
        return &[];
    };
    let [row, rest @ ..] = rows else {
        return &[];
    };
    if *first == actor {
        return row;
    }
    row_among(others, rest, actor)
}

// The fields of an actor, where those of the actors of each executor are given.
pub(crate) fn row_of<'a>(script: &Script, fields: &'a [Vec<Vec<i64>>], actor: ActorId) -> &'a [i64]
    ensures { result.now ≡ row_of script.now (map (λ rows. rows_of rows.items) fields.now) actor.0 }
{
    let executor = script.actor_executor(actor);
    let actors = script.executor_actors(executor);
    match fields.get(executor.0 as usize) {
        Some(rows) => row_among(actors, rows, actor),
        None => row_among(actors, &[], actor),
    }
}

// The fields of each actor, in text order.
fn rows(
    alloc: Global,
    script: &Script,
    fields: &[Vec<Vec<i64>>],
) -> Result<Vec<Vec<i64>>, AllocError>
    ensures { IfOk result (λ v. rows_of v.items ≡ first_rows script.now (map (λ rows. rows_of rows.items) fields.now) (actor_count script.now)) }
{
    script.facts();
    let mut all = Vec::new(alloc);
    for actor in 0..script.actor_count() {
        let row = row_of(script, fields, ActorId(actor as u32));
        all.push(Vec::from_slice(alloc, row)?)?;
    }
    Ok(all)
}

// What comes of an expression, where these are the numbers that roots have ended with, and the fields of the actors.
fn judged(
    alloc: Global,
    test: &Formula,
    endings: &[(Origin, Ending)],
    numbers: &[i64],
    rows: &[Vec<i64>],
) -> Verdict
    ensures { result ≡ judged (term_of test.now) endings.now (scene_of numbers.now (rows_of rows.now)) }
{
    if !have_values(endings, test) {
        return Verdict::HasFault;
    }
    let env = Env {
        priority: Priority::Background,
        cancelled: false,
        room: 0,
    };
    let sight = Sight {
        variables: numbers,
        fields: rows,
        own: &[],
        outer: &Bindings::new(alloc),
        env: &env,
    };
    match value(test, sight) {
        None => Verdict::Overflows,
        Some(0) => Verdict::IsFalse,
        Some(_) => Verdict::Holds,
    }
}

/// What comes of an expectation where the tasks have ended so, and the fields of the actors of each executor are these (our own). Linear in
/// the tasks, the fields and the expression.
///
/// # Errors
///
/// `AllocError` where no memory was left.
pub fn verdict(
    alloc: Global,
    script: &Script,
    expectation: &Expectation,
    endings: &[(Origin, Ending)],
    fields: &[Vec<Vec<i64>>],
) -> Result<Verdict, AllocError>
    ensures { IfOk result (λ v. v ≡ verdict_of script.now endings.now (map (λ rows. rows_of rows.items) fields.now) expectation.now) }
{
    script.facts();
    match expectation {
        Expectation::Test(_, test) => {
            let numbers = numbers(alloc, endings)?;
            let rows = rows(alloc, script, fields)?;
            Ok(judged(alloc, test, endings, &numbers, &rows))
        }
        Expectation::NoFault => {
            if first_have_values(endings, script.root_count()) {
                Ok(Verdict::Holds)
            } else {
                Ok(Verdict::HasFault)
            }
        }
    }
}

/// What comes of each expectation, in order, as `verdict` says it.
///
/// # Errors
///
/// `AllocError` where no memory was left.
pub fn verdicts(
    alloc: Global,
    script: &Script,
    expectations: &[Expectation],
    endings: &[(Origin, Ending)],
    fields: &[Vec<Vec<i64>>],
) -> Result<Vec<Verdict>, AllocError>
    ensures { IfOk result (λ v. v.items ≡ map (verdict_of script.now endings.now (map (λ rows. rows_of rows.items) fields.now)) expectations.now) }
{
    let mut found = Vec::new(alloc);
    for expectation in expectations {
        found.push(verdict(alloc, script, expectation, endings, fields)?)?;
    }
    Ok(found)
}
