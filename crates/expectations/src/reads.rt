//! What an expectation reads.

ghost use Rattle.std.specs.Prelude.{◌≡◌, ◌<◌, ◌^◌, OnOk, IfOk};
ghost use Rattle.std.specs.List.{list_any};
ghost use Rattle.script_code.specs.Tree.{term_of};
ghost use Rattle.expectations.specs.FailureText.{added, faulted, reads_after, reads_of, same};

use crate::expectation::Expectation;
use crate::judging::has_value;
use script_code::Formula;
use std::alloc::{AllocError, Global};
use swift_events::Origin;
use swift_script::Script;
use swift_types::Ending;

/// A field or a root that an expectation reads (our own).
#[derive(Clone, Copy)]
pub(crate) enum Read {
    /// The field of this number of the actor of this number.
    Field(u32, u32),
    /// The root of this number.
    Root(u32),
}

fn same(one: Read, other: Read) -> bool
    ensures { result ≡ same one other }
{
    match (one, other) {
        (Read::Field(actor, field), Read::Field(owner, number)) => {
            actor == owner && field == number
        }
        (Read::Root(root), Read::Root(number)) => root == number,
        _ => false,
    }
}

fn is_among(one: Read, reads: &[Read]) -> bool
    ensures { result ≡ list_any (same one) reads.now }
{
    reads.iter().any(|other| same(one, *other))
}

// One more after the others, unless it is among them.
fn add(one: Read, reads: &mut Vec<Read>) -> Result<(), AllocError>
    ensures { OnOk result (reads.new.items ≡ added one reads.old.items) }
{
    if !is_among(one, reads) {
        reads.push(one)?;
    }
    Ok(())
}

// The fields and roots that an expression names, after others.
fn add_all(test: &Formula, reads: &mut Vec<Read>) -> Result<(), AllocError>
    ensures { OnOk result (reads.new.items ≡ reads_after reads.old.items (term_of test.now)) }
{
    match test {
        Formula::Variable(root) => add(Read::Root(*root), reads),
        Formula::Field(place) => add(Read::Field(place.actor, place.field), reads),
        Formula::Negate(operand) | Formula::Not(operand) => add_all(operand, reads),
        Formula::Binary(_, left, right) => {
            add_all(left, reads)?;
            add_all(right, reads)
        }
        _ => Ok(()),
    }
}

// The roots among the first ones that have not ended with a value.
fn faulted(
    alloc: Global,
    endings: &[(Origin, Ending)],
    roots: usize,
) -> Result<Vec<Read>, AllocError>
    requires { roots < 2 ^ 32 }
    ensures { IfOk result (λ reads. reads.items ≡ faulted endings.now roots) }
{
    let mut reads = Vec::new(alloc);
    for root in 0..roots {
        if !has_value(endings, root as u32) {
            reads.push(Read::Root(root as u32))?;
        }
    }
    Ok(reads)
}

/// What an expectation reads of an end: the fields and roots that it names, or the roots that have ended with a fault.
pub(crate) fn reads_of(
    alloc: Global,
    script: &Script,
    endings: &[(Origin, Ending)],
    expectation: &Expectation,
) -> Result<Vec<Read>, AllocError>
    ensures { IfOk result (λ reads. reads.items ≡ reads_of script.now endings.now expectation.now) }
{
    script.facts();
    match expectation {
        Expectation::Test(_, test) => {
            let mut reads = Vec::new(alloc);
            add_all(test, &mut reads)?;
            Ok(reads)
        }
        Expectation::NoFault => faulted(alloc, endings, script.root_count()),
    }
}
