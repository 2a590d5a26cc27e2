//! What is said of an expectation that fails.

ghost use Rattle.std.specs.Prelude.{◌≡◌, ◌++◌, OnOk, map, slice_get};
ghost use Rattle.std.specs.Fmt.{signed_decimal};
ghost use Rattle.script_code.specs.Seen.{rows_of};
ghost use Rattle.script_code.specs.Value.{number_at};
ghost use Rattle.expectations.specs.FailureText.{failure_text, more_text, next_text, overflow_text, read_text, reads_text, root_text, said_text, value_at};

use crate::expectation::{Expectation, Verdict};
use crate::judging::{row_of, value_in};
use crate::reads::{Read, reads_of};
use itoa::Buffer;
use std::alloc::{AllocError, Global};
use swift_events::Origin;
use swift_script::Script;
use swift_types::{ActorId, Ending, RootId};

fn put_number(out: &mut Vec<u8>, number: i64) -> Result<(), AllocError>
    ensures { OnOk result (out.new.items ≡ out.old.items ++ signed_decimal number) }
{
    let mut buffer = Buffer::new();
    out.extend_from_slice(buffer.format(number).as_bytes())
}

// The number at a place of a row; 0 where there is none.
fn number_at(row: &[i64], place: u32) -> i64
    ensures { result ≡ number_at row.now place }
{
    match row.get(place as usize) {
        Some(number) => *number,
        None => 0,
    }
}

// The value that a root has ended with, or that it has none.
fn put_root(out: &mut Vec<u8>, value: Option<i64>) -> Result<(), AllocError>
    ensures { OnOk result (out.new.items ≡ out.old.items ++ root_text value) }
{
    match value {
        Some(value) => put_number(out, value),
        None => out.extend_from_slice(b"fault"),
    }
}

// The value that a task has ended with.
fn value_at(endings: &[(Origin, Ending)], root: u32) -> Option<i64>
    ensures { result ≡ value_at (slice_get endings.now root) }
{
    match endings.get(root as usize) {
        Some((_, ending)) => value_in(*ending),
        None => None,
    }
}

// A field or a root, with its value.
fn put_read(
    out: &mut Vec<u8>,
    script: &Script,
    endings: &[(Origin, Ending)],
    fields: &[Vec<Vec<i64>>],
    read: Read,
) -> Result<(), AllocError>
    ensures { OnOk result (out.new.items ≡ out.old.items ++ read_text script.now endings.now (map (λ rows. rows_of rows.items) fields.now) read) }
{
    match read {
        Read::Field(actor, field) => {
            let actor = ActorId(actor);
            out.extend_from_slice(script.actor_name(actor))?;
            out.extend_from_slice(b".")?;
            out.extend_from_slice(script.field_name(actor, field as usize))?;
            out.extend_from_slice(b" ")?;
            put_number(out, number_at(row_of(script, fields, actor), field))
        }
        Read::Root(root) => {
            out.extend_from_slice(script.root_name(RootId(root)))?;
            out.extend_from_slice(b" ")?;
            put_root(out, value_at(endings, root))
        }
    }
}

// One with a comma before it.
fn put_next(
    out: &mut Vec<u8>,
    script: &Script,
    endings: &[(Origin, Ending)],
    fields: &[Vec<Vec<i64>>],
    read: Read,
) -> Result<(), AllocError>
    ensures { OnOk result (out.new.items ≡ out.old.items ++ next_text script.now endings.now (map (λ rows. rows_of rows.items) fields.now) read) }
{
    out.extend_from_slice(b", ")?;
    put_read(out, script, endings, fields, read)
}

// Each with a comma before it.
fn put_more(
    out: &mut Vec<u8>,
    script: &Script,
    endings: &[(Origin, Ending)],
    fields: &[Vec<Vec<i64>>],
    reads: &[Read],
) -> Result<(), AllocError>
    ensures { OnOk result (out.new.items ≡ out.old.items ++ more_text script.now endings.now (map (λ rows. rows_of rows.items) fields.now) reads.now) }
{
    for place in 0..reads.len() {
        put_next(out, script, endings, fields, reads[place])?;
    }
    Ok(())
}

// A line of what was read, where there is anything.
fn put_reads(
    out: &mut Vec<u8>,
    script: &Script,
    endings: &[(Origin, Ending)],
    fields: &[Vec<Vec<i64>>],
    reads: &[Read],
) -> Result<(), AllocError>
    ensures { OnOk result (out.new.items ≡ out.old.items ++ reads_text script.now endings.now (map (λ rows. rows_of rows.items) fields.now) reads.now) }
{
    let [first, others @ ..] = reads else {
        return Ok(());
    };
    out.extend_from_slice(b"with ")?;
    put_read(out, script, endings, fields, *first)?;
    put_more(out, script, endings, fields, others)?;
    out.extend_from_slice(b"\n")
}

impl Expectation {
    /// Its text.
    pub fn said(&self) -> &[u8]
        ensures { result.now ≡ said_text self.now }
    {
        match self {
            Expectation::Test(said, _) => said,
            Expectation::NoFault => b"no fault",
        }
    }
}

fn put_overflow(out: &mut Vec<u8>, verdict: Verdict) -> Result<(), AllocError>
    ensures { OnOk result (out.new.items ≡ out.old.items ++ overflow_text verdict) }
{
    match verdict {
        Verdict::Overflows => out.extend_from_slice(b"a value on the way leaves 64 bits\n"),
        Verdict::Holds | Verdict::IsFalse | Verdict::HasFault => Ok(()),
    }
}

/// Appends what is said of an expectation that fails where the tasks have ended so: its text, a line of the fields and roots that it reads
/// with their values, and whether a value on the way leaves 64 bits (the format is our own).
///
/// # Errors
///
/// `AllocError` where no memory is left for the text, of which a part may be there.
pub fn put_failure(
    alloc: Global,
    out: &mut Vec<u8>,
    script: &Script,
    endings: &[(Origin, Ending)],
    fields: &[Vec<Vec<i64>>],
    expectation: &Expectation,
    verdict: Verdict,
) -> Result<(), AllocError>
    ensures { OnOk result (out.new.items ≡ out.old.items ++ failure_text script.now endings.now (map (λ rows. rows_of rows.items) fields.now) expectation.now verdict) }
{
    let reads = reads_of(alloc, script, endings, expectation)?;
    out.extend_from_slice(expectation.said())?;
    out.extend_from_slice(b"\n")?;
    put_reads(out, script, endings, fields, &reads)?;
    put_overflow(out, verdict)
}
