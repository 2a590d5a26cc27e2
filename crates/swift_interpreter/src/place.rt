//! Numbers that go to their places.

ghost use Rattle.std.specs.Prelude.{◌≡◌, [], true, slice_index_or, slice_set, IfOk, OnOk};
ghost use Rattle.swift_interpreter.specs.Saved.{is_saved, restored};
ghost use Rattle.swift_interpreter.specs.Turn.{given, set_field_of};
ghost use Rattle.swift_interpreter.specs.TurnStates.{fields_before, next_of, state_of};
ghost use Rattle.script_code.specs.Seen.{rows_of};

use crate::exit::Exit;
use crate::saved::SavedRows;
use crate::turn_state::TurnState;
use script_code::{FieldPlace, NumberPlace};
use std::alloc::{AllocError, Global};

// A number goes to its place, if there is one, and the frame goes on at an instruction.
pub fn give(
    alloc: Global,
    turn: &mut TurnState,
    saved: &mut SavedRows,
    place: Option<NumberPlace>,
    next: u32,
    v: i64,
) -> Result<Option<Exit>, AllocError>
    ensures next { IfOk result (λ exit. (at : _) → next_of (state_of at turn.new) exit ≡ given place (at next) (state_of at turn.old) v) }
    ensures back { fields_before saved.new turn.new ≡ fields_before saved.old turn.old }
    ensures method { turn.new.frame.method ≡ turn.old.frame.method }
{
    match place {
        Some(NumberPlace::Variable(x)) => put(&mut turn.frame.variables, x, v),
        Some(NumberPlace::Field(place)) => set_field(alloc, &mut turn.fields, saved, place, v)?,
        None => {}
    }
    turn.frame.instruction = next;
    Ok(None)
}

// An actor's field is set. Its row is saved before, if it is not yet.
#[tactic(auto, using(crate::proofs::SavedLists::saved_set))]
#[inline(always)]
pub fn set_field(
    alloc: Global,
    fields: &mut Vec<Vec<i64>>,
    saved: &mut SavedRows,
    place: FieldPlace,
    v: i64,
) -> Result<(), AllocError>
    ensures set { OnOk result (rows_of fields.new.items ≡ set_field_of (rows_of fields.old.items) place v) }
    ensures back { restored saved.new (rows_of fields.new.items) ≡ restored saved.old (rows_of fields.old.items) }
{
    save_row(alloc, fields, saved, place.actor)?;
    put_field(fields, place, v);
    Ok(())
}

// An actor's row is saved, if it is not yet.
#[tactic(auto, using(crate::proofs::SavedLists::saved_same))]
#[inline(always)]
fn save_row(
    alloc: Global,
    fields: &[Vec<i64>],
    saved: &mut SavedRows,
    actor: u32,
) -> Result<(), AllocError>
    ensures saved { OnOk result (is_saved saved.new actor ≡ true) }
    ensures back { restored saved.new (rows_of fields.now) ≡ restored saved.old (rows_of fields.now) }
{
    if saved.has(actor) {
        return Ok(());
    }
    saved.save(alloc, actor, row_at(fields, actor))
}

// An actor's row. An actor that is not there has no fields.
fn row_at(fields: &[Vec<i64>], actor: u32) -> &[i64]
    ensures { result.now ≡ slice_index_or (rows_of fields.now) actor [] }
{
    match fields.get(actor as usize) {
        Some(row) => row,
        None => &[],
    }
}

#[tactic(auto, using(crate::proofs::SavedLists::field_set, std::proofs::lemmas::List::set_past))]
#[inline(always)]
fn put_field(fields: &mut Vec<Vec<i64>>, place: FieldPlace, v: i64)
    ensures { rows_of fields.new.items ≡ set_field_of (rows_of fields.old.items) place v }
{
    if (place.actor as usize) < fields.len() {
        put(&mut fields[place.actor as usize], place.field, v);
    }
}

// A place that is not there keeps nothing.
#[inline(always)]
pub fn put<T: Copy>(xs: &mut Vec<T>, k: u32, v: T)
    ensures { xs.new.items ≡ slice_set xs.old.items k v }
{
    if (k as usize) < xs.len() {
        xs[k as usize] = v;
    }
}
