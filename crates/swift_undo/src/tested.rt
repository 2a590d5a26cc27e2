//! Which invariants are tested after a turn.

ghost use Rattle.std.specs.Prelude.{◌≡◌, ℕ, true, false, drop, Contains};
ghost use Rattle.swift_interpreter.specs.Turn.{all_hold as all_hold_in};
ghost use Rattle.script_code.specs.Seen.{rows_of};
ghost use Rattle.script_code.specs.Tree.{terms_of};
ghost use Rattle.swift_undo.specs.RowsInside.{HoldsThere, OthersHold, ReadersHold};

use crate::rows::InvariantRows;
use script_code::{Formula, holds};
use std::alloc::Global;
use swift_interpreter::SavedRows;

/// Whether each of the invariants holds, as each does that is not tested. Those are tested that read a row which was saved, and those
/// beside which no row stands. In time by these alone.
pub fn all_hold(
    alloc: Global,
    invariants: &[Formula],
    rows: &InvariantRows,
    saved: &SavedRows,
    fields: &[Vec<i64>],
) -> bool
    requires { OthersHold (terms_of invariants.now) rows.now saved.now (rows_of fields.now) }
    ensures { result ≡ all_hold_in (terms_of invariants.now) (rows_of fields.now) }
{
    readers_hold(alloc, invariants, rows, saved, fields)
        && rest_holds(alloc, invariants, rows.len(), fields)
}

// Whether the invariants from a place on hold.
fn rest_holds(alloc: Global, invariants: &[Formula], from: usize, fields: &[Vec<i64>]) -> bool
    ensures { result ≡ all_hold_in (terms_of (drop from invariants.now)) (rows_of fields.now) }
{
    let mut place = from;
    while place < invariants.len() {
        if !holds(alloc, Some(&invariants[place]), fields) {
            return false;
        }
        place += 1;
    }
    true
}

// Whether the invariants hold that read one of the saved rows.
fn readers_hold(
    alloc: Global,
    invariants: &[Formula],
    rows: &InvariantRows,
    saved: &SavedRows,
    fields: &[Vec<i64>],
) -> bool
    ensures all { result ≡ true → ReadersHold (terms_of invariants.now) rows.now saved.now (rows_of fields.now) }
    ensures one { result ≡ false → all_hold_in (terms_of invariants.now) (rows_of fields.now) ≡ false }
{
    for place in 0..saved.len() {
        if !each_holds(alloc, invariants, rows.readers(saved.actor(place)), fields) {
            return false;
        }
    }
    true
}

// Whether the invariants in these places hold.
fn each_holds(alloc: Global, invariants: &[Formula], places: &[usize], fields: &[Vec<i64>]) -> bool
    ensures all { result ≡ true → (place : ℕ) → Contains places.now place → HoldsThere (terms_of invariants.now) place (rows_of fields.now) }
    ensures one { result ≡ false → all_hold_in (terms_of invariants.now) (rows_of fields.now) ≡ false }
{
    for place in places {
        if !holds_there(alloc, invariants, *place, fields) {
            return false;
        }
    }
    true
}

// Whether the invariant in a place holds, if one stands there.
fn holds_there(alloc: Global, invariants: &[Formula], place: usize, fields: &[Vec<i64>]) -> bool
    ensures all { result ≡ true → HoldsThere (terms_of invariants.now) place (rows_of fields.now) }
    ensures one { result ≡ false → all_hold_in (terms_of invariants.now) (rows_of fields.now) ≡ false }
{
    match invariants.get(place) {
        Some(invariant) => holds(alloc, Some(invariant), fields),
        None => true,
    }
}
