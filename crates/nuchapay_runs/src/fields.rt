//! Fields as a turn leaves them.

ghost use Rattle.std.specs.Prelude.{◌≡◌};
ghost use Rattle.script_code.specs.Seen.{rows_of};
ghost use Rattle.script_code.specs.Value.{field_at};
ghost use Rattle.nuchapay_runs.specs.False.{is_change_of, value_left};

use run_pictures::Change;
use script_code::FieldPlace;

// The value of a field; 0 where it is not there.
fn value_at(fields: &[Vec<i64>], place: FieldPlace) -> i64
    ensures { result ≡ field_at (rows_of fields.now) place }
{
    match fields.get(place.actor as usize) {
        Some(row) => match row.get(place.field as usize) {
            Some(value) => *value,
            None => 0,
        },
        None => 0,
    }
}

fn is_change_of(change: &Change, place: FieldPlace) -> bool
    ensures { result ≡ is_change_of change.now place }
{
    change.actor == place.actor as usize && change.field == place.field as usize
}

/// What a turn with these changes leaves in a field, where these are the fields from before it; 0 where the field is not there.
pub(crate) fn value_left(changes: &[Change], before: &[Vec<i64>], place: FieldPlace) -> i64
    ensures { result ≡ value_left changes.now (rows_of before.now) place }
{
    for change in changes {
        if is_change_of(change, place) {
            return change.after;
        }
    }
    value_at(before, place)
}
