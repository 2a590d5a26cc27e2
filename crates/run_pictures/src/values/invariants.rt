//! Which invariant is false.

ghost use Rattle.std.specs.Prelude.{◌≡◌};
ghost use Rattle.script_code.specs.Seen.{rows_of};
ghost use Rattle.script_code.specs.Tree.{terms_of};
ghost use Rattle.run_pictures.specs.Values.{first_false};

use script_code::{Formula, holds};
use std::alloc::Global;

/// The place of the first of these invariants that does not hold of these fields, if there is one.
pub fn first_false(alloc: Global, invariants: &[Formula], fields: &[Vec<i64>]) -> Option<usize>
    ensures { result ≡ first_false 0 (terms_of invariants.now) (rows_of fields.now) }
{
    for (place, invariant) in invariants.iter().enumerate() {
        if !holds(alloc, Some(invariant), fields) {
            return Some(place);
        }
    }
    None
}
