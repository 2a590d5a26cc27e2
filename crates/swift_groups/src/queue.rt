//! Endings in order, linked by group.

ghost use Rattle.std.specs.Prelude.{◌≡◌, ℕ, ◌+◌, ◌≤◌, ◌<◌, [], ◌∷◌, ◌++◌, vec_len, vec_capacity};
ghost use Rattle.swift_groups.specs.Inside.{AreLinked, last_of, places_of};

use crate::group::ChildEnding;

/// Puts an ending after the others, as the last of its group, and links it to the one that was the last before.
pub(crate) fn enqueue(
    endings: &mut Vec<ChildEnding>,
    after: &mut Vec<Option<usize>>,
    last: Option<usize>,
    ended: ChildEnding,
)
    requires linked { AreLinked endings.old.items after.old.items }
    requires last { last ≡ last_of (places_of endings.old.items ended.group) }
    requires endings { vec_len endings.old < vec_capacity endings.old }
    requires after { vec_len after.old < vec_capacity after.old }
    ensures endings { endings.new.items ≡ endings.old.items ++ ended ∷ [] }
    ensures linked { AreLinked endings.new.items after.new.items }
    ensures endings_capacity { vec_capacity endings.old ≤ vec_capacity endings.new }
    ensures after_capacity { vec_capacity after.old ≤ vec_capacity after.new }
    ensures endings_len { vec_len endings.new ≡ vec_len endings.old + 1 }
    ensures after_len { vec_len after.new ≡ vec_len after.old + 1 }
{
    let place = endings.len();
    let Ok(()) = endings.push(ended) else {
        unreachable!()
    };
    let Ok(()) = after.push(None) else {
        unreachable!()
    };
    if let Some(before) = last {
        after[before] = Some(place);
    }
}
