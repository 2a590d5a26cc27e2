//! The last turn of a task.

ghost use Rattle.std.specs.Prelude.{ℕ, ◌<◌, length, IfNone, IfSome};
ghost use Rattle.run_pictures.specs.LastTurns.{IsLastTurn, IsOfOther};

use swift_journal::Journal;

/// The place of the last turn before this one that is of the same task, if the journal has one: those between the two are turns of
/// other tasks (our own). In time linear in these.
pub fn last_turn(journal: &Journal, place: usize) -> Option<usize>
    requires { place < length journal.now }
    ensures last { IfSome result (IsLastTurn journal.now place) }
    ensures none { IfNone result ((earlier : ℕ) → earlier < place → IsOfOther journal.now place earlier) }
{
    let task = journal.task(place);
    let mut left = place;
    while left > 0 {
        left -= 1;
        if journal.task(left) == task {
            return Some(left);
        }
    }
    None
}
