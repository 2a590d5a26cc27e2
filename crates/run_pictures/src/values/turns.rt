//! All turns of a journal.

ghost use Rattle.std.specs.Prelude.{◌≡◌, ◌≤◌, length, take, IfOk};
ghost use Rattle.script_code.specs.Seen.{rows_of};
ghost use Rattle.swift_history.specs.Replay.{replay};
ghost use Rattle.run_pictures.specs.Values.{values_from, values_views};

use crate::values::change::TurnValues;
use crate::values::player::{Player, copy_of};
use std::alloc::{AllocError, Global};
use swift_journal::Journal;
use swift_script::Script;

/// What each turn of a journal did to the fields of its executor's actors, in order, where these are the fields from before them, as
/// the executor's checkpoint has them (our own; turns that were folded into the checkpoint are not there to be played).
///
/// Each turn is played once more. It costs that, the fields of the actors that the turn sets, and for each turn all invariants of the
/// executor's actors. It takes memory for the changes alone, and for the turn that is played. An `Err` says that a growth was refused.
pub fn turn_values(
    alloc: Global,
    script: &Script,
    start: &[Vec<i64>],
    journal: &Journal,
) -> Result<Vec<TurnValues>, AllocError>
    ensures { IfOk result (λ turns. values_views turns.items ≡ values_from script.now (rows_of start.now) journal.now) }
{
    let mut player = Player::new(alloc, start)?;
    let mut turns = Vec::with_capacity(alloc, journal.len())?;
    for place in 0..journal.len() {
        let found = journal.read(alloc, place)?;
        turns.push(player.play(alloc, script, found)?)?;
    }
    Ok(turns)
}

/// The fields from before the turn at a place of a journal, where these are those from before the journal. Each turn before it is played
/// once more.
pub fn fields_before(
    alloc: Global,
    script: &Script,
    start: &[Vec<i64>],
    journal: &Journal,
    place: usize,
) -> Result<Vec<Vec<i64>>, AllocError>
    requires { place ≤ length journal.now }
    ensures { IfOk result (λ fields. rows_of fields.items ≡ replay script.now (rows_of start.now) (take place journal.now)) }
{
    let mut player = Player::new(alloc, start)?;
    for earlier in 0..place {
        let found = journal.read(alloc, earlier)?;
        let _ = player.play(alloc, script, found)?;
    }
    copy_of(alloc, &player.fields)
}
