//! One turn.

ghost use Rattle.std.specs.Prelude.{◌≡◌, IfOk, OnErr, OnOk};
ghost use Rattle.script_code.specs.Seen.{rows_of};
ghost use Rattle.swift_interpreter.specs.Saved.{restored};
ghost use Rattle.swift_interpreter.specs.Turn.{undoes as undoes_turn};
ghost use Rattle.swift_interpreter.specs.TurnStates.{exit_view};
ghost use Rattle.swift_journal.specs.Records.{owned_view};
ghost use Rattle.swift_history.specs.Replay.{fields_after};
ghost use Rattle.script_code.specs.Tree.{terms_of};
ghost use Rattle.swift_turn.specs.Body.{invariants_at};
ghost use Rattle.run_pictures.specs.KeepingInside.{fields_of};
ghost use Rattle.run_pictures.specs.Values.{outcome_of, played_turn, turn_values, values_view};

use crate::values::change::{Outcome, TurnValues};
use crate::values::differences::{add_differences, follow};
use crate::values::invariants::first_false;
use crate::values::parts::{instructions_of, invariants_of};
use script_code::Formula;
use std::alloc::{AllocError, Global};
use std::mem;
use swift_interpreter::{Exit, Frame, SavedRows, TurnInput, TurnState, play_whole};
use swift_journal::OwnedRecord;
use swift_script::Script;
use swift_types::Fault;
use swift_types::limits::STEPS;

/// The fields of an executor's actors, on which turns are played one after another.
pub struct Player {
    // The fields, and what the last turn left beside them.
    pub turn: TurnState,
    // The rows that the last turn changed.
    pub saved: SavedRows,
    // The same fields.
    pub fields: Vec<Vec<i64>>,
}

impl Drop for Player {
    fn drop(self) {
        let Player {
            turn,
            saved,
            fields,
        } = self;
        drop(turn);
        drop(saved);
        drop(fields);
    }
}

// Whether an exit undoes its turn.
fn undoes(exit: &Exit) -> bool
    ensures { result ≡ undoes_turn (exit_view exit.now) }
{
    matches!(
        exit,
        Exit::Fault(Fault::Overflow | Fault::Steps | Fault::Tasks | Fault::Isolation)
    )
}

// Plays a turn of a journal to its end, as if nothing could undo it.
fn play(
    alloc: Global,
    script: &Script,
    turn: &mut TurnState,
    saved: &mut SavedRows,
    mut found: OwnedRecord,
) -> Result<Exit, AllocError>
    ensures exit { IfOk result (λ exit. exit_view exit ≡ (played_turn script.now (rows_of turn.old.fields.items) (owned_view found)).exit) }
    ensures fields { OnOk result (rows_of turn.new.fields.items ≡ (played_turn script.now (rows_of turn.old.fields.items) (owned_view found)).state.fields) }
    ensures back { restored saved.new (rows_of turn.new.fields.items) ≡ rows_of turn.old.fields.items }
{
    let method = found.frame.method;
    mem::swap(&mut turn.frame, &mut found.frame);
    turn.effects.clear();
    turn.room = found.env.room;
    saved.clear();
    let given = TurnInput {
        instructions: instructions_of(script, method),
        invariants: &[],
        outer: &found.outer,
        env: &found.env,
    };
    play_whole(alloc, given, turn, saved, found.resume, STEPS)
}

// What becomes of a turn that ends so, with these fields.
fn became(alloc: Global, invariants: &[Formula], exit: &Exit, fields: &[Vec<i64>]) -> Outcome
    ensures { result ≡ outcome_of (terms_of invariants.now) (exit_view exit.now) (rows_of fields.now) }
{
    if undoes(exit) {
        return Outcome::Undone;
    }
    match first_false(alloc, invariants, fields) {
        Some(place) => Outcome::Broke(place),
        None => Outcome::Kept,
    }
}

impl Player {
    /// Begins with these fields.
    pub fn new(alloc: Global, fields: &[Vec<i64>]) -> Result<Player, AllocError>
        ensures fields { IfOk result (λ p. rows_of p.fields.items ≡ rows_of fields.now) }
        ensures same { IfOk result (λ p. rows_of p.turn.fields.items ≡ rows_of fields.now) }
    {
        Ok(Player {
            turn: TurnState {
                frame: Frame::new(alloc),
                fields: copy_of(alloc, fields)?,
                effects: Vec::new(alloc),
                room: 0,
            },
            saved: SavedRows::new(alloc),
            fields: copy_of(alloc, fields)?,
        })
    }

    /// Plays a turn of a journal: what it did. The fields are then those after it. Out of memory, they mean nothing.
    pub fn play(
        &mut self,
        alloc: Global,
        script: &Script,
        found: OwnedRecord,
    ) -> Result<TurnValues, AllocError>
        requires { rows_of self.old.turn.fields.items ≡ rows_of self.old.fields.items }
        ensures values { IfOk result (λ v. values_view v ≡ turn_values script.now (rows_of self.old.fields.items) (owned_view found)) }
        ensures fields { OnOk result (rows_of self.new.fields.items ≡ fields_after script.now (rows_of self.old.fields.items) (owned_view found)) }
        ensures same { OnOk result (rows_of self.new.turn.fields.items ≡ rows_of self.new.fields.items) }
    {
        let invariants = invariants_of(script, found.frame.method);
        let exit = play(alloc, script, &mut self.turn, &mut self.saved, found)?;
        let mut changes = Vec::new(alloc);
        add_differences(&mut changes, &self.saved, &self.fields, &self.turn.fields)?;
        let outcome = became(alloc, invariants, &exit, &self.turn.fields);
        self.settle(outcome)?;
        Ok(TurnValues { outcome, changes })
    }

    // Keeps the fields that a turn has left, or puts those back from before it.
    fn settle(&mut self, outcome: Outcome) -> Result<(), AllocError>
        requires { restored self.old.saved (rows_of self.old.turn.fields.items) ≡ rows_of self.old.fields.items }
        ensures fields { OnOk result (rows_of self.new.fields.items ≡ fields_of outcome (rows_of self.old.fields.items) (rows_of self.old.turn.fields.items)) }
        ensures same { OnOk result (rows_of self.new.turn.fields.items ≡ rows_of self.new.fields.items) }
    {
        match outcome {
            Outcome::Kept => follow(&mut self.fields, &self.saved, &self.turn.fields),
            Outcome::Undone | Outcome::Broke(_) => {
                self.saved.put_back(&mut self.turn.fields);
                Ok(())
            }
        }
    }
}

/// A copy of fields.
pub(crate) fn copy_of(alloc: Global, rows: &[Vec<i64>]) -> Result<Vec<Vec<i64>>, AllocError>
    ensures { IfOk result (λ copy. rows_of copy.items ≡ rows_of rows.now) }
{
    let mut copy = Vec::with_capacity(alloc, rows.len())?;
    for row in rows {
        copy.push(Vec::from_slice(alloc, row)?)?;
    }
    Ok(copy)
}
