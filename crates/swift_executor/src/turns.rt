//! How the turn of the chosen job is played.

ghost use Rattle.std.specs.Prelude.{◌≡◌, OnOk, OnErr, IfOk, IfErr};
ghost use Rattle.futures.specs.Task.{Keeps};
ghost use Rattle.swift_turn.specs.Body.{IsRunning};
ghost use Rattle.swift_executor.specs.PlayingInside.{HasFoldRoom, HasJob, KeepsJob, MaySpare, PlaysJob, StageIsBegun, StageIsPlayed, WritesRecord};
ghost use Rattle.swift_executor.specs.State.{HasChosen, IsBegun, Plays, PutsBack};

use crate::chosen::{Chosen, ChosenStage, PlayedTurn, take_out};
use crate::fault::ExecFault;
use crate::playing::{as_chosen, play_job, room_to_fold, write_record};
use crate::state::ExecState;
use futures::task::Context;
use std::alloc::{AllocError, Global};
use swift_history::laws::invariants_stay;
use swift_journal::{Checkpoint, Journal};
use swift_undo::InvariantRows;

// Writes the record of a turn that was played, and makes room for folding the journal where it is then full. Out of
// memory the journal and the checkpoint are as before.
pub(crate) fn prepare(
    alloc: Global,
    journal: &mut Journal,
    checkpoint: &mut Checkpoint,
    chosen: &Chosen,
    played: &PlayedTurn,
) -> Result<Option<Vec<Vec<i64>>>, AllocError>
    requires job { HasJob chosen.now.job (λ j. IsRunning j.body) }
    requires played { StageIsPlayed chosen.now.stage }
    ensures written { OnOk result (HasJob chosen.now.job (λ j. WritesRecord played.now chosen.now.stage j journal.old journal.new)) }
    ensures room { IfOk result (λ copy. HasFoldRoom copy checkpoint.new journal.new played.now.fields.after) }
    ensures same { checkpoint.new.view ≡ checkpoint.old.view }
    ensures err { OnErr result (journal.new ≡ journal.old) }
{
    let Some(job) = &chosen.job else {
        unreachable!()
    };
    write_record(journal, job, chosen.stage, played)?;
    match room_to_fold(alloc, journal, checkpoint, played.fields.after()) {
        Ok(copy) => Ok(copy),
        Err(fault) => {
            journal.retract();
            Err(fault)
        }
    }
}

// Plays the turn of a job that has begun, on the fields that `played` has, of which all invariants hold. Out of memory the job has had
// none.
fn play_chosen(
    chosen: &mut Chosen,
    cx: &mut Context<'_>,
    rows: &InvariantRows,
    played: &mut PlayedTurn,
) -> Result<(), AllocError>
    requires job { HasJob chosen.old.job (λ j. IsRunning j.body × MaySpare rows.now played.old.fields.before j.body) }
    requires begun { StageIsBegun chosen.old.stage }
    ensures ok { OnOk result (HasJob chosen.old.job (PlaysJob played.old.fields.before chosen.old chosen.new played.new)) }
    ensures err { OnErr result (HasJob chosen.old.job (KeepsJob chosen.old chosen.new)) }
    ensures same { played.new.fields.before ≡ played.old.fields.before }
    ensures kept { Keeps cx.old cx.new }
{
    let ChosenStage::Begun(worker, env) = chosen.stage else {
        unreachable!()
    };
    play_job(&mut chosen.job, cx, rows, env, played)?;
    chosen.stage = ChosenStage::Played(worker, env);
    Ok(())
}

impl ExecState {
    // The chosen job is ready again.
    pub(crate) fn put_back(&mut self)
        requires { HasChosen self.old (λ _. Unit {0}) }
        ensures { HasChosen self.old (PutsBack self.old self.new) }
    {
        let job = take_out(&mut self.chosen.job);
        let job = as_chosen(self.alloc, job, self.chosen.stage, &mut self.played);
        self.ready.restore(job, self.chosen.arrival);
    }

    /// Plays the turn that has begun (SE-0306), and keeps what it gave beside the fields that it has found. In time by its steps and by
    /// the rows of fields that it sets; for each invariant of the executor's actors whose row it does not set it takes a look at those
    /// rows. The only refusal is `Memory`; the job is then ready again, with the number of its arrival.
    pub fn play(&mut self, cx: &mut Context<'_>) -> Result<(), ExecFault>
        requires { HasChosen self.old (λ c. IsBegun c.stage) }
        ensures ok { OnOk result (HasChosen self.old (Plays self.old self.new)) }
        ensures back { OnErr result (HasChosen self.old (PutsBack self.old self.new)) }
        ensures refused { IfErr result (λ fault. fault ≡ ExecFault.Memory) }
        ensures kept { Keeps cx.old cx.new }
    {
        self.home.script().facts();
        invariants_stay();
        let Ok(()) = play_chosen(&mut self.chosen, cx, self.home.rows(), &mut self.played) else {
            self.put_back();
            return Err(ExecFault::Memory);
        };
        Ok(())
    }
}
