//! A run that is followed along its log.

ghost use Rattle.std.specs.Prelude.{◌≡◌, ◌<◌, IfOk, IsTrue, length, map, replicate};
ghost use Rattle.std.specs.Arc.{arc_value};
ghost use Rattle.script_code.specs.Seen.{rows_of};
ghost use Rattle.swift_certificate.specs.Reports.{report_view};
ghost use Rattle.swift_certificate.specs.ReplayInside.{IsReplay, at_the_start};
ghost use Rattle.swift_steps.specs.OpenHistories.{RunsAt};

use crate::playing::{ExecutorProgress, FoldedTurn, fold, is_next};
use std::alloc::{AllocError, Global};
use std::sync::Arc;
use swift_events::Event;
use swift_journal::{Checkpoint, Journal};
use swift_report::Report;
use swift_script::Script;
use swift_steps::{OpenHistory, copy_fields, take};
use swift_types::TaskId;

/// A history that is led along the log of a report, and what was followed of that so far. Each call of it answers whether the
/// report goes on as a run can. Where it does not, or where a growth was refused, what is left of the replay means nothing.
pub struct Replay {
    pub history: OpenHistory,
    // By the number of the executor.
    pub rows: Vec<ExecutorProgress>,
    // It has no turns: turns are written in its room.
    pub scratch: Journal,
}

// The fields of each checkpoint.
fn checkpoint_fields(
    alloc: Global,
    checkpoints: &[Checkpoint],
) -> Result<Vec<Vec<Vec<i64>>>, AllocError>
    ensures { IfOk result (λ fields. map (λ rows. rows_of rows.items) fields.items ≡ map (λ c. c.view.fields) checkpoints.now) }
{
    let mut fields = Vec::with_capacity(alloc, checkpoints.len())?;
    for checkpoint in checkpoints {
        fields.push(copy_fields(alloc, checkpoint.fields())?)?;
    }
    Ok(fields)
}

// No turn of any executor was followed.
fn first_places(alloc: Global, executors: usize) -> Result<Vec<ExecutorProgress>, AllocError>
    ensures { IfOk result (λ rows. rows.items ≡ replicate executors at_the_start) }
{
    let mut rows = Vec::with_capacity(alloc, executors)?;
    'fill: while rows.len() < executors {
        rows.push_reserved(ExecutorProgress {
            folded: 0,
            played: 0,
        });
    }
    Ok(rows)
}

impl Replay {
    /// Nothing of a report was followed.
    pub fn new(alloc: Global, script: &Arc<Script>, report: &Report) -> Result<Replay, AllocError>
        ensures script { IfOk result (λ replay. arc_value replay.history.script ≡ arc_value script.now) }
        ensures first { IfOk result (λ replay. IsReplay (report_view report.now) replay) }
    {
        let fields = checkpoint_fields(alloc, &report.checkpoints)?;
        let rows = first_places(alloc, report.checkpoints.len())?;
        Ok(Replay {
            history: OpenHistory::new(alloc, script, fields)?,
            rows,
            scratch: Journal::new(alloc),
        })
    }

    // A turn is taken from a checkpoint, where no turn of the journal was played before.
    fn fold_turn(&mut self, report: &Report, place: usize, task: TaskId) -> Result<bool, AllocError>
        requires replay { IsReplay (report_view report.now) self.old }
        requires runs { RunsAt (arc_value self.old.history.script) self.old.history.tasks.items task place }
        requires place { place < length self.old.rows.items }
        requires there { place < length report.now.checkpoints.items }
        ensures script { self.new.history.script ≡ self.old.history.script }
        ensures follows { IfOk result (λ goes_on. IsTrue goes_on → IsReplay (report_view report.now) self.new) }
    {
        let Some(_env) = self.history.book.begun(task) else {
            return Ok(false);
        };
        let Some(ready) = take(&mut self.history.tasks, task) else {
            return Ok(false);
        };
        let row = &mut self.rows[place];
        if row.played != 0 {
            return Ok(false);
        }
        let folded = fold(
            self.history.alloc,
            row,
            &report.checkpoints[place],
            task,
            ready,
        )?;
        let Some(
            FoldedTurn {
                ready,
                exit,
                effects,
            },
        ) = folded
        else {
            return Ok(false);
        };
        self.history.apply(task, ready, &exit, effects)
    }

    // A turn is played again, and compared with the next one of the journal.
    fn journal_turn(
        &mut self,
        report: &Report,
        place: usize,
        task: TaskId,
    ) -> Result<bool, AllocError>
        requires replay { IsReplay (report_view report.now) self.old }
        requires place { place < length self.old.rows.items }
        requires journal { place < length report.now.journals.items }
        ensures script { self.new.history.script ≡ self.old.history.script }
        ensures follows { IfOk result (λ goes_on. IsTrue goes_on → IsReplay (report_view report.now) self.new) }
    {
        let Some(frame) = self.history.frame(task)? else {
            return Ok(false);
        };
        let Some(turn) = self.history.play(task)? else {
            return Ok(false);
        };
        if turn.place != place {
            return Ok(false);
        }
        let row = &mut self.rows[place];
        let journal = &report.journals[place];
        if !is_next(row, journal, &mut self.scratch, &turn, &frame)? {
            return Ok(false);
        }
        self.history.apply_played(turn)
    }

    // A turn of a task runs on the executor of its actor: a folded one first.
    fn turn(&mut self, report: &Report, task: TaskId) -> Result<bool, AllocError>
        requires { IsReplay (report_view report.now) self.old }
        ensures script { self.new.history.script ≡ self.old.history.script }
        ensures follows { IfOk result (λ goes_on. IsTrue goes_on → IsReplay (report_view report.now) self.new) }
    {
        let Some(place) = self.history.executor_of(task) else {
            return Ok(false);
        };
        if place >= self.rows.len()
            || place >= report.checkpoints.len()
            || place >= report.journals.len()
        {
            return Ok(false);
        }
        if self.rows[place].folded < report.checkpoints[place].len() {
            self.fold_turn(report, place, task)
        } else {
            self.journal_turn(report, place, task)
        }
    }

    /// The block that an event begins is followed.
    pub fn step(&mut self, report: &Report, event: Event) -> Result<bool, AllocError>
        requires { IsReplay (report_view report.now) self.old }
        ensures script { self.new.history.script ≡ self.old.history.script }
        ensures follows { IfOk result (λ goes_on. IsTrue goes_on → IsReplay (report_view report.now) self.new) }
    {
        match event {
            Event::Root(_, _) => self.history.add_root(),
            Event::Begin { task, .. } => self.history.begin(task),
            Event::Apply(task, _) => self.turn(report, task),
            _ => Ok(false),
        }
    }

    /// Gives the replay up.
    pub fn close(self) {
        let Replay {
            history,
            rows: _,
            scratch: _,
        } = self;
        history.close();
    }
}
