//! The fields of an executor's actors.

ghost use Rattle.std.specs.Prelude.{◌≡◌, ◌<◌, [], IfOk, OnErr, OnOk, get_or, length};
ghost use Rattle.futures.specs.Task.{Keeps};
ghost use Rattle.script_code.specs.Seen.{rows_of};
ghost use Rattle.swift_interpreter.specs.Frames.{effect_views, frame_view};
ghost use Rattle.swift_interpreter.specs.Saved.{restored};
ghost use Rattle.swift_interpreter.specs.TurnStates.{exit_view};
ghost use Rattle.swift_script.specs.Scripts.{method_count};
ghost use Rattle.swift_turn.specs.Body.{IfRunning, IsRunning, Polls, at_rest, entered, idle, left};
ghost use Rattle.swift_executor.specs.PlayingInside.{MaySpare};

use futures::task::Context;
use std::alloc::{AllocError, Global};
use std::marker::Model;
use std::mem;
use swift_interpreter::{Effect, Exit, Frame, SavedRows};
use swift_turn::{Body, play_turn_from};
use swift_types::{Env, Resume};
use swift_undo::InvariantRows;

/// The fields of an executor's actors, a list for each: as the turn that was played last has left them, and as they were before it.
/// Only the rows that it has set are there twice.
pub struct Fields {
    rows: Vec<Vec<i64>>,
    // The rows that the turn has set, as they were.
    saved: SavedRows,
}

// By hand, so that it is not taken apart in each proof of a function that drops one.
impl Drop for Fields {
    fn drop(self) {
        let Fields { rows, saved } = self;
        drop(rows);
        drop(saved);
    }
}

impl Model for Fields {
    ghost use Rattle.script_code.specs.Seen.{rows_of};
    ghost use Rattle.swift_interpreter.specs.Saved.{restored};
    ghost use Rattle.swift_executor.specs.FieldsInside.{FieldsAre};

    ghost Value = { FieldsAre };

    ghost view = { λ f. record { before = restored f.saved (rows_of f.rows.items); after = rows_of f.rows.items } };
}

impl Fields {
    /// These rows, where no turn was played. It takes no memory.
    pub fn new(alloc: Global, rows: Vec<Vec<i64>>) -> Self
        ensures { result ≡ record { before = rows_of rows.items; after = rows_of rows.items } }
    {
        Fields {
            rows,
            saved: SavedRows::new(alloc),
        }
    }

    /// As the turn has left them.
    pub fn after(&self) -> &[Vec<i64>]
        ensures { rows_of result.now ≡ self.now.after }
    {
        &self.rows
    }

    /// How many lists there are.
    pub fn len(&self) -> usize
        ensures { result ≡ length self.now.before }
    {
        self.rows.len()
    }

    /// The list in a place, as it was before the turn. In time by the rows that the turn has set.
    pub fn before(&self, place: usize) -> &[i64]
        requires { place < length self.now.before }
        ensures { result.now ≡ get_or self.now.before place [] }
    {
        self.saved.row_before(place, &self.rows[place])
    }

    /// They stay as the turn has left them.
    pub fn keep(&mut self)
        ensures { self.new ≡ record { before = self.old.after; after = self.old.after } }
    {
        self.saved.clear();
    }

    /// They stay as the turn has left them. The rows that it has set go aside, as they were.
    pub fn set_aside(&mut self, saved: &mut SavedRows)
        ensures fields { self.new ≡ record { before = self.old.after; after = self.old.after } }
        ensures back { restored saved.new self.old.after ≡ self.old.before }
    {
        mem::swap(&mut self.saved, saved);
        self.keep();
    }

    /// The rows that a turn has set come back from aside, where all later turns were taken back. One of these that was played last is put
    /// back first. In time by the rows that that one has set.
    pub fn bring_back(&mut self, saved: &mut SavedRows)
        ensures { self.new ≡ record { before = restored saved.old self.old.before; after = self.old.before } }
    {
        self.saved.put_back(&mut self.rows);
        mem::swap(saved, &mut self.saved);
    }

    /// As they were before the turn.
    pub fn into_rows(self) -> Vec<Vec<i64>>
        ensures { rows_of result.items ≡ self.before }
    {
        let Fields {
            mut rows,
            mut saved,
        } = self;
        saved.put_back(&mut rows);
        rows
    }

    /// Plays a turn of a body in place, where all invariants hold before it; a turn that was played and not kept is put back first.
    /// `rows` has the row that each invariant reads. Without memory for the turn it has set nothing.
    pub fn play(
        &mut self,
        body: &mut Body,
        cx: &mut Context<'_>,
        rows: &InvariantRows,
        resume: Resume,
        env: Env,
        before: &mut Frame,
        effects: &mut Vec<Effect>,
    ) -> Result<Exit, AllocError>
        requires running { IsRunning body.old }
        requires spared { MaySpare rows.now self.old.before body.old }
        ensures turn { IfOk result (λ exit. Polls body.old.script body.old.task.outer body.old.task.frames (entered self.old.before resume env)
            body.new.task.frames (left self.new.after (effect_views effects.new.items) (exit_view exit))) }
        ensures same { self.new.before ≡ self.old.before }
        ensures before { OnOk result (IfRunning body.old.task.frames (λ p. p ≡ frame_view before.new)) }
        ensures method { OnOk result (before.new.method.0 < method_count body.old.script) }
        ensures rest { OnOk result (body.new ≡ record body.old { task = record body.old.task { frames = body.new.task.frames }; phase = idle; waker = body.new.waker }) }
        ensures err { OnErr result (body.new ≡ at_rest body.old) }
        ensures kept { Keeps cx.old cx.new }
    {
        let fields = &mut self.rows;
        self.saved.put_back(fields);
        play_turn_from(
            body,
            cx,
            rows,
            fields,
            &mut self.saved,
            resume,
            env,
            before,
            effects,
        )
    }
}
