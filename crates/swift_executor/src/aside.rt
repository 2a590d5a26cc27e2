//! Turns that were played and journalled, and that no book has taken yet.

ghost use Rattle.std.specs.Prelude.{◌≡◌, ◌≤◌, ◌-◌, ◌∷◌, [], true, false, None, ℕ, All, length, take, drop};
ghost use Rattle.swift_turn.specs.Body.{IsRunning};
ghost use Rattle.swift_executor.specs.AsideInside.{IsFree, IsShuffled, IsWritten, PlayAside, SetsAside, WasAside};
ghost use Rattle.swift_executor.specs.PlayingInside.{HasJob, StageIsPlayed};
ghost use Rattle.swift_executor.specs.State.{ExecStateView, HasChosen, IsPlayed};

use crate::chosen::{Chosen, PlayedTurn};
use crate::playing::write_record;
use crate::ready::ReadyJobs;
use crate::state::ExecState;
use std::alloc::Global;
use std::mem;
use std::snapshot::Snapshot;
use swift_history::laws::{invariants_stay, lawful_grows};
use swift_interpreter::{Effect, Exit, Frame, SavedRows};
use swift_journal::Journal;
use swift_turn::Body;
use swift_types::limits::FOLD;

/// A turn that was played and journalled, and that the book has not taken yet. Its buffers are kept from turn to turn.
pub struct Aside {
    /// Its job; none where no turn is aside, and then the rest means nothing.
    pub chosen: Chosen,
    /// The frame as it was before the turn.
    pub frame: Frame,
    pub effects: Vec<Effect>,
    pub exit: Exit,
    /// The rows of fields that the turn has set, as they were.
    pub saved: SavedRows,
    /// The journal, whose newest record is that of the turn.
    pub written: Snapshot<Journal>,
}

impl Drop for Aside {
    fn drop(self) {
        let Aside {
            chosen,
            frame,
            effects,
            exit,
            saved,
            written,
        } = self;
        let Chosen {
            job,
            arrival: _,
            stage: _,
        } = chosen;
        match job {
            Some(job) => {
                let (_task, _number, _resume, body) = job.spend();
                drop(body);
            }
            None => {}
        }
        drop(frame);
        drop(effects);
        drop(exit);
        drop(saved);
        drop(written);
    }
}

impl Aside {
    /// Room for a turn. It takes no memory.
    pub fn none(alloc: Global) -> Aside
        ensures { result.chosen.job ≡ None }
    {
        let journal = Journal::new(alloc);
        Aside {
            chosen: Chosen::none(),
            frame: Frame::new(alloc),
            effects: Vec::new(alloc),
            exit: Exit::Yield,
            saved: SavedRows::new(alloc),
            written: Snapshot::of(&journal),
        }
    }
}

// Writes the record of a turn that was played, where no other job of its task waits behind and the journal would not be full. Else, and out
// of memory, the journal is as before.
fn write_aside(
    journal: &mut Journal,
    ready: &ReadyJobs<Body>,
    chosen: &Chosen,
    played: &PlayedTurn,
) -> bool
    requires job { HasJob chosen.now.job (λ j. IsRunning j.body) }
    requires played { StageIsPlayed chosen.now.stage }
    ensures yes { result ≡ true → HasJob chosen.now.job (IsWritten ready.now.behind played.now chosen.now.stage journal.old journal.new) }
    ensures no { result ≡ false → journal.new ≡ journal.old }
{
    let Some(job) = &chosen.job else {
        unreachable!()
    };
    if journal.len() + 1 >= FOLD || ready.is_behind(job.task()) {
        return false;
    }
    match write_record(journal, job, chosen.stage, played) {
        Ok(()) => true,
        Err(_) => false,
    }
}

// The chosen job with what its turn has left, and what is aside, each in the place of the other. The fields stay.
fn swap_turn(chosen: &mut Chosen, played: &mut PlayedTurn, aside: &mut Aside)
    ensures chosen { chosen.new ≡ aside.old.chosen }
    ensures played { played.new ≡ record played.old { frame = aside.old.frame; effects = aside.old.effects; exit = aside.old.exit } }
    ensures aside { aside.new ≡ record aside.old { chosen = chosen.old; frame = played.old.frame; effects = played.old.effects; exit = played.old.exit } }
{
    mem::swap(chosen, &mut aside.chosen);
    mem::swap(&mut played.frame, &mut aside.frame);
    mem::swap(&mut played.effects, &mut aside.effects);
    mem::swap(&mut played.exit, &mut aside.exit);
}

impl ExecState {
    // Sets the turn aside that was played, where none is: its record is the newest of the journal. Not where another job of its task waits
    // behind, where the journal would be full, or where there is no memory; then nothing has changed.
    pub(crate) fn set_aside(&mut self, aside: &mut Aside) -> bool
        requires played { HasChosen self.old (λ c. IsPlayed c.stage) }
        requires free { IsFree aside.old }
        ensures yes { result ≡ true → SetsAside self.old self.new aside.new }
        ensures no { result ≡ false → self.new ≡ self.old }
        ensures free { result ≡ false → IsFree aside.new }
    {
        if !write_aside(&mut self.journal, &self.ready, &self.chosen, &self.played) {
            return false;
        }
        lawful_grows();
        invariants_stay();
        aside.written = Snapshot::of(&self.journal);
        swap_turn(&mut self.chosen, &mut self.played, aside);
        self.played.fields.set_aside(&mut aside.saved);
        true
    }

    // Takes a turn back that is aside, the newest one: it was played, and its record is gone.
    pub(crate) fn bring_back(&mut self, aside: &mut Aside)
        requires { (s : ExecStateView) × WasAside s aside.old self.old }
        ensures state { (s : ExecStateView) → WasAside s aside.old self.old → IsShuffled s self.new }
        ensures free { IsFree aside.new }
    {
        self.journal.retract();
        swap_turn(&mut self.chosen, &mut self.played, aside);
        self.played.fields.bring_back(&mut aside.saved);
    }

    // A turn that is aside, the newest one, was played in vain: its job is ready again.
    pub(crate) fn undo(&mut self, aside: &mut Aside)
        requires { (worker : ℕ) × (s : ExecStateView) × PlayAside worker s (aside.old ∷ []) self.old }
        ensures state { (worker : ℕ) (s : ExecStateView) → PlayAside worker s (aside.old ∷ []) self.old → IsShuffled s self.new }
        ensures free { IsFree aside.new }
    {
        self.bring_back(aside);
        self.put_back();
        self.facts();
    }

    // The turns that are aside in places `from` to `many` were played in vain: their jobs are ready again.
    pub(crate) fn undo_from(&mut self, asides: &mut [Aside], from: usize, many: usize)
        requires places { from ≤ many }
        requires within { many ≤ length asides.old }
        requires aside { (worker : ℕ) × (s : ExecStateView) × PlayAside worker s (take (many - from) (drop from asides.old)) self.old }
        ensures state { (worker : ℕ) (s : ExecStateView) → PlayAside worker s (take (many - from) (drop from asides.old)) self.old → IsShuffled s self.new }
        ensures before { take from asides.new ≡ take from asides.old }
        ensures free { All IsFree (drop many asides.old) → All IsFree (drop from asides.new) }
        ensures len { length asides.new ≡ length asides.old }
    {
        for done in 0..many - from {
            self.undo(&mut asides[many - 1 - done]);
        }
    }
}
