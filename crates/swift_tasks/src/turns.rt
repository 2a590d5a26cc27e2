//! The end of a turn.

ghost use Rattle.std.specs.Prelude.{◌≡◌, ◌+◌, ◌-◌, ◌<◌, ◌≤◌, ◌^◌, [], ◌∷◌, ◌++◌, List, Option, Some, None, OnOk, IfErr, take, drop, length, map, replicate, vec_len, vec_capacity};
ghost use Rattle.std.specs.List.{AllByRecursion};
ghost use Rattle.swift_script.specs.Scripts.{ScriptView, root_count};
ghost use Rattle.swift_interpreter.specs.Turn.{EffectView, ExitView};
ghost use Rattle.swift_interpreter.specs.Frames.{effect_views};
ghost use Rattle.swift_interpreter.specs.TurnStates.{exit_view};
ghost use Rattle.swift_turn.specs.Body.{BodyView, IsRunning, GoesOn, at_rest};
ghost use Rattle.swift_ledger.specs.Ledgers.{IsMade};
ghost use Rattle.swift_events.specs.Lives.{life_of};
ghost use Rattle.swift_events.specs.Relations.{waiters_of};
ghost use Rattle.swift_history.specs.Histories.{begun_priority};
ghost use Rattle.swift_history.specs.TurnEnds.{log_after, jobs_made, exit_resume, followed, gives};
ghost use Rattle.swift_tasks.specs.ApplyingInside.{CanTakeAll, CanLeave, AreMade, TurnFits, TurnLeaves, JobFits, BookEnds, done_log, written_log, follows_of, followed_from, next_of, went_on};
ghost use Rattle.swift_tasks.specs.BodiesInside.{AreBodiesOf};
ghost use Rattle.swift_tasks.specs.BookInvariant.{FitsScript, held_views};
ghost use Rattle.swift_tasks.specs.Books.{IsJobOf, HoldsWaiting, IsEndOf};
ghost use Rattle.swift_history.specs.Jobs.{job_facts};
ghost use Rattle.swift_tasks.specs.CountedInside.{UnopenedAreNotClosed};

use crate::effects::note_effect;
use crate::exits::{note_exit, resume_at};
use crate::held::WaitingTask;
use crate::waking::follow;
use std::alloc::AllocError;
use swift_events::{Event, JobStage};
use swift_interpreter::{Effect, Exit};
use swift_job::Job;
use swift_ledger::Ledger;
use swift_turn::{Body, Step};
use swift_types::{Priority, Resume, TaskId};

// The priority of a task in the turn that it has begun.
fn begun_priority(stage: Option<JobStage>) -> Priority
    ensures { result ≡ begun_priority stage }
{
    match stage {
        Some(JobStage::Begun(env)) => env.priority,
        _ => Priority::Background,
    }
}

// A turn is applied: the room that was reserved for it is free, and what fits it still does.
fn note_apply(ledger: &mut Ledger, task: TaskId, number: u32)
    requires mine { IsMade ledger.old.log task }
    requires spare { 0 < ledger.old.spare }
    ensures roots { ledger.new.roots ≡ ledger.old.roots }
    ensures log { ledger.new.log ≡ ledger.old.log ++ Event.Apply task number ∷ [] }
    ensures spare { ledger.new.spare + 1 ≡ ledger.old.spare }
    ensures mine { IsMade ledger.new.log task }
    ensures take { (script : ScriptView) (es : List EffectView) (bodies : List (Option BodyView)) (exit : ExitView) → TurnFits script ledger.old.roots ledger.old.log task.0 es bodies exit → CanTakeAll ledger.new.roots task.0 ledger.new.log es bodies exit }
{
    let _limit = ledger.tasks();
    ledger.note_apply(task, number);
}

// The effects of a turn are written in order, and the first jobs of the tasks that they make are made of their bodies.
fn note_effects(
    ledger: &mut Ledger,
    jobs: &mut Vec<Job<Body>>,
    task: TaskId,
    own: Priority,
    effects: &[Effect],
    bodies: Vec<Option<Body>>,
)
    requires mine { IsMade ledger.old.log task }
    requires take { (exit : ExitView) × CanTakeAll ledger.old.roots task.0 ledger.old.log (effect_views effects.now) bodies.items exit }
    requires spare { length effects.now ≤ ledger.old.spare }
    requires room { vec_len jobs.old + length effects.now ≤ vec_capacity jobs.old }
    ensures roots { ledger.new.roots ≡ ledger.old.roots }
    ensures log { ledger.new.log ≡ log_after ledger.old.roots task.0 own ledger.old.log (effect_views effects.now) }
    ensures mine { IsMade ledger.new.log task }
    ensures leave { (exit : ExitView) → CanTakeAll ledger.old.roots task.0 ledger.old.log (effect_views effects.now) bodies.items exit → CanLeave task.0 ledger.new.log exit }
    ensures spare { ledger.old.spare ≤ ledger.new.spare + length effects.now }
    ensures jobs { (script : ScriptView) → AreBodiesOf script (effect_views effects.now) bodies.items → root_count script ≡ ledger.old.roots
        → map job_facts jobs.new.items ≡ map job_facts jobs.old.items ++ jobs_made script task.0 own ledger.old.log (effect_views effects.now) }
    ensures bodies { (script : ScriptView) → AreBodiesOf script (effect_views effects.now) bodies.items → AllByRecursion (IsJobOf script) jobs.old.items → AllByRecursion (IsJobOf script) jobs.new.items }
    ensures few { vec_len jobs.new ≤ vec_len jobs.old + length effects.now }
    ensures capacity { vec_capacity jobs.new ≡ vec_capacity jobs.old }
{
    if effects.is_empty() {
        return;
    }
    let mut bodies = bodies;
    bodies.reverse();
    for effect in effects {
        let Some(body) = bodies.pop() else {
            unreachable!()
        };
        note_effect(ledger, jobs, task, own, effect, body);
    }
}

// The jobs that were made are written.
fn note_gives(ledger: &mut Ledger, jobs: &[Job<Body>])
    requires made { AreMade ledger.old.log (map job_facts jobs.now) }
    requires spare { length jobs.now ≤ ledger.old.spare }
    ensures roots { ledger.new.roots ≡ ledger.old.roots }
    ensures log { ledger.new.log ≡ ledger.old.log ++ gives (map job_facts jobs.now) }
{
    for job in jobs {
        ledger.note_give(job.task(), job.number(), job.resume());
    }
}

// A place for each of `tasks` more tasks, of which none waits.
fn grow_held(held: &mut Vec<Option<WaitingTask>>, tasks: usize)
    requires room { vec_len held.old + tasks ≤ vec_capacity held.old }
    ensures held { held.new.items ≡ held.old.items ++ replicate tasks None }
    ensures capacity { vec_capacity held.new ≡ vec_capacity held.old }
{
    let mut left = tasks;
    'grow: while left > 0 {
        held.push_reserved(None);
        left -= 1;
    }
}

// Makes the memory that the end of a turn takes: for events, for tasks that it makes, and for the jobs that follow. Out of
// memory nothing has changed.
pub fn make_room(
    ledger: &mut Ledger,
    held: &mut Vec<Option<WaitingTask>>,
    spare: &mut Vec<Job<Body>>,
    jobs: &mut Vec<Job<Body>>,
    task: TaskId,
    effects: usize,
) -> Result<(), AllocError>
    requires empty { spare.old.items ≡ [] }
    ensures ledger { ledger.new ≡ record ledger.old { spare = ledger.new.spare } }
    ensures held { held.new.items ≡ held.old.items }
    ensures spare { spare.new.items ≡ [] }
    ensures jobs { jobs.new.items ≡ jobs.old.items }
    ensures log_room { OnOk result (effects + effects + length (waiters_of task.0 ledger.old.log) + 5 ≤ ledger.new.spare) }
    ensures held_room { OnOk result (vec_len held.old + effects ≤ vec_capacity held.new) }
    ensures spare_room { OnOk result (vec_len held.old + effects ≤ vec_capacity spare.new) }
    ensures jobs_room { OnOk result (vec_len jobs.old + effects + length (waiters_of task.0 ledger.old.log) + 2 ≤ vec_capacity jobs.new) }
    ensures kept { vec_capacity spare.old ≤ vec_capacity spare.new }
{
    let most = effects
        .saturating_add(ledger.waiter_count(task))
        .saturating_add(2);
    jobs.reserve(most)?;
    spare.reserve(held.len().saturating_add(effects))?;
    held.reserve(effects)?;
    ledger.reserve(most.saturating_add(effects).saturating_add(3))
}

// The jobs from this one on were made: they are written.
fn note_gives_from(ledger: &mut Ledger, jobs: &Vec<Job<Body>>, first: usize)
    requires there { first ≤ vec_len jobs.now }
    requires made { AreMade ledger.old.log (map job_facts (drop first jobs.now.items)) }
    requires spare { vec_len jobs.now - first ≤ ledger.old.spare }
    ensures roots { ledger.new.roots ≡ ledger.old.roots }
    ensures log { ledger.new.log ≡ ledger.old.log ++ gives (map job_facts (drop first jobs.now.items)) }
{
    note_gives(ledger, &jobs[first..]);
}

// What follows from a turn, as `follow` has it.
fn follow_in(
    ledger: &Ledger,
    held: &mut Vec<Option<WaitingTask>>,
    jobs: &mut Vec<Job<Body>>,
    task: TaskId,
    number: u32,
    body: Body,
    resume: Option<Resume>,
    step: Step,
)
    requires there { task.0 < vec_len held.old }
    requires running { GoesOn step → IsRunning body }
    requires goes { (next : Resume) → resume ≡ Some next → GoesOn step }
    requires room { vec_len jobs.old + length (waiters_of task.0 ledger.now.log) < vec_capacity jobs.old }
    ensures follows { follows_of held.new.items jobs.new.items ≡ followed task.0 number body.task resume step ledger.now.log (follows_of held.old.items jobs.old.items) }
    ensures bodies { (script : ScriptView) → body.script ≡ script → AllByRecursion (FitsScript script) held.old.items
        → AllByRecursion (FitsScript script) held.new.items × (AllByRecursion (IsJobOf script) jobs.old.items → AllByRecursion (IsJobOf script) jobs.new.items) }
    ensures few { vec_len jobs.new ≤ vec_len jobs.old + length (waiters_of task.0 ledger.now.log) + 1 }
    ensures long { vec_len held.new ≡ vec_len held.old }
{
    follow(ledger, held, jobs, task, number, body, resume, step);
}

// A turn was written, with the jobs from this one on for the tasks that it makes: the task goes on, has ended or waits, and all
// jobs that were made are written.
fn finish(
    ledger: &mut Ledger,
    held: &mut Vec<Option<WaitingTask>>,
    jobs: &mut Vec<Job<Body>>,
    first: usize,
    task: TaskId,
    number: u32,
    body: Body,
    resume: Option<Resume>,
    step: Step,
)
    requires there { task.0 < vec_len held.old }
    requires first { first ≤ vec_len jobs.old }
    requires running { GoesOn step → IsRunning body }
    requires goes { (next : Resume) → resume ≡ Some next → GoesOn step }
    requires held_room { vec_len held.old + (vec_len jobs.old - first) ≤ vec_capacity held.old }
    requires jobs_room { vec_len jobs.old + length (waiters_of task.0 ledger.old.log) < vec_capacity jobs.old }
    requires spare { (vec_len jobs.old - first) + length (waiters_of task.0 ledger.old.log) + 1 ≤ ledger.old.spare }
    requires made { AreMade ledger.old.log (followed_from first held.old.items jobs.old.items task.0 number body.task resume step ledger.old.log).jobs }
    ensures roots { ledger.new.roots ≡ ledger.old.roots }
    ensures log { ledger.new.log ≡ ledger.old.log ++ gives (followed_from first held.old.items jobs.old.items task.0 number body.task resume step ledger.old.log).jobs }
    ensures held { held_views held.new.items ≡ (followed_from first held.old.items jobs.old.items task.0 number body.task resume step ledger.old.log).held }
    ensures jobs { map job_facts jobs.new.items ≡ map job_facts (take first jobs.old.items) ++ (followed_from first held.old.items jobs.old.items task.0 number body.task resume step ledger.old.log).jobs }
    ensures bodies { (script : ScriptView) → body.script ≡ script → AllByRecursion (FitsScript script) held.old.items
        → AllByRecursion (FitsScript script) held.new.items × (AllByRecursion (IsJobOf script) jobs.old.items → AllByRecursion (IsJobOf script) jobs.new.items) }
    ensures long { vec_len held.new ≡ vec_len held.old + (vec_len jobs.old - first) }
{
    grow_held(held, jobs.len() - first);
    follow_in(ledger, held, jobs, task, number, body, resume, step);
    note_gives_from(ledger, jobs, first);
}

// A turn is written: that it was applied, its effects, and its exit. What the task's next turn begins with comes back.
fn note_turn(
    ledger: &mut Ledger,
    jobs: &mut Vec<Job<Body>>,
    task: TaskId,
    number: u32,
    effects: &[Effect],
    bodies: Vec<Option<Body>>,
    exit: &Exit,
    step: Step,
) -> Option<Resume>
    requires turn { (script : ScriptView) × TurnFits script ledger.old.roots ledger.old.log task.0 (effect_views effects.now) bodies.items (exit_view exit.now) }
    requires spare { length effects.now + 3 ≤ ledger.old.spare }
    requires room { vec_len jobs.old + length effects.now ≤ vec_capacity jobs.old }
    ensures roots { ledger.new.roots ≡ ledger.old.roots }
    ensures log { ledger.new.log ≡ written_log ledger.old.roots task.0 number ledger.old.log (effect_views effects.now) (exit_view exit.now) step }
    ensures resume { result ≡ exit_resume task.0 (done_log ledger.old.roots task.0 number ledger.old.log (effect_views effects.now)) (exit_view exit.now) step }
    ensures leave { CanLeave task.0 (done_log ledger.old.roots task.0 number ledger.old.log (effect_views effects.now)) (exit_view exit.now) }
    ensures spare { ledger.old.spare ≤ ledger.new.spare + length effects.now + 3 }
    ensures jobs { (script : ScriptView) → AreBodiesOf script (effect_views effects.now) bodies.items → root_count script ≡ ledger.old.roots
        → map job_facts jobs.new.items ≡ map job_facts jobs.old.items ++ jobs_made script task.0 (begun_priority (life_of task.0 ledger.old.log).stage) (ledger.old.log ++ Event.Apply task number ∷ []) (effect_views effects.now) }
    ensures bodies { (script : ScriptView) → AreBodiesOf script (effect_views effects.now) bodies.items → AllByRecursion (IsJobOf script) jobs.old.items → AllByRecursion (IsJobOf script) jobs.new.items }
    ensures few { vec_len jobs.new ≤ vec_len jobs.old + length effects.now }
    ensures capacity { vec_capacity jobs.new ≡ vec_capacity jobs.old }
{
    let own = begun_priority(ledger.life(task).stage);
    note_apply(ledger, task, number);
    note_effects(ledger, jobs, task, own, effects, bodies);
    note_exit(ledger, task, exit, step)
}

// A turn without effects was applied, and its task goes on with this: both are written, and its next job is made.
pub fn go_on(
    ledger: &mut Ledger,
    jobs: &mut Vec<Job<Body>>,
    task: TaskId,
    number: u32,
    next: Resume,
    mut body: Body,
)
    requires mine { IsMade ledger.old.log task }
    requires small { number + 1 < 2 ^ 32 }
    requires spare { 1 < ledger.old.spare }
    requires room { vec_len jobs.old < vec_capacity jobs.old }
    ensures roots { ledger.new.roots ≡ ledger.old.roots }
    ensures log { ledger.new.log ≡ went_on ledger.old.log task number next }
    ensures jobs { jobs.new.items ≡ jobs.old.items ++ next_of task number next (at_rest body) ∷ [] }
{
    let later = number + 1;
    let resume = resume_at(later, next);
    ledger.note_apply(task, number);
    ledger.note_give(task, later, resume);
    body.rest();
    jobs.push_reserved(Job::new(task, later, resume, body));
}

// What the end of a turn leaves, in memory that was made for it. Where it had no effects and its task goes on, two events are all.
fn end_turn(
    ledger: &mut Ledger,
    held: &mut Vec<Option<WaitingTask>>,
    jobs: &mut Vec<Job<Body>>,
    task: TaskId,
    number: u32,
    effects: &[Effect],
    bodies: Vec<Option<Body>>,
    exit: &Exit,
    body: Body,
    step: Step,
)
    requires turn { (script : ScriptView) × TurnLeaves script ledger.old.roots ledger.old.log (held_views held.old.items) task.0 (effect_views effects.now) bodies.items (exit_view exit.now) body step }
    requires small { number + 1 < 2 ^ 32 }
    requires log_room { length effects.now + length effects.now + length (waiters_of task.0 ledger.old.log) + 5 ≤ ledger.old.spare }
    requires held_room { vec_len held.old + length effects.now ≤ vec_capacity held.old }
    requires jobs_room { vec_len jobs.old + length effects.now + length (waiters_of task.0 ledger.old.log) + 2 ≤ vec_capacity jobs.old }
    ensures roots { ledger.new.roots ≡ ledger.old.roots }
    ensures end { (script : ScriptView) → TurnLeaves script ledger.old.roots ledger.old.log (held_views held.old.items) task.0 (effect_views effects.now) bodies.items (exit_view exit.now) body step
        → BookEnds script ledger.old.log (held_views held.old.items) (map job_facts jobs.old.items) task.0 number (effect_views effects.now) (exit_view exit.now) body step ledger.new.log (held_views held.new.items) (map job_facts jobs.new.items) }
    ensures bodies { (script : ScriptView) → TurnLeaves script ledger.old.roots ledger.old.log (held_views held.old.items) task.0 (effect_views effects.now) bodies.items (exit_view exit.now) body step
        → AllByRecursion (FitsScript script) held.old.items → AllByRecursion (FitsScript script) held.new.items × (AllByRecursion (IsJobOf script) jobs.old.items → AllByRecursion (IsJobOf script) jobs.new.items) }
    ensures kept { (script : ScriptView) → TurnLeaves script ledger.old.roots ledger.old.log (held_views held.old.items) task.0 (effect_views effects.now) bodies.items (exit_view exit.now) body step
        → HoldsWaiting ledger.old.roots ledger.new.log (held_views held.new.items) × UnopenedAreNotClosed ledger.new.log }
    ensures few { vec_len held.new ≤ vec_len held.old + length effects.now }
{
    if effects.is_empty() {
        if let Step::Run(_, next) = step {
            go_on(ledger, jobs, task, number, next, body);
            return;
        }
    }
    let first = jobs.len();
    let resume = note_turn(ledger, jobs, task, number, effects, bodies, exit, step);
    finish(
        ledger,
        held,
        jobs,
        first,
        task,
        number + 1,
        body,
        resume,
        step,
    );
}

// Follows the exit of a job's turn, which fits, and ends the turn. Where the body finds no memory, nothing has changed and the
// job comes back.
pub fn take_turn(
    ledger: &mut Ledger,
    held: &mut Vec<Option<WaitingTask>>,
    jobs: &mut Vec<Job<Body>>,
    job: Job<Body>,
    effects: &[Effect],
    bodies: Vec<Option<Body>>,
    exit: &Exit,
) -> Result<(), Job<Body>>
    requires fits { (script : ScriptView) × JobFits script ledger.old.roots ledger.old.log (held_views held.old.items) job (effect_views effects.now) bodies.items (exit_view exit.now) }
    requires small { job.number + 1 < 2 ^ 32 }
    requires log_room { length effects.now + length effects.now + length (waiters_of job.task.0 ledger.old.log) + 5 ≤ ledger.old.spare }
    requires held_room { vec_len held.old + length effects.now ≤ vec_capacity held.old }
    requires jobs_room { vec_len jobs.old + length effects.now + length (waiters_of job.task.0 ledger.old.log) + 2 ≤ vec_capacity jobs.old }
    ensures roots { ledger.new.roots ≡ ledger.old.roots }
    ensures end { OnOk result ((script : ScriptView) → JobFits script ledger.old.roots ledger.old.log (held_views held.old.items) job (effect_views effects.now) bodies.items (exit_view exit.now)
        → IsEndOf (record { script = script; log = ledger.old.log; held = held_views held.old.items }) (map job_facts jobs.old.items) job (effect_views effects.now) (exit_view exit.now) ledger.new.log (held_views held.new.items) (map job_facts jobs.new.items)) }
    ensures kept { OnOk result ((script : ScriptView) → JobFits script ledger.old.roots ledger.old.log (held_views held.old.items) job (effect_views effects.now) bodies.items (exit_view exit.now)
        → HoldsWaiting ledger.old.roots ledger.new.log (held_views held.new.items) × UnopenedAreNotClosed ledger.new.log) }
    ensures bodies { OnOk result ((script : ScriptView) → JobFits script ledger.old.roots ledger.old.log (held_views held.old.items) job (effect_views effects.now) bodies.items (exit_view exit.now)
        → AllByRecursion (FitsScript script) held.old.items → AllByRecursion (FitsScript script) held.new.items × (AllByRecursion (IsJobOf script) jobs.old.items → AllByRecursion (IsJobOf script) jobs.new.items)) }
    ensures few { vec_len held.new ≤ vec_len held.old + length effects.now }
    ensures err { IfErr result (λ back. (back ≡ job) × (ledger.new ≡ ledger.old) × (held.new ≡ held.old) × (jobs.new ≡ jobs.old)) }
{
    let (task, number, resume, mut body) = job.spend();
    match body.advance(exit) {
        Ok(step) => {
            end_turn(
                ledger, held, jobs, task, number, effects, bodies, exit, body, step,
            );
            Ok(())
        }
        Err(_) => Err(Job::new(task, number, resume, body)),
    }
}
