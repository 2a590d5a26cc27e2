//! What the effects of a turn write and make.

ghost use Rattle.std.specs.Prelude.{◌≡◌, ℕ, ◌+◌, ◌<◌, ◌≤◌, ◌^◌, [], ◌∷◌, ◌++◌, None, IsTrue, map, vec_len, vec_capacity};
ghost use Rattle.std.specs.List.{AllByRecursion};
ghost use Rattle.swift_types.specs.declared.outcome.Resume.TheVariants.{Start};
ghost use Rattle.swift_script.specs.Scripts.{ScriptView, root_count};
ghost use Rattle.swift_interpreter.specs.Frames.{effect_view};
ghost use Rattle.swift_ledger.specs.Ledgers.{CanNote, IsMade, HasRoom};
ghost use Rattle.swift_events.specs.Lives.{stage_in};
ghost use Rattle.swift_events.specs.Events.{tasks_of};
ghost use Rattle.swift_events.specs.Relations.{opened_by, is_open_group};
ghost use Rattle.swift_events.specs.Room.{reserved_of};
ghost use Rattle.swift_history.specs.TurnEnds.{named_task, cancel_events, effect_events, effect_jobs, is_left_out, task as numbered};
ghost use Rattle.swift_tasks.specs.ApplyingInside.{CanName, CanTake, add_events, add_jobs, first_of};
ghost use Rattle.swift_tasks.specs.BodiesInside.{IsBodyOf};
ghost use Rattle.swift_tasks.specs.Books.{IsJobOf};
ghost use Rattle.swift_history.specs.Jobs.{job_facts};

use swift_events::Event;
use swift_interpreter::{Effect, TaskName};
use swift_job::Job;
use swift_ledger::Ledger;
use swift_turn::Body;
use swift_types::{Priority, Resume, TaskId};

// The task that a task names.
pub fn task_of(ledger: &Ledger, task: TaskId, name: TaskName) -> TaskId
    ensures named { result ≡ named_task task.0 name ledger.now.log }
    ensures made { CanName task.0 ledger.now.log name → IsMade ledger.now.log result }
{
    match name {
        TaskName::Root(root) => TaskId(root.0),
        TaskName::Own(number) => ledger.own_task(task, number).unwrap_or(TaskId(0)),
    }
}

// Writes an event that leaves the stage of its task.
pub fn note_aside(ledger: &mut Ledger, event: Event)
    requires fits { CanNote ledger.old.roots ledger.old.log event }
    requires aside { stage_in event ≡ None }
    requires spare { 0 < ledger.old.spare }
    ensures roots { ledger.new.roots ≡ ledger.old.roots }
    ensures log { ledger.new.log ≡ ledger.old.log ++ event ∷ [] }
    ensures spare { ledger.new.spare + 1 ≡ ledger.old.spare }
    ensures reserved { reserved_of ledger.new.roots ledger.new.log ≡ reserved_of ledger.old.roots ledger.old.log }
{
    ledger.note(event);
}

// A task is spawned or detached: it is written, and its first job is made.
fn note_free(
    ledger: &mut Ledger,
    jobs: &mut Vec<Job<Body>>,
    task: TaskId,
    priority: Priority,
    detached: bool,
    body: Body,
)
    requires mine { IsMade ledger.old.log task }
    requires number { HasRoom ledger.old.roots ledger.old.log }
    requires spare { 0 < ledger.old.spare }
    requires room { vec_len jobs.old < vec_capacity jobs.old }
    ensures roots { ledger.new.roots ≡ ledger.old.roots }
    ensures log { ledger.new.log ≡ ledger.old.log ++ Event.Free (numbered (tasks_of ledger.old.roots ledger.old.log)) task priority detached ∷ [] }
    ensures spare { ledger.new.spare + 1 ≡ ledger.old.spare }
    ensures reserved { reserved_of ledger.new.roots ledger.new.log ≡ reserved_of ledger.old.roots ledger.old.log }
    ensures jobs { jobs.new.items ≡ jobs.old.items ++ first_of (tasks_of ledger.old.roots ledger.old.log) body ∷ [] }
    ensures capacity { vec_capacity jobs.new ≡ vec_capacity jobs.old }
{
    let made = TaskId(ledger.tasks() as u32);
    note_aside(
        ledger,
        Event::Free {
            task: made,
            maker: task,
            priority,
            detached,
        },
    );
    jobs.push_reserved(Job::new(made, 0, Resume::Start, body));
}

// A child is added to a group: it is written, and its first job is made.
fn note_child(
    ledger: &mut Ledger,
    jobs: &mut Vec<Job<Body>>,
    task: TaskId,
    group: u32,
    priority: Priority,
    body: Body,
)
    requires mine { IsMade ledger.old.log task }
    requires group { IsTrue (is_open_group task.0 group ledger.old.log) }
    requires number { HasRoom ledger.old.roots ledger.old.log }
    requires spare { 0 < ledger.old.spare }
    requires room { vec_len jobs.old < vec_capacity jobs.old }
    ensures roots { ledger.new.roots ≡ ledger.old.roots }
    ensures log { ledger.new.log ≡ ledger.old.log ++ Event.Child (numbered (tasks_of ledger.old.roots ledger.old.log)) task group priority ∷ [] }
    ensures spare { ledger.new.spare + 1 ≡ ledger.old.spare }
    ensures reserved { reserved_of ledger.new.roots ledger.new.log ≡ reserved_of ledger.old.roots ledger.old.log }
    ensures jobs { jobs.new.items ≡ jobs.old.items ++ first_of (tasks_of ledger.old.roots ledger.old.log) body ∷ [] }
    ensures capacity { vec_capacity jobs.new ≡ vec_capacity jobs.old }
{
    let made = TaskId(ledger.tasks() as u32);
    note_aside(
        ledger,
        Event::Child {
            task: made,
            owner: task,
            group,
            priority,
        },
    );
    jobs.push_reserved(Job::new(made, 0, Resume::Start, body));
}

// Whether a child is left out: it is to be where its group is cancelled.
fn leaves_out(ledger: &Ledger, task: TaskId, group: u32, unless: bool) -> bool
    requires { IsTrue (is_open_group task.0 group ledger.now.log) }
    ensures { result ≡ is_left_out task.0 group unless ledger.now.log }
{
    unless && ledger.is_cancelled_group(task, group)
}

// A child is added to a group, or left out where the group is cancelled and it is to be.
fn note_add(
    ledger: &mut Ledger,
    jobs: &mut Vec<Job<Body>>,
    task: TaskId,
    group: u32,
    unless: bool,
    priority: Priority,
    body: Body,
)
    requires mine { IsMade ledger.old.log task }
    requires group { IsTrue (is_open_group task.0 group ledger.old.log) }
    requires number { HasRoom ledger.old.roots ledger.old.log }
    requires spare { 0 < ledger.old.spare }
    requires room { vec_len jobs.old < vec_capacity jobs.old }
    ensures roots { ledger.new.roots ≡ ledger.old.roots }
    ensures log { ledger.new.log ≡ ledger.old.log ++ add_events ledger.old.roots task.0 group (is_left_out task.0 group unless ledger.old.log) ledger.old.log priority }
    ensures spare { ledger.new.spare + 1 ≡ ledger.old.spare }
    ensures reserved { reserved_of ledger.new.roots ledger.new.log ≡ reserved_of ledger.old.roots ledger.old.log }
    ensures jobs { jobs.new.items ≡ jobs.old.items ++ add_jobs (is_left_out task.0 group unless ledger.old.log) (tasks_of ledger.old.roots ledger.old.log) body }
    ensures capacity { vec_capacity jobs.new ≡ vec_capacity jobs.old }
{
    let left_out = leaves_out(ledger, task, group, unless);
    if left_out {
        note_aside(ledger, Event::Skip(task, group));
    } else {
        note_child(ledger, jobs, task, group, priority, body);
    }
}

// A group is opened.
fn note_open(ledger: &mut Ledger, task: TaskId)
    requires mine { IsMade ledger.old.log task }
    requires number { opened_by task.0 ledger.old.log < 2 ^ 32 }
    requires spare { 0 < ledger.old.spare }
    ensures roots { ledger.new.roots ≡ ledger.old.roots }
    ensures log { ledger.new.log ≡ ledger.old.log ++ Event.Open task (opened_by task.0 ledger.old.log) ∷ [] }
    ensures spare { ledger.new.spare + 1 ≡ ledger.old.spare }
    ensures reserved { reserved_of ledger.new.roots ledger.new.log ≡ reserved_of ledger.old.roots ledger.old.log }
{
    let group = ledger.opened(task) as u32;
    note_aside(ledger, Event::Open(task, group));
}

// A task is cancelled, where it has not ended.
fn note_cancel(ledger: &mut Ledger, task: TaskId)
    requires made { IsMade ledger.old.log task }
    requires spare { 0 < ledger.old.spare }
    ensures roots { ledger.new.roots ≡ ledger.old.roots }
    ensures log { ledger.new.log ≡ ledger.old.log ++ cancel_events task ledger.old.log }
    ensures spare { ledger.old.spare ≤ ledger.new.spare + 1 }
    ensures reserved { reserved_of ledger.new.roots ledger.new.log ≡ reserved_of ledger.old.roots ledger.old.log }
{
    if ledger.life(task).ending.is_none() {
        note_aside(ledger, Event::CancelTask(task));
    }
}

// An effect is written, and the first job of the task that it makes is made of its body.
pub fn note_effect(
    ledger: &mut Ledger,
    jobs: &mut Vec<Job<Body>>,
    task: TaskId,
    own: Priority,
    effect: &Effect,
    body: Option<Body>,
)
    requires mine { IsMade ledger.old.log task }
    requires take { CanTake ledger.old.roots task.0 ledger.old.log (effect_view effect.now) }
    requires body { (script : ScriptView) × IsBodyOf script (effect_view effect.now) body }
    requires spare { 0 < ledger.old.spare }
    requires room { vec_len jobs.old < vec_capacity jobs.old }
    ensures roots { ledger.new.roots ≡ ledger.old.roots }
    ensures log { ledger.new.log ≡ ledger.old.log ++ effect_events ledger.old.roots task.0 own ledger.old.log (effect_view effect.now) }
    ensures spare { ledger.old.spare ≤ ledger.new.spare + 1 }
    ensures reserved { reserved_of ledger.new.roots ledger.new.log ≡ reserved_of ledger.old.roots ledger.old.log }
    ensures jobs { (script : ScriptView) → IsBodyOf script (effect_view effect.now) body → root_count script ≡ ledger.old.roots
        → map job_facts jobs.new.items ≡ map job_facts jobs.old.items ++ effect_jobs script task.0 ledger.old.log (effect_view effect.now) }
    ensures bodies { (script : ScriptView) → IsBodyOf script (effect_view effect.now) body → AllByRecursion (IsJobOf script) jobs.old.items → AllByRecursion (IsJobOf script) jobs.new.items }
    ensures capacity { vec_capacity jobs.new ≡ vec_capacity jobs.old }
    ensures few { vec_len jobs.new ≤ vec_len jobs.old + 1 }
{
    match effect {
        Effect::Spawn { priority, .. } => {
            let Some(body) = body else { unreachable!() };
            note_free(ledger, jobs, task, priority.unwrap_or(own), false, body);
        }
        Effect::Detach(_, priority) => {
            let Some(body) = body else { unreachable!() };
            note_free(ledger, jobs, task, *priority, true, body);
        }
        Effect::Open => note_open(ledger, task),
        Effect::Add {
            group,
            unless_cancelled: unless,
            priority,
            ..
        } => {
            let Some(body) = body else { unreachable!() };
            let priority = priority.unwrap_or(Priority::Background);
            note_add(ledger, jobs, task, *group, *unless, priority, body);
        }
        Effect::CancelTask(name) => {
            let named = task_of(ledger, task, *name);
            note_cancel(ledger, named);
        }
        Effect::CancelGroup(group) => note_aside(ledger, Event::CancelGroup(task, *group)),
    }
}
