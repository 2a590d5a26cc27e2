//! What a run leaves.

ghost use Rattle.std.specs.Prelude.{◌≡◌, ◌↔◌, ℕ, ◌+◌, Some, None, [], ◌∷◌, length, IfOk, IfSome, IsOk, IsTrue, OnOk};
ghost use Rattle.swift_script.specs.Scripts.{ScriptView, executor_count, root_count};
ghost use Rattle.swift_history.specs.Orderly.{IsOrderlyLegal};
ghost use Rattle.swift_certificate.specs.Reports.{report_view};
ghost use Rattle.swift_executor.specs.Exec.{IsDeskOf, site_of};
ghost use Rattle.swift_executor.specs.Seats.{IsSeatFor, orders_of};
ghost use Rattle.swift_course.specs.Views.{at_rest};
ghost use Rattle.swift_course.specs.Whole.{HasWhole};
ghost use Rattle.swift_shared_book.specs.Shared.{IsSeatOf};
ghost use Rattle.swift_workers.specs.CrewInside.{AreAtSites, AreDesksOf};
ghost use Rattle.swift_workers.specs.Leaves.{AreEndings, AreReplayed, IsEnding, KeepInvariants};
ghost use Rattle.swift_workers.specs.PartsInside.{AreParts};

use crate::fault::Halt;
use std::alloc::Global;
use std::sync::Wait;
use swift_course::laws::{runs_are_orderly, runs_are_whole};
use swift_events::Origin;
use swift_executor::{Closed, Desk, Exec, ExecState};
use swift_job::spend_all;
use swift_journal::{Checkpoint, Journal};
use swift_log::EventLog;
use swift_report::Report;
use swift_script::Script;
use swift_shared_book::{BookLock, BookSeat};
use swift_tasks::Book;
use swift_types::{Ending, TaskId};

fn is_root(origin: Origin) -> bool
    ensures { IsTrue result ↔ (origin ≡ Origin.Root) }
{
    matches!(origin, Origin::Root)
}

// Where a task comes from, and how it has ended. The first tasks are those of the roots. A task that has a group open has not ended.
fn ending_of(book: &Book, roots: usize, task: TaskId) -> Result<(Origin, Ending), Halt>
    ensures { IfOk result (IsEnding roots book.now.log task.0) }
{
    let Some(origin) = book.origin(task) else {
        return Err(Halt::Unfinished);
    };
    let Some(ending) = book.ending(task) else {
        return Err(Halt::Unfinished);
    };
    let is_first = (task.0 as usize) < roots;
    if is_root(origin) != is_first {
        return Err(Halt::Unfinished);
    }
    if !book.has_closed_all(task) {
        return Err(Halt::Unfinished);
    }
    Ok((origin, ending))
}

// Where each task comes from, and how it has ended, in order.
fn endings_of(alloc: Global, script: &Script, book: &Book) -> Result<Vec<(Origin, Ending)>, Halt>
    requires { book.now.script ≡ script.now }
    ensures { IfOk result (λ endings. AreEndings (root_count script.now) book.now.log endings.items) }
{
    let roots = script.root_count();
    let Ok(tasks) = u32::try_from(book.tasks()) else {
        return Err(Halt::Unfinished);
    };
    let mut endings = Vec::new(alloc);
    for task in 0..tasks {
        endings.push(ending_of(book, roots, TaskId(task))?)?;
    }
    Ok(endings)
}

// What a book leaves: its log, and how its tasks have ended.
fn ends_of(
    alloc: Global,
    script: &Script,
    book: Book,
) -> Result<(EventLog, Vec<(Origin, Ending)>), Halt>
    requires { book.script ≡ script.now }
    ensures log { IfOk result (λ r. r.0.events ≡ book.log) }
    ensures endings { IfOk result (λ r. AreEndings (root_count script.now) book.log r.1.items) }
{
    let endings = endings_of(alloc, script, &book);
    let (log, waiting) = book.close();
    spend_all(waiting);
    let endings = endings?;
    Ok((log, endings))
}

// The journals, the checkpoints and the fields of executors, in their order.
struct Parts {
    journals: Vec<Journal>,
    checkpoints: Vec<Checkpoint>,
    fields: Vec<Vec<Vec<i64>>>,
}

impl Drop for Parts {
    fn drop(self) {
        let Parts {
            journals,
            checkpoints,
            fields,
        } = self;
        drop(journals);
        drop(checkpoints);
        drop(fields);
    }
}

impl Parts {
    // The report that has these parts, and what the book leaves.
    fn into_report(self, log: EventLog, endings: Vec<(Origin, Ending)>) -> Report
        ensures parts { (result.journals ≡ self.journals) × (result.checkpoints ≡ self.checkpoints) × (result.fields ≡ self.fields) }
        ensures ends { (result.log ≡ log) × (result.endings ≡ endings) }
    {
        let Parts {
            journals,
            checkpoints,
            fields,
        } = self;
        Report {
            journals,
            checkpoints,
            log,
            endings,
            fields,
        }
    }
}

// The state of an executor whose jobs have all been run, and the seat that knows its turns. A job that was counted and not run, or that
// still lies in the inbox, is left. Where a turn was put back once it had begun, the run was given up.
fn close<R: Wait>(rt: &R, exec: Exec, desk: Desk) -> Result<(ExecState, BookSeat), Halt>
    requires desk { IsDeskOf exec desk }
    ensures site { IfOk result (λ r. site_of r.1.lock r.0 ≡ exec.inbox.site) }
    ensures free { IfOk result (λ r. r.0.chosen ≡ None) }
    ensures seat { IfOk result (λ r. IsSeatFor r.0 r.1) }
    ensures rest { IfOk result (λ r. orders_of r.1.knows ≡ at_rest ∷ []) }
{
    let Closed {
        pending,
        state,
        inbox,
        is_orderly,
        desk: _,
    } = exec.close(rt, desk);
    let is_left = pending > 0 || !inbox.is_empty() || !is_orderly;
    spend_all(inbox);
    let Some((state, _taker, seat)) = state else {
        return Err(Halt::Unfinished);
    };
    if is_left {
        let (jobs, _journal, _fields, _checkpoint) = state.into_parts();
        spend_all(jobs);
        return Err(Halt::Unfinished);
    }
    Ok((state, seat))
}

// Notes what a state has, as that of the next executor, and gathers its seat.
fn note_state(
    parts: &mut Parts,
    book: &BookLock,
    seat: &mut BookSeat,
    state: ExecState,
    own: BookSeat,
) -> Result<(), Halt>
    requires free { state.chosen ≡ None }
    requires known { IsSeatFor state own }
    requires rest { orders_of own.knows ≡ at_rest ∷ [] }
    requires lock { own.lock ≡ book.now.id }
    requires seat { IsSeatOf book.now seat.old }
    ensures seat { IsSeatOf book.now seat.new }
    ensures maker { seat.new.knows.maker ≡ seat.old.knows.maker }
    ensures parts { (p : ScriptView) (k : ℕ) → site_of own.lock state ≡ record { script = p; executor = k; book = Some own.lock } → AreParts p seat.old.knows k parts.old → OnOk result (AreParts p seat.new.knows (k + 1) parts.new) }
{
    state.facts();
    book.gather(seat, own);
    let (jobs, journal, fields, checkpoint) = state.into_parts();
    spend_all(jobs);
    parts.journals.push(journal)?;
    parts.checkpoints.push(checkpoint)?;
    parts.fields.push(fields)?;
    Ok(())
}

// Closes the executors, in order, each by its desk, and gathers their seats in the one that adds roots.
fn parts_of<R: Wait>(
    rt: &R,
    alloc: Global,
    book: &BookLock,
    seat: &mut BookSeat,
    execs: Vec<Exec>,
    desks: Vec<Desk>,
) -> Result<Parts, Halt>
    requires sites { AreAtSites book.now execs.items }
    requires desks { AreDesksOf execs.items desks.items }
    requires seat { IsSeatOf book.now seat.old }
    ensures seat { IsSeatOf book.now seat.new }
    ensures maker { seat.new.knows.maker ≡ seat.old.knows.maker }
    ensures parts { IfOk result (AreParts book.now.script seat.new.knows (length execs.items)) }
{
    let mut parts = Parts {
        journals: Vec::new(alloc),
        checkpoints: Vec::new(alloc),
        fields: Vec::new(alloc),
    };
    for (exec, desk) in execs.into_iter().zip(desks) {
        let (state, own) = close(rt, exec, desk)?;
        note_state(&mut parts, book, seat, state, own)?;
    }
    Ok(parts)
}

/// The report of a run that was played, or was given up, by the seat that has opened all accounts and added all roots; the executors are
/// closed by these desks. It is legal, and its blocks are in order: the seats of the executors, gathered in that one, and the book say so,
/// and no turn is followed again. They know each turn, those too that a checkpoint has folded. A book that was not given back is `Unfinished`.
pub fn report_of<R: Wait>(
    rt: &R,
    alloc: Global,
    script: &Script,
    execs: Vec<Exec>,
    desks: Vec<Desk>,
    book: BookLock,
    mut seat: BookSeat,
    played: Result<(), Halt>,
) -> Result<Report, Halt>
    requires sites { AreAtSites book execs.items }
    requires desks { AreDesksOf execs.items desks.items }
    requires many { length execs.items ≡ executor_count script.now }
    requires script { book.script ≡ script.now }
    requires seat { IsSeatOf book seat }
    requires maker { OnOk played (seat.knows.maker ≡ Some (record { executors = executor_count script.now; roots = root_count script.now })) }
    ensures played { OnOk result (IsOk played) }
    ensures orderly { IfOk result (λ r. IsOrderlyLegal script.now (report_view r)) }
    ensures whole { IfOk result (λ r. HasWhole script.now (report_view r)) }
    ensures lawful { IfOk result (λ r. AreReplayed script.now 0 r.checkpoints.items r.journals.items r.fields.items) }
    ensures invariants { IfOk result (λ r. KeepInvariants script.now 0 r.fields.items) }
    ensures journals { IfOk result (λ r. length r.journals.items ≡ executor_count script.now) }
    ensures checkpoints { IfOk result (λ r. length r.checkpoints.items ≡ executor_count script.now) }
    ensures fields { IfOk result (λ r. length r.fields.items ≡ executor_count script.now) }
    ensures endings { IfOk result (λ r. AreEndings (root_count script.now) r.log.events r.endings.items) }
{
    played?;
    runs_are_orderly();
    runs_are_whole();
    let parts = parts_of(rt, alloc, &book, &mut seat, execs, desks)?;
    let Some(book) = book.close(seat) else {
        return Err(Halt::Unfinished);
    };
    let (log, endings) = ends_of(alloc, script, book)?;
    Ok(parts.into_report(log, endings))
}
