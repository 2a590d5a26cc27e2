//! The account of an executor: a job that it has taken is ready, chosen or journalled, exactly one of these, once. That is said of
//! the whole job: what it begins with, its frames and its bindings. And what the seat of an executor knows: all its turns, and the
//! tickets of its jobs. Each function's contract is a law on what the calls of `ExecState` ensure; the functions do nothing.

ghost use Rattle.std.specs.Prelude.{◌≡◌, ℕ, List, [], ◌∷◌, ◌++◌, None, map};
ghost use Rattle.std.specs.List.Sorted.{IsPermutation};
ghost use Rattle.swift_script.specs.Scripts.{ScriptView};
ghost use Rattle.swift_turn.specs.Body.{BodyView};
ghost use Rattle.swift_job.specs.Job.{JobView};
ghost use Rattle.swift_events.specs.declared.event.Event.{Event};
ghost use Rattle.swift_history.specs.TurnEnds.{JobFacts};
ghost use Rattle.swift_types.specs.declared.id.TaskId.{TaskId};
ghost use Rattle.swift_tasks.specs.Books.{BookView};
ghost use Rattle.swift_history.specs.Jobs.{job_facts};
ghost use Rattle.swift_executor.specs.Account.{AreTaken, HasTaken};
ghost use Rattle.swift_executor.specs.Looks.{FreeAreSeen};
ghost use Rattle.swift_executor.specs.Ready.{Adds};
ghost use Rattle.swift_executor.specs.Visits.{TurnsWriteAll, TurnsWriteOne};
ghost use Rattle.swift_executor.specs.Seats.{IsOpened, IsSeatFor};
ghost use Rattle.swift_shared_book.specs.Shared.{BookSeatView, knowing, with_ticket};
ghost use Rattle.std.specs.Thread.{IsSend, IsSync};
ghost use Rattle.swift_executor.specs.contracts.desk.Desk as desk;
ghost use Rattle.swift_executor.specs.contracts.exec.Exec as exec;
ghost use Rattle.swift_executor.specs.State.{BeginsChosen, Chooses, ExecStateView, HasChosen, HasNone, Journals, LacksTask, Plays, PutsBack, new_executor};

/// A new executor has taken no job (our own).
pub fn new_has_taken_none()
    ensures { (script : ScriptView) (executor room : ℕ) → HasTaken [] (new_executor script executor room) }
{}

/// A job that is accepted is one more that was taken, and no other is lost or doubled (our own).
pub fn accept_takes_one()
    ensures { (taken : List JobFacts) (job : JobView BodyView) (old new : ExecStateView) → HasTaken taken old
        → Adds old.ready job new.ready → new ≡ record old { ready = new.ready }
        → HasTaken (taken ++ job_facts job ∷ []) new }
{}

/// Whatever a book says, to choose a job loses none and doubles none: where one is chosen, where its task was not made,
/// and where none is ready (our own).
pub fn choose_loses_none()
    ensures some { (taken : List JobFacts) (log : List Event) (task : TaskId) (old new : ExecStateView) → HasTaken taken old
        → old.chosen ≡ None → Chooses log old new task → HasTaken taken new }
    ensures err { (taken : List JobFacts) (log : List Event) (old new : ExecStateView) → HasTaken taken old
        → LacksTask log old new → HasTaken taken new }
    ensures none { (taken : List JobFacts) (log : List Event) (old new : ExecStateView) → HasTaken taken old
        → HasNone log old new → HasTaken taken new }
{}

/// A turn that begins loses no job and doubles none (our own).
pub fn start_loses_none()
    ensures { (taken : List JobFacts) (book book' : BookView) (worker : ℕ) (old new : ExecStateView) → HasTaken taken old
        → HasChosen old (BeginsChosen book book' worker old new) → HasTaken taken new }
{}

/// A turn that is played loses no job and doubles none (our own).
pub fn play_loses_none()
    ensures { (taken : List JobFacts) (old new : ExecStateView) → HasTaken taken old
        → HasChosen old (Plays old new) → HasTaken taken new }
{}

/// After a refusal the chosen job is ready again; none is lost and none is doubled (our own).
pub fn refusal_loses_none()
    ensures { (taken : List JobFacts) (old new : ExecStateView) → HasTaken taken old
        → HasChosen old (PutsBack old new) → HasTaken taken new }
{}

/// A turn that is journalled loses no job and doubles none: the job is journalled and no longer chosen, and a journal that
/// is folded stands in the checkpoint (our own).
pub fn turn_loses_none()
    ensures { (taken : List JobFacts) (book book' : BookView) (jobs jobs' : List JobFacts) (old new : ExecStateView)
        → HasTaken taken old → HasChosen old (Journals book book' jobs jobs' old new) → HasTaken taken new }
{}

/// An executor that is taken apart gives up the jobs that are not journalled: those that it took are those given up and
/// those of its journal and checkpoint (our own).
pub fn parts_are_what_was_taken()
    ensures { (taken : List JobFacts) (s : ExecStateView) (jobs : List (JobView BodyView)) → HasTaken taken s → s.chosen ≡ None
        → IsPermutation (map (λ x. x.job) s.ready.front ++ s.ready.behind) jobs
        → AreTaken taken (map job_facts jobs) s.journal s.checkpoint }
{}

/// The seat that is opened for a new executor knows that it has run no turn and has no job (our own).
pub fn new_knows_no_turn()
    ensures { (script : ScriptView) (executor room : ℕ) (seat : BookSeatView) → IsOpened script executor seat → IsSeatFor (new_executor script executor room) seat }
{}

/// A seat that takes the ticket of a job that is accepted is still that of the executor (our own).
pub fn accept_knows_its_ticket()
    ensures { (job : JobView BodyView) (old new : ExecStateView) (seat : BookSeatView) → IsSeatFor old seat → old.chosen ≡ None
        → Adds old.ready job new.ready → new ≡ record old { ready = new.ready }
        → IsSeatFor new (knowing (with_ticket (job_facts job) seat.knows) seat) }
{}

/// Whatever a book says, to choose a job leaves the seat that of the executor: where one is chosen, where its task was not made,
/// and where none is ready (our own).
pub fn choose_keeps_tickets()
    ensures some { (log : List Event) (task : TaskId) (old new : ExecStateView) (seat : BookSeatView) → IsSeatFor old seat
        → old.chosen ≡ None → Chooses log old new task → IsSeatFor new seat }
    ensures err { (log : List Event) (old new : ExecStateView) (seat : BookSeatView) → IsSeatFor old seat
        → old.chosen ≡ None → LacksTask log old new → IsSeatFor new seat }
    ensures none { (log : List Event) (old new : ExecStateView) (seat : BookSeatView) → IsSeatFor old seat
        → old.chosen ≡ None → HasNone log old new → IsSeatFor new seat }
{}

/// A turn that is played leaves the seat that of the executor (our own).
pub fn play_keeps_tickets()
    ensures { (old new : ExecStateView) (seat : BookSeatView) → IsSeatFor old seat → HasChosen old (Plays old new) → IsSeatFor new seat }
{}

/// After a refusal the seat is still that of the executor (our own).
pub fn refusal_keeps_tickets()
    ensures { (old new : ExecStateView) (seat : BookSeatView) → IsSeatFor old seat → HasChosen old (PutsBack old new) → IsSeatFor new seat }
{}

/// An executor that no worker holds, and whose seat has taken a book, stands in a history that led there: its turns are its part of it (our
/// own).
pub fn free_executors_stand_in_a_history()
    ensures { FreeAreSeen }
{}

/// A turn that a visit has run wrote one record, of its task and of a job that was ready, which is the newest of the journal, or was folded
/// with it, and of the account of the executor's seat (SE-0306 for jobs that run once).
pub fn a_turn_writes_one_record()
    ensures { TurnsWriteOne }
{}

/// Turns that a visit has run one after the other wrote one record each, in one order in the journal and in the account of the executor's
/// seat; the last is of the task that the visit tells (SE-0306 for jobs that run once).
pub fn turns_write_a_record_each()
    ensures { TurnsWriteAll }
{}

/// Threads may share an executor (our own).
pub fn threads_share_an_executor()
    ensures { IsSync exec.the_row }
{}

/// A desk may go to another thread (our own).
pub fn desks_cross_threads()
    ensures { IsSend desk.the_row }
{}
