//! A serial executor that threads share, and what is left of it.

ghost use Rattle.std.specs.Prelude.{◌≡◌, ◌⊎◌, ◌<◌, ◌*◌, ◌↔◌, [], ◌∷◌, true, None, Some, IfOk, IfErr, IfSome, IfNone, OnOk, OnErr};
ghost use Rattle.std.specs.Arc.{arc_value};
ghost use Rattle.swift_executor.specs.Site.{CanRunAt};
ghost use Rattle.swift_executor.specs.Exec.{FoundRunning, IsDeskOf, IsLeft, first_desk, has_found, has_sent, image_of, site_of};
ghost use Rattle.swift_executor.specs.Inbox.{TakerView};
ghost use Rattle.swift_executor.specs.Taken.{taken_of};
ghost use Rattle.swift_executor.specs.Seats.{IsOpened, KeepsOrder};
ghost use Rattle.swift_course.specs.Views.{at_rest};
ghost use Rattle.swift_executor.specs.State.{new_executor};
ghost use Rattle.swift_word.specs.Seat.{newest};

use crate::aside::Aside;
use crate::batch::BATCH;
use crate::desk::{ClosedDesk, Desk};
use crate::fault::ExecFault;
use crate::gate::{Gate, Moment};
use crate::inbox::{ExecutorSite, Inbox, Taker};
use crate::resting::{Resting, TakenState, spend_held};
use crate::state::ExecState;
use std::alloc::{AllocError, Global};
use std::marker::Model;
use std::sync::{Arc, Wait};
use swift_job::{Job, spend_all};
use swift_script::Script;
use swift_shared_book::{BookSeat, TicketedJob};
use swift_turn::Body;
use swift_types::ExecId;
use swift_word::{BeforeCount, Begun, Word};

/// A serial executor (SE-0392): its state behind a status word, and its inbox. Any number of threads share it by reference; each
/// sends jobs and runs turns with a `Desk` of its own. One turn runs at a time, since a worker takes the state out of the
/// word before it, and puts it back after. No call waits for a turn that another thread runs.
///
/// In a clause it is its word, its inbox, with its script, number and book, how many workers the run has, and the state that it
/// began with. No clause knows the state that it has, since other threads may change it at any moment: what holds of it is said by
/// its type, `ExecState`. Where an executor is dropped, its jobs are spent.
pub struct Exec {
    pub(crate) word: Word<Resting>,
    pub(crate) inbox: Inbox,
    pub(crate) workers: u32,
    // It is empty, and has room for what is in the inbox.
    spare: Spare,
}

impl Drop for Exec {
    fn drop(self) {
        let Exec {
            word,
            inbox,
            workers: _,
            spare,
        } = self;
        drop(word);
        drop(inbox);
        drop(spare);
    }
}

// A list that jobs can go onto. Where it is dropped, they are spent.
struct Spare {
    list: Vec<Job<Body>>,
}

impl Drop for Spare {
    fn drop(self) {
        spend_all(self.into_list());
    }
}

impl Spare {
    fn into_list(self) -> Vec<Job<Body>>
        ensures { result ≡ self.list }
    {
        let Spare { list } = self;
        list
    }
}

impl Model for Exec {
    ghost use Rattle.std.specs.Prelude.{◌≡◌, ◌≤◌, ◌<◌, [], vec_capacity};
    ghost use Rattle.std.specs.Coded.{codes};
    ghost use Rattle.swift_script.specs.Codes.{expression_code, statement_code, block_code};
    ghost use Rattle.swift_executor.specs.Exec.{ExecView, state_name};

    ghost Value = { ExecView };

    ghost coded = { Prim.hlevel (codes, expression_code, statement_code (block_code (Prim.hlevel (codes, expression_code)) (Prim.hlevel (codes, expression_code)))) };

    ghost view = { λ e. record { word = e.word.id; inbox = e.inbox; workers = e.workers; opened = e.word.opened.state } };

    ghost invariant = { λ e. (e.word.name ≡ state_name e.inbox.site e.inbox.id) × (0 < e.workers) × (e.spare.list.items ≡ []) × (e.inbox.room ≤ vec_capacity e.spare.list) };
}

/// What is left of an executor.
pub struct Closed {
    /// How many jobs were counted and not run: by the step that took the state, where it comes.
    pub pending: u64,
    /// Its state, with the taker of its jobs, and the seat by which it took the book; none where a desk held it.
    pub state: Option<(ExecState, Taker, BookSeat)>,
    /// The jobs that were in the inbox, the oldest first. Where a desk held the state, it held their taker too, and there are none.
    pub inbox: Vec<Job<Body>>,
    /// Whether each turn has begun once the last root was there, and while no other was under way. Not known, and false, where a turn was
    /// put back once it had begun, or no state comes.
    pub is_orderly: bool,
    /// The desk by which it was closed. In a clause it has what that step found.
    pub desk: ClosedDesk,
}

// Room for the turns of a batch. A single worker commits each turn by itself, and needs none.
fn room_aside(alloc: Global, workers: u32) -> Result<Vec<Aside>, AllocError> {
    let mut asides = Vec::new(alloc);
    if workers > 1 {
        for _ in 0..BATCH {
            asides.push(Aside::none(alloc))?;
        }
    }
    Ok(asides)
}

// The first state of an executor, with no job.
fn first_state(
    alloc: Global,
    site: &ExecutorSite,
    taker: Taker,
    room: usize,
    workers: u32,
    seat: BookSeat,
) -> Result<Resting, AllocError>
    requires site { taker.site ≡ Some site.now }
    requires unused { taker.taken ≡ [] }
    requires book { site.now.book ≡ Some seat.lock }
    requires seat { IsOpened site.now.script site.now.executor seat }
    ensures { IfOk result (λ r. r ≡ taken_of (new_executor site.now.script site.now.executor room) taker seat true) }
{
    let asides = room_aside(alloc, workers)?;
    let script = Arc::clone(site.script())?;
    let state = ExecState::new(alloc, script, site.executor(), room)?;
    let held = TakenState {
        state,
        taker,
        seat,
        is_orderly: true,
        asides,
    };
    match Box::new(alloc, held) {
        Ok(held) => Ok(Resting::new(held)),
        Err(refused) => {
            spend_held(refused.value);
            Err(AllocError)
        }
    }
}

impl Exec {
    /// An executor of a script, by its number, that has run no turn, with room for `room` jobs in its inbox, at least 1, and as
    /// many that are ready; and its first desk, by which 2^60 jobs may be sent. The seat is the one that the lock of its book has opened
    /// for it. The run has `workers` workers, at least 1; where there are several, it also takes memory for eight turns that are committed
    /// together. Out of memory nothing remains, and a room of 2^60 or more is refused so. The room is not touched before it is used, but
    /// for a mark at each place of the inbox.
    pub fn new(
        alloc: Global,
        script: Arc<Script>,
        executor: ExecId,
        workers: u32,
        room: usize,
        seat: BookSeat,
    ) -> Result<(Exec, Desk), AllocError>
        requires workers { 0 < workers }
        requires room { 0 < room }
        requires seat { IsOpened (arc_value script) executor.0 seat }
        ensures site { IfOk result (λ r. r.0.inbox.site ≡ record { script = arc_value script; executor = executor.0; book = Some seat.lock }) }
        ensures room { IfOk result (λ r. r.0.inbox.room ≡ room) }
        ensures workers { IfOk result (λ r. r.0.workers ≡ workers) }
        ensures opened { IfOk result (λ r. r.0.opened ≡ new_executor (arc_value script) executor.0 room) }
        ensures desk { IfOk result (λ r. r.1 ≡ first_desk r.0) }
    {
        let site = ExecutorSite::of_book(script, executor, seat.name());
        let own = ExecutorSite::of_book(Arc::clone(site.script())?, executor, seat.name());
        let (inbox, pass, taker) = Inbox::new(alloc, site, room)?;
        let list = Vec::with_capacity(alloc, room)?;
        let spare = Spare { list };
        let state = first_state(alloc, &own, taker, room, workers, seat)?;
        match Word::open(alloc, state) {
            Ok((word, seat)) => Ok((
                Exec {
                    word,
                    inbox,
                    workers,
                    spare,
                },
                Desk { seat, pass },
            )),
            Err((_state, fault)) => Err(fault),
        }
    }

    /// The script, and the executor's number.
    pub fn site(&self) -> &ExecutorSite
        ensures { result.now ≡ self.now.inbox.site }
    {
        self.inbox.site()
    }

    /// Sends a job: it goes into the inbox, and then it is counted. `Idle` where no job was pending and no worker held the
    /// executor: whoever sent it has to see that a worker comes. Else `Busy`: a job was pending then, or a worker held the executor. A
    /// worker that holds it is told at its last step that jobs are left. It takes no memory, and constant time where no other thread is in
    /// the way. The gate is called between the two steps, and after them.
    ///
    /// For a job that can run here: its body is of an equal script and has not ended, its running frame is of an actor of this
    /// executor (SE-0392), and the executor's book gave it. A refusal is `Spent`, exactly where the desk has no allowance left, or `Full`,
    /// where the inbox was found full; the job comes back, and nothing has changed.
    pub fn enqueue<R, G>(
        &self,
        rt: &R,
        desk: &mut Desk,
        job: TicketedJob,
        gate: &G,
    ) -> Result<BeforeCount, (TicketedJob, ExecFault)>
    where
        R: Wait,
        G: Gate,
        requires desk { IsDeskOf self.now desk.old }
        requires job { CanRunAt self.now.inbox.site job }
        ensures ok { OnOk result (desk.new ≡ has_sent (newest desk.new.found) desk.old job.job) }
        ensures idle { IfOk result (λ was. (was ≡ BeforeCount.Idle) ↔ (newest desk.new.found ≡ 0)) }
        ensures allowed { OnOk result (0 < desk.old.allowance) }
        ensures spent { IfErr result (λ e. (e.1 ≡ ExecFault.Spent) ↔ (desk.old.allowance ≡ 0)) }
        ensures back { IfErr result (λ e. (e.0 ≡ job) × ((e.1 ≡ ExecFault.Full) ⊎ (e.1 ≡ ExecFault.Spent))) }
        ensures kept { OnErr result (desk.new ≡ desk.old) }
    {
        if desk.seat.allowance() == 0 {
            return Err((job, ExecFault::Spent));
        }
        let executor = self.inbox.site().executor();
        let task = job.job().task();
        if let Err(job) = self.inbox.put(rt, &mut desk.pass, job) {
            return Err((job, ExecFault::Full));
        }
        gate.at(Moment::Pushed(executor, task));
        match self.word.count(&mut desk.seat) {
            Ok(was) => {
                gate.at(Moment::Counted(executor, task));
                Ok(was)
            }
            Err(_) => unreachable!(),
        }
    }

    /// Gives the executor up, by `desk`, one of its desks. One step on the word takes the state where no desk holds it. Then the state
    /// comes, with no job chosen, and the seat whose account has its turns; `pending` is how many jobs that step found pending; and what
    /// was in the inbox comes out through the taker that lay in the state. So of each job that ever came out of the inbox it is known
    /// where it is: among these, or ready or journalled. The tickets of these jobs are given up. Where the step finds that a desk holds
    /// the state, since a visit never came to its end, that desk holds the taker too: then nothing comes, and what is in the inbox is
    /// spent. It takes no memory. It waits only for a thread that stands between two steps of a call of its own.
    pub fn close<R: Wait>(self, rt: &R, desk: Desk) -> Closed
        requires desk { IsDeskOf self desk }
        ensures state { IfSome result.state (λ s. IsLeft self.inbox s.1 s.2 s.0 result.inbox.items) }
        ensures none { IfNone result.state (result.inbox.items ≡ []) }
        // Where its turns have begun in order, none is under way, by the seat's account.
        ensures order { IfSome result.state (λ s. KeepsOrder result.is_orderly at_rest s.2) }
        // The desk makes one step: one that finds no desk at the state, and how many jobs are pending; or one that finds a desk there.
        ensures desk { result.desk ≡ has_found result.desk.found result.desk.moved desk }
        // The state is the one that this step took out of the word.
        ensures moved { IfSome result.state (λ s. (taker : TakerView) × (result.desk.moved ≡ image_of (taken_of s.0 taker s.2 result.is_orderly) ∷ desk.moved)) }
        ensures still { IfNone result.state (result.desk.moved ≡ desk.moved) }
        ensures pending { IfSome result.state (λ s. result.desk.found ≡ 2 * result.pending ∷ desk.found) }
        ensures held { IfNone result.state (FoundRunning desk.found result.desk.found) }
    {
        let (desk, begun) = desk.begin_last(&self);
        let Exec {
            word,
            inbox,
            workers: _,
            spare,
        } = self;
        let list = spare.into_list();
        let (pending, _) = word.close();
        match begun {
            Begun::Run(pending, resting) => {
                let (state, taker, seat, is_orderly) = resting.into_parts();
                let (inbox, taker) = inbox.drain(rt, taker, list);
                Closed {
                    pending,
                    state: Some((state, taker, seat)),
                    inbox,
                    is_orderly,
                    desk,
                }
            }
            Begun::Busy => Closed {
                pending,
                state: None,
                inbox: list,
                is_orderly: false,
                desk,
            },
        }
    }
}
