//! What a gate is told of a run.

use swift_types::{ExecId, TaskId};

/// A moment of a run, at an executor (our own). `Exec::run_some` tells those of a visit, in the order of this list, each with the
/// executor and the worker that visits it; `Chose` and `Turned` of each turn as they come, those of one turn before those of the next. Of
/// a turn that is refused `Turned` is not told; of a visit that is refused `Ended` is still told; of one that finds the executor busy,
/// `Took` alone. `Exec::enqueue` tells the last two, of a job that is sent by whatever thread.
#[derive(Clone, Copy)]
pub enum Moment {
    /// The worker may run the executor, and is about to ask for its state. In a run it has just taken the executor's token.
    Took(ExecId, u32),
    /// The worker holds the executor's state.
    Began(ExecId, u32),
    /// The jobs that were in the inbox are ready.
    Accepted(ExecId, u32),
    /// The job of this task was chosen, and its turn has begun, or was refused. It may be journalled by then.
    Chose {
        /// The executor.
        executor: ExecId,
        /// The worker that visits it.
        worker: u32,
        /// Whose job.
        task: TaskId,
    },
    /// The turn of this task was journalled. What follows from it is not enqueued yet.
    Turned {
        /// The executor.
        executor: ExecId,
        /// The worker that visits it.
        worker: u32,
        /// Whose turn.
        task: TaskId,
    },
    /// The worker has given the state back.
    Ended(ExecId, u32),
    /// A job of this task lies in the executor's inbox, and is not counted yet.
    Pushed(ExecId, TaskId),
    /// That job is counted.
    Counted(ExecId, TaskId),
}

/// Is told of each moment as it comes (our own). It looks on, and changes nothing of the run.
pub trait Gate {
    /// Called on the thread that the moment is of, which waits until it returns. That thread does not hold
    /// the lock of the book then; another may.
    fn at(&self, moment: Moment);
}

/// The gate that does nothing.
#[derive(Clone, Copy)]
pub struct Open;

impl Gate for Open {
    fn at(&self, _moment: Moment) {}
}
