//! Serial executors (SE-0392). First what one keeps, apart from threads: its jobs, the job that it has chosen, its journal and
//! checkpoint, and the fields of its actors. Then the executor that threads share: this state behind a status word, and an
//! inbox without a lock.
#![tactic(auto)]

// Why an executor refuses.
mod fault;
// The tasks whose jobs are ready.
mod tasks;
// The jobs that are ready.
mod ready;
// The fields of its actors.
mod fields;
// The job that was chosen.
mod chosen;
// Which executor it is.
mod home;
// The state of an executor.
mod state;
// Jobs that come, and the one that is picked.
mod pick;
// How a job is played, put back and written.
mod playing;
// How the turn of the chosen job is played.
mod turns;
// A turn that begins, and one that ends.
mod ending;
// A turn that waits for its book.
mod aside;
// Turns that are committed together.
mod batch;
// A turn that is committed after it was played.
mod committing;
// A turn of a visit that is played before it has begun.
mod ahead;
// The account of an executor.
pub mod laws;

// Jobs that were sent and not yet taken.
pub mod inbox;
// The run queue of the jobs that are ready.
pub mod queue;

// What a gate is told of a run.
mod gate;
// The name of a state.
mod state_name;
// A state while no worker holds it.
mod resting;
// What came of a visit.
mod ran;
// A thread's right to send jobs and to run turns.
mod desk;
// An executor that threads share.
mod exec;
// A visit of a worker.
mod run;
// A look while a run goes on.
mod look;

pub use desk::{ClosedDesk, Desk};
pub use exec::{Closed, Exec};
pub use fault::ExecFault;
pub use gate::{Gate, Moment, Open};
pub use look::{LookOutcome, Onlooker};
pub use ran::VisitOutcome;
pub use run::may_run;
pub use state::ExecState;
pub use swift_word::{BeforeCount, PendingLeft};
