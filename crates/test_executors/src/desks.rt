//! What calls on executors work with: a script, an executor with a desk of it, a book of tasks, jobs, and what an executor leaves.
//! Each may be dropped at any time, and is dropped in one place.

// A book, with the right to open its executors and to add its roots.
mod booked;
// An executor, with a right to use it.
mod door;
// Jobs that are kept.
mod jobs;
// What executors leave.
mod leavings;
// What is of one book.
mod owned;
// What polls turns.
mod poller;
// The script of a case.
mod setting;

pub use booked::Booked;
pub use door::Door;
pub(crate) use door::can_run;
pub use jobs::Jobs;
pub use leavings::{Leavings, Left};
pub use owned::{BookOf, OwnBooked, OwnJob};
pub use poller::Poller;
pub use setting::Setting;
