//! The book of a run, as threads share it: a lock with a rule. The rule says that some history of the script led to the book, which
//! has the turns that the seats of executors know, and gives the jobs whose tickets are out. Jobs go to executors with their tickets, each
//! the right to run its turn (our own).
#![tactic(auto)]

// The calls of the book under its lock.
mod calls;

// Turns that were played before they begin.
mod commits;

// How what was done to the book is given back.
mod giving;

// Jobs with their tickets.
mod jobs;

/// What the calls of a book keep.
pub mod laws;

// A lock under a rule.
pub mod lock;

// Which book it is.
mod name;

// A book that was taken from its lock.
mod opened;

// What holds of the book and of what all seats know.
mod rule;

// A thread's right to take the book.
mod seat;

// The book as threads share it.
mod shared;

// The book where it lies in its lock.
mod shelf;

// A job with its ticket.
mod ticketed;

pub use commits::Committed;
pub use jobs::TicketedJobs;
pub use name::BookName;
pub use opened::{OpenBook, OpenSeat};
pub use seat::BookSeat;
pub use shared::BookLock;
pub use ticketed::TicketedJob;
