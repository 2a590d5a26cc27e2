//! The log of a run with all that is read of it at once: a ledger's value is its log, and each index that it keeps is
//! what the log gives. There is one writer, `Ledger::note`, which appends one event; `note_begin`, `note_apply` and
//! `note_give` are it at the three events of a turn.
#![tactic(auto)]

// A count for each task.
mod counts;

// What the log gives, by index.
mod flags;
mod group_index;
mod levels;
mod links;
mod lists;
mod lives;
mod relatives;

// All of them.
mod indexes;

// The log, with them.
mod ledger;

pub use ledger::Ledger;
