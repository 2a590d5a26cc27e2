//! A log in memory: its events in 16 bytes each, or for those of a turn together, and the numbers that some of them say beside
//! these (our own).
#![tactic(auto)]

// How an event is stored.
mod entry;

// Where an event stands.
mod mark;

// The list.
mod log;

pub use log::EventLog;
