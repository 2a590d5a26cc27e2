//! The digest of a run's log: what decides how the run may go on. Two histories that share it, their waiting tasks, their jobs and their
//! fields go on alike, so a search of all histories need follow only one of them. Definitions and laws alone; no code runs here.
#![tactic(auto)]

/// What holds of histories and their digests.
pub mod laws;
