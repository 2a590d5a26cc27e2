//! Whether a report of a run is legal: some history of blocks, each of which may stand after those before it, made it.
#![tactic(auto)]

// What a report says at its end.
mod ends;
// What holds of each legal report.
pub mod laws;
// One turn, compared with the journal or taken from a checkpoint.
mod playing;
// A run that is followed along its log.
mod replay;
// Whether a whole report is legal.
mod whole;

pub use whole::legal;
