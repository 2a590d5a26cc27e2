//! What a run's history is: which turns may begin and be applied (specs/Checks.antt), what the end of a turn writes and makes
//! (specs/TurnEnds.antt), and what replaying a journal gives (specs/Replay.antt). The definitions are over logs, journals and the script
//! alone.
#![tactic(auto)]

/// Laws of journals.
pub mod laws;
