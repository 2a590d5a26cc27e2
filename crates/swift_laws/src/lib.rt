//! What holds of each legal report, as laws (specs/Laws.antt says each). There is no code here.
#![tactic(auto)]

/// What holds of each accepted script.
pub mod accepted;
/// Ended tasks leave no task behind.
pub mod ended;
/// What holds of each legal report.
pub mod laws;
/// The limits, in numbers.
pub mod limits;
/// What holds of its task locals.
pub mod locals;
/// What holds of each turn of a run, folded or not.
pub mod whole;
