//! What the reader of Swift makes of what `--plain` prints.
#![tactic(auto)]

/// The laws.
pub mod laws;
