//! Which histories differ only in an order that nobody sees. Definitions and laws alone; no code runs here.
#![tactic(auto)]

/// What holds of each legal report.
pub mod laws;
