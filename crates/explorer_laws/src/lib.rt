//! What a search of a script's histories that came to its end says of the script's runs (our own).
#![tactic(auto)]

/// The laws.
pub mod laws;
