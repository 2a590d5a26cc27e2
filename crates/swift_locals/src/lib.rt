//! Bindings of task locals (SE-0311).
#![tactic(auto)]

mod bindings;

pub use bindings::Bindings;
