//! Which forms of scripts have no plain Swift.
#![tactic(auto)]

// Forms of scripts that have no plain Swift.
mod form;
// Groups, and what is left in them.
mod group;
// The search for the first form that has no plain Swift.
mod search;
// What of an expression or an action has none.
mod walk;

pub use form::Form;
pub use search::first_form;
pub use walk::FoundForm;
