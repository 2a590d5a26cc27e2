//! Names of scripts: what a script declares, what stands at a place of it, and what can be wrong with a name there.
#![tactic(auto)]

// What is known of the names that stand and of the fields of other actors.
mod checked_names;
// What a script declares.
mod directory;
// What is wrong with a name.
mod error;
// What is wrong with a name, by what stands under it.
mod fault;
// What holds of the definitions.
mod laws;
// The methods of all actors.
mod methods;
// What stands at a place of a script.
mod scope;
// How names are hashed.
mod seed;
// What stands before a declaration.
mod seen;
// Lists of names.
mod texts;

pub use directory::Declared;
pub use error::{CheckError, NameError, NameErrorKind};
pub use fault::{
    at_name, cancel_fault, declared_fault, group_fault, new_fault, number_fault, task_fault,
    where_so,
};
pub use laws::{names_are_few, names_errors_are_complete};
pub use scope::{NameKind, Outside, Scope};
pub use seed::Seed;
pub use seen::{SeenNames, unless_seen};
pub use texts::Names;
