//! The grammar of scripts: the trees of scripts, and which tokens spell which tree.
//!
//! This crate has types, definitions and a law alone. `script_parser` finds the tree that tokens spell.
#![tactic(auto)]

// Declarations.
mod declaration;
// Expressions, calls, and what is waited for.
mod expression;
// What holds of the definitions.
mod laws;
// Which parts may stand where.
mod region;
// Statements and blocks.
mod statement;

pub use declaration::{Actor, Decl, Executor, Field, Local, Method, Root};
pub use expression::{Awaited, Call, Expr, Name, Value, Wait};
pub use laws::scripts_are_short;
pub use region::{Atoms, Region};
pub use statement::{Action, Add, Head, Make, Stmt};
