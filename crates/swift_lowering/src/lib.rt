//! From the tree of a Swift file to instructions: statements, closures and waits, over the expressions of swift_expressions.
#![tactic(auto)]

// What of a block is but a value.
mod alone;
// Where values go.
mod assignment;
// What closures capture.
mod capture;
// What a `do` catches.
mod catching;
// What has to hold of a file as a whole.
mod checks;
// Closures, and the methods that they become.
mod closure;
// Statements without a block.
mod effect;
// Whole files.
mod file;
// What holds of the definitions.
mod laws;
// What stands at the head of a loop.
mod looping;
// What `print`, `precondition` and `assert` say.
mod print;
// Which statements return.
mod returns;
// Statements with blocks.
mod statement;
// Tasks, groups and bindings.
mod tasks;
// Units whose instructions stand among those of others.
mod unit;

pub use file::{Lowered, lower};
pub use laws::{an_operator_reads_late, names_end_with_their_block, what_statements_put_stays};
