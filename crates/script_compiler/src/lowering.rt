//! From the trees of a script to what its turns run: one walk in the order of the text finds the first error of its names, and makes
//! numbered instructions whose names are places.

// Statements without a block.
mod action;
// Actors.
mod actor;
// Blocks and their statements.
mod block;
// Calls, and what is waited for.
mod call;
// How many numbers and handles stand.
mod counts;
// Declarations.
mod declaration;
// Expressions.
mod expression;
// Laws of the definitions.
pub mod laws;
// Methods, and invariants.
mod method;
// What lowering knows of a whole script.
mod plan;
// What stands at a place of a method.
mod standing;

pub use counts::PlaceCounts;
pub(crate) use declaration::{Parts, declarations};
pub use plan::Plan;
