//! From the declarations of a checked script to what a run needs of it: executors, task locals, actors, methods and roots,
//! by numbers.
#![tactic(auto)]

// What a script is compiled to.
mod compiled;
// From declarations to all of that.
mod compiling;
// Formulas that are copied.
mod copy;
// Executors, and the actors of each.
mod executors;
// What holds of the definitions.
pub mod laws;
// From the tree of a method to its instructions.
pub mod lowering;
// What fields start with, and the invariants at the start.
mod start;
// Roots that wait for themselves or for later ones.
pub mod waits;

pub use compiled::{
    Compiled, CompiledActor, CompiledExecutor, CompiledField, CompiledLocal, CompiledMethod,
    CompiledRoot,
};
pub use compiling::compile;
pub use start::first_false;
pub use waits::first_waiting_root;
