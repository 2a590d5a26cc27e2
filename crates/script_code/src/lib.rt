//! Methods as numbered instructions: what each instruction does, which instructions may follow it, and what its
//! formulas are worth.
#![tactic(auto)]

mod cells;
mod emit;
mod evaluation;
mod formula;
mod instruction;
pub mod laws;
mod sight;
mod statement;
mod writing;

pub use cells::value_of_cells;
pub use evaluation::{holds, value};
pub use formula::{CompiledCall, FieldPlace, Formula};
pub use instruction::{Act, Cancelled, CompiledAwait, Instruction, NumberPlace};
pub use sight::{Binding, Sight};
pub use statement::{Statement, push_act, push_choice, push_loop};
pub use writing::instructions_of;
