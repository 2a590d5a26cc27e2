//! What a plain Swift file is made of: names, expressions, lines, and what statements do with a name.
#![tactic(auto)]

// Expressions: numbers, and tests.
mod expression;
// What statements do with a name, and whether they end the method.
mod flow;
// What holds of the definitions.
mod laws;
// How names of a script are spelled.
mod names;
// Lines of a Swift file.
mod page;

pub use expression::{say_number, say_other, say_test};
pub use flow::{Sought, call_of, ends, has};
pub use laws::expressions_are_spelled;
pub use names::{is_instance_of, is_same, say_instance, say_method, say_type, say_value};
pub use page::{Page, deeper, one_more};
