//! Expressions of a Swift file as instructions, which have the forms of scripts: names are places, values are simple, and each wait stands
//! by itself.
#![tactic(auto)]

// Calls of methods.
mod call;
// The instructions.
mod code;
// Which expressions do something.
mod effect;
// What holds of the definitions.
mod laws;
// Lines of a file.
mod lines;
// A lowering under way.
mod lowering;
// What names stand for, as values.
mod name;
// Names of declarations.
mod naming;
// Operands of calls.
mod operands;
// What stands in scope.
mod scope;
// Values with their types.
mod typed;
// Expressions.
mod value;
// What is waited for.
mod waits;

pub use call::{has_label, want_arguments};
pub use code::{
    Callee, Code, Instruction, Kind, NONE, Operand, Target, Unit, UnitKind, Value, Variable, Wait,
};
pub use effect::DEPTH;
pub use laws::what_is_put_stays;
pub use lines::Spot;
pub use lowering::{Fallback, Lowering, Returns, Setting, setting_of};
pub use name::{field_kind, local_kind, priority_named};
pub use naming::{
    actor_of, constant_named, field_at, field_named, function_named, has_member, instance_at,
    instance_named, is_hidden, is_kept, local_named, method_at, method_named, refuse_hidden,
};
pub use operands::Operands;
pub use scope::{
    Binding, Standing, binding_at, declare, declare_as, find, leave, mark_partial, mark_used,
    standing_at,
};
pub use typed::{Typed, keep, kind_of, literal, want, with_kind};
pub use value::{call_operands, expression, want_wait};
pub use waits::{count_down, count_up, has_child};
