//! The printed form of a script's declarations.
#![tactic(auto)]

// Calls, and what is waited for and made by them.
mod call;
// Declarations.
mod declaration;
// Names and expressions.
mod expression;
// What holds of the definitions.
mod laws;
// Lists of what is printed.
mod list;
// What is printed.
mod part;
// Whole scripts.
mod script;
// Statements and blocks.
mod statement;
// One token.
mod token;

pub use laws::{
    one_printed_form, printed_is_ascii, printed_is_text, printed_lexes, printed_reads_back,
    printed_spells, printed_spells_again,
};
pub use script::print;
