//! The syntax of the subset of Swift that `nuchapay` takes: tokens, the tree that they spell, and why they spell none.
#![tactic(auto)]

// What stands before a block in an actor.
mod actor;
// The kinds of bytes.
mod class;
// Tasks, groups and bindings: what has a closure.
mod closure;
// What a file declares.
mod declaration;
// Expressions.
mod expression;
// What stands at the front of a text.
mod front;
// What holds of the definitions.
mod laws;
// How deep a file may nest.
mod limits;
// The tokens of a text.
mod list;
// Whole files.
mod reading;
// A reader of tokens, which notes the first refusal.
mod reader;
// Why a file is refused.
mod rule;
// Signs of one to three bytes.
mod sign;
// Statements.
mod statement;
// One token.
mod token;
// The tree of a file.
mod tree;
// Words that are no names.
mod word;

pub use laws::one_reading;
pub use list::tokens;
pub use reading::{ReadFile, read_file};
pub use rule::{Breach, Refusal, Rule};
pub use sign::Sign;
pub use token::{Token, TokenKind};
pub use tree::{
    Access, ActorDecl, Argument, Assigning, CaseDecl, ConstantDecl, ExecutorDecl, ExecutorKindDecl,
    ExpectDecl, Expr, ExprForm, FieldDecl, FieldStart, InstanceDecl, Into, InvariantDecl,
    LocalDecl, MethodDecl, ParamDecl, Receiver, Stmt, StmtForm, TaskForm, Tree, ValueType,
};
pub use word::Word;
