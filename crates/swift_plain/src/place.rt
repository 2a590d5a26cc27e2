//! What a statement of a method stands in.

use crate::signature::Thrower;
use script_grammar::{Decl, Method};

/// What a statement of a method stands in.
#[derive(Clone, Copy)]
pub(crate) struct Place<'a> {
    /// The whole script.
    pub decls: &'a [Decl],
    /// Its methods that throw.
    pub throwers: &'a [Thrower<'a>],
    /// The method.
    pub method: &'a Method,
    /// The name of the group around the statement; empty where there is none.
    pub group: &'a [u8],
    /// Whether that group throws.
    pub group_throws: bool,
}
