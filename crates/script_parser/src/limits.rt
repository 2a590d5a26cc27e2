//! How deep a script may nest (our own). Code, clauses and definitions cite this name in place of the number.

/// How many blocks and how many parentheses may be open at once, and how high an expression may be.
pub const NESTING: u32 = 32;
