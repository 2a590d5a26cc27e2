//! How deep a file may nest (our own). The script that it becomes has limits of its own.

/// How many operands may lie in one another: two for each parenthesis.
pub(crate) const DEPTH: u32 = 160;

/// How many blocks may lie in one another, each `else if` counted as one.
pub(crate) const BLOCKS: u32 = 200;
