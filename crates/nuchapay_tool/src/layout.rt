//! A script as a person would lay it out: its tokens and comments with line breaks, indentation and the spaces between them.

// Comments between tokens.
mod comment;
// What stands between two tokens.
mod gap;
// Parentheses that say nothing.
mod needless;
// What a token is to the layout.
mod part;
// The text of tokens.
mod text;

pub(crate) use text::layout;
