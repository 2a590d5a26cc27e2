//! Bytes of a text.

/// Some bytes of a text, or a place between two (our own). Bytes count from 0.
#[derive(Clone, Copy, Debug, PartialEq, Eq)]
pub struct Span {
    /// The first of them.
    pub from: usize,
    /// The first after them.
    pub to: usize,
}
