//! How a script is run.

/// How a script is run (our own).
#[derive(Clone, Copy)]
pub struct Options {
    /// On how many threads: 1 to 8 where `options` made it.
    pub workers: u32,
    /// Whether the journals are left out of the report.
    pub quiet: bool,
}
