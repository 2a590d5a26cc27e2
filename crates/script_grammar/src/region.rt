//! Which parts of the grammar may stand where.

/// Which atoms an expression may have.
#[derive(Clone, Copy)]
pub enum Atoms {
    /// All.
    Every,
    /// Numbers, names and parentheses: those of an invariant.
    Plain,
}

/// Where a statement stands, as far as the grammar asks.
#[derive(Clone, Copy)]
pub enum Region {
    /// In a method, outside groups and other actors.
    Method,
    /// In a group's block, where no `return` stands.
    Group,
    /// In the block of an `assume`, where nothing waits, gives way, returns or cancels, or makes a task, a group or a
    /// binding.
    Assume,
}
