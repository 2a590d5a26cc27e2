//! The keywords: the words that are no names.

/// A word that has a meaning of its own and so is no name.
#[derive(Clone, Copy)]
pub enum Keyword {
    /// `actor`
    Actor,
    /// `add`
    Add,
    /// `assume`
    Assume,
    /// `at`
    At,
    /// `await`
    Await,
    /// `background`
    Background,
    /// `bind`
    Bind,
    /// `cancel`
    Cancel,
    /// `cancelled`
    Cancelled,
    /// `check`
    Check,
    /// `detach`
    Detach,
    /// `else`
    Else,
    /// `executor`
    Executor,
    /// `fifo`
    Fifo,
    /// `func`
    Func,
    /// `group`
    Group,
    /// `high`
    High,
    /// `if`
    If,
    /// `invariant`
    Invariant,
    /// `let`
    Let,
    /// `local`
    Local,
    /// `low`
    Low,
    /// `medium`
    Medium,
    /// `next`
    Next,
    /// `on`
    On,
    /// `pinned`
    Pinned,
    /// `priority`
    Priority,
    /// `return`
    Return,
    /// `root`
    Root,
    /// `spawn`
    Spawn,
    /// `task`
    Task,
    /// `throw`
    Throw,
    /// `unless`
    Unless,
    /// `var`
    Var,
    /// `while`
    While,
    /// `yield`
    Yield,
}
