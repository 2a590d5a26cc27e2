//! Signs of one to three bytes.

/// A sign of one to three bytes.
#[derive(Clone, Copy, PartialEq, Eq)]
pub enum Sign {
    /// `(`
    Open,
    /// `)`
    Close,
    /// `{`
    OpenBrace,
    /// `}`
    CloseBrace,
    /// `[`
    OpenBracket,
    /// `]`
    CloseBracket,
    /// `;`
    Semicolon,
    /// `,`
    Comma,
    /// `.`
    Dot,
    /// `:`
    Colon,
    /// `=`
    Assign,
    /// `+=`
    AddAssign,
    /// `-=`
    SubtractAssign,
    /// `*=`
    MultiplyAssign,
    /// `!`
    Bang,
    /// `+`
    Plus,
    /// `-`
    Minus,
    /// `*`
    Times,
    /// `==`
    Equal,
    /// `!=`
    Unequal,
    /// `<`
    Less,
    /// `<=`
    AtMost,
    /// `>`
    Greater,
    /// `>=`
    AtLeast,
    /// `&&`
    And,
    /// `||`
    Or,
    /// `?`
    Question,
    /// `??`
    Coalesce,
    /// `->`
    Arrow,
    /// `..<`
    Below,
    /// `...`
    Through,
    /// `$`
    Dollar,
    /// `@`
    At,
    /// `/`, `%`, `&`, `|`, `^`, `~`, and the assignments of these: operators of Swift that scripts do not have.
    Foreign,
}
