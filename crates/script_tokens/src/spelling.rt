//! How keywords and marks are spelled.

ghost use Rattle.std.specs.Prelude.{◌≡◌};
ghost use Rattle.script_tokens.specs.Spelling.{spelling, mark_spelling};

use crate::keyword::Keyword;
use crate::mark::Mark;

impl Keyword {
    /// Its bytes, in lower case.
    pub fn spelling(self) -> &'static [u8]
        ensures { result.now ≡ spelling self }
    {
        match self {
            Keyword::Actor => b"actor",
            Keyword::Add => b"add",
            Keyword::Assume => b"assume",
            Keyword::At => b"at",
            Keyword::Await => b"await",
            Keyword::Background => b"background",
            Keyword::Bind => b"bind",
            Keyword::Cancel => b"cancel",
            Keyword::Cancelled => b"cancelled",
            Keyword::Check => b"check",
            Keyword::Detach => b"detach",
            Keyword::Else => b"else",
            Keyword::Executor => b"executor",
            Keyword::Fifo => b"fifo",
            Keyword::Func => b"func",
            Keyword::Group => b"group",
            Keyword::High => b"high",
            Keyword::If => b"if",
            Keyword::Invariant => b"invariant",
            Keyword::Let => b"let",
            Keyword::Local => b"local",
            Keyword::Low => b"low",
            Keyword::Medium => b"medium",
            Keyword::Next => b"next",
            Keyword::On => b"on",
            Keyword::Pinned => b"pinned",
            Keyword::Priority => b"priority",
            Keyword::Return => b"return",
            Keyword::Root => b"root",
            Keyword::Spawn => b"spawn",
            Keyword::Task => b"task",
            Keyword::Throw => b"throw",
            Keyword::Unless => b"unless",
            Keyword::Var => b"var",
            Keyword::While => b"while",
            Keyword::Yield => b"yield",
        }
    }
}

impl Mark {
    /// Its one or two bytes.
    pub fn spelling(self) -> &'static [u8]
        ensures { result.now ≡ mark_spelling self }
    {
        match self {
            Mark::Open => b"(",
            Mark::Close => b")",
            Mark::OpenBrace => b"{",
            Mark::CloseBrace => b"}",
            Mark::Semicolon => b";",
            Mark::Comma => b",",
            Mark::Dot => b".",
            Mark::Assign => b"=",
            Mark::Bang => b"!",
            Mark::Plus => b"+",
            Mark::Minus => b"-",
            Mark::Times => b"*",
            Mark::Equal => b"==",
            Mark::Unequal => b"!=",
            Mark::Less => b"<",
            Mark::AtMost => b"<=",
            Mark::Greater => b">",
            Mark::AtLeast => b">=",
            Mark::And => b"&&",
            Mark::Or => b"||",
            Mark::At => b"@",
        }
    }
}
