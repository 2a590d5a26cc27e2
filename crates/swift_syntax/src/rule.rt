//! Why a file is refused.

ghost use Rattle.std.specs.Prelude.{◌≡◌, All};
ghost use Rattle.swift_syntax.specs.Places.{IsBlamedIn, IsTokenOf, refusal_of};

use crate::token::Token;

/// A rule of the subset that a file breaks.
#[derive(Clone, Copy, PartialEq, Eq)]
pub enum Rule {
    /// A token that does not fit there.
    Unexpected,
    /// A form of Swift that the subset does not have.
    Outside,
    /// An operator that scripts do not have.
    Operator,
    /// A string that is neither printed nor a message.
    Strings,
    /// A number that no `Int` holds.
    OutOfRange,
    /// White space on one side of an operator, or behind a prefix.
    Spaces,
    /// A line that begins a new statement in Swift, though it looks as if it went on.
    NewStatement,
    /// What is returned or thrown begins on another line.
    ReturnLine,
    /// Two statements on a line without `;`.
    Separator,
    /// A name that is declared twice, or that the subset keeps.
    NameTwice,
    /// A name that stands for nothing here.
    UnknownName,
    /// `Int` where `Bool` is wanted, or the like.
    WrongType,
    /// Another number of arguments, or another label.
    Arguments,
    /// `await` is missing, or may not stand there.
    Await,
    /// `try` is missing, or may not stand there.
    Try,
    /// What is assigned cannot be.
    Assigned,
    /// What is named is private.
    Private,
    /// A method of the own actor, or a function, that calls itself.
    Recursion,
    /// An actor as a value, or made anywhere but in a global `let`.
    ActorValue,
    /// A task that the program may end before.
    TaskLeft,
    /// A `catch` with a pattern.
    CatchPattern,
    /// What a closure cannot capture here.
    Captured,
    /// A path without `return`.
    NoReturn,
    /// A form of the subset that is not taken yet.
    NotYet,
    /// Too deep, or too long.
    TooLarge,
    /// No memory.
    Memory,
}

impl Rule {
    /// The number that a refusal is named by.
    pub fn name(self) -> &'static str {
        match self {
            Rule::Unexpected => "W1",
            Rule::Outside => "W2",
            Rule::Operator => "W3",
            Rule::Strings => "W4",
            Rule::OutOfRange => "W5",
            Rule::Spaces => "W6",
            Rule::NewStatement => "W7",
            Rule::ReturnLine => "W8",
            Rule::Separator => "W9",
            Rule::NameTwice => "W10",
            Rule::UnknownName => "W11",
            Rule::WrongType => "W12",
            Rule::Arguments => "W13",
            Rule::Await => "W14",
            Rule::Try => "W15",
            Rule::Assigned => "W16",
            Rule::Private => "W17",
            Rule::Recursion => "W18",
            Rule::ActorValue => "W19",
            Rule::TaskLeft => "W20",
            Rule::CatchPattern => "W21",
            Rule::Captured => "W22",
            Rule::NoReturn => "W23",
            Rule::NotYet => "W24",
            Rule::TooLarge => "W25",
            Rule::Memory => "W26",
        }
    }

    /// What is wrong, in a word.
    pub fn title(self) -> &'static str {
        match self {
            Rule::Unexpected => "unexpected token",
            Rule::Outside => "a form outside the subset of Swift",
            Rule::Operator => "an operator without a counterpart",
            Rule::Strings => "a string that is neither printed nor a message",
            Rule::OutOfRange => "number out of Int",
            Rule::Spaces => "white space on one side of an operator",
            Rule::NewStatement => "this line begins a new statement in Swift",
            Rule::ReturnLine => "what is returned begins on another line",
            Rule::Separator => "two statements on a line",
            Rule::NameTwice => "name given twice",
            Rule::UnknownName => "unknown name",
            Rule::WrongType => "Int, Bool and Void confused",
            Rule::Arguments => "wrong arguments",
            Rule::Await => "await is missing or misplaced",
            Rule::Try => "try is missing or misplaced",
            Rule::Assigned => "this cannot be assigned",
            Rule::Private => "this is private",
            Rule::Recursion => "a method or function that is put in calls itself",
            Rule::ActorValue => "an actor as a value",
            Rule::TaskLeft => "the program may end before this task",
            Rule::CatchPattern => "a catch with a pattern",
            Rule::Captured => "this cannot be captured here",
            Rule::NoReturn => "a path without return",
            Rule::NotYet => "a form that is not taken yet",
            Rule::TooLarge => "too deep or too long",
            Rule::Memory => "no memory",
        }
    }

    /// What to do.
    pub fn help(self) -> &'static str {
        match self {
            Rule::Unexpected =>
                "look at the grammar in docs/SWIFT_IN.md: this token does not fit there",
            Rule::Outside => "leave it out: docs/SWIFT_IN.md lists what the subset has",
            Rule::Operator => "write it with + - * and comparisons: scripts have no other operator",
            Rule::Strings =>
                "a value is Int or Bool; a string stands only in print, precondition and assert, without \\( )",
            Rule::OutOfRange => "write a number up to 9223372036854775807, in decimal digits",
            Rule::Spaces =>
                "write white space on both sides of the operator, or on neither; none behind a prefix; round < > ? : on both",
            Rule::NewStatement =>
                "write the operator with white space on both sides, as `- 1`, and a parenthesis on the line of what it belongs to",
            Rule::ReturnLine => "begin it on the line of `return` or `throw`",
            Rule::Separator => "write `;` between them, or a new line",
            Rule::NameTwice =>
                "give the second one another name; Task, print, Int and the like are kept",
            Rule::UnknownName =>
                "declare the name, or fix its spelling; an instance is a global `let NAME = ACTOR(..)`",
            Rule::WrongType =>
                "a test is a Bool, arithmetic is Int; a call of a method without a result has no value",
            Rule::Arguments => "give the arguments that are declared, each with its label",
            Rule::Await =>
                "write `await` at the left end where another actor or an async method is used; it may not stand right of && or ||",
            Rule::Try => "write `try` at a call that throws, in a method that throws; else `try?`",
            Rule::Assigned =>
                "assign a `var` of this method or a `var` of its own actor; another actor's fields change by its methods",
            Rule::Private => "call a method of that actor, or leave `private` out",
            Rule::Recursion =>
                "write it as a loop: methods of the own actor, and functions without `async`, are put in where they are called",
            Rule::ActorValue =>
                "make the instance by a global `let`, and name it where it is used, as `account.deposit(1)`",
            Rule::TaskLeft =>
                "keep it, and await its `value`: `let task = Task { .. }`, `await task.value`",
            Rule::CatchPattern => "write `catch` alone: it catches all faults here",
            Rule::Captured =>
                "capture a `let`, or name it in a list as `[x] in`; a closure of a method names its own actor by the instance",
            Rule::NoReturn => "end each path with `return` or `throw`",
            Rule::NotYet =>
                "docs/SWIFT_IN.md says which forms are taken, and how to write this one",
            Rule::TooLarge => "split it: name a part by `let`, or make a method of it",
            Rule::Memory => "give the program more memory",
        }
    }
}

/// Why a file is refused, and where.
#[derive(Clone, Copy)]
pub struct Refusal {
    /// The rule that it breaks.
    pub rule: Rule,
    /// The place of the first byte that is to blame.
    pub from: usize,
    /// The place behind the last byte that is to blame.
    pub to: usize,
}

/// A rule that is broken, and the token that breaks it. The place behind the last token stands for the end of the text.
#[derive(Clone, Copy)]
pub struct Breach {
    /// The rule that is broken.
    pub rule: Rule,
    /// The place of the token among all.
    pub token: usize,
}

impl Breach {
    /// The refusal of a text with these tokens, which says which of its bytes are to blame.
    pub fn refusal(self, text: &[u8], tokens: &[Token]) -> Refusal
        requires { All (IsTokenOf text.now) tokens.now }
        ensures refusal { result ≡ refusal_of text.now tokens.now self }
        ensures rule { result.rule ≡ self.rule }
        ensures blamed { IsBlamedIn text.now result }
    {
        let (from, to) = match tokens.get(self.token) {
            Some(token) => (token.from, token.to),
            None => (text.len(), text.len()),
        };
        let Breach { rule, .. } = self;
        Refusal { rule, from, to }
    }
}
