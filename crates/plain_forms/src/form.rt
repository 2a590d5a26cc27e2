//! Forms of scripts that have no plain Swift.

/// A form that has no plain Swift.
#[derive(Clone, Copy, Debug, PartialEq, Eq)]
pub enum Form {
    /// `executor E ..;`, or `on E`.
    Executor,
    /// `local L = ..;`, `@L` or `bind L = ..`.
    TaskLocal,
    /// `assume A { .. }`.
    Assume,
    /// `priority` as a number.
    Priority,
    /// `-` before a number that has a `-` itself.
    MinusTwice,
    /// A comparison, `!`, `&&`, `||` or `cancelled` where a number is wanted.
    TestAsNumber,
    /// `cancelled` on the right of `&&` or `||`.
    CancelledRight,
    /// Two actors whose names differ only in whether the first letter is a capital.
    SameName,
    /// An assignment to a parameter.
    ParameterSet,
    /// An assignment of a name to itself.
    SetToItself,
    /// An `await` of a method of the own actor.
    OwnCall,
    /// A task that is not awaited.
    NotAwaited,
    /// `await task r` or `cancel r`, where a root has that name.
    RootByName,
    /// `add g unless ..`, or `add g .. at P`.
    AddWord,
    /// A group inside a group.
    InnerGroup,
    /// `await next g else e`.
    NextElse,
    /// `await next g` where a child may not be left: more of them than `add`s before it, or in a block inside the group's.
    NextOfNone,
    /// `throw` of something else than a number from 0 to 99.
    Thrown,
    /// A `return` inside a group.
    ReturnInGroup,
    /// A root `at low` or `at background`.
    RootPriority,
    /// More roots than a turn may make tasks.
    Roots,
}

impl Form {
    /// What is said of it.
    pub fn words(self) -> &'static str {
        match self {
            Form::Executor =>
                "an executor has no plain Swift: leave it out, each actor then has one of its own",
            Form::TaskLocal =>
                "a task local has no plain Swift here: give its value as an argument",
            Form::Assume => "`assume` has no plain Swift: call a method of that actor",
            Form::Priority => "a priority as a number has no plain Swift",
            Form::MinusTwice =>
                "Swift does not know of which type a number with two `-` is: leave both out",
            Form::TestAsNumber => "a test as a number has no plain Swift: write an `if`",
            Form::CancelledRight =>
                "`cancelled` on the right of `&&` or `||` has no plain Swift: put it on the left, or into an `if` of its own",
            Form::SameName =>
                "two actors whose instances would have one name in Swift: give one of them another name",
            Form::ParameterSet => "a parameter is a constant in Swift: assign a variable",
            Form::SetToItself => "Swift refuses to assign a name to itself: leave it out",
            Form::OwnCall =>
                "a call of the own actor ends the turn, and in Swift it does not: put in what the method does",
            Form::NotAwaited =>
                "a task that nobody awaits may be lost in Swift where `main` ends: keep it by `let`, and `await task` it",
            Form::RootByName =>
                "a root is a variable of `main` in Swift, and no method can name it: give a task of the method another name",
            Form::AddWord => "`unless` or a priority of a child has no plain Swift: leave it out",
            Form::InnerGroup => "a group inside a group has no plain Swift: put it into a method",
            Form::NextElse =>
                "`else` of a group's result has no plain Swift: let the child catch what is thrown",
            Form::NextOfNone =>
                "a result of a group without a child for it, or in a block inside the group, has no plain Swift: as many `next` as `add`s, side by side",
            Form::Thrown => "an error is a case in Swift: throw a number from 0 to 99",
            Form::ReturnInGroup =>
                "a `return` inside a group ends its closure alone in Swift: put it behind the group",
            Form::RootPriority =>
                "`main` waits for each root, and so raises it to medium: leave the priority out",
            Form::Roots => "`main` makes all roots in one turn, which may make 16 tasks",
        }
    }
}
