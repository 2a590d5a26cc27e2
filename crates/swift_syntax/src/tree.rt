//! The tree of a file.
//!
//! Its parts lie in tables, and name one another by their places there, so a part is a few numbers, and a large tree is dropped at once.
//! A statement names the one that follows it in its block; the place 0 of statements and of expressions stands for none.

ghost use Rattle.std.specs.Prelude.{◌≡◌, ◌<◌, [], IfSome, Some};
ghost use Rattle.std.specs.List.{slice_get};
ghost use Rattle.swift_syntax.specs.Declarations.{no_rows, rows_of};

use std::alloc::Global;
use swift_types::Operator;

/// The type of a value.
#[derive(Clone, Copy, PartialEq, Eq)]
pub enum ValueType {
    /// A number.
    Int,
    /// True or false.
    Bool,
    /// Nothing.
    Void,
}

/// Who may use a member of an actor.
#[derive(Clone, Copy, PartialEq, Eq)]
pub enum Access {
    /// Everybody.
    Open,
    /// Its own actor.
    Private,
}

/// Whose method is called.
#[derive(Clone, Copy)]
pub enum Receiver {
    /// Nobody's: `f()`.
    Nobody,
    /// The own actor's: `self.f()`.
    Own,
    /// `NAME.f()`, with the token of the name.
    Named(usize),
}

/// What an expression is.
#[derive(Clone, Copy)]
pub enum ExprForm {
    /// None, where a refusal was noted.
    Missing,
    /// A number.
    Number(i64),
    /// `true` or `false`.
    Truth(bool),
    /// A string.
    Text,
    /// `NAME`.
    Name,
    /// `self.NAME`.
    OwnMember,
    /// `NAME.MEMBER`, with the token of the name.
    Member(usize),
    /// `.NAME`.
    Case,
    /// A call, with the first of its arguments.
    Call(Receiver, usize),
    /// `-e`.
    Negate(usize),
    /// `!e`.
    Not(usize),
    /// `a OP b`.
    Binary(Operator, usize, usize),
    /// `a, b` in a test.
    Both(usize, usize),
    /// `a ? b : c`.
    Choice(usize, usize, usize),
    /// `a ?? b`.
    Otherwise(usize, usize),
    /// `await e`.
    Await(usize),
    /// `try e`.
    Try(usize),
    /// `try? e`.
    TryOptional(usize),
}

/// An expression.
#[derive(Clone, Copy)]
pub struct Expr {
    /// What it is.
    pub form: ExprForm,
    /// The token that stands for it: a name, an operator, a number.
    pub token: usize,
}

/// An argument.
#[derive(Clone, Copy)]
pub struct Argument {
    /// The token of its label, or 0.
    pub label: usize,
    /// Its value.
    pub value: usize,
    /// The place of the next argument, or 0.
    pub next: usize,
}

/// What becomes of a value.
#[derive(Clone, Copy)]
pub enum Into {
    /// It is let go.
    Nothing,
    /// `let NAME =`.
    Let(usize, Option<ValueType>),
    /// `var NAME =`.
    Var(usize, Option<ValueType>),
    /// `NAME =`.
    Assign(usize),
    /// `return`.
    Return,
}

/// How an assignment changes its target.
#[derive(Clone, Copy)]
pub enum Assigning {
    /// `=`
    Set,
    /// `+=`
    Add,
    /// `-=`
    Subtract,
    /// `*=`
    Multiply,
}

/// How a task is made.
#[derive(Clone, Copy)]
pub struct TaskForm {
    /// Whether by `Task.detached`.
    pub is_detached: bool,
    /// The token of its priority, or 0.
    pub priority: usize,
    /// The first statement of its closure.
    pub body: usize,
    /// The first of the names that the closure's list captures.
    pub captures: usize,
}

/// What a statement is. A block is the place of its first statement.
#[derive(Clone, Copy)]
pub enum StmtForm {
    /// An expression, and what becomes of its value.
    Value(Into, usize),
    /// An assignment to the token's name, through `self` where the flag says so.
    Assign(Assigning, bool, usize),
    /// `NAME.toggle()`
    Toggle(bool),
    /// `return` without a value.
    Return,
    /// `throw e`
    Throw(usize),
    /// `if test { } else { }`
    If(usize, usize, usize),
    /// `guard test else { }`
    Guard(usize, usize),
    /// `while test { }`
    While(usize, usize),
    /// `for NAME in from ..< to { }`; the flag says whether the end is taken too.
    For(usize, usize, bool, usize),
    /// `for await NAME in GROUP { }`, with the token of the group, or 0 for `_`; the flag says whether it has `try`.
    ForAwait(usize, bool, usize),
    /// `while let NAME = await GROUP.next() { }`
    WhileNext(usize, bool, usize),
    /// `do { } catch { }`
    DoCatch(usize, usize),
    /// `async let NAME = e`
    AsyncLet(Option<ValueType>, usize),
    /// `Task { }`, and the token of the name that keeps it, or 0.
    Task(usize, TaskForm),
    /// `GROUP.addTask { }`; the flag says whether only where it is not cancelled.
    AddTask(bool, TaskForm),
    /// `withTaskGroup(of: T.self) { NAME in }`: what becomes of its result, the type of results, whether it throws, and the block.
    Group(Into, ValueType, bool, usize),
    /// `ENUM.$NAME.withValue(e) { }`: what becomes of its result, the token of the enum, the value, and the block.
    Bind(Into, usize, usize, usize),
}

/// A statement.
#[derive(Clone, Copy)]
pub struct Stmt {
    /// What it is.
    pub form: StmtForm,
    /// The token that stands for it: its keyword, or the name that it declares or assigns.
    pub token: usize,
    /// The token behind its last one.
    pub end: usize,
    /// The next statement of its block, or 0.
    pub next: usize,
    /// Whether `try` or `try?` or `await` stands before its closure.
    pub is_awaited: bool,
    /// As `is_awaited`, of `try`.
    pub is_tried: bool,
}

/// An actor.
#[derive(Clone, Copy)]
pub struct ActorDecl {
    /// The token of its name.
    pub name: usize,
    /// The token of its executor's name, or 0.
    pub executor: usize,
    /// Whether it has an `init`.
    pub has_init: bool,
    /// The first of its init's parameters.
    pub first_param: usize,
    /// The place behind the last one.
    pub params_end: usize,
}

/// The start value of a field.
#[derive(Clone, Copy)]
pub enum FieldStart {
    /// None: the init gives one.
    None,
    /// A literal.
    Value(usize),
}

/// A field of an actor.
#[derive(Clone, Copy)]
pub struct FieldDecl {
    /// The place of its actor.
    pub actor: usize,
    /// The token of its name.
    pub name: usize,
    /// Whether it is a `var`.
    pub is_var: bool,
    /// Who may read it.
    pub access: Access,
    /// Its type, where that is given.
    pub value_type: Option<ValueType>,
    /// Its start value.
    pub start: FieldStart,
    /// The expression that its actor's init gives it, or 0.
    pub given: usize,
}

/// An invariant of an actor.
#[derive(Clone, Copy)]
pub struct InvariantDecl {
    /// The place of its actor.
    pub actor: usize,
    /// What has to hold.
    pub test: usize,
}

/// What somebody expects of the end of each run.
#[derive(Clone, Copy)]
pub struct ExpectDecl {
    /// The token of its comment.
    pub token: usize,
    /// What is expected to hold.
    pub test: usize,
}

/// A method of an actor, a function outside of actors, or `main`.
#[derive(Clone, Copy)]
pub struct MethodDecl {
    /// The place of its actor, or `usize::MAX` where it stands in none.
    pub actor: usize,
    /// The token of its name.
    pub name: usize,
    /// Who may call it.
    pub access: Access,
    /// Whether it is `async`.
    pub is_async: bool,
    /// Whether it `throws`.
    pub is_throwing: bool,
    /// What it returns.
    pub result: ValueType,
    /// The first of its parameters.
    pub first_param: usize,
    /// The place behind the last one.
    pub params_end: usize,
    /// The first statement of its body.
    pub body: usize,
    /// The token of its closing brace.
    pub end: usize,
}

/// A parameter.
#[derive(Clone, Copy)]
pub struct ParamDecl {
    /// The token of its label, or 0 for `_`.
    pub label: usize,
    /// The token of its name.
    pub name: usize,
    /// Its type.
    pub value_type: ValueType,
}

/// An instance of an actor or of an executor.
#[derive(Clone, Copy)]
pub struct InstanceDecl {
    /// The token of its name.
    pub name: usize,
    /// The token of the name of its actor or class.
    pub of: usize,
    /// The first of its arguments.
    pub arguments: usize,
}

/// A global constant.
#[derive(Clone, Copy)]
pub struct ConstantDecl {
    /// The token of its name.
    pub name: usize,
    /// Its type, where that is given.
    pub value_type: Option<ValueType>,
    /// Its value.
    pub value: usize,
}

/// A task local.
#[derive(Clone, Copy)]
pub struct LocalDecl {
    /// The token of its enum's name.
    pub of: usize,
    /// The token of its name.
    pub name: usize,
    /// Its type, where that is given.
    pub value_type: Option<ValueType>,
    /// Its default.
    pub value: usize,
}

/// A case of an enum of errors.
#[derive(Clone, Copy)]
pub struct CaseDecl {
    /// The token of its enum's name.
    pub of: usize,
    /// The token of its name.
    pub name: usize,
    /// Its place among the cases of its enum.
    pub place: usize,
}

/// The kind of an executor.
#[derive(Clone, Copy)]
pub enum ExecutorKindDecl {
    /// `fifo`
    Fifo,
    /// `priority`
    Priority,
    /// `pinned N`
    Pinned(i64),
}

/// A class of executors.
#[derive(Clone, Copy)]
pub struct ExecutorDecl {
    /// The token of its name.
    pub name: usize,
    /// Its kind.
    pub kind: ExecutorKindDecl,
}

/// What a file declares.
#[derive(Drop)]
pub struct Tree {
    /// Its actors.
    pub actors: Vec<ActorDecl>,
    /// Their fields, by actors in text order.
    pub fields: Vec<FieldDecl>,
    /// Their invariants.
    pub invariants: Vec<InvariantDecl>,
    /// Their methods, and the functions outside of actors.
    pub methods: Vec<MethodDecl>,
    /// The parameters of methods and of inits.
    pub params: Vec<ParamDecl>,
    /// The instances of actors and of executors.
    pub instances: Vec<InstanceDecl>,
    /// The global constants.
    pub constants: Vec<ConstantDecl>,
    /// The task locals.
    pub locals: Vec<LocalDecl>,
    /// The cases of errors.
    pub cases: Vec<CaseDecl>,
    /// What is expected of the end of each run.
    pub expectations: Vec<ExpectDecl>,
    /// The classes of executors.
    pub executors: Vec<ExecutorDecl>,
    /// `main`, of the type whose name is the method's.
    pub mains: Vec<MethodDecl>,
    /// The statements. The first one is none.
    pub stmts: Vec<Stmt>,
    /// The expressions. The first one is none.
    pub exprs: Vec<Expr>,
    /// The arguments. The first one is none.
    pub arguments: Vec<Argument>,
}

impl Tree {
    /// A tree of nothing, with room for nothing.
    pub fn new(alloc: Global) -> Tree
        ensures rows { rows_of result ≡ no_rows }
        ensures stmts { result.stmts.items ≡ [] }
        ensures exprs { result.exprs.items ≡ [] }
        ensures arguments { result.arguments.items ≡ [] }
    {
        Tree {
            actors: Vec::new(alloc),
            fields: Vec::new(alloc),
            invariants: Vec::new(alloc),
            methods: Vec::new(alloc),
            params: Vec::new(alloc),
            instances: Vec::new(alloc),
            constants: Vec::new(alloc),
            locals: Vec::new(alloc),
            cases: Vec::new(alloc),
            expectations: Vec::new(alloc),
            executors: Vec::new(alloc),
            mains: Vec::new(alloc),
            stmts: Vec::new(alloc),
            exprs: Vec::new(alloc),
            arguments: Vec::new(alloc),
        }
    }

    /// The expression at a place; none where there is no such place.
    pub fn expr(&self, place: usize) -> Expr
        ensures { (e : Expr) → slice_get self.now.exprs.items place ≡ Some e → result ≡ e }
    {
        match self.exprs.get(place) {
            Some(expr) => *expr,
            None => Expr {
                form: ExprForm::Missing,
                token: 0,
            },
        }
    }

    /// The argument at a place; none where there is no such place.
    pub fn argument(&self, place: usize) -> Option<Argument> {
        if place == 0 {
            return None;
        }
        self.arguments.get(place).copied()
    }

    /// The statement at a place; none where there is no such place.
    pub fn stmt(&self, place: usize) -> Option<Stmt>
        ensures { IfSome result (λ s. (slice_get self.now.stmts.items place ≡ Some s) × (0 < place)) }
    {
        if place == 0 {
            return None;
        }
        self.stmts.get(place).copied()
    }
}
