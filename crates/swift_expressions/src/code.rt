//! The instructions.

ghost use Rattle.std.specs.Prelude.{◌≡◌, []};

use crate::lines::Spot;
use std::alloc::Global;
use swift_types::{Operator, Priority};

/// Where no place stands.
pub const NONE: usize = usize::MAX;

/// A value without waits and calls. Its parts are places in the table of values.
#[derive(Clone, Copy)]
pub enum Value {
    /// A number; 1 and 0 for true and false.
    Number(i64),
    /// A variable.
    Variable(usize),
    /// A field of the own actor.
    Field(usize),
    /// A field of an instance, at the end of a run.
    Member(usize, usize),
    /// A task local.
    Local(usize),
    /// How urgent the task is.
    Priority,
    /// Whether the task is cancelled.
    Cancelled,
    /// `-v`
    Negate(usize),
    /// `!v`
    Not(usize),
    /// `a OP b`
    Binary(Operator, usize, usize),
}

/// The type of an expression.
#[derive(Clone, Copy, PartialEq, Eq)]
pub enum Kind {
    /// A number.
    Int,
    /// True or false.
    Bool,
    /// Nothing.
    Void,
    /// A priority.
    Urgency,
}

/// Where a result goes.
#[derive(Clone, Copy)]
pub enum Target {
    /// Nowhere.
    Nothing,
    /// To a variable that begins here.
    Declare(usize),
}

/// What is waited for.
#[derive(Clone, Copy)]
pub enum Wait {
    /// A method of an instance, with the first of its operands.
    Method(usize, usize, usize),
    /// A field of an instance.
    Getter(usize, usize),
    /// A method of the own instance, or a function outside of actors, with the first of its operands.
    Own(usize, usize),
    /// A method that a closure became, with the first of its operands.
    Unit(usize, usize),
    /// A task.
    Task(usize),
    /// The next result of a group.
    Next(usize),
}

/// What a task runs, with the first of its operands.
#[derive(Clone, Copy)]
pub enum Callee {
    /// A method of an instance; of `NONE`, a function outside of actors.
    Method(usize, usize, usize),
    /// A method that a closure became.
    Unit(usize, usize),
}

/// What is done.
#[derive(Clone, Copy)]
pub enum Instruction {
    /// A variable begins with a value.
    Let(usize, usize),
    /// A variable gets a value.
    Set(usize, usize),
    /// A field of the own actor gets a value.
    SetField(usize, usize),
    /// A value is printed, at a place among those that are.
    Print(usize, usize),
    /// A value has to hold, by what is said on a line.
    Require(usize, usize),
    /// A wait; the value stands for its result where it ends with a fault, unless there is none.
    Wait(Target, Wait, usize),
    /// A method of the own actor, or a function, with the first of its operands, is put in here.
    Inline(Target, usize, usize, usize),
    /// A task begins: the variable that names it, whether it is detached, and its priority where it has one of its own.
    Make(usize, bool, Callee, Option<Priority>),
    /// A child of a group begins: the group's variable, whether only where it is not cancelled, and its priority where it has one of its own.
    Add(usize, bool, Callee, Option<Priority>),
    /// A task or a group is cancelled.
    Cancel(usize),
    /// A cancelled task ends with a fault here.
    Check,
    /// The turn ends here.
    Yield,
    /// The method ends with a value, or `NONE`.
    Return(usize),
    /// The method ends with a fault.
    Throw(usize),
    /// What follows up to `Else` or `End` is done where the value holds.
    If(usize),
    /// What follows up to `End` is done where it did not hold.
    Else,
    /// What follows up to `End` is done while the value holds.
    While(usize),
    /// What follows up to `End` is a group's block.
    Group(usize),
    /// What follows up to `End` has a task local bound.
    Bind(usize, usize),
    /// What follows up to `End` is done unless the method has returned.
    Rest,
    /// The end of a block.
    End,
    /// What follows is another unit's, up to this place.
    Skip(usize),
}

/// What a unit is.
#[derive(Clone, Copy)]
pub enum UnitKind {
    /// A method of an actor, or a function outside of actors.
    Method(usize),
    /// A closure.
    Closure,
    /// `main`.
    Main,
}

/// A method with its instructions.
#[derive(Clone, Copy)]
pub struct Unit {
    /// What it is.
    pub kind: UnitKind,
    /// The place of the actor in whose text it stands, or `NONE`.
    pub actor: usize,
    /// The place of its first instruction.
    pub from: usize,
    /// The place behind its last one.
    pub to: usize,
    /// Whether something of it may follow a `return`.
    pub needs_done: bool,
    /// Whether a `return` stands in a group's block of it.
    pub returns_inside: bool,
    /// The token that it begins at.
    pub token: usize,
    /// The token behind its last one.
    pub end: usize,
    /// The token of the name of the method in whose text it stands, or `NONE` where that is `main`.
    pub method: usize,
    /// Where it stands, if it is a closure.
    pub spot: Spot,
}

/// A variable.
#[derive(Clone, Copy)]
pub struct Variable {
    /// The place of its unit.
    pub unit: usize,
    /// The token of its name, or 0.
    pub token: usize,
    /// How many of its unit and its actor's fields have the same name before it.
    pub duplicate: usize,
    /// Whether it is a parameter.
    pub is_param: bool,
}

/// A value that is handed over.
#[derive(Clone, Copy)]
pub struct Operand {
    /// The value.
    pub value: usize,
    /// Its type.
    pub kind: Kind,
    /// The place of the next one, or `NONE`.
    pub next: usize,
}

/// The instructions of a file.
#[derive(Drop)]
pub struct Code {
    /// The instructions of all units.
    pub instructions: Vec<Instruction>,
    /// Their values.
    pub values: Vec<Value>,
    /// What is handed over.
    pub operands: Vec<Operand>,
    /// Their variables.
    pub variables: Vec<Variable>,
    /// The units. That of a method has the method's place.
    pub units: Vec<Unit>,
    /// Where the values stand that `main` prints, in order.
    pub printed: Vec<Spot>,
    /// The values of invariants, in the order of the tree's.
    pub invariants: Vec<usize>,
    /// The values of expectations, in the order of the tree's.
    pub expectations: Vec<usize>,
}

impl Code {
    /// No instructions.
    pub fn new(alloc: Global) -> Code
        ensures instructions { result.instructions.items ≡ [] }
        ensures values { result.values.items ≡ [] }
        ensures operands { result.operands.items ≡ [] }
        ensures variables { result.variables.items ≡ [] }
        ensures units { result.units.items ≡ [] }
    {
        Code {
            instructions: Vec::new(alloc),
            values: Vec::new(alloc),
            operands: Vec::new(alloc),
            variables: Vec::new(alloc),
            units: Vec::new(alloc),
            printed: Vec::new(alloc),
            invariants: Vec::new(alloc),
            expectations: Vec::new(alloc),
        }
    }
}
