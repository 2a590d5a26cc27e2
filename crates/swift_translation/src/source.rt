//! From what a script is written.

ghost use Rattle.std.specs.Prelude.{◌≡◌, bytes_eq, slice_get};
ghost use Rattle.swift_translation.specs.Sources.{IsSourceOf, argument_at, bytes_at, checks_cancelled, expr_at, instruction_at, is_asked, is_cancelling, is_check, may_ask_cancelled, may_cancel, reads_cancelled, value_at};

use std::alloc::Global;
use swift_expressions::{Code, Instruction, NONE, Operand, Unit, Value, Variable};
use swift_syntax::{Argument, Expr, ExprForm, Token, Tree};

/// From what a script is written.
#[derive(Clone, Copy)]
pub(crate) struct Source<'a> {
    pub alloc: Global,
    pub text: &'a [u8],
    pub tokens: &'a [Token],
    /// Behind a Box: the prover spells out what a reference leads to wherever a `Source` is touched, but not what is in a Box.
    pub tree: &'a Box<Tree>,
    pub code: &'a Code,
    /// The instance whose actor is written.
    pub instance: usize,
    /// Whether what is written is a closure.
    pub is_closure: bool,
    /// Whether a task may ask whether it is cancelled, and be so.
    pub may_ask_cancelled: bool,
}

/// From what a statement is written, and where.
#[derive(Clone, Copy)]
pub(crate) struct Context<'a> {
    pub source: Source<'a>,
    /// How many blocks are open around it.
    pub open_blocks: usize,
    /// The number of its method among those that were put in; 0 for the first one.
    pub serial: usize,
}

// Whether a value is whether the task is cancelled.
fn is_asked(value: Value) -> bool
    ensures { result ≡ is_asked value }
{
    matches!(value, Value::Cancelled)
}

// Whether an instruction ends a cancelled task.
fn is_check(instruction: Instruction) -> bool
    ensures { result ≡ is_check instruction }
{
    matches!(instruction, Instruction::Check)
}

// Whether an instruction may cancel a task, by itself or with its group.
fn is_cancelling(instruction: Instruction) -> bool
    ensures { result ≡ is_cancelling instruction }
{
    matches!(instruction, Instruction::Cancel(_) | Instruction::Group(_))
}

// Whether a value asks whether its task is cancelled.
#[tactic(auto, unfolding(crate::specs::Sources::reads_cancelled))]
fn reads_cancelled(code: &Code) -> bool
    ensures { result ≡ reads_cancelled code.now }
{
    code.values.iter().any(|v| is_asked(*v))
}

// Whether an instruction asks that.
#[tactic(auto, unfolding(crate::specs::Sources::checks_cancelled))]
fn checks_cancelled(code: &Code) -> bool
    ensures { result ≡ checks_cancelled code.now }
{
    code.instructions.iter().any(|i| is_check(*i))
}

// Whether some task may be cancelled.
#[tactic(auto, unfolding(crate::specs::Sources::may_cancel))]
fn may_cancel(code: &Code) -> bool
    ensures { result ≡ may_cancel code.now }
{
    code.instructions.iter().any(|i| is_cancelling(*i))
}

// Whether a task may ask whether it is cancelled, and be so.
fn may_ask_cancelled(code: &Code) -> bool
    ensures { result ≡ may_ask_cancelled code.now }
{
    (reads_cancelled(code) || checks_cancelled(code)) && may_cancel(code)
}

impl<'a> Context<'a> {
    /// The same for the method that was put in as the one of this number.
    pub(crate) fn of_serial(&self, serial: usize) -> Context<'a>
        ensures { result ≡ record self.now { serial = serial } }
    {
        Context {
            source: self.source,
            open_blocks: self.open_blocks,
            serial,
        }
    }
}

impl<'a> Source<'a> {
    pub(crate) fn new(
        alloc: Global,
        text: &'a [u8],
        tokens: &'a [Token],
        tree: &'a Box<Tree>,
        code: &'a Code,
    ) -> Source<'a>
        ensures { IsSourceOf text.now tokens.now tree.now.value code.now result }
    {
        Source {
            alloc,
            text,
            tokens,
            tree,
            code,
            instance: NONE,
            is_closure: false,
            may_ask_cancelled: may_ask_cancelled(code),
        }
    }

    /// From what something is written that stands in no body.
    pub(crate) fn context(&self) -> Context<'a>
        ensures { result ≡ record { source = self.now; open_blocks = 0; serial = 0 } }
    {
        Context {
            source: *self,
            open_blocks: 0,
            serial: 0,
        }
    }

    /// The same for another instance.
    pub(crate) fn of_instance(&self, instance: usize) -> Source<'a>
        ensures { result ≡ record self.now { instance = instance } }
    {
        Source {
            alloc: self.alloc,
            text: self.text,
            tokens: self.tokens,
            tree: self.tree,
            code: self.code,
            instance,
            is_closure: self.is_closure,
            may_ask_cancelled: self.may_ask_cancelled,
        }
    }

    /// The same for a closure, or for something else.
    pub(crate) fn of_closure(&self, is_closure: bool) -> Source<'a>
        ensures { result ≡ record self.now { is_closure = is_closure } }
    {
        Source {
            alloc: self.alloc,
            text: self.text,
            tokens: self.tokens,
            tree: self.tree,
            code: self.code,
            instance: self.instance,
            is_closure,
            may_ask_cancelled: self.may_ask_cancelled,
        }
    }

    /// The bytes of a token; none where there is no such token.
    pub(crate) fn bytes(&self, place: usize) -> &'a [u8]
        ensures { result.now ≡ bytes_at self.now place }
    {
        match self.tokens.get(place) {
            Some(token) => self.text.get(token.from..token.to).unwrap_or(b""),
            None => b"",
        }
    }

    /// Whether two tokens have the same bytes.
    pub(crate) fn are_same(&self, left: usize, right: usize) -> bool
        ensures { result ≡ bytes_eq (bytes_at self.now left) (bytes_at self.now right) }
    {
        self.bytes(left) == self.bytes(right)
    }

    /// The value at a place.
    pub(crate) fn value_at(&self, place: usize) -> Value
        ensures { result ≡ value_at self.now place }
    {
        match self.code.values.get(place) {
            Some(value) => *value,
            None => Value::Number(0),
        }
    }

    /// The operand at a place.
    pub(crate) fn operand_at(&self, place: usize) -> Option<Operand>
        ensures { result ≡ slice_get self.now.code.now.operands.items place }
    {
        self.code.operands.get(place).copied()
    }

    /// The unit at a place.
    pub(crate) fn unit_at(&self, place: usize) -> Option<Unit>
        ensures { result ≡ slice_get self.now.code.now.units.items place }
    {
        self.code.units.get(place).copied()
    }

    /// The variable at a place.
    pub(crate) fn variable_at(&self, place: usize) -> Option<Variable>
        ensures { result ≡ slice_get self.now.code.now.variables.items place }
    {
        self.code.variables.get(place).copied()
    }

    /// The instruction at a place.
    pub(crate) fn instruction_at(&self, place: usize) -> Instruction
        ensures { result ≡ instruction_at self.now place }
    {
        match self.code.instructions.get(place) {
            Some(instruction) => *instruction,
            None => Instruction::Skip(NONE),
        }
    }

    /// The expression at a place of the tree; none where there is no such place.
    pub(crate) fn expr(&self, place: usize) -> Expr
        ensures { result ≡ expr_at self.now place }
    {
        match self.tree.exprs.get(place) {
            Some(expr) => *expr,
            None => Expr {
                form: ExprForm::Missing,
                token: 0,
            },
        }
    }

    /// The argument at a place of the tree; there is none at 0.
    pub(crate) fn argument_at(&self, place: usize) -> Option<Argument>
        ensures { result ≡ argument_at self.now place }
    {
        if place == 0 {
            return None;
        }
        self.tree.arguments.get(place).copied()
    }
}
