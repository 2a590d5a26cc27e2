//! What of an expression or an action has no plain Swift.
#![tactic(auto, using(crate::proofs::Found::then_found, crate::proofs::Found::none_found))]

ghost use Rattle.std.specs.Prelude.{◌≡◌, map, None, Some};
ghost use Rattle.std.specs.List.{list_any};
ghost use Rattle.script_grammar.specs.Tree.{block_tree, text_of, view, view_action, view_add, view_awaited, view_call, view_decl, view_if, view_make, view_stmt, view_value, view_wait};
ghost use Rattle.plain_forms.specs.Forms as forms;
ghost use Rattle.plain_forms.specs.Forms.{Finds, view_place};

use crate::form::Form;
use plain_parts::{Sought, call_of, has, is_same};
use script_grammar::{Action, Add, Awaited, Call, Decl, Expr, Name, Stmt, Value, Wait};
use swift_types::Operator;

/// A form without plain Swift, and where it stands: how many names and numbers the script has before it (our own).
#[derive(Clone, Copy)]
pub struct FoundForm {
    /// The form.
    pub form: Form,
    /// How many names and numbers there are before it.
    pub before: usize,
}

/// A walk through a script, in the order of its text.
#[derive(Drop)]
pub(crate) struct Walk {
    pub found: Option<FoundForm>,
    // How many names and numbers were passed.
    passed: usize,
}

/// What a statement stands in: the script, its actor, the parameters of its method, and whether a group is around it.
#[derive(Clone, Copy)]
pub(crate) struct Place<'a> {
    pub decls: &'a [Decl],
    pub actor: &'a Name,
    pub params: &'a [Name],
    pub in_group: bool,
}

/// The first number that is no error: those that a plain file throws are below.
const FAILURES: i64 = 100;

// Whether a test asks whether the task is cancelled.
fn asks(expr: &Expr) -> bool
    ensures { result ≡ forms.asks (view expr.now) }
{
    match expr {
        Expr::Cancelled => true,
        Expr::Not(operand) => asks(operand),
        Expr::Binary(Operator::Or | Operator::And, left, right) => asks(left) || asks(right),
        _ => false,
    }
}

// Whether an expression is a number, perhaps with `-` before it.
fn is_numeral(expr: &Expr) -> bool
    ensures { result ≡ forms.is_numeral (view expr.now) }
{
    match expr {
        Expr::Number(_) => true,
        Expr::Negate(operand) => is_numeral(operand),
        _ => false,
    }
}

// Whether an expression is a number with `-` before it.
fn is_negative(expr: &Expr) -> bool
    ensures { result ≡ forms.is_negative (view expr.now) }
{
    match expr {
        Expr::Negate(operand) => is_numeral(operand),
        _ => false,
    }
}

fn is_failure(value: &Expr) -> bool
    ensures { result ≡ forms.is_failure (view value.now) }
{
    match value {
        Expr::Number(number) => *number < FAILURES,
        _ => false,
    }
}

fn is_itself(name: &Name, value: &Value) -> bool
    ensures { result ≡ forms.is_itself (text_of name.now) (view_value value.now) }
{
    match value {
        Value::Expr(Expr::Name(other)) => is_same(name, other),
        _ => false,
    }
}

fn any_param(params: &[Name], name: &Name) -> bool
    ensures { result ≡ list_any (λ param. forms.is_named (text_of name.now) (text_of param)) params.now }
{
    params.iter().any(|param| is_same(param, name))
}

fn is_param(place: Place<'_>, name: &Name) -> bool
    ensures { result ≡ forms.is_param (view_place place.entry) (text_of name.now) }
{
    any_param(place.params, name)
}

fn is_root_of(decl: &Decl, name: &Name) -> bool
    ensures { result ≡ forms.is_root_of (text_of name.now) (view_decl decl.now) }
{
    match decl {
        Decl::Root(root) => is_same(&root.name, name),
        Decl::Executor(_) | Decl::Local(_) | Decl::Actor(_) => false,
    }
}

fn any_root(decls: &[Decl], name: &Name) -> bool
    ensures { result ≡ list_any (λ decl. forms.is_root_of (text_of name.now) (view_decl decl)) decls.now }
{
    decls.iter().any(|decl| is_root_of(decl, name))
}

fn is_root(place: Place<'_>, name: &Name) -> bool
    ensures { result ≡ forms.is_root (view_place place.entry) (text_of name.now) }
{
    any_root(place.decls, name)
}

impl Walk {
    /// Before the first form.
    pub(crate) fn new() -> Walk
        ensures { forms.form_of result ≡ None }
    {
        Walk {
            found: None,
            passed: 0,
        }
    }

    /// A form without plain Swift stands here. The first one counts.
    pub(crate) fn refuse(&mut self, form: Form)
        ensures { Finds self.old self.new (Some form) }
    {
        if self.found.is_none() {
            self.found = Some(FoundForm {
                form,
                before: self.passed,
            });
        }
    }

    /// A form without plain Swift stands here where this is not so.
    pub(crate) fn want(&mut self, is_plain: bool, form: Form)
        ensures { Finds self.old self.new (forms.unless is_plain form) }
    {
        if !is_plain {
            self.refuse(form)
        }
    }

    /// Passes names and numbers.
    pub(crate) fn pass(&mut self, count: usize)
        ensures { forms.form_of self.new ≡ forms.form_of self.old }
    {
        self.passed = self.passed.saturating_add(count);
    }

    // An expression that is wanted as a number.
    fn number(&mut self, expr: &Expr)
        ensures { Finds self.old self.new (forms.number_form (view expr.now)) }
    {
        match expr {
            Expr::Number(_) | Expr::Name(_) => self.pass(1),
            Expr::Negate(operand) => {
                self.want(!is_negative(operand), Form::MinusTwice);
                self.number(operand)
            }
            Expr::Binary(Operator::Plus | Operator::Minus | Operator::Times, left, right) => {
                self.number(left);
                self.number(right)
            }
            Expr::Local(_) => self.refuse(Form::TaskLocal),
            Expr::Priority => self.refuse(Form::Priority),
            Expr::Not(_) | Expr::Cancelled | Expr::Binary(_, _, _) => {
                self.refuse(Form::TestAsNumber)
            }
        }
    }

    /// An expression that is wanted as a test: a number is one that is not 0.
    pub(crate) fn test(&mut self, expr: &Expr)
        ensures { Finds self.old self.new (forms.test_form (view expr.now)) }
    {
        match expr {
            Expr::Not(operand) => self.test(operand),
            Expr::Cancelled => self.pass(1),
            Expr::Binary(Operator::Or | Operator::And, left, right) => {
                self.test(left);
                self.want(!asks(right), Form::CancelledRight);
                self.test(right)
            }
            Expr::Binary(
                Operator::Equal
                | Operator::Unequal
                | Operator::Less
                | Operator::AtMost
                | Operator::Greater
                | Operator::AtLeast,
                left,
                right,
            ) => {
                self.number(left);
                self.number(right)
            }
            _ => self.number(expr),
        }
    }

    fn numbers(&mut self, exprs: &[Expr])
        ensures { Finds self.old self.new (forms.numbers_form (map view exprs.now)) }
    {
        match exprs {
            [] => self.pass(0),
            [expr, rest @ ..] => {
                self.number(expr);
                self.numbers(rest)
            }
        }
    }

    fn call(&mut self, call: &Call)
        ensures { Finds self.old self.new (forms.call_form (view_call call.now)) }
    {
        self.pass(2);
        self.numbers(&call.args)
    }

    fn awaited(&mut self, place: Place<'_>, awaited: &Awaited, has_other: bool)
        ensures { Finds self.old self.new (forms.awaited_form (view_place place.entry) has_other (view_awaited awaited.now)) }
    {
        match awaited {
            Awaited::Call(call) => {
                self.want(!is_same(&call.actor, place.actor), Form::OwnCall);
                self.call(call)
            }
            Awaited::Task(name) => {
                self.want(!is_root(place, name), Form::RootByName);
                self.pass(1)
            }
            Awaited::Next(_) => {
                self.want(!has_other, Form::NextElse);
                self.pass(1)
            }
        }
    }

    fn other(&mut self, other: &Option<Expr>)
        ensures { Finds self.old self.new (forms.other_form (view_if other.now)) }
    {
        match other {
            Some(value) => self.number(value),
            None => self.pass(0),
        }
    }

    fn wait(&mut self, place: Place<'_>, wait: &Wait)
        ensures { Finds self.old self.new (forms.wait_form (view_place place.entry) (view_wait wait.now)) }
    {
        self.awaited(place, &wait.awaited, is_there(&wait.other));
        self.other(&wait.other)
    }

    fn value(&mut self, place: Place<'_>, value: &Value)
        ensures { Finds self.old self.new (forms.value_form (view_place place.entry) (view_value value.now)) }
    {
        match value {
            Value::Expr(expr) => self.number(expr),
            Value::Await(wait) => self.wait(place, wait),
        }
    }

    fn assign(&mut self, place: Place<'_>, name: &Name, value: &Value)
        ensures { Finds self.old self.new (forms.assign_form (view_place place.entry) (text_of name.now) (view_value value.now)) }
    {
        self.want(!is_param(place, name), Form::ParameterSet);
        self.want(!is_itself(name, value), Form::SetToItself);
        self.pass(1);
        self.value(place, value)
    }

    fn add(&mut self, add: &Add)
        ensures { Finds self.old self.new (forms.add_form (view_add add.now)) }
    {
        self.want(!add.unless, Form::AddWord);
        self.want(add.priority.is_none(), Form::AddWord);
        self.pass(1);
        self.call(&add.call)
    }

    fn returned(&mut self, place: Place<'_>, value: &Expr)
        ensures { Finds self.old self.new (forms.return_form (view_place place.entry) (view value.now)) }
    {
        self.want(!place.in_group, Form::ReturnInGroup);
        self.number(value)
    }

    /// A statement without a block, before those that follow it.
    pub(crate) fn action(&mut self, place: Place<'_>, action: &Action, rest: &[Stmt])
        ensures { Finds self.old self.new (forms.action_form (view_place place.entry) (view_action action.now) (block_tree (map view_stmt rest.now))) }
    {
        match action {
            Action::Let(_, value) => {
                self.pass(1);
                self.value(place, value)
            }
            Action::Assign(name, value) => self.assign(place, name, value),
            Action::LetTask(name, make) => {
                self.want(has(rest, Sought::Wait(name)), Form::NotAwaited);
                self.pass(1);
                self.call(call_of(make))
            }
            Action::Await(wait) => self.wait(place, wait),
            Action::Make(_) => self.refuse(Form::NotAwaited),
            Action::Add(add) => self.add(add),
            Action::Cancel(name) => {
                self.want(!is_root(place, name), Form::RootByName);
                self.pass(1)
            }
            Action::Return(value) => self.returned(place, value),
            Action::Throw(value) => {
                self.want(is_failure(value), Form::Thrown);
                self.pass(1)
            }
            Action::Check | Action::Yield => self.pass(0),
        }
    }
}

fn is_there(other: &Option<Expr>) -> bool
    ensures { result ≡ forms.is_there (view_if other.now) }
{
    match other {
        Some(_) => true,
        None => false,
    }
}
