//! Where values go.

ghost use Rattle.std.specs.Prelude.{◌≡◌, ◌↔◌, ℤ, IfNone, IfSome, IsNone, IsSome, IsTrue, true, false, codes, slice_get};
ghost use Rattle.swift_expressions.specs.Instructions.{IsPlaced, KeepsRefusal, Puts};
ghost use Rattle.swift_lowering.specs.Assignments.{GoesTo, operator_of, read_of, set_of};
ghost use Rattle.swift_expressions.specs.Scopes.{IsFirst, IsFree};
ghost use Rattle.swift_expressions.specs.States.{Becomes, bytes_at, expr_at, next_value, put, state_of, with_value};
ghost use Rattle.swift_lowering.specs.Catching.{GivesCaught};
ghost use Rattle.swift_lowering.specs.EndsInside.{EndsInAssignment, EndsInChange, EndsInSet};
ghost use Rattle.swift_lowering.specs.Statements.{Assigns, Defines, GivesTo, IsCaseAt, IsCaseNumber, IsNamed, IsThrown, changed, ended_by, given_back, given_by, returned, thrown, toggled};
ghost use Rattle.swift_lowering.specs.declared.assignment.Destination.{Destination};

use crate::catching::begin_came;
use crate::tasks::give_result;
use swift_expressions::{
    Binding, Instruction, Kind, Lowering, NONE, Returns, Standing, Typed, Value, declare,
    expression, field_at, field_kind, field_named, kind_of, refuse_hidden, standing_at, want,
    with_kind,
};
use swift_syntax::{Assigning, CaseDecl, ExprForm, Into, Rule, Stmt, StmtForm, ValueType};
use swift_types::Operator;

// Refuses a value of another type, where one is wanted.
fn want_type(lowering: &mut Lowering<'_>, found: Typed, wanted: Option<Kind>, token: usize)
    ensures state { Becomes lowering.new (state_of lowering.old) }
    ensures refused { KeepsRefusal lowering.old lowering.new }
{
    if let Some(kind) = wanted {
        want(lowering, found, kind, token);
    }
}

// A name for a value.
fn define(
    lowering: &mut Lowering<'_>,
    name: usize,
    wanted: Option<Kind>,
    found: Typed,
    is_var: bool,
)
    ensures defines { IsNone lowering.new.refused → Defines (state_of lowering.old) name found is_var (state_of lowering.new) }
    ensures refused { KeepsRefusal lowering.old lowering.new }
{
    want_type(lowering, found, wanted, name);
    want_value(lowering, found, name);
    refuse_twice(lowering, name);
    match named_value(lowering, found.value, name) {
        Some(variable) => declare(lowering, name, variable, found.kind, is_var),
        None => {
            let variable = lowering.variable(name, false);
            lowering.put(Instruction::Let(variable, found.value));
            declare(lowering, name, variable, found.kind, is_var);
        }
    }
}

// The variable that is a value, if it gets a name here: it had none.
fn named_value(lowering: &mut Lowering<'_>, value: usize, name: usize) -> Option<usize>
    ensures named { IfSome result (λ v. IsNone lowering.new.refused → IsNamed (state_of lowering.old) value name v (state_of lowering.new)) }
    ensures other { IfNone result (Becomes lowering.new (state_of lowering.old)) }
    ensures refused { KeepsRefusal lowering.old lowering.new }
{
    match lowering.value_at(value) {
        Value::Variable(place) if lowering.name_variable(place, name) => Some(place),
        _ => None,
    }
}

// Refuses a name for nothing, or for a priority.
fn want_value(lowering: &mut Lowering<'_>, found: Typed, name: usize)
    ensures state { Becomes lowering.new (state_of lowering.old) }
    ensures refused { KeepsRefusal lowering.old lowering.new }
{
    if found.kind == Kind::Void || found.kind == Kind::Urgency {
        lowering.refuse(Rule::WrongType, name);
    }
}

// Whether a block has a name already.
fn has_name(lowering: &Lowering<'_>, name: usize) -> bool {
    let start = lowering.setting.block_start;
    for (place, binding) in lowering.scope.iter().enumerate() {
        if place >= start && lowering.are_same(binding.token, name) {
            return true;
        }
    }
    false
}

// Refuses a name that its block has already.
fn refuse_twice(lowering: &mut Lowering<'_>, name: usize)
    ensures state { Becomes lowering.new (state_of lowering.old) }
    ensures refused { KeepsRefusal lowering.old lowering.new }
{
    if has_name(lowering, name) {
        lowering.refuse(Rule::NameTwice, name);
    }
}

// Refuses to give a name its own value, as Swift does.
fn refuse_self(lowering: &mut Lowering<'_>, value: usize, target: usize, name: usize)
    ensures code { lowering.new.code ≡ lowering.old.code }
    ensures state { Becomes lowering.new (state_of lowering.old) }
    ensures refused { KeepsRefusal lowering.old lowering.new }
{
    if value == target {
        lowering.refuse(Rule::Assigned, name);
    }
}

// Where an assignment goes.
#[derive(Clone, Copy)]
enum Destination {
    // To a name in scope.
    Name(Binding),
    // To a field of the own actor.
    Field(usize),
}

// Where an assignment to a name goes, behind `self.` where the flag says so: to the name in scope, or else to the field. Refuses another one.
fn destination_of(lowering: &mut Lowering<'_>, name: usize, is_own: bool) -> Option<Destination>
    ensures goes { IfSome result (GoesTo (state_of lowering.old) name is_own) }
    ensures unknown { IfNone result (IsSome lowering.new.refused) }
    ensures code { lowering.new.code ≡ lowering.old.code }
    ensures state { Becomes lowering.new (state_of lowering.old) }
    ensures refused { KeepsRefusal lowering.old lowering.new }
{
    if is_own {
        return own_destination(lowering, name);
    }
    match standing_at(lowering, name) {
        Some(found) => Some(Destination::Name(found)),
        None => own_destination(lowering, name),
    }
}

// The field of the own actor that an assignment to a name goes to. Refuses another one.
fn own_destination(lowering: &mut Lowering<'_>, name: usize) -> Option<Destination>
    ensures own { IfSome result (GoesTo (state_of lowering.old) name true) }
    ensures bare { IsFree (state_of lowering.old) name → IfSome result (GoesTo (state_of lowering.old) name false) }
    ensures unknown { IfNone result (IsSome lowering.new.refused) }
    ensures code { lowering.new.code ≡ lowering.old.code }
    ensures state { Becomes lowering.new (state_of lowering.old) }
    ensures refused { KeepsRefusal lowering.old lowering.new }
{
    let actor = lowering.setting.actor;
    match field_named(lowering, actor, name) {
        Some(field) => Some(Destination::Field(field)),
        None => {
            lowering.refuse(Rule::UnknownName, name);
            None
        }
    }
}

// Refuses to set what is no variable, or to a value of another type.
fn want_set(lowering: &mut Lowering<'_>, to: Destination, found: Typed, name: usize)
    ensures code { IsNone lowering.new.refused → lowering.new.code ≡ lowering.old.code }
    ensures state { Becomes lowering.new (state_of lowering.old) }
    ensures refused { KeepsRefusal lowering.old lowering.new }
{
    match to {
        Destination::Name(standing) => {
            if standing.standing != Standing::Variable {
                lowering.refuse(Rule::Assigned, name);
            }
            want(lowering, found, standing.kind, name);
        }
        Destination::Field(field) => {
            if !field_at(lowering, field).is_some_and(|f| f.is_var) {
                lowering.refuse(Rule::Assigned, name);
            }
            let kind = field_kind(lowering, field);
            want(lowering, found, kind, name);
        }
    }
}

// Gives a value to where it goes.
fn store(lowering: &mut Lowering<'_>, to: Destination, found: Typed, name: usize)
    ensures put { Puts lowering.old lowering.new (set_of to found.value) }
    ensures state { Becomes lowering.new (put (set_of to found.value) (state_of lowering.old)) }
    ensures values { IsNone lowering.new.refused → lowering.new.code.values ≡ lowering.old.code.values }
    ensures refused { KeepsRefusal lowering.old lowering.new }
{
    want_set(lowering, to, found, name);
    match to {
        Destination::Name(standing) => {
            if let Value::Variable(same) = lowering.value_at(found.value) {
                refuse_self(lowering, same, standing.variable, name);
            }
            lowering.put(Instruction::Set(standing.variable, found.value));
        }
        Destination::Field(field) => {
            if let Value::Field(same) = lowering.value_at(found.value) {
                refuse_self(lowering, same, field, name);
            }
            lowering.put(Instruction::SetField(field, found.value));
        }
    }
}

// Gives a name a value.
#[tactic(auto, using(crate::proofs::Changes::sets_of))]
fn set(lowering: &mut Lowering<'_>, name: usize, is_own: bool, found: Typed)
    ensures set { IsNone lowering.new.refused → EndsInSet lowering.old.code.instructions.items lowering.new.code found.value }
    ensures state { IsNone lowering.new.refused → (to : Destination) × GoesTo (state_of lowering.old) name is_own to × (state_of lowering.new ≡ put (set_of to found.value) (state_of lowering.old)) }
    ensures refused { KeepsRefusal lowering.old lowering.new }
{
    let Some(to) = destination_of(lowering, name, is_own) else {
        return;
    };
    store(lowering, to, found, name);
}

// What stands there before it is changed.
fn current(lowering: &mut Lowering<'_>, to: Destination) -> Typed
    ensures put { IsNone lowering.new.refused → IsPlaced lowering.old.code lowering.new.code (read_of to) result.value }
    ensures state { Becomes lowering.new (with_value (read_of to) (state_of lowering.old)) }
    ensures place { IsNone lowering.new.refused → result.value ≡ next_value (state_of lowering.old) }
    ensures instructions { IsNone lowering.new.refused → lowering.new.code.instructions ≡ lowering.old.code.instructions }
    ensures refused { KeepsRefusal lowering.old lowering.new }
{
    match to {
        Destination::Name(found) => {
            with_kind(lowering, Value::Variable(found.variable), found.kind)
        }
        Destination::Field(field) => {
            let kind = field_kind(lowering, field);
            with_kind(lowering, Value::Field(field), kind)
        }
    }
}

// How an assignment combines what was there with a value.
fn operator_of(how: Assigning) -> Option<Operator>
    ensures { result ≡ operator_of how }
{
    match how {
        Assigning::Set => None,
        Assigning::Add => Some(Operator::Plus),
        Assigning::Subtract => Some(Operator::Minus),
        Assigning::Multiply => Some(Operator::Times),
    }
}

// Combines what a name stands for with a value that is computed already: the name is read here.
#[tactic(auto, using(crate::proofs::Changes::changed))]
fn change(lowering: &mut Lowering<'_>, operator: Operator, is_own: bool, found: Typed, name: usize)
    ensures changed { IsNone lowering.new.refused → EndsInChange lowering.old.code.instructions.items lowering.new.code operator found.value }
    ensures state { IsNone lowering.new.refused → (to : Destination) × GoesTo (state_of lowering.old) name is_own to × (state_of lowering.new ≡ changed operator to found.value (state_of lowering.old)) }
    ensures refused { KeepsRefusal lowering.old lowering.new }
{
    want(lowering, found, Kind::Int, name);
    let Some(to) = destination_of(lowering, name, is_own) else {
        return;
    };
    let before = current(lowering, to);
    let after = Value::Binary(operator, before.value, found.value);
    let after = with_kind(lowering, after, Kind::Int);
    store(lowering, to, after, name);
}

/// An assignment. `x += e` reads x after e.
pub(crate) fn assign(
    lowering: &mut Lowering<'_>,
    how: Assigning,
    is_own: bool,
    place: usize,
    name: usize,
)
    ensures assigned { IsNone lowering.new.refused → EndsInAssignment lowering.new.code (operator_of how) }
    ensures assigns { IsNone lowering.new.refused → Assigns (state_of lowering.old) name is_own place (state_of lowering.new) (operator_of how) }
    ensures refused { KeepsRefusal lowering.old lowering.new }
{
    let found = expression(lowering, place);
    match operator_of(how) {
        Some(operator) => change(lowering, operator, is_own, found, name),
        None => set(lowering, name, is_own, found),
    }
}

/// `NAME.toggle()`
pub(crate) fn toggle(lowering: &mut Lowering<'_>, is_own: bool, name: usize)
    ensures state { IsNone lowering.new.refused → (to : Destination) × GoesTo (state_of lowering.old) name is_own to × (state_of lowering.new ≡ toggled to (state_of lowering.old)) }
    ensures refused { KeepsRefusal lowering.old lowering.new }
{
    let Some(to) = destination_of(lowering, name, is_own) else {
        return;
    };
    let before = current(lowering, to);
    want(lowering, before, Kind::Bool, name);
    let after = with_kind(lowering, Value::Not(before.value), Kind::Bool);
    store(lowering, to, after, name);
}

// Refuses a value of another type than the unit gives, where that is known; else it is known from here on.
fn want_result(lowering: &mut Lowering<'_>, kind: Kind, token: usize)
    ensures state { Becomes lowering.new (state_of lowering.old) }
    ensures refused { KeepsRefusal lowering.old lowering.new }
{
    match lowering.setting.result {
        Some(wanted) => {
            if wanted != kind {
                lowering.refuse(Rule::WrongType, token);
            }
        }
        None => lowering.setting.result = Some(kind),
    }
}

// Returns from the unit.
fn give_unit(lowering: &mut Lowering<'_>, value: usize)
    ensures state { Becomes lowering.new (returned value (state_of lowering.old)) }
    ensures refused { KeepsRefusal lowering.old lowering.new }
{
    if lowering.setting.groups > 0 {
        lowering.return_inside();
    }
    lowering.put(Instruction::Return(value));
}

/// Where a value is that is returned; nothing has no place.
pub(crate) fn given_back(found: Typed) -> usize
    ensures { result ≡ given_back found.kind found.value }
{
    match found.kind {
        Kind::Void => NONE,
        Kind::Int | Kind::Bool | Kind::Urgency => found.value,
    }
}

// Refuses a `return` of a closure anywhere but at the end of its block.
fn want_last(lowering: &mut Lowering<'_>, blocks: usize, stmt: Stmt)
    ensures state { Becomes lowering.new (state_of lowering.old) }
    ensures refused { KeepsRefusal lowering.old lowering.new }
{
    if stmt.next != 0 || lowering.setting.blocks != blocks {
        lowering.refuse(Rule::NotYet, stmt.token);
    }
}

/// A value that is returned.
pub(crate) fn give_back(lowering: &mut Lowering<'_>, found: Typed, stmt: Stmt)
    ensures state { Becomes lowering.new (given_by lowering.old.setting.returns found (state_of lowering.old)) }
    ensures refused { KeepsRefusal lowering.old lowering.new }
{
    want_result(lowering, found.kind, stmt.token);
    match lowering.setting.returns {
        Returns::Closure(_, blocks) => {
            want_last(lowering, blocks, stmt);
            give_result(lowering, found);
        }
        Returns::Unit => give_unit(lowering, given_back(found)),
    }
}

/// `return` without a value
pub(crate) fn give_nothing(lowering: &mut Lowering<'_>, stmt: Stmt)
    ensures state { Becomes lowering.new (ended_by lowering.old.setting.returns (state_of lowering.old)) }
    ensures refused { KeepsRefusal lowering.old lowering.new }
{
    want_result(lowering, Kind::Void, stmt.token);
    match lowering.setting.returns {
        Returns::Closure(_, blocks) => want_last(lowering, blocks, stmt),
        Returns::Unit => give_unit(lowering, NONE),
    }
}

// The type that a declaration names, if it names one.
fn kind_if(named: Option<ValueType>) -> Option<Kind> {
    Some(kind_of(named?))
}

/// Gives a value to where it goes.
pub(crate) fn give(lowering: &mut Lowering<'_>, into: Into, found: Typed, stmt: Stmt)
    ensures gives { IsNone lowering.new.refused → GivesTo (state_of lowering.old) found (state_of lowering.new) into }
    ensures refused { KeepsRefusal lowering.old lowering.new }
{
    match into {
        Into::Nothing => {}
        Into::Let(name, wanted) => define(lowering, name, kind_if(wanted), found, false),
        Into::Var(name, wanted) => define(lowering, name, kind_if(wanted), found, true),
        Into::Assign(name) => set(lowering, name, false, found),
        Into::Return => give_back(lowering, found, stmt),
    }
}

// Whether a case of an enum of errors stands at a place, each with the bytes of a token.
fn is_case_at(lowering: &Lowering<'_>, of: usize, name: usize, place: usize) -> bool
    ensures { IsTrue result ↔ IsCaseAt (state_of lowering.now) of name place }
{
    match lowering.tree.cases.get(place) {
        Some(found) => lowering.are_same(found.of, of) && lowering.are_same(found.name, name),
        None => false,
    }
}

// The place of the case of an enum of errors, each with the bytes of a token: of such ones the first.
fn case_named(lowering: &Lowering<'_>, of: usize, name: usize) -> Option<usize>
    ensures found { IfSome result (IsFirst (IsCaseAt (state_of lowering.now) of name)) }
{
    for place in 0..lowering.tree.cases.len() {
        if is_case_at(lowering, of, name, place) {
            return Some(place);
        }
    }
    None
}

// The case at a place.
fn case_at(lowering: &Lowering<'_>, place: usize) -> Option<CaseDecl>
    ensures { result ≡ slice_get lowering.now.tree.now.value.cases.items place }
{
    lowering.tree.cases.get(place).copied()
}

// The number of a case of an enum of errors.
fn case_number(lowering: &mut Lowering<'_>, of: usize, name: usize) -> i64
    ensures number { IsNone lowering.new.refused → IsCaseNumber (state_of lowering.old) of name result }
    ensures state { Becomes lowering.new (state_of lowering.old) }
    ensures refused { KeepsRefusal lowering.old lowering.new }
{
    let Some(place) = case_named(lowering, of, name) else {
        lowering.refuse(Rule::UnknownName, name);
        return 0;
    };
    let Some(found) = case_at(lowering, place) else {
        lowering.refuse(Rule::UnknownName, name);
        return 0;
    };
    refuse_hidden(lowering, of);
    let Ok(number) = i64::try_from(found.place) else {
        lowering.refuse(Rule::TooLarge, name);
        return 0;
    };
    number
}

// Whether a call of what a token names, with these arguments, is `CancellationError()`.
fn is_cancellation(lowering: &Lowering<'_>, first: usize, token: usize) -> bool
    ensures { IsTrue result ↔ (first ≡ 0) × (bytes_at (state_of lowering.now) token ≡ codes "CancellationError") }
{
    first == 0 && lowering.spells(token, "CancellationError")
}

// The number that an expression throws: the place of a case in its enum, or -1.
fn thrown(lowering: &mut Lowering<'_>, place: usize) -> i64
    ensures thrown { IsNone lowering.new.refused → IsThrown (state_of lowering.old) (expr_at (state_of lowering.old) place) result }
    ensures state { Becomes lowering.new (state_of lowering.old) }
    ensures refused { KeepsRefusal lowering.old lowering.new }
{
    let expr = lowering.expr(place);
    match expr.form {
        ExprForm::Member(of) => case_number(lowering, of, expr.token),
        ExprForm::Call(_, first) => {
            if is_cancellation(lowering, first, expr.token) {
                return -1;
            }
            lowering.refuse(Rule::Outside, expr.token);
            0
        }
        _ => {
            lowering.refuse(Rule::Outside, expr.token);
            0
        }
    }
}

/// `throw e`
pub(crate) fn throw(lowering: &mut Lowering<'_>, place: usize)
    ensures state { IsNone lowering.new.refused → (number : ℤ) × IsThrown (state_of lowering.old) (expr_at (state_of lowering.old) place) number × (state_of lowering.new ≡ thrown number (state_of lowering.old)) }
    ensures refused { KeepsRefusal lowering.old lowering.new }
{
    lowering.setting.has_thrown = true;
    let token = lowering.expr(place).token;
    lowering.refuse_thrown(token);
    let number = thrown(lowering, place);
    let value = lowering.number(number);
    lowering.put(Instruction::Throw(value));
}

/// The beginning of what is done where what came in a `do` was given to where its statement gives it.
pub(crate) fn begin_given(lowering: &mut Lowering<'_>, found: Typed, stmt: Stmt)
    ensures gives { IsNone lowering.new.refused → GivesCaught (state_of lowering.old) stmt.token found (state_of lowering.new) stmt.form }
    ensures refused { KeepsRefusal lowering.old lowering.new }
{
    begin_came(lowering, found);
    match stmt.form {
        StmtForm::Assign(_, is_own, _) => set(lowering, stmt.token, is_own, found),
        StmtForm::Value(into, _) => give(lowering, into, found, stmt),
        // No other statement waits for what is caught.
        _ => lowering.refuse(Rule::NotYet, stmt.token),
    }
}
