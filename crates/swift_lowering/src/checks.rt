//! What has to hold of a file as a whole. These refuse, or change nothing.

ghost use Rattle.swift_expressions.specs.Instructions.{KeepsRefusal};
ghost use Rattle.swift_expressions.specs.States.{Becomes, state_of};

use swift_expressions::{
    Kind, Lowering, NONE, actor_of, field_kind, has_label, has_member, instance_at, instance_named,
    is_kept, kind_of, literal,
};
use swift_syntax::{ExprForm, FieldDecl, FieldStart, MethodDecl, Rule, ValueType};

// Refuses a name that a table has twice, by its places.
fn refuse_same(lowering: &mut Lowering<'_>, left: usize, right: usize)
    ensures state { Becomes lowering.new (state_of lowering.old) }
    ensures refused { KeepsRefusal lowering.old lowering.new }
{
    if left != right && lowering.are_same(left, right) {
        lowering.refuse(Rule::NameTwice, left.max(right));
    }
}

// Refuses a name of what Swift itself has.
fn refuse_kept(lowering: &mut Lowering<'_>, name: usize)
    ensures state { Becomes lowering.new (state_of lowering.old) }
    ensures refused { KeepsRefusal lowering.old lowering.new }
{
    if is_kept(lowering, name) {
        lowering.refuse(Rule::NameTwice, name);
    }
}

// Refuses the name of a member that would stand for what Swift itself has. One that is a global name too is refused where that is used.
fn check_member(lowering: &mut Lowering<'_>, name: usize)
    ensures state { Becomes lowering.new (state_of lowering.old) }
    ensures refused { KeepsRefusal lowering.old lowering.new }
{
    refuse_kept(lowering, name);
    if lowering.spells(name, "_") {
        lowering.refuse(Rule::UnknownName, name);
    }
}

/// Refuses methods and fields of one actor with one name, and names that Swift itself has.
pub(crate) fn check_members(lowering: &mut Lowering<'_>)
    ensures state { Becomes lowering.new (state_of lowering.old) }
    ensures refused { KeepsRefusal lowering.old lowering.new }
{
    let tree = lowering.tree;
    for method in tree.methods.iter() {
        check_member(lowering, method.name);
        for other in tree.methods.iter() {
            if method.actor == other.actor {
                refuse_same(lowering, method.name, other.name);
            }
        }
        for field in tree.fields.iter() {
            if method.actor == field.actor {
                refuse_same(lowering, method.name, field.name);
            }
        }
    }
    for field in tree.fields.iter() {
        check_member(lowering, field.name);
        for other in tree.fields.iter() {
            if field.actor == other.actor {
                refuse_same(lowering, field.name, other.name);
            }
        }
    }
}

// Refuses a global name that is there twice, or is kept.
fn check_global(lowering: &mut Lowering<'_>, name: usize)
    ensures state { Becomes lowering.new (state_of lowering.old) }
    ensures refused { KeepsRefusal lowering.old lowering.new }
{
    let tree = lowering.tree;
    for actor in tree.actors.iter() {
        refuse_same(lowering, name, actor.name);
    }
    for instance in tree.instances.iter() {
        refuse_same(lowering, name, instance.name);
    }
    for constant in tree.constants.iter() {
        refuse_same(lowering, name, constant.name);
    }
    for executor in tree.executors.iter() {
        refuse_same(lowering, name, executor.name);
    }
    for main in tree.mains.iter() {
        refuse_same(lowering, name, main.name);
    }
    for local in tree.locals.iter() {
        refuse_same(lowering, name, local.of);
    }
    for case in tree.cases.iter() {
        refuse_same(lowering, name, case.of);
    }
    refuse_kept(lowering, name);
}

// Whether a name has what stands before the line in that of a closure.
fn has_line(name: &[u8]) -> bool {
    (0..name.len()).any(|place| name[place..].starts_with(b"_line"))
}

// Refuses the name of a function that another declaration has, or that could be a closure's.
fn check_function(lowering: &mut Lowering<'_>, method: MethodDecl)
    ensures state { Becomes lowering.new (state_of lowering.old) }
    ensures refused { KeepsRefusal lowering.old lowering.new }
{
    check_global(lowering, method.name);
    if method.is_async && has_line(lowering.bytes(method.name)) {
        lowering.refuse(Rule::NameTwice, method.name);
    }
}

/// Refuses global names that are there twice, or are kept.
pub(crate) fn check_globals(lowering: &mut Lowering<'_>)
    ensures state { Becomes lowering.new (state_of lowering.old) }
    ensures refused { KeepsRefusal lowering.old lowering.new }
{
    let tree = lowering.tree;
    for actor in tree.actors.iter() {
        check_global(lowering, actor.name);
    }
    for instance in tree.instances.iter() {
        check_global(lowering, instance.name);
    }
    for constant in tree.constants.iter() {
        check_global(lowering, constant.name);
    }
    for executor in tree.executors.iter() {
        check_global(lowering, executor.name);
    }
    for main in tree.mains.iter() {
        check_global(lowering, main.name);
    }
    for case in tree.cases.iter() {
        check_global(lowering, case.of);
        for other in tree.cases.iter() {
            if case.of == other.of {
                refuse_same(lowering, case.name, other.name);
            }
        }
    }
    for method in tree.methods.iter() {
        if method.actor == NONE {
            check_function(lowering, *method);
        }
    }
    for local in tree.locals.iter() {
        check_global(lowering, local.of);
        for other in tree.locals.iter() {
            refuse_same(lowering, local.name, other.name);
        }
    }
}

// Refuses a literal of another type, where one is given.
fn check_literal(lowering: &mut Lowering<'_>, wanted: Option<ValueType>, value: usize, name: usize)
    ensures state { Becomes lowering.new (state_of lowering.old) }
    ensures refused { KeepsRefusal lowering.old lowering.new }
{
    let (_, kind) = literal(lowering, value);
    if let Some(wanted) = wanted {
        if kind != kind_of(wanted) {
            lowering.refuse(Rule::WrongType, name);
        }
    }
}

// The type of a parameter of an actor's init; refuses another name.
fn param_kind(lowering: &mut Lowering<'_>, actor: usize, name: usize) -> Kind
    ensures state { Becomes lowering.new (state_of lowering.old) }
    ensures refused { KeepsRefusal lowering.old lowering.new }
{
    let tree = lowering.tree;
    if let Some(made) = tree.actors.get(actor) {
        for place in made.first_param..made.params_end {
            if let Some(param) = tree.params.get(place) {
                if lowering.are_same(param.name, name) {
                    return kind_of(param.value_type);
                }
            }
        }
    }
    lowering.refuse(Rule::UnknownName, name);
    Kind::Int
}

// Refuses what an init gives a field of another type, or one that has its value for good.
fn check_given(lowering: &mut Lowering<'_>, place: usize, field: FieldDecl)
    ensures state { Becomes lowering.new (state_of lowering.old) }
    ensures refused { KeepsRefusal lowering.old lowering.new }
{
    if field.given == 0 {
        return;
    }
    let expr = lowering.tree.expr(field.given);
    let kind = match expr.form {
        ExprForm::Name => param_kind(lowering, field.actor, expr.token),
        _ => literal(lowering, field.given).1,
    };
    if kind != field_kind(lowering, place) {
        lowering.refuse(Rule::WrongType, field.name);
    }
    if !field.is_var && matches!(field.start, FieldStart::Value(_)) {
        lowering.refuse(Rule::Assigned, field.name);
    }
}

/// Refuses start values of fields, constants and task locals that are of another type than is given.
pub(crate) fn check_starts(lowering: &mut Lowering<'_>)
    ensures state { Becomes lowering.new (state_of lowering.old) }
    ensures refused { KeepsRefusal lowering.old lowering.new }
{
    let tree = lowering.tree;
    for (place, field) in tree.fields.iter().enumerate() {
        if let FieldStart::Value(value) = field.start {
            check_literal(lowering, field.value_type, value, field.name);
        }
        check_given(lowering, place, *field);
    }
    for constant in tree.constants.iter() {
        check_literal(lowering, constant.value_type, constant.value, constant.name);
    }
    for local in tree.locals.iter() {
        check_literal(lowering, local.value_type, local.value, local.name);
    }
}

// Refuses arguments of an instance other than the init of its actor wants.
fn check_instance(lowering: &mut Lowering<'_>, instance: usize)
    ensures state { Becomes lowering.new (state_of lowering.old) }
    ensures refused { KeepsRefusal lowering.old lowering.new }
{
    let Some(declared) = instance_at(lowering, instance) else {
        return;
    };
    let actor = actor_of(lowering, instance);
    let Some(made) = lowering.tree.actors.get(actor).copied() else {
        check_executor(lowering, declared.of, declared.arguments);
        return;
    };
    let mut place = declared.arguments;
    for number in made.first_param..made.params_end {
        let (Some(argument), Some(param)) = (
            lowering.tree.argument(place),
            lowering.tree.params.get(number).copied(),
        ) else {
            lowering.refuse(Rule::Arguments, declared.of);
            return;
        };
        if !has_label(lowering, argument.label, param.label) {
            lowering.refuse(Rule::Arguments, declared.of);
        }
        let (_, kind) = literal(lowering, argument.value);
        if kind != kind_of(param.value_type) {
            lowering.refuse(Rule::WrongType, declared.of);
        }
        place = argument.next;
    }
    if place != 0 {
        lowering.refuse(Rule::Arguments, declared.of);
    }
}

// Refuses an instance of what is neither an actor nor an executor.
fn check_executor(lowering: &mut Lowering<'_>, of: usize, arguments: usize)
    ensures state { Becomes lowering.new (state_of lowering.old) }
    ensures refused { KeepsRefusal lowering.old lowering.new }
{
    let is_declared = lowering
        .tree
        .executors
        .iter()
        .any(|e| lowering.are_same(e.name, of));
    if !is_declared {
        lowering.refuse(Rule::UnknownName, of);
    }
    if arguments != 0 {
        lowering.refuse(Rule::Arguments, of);
    }
}

// Refuses an actor's executor, 0 for none, that is no instance of a class of executors, or whose name means a member of the actor.
fn check_seat(lowering: &mut Lowering<'_>, actor: usize, executor: usize)
    ensures state { Becomes lowering.new (state_of lowering.old) }
    ensures refused { KeepsRefusal lowering.old lowering.new }
{
    if executor == 0 {
        return;
    }
    if has_member(lowering, actor, executor) {
        lowering.refuse(Rule::NameTwice, executor);
    }
    let is_seat = match instance_named(lowering, executor) {
        Some(instance) => actor_of(lowering, instance) == NONE,
        None => false,
    };
    if !is_seat {
        lowering.refuse(Rule::UnknownName, executor);
    }
}

/// Refuses actors without an instance, and a file without one `main`.
pub(crate) fn check_whole(lowering: &mut Lowering<'_>)
    ensures state { Becomes lowering.new (state_of lowering.old) }
    ensures refused { KeepsRefusal lowering.old lowering.new }
{
    let tree = lowering.tree;
    for (place, actor) in tree.actors.iter().enumerate() {
        let is_made = (0..tree.instances.len()).any(|i| actor_of(lowering, i) == place);
        if !is_made {
            lowering.refuse(Rule::ActorValue, actor.name);
        }
    }
    for instance in 0..tree.instances.len() {
        check_instance(lowering, instance);
    }
    for (place, actor) in tree.actors.iter().enumerate() {
        check_seat(lowering, place, actor.executor);
    }
    match tree.mains.as_slice() {
        [_] => {}
        [_, second, ..] => lowering.refuse(Rule::NameTwice, second.name),
        [] => lowering.refuse(Rule::Unexpected, lowering.tokens.len()),
    }
}
