//! What a turn has done, by words.

use crate::scripts::{actor_named, method_named};
use std::alloc::{AllocError, Global};
use swift_interpreter::{Effect, Exit, Invocation, TaskName};
use swift_locals::Bindings;
use swift_script::Script;
use swift_types::{ActorId, LocalId, MethodId, Priority, RootId};
use test_support::{CaseFault, Words};

/// What a turn has done.
#[derive(Drop)]
pub struct TurnDone {
    pub effects: Vec<Effect>,
    pub exit: Exit,
}

fn actor_of(script: &Script, words: &mut Words<'_>, word: &str) -> ActorId {
    match actor_named(script, word) {
        Some(actor) => actor,
        None => ActorId(words.number_of(word)),
    }
}

fn method_of(script: &Script, actor: ActorId, words: &mut Words<'_>, word: &str) -> MethodId {
    match method_named(script, Some(actor), word) {
        Some(method) => method,
        None => MethodId(words.number_of(word)),
    }
}

// The parts of `ACTOR.METHOD(VALUE,..)`.
fn parts_of(word: &str) -> Option<(&str, &str, &str)> {
    let (called, args) = word.split_once('(')?;
    let (actor, method) = called.split_once('.')?;
    Some((actor, method, args.strip_suffix(')')?))
}

// A method with its arguments, by one word.
fn invocation(
    alloc: Global,
    script: &Script,
    words: &mut Words<'_>,
) -> Result<Invocation, CaseFault> {
    let Some((actor, method, args)) = parts_of(words.next()) else {
        return Err(CaseFault::Form);
    };
    let actor = actor_of(script, words, actor);
    let method = method_of(script, actor, words, method);
    Ok(Invocation {
        actor,
        method,
        args: words.values_of(alloc, args)?,
    })
}

// Bindings of locals that may be given: `with`, and each LOCAL=VALUE, the outermost first.
fn bound(alloc: Global, words: &mut Words<'_>) -> Result<Bindings, AllocError> {
    let mut bindings = Bindings::new(alloc);
    if words.has("with") {
        for word in words.all().split(' ') {
            let (local, bound) = word.split_once('=').unwrap_or((word, ""));
            let local = LocalId(words.number_of(local));
            bindings.bind(local, words.value_of(bound))?;
        }
    }
    Ok(bindings)
}

// A priority that may be given.
fn given(words: &mut Words<'_>) -> Option<Priority> {
    if words.has("at") {
        Some(words.priority())
    } else {
        None
    }
}

// A task, as a turn names it.
fn name_of(words: &mut Words<'_>) -> TaskName {
    if words.has("root") {
        return TaskName::Root(RootId(words.number()));
    }
    if !words.has("task") {
        words.refuse();
    }
    TaskName::Own(words.number())
}

// A task that is spawned.
fn spawn(alloc: Global, script: &Script, words: &mut Words<'_>) -> Result<Effect, CaseFault> {
    Ok(Effect::Spawn {
        invocation: invocation(alloc, script, words)?,
        priority: given(words),
        bindings: bound(alloc, words)?,
    })
}

// A task that is detached.
fn detach(alloc: Global, script: &Script, words: &mut Words<'_>) -> Result<Effect, CaseFault> {
    let detached = invocation(alloc, script, words)?;
    Ok(Effect::Detach(detached, given(words).unwrap_or(Priority::Medium)))
}

// A child that is added.
fn add(alloc: Global, script: &Script, words: &mut Words<'_>) -> Result<Effect, CaseFault> {
    Ok(Effect::Add {
        group: words.number(),
        unless_cancelled: words.has("unless"),
        invocation: invocation(alloc, script, words)?,
        priority: given(words),
        bindings: bound(alloc, words)?,
    })
}

// What is cancelled.
fn cancel(words: &mut Words<'_>) -> Effect {
    if words.has("group") {
        Effect::CancelGroup(words.number())
    } else {
        Effect::CancelTask(name_of(words))
    }
}

// An effect by its words.
fn effect(alloc: Global, script: &Script, words: &mut Words<'_>) -> Result<Effect, CaseFault> {
    match words.next() {
        "spawn" => spawn(alloc, script, words),
        "detach" => detach(alloc, script, words),
        "open" => Ok(Effect::Open),
        "add" => add(alloc, script, words),
        "cancel" => Ok(cancel(words)),
        _ => Err(CaseFault::Form),
    }
}

// The wait for a group's children, and the fault that is kept meanwhile.
fn close(words: &mut Words<'_>) -> Exit {
    let group = words.number();
    if words.is_empty() {
        Exit::Close(group, None)
    } else {
        Exit::Close(group, Some(words.fault()))
    }
}

// An exit by its words.
fn exit(alloc: Global, script: &Script, words: &mut Words<'_>) -> Result<Exit, CaseFault> {
    match words.next() {
        "call" => Ok(Exit::Call(invocation(alloc, script, words)?)),
        "wait" => Ok(Exit::Wait(name_of(words))),
        "next" => Ok(Exit::Next(words.number())),
        "close" => Ok(close(words)),
        "yield" => Ok(Exit::Yield),
        "return" => Ok(Exit::Return(words.value())),
        "fault" => Ok(Exit::Fault(words.fault())),
        _ => Err(CaseFault::Form),
    }
}

// Effects by their texts, with semicolons between them.
fn effects_of(alloc: Global, script: &Script, texts: &str) -> Result<Vec<Effect>, CaseFault> {
    let mut found = Vec::new(alloc);
    for text in texts.split_terminator("; ") {
        let mut words = Words::new(text);
        let done = effect(alloc, script, &mut words)?;
        if !words.are_right() {
            return Err(CaseFault::Form);
        }
        found.push(done)?;
    }
    Ok(found)
}

/// What a turn has done, by the texts of its effects and of its exit, with semicolons between them.
pub fn done_of(alloc: Global, script: &Script, texts: &str) -> Result<TurnDone, CaseFault> {
    let (effects, last) = texts.rsplit_once("; ").unwrap_or(("", texts));
    let effects = effects_of(alloc, script, effects)?;
    let mut words = Words::new(last);
    let exit = exit(alloc, script, &mut words)?;
    if words.are_right() {
        Ok(TurnDone { effects, exit })
    } else {
        Err(CaseFault::Form)
    }
}
