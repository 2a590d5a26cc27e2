//! Effects, written and read.

ghost use Rattle.std.specs.Prelude.{◌≡◌, ◌++◌, IfOk, OnOk};
ghost use Rattle.swift_interpreter.specs.Frames.{effect_view, effect_views, invocation_view};
ghost use Rattle.swift_journal.specs.EffectWordsInside.{skip_args as after_args, skip_bound as after_bound, skip_effect as after_effect, skip_effects as after_effects, bound_of, bound_words, effect_of, effect_words, effects_of, effects_words, invocation_of, stored_invocation};
ghost use Rattle.swift_journal.specs.TailInside.{since};
ghost use Rattle.swift_journal.specs.Words.{ReadsBack};

use crate::stored::{StoredEffect, StoredInvocation};
use crate::tail::Tail;
use crate::words::{read_bindings, skip_bindings, split, write_bindings};
use std::alloc::{AllocError, Global};
use swift_interpreter::{Effect, Invocation};
use swift_locals::Bindings;

// Appends the arguments of what is to run.
fn write_invocation(
    words: &mut Tail,
    invocation: &Invocation,
) -> Result<StoredInvocation, AllocError>
    ensures stored { IfOk result (λ stored. stored ≡ stored_invocation invocation.now) }
    ensures before { words.new.before ≡ words.old.before }
    ensures words { OnOk result (words.new.written ≡ words.old.written ++ invocation.now.args.items) }
{
    words.extend(&invocation.args)?;
    Ok(StoredInvocation {
        actor: invocation.actor,
        method: invocation.method,
        args: invocation.args.len(),
    })
}

// Appends the arguments of what is to run and its bindings, and counts those.
fn write_bound(
    words: &mut Tail,
    invocation: &Invocation,
    bindings: &Bindings,
) -> Result<(StoredInvocation, usize), AllocError>
    ensures before { words.new.before ≡ words.old.before }
    ensures words { OnOk result (words.new.written ≡ words.old.written ++ bound_words invocation.now bindings.now) }
    ensures reads_back { IfOk result (λ s. ReadsBack _ (bound_of s.0 s.1) (after_bound s.0 s.1) (bound_words invocation.now bindings.now) (invocation_view invocation.now, bindings.now)) }
{
    let stored = write_invocation(words, invocation)?;
    write_bindings(words, bindings)?;
    Ok((stored, bindings.depth()))
}

// Appends the words of an effect, and says what is stored beside them.
fn write_effect(words: &mut Tail, effect: &Effect) -> Result<StoredEffect, AllocError>
    ensures before { words.new.before ≡ words.old.before }
    ensures words { OnOk result (words.new.written ≡ words.old.written ++ effect_words effect.now) }
    ensures reads_back { IfOk result (λ s. ReadsBack _ (effect_of s) (after_effect s) (effect_words effect.now) (effect_view effect.now)) }
{
    match effect {
        Effect::Spawn {
            invocation,
            priority,
            bindings,
        } => {
            let (stored, depth) = write_bound(words, invocation, bindings)?;
            Ok(StoredEffect::Spawn(stored, *priority, depth))
        }
        Effect::Detach(invocation, priority) => {
            let stored = write_invocation(words, invocation)?;
            Ok(StoredEffect::Detach(stored, *priority))
        }
        Effect::Open => Ok(StoredEffect::Open),
        Effect::Add {
            group,
            unless_cancelled: unless,
            invocation,
            priority,
            bindings,
        } => {
            let (stored, depth) = write_bound(words, invocation, bindings)?;
            Ok(StoredEffect::Add(*group, *unless, stored, *priority, depth))
        }
        Effect::CancelTask(task) => Ok(StoredEffect::CancelTask(*task)),
        Effect::CancelGroup(group) => Ok(StoredEffect::CancelGroup(*group)),
    }
}

// Appends the words of effects, and to a list what is stored beside them.
pub fn write_effects(
    words: &mut Tail,
    list: &mut Vec<StoredEffect>,
    effects: &[Effect],
) -> Result<(), AllocError>
    ensures before { words.new.before ≡ words.old.before }
    ensures list { list.new.items ≡ list.old.items ++ since list.old.items list.new.items }
    ensures words { OnOk result (words.new.written ≡ words.old.written ++ effects_words effects.now) }
    ensures reads_back { OnOk result (ReadsBack _ (effects_of (since list.old.items list.new.items)) (after_effects (since list.old.items list.new.items)) (effects_words effects.now) (effect_views effects.now)) }
{
    for effect in effects {
        let stored = write_effect(words, effect)?;
        list.push(stored)?;
    }
    Ok(())
}

// What is to run.
fn read_invocation(
    alloc: Global,
    stored: StoredInvocation,
    words: &[i64],
) -> Result<Invocation, AllocError>
    ensures { IfOk result (λ i. invocation_view i ≡ invocation_of stored words.now) }
{
    Ok(Invocation {
        actor: stored.actor,
        method: stored.method,
        args: Vec::from_slice(alloc, split(words, stored.args).0)?,
    })
}

// What is to run, and its bindings.
fn read_bound(
    alloc: Global,
    stored: StoredInvocation,
    depth: usize,
    words: &[i64],
) -> Result<(Invocation, Bindings), AllocError>
    ensures { IfOk result (λ bound. (invocation_view bound.0, bound.1) ≡ bound_of stored depth words.now) }
{
    let bindings = read_bindings(alloc, split(words, stored.args).1, depth)?;
    Ok((read_invocation(alloc, stored, words)?, bindings))
}

// An effect.
fn read_effect(alloc: Global, stored: StoredEffect, words: &[i64]) -> Result<Effect, AllocError>
    ensures { IfOk result (λ effect. effect_view effect ≡ effect_of stored words.now) }
{
    match stored {
        StoredEffect::Spawn(invocation, priority, depth) => {
            let (invocation, bindings) = read_bound(alloc, invocation, depth, words)?;
            Ok(Effect::Spawn {
                invocation,
                priority,
                bindings,
            })
        }
        StoredEffect::Detach(invocation, priority) => Ok(Effect::Detach(
            read_invocation(alloc, invocation, words)?,
            priority,
        )),
        StoredEffect::Open => Ok(Effect::Open),
        StoredEffect::Add(group, unless, invocation, priority, depth) => {
            let (invocation, bindings) = read_bound(alloc, invocation, depth, words)?;
            Ok(Effect::Add {
                group,
                unless_cancelled: unless,
                invocation,
                priority,
                bindings,
            })
        }
        StoredEffect::CancelTask(task) => Ok(Effect::CancelTask(task)),
        StoredEffect::CancelGroup(group) => Ok(Effect::CancelGroup(group)),
    }
}

// The words after an effect.
fn skip_effect(stored: StoredEffect, words: &[i64]) -> &[i64]
    ensures { result.now ≡ after_effect stored words.now }
{
    match stored {
        StoredEffect::Spawn(invocation, _, depth) => skip_bound(invocation, depth, words),
        StoredEffect::Detach(invocation, _) => split(words, invocation.args).1,
        StoredEffect::Add(_, _, invocation, _, depth) => skip_bound(invocation, depth, words),
        _ => words,
    }
}

fn skip_bound(stored: StoredInvocation, depth: usize, words: &[i64]) -> &[i64]
    ensures { result.now ≡ after_bound stored depth words.now }
{
    skip_bindings(split(words, stored.args).1, depth)
}

// Effects.
pub fn read_effects(
    alloc: Global,
    list: &[StoredEffect],
    words: &[i64],
) -> Result<Vec<Effect>, AllocError>
    ensures { IfOk result (λ effects. effect_views effects.items ≡ effects_of list.now words.now) }
{
    let mut effects = Vec::new(alloc);
    let mut rest = words;
    for stored in list {
        effects.push(read_effect(alloc, *stored, rest)?)?;
        rest = skip_effect(*stored, rest);
    }
    Ok(effects)
}
