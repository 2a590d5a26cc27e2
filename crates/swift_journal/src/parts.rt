//! The words of a turn, part by part.

ghost use Rattle.std.specs.Prelude.{◌≡◌, drop, take, IfOk};
ghost use Rattle.swift_journal.specs.FrameWordsInside.{frame_if_of};
ghost use Rattle.swift_journal.specs.JournalInside.{effect_part as effect_of, effects_at, exit_part as exit_of, frame_part as frame_of, outer_part as outer_of, record_of, words_at};
ghost use Rattle.swift_journal.specs.CheckpointInside.{ended_view};
ghost use Rattle.swift_journal.specs.Checkpoints.{folded_view};
ghost use Rattle.swift_journal.specs.Records.{owned_view};
ghost use Rattle.swift_interpreter.specs.Frames.{frame_if};

use crate::effects::read_effects;
use crate::ends::{read_exit, resume, skip_exit, skip_resume};
use crate::folded::Folded;
use crate::frames::{read_frame, skip_frame};
use crate::journal::EndedTurn;
use crate::record::OwnedRecord;
use crate::stored::{FrameHead, StoredEffect, StoredExit, TurnHead};
use crate::words::{read_bindings, split};
use std::alloc::{AllocError, Global};
use swift_interpreter::Frame;
use swift_types::Env;

// `size` of the words, from word `start` on.
pub fn part(words: &[i64], start: usize, size: usize) -> &[i64]
    ensures { result.now ≡ take size (drop start words.now) }
{
    split(split(words, start).1, size).0
}

// `size` of the effects, from effect `start` on.
pub fn part_of_effects(effects: &[StoredEffect], start: usize, size: usize) -> &[StoredEffect]
    ensures { result.now ≡ take size (drop start effects.now) }
{
    let rest = effects.split_at(start.min(effects.len())).1;
    rest.split_at(size.min(rest.len())).0
}

// The words of a turn, of the words of a journal.
pub fn words_of<'a>(words: &'a [i64], head: &TurnHead) -> &'a [i64]
    ensures { result.now ≡ words_at words.now head.now }
{
    part(words, head.start, head.size as usize)
}

// The effects of a turn, of those of a journal.
pub fn effects_of<'a>(effects: &'a [StoredEffect], head: &TurnHead) -> &'a [StoredEffect]
    ensures { result.now ≡ effects_at effects.now head.now }
{
    part_of_effects(effects, head.first_effect, head.effects as usize)
}

// The words from the frame on.
fn frame_part<'a>(head: &TurnHead, words: &'a [i64]) -> &'a [i64]
    ensures { result.now ≡ frame_of head.now words.now }
{
    skip_resume(head.resume, words)
}

// The words from the outer bindings on.
fn outer_part<'a>(head: &TurnHead, words: &'a [i64]) -> &'a [i64]
    ensures { result.now ≡ outer_of head.now words.now }
{
    skip_frame(&head.frame, frame_part(head, words))
}

// The words from the exit on. Constant time.
pub fn exit_part<'a>(head: &TurnHead, words: &'a [i64]) -> &'a [i64]
    ensures { result.now ≡ exit_of head.now words.now }
{
    split(words, head.ended as usize).1
}

// Of the words from the exit on, those of the effects.
fn effect_part<'a>(exit: StoredExit, after: &FrameHead, words: &'a [i64]) -> &'a [i64]
    ensures { result.now ≡ effect_of exit after.now words.now }
{
    let rest = skip_exit(exit, words);
    if after.stands {
        skip_frame(after, rest)
    } else {
        rest
    }
}

// What a turn was given.
pub fn env_of(head: &TurnHead) -> Env
    ensures { result ≡ record { priority = head.now.priority; cancelled = head.now.cancelled; room = head.now.room } }
{
    Env {
        priority: head.priority,
        cancelled: head.cancelled,
        room: head.room,
    }
}

// The frame after a turn, where one goes on.
fn read_after(alloc: Global, head: &FrameHead, words: &[i64]) -> Result<Option<Frame>, AllocError>
    ensures { IfOk result (λ after. frame_if after ≡ frame_if_of head.now words.now) }
{
    if head.stands {
        Ok(Some(read_frame(alloc, head, words)?))
    } else {
        Ok(None)
    }
}

// A turn.
pub fn read_record(
    alloc: Global,
    head: &TurnHead,
    words: &[i64],
    effects: &[StoredEffect],
) -> Result<OwnedRecord, AllocError>
    ensures { IfOk result (λ turn. owned_view turn ≡ record_of head.now words.now effects.now) }
{
    let ended = exit_part(head, words);
    Ok(OwnedRecord {
        task: head.task,
        number: head.number,
        worker: head.worker,
        frame: read_frame(alloc, &head.frame, frame_part(head, words))?,
        outer: read_bindings(alloc, outer_part(head, words), head.outer as usize)?,
        resume: resume(head.resume, words),
        env: env_of(head),
        exit: read_exit(alloc, head.exit, ended)?,
        effects: read_effects(alloc, effects, effect_part(head.exit, &head.after, ended))?,
        after: read_after(alloc, &head.after, skip_exit(head.exit, ended))?,
    })
}

// What is left of a turn when it is folded.
pub fn read_ended(alloc: Global, turn: EndedTurn<'_>) -> Result<Folded, AllocError>
    ensures { IfOk result (λ folded. folded_view folded ≡ ended_view turn.entry) }
{
    let EndedTurn {
        task,
        number,
        exit,
        after,
        words,
        effects,
    } = turn;
    Ok(Folded {
        task,
        number,
        exit: read_exit(alloc, exit, words)?,
        effects: read_effects(alloc, effects, effect_part(exit, &after, words))?,
        after: read_after(alloc, &after, skip_exit(exit, words))?,
    })
}
