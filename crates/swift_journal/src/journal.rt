//! The journal of an executor.

ghost use Rattle.std.specs.Prelude.{◌≡◌, ℤ, List, [], ◌∷◌, ◌++◌, ◌-◌, ◌<◌, ◌^◌, length, take, slice_index_or, IfOk, IsTrue, OnOk, OnErr};
ghost use Rattle.swift_journal.specs.JournalInside.{record_of};
ghost use Rattle.swift_journal.specs.declared.stored.StoredEffect.{StoredEffect};

use crate::brief::BriefExit;
use crate::ends::{brief, resume};
use crate::parts::{effects_of, env_of, exit_part, read_record, words_of};
use crate::record::{OwnedRecord, Record};
use crate::stored::{FrameHead, StoredEffect, StoredExit, TurnHead};
use crate::tail::Tail;
use crate::written::write_turn;
use std::alloc::{AllocError, Global};
use std::marker::Model;
use swift_types::{Env, MethodId, Resume, TaskId};

/// The turns that an executor has run, in order (our own). Contracts see a list of records.
///
/// A turn takes 88 bytes, and eight for each number of its frames, bindings, exit, arguments and values: 104 bytes where its
/// frame has one variable and goes on. Effects take a list of their own. A journal allocates where one of its lists grows,
/// and nowhere else.
pub struct Journal {
    heads: Vec<TurnHead>,
    // The words of each turn, in the order of turns.
    words: Tail,
    // The effects of each turn, in the order of turns.
    effects: Vec<StoredEffect>,
}

impl Drop for Journal {
    fn drop(self) {
        let Journal {
            heads,
            words,
            effects,
        } = self;
        drop(heads);
        drop(words);
        drop(effects);
    }
}

impl Model for Journal {
    ghost use Rattle.std.specs.Prelude.{List, length, map, reverse};
    ghost use Rattle.swift_journal.specs.JournalInside.{record_at, span_of};
    ghost use Rattle.swift_journal.specs.LaidInside.{AreLaid};
    ghost use Rattle.swift_journal.specs.Records.{RecordView};
    ghost use Rattle.swift_journal.specs.TailInside.{whole};

    ghost Value = { List RecordView };

    ghost view = { λ j. map (record_at (whole j.words) j.effects.items) j.heads.items };

    ghost invariant = { λ j. AreLaid span_of (reverse j.heads.items) (length (whole j.words)) (length j.effects.items) };
}

impl Journal {
    ghost use Rattle.swift_journal.specs.CheckpointInside.{ended_view};
    ghost use Rattle.swift_journal.specs.Checkpoints.{folded_of};
    ghost use Rattle.swift_journal.specs.Records.{RecordView, brief_of, owned_view, record_view};

    /// An empty journal. It takes no memory.
    pub fn new(alloc: Global) -> Self
        ensures { result ≡ [] }
    {
        Journal {
            heads: Vec::new(alloc),
            words: Tail::new(alloc),
            effects: Vec::new(alloc),
        }
    }

    /// How many turns there are.
    pub fn len(&self) -> usize
        ensures len { result ≡ length self.now }
        ensures limit { length self.now < 2 ^ 63 }
    {
        self.heads.len()
    }

    /// Puts a turn after the others, in time by the size of its frames, bindings, arguments and effects. An `Err` says
    /// that a growth was refused, or that the turn has more than 2^32 - 1 numbers or effects. It leaves the journal as it
    /// was.
    pub fn push(&mut self, turn: &Record<'_>) -> Result<(), AllocError>
        ensures ok { OnOk result (self.new ≡ self.old ++ record_view turn.now ∷ []) }
        ensures err { OnErr result (self.new ≡ self.old) }
    {
        self.words.begin();
        let first_effect = self.effects.len();
        if write_turn(&mut self.heads, &mut self.words, &mut self.effects, turn).is_err() {
            self.words.cut();
            self.effects.truncate(first_effect);
            return Err(AllocError);
        }
        Ok(())
    }

    /// Drops the last turn, in constant time. It takes no memory.
    pub fn retract(&mut self)
        requires { 0 < length self.old }
        ensures { self.new ≡ take (length self.old - 1) self.old }
    {
        if let Some(head) = self.heads.pop() {
            self.words.truncate(head.start);
            self.effects.truncate(head.first_effect);
        }
    }

    /// Drops all turns. It keeps their room.
    pub(crate) fn clear(&mut self)
        ensures { self.new ≡ [] }
    {
        self.heads.clear();
        self.words.truncate(0);
        self.effects.clear();
    }

    /// What is kept of the turn at a place when it is folded.
    pub(crate) fn ended(&self, place: usize) -> EndedTurn<'_>
        requires { place < length self.now }
        ensures { (d : RecordView) → ended_view result ≡ folded_of (slice_index_or self.now place d) }
    {
        let head = &self.heads[place];
        EndedTurn {
            task: head.task,
            number: head.number,
            exit: head.exit,
            after: head.after,
            words: exit_part(head, words_of(self.words.all(), head)),
            effects: effects_of(&self.effects, head),
        }
    }

    /// The task of the turn at a place. Constant time, as the readers below.
    pub fn task(&self, place: usize) -> TaskId
        requires { place < length self.now }
        ensures { (d : RecordView) → result.0 ≡ (slice_index_or self.now place d).task }
    {
        self.heads[place].task
    }

    /// Its number among the turns of its task, from 0.
    pub fn number(&self, place: usize) -> u32
        requires { place < length self.now }
        ensures { (d : RecordView) → result ≡ (slice_index_or self.now place d).number }
    {
        self.heads[place].number
    }

    /// The worker that ran it, from 0.
    pub fn worker(&self, place: usize) -> u32
        requires { place < length self.now }
        ensures { (d : RecordView) → result ≡ (slice_index_or self.now place d).worker }
    {
        self.heads[place].worker
    }

    /// The method of its frame.
    pub fn method(&self, place: usize) -> MethodId
        requires { place < length self.now }
        ensures { (d : RecordView) → result.0 ≡ (slice_index_or self.now place d).frame.method }
    {
        self.heads[place].frame.method
    }

    /// What it began with.
    pub fn resume(&self, place: usize) -> Resume
        requires { place < length self.now }
        ensures { (d : RecordView) → result ≡ (slice_index_or self.now place d).resume }
    {
        let head = &self.heads[place];
        resume(head.resume, words_of(self.words.all(), head))
    }

    /// What it was given.
    pub fn env(&self, place: usize) -> Env
        requires { place < length self.now }
        ensures { (d : RecordView) → result ≡ (slice_index_or self.now place d).env }
    {
        env_of(&self.heads[place])
    }

    /// How it ended, without the arguments of a call.
    pub fn exit(&self, place: usize) -> BriefExit
        requires { place < length self.now }
        ensures { (d : RecordView) → result ≡ brief_of (slice_index_or self.now place d).exit }
    {
        let head = &self.heads[place];
        brief(head.exit, exit_part(head, words_of(self.words.all(), head)))
    }

    /// The whole turn, in time and memory by its size. An `Err` says that a growth was refused.
    pub fn read(&self, alloc: Global, place: usize) -> Result<OwnedRecord, AllocError>
        requires { place < length self.now }
        ensures { IfOk result (λ turn. (d : RecordView) → owned_view turn ≡ slice_index_or self.now place d) }
    {
        let head = &self.heads[place];
        let words = words_of(self.words.all(), head);
        read_record(alloc, head, words, effects_of(&self.effects, head))
    }

    /// Whether the turn at a place is this one, in time by its size. It is put to another journal first, and taken back
    /// there, so the turns of that one stay. An `Err` says that a growth was refused, or that the turn has more than 2^32 - 1 numbers or
    /// effects.
    pub fn has(
        &self,
        place: usize,
        turn: &Record<'_>,
        scratch: &mut Journal,
    ) -> Result<bool, AllocError>
        requires { place < length self.now }
        ensures same { IfOk result (λ yes. IsTrue yes → (d : RecordView) → slice_index_or self.now place d ≡ record_view turn.now) }
        ensures scratch { scratch.new ≡ scratch.old }
    {
        scratch.push(turn)?;
        let head = &self.heads[place];
        let words = words_of(self.words.all(), head);
        let same = scratch.ends_with(head, words, effects_of(&self.effects, head));
        scratch.retract();
        Ok(same)
    }

    // Whether the last turn has this head but for its places, these words and these effects.
    fn ends_with(&self, head: &TurnHead, words: &[i64], effects: &[StoredEffect]) -> bool
        requires { 0 < length self.now }
        ensures { IsTrue result → (d : RecordView) → slice_index_or self.now (length self.now - 1) d ≡ record_of head.now words.now effects.now }
    {
        let last = &self.heads[self.heads.len() - 1];
        is_same_head(last, head)
            && are_same_words(words_of(self.words.all(), last), words)
            && are_same(effects_of(&self.effects, last), effects)
    }
}

// Whether they say the same turn with the same words and the same effects.
fn is_same_head(head: &TurnHead, other: &TurnHead) -> bool
    ensures { IsTrue result → (words : List ℤ) (effects : List StoredEffect) → record_of head.now words effects ≡ record_of other.now words effects }
{
    is_same_turn(head, other)
        && is_same_cut(head, other)
        && is_same_env(head, other)
        && is_same_frame(&head.frame, &other.frame)
        && is_same_frame(&head.after, &other.after)
        && is_same_end(head, other)
}

fn is_same_turn(head: &TurnHead, other: &TurnHead) -> bool
    ensures { IsTrue result → (head.now.task ≡ other.now.task) × (head.now.number ≡ other.now.number) × (head.now.worker ≡ other.now.worker) }
{
    if head.task != other.task || head.number != other.number {
        return false;
    }
    head.worker == other.worker
}

// Whether they say that the outer bindings and the end stand at the same places.
fn is_same_cut(head: &TurnHead, other: &TurnHead) -> bool
    ensures { IsTrue result → (head.now.outer ≡ other.now.outer) × (head.now.ended ≡ other.now.ended) }
{
    head.outer == other.outer && head.ended == other.ended
}

fn is_same_env(head: &TurnHead, other: &TurnHead) -> bool
    ensures { IsTrue result → (head.now.room ≡ other.now.room) × (head.now.priority ≡ other.now.priority) × (head.now.cancelled ≡ other.now.cancelled) }
{
    if head.room != other.room {
        return false;
    }
    head.priority == other.priority && head.cancelled == other.cancelled
}

fn is_same_end(head: &TurnHead, other: &TurnHead) -> bool
    ensures { IsTrue result → (head.now.exit ≡ other.now.exit) × (head.now.resume ≡ other.now.resume) }
{
    head.exit == other.exit && head.resume == other.resume
}

fn is_same_frame(frame: &FrameHead, other: &FrameHead) -> bool
    ensures { IsTrue result → frame.now ≡ other.now }
{
    frame == other
}

fn are_same_words(words: &[i64], others: &[i64]) -> bool
    ensures { IsTrue result → words.now ≡ others.now }
{
    words == others
}

// Whether effects are these.
fn are_same(effects: &[StoredEffect], others: &[StoredEffect]) -> bool
    ensures { IsTrue result → effects.now ≡ others.now }
{
    if effects.len() != others.len() {
        return false;
    }
    for place in 0..effects.len() {
        if !is_same_effect(&effects[place], &others[place]) {
            return false;
        }
    }
    true
}

fn is_same_effect(effect: &StoredEffect, other: &StoredEffect) -> bool
    ensures { IsTrue result → effect.now ≡ other.now }
{
    effect == other
}

// What a journal has of a turn from its exit on: the words of the exit, of the frame after the turn and of the effects.
#[derive(Clone, Copy)]
pub struct EndedTurn<'a> {
    pub task: TaskId,
    pub number: u32,
    pub exit: StoredExit,
    pub after: FrameHead,
    pub words: &'a [i64],
    pub effects: &'a [StoredEffect],
}
