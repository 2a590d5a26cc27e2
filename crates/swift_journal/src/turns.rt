//! Turns that are kept for a checkpoint.

ghost use Rattle.std.specs.Prelude.{◌≡◌, [], ◌∷◌, ◌++◌, ◌+◌, ◌<◌, ◌^◌, drop, length, take, slice_index_or, IfOk, OnOk, OnErr};
ghost use Rattle.swift_journal.specs.CheckpointInside.{after_kind, after_of as after_in, next_effect, next_start};

use crate::brief::BriefExit;
use crate::ends::brief;
use crate::folded::Folded;
use crate::journal::EndedTurn;
use crate::parts::{part, part_of_effects, read_ended};
use crate::stored::{FoldedHead, FrameHead, StoredAfter, StoredEffect};
use crate::words::{append_words, short};
use std::alloc::{AllocError, Global};
use std::marker::Model;
use swift_types::TaskId;

// Turns in order, each without what it began with. Contracts see a list of what is left of them.
#[derive(Drop)]
pub struct FoldedTurns {
    heads: Vec<FoldedHead>,
    // The words of each turn, in the order of turns.
    words: Vec<i64>,
    // The effects of each turn, in the order of turns.
    effects: Vec<StoredEffect>,
}

impl Model for FoldedTurns {
    ghost use Rattle.std.specs.Prelude.{List, length, map, reverse};
    ghost use Rattle.swift_journal.specs.CheckpointInside.{folded_at, placed, placed_span};
    ghost use Rattle.swift_journal.specs.Checkpoints.{FoldedView};
    ghost use Rattle.swift_journal.specs.LaidInside.{AreLaid};

    ghost Value = { List FoldedView };

    ghost view = { λ t. map (folded_at t.words.items t.effects.items) (placed t.heads.items (length t.words.items) (length t.effects.items)) };

    ghost invariant = { λ t. AreLaid placed_span (reverse (placed t.heads.items (length t.words.items) (length t.effects.items))) (length t.words.items) (length t.effects.items) };
}

impl FoldedTurns {
    ghost use Rattle.swift_journal.specs.CheckpointInside.{ended_view};
    ghost use Rattle.swift_journal.specs.Checkpoints.{FoldedView, folded_view};
    ghost use Rattle.swift_journal.specs.Records.{brief_of};

    // No turn. It takes no memory.
    pub fn new(alloc: Global) -> Self
        ensures { result ≡ [] }
    {
        FoldedTurns {
            heads: Vec::new(alloc),
            words: Vec::new(alloc),
            effects: Vec::new(alloc),
        }
    }

    pub fn len(&self) -> usize
        ensures len { result ≡ length self.now }
        ensures limit { length self.now < 2 ^ 63 }
    {
        self.heads.len()
    }

    // Puts a turn after the others. An `Err` leaves them as they were.
    pub fn push(&mut self, turn: &EndedTurn<'_>) -> Result<(), AllocError>
        ensures ok { OnOk result (self.new ≡ self.old ++ ended_view turn.now ∷ []) }
        ensures err { OnErr result (self.new ≡ self.old) }
    {
        let head = FoldedHead {
            start: short(self.words.len())?,
            first_effect: short(self.effects.len())?,
            task: turn.task,
            number: turn.number,
            method: turn.after.method,
            instruction: turn.after.instruction,
            variables: turn.after.variables,
            pending: turn.after.pending,
            after: kind_of_after(&turn.after),
            exit: turn.exit,
        };
        append(
            &mut self.heads,
            &mut self.words,
            &mut self.effects,
            turn,
            head,
        )?;
        Ok(())
    }

    // Keeps the first `count` turns, and drops those after them.
    pub fn truncate(&mut self, count: usize)
        ensures { self.new ≡ take count self.old }
    {
        if count < self.heads.len() {
            let head = self.heads[count];
            self.words.truncate(head.start as usize);
            self.effects.truncate(head.first_effect as usize);
            self.heads.truncate(count);
        }
    }

    // What is kept of the turn at a place. Constant time.
    pub fn at(&self, place: usize) -> EndedTurn<'_>
        requires { place < length self.now }
        ensures { (d : FoldedView) → ended_view result ≡ slice_index_or self.now place d }
    {
        let head = &self.heads[place];
        let start = head.start as usize;
        let end = next_start(&self.heads, place, self.words.len());
        let first_effect = head.first_effect as usize;
        let last_effect = next_effect(&self.heads, place, self.effects.len());
        EndedTurn {
            task: head.task,
            number: head.number,
            exit: head.exit,
            after: after_of(head),
            words: part(&self.words, start, end.saturating_sub(start)),
            effects: part_of_effects(
                &self.effects,
                first_effect,
                last_effect.saturating_sub(first_effect),
            ),
        }
    }

    pub fn task(&self, place: usize) -> TaskId
        requires { place < length self.now }
        ensures { (d : FoldedView) → result.0 ≡ (slice_index_or self.now place d).task }
    {
        self.at(place).task
    }

    pub fn number(&self, place: usize) -> u32
        requires { place < length self.now }
        ensures { (d : FoldedView) → result ≡ (slice_index_or self.now place d).number }
    {
        self.at(place).number
    }

    pub fn exit(&self, place: usize) -> BriefExit
        requires { place < length self.now }
        ensures { (d : FoldedView) → result ≡ brief_of (slice_index_or self.now place d).exit }
    {
        let turn = self.at(place);
        brief(turn.exit, turn.words)
    }

    pub fn read(&self, alloc: Global, place: usize) -> Result<Folded, AllocError>
        requires { place < length self.now }
        ensures { IfOk result (λ turn. (d : FoldedView) → folded_view turn ≡ slice_index_or self.now place d) }
    {
        read_ended(alloc, self.at(place))
    }
}

// Where the words of the turn at a place end, of `words` words in all.
fn next_start(heads: &[FoldedHead], place: usize, words: usize) -> usize
    requires { place < length heads.now }
    ensures { result ≡ next_start (drop (place + 1) heads.now) words }
{
    if place + 1 < heads.len() {
        heads[place + 1].start as usize
    } else {
        words
    }
}

// Where the effects of the turn at a place end, of `effects` effects in all.
fn next_effect(heads: &[FoldedHead], place: usize, effects: usize) -> usize
    requires { place < length heads.now }
    ensures { result ≡ next_effect (drop (place + 1) heads.now) effects }
{
    if place + 1 < heads.len() {
        heads[place + 1].first_effect as usize
    } else {
        effects
    }
}

// Whether there is a frame after a turn, and whether its counts are stored.
fn kind_of_after(after: &FrameHead) -> StoredAfter
    ensures { result ≡ after_kind after.now.stands after.now.counted }
{
    if !after.stands {
        StoredAfter::Absent
    } else if after.counted {
        StoredAfter::Counted
    } else {
        StoredAfter::Plain
    }
}

// The frame after a turn.
fn after_of(head: &FoldedHead) -> FrameHead
    ensures { result ≡ after_in head.now }
{
    FrameHead {
        method: head.method,
        instruction: head.instruction,
        variables: head.variables,
        pending: head.pending,
        counted: matches!(head.after, StoredAfter::Counted),
        stands: !matches!(head.after, StoredAfter::Absent),
    }
}

// Appends a turn to the lists. Where a growth is refused they are as they were.
fn append(
    heads: &mut Vec<FoldedHead>,
    words: &mut Vec<i64>,
    effects: &mut Vec<StoredEffect>,
    turn: &EndedTurn<'_>,
    head: FoldedHead,
) -> Result<(), AllocError>
    ensures heads { OnOk result (heads.new.items ≡ heads.old.items ++ head ∷ []) }
    ensures words { OnOk result (words.new.items ≡ words.old.items ++ turn.now.words.now) }
    ensures effects { OnOk result (effects.new.items ≡ effects.old.items ++ turn.now.effects.now) }
    ensures same_heads { OnErr result (heads.new.items ≡ heads.old.items) }
    ensures same_words { OnErr result (words.new.items ≡ words.old.items) }
    ensures same_effects { OnErr result (effects.new.items ≡ effects.old.items) }
{
    let start = words.len();
    let first_effect = effects.len();
    append_words(words, turn.words)?;
    // Nearly always there are none.
    if !turn.effects.is_empty() && effects.extend_from_slice(turn.effects).is_err() {
        words.truncate(start);
        return Err(AllocError);
    }
    if heads.push(head).is_err() {
        words.truncate(start);
        effects.truncate(first_effect);
        return Err(AllocError);
    }
    Ok(())
}
