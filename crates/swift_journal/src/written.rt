//! A turn, written as words.

ghost use Rattle.std.specs.Prelude.{◌≡◌, [], ◌∷◌, ◌++◌, length, IfOk, OnOk, OnErr};
ghost use Rattle.swift_journal.specs.FrameWordsInside.{skip_frame_if, frame_if_of, frame_if_words};
ghost use Rattle.swift_journal.specs.JournalInside.{IsPut};
ghost use Rattle.swift_journal.specs.Records.{frame_if_lent, record_view};
ghost use Rattle.swift_journal.specs.TailInside.{since};
ghost use Rattle.swift_journal.specs.Words.{ReadsBack};

use crate::effects::write_effects;
use crate::ends::{write_exit, write_resume};
use crate::frames::write_frame;
use crate::record::Record;
use crate::stored::{FrameHead, StoredEffect, StoredFault, TurnHead};
use crate::tail::Tail;
use crate::words::{short, write_bindings};
use std::alloc::AllocError;
use swift_interpreter::Frame;
use swift_types::MethodId;

// Writes a turn: its words, its effects, and at last its head. Where a growth is refused, some of its words and of its
// effects may stand after those that were there.
pub fn write_turn(
    heads: &mut Vec<TurnHead>,
    words: &mut Tail,
    effects: &mut Vec<StoredEffect>,
    turn: &Record<'_>,
) -> Result<(), AllocError>
    requires { words.old.written ≡ [] }
    ensures before { words.new.before ≡ words.old.before }
    ensures effects { effects.new.items ≡ effects.old.items ++ since effects.old.items effects.new.items }
    ensures ok { OnOk result (IsPut heads.old.items heads.new.items (length words.old.before) words.new.written (length effects.old.items) (since effects.old.items effects.new.items) (record_view turn.now)) }
    ensures err { OnErr result (heads.new.items ≡ heads.old.items) }
{
    let first_effect = effects.len();
    let resume = write_resume(words, turn.resume)?;
    let frame = write_frame(words, turn.frame)?;
    write_bindings(words, turn.outer)?;
    let ended = short(words.size())?;
    let exit = write_exit(words, turn.exit)?;
    let after = write_after(words, turn.after)?;
    write_effects(words, effects, turn.effects)?;
    let head = TurnHead {
        start: words.start(),
        first_effect,
        frame,
        after,
        task: turn.task,
        number: turn.number,
        worker: turn.worker,
        room: turn.env.room,
        size: short(words.size())?,
        effects: short(effects.len() - first_effect)?,
        outer: short(turn.outer.depth())?,
        ended,
        exit,
        resume,
        priority: turn.env.priority,
        cancelled: turn.env.cancelled,
    };
    put_head(heads, head)?;
    Ok(())
}

// Puts a head behind the others. Always inlined, so that it is built in its place.
#[inline(always)]
fn put_head(heads: &mut Vec<TurnHead>, head: TurnHead) -> Result<(), AllocError>
    ensures items { OnOk result (heads.new.items ≡ heads.old.items ++ head ∷ []) }
    ensures same { OnErr result (heads.new.items ≡ heads.old.items) }
{
    heads.reserve(1)?;
    heads.push_reserved(head);
    Ok(())
}

// Appends the words of the frame after a turn, where one goes on.
fn write_after(words: &mut Tail, after: Option<&Frame>) -> Result<FrameHead, AllocError>
    ensures before { words.new.before ≡ words.old.before }
    ensures words { IfOk result (λ h. words.new.written ≡ words.old.written ++ frame_if_words h after.entry) }
    ensures reads_back { IfOk result (λ h. ReadsBack _ (frame_if_of h) (skip_frame_if h) (frame_if_words h after.entry) (frame_if_lent after.entry)) }
{
    match after {
        Some(frame) => write_frame(words, frame),
        None => Ok(NO_FRAME),
    }
}

// What stands where there is no frame.
const NO_FRAME: FrameHead = FrameHead {
    method: MethodId(0),
    instruction: 0,
    variables: 0,
    pending: StoredFault::Absent,
    counted: false,
    stands: false,
};
