//! Frames, written and read.

ghost use Rattle.std.specs.Prelude.{◌≡◌, ◌≢◌, ℕ, pos, [], true, false, ◌++◌, map, IfOk, OnOk};
ghost use Rattle.swift_interpreter.specs.Frames.{frame_view};
ghost use Rattle.swift_journal.specs.FrameWordsInside.{skip_counts as after_counts, skip_frame as after_frame, skip_groups as after_groups, skip_handles as after_handles, skip_own as after_own, count_at, counts_of, counts_words, frame_counts, frame_from, frame_of, frame_words, head_counts, list_part as list_part_of, list_words};
ghost use Rattle.swift_journal.specs.Words.{AreNarrow, ReadsBack, numbers_of};
ghost use Rattle.script_code.specs.Seen.{pair_of};

use crate::ends::{pending, skip_pending, write_pending};
use crate::stored::{FrameCounts, FrameHead};
use crate::tail::Tail;
use crate::words::{
    read_numbers, read_own, short, skip_bindings, split, word_at, write_numbers, write_own,
};
use std::alloc::{AllocError, Global};
use swift_interpreter::Frame;

// The counts of a frame.
fn counts(frame: &Frame) -> FrameCounts
    ensures { result ≡ frame_counts frame.now }
{
    FrameCounts {
        made: frame.made,
        opened: frame.opened,
        handles: frame.handles.len(),
        own: frame.own.len(),
        groups: frame.groups.len(),
    }
}

// Whether a count is not 0.
fn is_counted(counts: &FrameCounts) -> bool
    ensures { result ≡ false → counts.now ≡ counts_of false [] }
{
    counts.made != 0
        || counts.opened != 0
        || counts.handles != 0
        || counts.own != 0
        || counts.groups != 0
}

// Appends all counts.
fn write_all(words: &mut Tail, counts: &FrameCounts) -> Result<(), AllocError>
    ensures before { words.new.before ≡ words.old.before }
    ensures words { OnOk result (words.new.written ≡ words.old.written ++ counts_words true counts.now) }
    ensures reads { OnOk result (counts_of true (counts_words true counts.now) ≡ counts.now) }
{
    words.extend(&[
        counts.made.cast_signed(),
        counts.opened.cast_signed(),
        (counts.handles as u64).cast_signed(),
        (counts.own as u64).cast_signed(),
        (counts.groups as u64).cast_signed(),
    ])
}

// Appends the lists of a frame, its variables apart.
fn write_lists(words: &mut Tail, frame: &Frame) -> Result<(), AllocError>
    ensures before { words.new.before ≡ words.old.before }
    ensures words { OnOk result (words.new.written ≡ words.old.written ++ list_words frame.now) }
    ensures handles { OnOk result (numbers_of (map pos frame.now.handles.items) ≡ frame.now.handles.items) }
    ensures own { OnOk result (AreNarrow (map pair_of frame.now.own.items)) }
    ensures groups { OnOk result (numbers_of (map pos frame.now.groups.items) ≡ frame.now.groups.items) }
{
    write_numbers(words, &frame.handles)?;
    write_own(words, &frame.own)?;
    write_numbers(words, &frame.groups)
}

// Appends the counts of a frame and its lists, its variables apart, where one of the counts is not 0, and says whether one
// is not.
fn write_counted(words: &mut Tail, frame: &Frame) -> Result<bool, AllocError>
    ensures before { words.new.before ≡ words.old.before }
    ensures words { IfOk result (λ counted. words.new.written ≡ words.old.written ++ (counts_words counted (frame_counts frame.now) ++ list_words frame.now)) }
    ensures reads_back { IfOk result (λ counted. ReadsBack _ (counts_of counted) (after_counts counted) (counts_words counted (frame_counts frame.now)) (frame_counts frame.now)) }
    ensures handles { OnOk result (numbers_of (map pos frame.now.handles.items) ≡ frame.now.handles.items) }
    ensures own { OnOk result (AreNarrow (map pair_of frame.now.own.items)) }
    ensures groups { OnOk result (numbers_of (map pos frame.now.groups.items) ≡ frame.now.groups.items) }
{
    let counts = counts(frame);
    if is_counted(&counts) {
        write_all(words, &counts)?;
        write_lists(words, frame)?;
        Ok(true)
    } else {
        Ok(false)
    }
}

// Appends the words of a frame, and gives its head.
pub fn write_frame(words: &mut Tail, frame: &Frame) -> Result<FrameHead, AllocError>
    ensures before { words.new.before ≡ words.old.before }
    ensures words { IfOk result (λ h. words.new.written ≡ words.old.written ++ frame_words h.counted frame.now) }
    ensures reads_back { IfOk result (λ h. ReadsBack _ (frame_of h) (after_frame h) (frame_words h.counted frame.now) (frame_view frame.now)) }
    ensures stands { IfOk result (λ h. h.stands ≡ true) }
{
    let variables = short(frame.variables.len())?;
    words.extend(&frame.variables)?;
    let counted = write_counted(words, frame)?;
    Ok(FrameHead {
        method: frame.method,
        instruction: frame.instruction,
        variables,
        pending: write_pending(words, frame.pending)?,
        counted,
        stands: true,
    })
}

// The counts of a frame.
fn read_counts(counted: bool, words: &[i64]) -> FrameCounts
    ensures { result ≡ counts_of counted words.now }
{
    if counted {
        FrameCounts {
            made: count(words, 0),
            opened: count(words, 1),
            handles: count(words, 2) as usize,
            own: count(words, 3) as usize,
            groups: count(words, 4) as usize,
        }
    } else {
        FrameCounts {
            made: 0,
            opened: 0,
            handles: 0,
            own: 0,
            groups: 0,
        }
    }
}

// The word at a place, as a count.
fn count(words: &[i64], place: usize) -> u64
    ensures { result ≡ count_at words.now place }
{
    word_at(words, place).cast_unsigned()
}

// The words after the counts.
fn skip_counts(counted: bool, words: &[i64]) -> &[i64]
    ensures { result.now ≡ after_counts counted words.now }
{
    if counted { split(words, 5).1 } else { words }
}

// The words after the variables and the counts of a frame.
fn list_part<'a>(head: &FrameHead, words: &'a [i64]) -> &'a [i64]
    ensures { result.now ≡ list_part_of head.now words.now }
{
    skip_counts(head.counted, split(words, head.variables as usize).1)
}

// The counts of a frame, of its words.
fn counts_in(head: &FrameHead, words: &[i64]) -> FrameCounts
    ensures { result ≡ head_counts head.now words.now }
{
    read_counts(head.counted, split(words, head.variables as usize).1)
}

// The words after a frame.
pub fn skip_frame<'a>(head: &FrameHead, words: &'a [i64]) -> &'a [i64]
    ensures { result.now ≡ after_frame head.now words.now }
{
    let counts = counts_in(head, words);
    skip_pending(head.pending, skip_groups(&counts, list_part(head, words)))
}

// The words after the groups of a frame.
fn skip_groups<'a>(counts: &FrameCounts, words: &'a [i64]) -> &'a [i64]
    ensures { result.now ≡ after_groups counts.now words.now }
{
    split(skip_own(counts, words), counts.groups).1
}

// The words after the bindings of a frame.
fn skip_own<'a>(counts: &FrameCounts, words: &'a [i64]) -> &'a [i64]
    ensures { result.now ≡ after_own counts.now words.now }
{
    skip_bindings(skip_handles(counts, words), counts.own)
}

// The words after the handles of a frame.
fn skip_handles<'a>(counts: &FrameCounts, words: &'a [i64]) -> &'a [i64]
    ensures { result.now ≡ after_handles counts.now words.now }
{
    split(words, counts.handles).1
}

// A frame.
pub fn read_frame(alloc: Global, head: &FrameHead, words: &[i64]) -> Result<Frame, AllocError>
    ensures { IfOk result (λ frame. frame_view frame ≡ frame_of head.now words.now) }
{
    let counts = counts_in(head, words);
    let variables = split(words, head.variables as usize).0;
    read_lists(alloc, head, &counts, variables, list_part(head, words))
}

// A frame, by its variables, its counts and the words of its lists.
fn read_lists(
    alloc: Global,
    head: &FrameHead,
    counts: &FrameCounts,
    variables: &[i64],
    words: &[i64],
) -> Result<Frame, AllocError>
    ensures { IfOk result (λ frame. frame_view frame ≡ frame_from head.now variables.now counts.now words.now) }
{
    let handles = split(words, counts.handles).0;
    let groups = split(skip_own(counts, words), counts.groups).0;
    Ok(Frame {
        method: head.method,
        instruction: head.instruction,
        variables: Vec::from_slice(alloc, variables)?,
        handles: read_numbers(alloc, handles)?,
        own: read_own(alloc, skip_handles(counts, words), counts.own)?,
        groups: read_numbers(alloc, groups)?,
        pending: pending(head.pending, skip_groups(counts, words)),
        made: counts.made,
        opened: counts.opened,
    })
}
