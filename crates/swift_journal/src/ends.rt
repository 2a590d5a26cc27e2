//! Faults, resumes and exits, written and read.

ghost use Rattle.std.specs.Prelude.{◌≡◌, ◌++◌, drop, take, IfOk, OnOk};
ghost use Rattle.swift_interpreter.specs.Frames.{invocation_view};
ghost use Rattle.swift_interpreter.specs.TurnStates.{exit_view};
ghost use Rattle.swift_journal.specs.Ends.{skip_exit as after_exit, skip_pending as after_pending, skip_resume as after_resume, IsNarrowExit, call_of, exit_kind, exit_of, exit_words, fault_kind, fault_of, fault_size as size_of_fault, fault_words, pending_kind, pending_of, pending_words, resume_kind, resume_of, resume_words};
ghost use Rattle.swift_journal.specs.Records.{brief_of};
ghost use Rattle.swift_journal.specs.Words.{first_word, number_at};

use crate::brief::BriefExit;
use crate::stored::{StoredExit, StoredFault, StoredResume};
use crate::tail::Tail;
use crate::words::{number_at, short, split, word_at, write_number};
use std::alloc::{AllocError, Global};
use swift_interpreter::{Exit, Invocation, TaskName};
use swift_types::{ActorId, Fault, MethodId, Resume, RootId};

// Which fault it is.
fn kind_of(fault: Fault) -> StoredFault
    ensures { result ≡ fault_kind fault }
{
    match fault {
        Fault::Thrown(_) => StoredFault::Thrown,
        Fault::Cancelled => StoredFault::Cancelled,
        Fault::Invariant => StoredFault::Invariant,
        Fault::Overflow => StoredFault::Overflow,
        Fault::Steps => StoredFault::Steps,
        Fault::Turns => StoredFault::Turns,
        Fault::Depth => StoredFault::Depth,
        Fault::Tasks => StoredFault::Tasks,
        Fault::Empty => StoredFault::Empty,
        Fault::Isolation => StoredFault::Isolation,
    }
}

// Appends the value of a throw, and says which fault it is.
fn write_fault(words: &mut Tail, fault: Fault) -> Result<StoredFault, AllocError>
    ensures kind { IfOk result (λ kind. kind ≡ fault_kind fault) }
    ensures before { words.new.before ≡ words.old.before }
    ensures words { OnOk result (words.new.written ≡ words.old.written ++ fault_words fault) }
{
    if let Fault::Thrown(value) = fault {
        words.push(value)?;
    }
    Ok(kind_of(fault))
}

// Appends the value of a fault that may be pending, and says which it is.
pub fn write_pending(words: &mut Tail, pending: Option<Fault>) -> Result<StoredFault, AllocError>
    ensures kind { IfOk result (λ kind. kind ≡ pending_kind pending) }
    ensures before { words.new.before ≡ words.old.before }
    ensures words { OnOk result (words.new.written ≡ words.old.written ++ pending_words pending) }
{
    match pending {
        Some(fault) => write_fault(words, fault),
        None => Ok(StoredFault::Absent),
    }
}

// Appends the values of what a turn begins with, and says which it is.
pub fn write_resume(words: &mut Tail, resume: Resume) -> Result<StoredResume, AllocError>
    ensures kind { IfOk result (λ kind. kind ≡ resume_kind resume) }
    ensures before { words.new.before ≡ words.old.before }
    ensures words { OnOk result (words.new.written ≡ words.old.written ++ resume_words resume) }
{
    match resume {
        Resume::Start => Ok(StoredResume::Start),
        Resume::Go => Ok(StoredResume::Go),
        Resume::Value(value) => {
            words.push(value)?;
            Ok(StoredResume::Value)
        }
        Resume::Fault(fault) => Ok(StoredResume::Fault(write_fault(words, fault)?)),
    }
}

// Appends what the exit of a turn names and the arguments of a call, and says which it is.
pub fn write_exit(words: &mut Tail, exit: &Exit) -> Result<StoredExit, AllocError>
    ensures kind { IfOk result (λ kind. kind ≡ exit_kind exit.now) }
    ensures before { words.new.before ≡ words.old.before }
    ensures words { OnOk result (words.new.written ≡ words.old.written ++ exit_words exit.now) }
    ensures narrow { OnOk result (IsNarrowExit exit.now) }
{
    match exit {
        Exit::Call(invocation) => write_call(words, invocation),
        Exit::Wait(task) => write_name(words, *task),
        Exit::Next(group) => {
            write_number(words, *group)?;
            Ok(StoredExit::Next)
        }
        Exit::Close(group, pending) => {
            write_number(words, *group)?;
            Ok(StoredExit::Close(write_pending(words, *pending)?))
        }
        Exit::Yield => Ok(StoredExit::Yield),
        Exit::Return(value) => {
            words.push(*value)?;
            Ok(StoredExit::Return)
        }
        Exit::Fault(fault) => Ok(StoredExit::Fault(write_fault(words, *fault)?)),
    }
}

fn write_call(words: &mut Tail, invocation: &Invocation) -> Result<StoredExit, AllocError>
    ensures kind { IfOk result (λ kind. kind ≡ exit_kind (Exit.Call invocation.now)) }
    ensures before { words.new.before ≡ words.old.before }
    ensures words { OnOk result (words.new.written ≡ words.old.written ++ exit_words (Exit.Call invocation.now)) }
    ensures narrow { OnOk result (IsNarrowExit (Exit.Call invocation.now)) }
{
    let count = short(invocation.args.len())?;
    write_number(words, invocation.actor.0)?;
    write_number(words, invocation.method.0)?;
    write_number(words, count)?;
    words.extend(&invocation.args)?;
    Ok(StoredExit::Call)
}

fn write_name(words: &mut Tail, task: TaskName) -> Result<StoredExit, AllocError>
    ensures kind { IfOk result (λ kind. kind ≡ exit_kind (Exit.Wait task)) }
    ensures before { words.new.before ≡ words.old.before }
    ensures words { OnOk result (words.new.written ≡ words.old.written ++ exit_words (Exit.Wait task)) }
    ensures narrow { OnOk result (IsNarrowExit (Exit.Wait task)) }
{
    match task {
        TaskName::Root(root) => {
            write_number(words, root.0)?;
            Ok(StoredExit::Root)
        }
        TaskName::Own(number) => {
            write_number(words, number)?;
            Ok(StoredExit::Own)
        }
    }
}

// A fault, with the value that a throw has. What has none is never asked.
fn fault(kind: StoredFault, words: &[i64]) -> Fault
    ensures { result ≡ fault_of kind (first_word words.now) }
{
    match kind {
        StoredFault::Thrown => Fault::Thrown(word_at(words, 0)),
        StoredFault::Absent | StoredFault::Cancelled => Fault::Cancelled,
        StoredFault::Invariant => Fault::Invariant,
        StoredFault::Overflow => Fault::Overflow,
        StoredFault::Steps => Fault::Steps,
        StoredFault::Turns => Fault::Turns,
        StoredFault::Depth => Fault::Depth,
        StoredFault::Tasks => Fault::Tasks,
        StoredFault::Empty => Fault::Empty,
        StoredFault::Isolation => Fault::Isolation,
    }
}

// The fault that is pending, if one is.
pub fn pending(kind: StoredFault, words: &[i64]) -> Option<Fault>
    ensures { result ≡ pending_of kind words.now }
{
    match kind {
        StoredFault::Absent => None,
        _ => Some(fault(kind, words)),
    }
}

// What a turn begins with.
pub fn resume(kind: StoredResume, words: &[i64]) -> Resume
    ensures { result ≡ resume_of kind words.now }
{
    match kind {
        StoredResume::Start => Resume::Start,
        StoredResume::Go => Resume::Go,
        StoredResume::Value => Resume::Value(word_at(words, 0)),
        StoredResume::Fault(kind) => Resume::Fault(fault(kind, words)),
    }
}

// How a turn ends, without the arguments of a call.
pub fn brief(kind: StoredExit, words: &[i64]) -> BriefExit
    ensures { result ≡ brief_of (exit_of kind words.now) }
{
    match kind {
        StoredExit::Call => BriefExit::Call(
            ActorId(number_at(words, 0)),
            MethodId(number_at(words, 1)),
        ),
        StoredExit::Root => BriefExit::Wait(TaskName::Root(RootId(number_at(words, 0)))),
        StoredExit::Own => BriefExit::Wait(TaskName::Own(number_at(words, 0))),
        StoredExit::Next => BriefExit::Next(number_at(words, 0)),
        StoredExit::Close(kind) => {
            BriefExit::Close(number_at(words, 0), pending(kind, split(words, 1).1))
        }
        StoredExit::Yield => BriefExit::Yield,
        StoredExit::Return => BriefExit::Return(word_at(words, 0)),
        StoredExit::Fault(kind) => BriefExit::Fault(fault(kind, words)),
    }
}

// How a turn ends.
pub fn read_exit(alloc: Global, kind: StoredExit, words: &[i64]) -> Result<Exit, AllocError>
    ensures { IfOk result (λ exit. exit_view exit ≡ exit_of kind words.now) }
{
    match kind {
        StoredExit::Call => Ok(Exit::Call(read_call(alloc, words)?)),
        StoredExit::Root => Ok(Exit::Wait(TaskName::Root(RootId(number_at(words, 0))))),
        StoredExit::Own => Ok(Exit::Wait(TaskName::Own(number_at(words, 0)))),
        StoredExit::Next => Ok(Exit::Next(number_at(words, 0))),
        StoredExit::Close(kind) => Ok(Exit::Close(
            number_at(words, 0),
            pending(kind, split(words, 1).1),
        )),
        StoredExit::Yield => Ok(Exit::Yield),
        StoredExit::Return => Ok(Exit::Return(word_at(words, 0))),
        StoredExit::Fault(kind) => Ok(Exit::Fault(fault(kind, words))),
    }
}

// What is called.
fn read_call(alloc: Global, words: &[i64]) -> Result<Invocation, AllocError>
    ensures { IfOk result (λ invocation. invocation_view invocation ≡ call_of words.now) }
{
    Ok(Invocation {
        actor: ActorId(number_at(words, 0)),
        method: MethodId(number_at(words, 1)),
        args: call_args(words).0.to_vec(alloc)?,
    })
}

// The arguments of what is called, and the words after them.
fn call_args(words: &[i64]) -> (&[i64], &[i64])
    ensures front { result.0.now ≡ take (number_at words.now 2) (drop 3 words.now) }
    ensures back { result.1.now ≡ drop (number_at words.now 2) (drop 3 words.now) }
{
    split(split(words, 3).1, number_at(words, 2) as usize)
}

// How many words a fault has.
fn fault_size(kind: StoredFault) -> usize
    ensures { result ≡ size_of_fault kind }
{
    match kind {
        StoredFault::Thrown => 1,
        _ => 0,
    }
}

// The words after a fault that may be pending.
pub fn skip_pending(kind: StoredFault, words: &[i64]) -> &[i64]
    ensures { result.now ≡ after_pending kind words.now }
{
    split(words, fault_size(kind)).1
}

// The words after what a turn begins with.
pub fn skip_resume(kind: StoredResume, words: &[i64]) -> &[i64]
    ensures { result.now ≡ after_resume kind words.now }
{
    match kind {
        StoredResume::Value => split(words, 1).1,
        StoredResume::Fault(kind) => split(words, fault_size(kind)).1,
        _ => words,
    }
}

// The words after how a turn ends.
pub fn skip_exit(kind: StoredExit, words: &[i64]) -> &[i64]
    ensures { result.now ≡ after_exit kind words.now }
{
    match kind {
        StoredExit::Call => call_args(words).1,
        StoredExit::Close(kind) => skip_pending(kind, split(words, 1).1),
        StoredExit::Yield => words,
        StoredExit::Fault(kind) => split(words, fault_size(kind)).1,
        _ => split(words, 1).1,
    }
}
