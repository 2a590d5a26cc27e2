//! What a journal keeps of a turn beside its list of numbers.

use std::mem::size_of;
use swift_interpreter::TaskName;
use swift_types::{ActorId, MethodId, Priority, TaskId};

/// Which fault, if there is one. The value of a throw stands among the numbers.
#[derive(Clone, Copy, PartialEq, Eq)]
pub enum StoredFault {
    Absent,
    Thrown,
    Cancelled,
    Invariant,
    Overflow,
    Steps,
    Turns,
    Depth,
    Tasks,
    Empty,
    Isolation,
}

/// What a turn begins with. A value stands among the numbers.
#[derive(Clone, Copy, PartialEq, Eq)]
pub enum StoredResume {
    Start,
    Go,
    Value,
    Fault(StoredFault),
}

/// How a turn ends. What it names, how many arguments a call has, these arguments and values stand among the numbers.
#[derive(Clone, Copy, PartialEq, Eq)]
pub enum StoredExit {
    Call,
    /// The task waits for a root's task.
    Root,
    /// The task waits for one that it has made.
    Own,
    Next,
    Close(StoredFault),
    Yield,
    Return,
    Fault(StoredFault),
}

/// A method that is to run, and how many arguments it has, which stand among the numbers.
#[derive(Clone, Copy, PartialEq, Eq)]
pub struct StoredInvocation {
    pub actor: ActorId,
    pub method: MethodId,
    pub args: usize,
}

/// An effect. Arguments and bindings, as many as are told, stand among the numbers.
#[derive(Clone, Copy, PartialEq, Eq)]
pub enum StoredEffect {
    Spawn(StoredInvocation, Option<Priority>, usize),
    Detach(StoredInvocation, Priority),
    Open,
    Add(u32, bool, StoredInvocation, Option<Priority>, usize),
    CancelTask(TaskName),
    CancelGroup(u32),
}

/// What a frame seldom has: tasks and groups that its task made, handles, bindings and groups of its own. It is how many
/// of each there are.
#[derive(Clone, Copy)]
pub struct FrameCounts {
    pub made: u64,
    pub opened: u64,
    pub handles: usize,
    pub own: usize,
    pub groups: usize,
}

/// A frame. Its lists stand among the numbers, and its counts too where one of them is not 0.
#[derive(Clone, Copy, PartialEq, Eq)]
pub struct FrameHead {
    pub method: MethodId,
    pub instruction: u32,
    /// How many variables it has.
    pub variables: u32,
    pub pending: StoredFault,
    /// Whether its counts are stored.
    pub counted: bool,
    /// Whether there is such a frame.
    pub stands: bool,
}

/// A turn, but for what stands among the numbers and among the effects.
#[derive(Clone, Copy)]
pub struct TurnHead {
    /// Where its numbers begin.
    pub start: usize,
    /// Where its effects begin.
    pub first_effect: usize,
    pub frame: FrameHead,
    /// The frame after the turn. None stands where the frame is left.
    pub after: FrameHead,
    pub task: TaskId,
    pub number: u32,
    pub worker: u32,
    pub room: u32,
    /// How many numbers it has.
    pub size: u32,
    /// How many effects it has.
    pub effects: u32,
    /// How many bindings stood when the frame began.
    pub outer: u32,
    /// How many of its numbers come before those of how it ends.
    pub ended: u32,
    pub exit: StoredExit,
    pub resume: StoredResume,
    pub priority: Priority,
    pub cancelled: bool,
}

// A turn takes no more than this beside its numbers.
const _: () = prove!(size_of::<TurnHead>() == 88);

/// Whether a frame stands after a turn, and whether its counts are stored.
#[derive(Clone, Copy, PartialEq, Eq)]
pub enum StoredAfter {
    Absent,
    Plain,
    Counted,
}

/// A turn that was folded, but for what stands among the numbers and among the effects. These end where those of the next turn
/// begin.
#[derive(Clone, Copy)]
pub struct FoldedHead {
    /// Where its numbers begin.
    pub start: u32,
    /// Where its effects begin.
    pub first_effect: u32,
    pub task: TaskId,
    pub number: u32,
    /// The method of the frame after the turn, the number of its next instruction, how many variables it has, and the fault that is pending. They mean
    /// nothing where the frame is left.
    pub method: MethodId,
    pub instruction: u32,
    pub variables: u32,
    pub pending: StoredFault,
    pub after: StoredAfter,
    pub exit: StoredExit,
}

// With the number of one variable it takes 40 bytes.
const _: () = prove!(size_of::<FoldedHead>() == 32);
