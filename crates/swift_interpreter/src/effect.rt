//! What a turn does beside its fields.

use swift_locals::Bindings;
use swift_types::{ActorId, MethodId, Priority, RootId};

/// A method that is to run (our own).
#[derive(Drop)]
pub struct Invocation {
    /// The actor that the method is of.
    pub actor: ActorId,
    /// The method, by its number among all methods of the script.
    pub method: MethodId,
    /// Its arguments, from left to right.
    pub args: Vec<i64>,
}

/// A task, as a frame names it (our own).
#[derive(Clone, Copy, PartialEq, Eq)]
pub enum TaskName {
    /// A root's task.
    Root(RootId),
    /// A task that the frame's task has spawned or detached, by its number among those, from 0.
    Own(u32),
}

/// What is done when a turn has ended, in order (SE-0304 for tasks and groups, SE-0311 for bindings).
pub enum Effect {
    /// An unstructured task is made, with its maker's priority where none is given, and with the bindings that stand.
    Spawn {
        /// What it runs.
        invocation: Invocation,
        /// The priority that is given.
        priority: Option<Priority>,
        /// The bindings that it inherits.
        bindings: Bindings,
    },
    /// A detached task is made. It has no bindings.
    Detach(Invocation, Priority),
    /// A group is opened: its number is how many the task has opened before.
    Open,
    /// A child is added to a group, by the group's number within its task, with the bindings that stand; where the flag
    /// is set, only if the group is not cancelled by then.
    Add {
        /// The number of the group within the task.
        group: u32,
        /// Whether a cancelled group gets no child.
        unless_cancelled: bool,
        /// What it runs.
        invocation: Invocation,
        /// The priority that is given.
        priority: Option<Priority>,
        /// The bindings that it inherits.
        bindings: Bindings,
    },
    /// A task is cancelled.
    CancelTask(TaskName),
    /// A group is cancelled, by its number within its task.
    CancelGroup(u32),
}

impl Drop for Effect {
    fn drop(self) {
        match self {
            Effect::Spawn {
                invocation,
                priority: _,
                bindings,
            }
            | Effect::Add {
                group: _,
                unless_cancelled: _,
                invocation,
                priority: _,
                bindings,
            } => {
                drop(invocation);
                drop(bindings);
            }
            Effect::Detach(invocation, _) => drop(invocation),
            Effect::Open | Effect::CancelTask(_) | Effect::CancelGroup(_) => {}
        }
    }
}
