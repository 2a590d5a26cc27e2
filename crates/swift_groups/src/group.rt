//! What is kept of one group, of one child and of one ending.

ghost use Rattle.std.specs.Prelude.{◌≡◌, ℕ, true, if◌then◌else◌, Some, IsSome};
ghost use Rattle.std.specs.HashMap.{get, spare};
ghost use Rattle.swift_groups.specs.KeysInside.{same_key, unended};
ghost use Rattle.swift_groups.specs.Inside.{open_in, live_in, known_in};

use crate::answer::GroupId;
use crate::fault::GroupFault;
use std::collections::HashMap;
use swift_types::{Ending, TaskId};

/// How far a group is. No call takes or gives one: contracts speak of it.
#[derive(Clone, Copy)]
pub enum GroupStage {
    /// It takes children and hands out results.
    Open,
    /// A `close` came while a child had not ended.
    Closing,
    /// A `close` came when each child had ended.
    Done,
}

/// A group. Its children and endings stand among those of all groups.
#[derive(Clone, Copy)]
pub struct Group {
    pub owner: TaskId,
    pub cancelled: bool,
    pub stage: GroupStage,
    /// How many children have not ended.
    pub unfinished: usize,
    /// How many endings were handed out.
    pub handed: usize,
    /// The place of the first ending that was not handed out.
    pub first: Option<usize>,
    /// The place of the last ending.
    pub last: Option<usize>,
}

/// A child of a group.
#[derive(Clone, Copy)]
pub struct Child {
    pub group: usize,
    pub task: TaskId,
}

/// The ending of a child of a group.
#[derive(Clone, Copy)]
pub struct ChildEnding {
    pub group: usize,
    pub task: TaskId,
    pub ending: Ending,
}

/// The group of that number, where no `close` came yet.
pub(crate) fn open_group(groups: &[Group], group: GroupId) -> Result<Group, GroupFault>
    ensures { result ≡ open_in groups.now group.0 }
{
    let Some(found) = groups.get(group.0) else {
        return Err(GroupFault::Unknown);
    };
    match found.stage {
        GroupStage::Open => Ok(*found),
        GroupStage::Closing | GroupStage::Done => Err(GroupFault::Closed),
    }
}

/// The group of that number, where it is not done.
pub(crate) fn live_group(groups: &[Group], group: GroupId) -> Result<Group, GroupFault>
    ensures { result ≡ live_in groups.now group.0 }
{
    let Some(found) = groups.get(group.0) else {
        return Err(GroupFault::Unknown);
    };
    match found.stage {
        GroupStage::Open | GroupStage::Closing => Ok(*found),
        GroupStage::Done => Err(GroupFault::Closed),
    }
}

/// The group of that number, however far it is.
pub(crate) fn known_group(groups: &[Group], group: GroupId) -> Result<Group, GroupFault>
    ensures { result ≡ known_in groups.now group.0 }
{
    let Some(found) = groups.get(group.0) else {
        return Err(GroupFault::Unknown);
    };
    Ok(*found)
}

/// What is marked of a child of a group: whether it has ended. Nothing where the task is no child of it.
pub(crate) fn mark_in(
    marks: &HashMap<(usize, TaskId), bool>,
    group: GroupId,
    child: TaskId,
) -> Option<bool>
    ensures { result ≡ get same_key marks.now (group.0, child) }
{
    marks.get(&(group.0, child)).copied()
}

/// Whether a task is marked as a child of a group that has not ended.
pub(crate) fn is_unfinished(
    marks: &HashMap<(usize, TaskId), bool>,
    group: GroupId,
    child: TaskId,
) -> bool
    ensures { result ≡ unended (get same_key marks.now (group.0, child)) }
{
    match mark_in(marks, group, child) {
        Some(has_ended) => !has_ended,
        None => false,
    }
}

/// Marks a child of a group as ended. Takes no memory.
pub(crate) fn mark_ended(marks: &mut HashMap<(usize, TaskId), bool>, group: GroupId, child: TaskId)
    requires { IsSome (get same_key marks.old (group.0, child)) }
    ensures written { (i : ℕ) (t : TaskId) → get same_key marks.new (i, t) ≡ (if same_key (group.0, child) (i, t) then Some true else get same_key marks.old (i, t)) }
    ensures room { spare marks.new ≡ spare marks.old }
{
    if let Some(has_ended) = marks.get_mut(&(group.0, child)) {
        *has_ended = true;
    }
}
