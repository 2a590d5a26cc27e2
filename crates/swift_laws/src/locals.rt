//! What holds of task locals, in turns and in each legal report (SE-0311). A call costs nothing; its contract is the law.

ghost use Rattle.swift_laws.specs.Inherited.{EachTaskIsMadeOnce, LocalsAreInherited, BindingsAreHandedOn, ReadsInnermost};

/// In a legal report each task is made once: so the bindings that it was made with are its own (our own).
pub fn each_task_is_made_once()
    ensures { EachTaskIsMadeOnce }
{}

/// Each turn in a journal of a legal report finds the bindings of the frames that have called its own, the nearest first, and
/// then those that its task was made with: none for a root and a detached task, and for a task that is spawned or added to a
/// group those that stood at that statement (SE-0311).
pub fn locals_are_inherited()
    ensures { LocalsAreInherited }
{}

/// In a legal report a task that a turn in a journal spawns or adds to a group is made with the bindings that stand at that
/// statement: those of its maker's frame, the innermost first, and then those that its maker found (SE-0311).
pub fn bindings_are_handed_on()
    ensures { BindingsAreHandedOn }
{}

/// A read of a task local gives its innermost binding, or its default where none stands (SE-0311).
pub fn read_gives_innermost()
    ensures { ReadsInnermost }
{}
