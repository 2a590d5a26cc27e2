//! Roots that no line of a script names: no task waits for such a root, and none cancels it.

ghost use Rattle.std.specs.Prelude.{◌≡◌, All, IsTrue, true};
ghost use Rattle.script_code.specs.Tree.{wanted_of};
ghost use Rattle.swift_reordering.specs.Unnamed.{IsUnnamed, cancelled_spares, instruction_spares, wanted_spares};

use script_code::{Act, Cancelled, CompiledAwait, Instruction};
use swift_script::Script;
use swift_types::{MethodId, TaskId};

// Whether what is waited for is not this root.
fn wanted_spares(awaited: &CompiledAwait, root: u32) -> bool
    ensures { result ≡ wanted_spares root (wanted_of awaited.now) }
{
    match awaited {
        CompiledAwait::Root(named) => named.0 != root,
        CompiledAwait::Call(_) | CompiledAwait::Task(_) | CompiledAwait::Next(_) => true,
    }
}

// Whether what is cancelled is not this root.
fn cancelled_spares(cancelled: &Cancelled, root: u32) -> bool
    ensures { result ≡ cancelled_spares root cancelled.now }
{
    match cancelled {
        Cancelled::Root(named) => named.0 != root,
        Cancelled::Task(_) | Cancelled::Group(_) => true,
    }
}

// Whether an instruction does not name this root.
fn line_spares(line: &Instruction, root: u32) -> bool
    ensures { result ≡ instruction_spares root line.now }
{
    match &line.act {
        Act::Wait(awaited) => wanted_spares(awaited, root),
        Act::Cancel(cancelled) => cancelled_spares(cancelled, root),
        _ => true,
    }
}

// Whether none of these instructions does.
fn all_spare(lines: &[Instruction], root: u32) -> bool
    ensures { IsTrue result → All (λ line. instruction_spares root line ≡ true) lines.now }
{
    for line in lines {
        if !line_spares(line, root) {
            return false;
        }
    }
    true
}

/// Whether a task is a root that no line of the script names. Each instruction is read once.
pub(crate) fn root_is_unnamed(script: &Script, task: TaskId) -> bool
    ensures { IsTrue result → IsUnnamed script.now task.0 }
{
    if task.0 as usize >= script.root_count() {
        return false;
    }
    for place in 0..script.method_count() {
        let Ok(number) = u32::try_from(place) else {
            return false;
        };
        if !all_spare(script.instructions(MethodId(number)), task.0) {
            return false;
        }
    }
    true
}
