//! The first root that waits for itself or for a later one.

ghost use Rattle.std.specs.Prelude.{◌≡◌, ℕ, ◌+◌, ◌<◌, IfOk, IfSome, IfNone, All, length};
ghost use Rattle.script_compiler.specs.Waits.{WaitsForLater, NoneBefore, NoneWaits};
ghost use Rattle.script_compiler.specs.ListsInside.{AreListsOf};
ghost use Rattle.script_compiler.specs.FirstInside.{Calls, WaitsInPlace};

use crate::waits::lists::MethodLists;
use crate::waits::marks::Marks;
use std::alloc::{AllocError, Global};

/// An edge from a method to one that it calls, spawns, detaches or adds.
#[derive(Clone, Copy)]
pub struct CallEdge {
    /// The number of the method that does so.
    pub from: u32,
    /// The number of the other method.
    pub to: u32,
}

/// A wait of a method for a root.
#[derive(Clone, Copy)]
pub struct RootWait {
    /// The number of the method that waits.
    pub method: u32,
    /// The place of the root, which may be past the last one.
    pub root: u32,
}

/// For each method, those that lead to it by one edge.
fn callers(alloc: Global, methods: usize, edges: &[CallEdge]) -> Result<MethodLists, AllocError>
    requires { All (λ e. e.to < methods) edges.now }
    ensures { IfOk result (AreListsOf (Calls edges.now) methods) }
{
    let mut callers = MethodLists::new(alloc, methods)?;
    for edge in edges {
        callers.push(edge.to as usize, edge.from)?;
    }
    Ok(callers)
}

/// For each root, the methods that wait for it, and in a last list those that wait for a root past the last one.
fn waiting(alloc: Global, roots: &[u32], waits: &[RootWait]) -> Result<MethodLists, AllocError>
    ensures { IfOk result (AreListsOf (WaitsInPlace waits.now (length roots.now)) (length roots.now + 1)) }
{
    let mut waiting = MethodLists::new(alloc, roots.len() + 1)?;
    for wait in waits {
        waiting.push(roots.len().min(wait.root as usize), wait.method)?;
    }
    Ok(waiting)
}

/// The place of the first root whose method leads to a wait for that root or for a later one. None where each root, and
/// every task that is made from it, waits only for roots declared before it. An `Err` says that a growth was refused.
///
/// Methods are numbered below `methods`. `roots` has the method of each root, in the order of declaration; a root is
/// known by its place there. A wait for a root past the last one is a wait for a later root.
///
/// Time and memory are linear in the methods, the edges, the waits and the roots.
pub fn first_waiting(
    alloc: Global,
    methods: usize,
    edges: &[CallEdge],
    waits: &[RootWait],
    roots: &[u32],
) -> Result<Option<usize>, AllocError>
    requires from { All (λ e. e.from < methods) edges.now }
    requires to { All (λ e. e.to < methods) edges.now }
    requires waits { All (λ w. w.method < methods) waits.now }
    requires roots { All (λ m. m < methods) roots.now }
    ensures found { IfOk result (λ first. IfSome first (WaitsForLater edges.now waits.now roots.now)) }
    ensures first { IfOk result (λ first. IfSome first (NoneBefore edges.now waits.now roots.now)) }
    ensures none { IfOk result (λ first. IfNone first (NoneWaits edges.now waits.now roots.now)) }
{
    let callers = callers(alloc, methods, edges)?;
    let waiting = waiting(alloc, roots, waits)?;
    let mut marks = Marks::new(alloc, methods)?;
    marks.reach(&waiting, roots.len(), &callers)?;
    let mut first = None;
    for place in (0..roots.len()).rev() {
        marks.reach(&waiting, place, &callers)?;
        if marks.is_marked(roots[place]) {
            first = Some(place);
        }
    }
    Ok(first)
}
