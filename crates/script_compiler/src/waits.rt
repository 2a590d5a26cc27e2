//! Roots that wait for themselves or for later ones.

ghost use Rattle.std.specs.Prelude.{◌≡◌, ℕ, ◌++◌, ◌<◌, ◌≤◌, All, length, map, IfOk, IfSome, IfNone, OnOk};
ghost use Rattle.swift_types.specs.declared.limits.TheConstants.{BYTES};
ghost use Rattle.script_compiler.specs.Waits.{WaitsForLater, NoneBefore, NoneWaits};
ghost use Rattle.script_code.specs.Tree.{wanted_of};
ghost use Rattle.script_compiler.specs.Compiled.{CompiledView};
ghost use Rattle.script_compiler.specs.IsCompiled.{root_view, IsCompiled};
ghost use Rattle.script_compiler.specs.Waiting.{method_wanted, root_wanted, edge_to, wait_for, edges_made, waits_made, edges_of, waits_of, root_methods};
ghost use Rattle.script_compiler.specs.ActsInside.{made_if, made_along, made_through};
ghost use Rattle.script_code.specs.Statements.{operation_of};

// The first root that waits for itself or for a later one. This and the next two know nothing of scripts: methods and roots are
// numbers.
mod first;
// Lists of methods, by number.
mod lists;
// The methods that lead to a wait.
mod marks;

use crate::compiled::{Compiled, CompiledMethod, CompiledRoot};
pub use first::{CallEdge, RootWait, first_waiting};
use script_code::{Act, CompiledAwait, Instruction};
use std::alloc::{AllocError, Global};

// What the methods call and wait for.
#[derive(Drop)]
struct CallsAndWaits {
    edges: Vec<CallEdge>,
    waits: Vec<RootWait>,
}

fn method_wanted(awaited: &CompiledAwait) -> Option<u32>
    ensures { result ≡ method_wanted (wanted_of awaited.now) }
{
    match awaited {
        CompiledAwait::Call(call) => Some(call.method.0),
        CompiledAwait::Root(_) | CompiledAwait::Task(_) | CompiledAwait::Next(_) => None,
    }
}

fn root_wanted(awaited: &CompiledAwait) -> Option<u32>
    ensures { result ≡ root_wanted (wanted_of awaited.now) }
{
    match awaited {
        CompiledAwait::Root(root) => Some(root.0),
        CompiledAwait::Call(_) | CompiledAwait::Task(_) | CompiledAwait::Next(_) => None,
    }
}

// The method that an act calls, spawns, detaches or adds.
fn method_called(act: &Act) -> Option<u32>
    ensures { (m : ℕ) → edge_to m result ≡ made_if (edges_made m) (operation_of act.now) }
{
    match act {
        Act::Wait(awaited) => method_wanted(awaited),
        Act::Spawn { call, .. } | Act::Detach { call, .. } | Act::Add { call, .. } => {
            Some(call.method.0)
        }
        _ => None,
    }
}

// The root that an act waits for.
fn root_awaited(act: &Act) -> Option<u32>
    ensures { (m : ℕ) → wait_for m result ≡ made_if (waits_made m) (operation_of act.now) }
{
    match act {
        Act::Wait(awaited) => root_wanted(awaited),
        _ => None,
    }
}

fn add_edge(edges: &mut Vec<CallEdge>, from: u32, to: Option<u32>) -> Result<(), AllocError>
    ensures { OnOk result (edges.new.items ≡ edges.old.items ++ edge_to from to) }
{
    if let Some(to) = to {
        edges.push(CallEdge { from, to })?;
    }
    Ok(())
}

fn add_wait(waits: &mut Vec<RootWait>, method: u32, root: Option<u32>) -> Result<(), AllocError>
    ensures { OnOk result (waits.new.items ≡ waits.old.items ++ wait_for method root) }
{
    if let Some(root) = root {
        waits.push(RootWait { method, root })?;
    }
    Ok(())
}

// What one method calls and waits for, after those before it.
fn add_method(
    named: &mut CallsAndWaits,
    method: u32,
    instructions: &[Instruction],
) -> Result<(), AllocError>
    ensures edges { OnOk result (named.new.edges.items ≡ named.old.edges.items ++ made_along (edges_made method) instructions.now) }
    ensures waits { OnOk result (named.new.waits.items ≡ named.old.waits.items ++ made_along (waits_made method) instructions.now) }
{
    for instruction in instructions {
        add_edge(&mut named.edges, method, method_called(&instruction.act))?;
        add_wait(&mut named.waits, method, root_awaited(&instruction.act))?;
    }
    Ok(())
}

fn named_by(alloc: Global, methods: &[CompiledMethod]) -> Result<CallsAndWaits, AllocError>
    requires { length methods.now ≤ BYTES }
    ensures edges { IfOk result (λ n. n.edges.items ≡ made_through edges_made 0 methods.now) }
    ensures waits { IfOk result (λ n. n.waits.items ≡ made_through waits_made 0 methods.now) }
{
    let mut named = CallsAndWaits {
        edges: Vec::new(alloc),
        waits: Vec::new(alloc),
    };
    for (k, method) in methods.iter().enumerate() {
        add_method(&mut named, k as u32, &method.instructions)?;
    }
    Ok(named)
}

fn methods_of(alloc: Global, roots: &[CompiledRoot]) -> Result<Vec<u32>, AllocError>
    ensures { IfOk result (λ v. v.items ≡ map (λ r. r.method) (map root_view roots.now)) }
{
    let mut methods = Vec::with_capacity(alloc, roots.len())?;
    for root in roots {
        methods.push(root.method.0)?;
    }
    Ok(methods)
}

// A count that is past each method of some edges, and at least `least`.
fn past_edges(edges: &[CallEdge], least: usize) -> usize
    ensures least { least ≤ result }
    ensures from { All (λ e. e.from < result) edges.now }
    ensures to { All (λ e. e.to < result) edges.now }
{
    let mut count = least;
    for edge in edges {
        count = count.max(edge.from as usize + 1);
        count = count.max(edge.to as usize + 1);
    }
    count
}

// A count that is past each method of some waits, and at least `least`.
fn past_waits(waits: &[RootWait], least: usize) -> usize
    ensures least { least ≤ result }
    ensures method { All (λ w. w.method < result) waits.now }
{
    let mut count = least;
    for wait in waits {
        count = count.max(wait.method as usize + 1);
    }
    count
}

// And for the methods of roots.
fn past_roots(methods: &[u32], least: usize) -> usize
    ensures least { least ≤ result }
    ensures method { All (λ m. m < result) methods.now }
{
    let mut count = least;
    for method in methods {
        count = count.max(*method as usize + 1);
    }
    count
}

/// The place of the first root that waits for itself or for a later root: where its method, or one that it leads to by
/// calls, spawns, detaches and adds, has an `await task` of such a root, whether that is reached or not (our own). `Err`
/// says that there was no memory.
///
/// Time and memory are linear in the instructions and the roots. A method that is not there, which no checked script
/// names, is taken as one without instructions.
pub fn first_waiting_root(alloc: Global, compiled: &Compiled) -> Result<Option<usize>, AllocError>
    // There are no more methods than a script may have bytes, so they have numbers of 32 bits.
    requires { length compiled.now.methods.items ≤ BYTES }
    ensures found { IfOk result (λ first. (v : CompiledView) → IsCompiled compiled.now v → IfSome first (WaitsForLater (edges_of v) (waits_of v) (root_methods v))) }
    ensures first { IfOk result (λ first. (v : CompiledView) → IsCompiled compiled.now v → IfSome first (NoneBefore (edges_of v) (waits_of v) (root_methods v))) }
    ensures none { IfOk result (λ first. (v : CompiledView) → IsCompiled compiled.now v → IfNone first (NoneWaits (edges_of v) (waits_of v) (root_methods v))) }
{
    let named = named_by(alloc, &compiled.methods)?;
    let roots = methods_of(alloc, &compiled.roots)?;
    let count = past_edges(&named.edges, compiled.methods.len());
    let count = past_waits(&named.waits, count);
    let count = past_roots(&roots, count);
    first_waiting(alloc, count, &named.edges, &named.waits, &roots)
}
