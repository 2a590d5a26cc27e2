//! Histories that a search has kept, each by its last steps after another.

ghost use Rattle.std.specs.Prelude.{◌≡◌, ◌<◌, ◌++◌, ◌∷◌, [], IfOk, OnOk, Some, length, reverse, slice_get};
ghost use Rattle.swift_explorer.specs.NodesInside.{NodeView};

use crate::moves::Move;
use crate::parts::short;
use std::alloc::{AllocError, Global};
use std::marker::Model;

// A history that was kept: the steps from `begins` up to `ends` after another that was.
#[derive(Clone, Copy)]
pub(crate) struct Node {
    before: u32,
    begins: u32,
    ends: u32,
}

/// Histories that were kept, and the steps of all of them.
#[derive(Drop)]
pub(crate) struct Nodes {
    nodes: Vec<Node>,
    steps: Vec<Move>,
}

impl Model for Nodes {
    ghost use Rattle.std.specs.Prelude.{List, map};
    ghost use Rattle.swift_explorer.specs.NodesInside.{AreWithin, NodeView, node_view};

    ghost Value = { List NodeView };

    ghost view = { λ x. map (node_view x.steps.items) x.nodes.items };

    ghost invariant = { λ x. AreWithin x.steps.items x.nodes.items };
}

// Appends these steps, the last one first.
fn push_back(path: &mut Vec<Move>, moves: &[Move]) -> Result<(), AllocError>
    ensures { OnOk result (path.new.items ≡ path.old.items ++ reverse moves.now) }
{
    let mut left = moves.len();
    'left: while 0 < left {
        left -= 1;
        path.push(moves[left])?;
    }
    Ok(())
}

impl Nodes {
    /// None.
    pub(crate) fn new(alloc: Global) -> Nodes
        ensures { result ≡ [] }
    {
        Nodes {
            nodes: Vec::new(alloc),
            steps: Vec::new(alloc),
        }
    }

    /// How many.
    pub(crate) fn len(&self) -> usize
        ensures { result ≡ length self.now }
    {
        self.nodes.len()
    }

    /// Puts one more to the others. Out of memory, what is there means nothing.
    pub(crate) fn push(&mut self, before: usize, moves: &[Move]) -> Result<(), AllocError>
        ensures { OnOk result (self.new ≡ self.old ++ record { before = before; moves = moves.now } ∷ []) }
    {
        let begins = short(self.steps.len())?;
        self.steps.extend_from_slice(moves)?;
        let node = Node {
            before: short(before)?,
            begins,
            ends: short(self.steps.len())?,
        };
        self.nodes.push(node)?;
        Ok(())
    }

    /// Appends the steps of a node, the last one first. The node that they come after.
    pub(crate) fn push_steps(&self, place: usize, path: &mut Vec<Move>) -> Result<usize, AllocError>
        requires { place < length self.now }
        ensures { IfOk result (λ before. (n : NodeView) × (slice_get self.now place ≡ Some n) × (before ≡ n.before) × (path.new.items ≡ path.old.items ++ reverse n.moves)) }
    {
        let node = self.nodes[place];
        push_back(path, &self.steps[node.begins as usize..node.ends as usize])?;
        Ok(node.before as usize)
    }
}
