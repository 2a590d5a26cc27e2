//! What names mean at a place of a method.

use crate::flow::{Place, Use, uses};
use crate::words::{has_field, is_same};
use script_grammar::{Actor, Decl, Field, Name, Stmt};
use std::alloc::{AllocError, Global};

/// What a name stands for that is no number which is read.
#[derive(Clone, Copy)]
pub(crate) enum Handle {
    /// A task that the method made.
    Task,
    /// A group.
    Group,
    /// A number that is never read. It is not printed.
    Unread,
}

// A name that a method gave to a task, a group or a number that is never read.
#[derive(Clone, Copy)]
struct KnownHandle<'a> {
    name: &'a Name,
    handle: Handle,
}

/// What a place has that a block hides or adds to: how many names there are, and the actor of an `assume`.
#[derive(Clone, Copy)]
pub(crate) struct OutsideBlock<'a> {
    count: usize,
    assumed: Option<&'a Actor>,
}

/// Where a statement of a method stands.
pub(crate) struct MethodScope<'a> {
    /// The whole script.
    pub decls: &'a [Decl],
    /// The actor whose method it is.
    pub actor: &'a Actor,
    // The block of what is printed, and its place there. By its vector: the prover spells out what a slice leads to, wherever it is passed.
    block: Option<&'a Vec<Stmt>>,
    first: usize,
    /// The actor whose fields stand, where that is the one of an `assume`.
    pub assumed: Option<&'a Actor>,
    /// Whether an invariant is tested at the end of each turn.
    pub is_checked: bool,
    handles: Vec<KnownHandle<'a>>,
}

impl Drop for MethodScope<'_> {
    fn drop(self) {
        let MethodScope {
            decls: _,
            actor: _,
            block: _,
            first: _,
            assumed: _,
            is_checked: _,
            handles,
        } = self;
        drop(handles);
    }
}

impl<'a> MethodScope<'a> {
    /// The beginning of a method with this body.
    pub(crate) fn new(
        alloc: Global,
        decls: &'a [Decl],
        actor: &'a Actor,
        block: Option<&'a Vec<Stmt>>,
        is_checked: bool,
    ) -> MethodScope<'a> {
        MethodScope {
            decls,
            actor,
            block,
            first: 0,
            assumed: None,
            is_checked,
            handles: Vec::new(alloc),
        }
    }

    /// What the place after a block that begins here has.
    pub(crate) fn outside(&self) -> OutsideBlock<'a> {
        OutsideBlock {
            count: self.handles.len(),
            assumed: self.assumed,
        }
    }

    /// Leaves a block.
    pub(crate) fn leave(&mut self, outside: OutsideBlock<'a>) {
        self.handles.truncate(outside.count);
        self.assumed = outside.assumed;
    }

    /// Gives a name to a task, a group or a number that is never read.
    pub(crate) fn know(&mut self, name: &'a Name, handle: Handle) -> Result<(), AllocError> {
        self.handles.push(KnownHandle { name, handle })?;
        Ok(())
    }

    /// What a name stands for; a root, or a number that is read, where it is none of these.
    pub(crate) fn handle(&self, name: &Name) -> Option<Handle> {
        for known in &self.handles {
            if is_same(known.name, name) {
                return Some(known.handle);
            }
        }
        None
    }

    /// Goes to the statement at a place of a block.
    pub(crate) fn stand(&mut self, block: &'a Vec<Stmt>, place: usize) {
        self.block = Some(block);
        self.first = place;
    }

    // What is printed, and those after it in its block.
    fn rest(&self) -> &'a [Stmt] {
        match self.block {
            Some(block) if self.first < block.len() => &block[self.first..],
            _ => &[],
        }
    }

    /// What has to be known to say where statements end.
    pub(crate) fn place(&self) -> Place<'a> {
        Place {
            decls: self.decls,
            actor: self.actor,
        }
    }

    /// Whether the statements after this one, in its block, do this with a name.
    pub(crate) fn is_used(&self, what: Use, name: &Name) -> bool {
        uses(self.place(), self.rest(), what, name)
    }

    /// Whether a name is a number that is never read.
    pub(crate) fn is_unread(&self, name: &Name) -> bool {
        match self.handle(name) {
            Some(Handle::Unread) => true,
            _ => false,
        }
    }

    /// Whether a name is a field of the actor of an `assume`.
    pub(crate) fn is_assumed(&self, name: &Name) -> bool {
        match self.assumed {
            Some(actor) => has_field(actor, name),
            None => false,
        }
    }
}

/// The actor of this name.
pub(crate) fn find_actor<'a>(decls: &'a [Decl], name: &Name) -> Option<&'a Actor> {
    for decl in decls {
        if let Decl::Actor(actor) = decl {
            if is_same(&actor.name, name) {
                return Some(actor);
            }
        }
    }
    None
}

/// Whether two actors run on one executor.
pub(crate) fn is_together(left: &Actor, right: &Actor) -> bool {
    match (&left.executor, &right.executor) {
        (Some(one), Some(other)) => is_same(one, other),
        (None, None) => is_same(&left.name, &right.name),
        _ => false,
    }
}

/// Whether an actor of the executor of this one has an invariant.
pub(crate) fn has_invariant(decls: &[Decl], actor: &Actor) -> bool {
    for decl in decls {
        if let Decl::Actor(other) = decl {
            if other.invariant.is_some() && is_together(actor, other) {
                return true;
            }
        }
    }
    false
}
