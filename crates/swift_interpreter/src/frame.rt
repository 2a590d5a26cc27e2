//! A method that is under way.

ghost use Rattle.std.specs.Prelude.{◌≡◌, OnOk};
ghost use Rattle.swift_interpreter.specs.Frames.{blank_frame, frame_view};

use crate::saved::copy_into;
use script_code::Binding;
use std::alloc::{AllocError, Global};
use swift_types::{Fault, MethodId};

/// A method that is under way, and the counts of its task (our own).
pub struct Frame {
    /// Its method.
    pub method: MethodId,
    /// The number of the instruction at which its next turn begins.
    pub instruction: u32,
    /// Its variables, by number.
    pub variables: Vec<i64>,
    /// Its handles, by number: each holds the number of a task or a group within its task.
    pub handles: Vec<u32>,
    /// The bindings that it has made and that stand, the innermost last (SE-0311).
    pub own: Vec<Binding>,
    /// The groups that it has open, the innermost last (SE-0304).
    pub groups: Vec<u32>,
    /// The fault with which it is left once its groups are closed.
    pub pending: Option<Fault>,
    /// How many tasks its task has spawned or detached so far.
    pub made: u64,
    /// How many groups its task has opened so far.
    pub opened: u64,
}

impl Drop for Frame {
    fn drop(self) {
        let Frame {
            method: _,
            instruction: _,
            variables,
            handles,
            own,
            groups,
            pending: _,
            made: _,
            opened: _,
        } = self;
        drop(variables);
        drop(handles);
        drop(own);
        drop(groups);
    }
}

impl Frame {
    /// A frame whose buffers hold nothing, to be overwritten. It takes no memory.
    pub fn new(alloc: Global) -> Self
        ensures { frame_view result ≡ blank_frame }
    {
        Frame {
            method: MethodId(0),
            instruction: 0,
            variables: Vec::new(alloc),
            handles: Vec::new(alloc),
            own: Vec::new(alloc),
            groups: Vec::new(alloc),
            pending: None,
            made: 0,
            opened: 0,
        }
    }

    /// Becomes a copy of another frame, in its own buffers, which grow only where they are too small.
    pub fn copy_from(&mut self, from: &Frame) -> Result<(), AllocError>
        ensures parts { OnOk result (frame_view self.new ≡ frame_view from.now) }
        ensures method { OnOk result (self.new.method ≡ from.now.method) }
    {
        self.method = from.method;
        self.instruction = from.instruction;
        copy_into(&from.variables, &mut self.variables)?;
        copy_into(&from.handles, &mut self.handles)?;
        copy_into(&from.own, &mut self.own)?;
        copy_into(&from.groups, &mut self.groups)?;
        self.pending = from.pending;
        self.made = from.made;
        self.opened = from.opened;
        Ok(())
    }
}
