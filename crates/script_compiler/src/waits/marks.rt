//! The methods that lead to a wait.

ghost use Rattle.std.specs.Prelude.{◌≡◌, ℕ, ◌<◌, ◌↔◌, length, vec_len, OnOk, IfOk, IsTrue};
ghost use Rattle.script_compiler.specs.ListsInside.{Has, AreOrderly};
ghost use Rattle.script_compiler.specs.MarksInside.{IsMarked, count_of, MarkingAll, IsClosed, IsClosedButPending, ArePendingMarked, Spreading, Reaching, AreNone};

use crate::waits::lists::MethodLists;
use std::alloc::{AllocError, Global};

/// The methods that were found to lead to a wait, and those of them whose callers are still to be marked.
#[derive(Drop)]
pub(crate) struct Marks {
    marked: Vec<bool>,
    pending: Vec<u32>,
}

impl Marks {
    /// Of this many methods none is marked.
    pub(crate) fn new(alloc: Global, methods: usize) -> Result<Self, AllocError>
        ensures { IfOk result (AreNone methods) }
    {
        Ok(Marks {
            marked: vec![in alloc; false; methods]?,
            pending: Vec::new(alloc),
        })
    }

    /// Whether a method is marked.
    pub(crate) fn is_marked(&self, method: u32) -> bool
        requires { method < count_of self.now }
        ensures { IsTrue result ↔ IsMarked self.now method }
    {
        self.marked[method as usize]
    }

    /// Marks a method, unless it is marked.
    fn mark(&mut self, method: u32) -> Result<(), AllocError>
        requires { method < count_of self.old }
        ensures { OnOk result (MarkingAll (λ m. m ≡ method) self.old self.new) }
    {
        if !self.marked[method as usize] {
            self.pending.push(method)?;
            self.marked[method as usize] = true;
        }
        Ok(())
    }

    /// Marks the methods of a list.
    fn mark_list(&mut self, lists: &MethodLists, list: usize) -> Result<(), AllocError>
        requires orderly { AreOrderly lists.now }
        requires list { list < length lists.now.last.items }
        requires methods { (m : ℕ) → Has lists.now list m → m < count_of self.old }
        ensures { OnOk result (MarkingAll (Has lists.now list) self.old self.new) }
    {
        let mut next = lists.last[list];
        while let Some(place) = next {
            let entry = lists.entries[place];
            self.mark(entry.method)?;
            next = entry.before;
        }
        Ok(())
    }

    /// Marks what leads to a pending method, until none is pending.
    fn spread(&mut self, callers: &MethodLists) -> Result<(), AllocError>
        requires orderly { AreOrderly callers.now }
        requires count { length callers.now.last.items ≡ count_of self.old }
        requires methods { (k m : ℕ) → Has callers.now k m → m < count_of self.old }
        requires closed { IsClosedButPending callers.now self.old }
        requires pending { ArePendingMarked self.old }
        ensures { OnOk result (Spreading callers.now self.old self.new) }
    {
        while let Some(method) = self.pending.pop() {
            self.mark_list(callers, method as usize)?;
        }
        Ok(())
    }

    /// Marks the methods of a list, and what leads to one of them.
    pub(crate) fn reach(
        &mut self,
        lists: &MethodLists,
        list: usize,
        callers: &MethodLists,
    ) -> Result<(), AllocError>
        requires orderly { AreOrderly lists.now }
        requires list { list < length lists.now.last.items }
        requires methods { (m : ℕ) → Has lists.now list m → m < count_of self.old }
        requires callers { AreOrderly callers.now }
        requires count { length callers.now.last.items ≡ count_of self.old }
        requires calling { (k m : ℕ) → Has callers.now k m → m < count_of self.old }
        requires closed { IsClosed callers.now self.old }
        requires none_pending { vec_len self.old.pending ≡ 0 }
        ensures { OnOk result (Reaching callers.now (Has lists.now list) self.old self.new) }
    {
        self.mark_list(lists, list)?;
        self.spread(callers)
    }
}
