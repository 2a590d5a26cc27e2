//! Lists of methods, by number.

ghost use Rattle.std.specs.Prelude.{◌≡◌, ◌<◌, length, OnOk, IfOk};
ghost use Rattle.script_compiler.specs.ListsInside.{Has, AreOrderly, Pushes, AreEmpty};

use std::alloc::{AllocError, Global};

/// A method in a list, and the place of the entry before it in the same list.
#[derive(Clone, Copy)]
pub(crate) struct ListEntry {
    pub method: u32,
    pub before: Option<usize>,
}

/// Lists of methods, by number. The entries of all of them lie in one array: `last` has the place of each list's last
/// entry, from which one comes to the others.
#[derive(Drop)]
pub(crate) struct MethodLists {
    pub last: Vec<Option<usize>>,
    pub entries: Vec<ListEntry>,
}

impl MethodLists {
    /// This many lists, all empty.
    pub(crate) fn new(alloc: Global, count: usize) -> Result<Self, AllocError>
        ensures count { IfOk result (λ lists. length lists.last.items ≡ count) }
        ensures empty { IfOk result AreEmpty }
    {
        Ok(MethodLists {
            last: vec![in alloc; None; count]?,
            entries: Vec::new(alloc),
        })
    }

    /// Adds a method to a list, in constant time but for growth.
    pub(crate) fn push(&mut self, list: usize, method: u32) -> Result<(), AllocError>
        requires list { list < length self.old.last.items }
        requires orderly { AreOrderly self.old }
        ensures { OnOk result (Pushes list method self.old self.new) }
    {
        let place = self.entries.len();
        let before = self.last[list];
        self.entries.push(ListEntry { method, before })?;
        self.last[list] = Some(place);
        Ok(())
    }
}
