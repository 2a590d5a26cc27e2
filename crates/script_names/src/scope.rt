//! What stands at a place of a script.

ghost use Rattle.std.specs.Prelude.{◌≡◌, None, length, take, IfOk, OnOk, OnErr};
ghost use Rattle.script_names.specs.Texts.{place_of};
ghost use Rattle.script_names.specs.Directory.{fields_at};
ghost use Rattle.script_names.specs.Scope.{fields_alone, with_standing, meaning_of, share_a_name};
ghost use Rattle.script_names.specs.Rules.{bind_fault};
ghost use Rattle.script_names.specs.Finds.{Finds};

use crate::checked_names::CheckedNames;
use crate::directory::Declared;
use crate::error::{CheckError, NameErrorKind};
use crate::fault::where_so;
use crate::texts::Names;
use std::alloc::{AllocError, Global};
use std::marker::Model;

/// What a name stands for.
#[derive(Clone, Copy)]
pub enum NameKind {
    /// A field of the actor.
    Field,
    /// A parameter, or a variable that holds a number.
    Number,
    /// A variable that holds a task.
    Task,
    /// A task group.
    Group,
}

/// The names that stand at a place, each with its kind: the fields of one actor, and the names of the method. A name is
/// found by its hash, in time linear in the name.
pub struct Scope<'a> {
    declared: &'a Declared,
    actor: usize,
    names: Names,
    kinds: Vec<NameKind>,
    bound: usize,
    cleared: CheckedNames,
}

impl Drop for Scope<'_> {
    fn drop(self) {
        let Scope {
            declared: _,
            actor: _,
            names,
            kinds,
            bound: _,
            cleared,
        } = self;
        drop(names);
        drop(kinds);
        drop(cleared);
    }
}

impl<'a> Model for Scope<'a> {
    ghost use Rattle.std.specs.Prelude.{◌≡◌, length};
    ghost use Rattle.script_names.specs.Scope.{ScopeView};
    ghost use Rattle.script_names.specs.ScopeInvariant.{AreCleared};

    ghost Value = { ScopeView };

    ghost view = { λ s. record { directory = s.declared.now; actor = s.actor; names = s.names; kinds = s.kinds.items; bound = s.bound } };

    ghost invariant = { λ s. (length s.kinds.items ≡ length s.names) × AreCleared s.declared.now s.names s.cleared };
}

/// What stands outside a block.
#[derive(Clone, Copy)]
pub struct Outside {
    /// The actor whose fields stand there.
    pub actor: usize,
    /// How many names of the method stand there.
    pub names: usize,
    /// How many of them stood where the innermost open `bind` began.
    pub bound: usize,
}

impl<'a> Scope<'a> {
    /// Nothing stands there but the fields of the actor at a place.
    pub fn fields_alone(alloc: Global, declared: &'a Declared, actor: usize) -> Scope<'a>
        ensures { result ≡ fields_alone declared.now actor }
    {
        Scope {
            declared,
            actor,
            names: Names::new(alloc, declared.seed()),
            kinds: Vec::new(alloc),
            bound: 0,
            cleared: CheckedNames::nothing(alloc),
        }
    }

    /// What the script declares.
    pub fn declared(&self) -> &'a Declared
        ensures { result.now ≡ self.now.directory }
    {
        self.declared
    }

    /// The place of the actor whose fields stand there.
    pub fn actor(&self) -> usize
        ensures { result ≡ self.now.actor }
    {
        self.actor
    }

    /// The place of a name of the method among those that stand there, the oldest first, or how many these are.
    pub fn place(&self, name: &[u8]) -> usize
        ensures { result ≡ place_of self.now.names name.now }
    {
        self.names.place_or_len(name)
    }

    /// What a name stands for, if it stands there.
    pub fn meaning(&self, name: &[u8]) -> Option<NameKind>
        ensures { result ≡ meaning_of self.now name.now }
    {
        if self.declared.has_field(self.actor, name) {
            Some(NameKind::Field)
        } else {
            self.kinds.get(self.names.place_or_len(name)).copied()
        }
    }

    /// A child is added to a group that was opened inside the innermost open `bind`.
    pub fn bind_fault(&self, group: &[u8]) -> Option<NameErrorKind>
        ensures { result ≡ bind_fault self.now group.now }
    {
        let is_outside = self.names.place_or_len(group) < self.bound;
        where_so(is_outside, NameErrorKind::BoundInside)
    }

    /// Whether a name of the method that stands there is one of a field of the actor at a place. It takes time linear in
    /// those fields or in the names that are new since it was asked last, whichever are fewer. `Err` says that there was no
    /// memory.
    pub fn has_field_name_of(&mut self, actor: usize) -> Result<bool, AllocError>
        ensures shared { IfOk result (λ b. b ≡ share_a_name (fields_at self.old.directory actor) self.old.names) }
        ensures same { self.new ≡ self.old }
    {
        let cleared = self.cleared.of(actor);
        let is_shared = self.declared.has_field_among(actor, &self.names, cleared);
        if !is_shared {
            self.cleared.note(actor, self.names.len())?;
        }
        Ok(is_shared)
    }

    /// A name more, which must not stand there yet. Where memory runs out, nothing changes.
    pub fn add(&mut self, alloc: Global, name: &[u8], kind: NameKind) -> Result<(), CheckError>
        requires { meaning_of self.old name.now ≡ None }
        ensures finds { Finds result None }
        ensures standing { OnOk result (self.new ≡ with_standing self.old name.now kind) }
        ensures err { OnErr result (self.new ≡ self.old) }
    {
        self.kinds.push(kind)?;
        match self.names.add(alloc, name) {
            Ok(_) => Ok(()),
            Err(_) => {
                self.kinds.pop();
                Err(CheckError::Memory)
            }
        }
    }

    /// What stands there, to come back to it after a block.
    pub fn outside(&self) -> Outside
        ensures value { result ≡ record { actor = self.now.actor; names = length self.now.names; bound = self.now.bound } }
        ensures as_many { length self.now.kinds ≡ length self.now.names }
    {
        Outside {
            actor: self.actor,
            names: self.names.len(),
            bound: self.bound,
        }
    }

    /// From here on stand the fields of the actor at this place.
    pub fn assume(&mut self, actor: usize)
        ensures { self.new ≡ record self.old { actor = actor } }
    {
        self.actor = actor;
    }

    /// Here begins the innermost open `bind`.
    pub fn bind(&mut self)
        ensures { self.new ≡ record self.old { bound = length self.old.names } }
    {
        self.bound = self.names.len();
    }

    /// Ends a block: what began in it stands no more.
    pub fn leave(&mut self, outside: Outside)
        ensures { self.new ≡ record self.old { actor = outside.actor; names = take outside.names self.old.names; kinds = take outside.names self.old.kinds; bound = outside.bound } }
    {
        self.actor = outside.actor;
        self.names.truncate(outside.names);
        self.cleared.lower(outside.names);
        self.kinds.truncate(outside.names);
        self.bound = outside.bound;
    }
}
