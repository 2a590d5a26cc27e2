//! What stands at a place of a method, with the place of each name.

ghost use Rattle.std.specs.Prelude.{◌≡◌, ◌≤◌, ◌<◌, None, is_some, length, take, IfOk, IfSome, OnOk};
ghost use Rattle.swift_types.specs.declared.limits.TheConstants.{BYTES};
ghost use Rattle.script_names.specs.Texts.{is_among, place_of};
ghost use Rattle.script_names.specs.Directory.{fields_at};
ghost use Rattle.script_names.specs.Scope.{fields_alone, with_standing, meaning_of, share_a_name};
ghost use Rattle.script_names.specs.Rules.{bind_fault};
ghost use Rattle.script_compiler.specs.Counts.{counts_of};
ghost use Rattle.script_compiler.specs.Few.{HasFewNames};
ghost use Rattle.script_compiler.specs.Lowered.{numbers_in, handles_in, number_place, handle_place};
ghost use Rattle.script_code.specs.Layout.{greatest};
ghost use Rattle.script_compiler.specs.StandingInside.{outside_of, left};

use crate::lowering::counts::{PlaceCounts, count_name};
use script_names::{Declared, NameErrorKind, NameKind, Outside, Scope};
use std::alloc::{AllocError, Global};
use std::marker::Model;

/// The names that stand at a place of a method, each with how many numbers and handles stand before it. So the place of a
/// name is found in time linear in the name.
pub(crate) struct StandingNames<'a> {
    scope: Scope<'a>,
    counts: Vec<PlaceCounts>,
    here: PlaceCounts,
}

impl Drop for StandingNames<'_> {
    fn drop(self) {
        let StandingNames {
            scope,
            counts,
            here: _,
        } = self;
        drop(scope);
        drop(counts);
    }
}

impl<'a> Model for StandingNames<'a> {
    ghost use Rattle.script_names.specs.Scope.{ScopeView};
    ghost use Rattle.script_code.specs.Layout.{greatest};
    ghost use Rattle.script_compiler.specs.StandingInside.{IsCounted};

    ghost Value = { ScopeView };

    ghost view = { λ s. s.scope };

    ghost invariant = { λ s. IsCounted s.scope s.counts.items s.here };
}

impl<'a> StandingNames<'a> {
    /// Nothing stands there but the fields of the actor at a place.
    pub(crate) fn fields_alone(
        alloc: Global,
        declared: &'a Declared,
        actor: usize,
    ) -> StandingNames<'a>
        requires { HasFewNames declared.now }
        ensures { result ≡ fields_alone declared.now actor }
    {
        StandingNames {
            scope: Scope::fields_alone(alloc, declared, actor),
            counts: Vec::new(alloc),
            here: PlaceCounts {
                numbers: 0,
                handles: 0,
            },
        }
    }

    /// What the script declares.
    pub(crate) fn declared(&self) -> &'a Declared
        ensures directory { result.now ≡ self.now.directory }
        ensures few { HasFewNames result.now }
    {
        self.scope.declared()
    }

    /// The place of the actor whose fields stand there.
    pub(crate) fn actor(&self) -> usize
        ensures { result ≡ self.now.actor }
    {
        self.scope.actor()
    }

    /// What a name stands for, if it stands there.
    pub(crate) fn meaning(&self, name: &[u8]) -> Option<NameKind>
        ensures { result ≡ meaning_of self.now name.now }
    {
        self.scope.meaning(name)
    }

    /// The place of a field that stands there.
    pub(crate) fn field(&self, name: &[u8]) -> Option<usize>
        ensures found { is_some result ≡ is_among (fields_at self.now.directory self.now.actor) name.now }
        ensures place { IfSome result (λ n. n ≡ place_of (fields_at self.now.directory self.now.actor) name.now) }
        ensures few { IfSome result (λ n. n ≤ BYTES) }
    {
        match self.scope.declared().fields(self.scope.actor()) {
            Some(fields) => fields.place(name),
            None => None,
        }
    }

    // How many stand before the name at a place, or how many stand there.
    fn counts_at(&self, place: usize) -> PlaceCounts
        ensures { result ≡ counts_of (take place self.now.kinds) }
    {
        self.counts.get(place).copied().unwrap_or(self.here)
    }

    /// The place of a number among the numbers. A name that stands nowhere has the place after the last.
    pub(crate) fn number_place(&self, name: &[u8]) -> u32
        ensures { result ≡ number_place self.now name.now }
    {
        self.counts_at(self.scope.place(name)).numbers
    }

    /// The place of a task or group among the handles. A name that stands nowhere has the place after the last.
    pub(crate) fn handle_place(&self, name: &[u8]) -> u32
        ensures { result ≡ handle_place self.now name.now }
    {
        self.counts_at(self.scope.place(name)).handles
    }

    /// How many numbers and handles stand there.
    pub(crate) fn counts(&self) -> PlaceCounts
        ensures { result ≡ counts_of self.now.kinds }
    {
        self.here
    }

    /// A name more, which must not stand there yet.
    pub(crate) fn add(
        &mut self,
        alloc: Global,
        name: &[u8],
        kind: NameKind,
    ) -> Result<(), AllocError>
        requires new { meaning_of self.old name.now ≡ None }
        requires room { length self.old.kinds < greatest }
        ensures { OnOk result (self.new ≡ with_standing self.old name.now kind) }
    {
        let here = count_name(self.here, kind);
        self.counts.push(self.here)?;
        match self.scope.add(alloc, name, kind) {
            Ok(()) => {
                self.here = here;
                Ok(())
            }
            Err(_) => {
                self.counts.pop();
                Err(AllocError)
            }
        }
    }

    /// What stands there, to come back to it after a block.
    pub(crate) fn outside(&self) -> Outside
        ensures value { result ≡ outside_of self.now }
        ensures as_many { length self.now.kinds ≡ length self.now.names }
    {
        self.scope.outside()
    }

    /// A child is added to a group that was opened inside the innermost open `bind`.
    pub(crate) fn bind_fault(&self, group: &[u8]) -> Option<NameErrorKind>
        ensures { result ≡ bind_fault self.now group.now }
    {
        self.scope.bind_fault(group)
    }

    /// Whether a name of the method that stands there is one of a field of the actor at a place. `Err` says that there was
    /// no memory.
    pub(crate) fn has_field_name_of(&mut self, actor: usize) -> Result<bool, AllocError>
        ensures shared { IfOk result (λ b. b ≡ share_a_name (fields_at self.old.directory actor) self.old.names) }
        ensures same { self.new ≡ self.old }
    {
        self.scope.has_field_name_of(actor)
    }

    /// From here on stand the fields of the actor at this place.
    pub(crate) fn assume(&mut self, actor: usize)
        ensures { self.new ≡ record self.old { actor = actor } }
    {
        self.scope.assume(actor);
    }

    /// Here begins the innermost open `bind`.
    pub(crate) fn bind(&mut self)
        ensures { self.new ≡ record self.old { bound = length self.old.names } }
    {
        self.scope.bind();
    }

    /// Ends a block: what began in it stands no more.
    pub(crate) fn leave(&mut self, outside: Outside)
        ensures { self.new ≡ left outside self.old }
    {
        self.here = self.counts_at(outside.names);
        self.counts.truncate(outside.names);
        self.scope.leave(outside);
    }
}
