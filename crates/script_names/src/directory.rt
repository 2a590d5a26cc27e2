//! What a script declares.

ghost use Rattle.std.specs.Prelude.{◌≡◌, ◌<◌, ◌≤◌, [], false, is_some, length, map, option_copied, slice_get, take, IfOk, IfSome, OnOk};
ghost use Rattle.script_grammar.specs.Tree.{view_field, view_method, view_actor, view_decl};
ghost use Rattle.script_names.specs.Texts.{is_among, place_of};
ghost use Rattle.script_names.specs.Directory.{has_method, method_place, fields_at, field_names, with_names, with_method, with_methods, with_actor, with_decl, directory_of};
ghost use Rattle.script_names.specs.Scope.{share_a_name};

use crate::methods::Methods;
use crate::seed::Seed;
use crate::texts::Names;
use script_grammar::{Actor, Decl, Field, Method};
use std::alloc::{AllocError, Global};
use std::marker::Model;

/// The executors, task locals and roots of a script, and its actors with their fields and methods, wherever in the text
/// they stand. Of two of one name the first one counts; a second actor of a name adds nothing, its fields and methods
/// neither. A method is kept under its actor's place and its own name, so memory is linear in the names of the text
/// (our own).
pub struct Declared {
    seed: Seed,
    executors: Names,
    locals: Names,
    roots: Names,
    actors: Names,
    fields: Vec<Names>,
    methods: Methods,
    params: Vec<usize>,
}

impl Drop for Declared {
    fn drop(self) {
        let Declared {
            seed: _,
            executors,
            locals,
            roots,
            actors,
            fields,
            methods,
            params,
        } = self;
        drop(executors);
        drop(locals);
        drop(roots);
        drop(actors);
        drop(fields);
        drop(methods);
        drop(params);
    }
}

impl Model for Declared {
    ghost use Rattle.script_names.specs.Directory.{DirectoryView};

    ghost Value = { DirectoryView };

    ghost view = { λ d. record { executors = d.executors; locals = d.locals; roots = d.roots; actors = d.actors; fields = d.fields.items; methods = d.methods; params = d.params.items } };
}

impl Declared {
    /// What a script declares, in time and memory linear in its declarations and the names of its actors' fields and
    /// methods.
    pub fn of(alloc: Global, seed: Seed, decls: &[Decl]) -> Result<Declared, AllocError>
        ensures { IfOk result (λ d. d ≡ directory_of (map view_decl decls.now)) }
    {
        let mut declared = Declared {
            seed,
            executors: Names::new(alloc, seed),
            locals: Names::new(alloc, seed),
            roots: Names::new(alloc, seed),
            actors: Names::new(alloc, seed),
            fields: Vec::new(alloc),
            methods: Methods::new(alloc, seed),
            params: Vec::new(alloc),
        };
        for decl in decls {
            declared.add(alloc, decl)?;
        }
        Ok(declared)
    }

    /// With what the hash of each name begins.
    pub fn seed(&self) -> Seed {
        self.seed
    }

    /// How many executors there are.
    pub fn executor_count(&self) -> usize
        ensures { result ≡ length self.now.executors }
    {
        self.executors.len()
    }

    /// The place of an executor among the executors.
    pub fn executor(&self, name: &[u8]) -> Option<usize>
        ensures found { is_some result ≡ is_among self.now.executors name.now }
        ensures place { IfSome result (λ n. n ≡ place_of self.now.executors name.now) }
        ensures within { IfSome result (λ n. n < length self.now.executors) }
    {
        self.executors.place(name)
    }

    /// The place of a task local among the task locals.
    pub fn local(&self, name: &[u8]) -> Option<usize>
        ensures found { is_some result ≡ is_among self.now.locals name.now }
        ensures place { IfSome result (λ n. n ≡ place_of self.now.locals name.now) }
        ensures within { IfSome result (λ n. n < length self.now.locals) }
    {
        self.locals.place(name)
    }

    /// The place of a root among the roots.
    pub fn root(&self, name: &[u8]) -> Option<usize>
        ensures found { is_some result ≡ is_among self.now.roots name.now }
        ensures place { IfSome result (λ n. n ≡ place_of self.now.roots name.now) }
        ensures within { IfSome result (λ n. n < length self.now.roots) }
    {
        self.roots.place(name)
    }

    /// The place of an actor among the actors.
    pub fn actor(&self, name: &[u8]) -> Option<usize>
        ensures found { is_some result ≡ is_among self.now.actors name.now }
        ensures place { IfSome result (λ n. n ≡ place_of self.now.actors name.now) }
        ensures within { IfSome result (λ n. n < length self.now.actors) }
    {
        self.actors.place(name)
    }

    /// The place of an executor among the executors, or how many these are.
    pub fn executor_or_len(&self, name: &[u8]) -> usize
        ensures place { result ≡ place_of self.now.executors name.now }
        ensures within { result ≤ length self.now.executors }
    {
        self.executors.place_or_len(name)
    }

    /// The place of a task local among the task locals, or how many these are.
    pub fn local_or_len(&self, name: &[u8]) -> usize
        ensures place { result ≡ place_of self.now.locals name.now }
        ensures within { result ≤ length self.now.locals }
    {
        self.locals.place_or_len(name)
    }

    /// The place of a root among the roots, or how many these are.
    pub fn root_or_len(&self, name: &[u8]) -> usize
        ensures place { result ≡ place_of self.now.roots name.now }
        ensures within { result ≤ length self.now.roots }
    {
        self.roots.place_or_len(name)
    }

    /// The fields of the actor at a place.
    pub fn fields(&self, actor: usize) -> Option<&Names>
        ensures { option_copied result ≡ slice_get self.now.fields actor }
    {
        self.fields.get(actor)
    }

    /// Whether the actor at a place has a field of that name.
    pub(crate) fn has_field(&self, actor: usize, name: &[u8]) -> bool
        ensures { result ≡ is_among (fields_at self.now actor) name.now }
    {
        match self.fields(actor) {
            Some(fields) => fields.contains(name),
            None => false,
        }
    }

    /// Whether some of these names is one of a field of the actor at a place, where the first `cleared` ones are
    /// known to be none. It takes time linear in those fields or in the names that are not known, whichever are fewer.
    pub(crate) fn has_field_among(&self, actor: usize, names: &Names, cleared: usize) -> bool
        requires cleared { share_a_name (fields_at self.now actor) (take cleared names.now) ≡ false }
        requires within { cleared ≤ length names.now }
        ensures { result ≡ share_a_name (fields_at self.now actor) names.now }
    {
        match self.fields(actor) {
            Some(fields) => fields.has_any_of(names, cleared),
            None => false,
        }
    }

    /// The place of an actor's method among the methods of all actors, in time linear in both names. `Err` says that
    /// there was no memory.
    pub fn method(
        &self,
        alloc: Global,
        actor: &[u8],
        method: &[u8],
    ) -> Result<Option<usize>, AllocError>
        ensures found { IfOk result (λ o. is_some o ≡ has_method self.now actor.now method.now) }
        ensures place { IfOk result (λ o. IfSome o (λ n. n ≡ method_place self.now actor.now method.now)) }
        ensures within { IfOk result (λ o. IfSome o (λ n. n < length self.now.methods)) }
    {
        match self.actors.place(actor) {
            Some(place) => self.methods.place(alloc, place, method),
            None => Ok(None),
        }
    }

    /// How many parameters the method at a place has.
    pub fn parameters(&self, method: usize) -> Option<usize>
        ensures { result ≡ slice_get self.now.params method }
    {
        self.params.get(method).copied()
    }

    fn add(&mut self, alloc: Global, decl: &Decl) -> Result<(), AllocError>
        ensures { OnOk result (self.new ≡ with_decl (view_decl decl.now) self.old) }
    {
        match decl {
            Decl::Executor(executor) => self.executors.add(alloc, &executor.name.text)?,
            Decl::Local(local) => self.locals.add(alloc, &local.name.text)?,
            Decl::Actor(actor) => return self.add_actor(alloc, actor),
            Decl::Root(root) => self.roots.add(alloc, &root.name.text)?,
        };
        Ok(())
    }

    fn add_actor(&mut self, alloc: Global, actor: &Actor) -> Result<(), AllocError>
        ensures { OnOk result (self.new ≡ with_actor (view_actor actor.now) self.old) }
    {
        let name = &actor.name.text;
        if self.actors.contains(name) {
            return Ok(());
        }
        let place = self.actors.len();
        self.actors.add(alloc, name)?;
        self.fields
            .push(names_of(alloc, self.seed, &actor.fields)?)?;
        self.add_methods(alloc, place, &actor.methods)
    }

    fn add_methods(
        &mut self,
        alloc: Global,
        actor: usize,
        methods: &[Method],
    ) -> Result<(), AllocError>
        ensures { OnOk result (self.new ≡ with_methods actor (map view_method methods.now) self.old) }
    {
        for method in methods {
            self.add_method(alloc, actor, method)?;
        }
        Ok(())
    }

    fn add_method(&mut self, alloc: Global, actor: usize, method: &Method) -> Result<(), AllocError>
        ensures { OnOk result (self.new ≡ with_method actor (view_method method.now) self.old) }
    {
        if self.methods.add(alloc, actor, &method.name.text)? {
            self.params.push(method.params.len())?;
        }
        Ok(())
    }
}

// The names of fields, each once.
fn names_of(alloc: Global, seed: Seed, fields: &[Field]) -> Result<Names, AllocError>
    ensures { IfOk result (λ n. n ≡ with_names [] (field_names (map view_field fields.now))) }
{
    let mut names = Names::new(alloc, seed);
    for field in fields {
        names.add(alloc, &field.name.text)?;
    }
    Ok(names)
}
