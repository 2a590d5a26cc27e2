//! Laws of the definitions alone. A call costs nothing; its contract is the law.

ghost use Rattle.std.specs.Prelude.{◌≡◌, ℕ, true, List, length, None, Some, slice_get};
ghost use Rattle.std.specs.List.{AllByRecursion};
ghost use Rattle.script_grammar.specs.Tree.{BlockTree, MethodTree, ActorTree, DeclTree};
ghost use Rattle.script_names.specs.Directory.{DirectoryView, directory_of, has_method, method_place, key_of};
ghost use Rattle.script_names.specs.Scope.{ScopeView, fields_alone};
ghost use Rattle.script_names.specs.Rules.{SeenView, block_error, method_error, methods_error, actor_error, names_error};
ghost use Rattle.script_compiler.specs.Plan.{PlanView, plan_of};
ghost use Rattle.script_compiler.specs.Counts.{counts_of, most_of};
ghost use Rattle.script_compiler.specs.Lowered.{block_code};
ghost use Rattle.script_compiler.specs.Places.{PlacesBelow, HoldsNoField};
ghost use Rattle.script_compiler.specs.Targets.{TargetsFit};
ghost use Rattle.script_compiler.specs.Methods.{CodeFits, ScriptFits};

/// Where the names of a block are in order, every place that its code names is below the number of places.
pub fn blocks_name_their_places()
    ensures { (p : PlanView) (s : ScopeView) (at : ℕ) (b : BlockTree) → HoldsNoField s → block_error s at b ≡ None → PlacesBelow (most_of (counts_of s.kinds) b) (block_code p s b) }
{}

/// Where the names of a block are in order, every call of its code is of a method that is there, of the actor that is
/// called, with as many arguments as the method has parameters.
pub fn blocks_call_methods()
    ensures { (p : PlanView) (s : ScopeView) (at : ℕ) (b : BlockTree) → block_error s at b ≡ None → TargetsFit s.directory (block_code p s b) }
{}

/// The method of an actor that has it stands at its place, under its own key. A script's directory says of each method how
/// many parameters it has.
pub fn methods_have_places()
    ensures key { (d : DirectoryView) (actor method : List ℕ) → has_method d actor method ≡ true → slice_get d.methods (method_place d actor method) ≡ Some (key_of d actor method) }
    ensures params { (decls : List DeclTree) → length (directory_of decls).params ≡ length (directory_of decls).methods }
{}

/// Where the names of a method are in order, its code names places that the method has, calls methods that are there, and
/// uses handles as they were made; and so of all methods of an actor.
pub fn methods_fit()
    ensures one { (p : PlanView) (actor : ℕ) (seen : List (List ℕ)) (at : ℕ) (m : MethodTree) → method_error (fields_alone p.directory actor) seen at m ≡ None → CodeFits p actor m }
    ensures all { (p : PlanView) (actor : ℕ) (seen : List (List ℕ)) (at : ℕ) (ms : List MethodTree) → methods_error (fields_alone p.directory actor) seen at ms ≡ None → AllByRecursion (CodeFits p actor) ms }
    ensures actor { (p : PlanView) (seen : SeenView) (at : ℕ) (a : ActorTree) → actor_error p.directory seen at a ≡ None → AllByRecursion (CodeFits p seen.actors) a.methods }
{}

/// Where the names of a script are in order, so it is of each method of each of its actors, and each root calls a method
/// that is there.
pub fn scripts_fit()
    ensures { (decls : List DeclTree) → names_error decls ≡ None → ScriptFits (plan_of decls) 0 decls }
{}
