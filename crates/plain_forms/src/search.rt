//! The search for the first form that has no plain Swift.
#![tactic(auto, using(crate::proofs::Found::then_found, crate::proofs::Found::none_found))]

ghost use Rattle.std.specs.Prelude.{◌≡◌, map};
ghost use Rattle.script_grammar.specs.Tree.{block_tree, text_of, view_actor, view_decl, view_head, view_if, view_method, view_root, view_stmt};
ghost use Rattle.plain_forms.specs.Forms as forms;
ghost use Rattle.plain_forms.specs.Forms.{Finds, view_place};
ghost use Rattle.plain_forms.specs.Searches as searches;

use crate::form::Form;
use crate::group::has_children;
use crate::walk::{FoundForm, Place, Walk};
use plain_parts::{is_instance_of, one_more};
use script_grammar::{Actor, Decl, Expr, Head, Method, Name, Root, Stmt};
use swift_types::Priority;

// How many tasks a turn may make.
const ROOTS: usize = 16;

impl Walk {
    // What stands before a block.
    fn head(&mut self, place: Place<'_>, head: &Head, block: &[Stmt])
        ensures { Finds self.old self.new (searches.head_form (view_place place.entry) (view_head head.now) (block_tree (map view_stmt block.now))) }
    {
        match head {
            Head::If(test) | Head::While(test) => self.test(test),
            Head::Group(name) => {
                self.want(!place.in_group, Form::InnerGroup);
                self.want(has_children(block, name, 0), Form::NextOfNone);
                self.pass(1)
            }
            Head::Bind(_, _) => self.refuse(Form::TaskLocal),
            Head::Assume(_) => self.refuse(Form::Assume),
        }
    }

    #[cycle(statement)]
    #[tactic(auto, using(crate::proofs::Found::then_found, crate::proofs::Found::none_found, plain_parts::proofs::Views::of_action, plain_parts::proofs::Views::of_block, plain_parts::proofs::Views::of_choice))]
    fn stmt(&mut self, place: Place<'_>, stmt: &Stmt, rest: &[Stmt])
        ensures { Finds self.old self.new (searches.stmt_form (view_stmt stmt.now) (view_place place.entry) (block_tree (map view_stmt rest.now))) }
    {
        match stmt {
            Stmt::Do(action) => self.action(place, action, rest),
            Stmt::Block(head, block) => {
                self.head(place, head, block);
                self.stmts(inside(place, head), block)
            }
            Stmt::IfElse(test, held, failed) => {
                self.test(test);
                self.stmts(place, held);
                self.stmts(place, failed)
            }
        }
    }

    #[cycle(statement)]
    fn stmts(&mut self, place: Place<'_>, stmts: &[Stmt])
        ensures { Finds self.old self.new (searches.block_form (block_tree (map view_stmt stmts.now)) (view_place place.entry)) }
    {
        match stmts {
            [] => self.pass(0),
            [stmt, rest @ ..] => {
                self.stmt(place, stmt, rest);
                self.stmts(place, rest)
            }
        }
    }

    fn method(&mut self, decls: &[Decl], actor: &Name, method: &Method)
        ensures { Finds self.old self.new (searches.method_form (map view_decl decls.now) (text_of actor.now) (view_method method.now)) }
    {
        self.pass(method.params.len().saturating_add(1));
        let place = Place {
            decls,
            actor,
            params: &method.params,
            in_group: false,
        };
        self.stmts(place, &method.body)
    }

    fn methods(&mut self, decls: &[Decl], actor: &Name, methods: &[Method])
        ensures { Finds self.old self.new (searches.methods_form (map view_decl decls.now) (text_of actor.now) (map view_method methods.now)) }
    {
        match methods {
            [] => self.pass(0),
            [method, rest @ ..] => {
                self.method(decls, actor, method);
                self.methods(decls, actor, rest)
            }
        }
    }

    fn invariant(&mut self, invariant: &Option<Expr>)
        ensures { Finds self.old self.new (searches.invariant_form (view_if invariant.now)) }
    {
        match invariant {
            Some(test) => self.test(test),
            None => self.pass(0),
        }
    }

    fn actor(&mut self, decls: &[Decl], actor: &Actor)
        ensures { Finds self.old self.new (searches.actor_form (map view_decl decls.now) (view_actor actor.now)) }
    {
        self.want(count_named(decls, &actor.name) == 1, Form::SameName);
        self.pass(1);
        self.want(actor.executor.is_none(), Form::Executor);
        self.pass(actor.fields.len().saturating_mul(2));
        self.invariant(&actor.invariant);
        self.methods(decls, &actor.name, &actor.methods)
    }

    fn root(&mut self, root: &Root, count: usize)
        ensures { Finds self.old self.new (searches.root_form (view_root root.now) count) }
    {
        self.want(count < ROOTS, Form::Roots);
        self.want(is_high_enough(root.priority), Form::RootPriority);
        self.pass(root.args.len().saturating_add(3))
    }

    fn decl(&mut self, decls: &[Decl], decl: &Decl, count: usize)
        ensures { Finds self.old self.new (searches.decl_form (map view_decl decls.now) (view_decl decl.now) count) }
    {
        match decl {
            Decl::Executor(_) => self.refuse(Form::Executor),
            Decl::Local(_) => self.refuse(Form::TaskLocal),
            Decl::Actor(actor) => self.actor(decls, actor),
            Decl::Root(root) => self.root(root, count),
        }
    }

    // Declarations before which there were so many roots.
    fn decls(&mut self, decls: &[Decl], left: &[Decl], count: usize)
        ensures { Finds self.old self.new (searches.decls_form (map view_decl decls.now) (map view_decl left.now) count) }
    {
        match left {
            [] => self.pass(0),
            [decl, rest @ ..] => {
                self.decl(decls, decl, count);
                self.decls(decls, rest, after_decl(decl, count))
            }
        }
    }
}

// What a statement of a block stands in.
fn inside<'a>(place: Place<'a>, head: &Head) -> Place<'a>
    ensures { view_place result ≡ searches.inside (view_place place.entry) (view_head head.now) }
{
    match head {
        Head::Group(_) => Place {
            in_group: true,
            ..place
        },
        Head::If(_) | Head::While(_) | Head::Bind(_, _) | Head::Assume(_) => place,
    }
}

// How many actors have an instance of this name.
fn count_named(decls: &[Decl], name: &Name) -> usize
    ensures { result ≡ searches.count_named (map view_decl decls.now) (text_of name.now) }
{
    match decls {
        [] => 0,
        [decl, rest @ ..] => {
            let others = count_named(rest, name);
            if is_instance_of(decl, name) {
                one_more(others)
            } else {
                others
            }
        }
    }
}

fn is_high_enough(priority: Priority) -> bool
    ensures { result ≡ searches.is_high_enough priority }
{
    match priority {
        Priority::Background | Priority::Low => false,
        Priority::Medium | Priority::High => true,
    }
}

fn after_decl(decl: &Decl, count: usize) -> usize
    ensures { result ≡ searches.after_decl (view_decl decl.now) count }
{
    match decl {
        Decl::Root(_) => one_more(count),
        Decl::Executor(_) | Decl::Local(_) | Decl::Actor(_) => count,
    }
}

/// The first form of a script that has no plain Swift, in the order of its text, if there is one (our own).
pub fn first_form(decls: &[Decl]) -> Option<FoundForm>
    ensures { forms.told_form result ≡ searches.form_in (map view_decl decls.now) }
{
    let mut walk = Walk::new();
    walk.decls(decls, decls, 0);
    walk.found
}
