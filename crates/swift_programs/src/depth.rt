//! Whether calls can go as deep as a task has frames.

use crate::words::is_same;
use script_grammar::{Action, Actor, Awaited, Call, Decl, Method, Name, Stmt, Value, Wait};
use swift_types::limits::FRAMES;

// Where a method that is called stands, from the one that calls it.
#[derive(Clone, Copy)]
enum Way {
    Earlier,
    Itself,
    Later,
}

// The calls of a method that are looked for.
#[derive(Clone, Copy)]
struct Route<'a> {
    decls: &'a [Decl],
    actor: &'a Name,
    method: &'a Name,
    way: Way,
}

/// Whether a task may need more frames than it may have. It does not where calls only go to later methods, or only to earlier ones, and
/// there are no more methods than frames; elsewhere it may.
pub(crate) fn may_pass_frames(decls: &[Decl]) -> bool {
    count_methods(decls) > FRAMES
        || (has_call(decls, Way::Itself)
            || (has_call(decls, Way::Earlier) && has_call(decls, Way::Later)))
}

fn count_methods(decls: &[Decl]) -> usize {
    let mut count: usize = 0;
    for decl in decls {
        if let Decl::Actor(actor) = decl {
            count = count.saturating_add(actor.methods.len());
        }
    }
    count
}

fn has_call(decls: &[Decl], way: Way) -> bool {
    for decl in decls {
        if let Decl::Actor(actor) = decl {
            if actor_has_call(decls, actor, way) {
                return true;
            }
        }
    }
    false
}

fn actor_has_call(decls: &[Decl], actor: &Actor, way: Way) -> bool {
    for method in &actor.methods {
        let route = Route {
            decls,
            actor: &actor.name,
            method: &method.name,
            way,
        };
        if goes(route, &method.body) {
            return true;
        }
    }
    false
}

#[cycle(goes)]
fn goes(route: Route<'_>, stmts: &[Stmt]) -> bool {
    for stmt in stmts {
        if goes_in(route, stmt) {
            return true;
        }
    }
    false
}

#[cycle(goes)]
fn goes_in(route: Route<'_>, stmt: &Stmt) -> bool {
    match stmt {
        Stmt::Do(action) => action_goes(route, action),
        Stmt::Block(_, block) => goes(route, block),
        Stmt::IfElse(_, held, failed) => goes(route, held) || goes(route, failed),
    }
}

fn action_goes(route: Route<'_>, action: &Action) -> bool {
    match action {
        Action::Let(_, Value::Await(wait))
        | Action::Assign(_, Value::Await(wait))
        | Action::Await(wait) => wait_goes(route, wait),
        _ => false,
    }
}

fn wait_goes(route: Route<'_>, wait: &Wait) -> bool {
    match &wait.awaited {
        Awaited::Call(call) => is_way(route, call),
        Awaited::Task(_) | Awaited::Next(_) => false,
    }
}

fn is_way(route: Route<'_>, call: &Call) -> bool {
    let is_itself = is_same(route.actor, &call.actor) && is_same(route.method, &call.method);
    match route.way {
        Way::Itself => is_itself,
        Way::Earlier => !is_itself && is_first(route, call),
        Way::Later => !is_itself && !is_first(route, call),
    }
}

// Whether the method that is called stands before the one that calls it.
fn is_first(route: Route<'_>, call: &Call) -> bool {
    for decl in route.decls {
        if let Decl::Actor(actor) = decl {
            if is_same(&actor.name, &call.actor) {
                return !is_same(&actor.name, route.actor)
                    || is_method_first(&actor.methods, &call.method, route.method);
            }
            if is_same(&actor.name, route.actor) {
                return false;
            }
        }
    }
    false
}

fn is_method_first(methods: &[Method], called: &Name, caller: &Name) -> bool {
    for method in methods {
        if is_same(&method.name, called) {
            return true;
        }
        if is_same(&method.name, caller) {
            return false;
        }
    }
    false
}
