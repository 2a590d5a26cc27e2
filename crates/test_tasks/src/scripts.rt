//! The script of a case.

ghost use Rattle.std.specs.Prelude.{◌<◌, IfSome};
ghost use Rattle.std.specs.Arc.{arc_value};
ghost use Rattle.swift_script.specs.Scripts.{method_count};

use std::alloc::{AllocError, Global};
use std::sync::Arc;
use swift_locals::Bindings;
use swift_script::{Script, ScriptFaultKind, read};
use swift_turn::Body;
use swift_types::{ActorId, MethodId};
use test_support::CaseFault;

/// A script, an equal one that was read from another text, and one with one more local.
#[derive(Drop)]
pub struct Scripts {
    alloc: Global,
    pub own: Arc<Script>,
    equal: Arc<Script>,
    other: Arc<Script>,
}

/// The script of a text.
pub fn script_of(alloc: Global, text: &str) -> Result<Arc<Script>, CaseFault> {
    match read(alloc, text.as_bytes()) {
        Ok(script) => Ok(Arc::new(alloc, script)?),
        Err(fault) if fault.kind == ScriptFaultKind::Memory => Err(CaseFault::Memory),
        Err(_) => Err(CaseFault::Script),
    }
}

// The script of a text with something behind it.
fn read_with(alloc: Global, text: &str, more: &str) -> Result<Arc<Script>, CaseFault> {
    let mut whole = String::from_str(alloc, text)?;
    whole.push_str(more)?;
    script_of(alloc, &whole)
}

impl Scripts {
    /// Reads the script of a case three times.
    pub fn read(alloc: Global, text: &str) -> Result<Scripts, CaseFault> {
        Ok(Scripts {
            alloc,
            own: read_with(alloc, text, "")?,
            equal: read_with(alloc, text, " // The same.")?,
            other: read_with(alloc, text, " local one_more = 0;")?,
        })
    }

    /// A body at the beginning of the script's first method.
    pub fn body_of(&self, which: Option<&str>) -> Result<Body, CaseFault> {
        let script = match which {
            None => &self.own,
            Some("equal") => &self.equal,
            Some("other") => &self.other,
            Some(_) => return Err(CaseFault::Form),
        };
        if script.method_count() == 0 {
            return Err(CaseFault::Form);
        }
        Ok(first_body(self.alloc, script)?)
    }
}

fn first_body(alloc: Global, script: &Arc<Script>) -> Result<Body, AllocError>
    requires { 0 < method_count (arc_value script.now) }
{
    let none = Bindings::new(alloc);
    Body::start(
        alloc,
        Arc::clone(script)?,
        MethodId(0),
        Vec::new(alloc),
        none,
    )
}

/// The actor of this name.
pub fn actor_named(script: &Script, name: &str) -> Option<ActorId> {
    for place in 0..script.actor_count() {
        let actor = ActorId(u32::try_from(place).ok()?);
        if script.actor_name(actor) == name.as_bytes() {
            return Some(actor);
        }
    }
    None
}

/// The first method of this name, of an actor or of any.
pub fn method_named(script: &Script, actor: Option<ActorId>, name: &str) -> Option<MethodId>
    ensures { IfSome result (λ m. m.0 < method_count script.now) }
{
    for place in 0..script.method_count() {
        let method = MethodId(u32::try_from(place).ok()?);
        let is_of = match actor {
            Some(actor) => script.method_actor(method) == actor,
            None => true,
        };
        if is_of && script.method_name(method) == name.as_bytes() {
            return Some(method);
        }
    }
    None
}
