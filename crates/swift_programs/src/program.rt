//! Swift programs, as lists of actors and methods.

ghost use Rattle.std.specs.Prelude.{◌≡◌, ◌++◌, map, IfOk, OnOk};
ghost use Rattle.std.specs.List.{flat_map};
ghost use Rattle.swift_programs.specs.Programs.{actor_text, method_text, next_param_text, param_text, params_text, program_text};

use std::alloc::{AllocError, Global};

/// A method of a Swift actor (our own).
pub struct SwiftMethod {
    /// Its name.
    pub name: Vec<u8>,
    /// The names of its parameters, each a whole number.
    pub params: Vec<Vec<u8>>,
    /// The lines of its body.
    pub body: Vec<u8>,
}

impl Drop for SwiftMethod {
    fn drop(self) {
        let SwiftMethod { name, params, body } = self;
        drop(name);
        drop(params);
        drop(body);
    }
}

/// A Swift actor (our own).
pub struct SwiftActor {
    /// Its name.
    pub name: Vec<u8>,
    /// The lines before its methods: its fields, and what is tested at the end of a turn.
    pub members: Vec<u8>,
    /// Its methods, in order.
    pub methods: Vec<SwiftMethod>,
}

impl Drop for SwiftActor {
    fn drop(self) {
        let SwiftActor {
            name,
            members,
            methods,
        } = self;
        drop(name);
        drop(members);
        drop(methods);
    }
}

/// A Swift program (our own).
pub struct SwiftProgram {
    /// The lines before its actors.
    pub head: Vec<u8>,
    /// Its actors, in order.
    pub actors: Vec<SwiftActor>,
    /// The lines after its actors.
    pub tail: Vec<u8>,
}

impl Drop for SwiftProgram {
    fn drop(self) {
        let SwiftProgram { head, actors, tail } = self;
        drop(head);
        drop(actors);
        drop(tail);
    }
}

// Puts a text after what is written.
fn add(out: &mut Vec<u8>, text: &[u8]) -> Result<(), AllocError>
    ensures { OnOk result (out.new.items ≡ out.old.items ++ text.now) }
{
    out.extend_from_slice(text)
}

// Puts three texts after what is written.
fn put(out: &mut Vec<u8>, first: &[u8], second: &[u8], third: &[u8]) -> Result<(), AllocError>
    ensures { OnOk result (out.new.items ≡ out.old.items ++ (first.now ++ (second.now ++ third.now))) }
{
    out.extend_from_slice(first)?;
    out.extend_from_slice(second)?;
    out.extend_from_slice(third)
}

fn spell_param(out: &mut Vec<u8>, param: &Vec<u8>) -> Result<(), AllocError>
    ensures { OnOk result (out.new.items ≡ out.old.items ++ param_text param.now.items) }
{
    put(out, b"_ ", param, b": Int64")
}

fn spell_next_param(out: &mut Vec<u8>, param: &Vec<u8>) -> Result<(), AllocError>
    ensures { OnOk result (out.new.items ≡ out.old.items ++ next_param_text param.now.items) }
{
    put(out, b", _ ", param, b": Int64")
}

fn spell_next_params(out: &mut Vec<u8>, params: &[Vec<u8>]) -> Result<(), AllocError>
    ensures { OnOk result (out.new.items ≡ out.old.items ++ flat_map next_param_text (map (λ p. p.items) params.now)) }
{
    for param in params {
        spell_next_param(out, param)?;
    }
    Ok(())
}

fn spell_params(out: &mut Vec<u8>, params: &[Vec<u8>]) -> Result<(), AllocError>
    ensures { OnOk result (out.new.items ≡ out.old.items ++ params_text (map (λ p. p.items) params.now)) }
{
    match params {
        [] => Ok(()),
        [first, rest @ ..] => {
            spell_param(out, first)?;
            spell_next_params(out, rest)
        }
    }
}

fn spell_method(out: &mut Vec<u8>, method: &SwiftMethod) -> Result<(), AllocError>
    ensures { OnOk result (out.new.items ≡ out.old.items ++ method_text method.now) }
{
    put(out, b"\n    func ", &method.name, b"(")?;
    spell_params(out, &method.params)?;
    put(
        out,
        b") async throws -> Int64 {\n",
        &method.body,
        b"    }\n",
    )
}

fn spell_methods(out: &mut Vec<u8>, methods: &[SwiftMethod]) -> Result<(), AllocError>
    ensures { OnOk result (out.new.items ≡ out.old.items ++ flat_map method_text methods.now) }
{
    for method in methods {
        spell_method(out, method)?;
    }
    Ok(())
}

fn spell_actor(out: &mut Vec<u8>, actor: &SwiftActor) -> Result<(), AllocError>
    ensures { OnOk result (out.new.items ≡ out.old.items ++ actor_text actor.now) }
{
    put(out, b"@globalActor actor ", &actor.name, b" {\n")?;
    add(out, &actor.members)?;
    spell_methods(out, &actor.methods)?;
    add(out, b"}\n\n")
}

fn spell_actors(out: &mut Vec<u8>, actors: &[SwiftActor]) -> Result<(), AllocError>
    ensures { OnOk result (out.new.items ≡ out.old.items ++ flat_map actor_text actors.now) }
{
    for actor in actors {
        spell_actor(out, actor)?;
    }
    Ok(())
}

/// The text of a program, in time and memory linear in it (the form is our own).
///
/// # Errors
///
/// `AllocError` where there is no memory for the text.
pub fn spell(alloc: Global, program: &SwiftProgram) -> Result<Vec<u8>, AllocError>
    ensures { IfOk result (λ text. text.items ≡ program_text program.now) }
{
    let mut out = Vec::from_slice(alloc, &program.head)?;
    spell_actors(&mut out, &program.actors)?;
    add(&mut out, &program.tail)?;
    Ok(out)
}
