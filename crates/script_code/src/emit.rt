//! Writing the instructions of a method.

ghost use Rattle.std.specs.Prelude.{◌≡◌, ◌<◌, ◌++◌, ◌∷◌, [], map, length, slice_set, OnOk, OnErr};
ghost use Rattle.script_code.specs.Layout.{meaning_of, exchanged, relabelled, renumbered};

use crate::instruction::{Act, Instruction};
use std::alloc::AllocError;

/// Puts an instruction after the others. Where memory runs out, the instructions are as before.
pub(crate) fn push_instruction(
    instructions: &mut Vec<Instruction>,
    act: Act,
    next: u32,
    other: u32,
) -> Result<(), AllocError>
    ensures ok { OnOk result (map meaning_of instructions.new.items ≡ map meaning_of instructions.old.items ++ meaning_of (record { act = act; next = next; other = other }) ∷ []) }
    ensures err { OnErr result (instructions.new.items ≡ instructions.old.items) }
{
    instructions.push(Instruction { act, next, other })?;
    Ok(())
}

/// Puts another instruction in a place.
#[tactic(auto, using(crate::proofs::Lines::set_means))]
pub(crate) fn link(instructions: &mut Vec<Instruction>, place: u32, act: Act, next: u32, other: u32)
    requires { place < length instructions.old.items }
    ensures { map meaning_of instructions.new.items ≡ slice_set (map meaning_of instructions.old.items) place (meaning_of (record { act = act; next = next; other = other })) }
{
    instructions[place as usize] = Instruction { act, next, other };
}

fn exchange(first: u32, k: u32) -> u32
    ensures { result ≡ exchanged first k }
{
    if k == first {
        0
    } else if k == 0 {
        first
    } else {
        k
    }
}

fn relabel_one(line: &mut Instruction, first: u32)
    ensures { line.new ≡ relabelled first line.old }
{
    line.next = exchange(first, line.next);
    line.other = exchange(first, line.other);
}

fn relabel(instructions: &mut [Instruction], first: u32)
    ensures { instructions.new ≡ map (relabelled first) instructions.old }
{
    for line in instructions {
        relabel_one(line, first);
    }
}

/// Exchanges instruction 0 and the instruction `first`, and renames them among the followers. Linear in the
/// instructions.
pub(crate) fn renumber(instructions: &mut Vec<Instruction>, first: u32)
    requires { first < length instructions.old.items }
    ensures { instructions.new.items ≡ renumbered first instructions.old.items }
{
    relabel(instructions, first);
    instructions.swap(0, first as usize);
}
