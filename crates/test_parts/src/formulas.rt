//! Values of formulas: `value` with a formula whose operators come after their operands, as in `v0 1 +`. `vN` is a
//! variable, `fA.N` a field, `lN=VALUE` a local with its default, `priority` and `cancelled` are themselves, `neg` and
//! `not` have one operand.
//!
//! Variable 0 is 6, and field 0 of actor 1 is 8, in a turn of priority high of a task that is cancelled. Local 2 is
//! bound to 7 and then to 9 outside the frame and local 3 to 4, and inside it local 3 to 5 and then to 6.
//!
//! `while` are the followers of the instructions of `while 1 { yield; }`, as they are written.

use script_code::laws::{written_code_counts, written_code_implements, written_code_joins};
use script_code::{
    Act, Binding, FieldPlace, Formula, Instruction, Sight, holds, instructions_of, push_act,
    push_loop, value,
};
use std::alloc::{AllocError, Global};
use swift_locals::Bindings;
use swift_types::{Env, LocalId, Operator, Priority};
use test_support::{CaseFault, Part, Said, Words};

/// What knows nothing but the calls that are made of it.
#[derive(Drop)]
pub struct FormulasPart;

fn own(local: u32, value: i64) -> Binding {
    Binding {
        local: LocalId(local),
        value,
    }
}

fn seen(alloc: Global, formula: &Formula) -> Result<Option<i64>, AllocError> {
    let env = Env {
        priority: Priority::High,
        cancelled: true,
        room: 16,
    };
    let mut bindings = Bindings::new(alloc);
    bindings.bind(LocalId(2), 7)?;
    bindings.bind(LocalId(2), 9)?;
    bindings.bind(LocalId(3), 4)?;
    let sight = Sight {
        variables: &[6],
        fields: &[Vec::new(alloc), Vec::from_slice(alloc, &[8])?],
        own: &[own(3, 5), own(3, 6)],
        outer: &bindings,
        env: &env,
    };
    Ok(value(formula, sight))
}

fn operator_of(word: &str) -> Option<Operator> {
    match word {
        "||" => Some(Operator::Or),
        "&&" => Some(Operator::And),
        "==" => Some(Operator::Equal),
        "!=" => Some(Operator::Unequal),
        "<" => Some(Operator::Less),
        "<=" => Some(Operator::AtMost),
        ">" => Some(Operator::Greater),
        ">=" => Some(Operator::AtLeast),
        "+" => Some(Operator::Plus),
        "-" => Some(Operator::Minus),
        "*" => Some(Operator::Times),
        _ => None,
    }
}

// A formula without operands.
fn leaf(words: &mut Words<'_>, word: &str) -> Formula {
    match word {
        "priority" => Formula::Priority,
        "cancelled" => Formula::Cancelled,
        _ => read_of(words, word),
    }
}

// What is read of a variable, a local or a field, or a number.
fn read_of(words: &mut Words<'_>, word: &str) -> Formula {
    if let Some(place) = word.strip_prefix('v') {
        return Formula::Variable(words.number_of(place));
    }
    if let Some(local) = word.strip_prefix('l') {
        return local_of(words, local);
    }
    match word.strip_prefix('f') {
        Some(field) => field_of(words, field),
        None => Formula::Number(words.value_of(word)),
    }
}

// A local with its default, `N=VALUE`.
fn local_of(words: &mut Words<'_>, text: &str) -> Formula {
    let (local, default) = text.split_once('=').unwrap_or((text, ""));
    Formula::Local(LocalId(words.number_of(local)), words.value_of(default))
}

// A field of an actor, `A.N`.
fn field_of(words: &mut Words<'_>, text: &str) -> Formula {
    let (actor, field) = text.split_once('.').unwrap_or((text, ""));
    Formula::Field(FieldPlace {
        actor: words.number_of(actor),
        field: words.number_of(field),
    })
}

// The formula that an operator of two operands makes of the last two.
fn joined(
    alloc: Global,
    formulas: &mut Vec<Formula>,
    operator: Operator,
) -> Result<Formula, CaseFault> {
    let (Some(right), Some(left)) = (formulas.pop(), formulas.pop()) else {
        return Err(CaseFault::Form);
    };
    Ok(Formula::Binary(operator, Box::new(alloc, left)?, Box::new(alloc, right)?))
}

// The formula that an operator of one operand makes of the last one.
fn turned(
    alloc: Global,
    formulas: &mut Vec<Formula>,
    operator: &str,
) -> Result<Formula, CaseFault> {
    let Some(operand) = formulas.pop() else {
        return Err(CaseFault::Form);
    };
    let operand = Box::new(alloc, operand)?;
    Ok(if operator == "neg" {
        Formula::Negate(operand)
    } else {
        Formula::Not(operand)
    })
}

// What a word makes of the formulas before it.
fn made_of(
    alloc: Global,
    words: &mut Words<'_>,
    formulas: &mut Vec<Formula>,
    word: &str,
) -> Result<Formula, CaseFault> {
    if word == "neg" || word == "not" {
        return turned(alloc, formulas, word);
    }
    match operator_of(word) {
        Some(operator) => joined(alloc, formulas, operator),
        None => Ok(leaf(words, word)),
    }
}

// The formula of the words that are left.
fn formula_of(alloc: Global, words: &mut Words<'_>) -> Result<Formula, CaseFault> {
    let mut formulas = Vec::new(alloc);
    for word in words.all().split(' ') {
        let made = made_of(alloc, words, &mut formulas, word)?;
        formulas.push(made)?;
    }
    formulas.pop().ok_or(CaseFault::Form)
}

fn valued(alloc: Global, words: &mut Words<'_>, out: &mut Said) -> Result<(), CaseFault> {
    let formula = formula_of(alloc, words)?;
    match seen(alloc, &formula)? {
        Some(value) => out.number("", value),
        None => out.put("overflow"),
    }
    Ok(())
}

// The instructions of a loop whose body yields.
fn while_code(alloc: Global) -> Result<Vec<Instruction>, AllocError> {
    let mut body = Vec::new(alloc);
    push_act(&mut body, Act::Yield)?;
    let mut statements = Vec::new(alloc);
    push_loop(&mut statements, Formula::Number(1), body)?;
    instructions_of(alloc, statements)
}

// The followers of each instruction.
fn while_loop(alloc: Global, out: &mut Said) -> Result<(), AllocError> {
    let lines = while_code(alloc)?;
    let mut followers = Vec::new(alloc);
    for line in &lines {
        followers.push((line.next, line.other))?;
    }
    written_code_counts();
    written_code_implements();
    written_code_joins();
    out.debug("", &followers);
    Ok(())
}

impl Part for FormulasPart {
    fn answer(
        &mut self,
        alloc: Global,
        words: &mut Words<'_>,
        out: &mut Said,
    ) -> Result<(), CaseFault> {
        match words.next() {
            "value" => return valued(alloc, words, out),
            "while" => while_loop(alloc, out)?,
            "no_invariant_holds" => out.whether("", holds(alloc, None, &[])),
            _ => words.refuse(),
        }
        Ok(())
    }
}
