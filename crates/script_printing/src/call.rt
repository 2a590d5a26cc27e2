//! Calls, and what is waited for and made by them.

ghost use Rattle.std.specs.Prelude.{◌≡◌, OnOk};
ghost use Rattle.script_printing.specs.Pieces.{keyword_of_priority, pieces_of_priority, pieces_of_given, pieces_of_unless};
ghost use Rattle.script_printing.specs.Printed.{after};

use crate::expression::write_else;
use crate::list::write_list;
use crate::part::{Write, write_with_keyword};
use crate::token::{write_keyword, write_name, write_sign};
use script_grammar::{Add, Awaited, Call, Make, Value, Wait};
use script_tokens::{Keyword, Mark};
use std::alloc::AllocError;
use swift_types::Priority;

impl Write for Call {
    ghost use Rattle.script_grammar.specs.Tree.{CallTree, view_call};
    ghost use Rattle.script_printing.specs.Pieces.{pieces_of_call};

    ghost View = { CallTree };

    ghost view = { view_call };

    ghost pieces = { pieces_of_call };

    #[tactic(auto, using(crate::proofs::Written::after_after))]
    fn write(&self, out: &mut Vec<u8>) -> Result<(), AllocError> {
        write_name(out, &self.actor.text)?;
        write_sign(out, Mark::Dot)?;
        write_name(out, &self.method.text)?;
        write_sign(out, Mark::Open)?;
        write_list(out, &self.args)?;
        write_sign(out, Mark::Close)
    }
}

impl Write for Awaited {
    ghost use Rattle.script_grammar.specs.Tree.{AwaitedTree, view_awaited};
    ghost use Rattle.script_printing.specs.Pieces.{pieces_of_awaited};

    ghost View = { AwaitedTree };

    ghost view = { view_awaited };

    ghost pieces = { pieces_of_awaited };

    fn write(&self, out: &mut Vec<u8>) -> Result<(), AllocError> {
        match self {
            Awaited::Call(call) => call.write(out),
            Awaited::Task(task) => write_with_keyword(out, Keyword::Task, task),
            Awaited::Next(group) => write_with_keyword(out, Keyword::Next, group),
        }
    }
}

impl Write for Wait {
    ghost use Rattle.script_grammar.specs.Tree.{WaitTree, view_wait};
    ghost use Rattle.script_printing.specs.Pieces.{pieces_of_wait};

    ghost View = { WaitTree };

    ghost view = { view_wait };

    ghost pieces = { pieces_of_wait };

    #[tactic(auto, using(crate::proofs::Written::after_after))]
    fn write(&self, out: &mut Vec<u8>) -> Result<(), AllocError> {
        self.awaited.write(out)?;
        write_else(out, &self.other)
    }
}

impl Write for Value {
    ghost use Rattle.script_grammar.specs.Tree.{ValueTree, view_value};
    ghost use Rattle.script_printing.specs.Pieces.{pieces_of_value};

    ghost View = { ValueTree };

    ghost view = { view_value };

    ghost pieces = { pieces_of_value };

    fn write(&self, out: &mut Vec<u8>) -> Result<(), AllocError> {
        match self {
            Value::Expr(value) => value.write(out),
            Value::Await(wait) => write_with_keyword(out, Keyword::Await, wait),
        }
    }
}

fn keyword(priority: Priority) -> Keyword
    ensures { result ≡ keyword_of_priority priority }
{
    match priority {
        Priority::Background => Keyword::Background,
        Priority::Low => Keyword::Low,
        Priority::Medium => Keyword::Medium,
        Priority::High => Keyword::High,
    }
}

/// `at` and a priority.
#[tactic(auto, using(crate::proofs::Written::after_after))]
pub(crate) fn write_priority(out: &mut Vec<u8>, priority: Priority) -> Result<(), AllocError>
    ensures { OnOk result (out.new.items ≡ after out.old.items (pieces_of_priority priority)) }
{
    write_keyword(out, Keyword::At)?;
    write_keyword(out, keyword(priority))
}

/// `at` and a priority, or nothing.
#[tactic(auto, using(crate::proofs::Written::after_none))]
fn write_given(out: &mut Vec<u8>, priority: Option<Priority>) -> Result<(), AllocError>
    ensures { OnOk result (out.new.items ≡ after out.old.items (pieces_of_given priority)) }
{
    match priority {
        Some(priority) => write_priority(out, priority),
        None => Ok(()),
    }
}

impl Write for Make {
    ghost use Rattle.script_grammar.specs.Tree.{MakeTree, view_make};
    ghost use Rattle.script_printing.specs.Pieces.{pieces_of_make};

    ghost View = { MakeTree };

    ghost view = { view_make };

    ghost pieces = { pieces_of_make };

    #[tactic(auto, using(crate::proofs::Written::after_after))]
    fn write(&self, out: &mut Vec<u8>) -> Result<(), AllocError> {
        match self {
            Make::Spawn(call, priority) => {
                write_with_keyword(out, Keyword::Spawn, call)?;
                write_given(out, *priority)
            }
            Make::Detach(call, priority) => {
                write_with_keyword(out, Keyword::Detach, call)?;
                write_priority(out, *priority)
            }
        }
    }
}

/// `unless`, or nothing.
#[tactic(auto, using(crate::proofs::Written::after_none))]
fn write_unless(out: &mut Vec<u8>, unless: bool) -> Result<(), AllocError>
    ensures { OnOk result (out.new.items ≡ after out.old.items (pieces_of_unless unless)) }
{
    if unless {
        write_keyword(out, Keyword::Unless)?;
    }
    Ok(())
}

impl Write for Add {
    ghost use Rattle.script_grammar.specs.Tree.{AddTree, view_add};
    ghost use Rattle.script_printing.specs.Pieces.{pieces_of_add};

    ghost View = { AddTree };

    ghost view = { view_add };

    ghost pieces = { pieces_of_add };

    #[tactic(auto, using(crate::proofs::Written::after_after))]
    fn write(&self, out: &mut Vec<u8>) -> Result<(), AllocError> {
        write_name(out, &self.group.text)?;
        write_unless(out, self.unless)?;
        self.call.write(out)?;
        write_given(out, self.priority)
    }
}
