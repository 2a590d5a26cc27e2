//! What a turn did to the fields, in lines.

use crate::picture::picture_text::PictureText;
use crate::{Change, TurnValues};
use swift_script::Script;
use swift_types::ExecId;

// A field by its name, and by its actor's where the executor has several.
fn write_field(out: &mut PictureText, script: &Script, executor: ExecId, change: &Change) {
    let actors = script.executor_actors(executor);
    let Some(actor) = actors.get(change.actor) else {
        return;
    };
    if actors.len() > 1 {
        out.say(script.actor_name(*actor));
        out.say(b".");
    }
    out.say(script.field_name(*actor, change.field))
}

// A field with its values before and after.
fn write_change(out: &mut PictureText, script: &Script, executor: ExecId, change: &Change) {
    write_field(out, script, executor, change);
    out.say(b" ");
    out.number(change.before);
    out.say(b" -> ");
    out.number(change.after);
    out.say(b"\n")
}

// An expression without the parentheses round all of it, as its printed form has them.
fn bare(formula: &[u8]) -> &[u8] {
    if formula.starts_with(b"( ") {
        formula
            .get(2..formula.len().saturating_sub(2))
            .unwrap_or(formula)
    } else {
        formula
    }
}

/// Which invariant a turn would have left false, in a line; nothing where none is given.
pub(crate) fn write_broken(out: &mut PictureText, invariant: &[u8]) {
    if invariant.is_empty() {
        return;
    }
    out.say(b"breaks ");
    out.say(bare(invariant));
    out.say(b"\n")
}

/// Which fields a turn changed, or would have changed where it was undone: each in a line.
pub(crate) fn write_changes(
    out: &mut PictureText,
    script: &Script,
    executor: usize,
    values: &TurnValues,
    is_undone: bool,
) {
    let Ok(executor) = u32::try_from(executor) else {
        return;
    };
    if is_undone && !values.changes.is_empty() {
        out.say(b"would leave\n");
    }
    for change in &values.changes {
        write_change(out, script, ExecId(executor), change);
    }
}
