//! What standard error is told of tasks that repeat their turns.

use explorer_progress::{NoProgress, RepeatedTask, called_text, hint_text, no_progress};
use run_pictures::picture::word;
use std::alloc::AllocError;
use std::sync::Arc;
use swift_explorer::{FoundOutcomes, schedule_text};
use swift_script::Script;
use swift_translation::{MethodPlace, method_line};

// Writes a line of bytes to standard error, after the program's name.
fn say(rt: &HostRuntime, front: &str, said: &[u8]) {
    if let Ok(said) = str::from_utf8(said) {
        let _ = eprintln!(rt; "nuchapay: {front}{}", said.trim_end());
    }
}

// Says which turns repeat, and the schedule that ends with them.
fn say_repeated(
    rt: &HostRuntime,
    front: &str,
    script: &Script,
    hint: &NoProgress,
) -> Result<(), AllocError> {
    let said = hint_text(rt.alloc(), script, hint)?;
    let line = schedule_text(rt.alloc(), &hint.schedule)?;
    say(rt, front, &said);
    say(rt, "", &line);
    Ok(())
}

/// Says which tasks of a script repeat their turns, where a search gives a hint of it.
pub(crate) fn say_no_progress(
    rt: &HostRuntime,
    script: &Arc<Script>,
    found: &FoundOutcomes,
) -> Result<(), AllocError> {
    if let Some(hint) = no_progress(rt.alloc(), script, found)? {
        say_repeated(rt, "no progress: ", script, &hint)?;
    }
    Ok(())
}

// Says from which lines of a Swift file of this name the method of a task is.
fn say_lines(
    rt: &HostRuntime,
    name: &str,
    places: &[MethodPlace],
    script: &Script,
    hint: &NoProgress,
    one: RepeatedTask,
) -> Result<(), AllocError> {
    let called = called_text(rt.alloc(), script, hint, one.task)?;
    let mut method = Vec::new(rt.alloc());
    word::method(&mut method, script, one.method)?;
    let line = method_line(rt.alloc(), name, &method, places)?;
    if let Ok(called) = str::from_utf8(&called)
        && let Ok(line) = str::from_utf8(&line)
        && !line.is_empty()
    {
        let _ = eprintln!(rt; "nuchapay: {called} is in {}", line.trim());
    }
    Ok(())
}

/// The same of a Swift file of this name that becomes this script, with the lines of the methods.
pub(crate) fn say_may_spin(
    rt: &HostRuntime,
    name: &str,
    places: &[MethodPlace],
    script: &Arc<Script>,
    found: &FoundOutcomes,
) -> Result<(), AllocError> {
    if let Some(hint) = no_progress(rt.alloc(), script, found)? {
        say_repeated(rt, "may spin: ", script, &hint)?;
        for one in &hint.tasks {
            say_lines(rt, name, places, script, &hint, *one)?;
        }
    }
    Ok(())
}
