//! How a turn is named.

/// A turn as a report names it: `t1.0` is the first turn of task 1 (our own).
#[derive(Clone, Copy)]
pub struct TurnName {
    /// The number of its task.
    pub task: u32,
    /// Its number among the turns of its task, from 0.
    pub number: u32,
}

/// The turn that a word names, as `t1.0` does (our own).
pub fn turn_name(word: &str) -> Option<TurnName> {
    let rest = word.strip_prefix('t')?;
    let (task, number) = rest.split_once('.')?;
    Some(TurnName {
        task: task.parse::<u32>().ok()?,
        number: number.parse::<u32>().ok()?,
    })
}

/// A turn as people name it (our own).
#[derive(Clone, Copy)]
pub enum TurnWord<'a> {
    /// By the number of its task, as a report names it.
    Numbered(TurnName),
    /// By the name of its task, as `second` or `first/1`, and its number among that task's turns, from 0.
    Named(&'a str, u32),
}

/// The turn that a word names: `t1.0`, or `second.0` by the name of a task. A task that could be either is taken by its number (our own).
pub fn turn_word(word: &str) -> Option<TurnWord<'_>> {
    if let Some(name) = turn_name(word) {
        return Some(TurnWord::Numbered(name));
    }
    let (task, number) = word.rsplit_once('.')?;
    if task.is_empty() {
        return None;
    }
    Some(TurnWord::Named(task, number.parse::<u32>().ok()?))
}
