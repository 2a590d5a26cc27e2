//! What the log says of each turn.

use std::alloc::{AllocError, Global};
use swift_events::Event;
use swift_log::EventLog;
use swift_types::TaskId;

/// What the log says of a turn.
#[derive(Clone, Copy)]
pub(crate) struct TurnMoment {
    /// The place in the log at which it began.
    pub begin: usize,
    /// The place in the log at which it was applied. What follows there, to the next block, it has done.
    pub end: usize,
    /// How many turns had begun before.
    pub column: usize,
    /// How many turns had begun before the last one that began before its end.
    pub last_column: usize,
    /// The turn that made its job, by its slot. None for the first turn of a root.
    pub maker: Option<usize>,
}

impl TurnMoment {
    const NONE: TurnMoment = TurnMoment {
        begin: 0,
        end: 0,
        column: 0,
        last_column: 0,
        maker: None,
    };
}

/// What the log says of each turn. A turn has a slot: those of the first task come first, in order, then those of the next one.
#[derive(Drop)]
pub(crate) struct History {
    // The slot of the first turn of each task.
    firsts: Vec<usize>,
    moments: Vec<TurnMoment>,
    /// How many turns began.
    pub columns: usize,
}

impl History {
    /// The slot of a turn; past the last one where the log has no such task.
    pub fn slot(&self, task: TaskId, number: u32) -> usize {
        match self.firsts.get(task.0 as usize) {
            Some(first) => first.saturating_add(number as usize),
            None => usize::MAX,
        }
    }

    /// How many slots there are.
    pub fn len(&self) -> usize {
        self.moments.len()
    }

    /// What the log says of the turn of this slot; nothing where there is none.
    pub fn moment(&self, slot: usize) -> TurnMoment {
        match self.moments.get(slot) {
            Some(moment) => *moment,
            None => TurnMoment::NONE,
        }
    }

    fn change(&mut self, slot: usize) -> Option<&mut TurnMoment> {
        self.moments.get_mut(slot)
    }
}

// How many turns of each task were applied.
fn turns_of_tasks(alloc: Global, tasks: usize, log: &EventLog) -> Result<Vec<usize>, AllocError> {
    let mut counts = vec![in alloc; 0_usize; tasks]?;
    for place in 0..log.len() {
        if let Event::Apply(task, _) = log.event(place) {
            if let Some(count) = counts.get_mut(task.0 as usize) {
                *count = count.saturating_add(1);
            }
        }
    }
    Ok(counts)
}

/// Makes of counts how many there are before each. All of them together.
pub(crate) fn sum_up(counts: &mut [usize]) -> usize {
    let mut sum = 0_usize;
    for count in counts.iter_mut() {
        let before = sum;
        sum = sum.saturating_add(*count);
        *count = before;
    }
    sum
}

// Reads one event. The slot of the turn whose block it is in.
fn read_event(
    history: &mut History,
    event: Event,
    place: usize,
    doer: Option<usize>,
) -> Option<usize> {
    match event {
        Event::Begin {
            task,
            turn: number,
            ..
        } => {
            let slot = history.slot(task, number);
            let column = history.columns;
            history.columns = column.saturating_add(1);
            if let Some(moment) = history.change(slot) {
                moment.begin = place;
                moment.column = column;
            }
            None
        }
        Event::Apply(task, number) => {
            let slot = history.slot(task, number);
            let last = history.columns.saturating_sub(1);
            if let Some(moment) = history.change(slot) {
                moment.end = place;
                moment.last_column = last;
            }
            Some(slot)
        }
        Event::Root(_, _) => None,
        Event::Give {
            task,
            turn: number,
            ..
        } => {
            let slot = history.slot(task, number);
            if let Some(moment) = history.change(slot) {
                moment.maker = doer;
            }
            doer
        }
        _ => doer,
    }
}

/// What a log of `tasks` tasks says of each turn, in time and memory linear in the log. An `Err` says that a growth was refused.
pub(crate) fn history_of(
    alloc: Global,
    tasks: usize,
    log: &EventLog,
) -> Result<History, AllocError> {
    let mut firsts = turns_of_tasks(alloc, tasks, log)?;
    let turns = sum_up(&mut firsts);
    let moments = vec![in alloc; TurnMoment::NONE; turns]?;
    let mut history = History {
        firsts,
        moments,
        columns: 0,
    };
    let mut doer = None;
    for place in 0..log.len() {
        doer = read_event(&mut history, log.event(place), place, doer);
    }
    Ok(history)
}
