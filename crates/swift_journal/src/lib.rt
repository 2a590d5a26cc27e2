//! The journal of an executor: the turns that it has run, in order, in few bytes; and its checkpoint, for turns that were
//! folded.
#![tactic(auto)]

mod brief;
mod checkpoint;
mod effects;
mod ends;
mod folded;
mod frames;
mod journal;
mod parts;
mod record;
mod stored;
mod tail;
mod turns;
mod words;
mod written;

pub use brief::BriefExit;
pub use checkpoint::Checkpoint;
pub use folded::Folded;
pub use journal::Journal;
pub use record::{OwnedRecord, Record};
