//! Groups of child tasks (SE-0304).
#![tactic(auto)]

mod answer;
mod fault;
mod group;
mod groups;
mod queue;
mod room;

pub use answer::{Close, GroupId, NextResult};
pub use fault::GroupFault;
pub use group::GroupStage;
pub use groups::Groups;
