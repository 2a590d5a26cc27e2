//! How a run that is under way relates to a history: the rule of its book and of what threads know of it (specs/Course.antt), and
//! that each step keeps it (specs/Steps.antt, specs/Seats.antt), so that its report is legal (specs/Reports.antt). There is no code here.
#![tactic(auto)]

/// What a turn's effects count, its frame's counts have: how many tasks its task has made, and how many groups it has opened.
pub mod counts;

/// What the lock of a book keeps, and what the seats of threads know of a run that is under way, as types of which no value is made.
pub mod known;

/// What holds of runs that are under way.
pub mod laws;
