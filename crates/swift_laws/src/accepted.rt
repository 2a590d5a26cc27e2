//! What holds of each accepted script (our own). A call costs nothing; its contract is the law.

ghost use Rattle.swift_laws.specs.Accepted.{AcceptedCloseGroups, AcceptedHaveExecutors, AcceptedTurnsStand, AcceptedJobsStand};

use crate::laws::{applied_turns_stand, given_jobs_are_applied, turns_are_numbered};

/// Each method of an accepted script closes each group that it opens, and returns in none (our own).
pub fn accepted_scripts_close_groups()
    ensures { AcceptedCloseGroups }
{}

/// Where there is a root, each actor of an accepted script runs on an executor of the script (SE-0392).
pub fn accepted_scripts_have_executors()
    ensures { AcceptedHaveExecutors }
{}

/// Each turn that the log of a legal report of an accepted script applies stands in the report, in a journal or in a
/// checkpoint (our own).
pub fn turns_of_accepted_scripts_stand()
    ensures { AcceptedTurnsStand }
{
    applied_turns_stand();
}

/// Each job that the log of a legal report of an accepted script gives has its turn in the report, in a journal or in a
/// checkpoint, and by [`each_turn_stands_once`](crate::laws::each_turn_stands_once) in one place only (our own).
pub fn jobs_of_accepted_scripts_stand()
    ensures { AcceptedJobsStand }
{
    turns_of_accepted_scripts_stand();
    given_jobs_are_applied();
    turns_are_numbered();
}
