//! The page of each topic.

ghost use Rattle.std.specs.Prelude.{◌≡◌};
ghost use Rattle.nuchapay_tool.specs.Topics.{name_of, refusal_name, run_refusal_name, turn_fault_name};

use crate::page::Page;
use crate::topic::{RunRefusal, Topic, TurnFault};
use crate::{refusals, run_refusals, turn_faults};
use swift_script::ScriptFaultKind;

/// The page of a topic. What its texts say is for people, and no clause speaks of it. Pages are statics: what a constant holds would stand
/// in the proof of each function that hands it out.
pub fn page_of(topic: Topic) -> &'static Page
    ensures { result.now.name.now ≡ name_of topic }
{
    match topic {
        Topic::Script(kind) => refusal_page(kind),
        Topic::Run(refusal) => run_refusal_page(refusal),
        Topic::Turn(fault) => turn_fault_page(fault),
    }
}

fn refusal_page(kind: ScriptFaultKind) -> &'static Page
    ensures { result.now.name.now ≡ refusal_name kind }
{
    match kind {
        ScriptFaultKind::NotText => &refusals::NOT_TEXT,
        ScriptFaultKind::Unexpected => &refusals::UNEXPECTED,
        ScriptFaultKind::OutOfRange => &refusals::OUT_OF_RANGE,
        ScriptFaultKind::NameTwice => &refusals::NAME_TWICE,
        ScriptFaultKind::UnknownName => &refusals::UNKNOWN_NAME,
        ScriptFaultKind::Arguments => &refusals::ARGUMENTS,
        ScriptFaultKind::Confused => &refusals::CONFUSED,
        ScriptFaultKind::InvariantFalse => &refusals::INVARIANT_FALSE,
        ScriptFaultKind::BoundInside => &refusals::BOUND_INSIDE,
        ScriptFaultKind::RootWaits => &refusals::ROOT_WAITS,
        ScriptFaultKind::LimitPassed => &refusals::LIMIT_PASSED,
        ScriptFaultKind::EndsEarly => &refusals::ENDS_EARLY,
        ScriptFaultKind::TooDeep => &refusals::TOO_DEEP,
        ScriptFaultKind::Memory => &refusals::MEMORY,
    }
}

fn run_refusal_page(refusal: RunRefusal) -> &'static Page
    ensures { result.now.name.now ≡ run_refusal_name refusal }
{
    match refusal {
        RunRefusal::Workers => &run_refusals::WORKERS,
        RunRefusal::Memory => &run_refusals::RUN_MEMORY,
        RunRefusal::Unfinished => &run_refusals::UNFINISHED,
        RunRefusal::Illegal => &run_refusals::ILLEGAL,
        RunRefusal::Executor => &run_refusals::EXECUTOR,
    }
}

fn turn_fault_page(fault: TurnFault) -> &'static Page
    ensures { result.now.name.now ≡ turn_fault_name fault }
{
    match fault {
        TurnFault::Thrown => &turn_faults::THROWN,
        TurnFault::Cancelled => &turn_faults::CANCELLED,
        TurnFault::Invariant => &turn_faults::INVARIANT,
        TurnFault::Overflow => &turn_faults::OVERFLOW,
        TurnFault::Steps => &turn_faults::STEPS,
        TurnFault::Tasks => &turn_faults::TASKS,
        TurnFault::Isolation => &turn_faults::ISOLATION,
        TurnFault::Empty => &turn_faults::EMPTY,
        TurnFault::Depth => &turn_faults::DEPTH,
        TurnFault::Turns => &turn_faults::TURNS,
    }
}
