//! What can be explained, and by which word it is asked for.

ghost use Rattle.std.specs.Prelude.{◌≡◌, find};
ghost use Rattle.std.specs.Str.{bytes_eq};
ghost use Rattle.std.specs.Option.{option_copied};
ghost use Rattle.nuchapay_tool.specs.Topics.{name_of, refusal_name, run_refusal_name, turn_fault_name};
ghost use Rattle.nuchapay_tool.specs.declared.topic.TheConstants.{TOPICS};

use swift_script::ScriptFaultKind;

/// Why a run is refused, as docs/LANGUAGE.md names it (our own).
#[derive(Clone, Copy)]
pub enum RunRefusal {
    Workers,
    Memory,
    Unfinished,
    Illegal,
    Executor,
}

/// A fault of a turn, as a report names it, whatever value was thrown (our own).
#[derive(Clone, Copy)]
pub enum TurnFault {
    Thrown,
    Cancelled,
    Invariant,
    Overflow,
    Steps,
    Tasks,
    Isolation,
    Empty,
    Depth,
    Turns,
}

/// What can be explained (our own).
#[derive(Clone, Copy)]
pub enum Topic {
    /// A refusal of a script.
    Script(ScriptFaultKind),
    /// A refusal of a run.
    Run(RunRefusal),
    /// A fault of a turn.
    Turn(TurnFault),
}

/// All topics, in the order of docs/LANGUAGE.md.
pub const TOPICS: [Topic; 29] = [
    Topic::Script(ScriptFaultKind::NotText),
    Topic::Script(ScriptFaultKind::Unexpected),
    Topic::Script(ScriptFaultKind::OutOfRange),
    Topic::Script(ScriptFaultKind::NameTwice),
    Topic::Script(ScriptFaultKind::UnknownName),
    Topic::Script(ScriptFaultKind::Arguments),
    Topic::Script(ScriptFaultKind::Confused),
    Topic::Script(ScriptFaultKind::InvariantFalse),
    Topic::Script(ScriptFaultKind::BoundInside),
    Topic::Script(ScriptFaultKind::RootWaits),
    Topic::Script(ScriptFaultKind::LimitPassed),
    Topic::Script(ScriptFaultKind::EndsEarly),
    Topic::Script(ScriptFaultKind::TooDeep),
    Topic::Script(ScriptFaultKind::Memory),
    Topic::Run(RunRefusal::Workers),
    Topic::Run(RunRefusal::Memory),
    Topic::Run(RunRefusal::Unfinished),
    Topic::Run(RunRefusal::Illegal),
    Topic::Run(RunRefusal::Executor),
    Topic::Turn(TurnFault::Thrown),
    Topic::Turn(TurnFault::Cancelled),
    Topic::Turn(TurnFault::Invariant),
    Topic::Turn(TurnFault::Overflow),
    Topic::Turn(TurnFault::Steps),
    Topic::Turn(TurnFault::Tasks),
    Topic::Turn(TurnFault::Isolation),
    Topic::Turn(TurnFault::Empty),
    Topic::Turn(TurnFault::Depth),
    Topic::Turn(TurnFault::Turns),
];

impl Topic {
    /// The word that it is asked for by: the number of a refusal, or the word of a fault.
    pub fn name(self) -> &'static str
        ensures { result.now ≡ name_of self }
    {
        match self {
            Topic::Script(kind) => refusal_name(kind),
            Topic::Run(refusal) => run_refusal_name(refusal),
            Topic::Turn(fault) => turn_fault_name(fault),
        }
    }
}

/// The topic that a word asks for; none for any other word.
pub fn find_topic(word: &str) -> Option<Topic>
    ensures { result ≡ find (λ t. bytes_eq (name_of t) word.now) TOPICS }
{
    TOPICS.iter().copied().find(|topic| topic.name() == word)
}

fn refusal_name(kind: ScriptFaultKind) -> &'static str
    ensures { result.now ≡ refusal_name kind }
{
    match kind {
        ScriptFaultKind::NotText => "S1",
        ScriptFaultKind::Unexpected => "S2",
        ScriptFaultKind::OutOfRange => "S3",
        ScriptFaultKind::NameTwice => "S4",
        ScriptFaultKind::UnknownName => "S5",
        ScriptFaultKind::Arguments => "S6",
        ScriptFaultKind::Confused => "S7",
        ScriptFaultKind::InvariantFalse => "S8",
        ScriptFaultKind::BoundInside => "S9",
        ScriptFaultKind::RootWaits => "S10",
        ScriptFaultKind::LimitPassed => "S11",
        ScriptFaultKind::EndsEarly => "S12",
        ScriptFaultKind::TooDeep => "S13",
        ScriptFaultKind::Memory => "S14",
    }
}

fn run_refusal_name(refusal: RunRefusal) -> &'static str
    ensures { result.now ≡ run_refusal_name refusal }
{
    match refusal {
        RunRefusal::Workers => "N1",
        RunRefusal::Memory => "N2",
        RunRefusal::Unfinished => "N3",
        RunRefusal::Illegal => "N4",
        RunRefusal::Executor => "N5",
    }
}

fn turn_fault_name(fault: TurnFault) -> &'static str
    ensures { result.now ≡ turn_fault_name fault }
{
    match fault {
        TurnFault::Thrown => "thrown",
        TurnFault::Cancelled => "cancelled",
        TurnFault::Invariant => "invariant",
        TurnFault::Overflow => "overflow",
        TurnFault::Steps => "steps",
        TurnFault::Tasks => "tasks",
        TurnFault::Isolation => "isolation",
        TurnFault::Empty => "empty",
        TurnFault::Depth => "depth",
        TurnFault::Turns => "turns",
    }
}
