//! What an outcome of a Swift file's script says of Swift.

ghost use Rattle.std.specs.Prelude.{◌≡◌};
ghost use Rattle.explorer_answers.specs.SwiftMeanings.{at_limit, ends_process, meaning, meets_limit, is_outcome, same, stops};

use swift_events::Origin;
use swift_explorer::RunOutcome;
use swift_types::{Ending, Fault};

/// What an outcome of the script that a Swift file becomes says of Swift (our own).
#[derive(Clone, Copy, PartialEq, Eq)]
pub enum SwiftMeaning {
    /// The program may end so.
    Outcome,
    /// Before it a turn ends the process: it leaves an invariant false, a precondition fails, or a value is out of `Int`.
    EndsProcess,
    /// Before it a task or a turn meets a limit that Swift does not have, as one that waits in a loop may.
    MaySpin,
}

// Whether a task that ended so was ended by what ends the process in Swift.
fn stops(ending: Ending) -> bool
    ensures { result ≡ stops ending }
{
    matches!(
        ending,
        Ending::Fault(Fault::Invariant) | Ending::Fault(Fault::Overflow)
    )
}

// Whether a task that ended so was ended by a limit that Swift does not have.
fn meets_limit(ending: Ending) -> bool
    ensures { result ≡ meets_limit ending }
{
    match ending {
        Ending::Value(_) => false,
        Ending::Fault(fault) => matches!(
            fault,
            Fault::Steps | Fault::Turns | Fault::Depth | Fault::Tasks
        ),
    }
}

fn ends_process(endings: &[(Origin, Ending)]) -> bool
    ensures { result ≡ ends_process endings.now }
{
    match endings {
        [] => false,
        [(_, ending), rest @ ..] => stops(*ending) || ends_process(rest),
    }
}

fn at_limit(endings: &[(Origin, Ending)]) -> bool
    ensures { result ≡ at_limit endings.now }
{
    match endings {
        [] => false,
        [(_, ending), rest @ ..] => meets_limit(*ending) || at_limit(rest),
    }
}

/// What an outcome says of Swift, by how its tasks have ended. Linear in these.
pub fn swift_meaning(outcome: &RunOutcome) -> SwiftMeaning
    ensures { result ≡ meaning outcome.now }
{
    if ends_process(&outcome.endings) {
        SwiftMeaning::EndsProcess
    } else if at_limit(&outcome.endings) {
        SwiftMeaning::MaySpin
    } else {
        SwiftMeaning::Outcome
    }
}

impl SwiftMeaning {
    /// Whether it is this one.
    pub fn is(self, other: SwiftMeaning) -> bool
        ensures { result ≡ same self other }
    {
        match self {
            SwiftMeaning::Outcome => matches!(other, SwiftMeaning::Outcome),
            SwiftMeaning::EndsProcess => matches!(other, SwiftMeaning::EndsProcess),
            SwiftMeaning::MaySpin => matches!(other, SwiftMeaning::MaySpin),
        }
    }
}

/// Whether the program may end so in Swift.
pub(crate) fn is_outcome(outcome: &RunOutcome) -> bool
    ensures { result ≡ is_outcome outcome.now }
{
    swift_meaning(outcome).is(SwiftMeaning::Outcome)
}
