//! What holds of the runs of a script whose histories were searched to the end. A call costs nothing; its contract is the law.

ghost use Rattle.explorer_laws.specs.Runs.{EachRunIsListed, EachRunMeets, NoRunBreaks};
ghost use Rattle.explorer_laws.specs.SwiftRuns.{EachSwiftRunMeets};

/// How the tasks of a run end, and which fields it leaves, is among the outcomes of a search that came to its end, whatever the number
/// of workers and the order of their threads (our own).
pub fn each_run_is_listed()
    ensures { EachRunIsListed }
{}

/// Where such a search met no turn that breaks an invariant, no turn of such a run does (our own).
pub fn no_run_breaks()
    ensures { NoRunBreaks }
{}

/// Where the answer of such a search ends with status 0, each expectation holds at the end of each such run, and no turn of it breaks an
/// invariant (our own).
pub fn each_run_meets()
    ensures { EachRunMeets }
{}

/// Where the answer of such a search of a Swift file's script ends with status 0, no task of such a run is ended by what ends the process in
/// Swift, no turn of it breaks an invariant, and each expectation holds at its end, if no task of it is ended by a limit that Swift does not
/// have (our own).
pub fn each_swift_run_meets()
    ensures { EachSwiftRunMeets }
{}
