//! What holds of each legal report. A call costs nothing; its contract is the law.

ghost use Rattle.swift_certificate.specs.Laws.{LegalIsReplayed, LegalKeepsInvariants};

use swift_history::laws::{invariants_stay, lawful_grows};

/// In a legal report each executor's journal is lawful from its checkpoint on, its turns are of its actors, and replaying
/// it on one thread gives the executor's fields (SE-0392 for executors that run one job at a time; the rest is our own).
pub fn legal_reports_are_replayed()
    ensures { LegalIsReplayed }
{
    lawful_grows();
}

/// In a legal report each invariant of an executor's actors that holds of its checkpoint's fields holds of its fields (our
/// own).
pub fn legal_reports_keep_invariants()
    ensures { LegalKeepsInvariants }
{
    legal_reports_are_replayed();
    invariants_stay();
}
