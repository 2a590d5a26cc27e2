//! Laws of journals. A call costs nothing; its contract is the law.

ghost use Rattle.std.specs.Prelude.{ℤ, List};
ghost use Rattle.swift_script.specs.Scripts.{ScriptView};
ghost use Rattle.swift_journal.specs.Records.{RecordView};
ghost use Rattle.swift_history.specs.Replay.{InvariantsStay, LawfulGrows};

use swift_undo::laws::invariants_are_kept;

/// A lawful journal that gains a lawful record is lawful (our own).
pub fn lawful_grows()
    ensures { (script : ScriptView) (fields : List (List ℤ)) (rs : List RecordView) (r : RecordView) → LawfulGrows script fields rs r }
{}

/// Each invariant that held before a journal's turns holds after them (our own).
pub fn invariants_stay()
    ensures { InvariantsStay }
{
    invariants_are_kept();
}
