//! Laws of the definitions alone. A call costs nothing; its contract is the law.

ghost use Rattle.script_code.specs.Layout.{WrittenFollows, WrittenJoins, EntryJoins, WrittenCounts};

/// The instructions of a whole method, as they are written and then renumbered, stand for its statements.
pub fn written_code_implements()
    ensures { WrittenFollows }
{}

/// The instructions of two lists of statements, one after the other: those of the second are written first, and the
/// first ones go on at its first instruction.
pub fn written_code_joins()
    ensures written { WrittenJoins }
    ensures entry { EntryJoins }
{}

/// Two lists of statements, one after the other, take as many instructions as both together, and a list has as many
/// instructions as are counted.
pub fn written_code_counts()
    ensures { WrittenCounts }
{}
