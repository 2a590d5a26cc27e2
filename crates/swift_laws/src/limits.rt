//! How much of each thing a script and a run may have, in numbers. Clauses and definitions cite names of constants; here stands
//! which numbers these are, so that a constant that is changed does not change what was promised with it.

ghost use Rattle.std.specs.Prelude.{◌≡◌};
ghost use Rattle.script_parser.specs.declared.limits.TheConstants.{NESTING};
ghost use Rattle.swift_types.specs.declared.limits.TheConstants.{ACTORS, BYTES, EXECUTORS, FOLD, FRAMES, MADE, STEPS, TASKS, TURNS, WORKERS};

/// The limits (our own), to be believed as they stand: a script of at most 65,536 bytes, with 64 actors, 64 executors and 1,024 roots, whose
/// parentheses and blocks nest 32 deep; and a run of at most 1,024 tasks, the roots among them, on 1 to 8 workers. A turn makes at
/// most 16 tasks and has 10,000 steps; a task has 64 frames, and 1,000 turns that run statements. A journal of 4,096 turns is folded.
pub fn limits_are()
    ensures bytes { BYTES ≡ 65536 }
    ensures actors { ACTORS ≡ 64 }
    ensures executors { EXECUTORS ≡ 64 }
    ensures tasks { TASKS ≡ 1024 }
    ensures nested { NESTING ≡ 32 }
    ensures workers { WORKERS ≡ 8 }
    ensures made { MADE ≡ 16 }
    ensures steps { STEPS ≡ 10000 }
    ensures frames { FRAMES ≡ 64 }
    ensures turns { TURNS ≡ 1000 }
    ensures fold { FOLD ≡ 4096 }
{}
