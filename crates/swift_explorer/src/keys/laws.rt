//! What is read from numbers. A call costs nothing; its contract is the law.

ghost use Rattle.swift_explorer.specs.Bytes.{BytesAreRead};
ghost use Rattle.swift_explorer.specs.FrameNumbers.{bindings_numbers, fields_numbers, frame_numbers};
ghost use Rattle.swift_explorer.specs.Laws.{AreRead, DigestsAreRead};
ghost use Rattle.swift_explorer.specs.Numbers.{flag_numbers, list_numbers, resume_numbers};

/// Numbers that begin with those of a frame, of bindings, of fields, of flags or of what a turn begins with say of which, and what
/// follows.
pub fn values_are_read()
    ensures frames { AreRead frame_numbers }
    ensures bindings { AreRead bindings_numbers }
    ensures fields { AreRead fields_numbers }
    ensures flags { AreRead (list_numbers flag_numbers) }
    ensures resumes { AreRead resume_numbers }
{}

/// The same of a digest.
pub fn digests_are_read()
    ensures { DigestsAreRead }
{}

/// No two lists of numbers have the same bytes.
pub fn bytes_are_read()
    ensures { BytesAreRead }
{}
