//! What the calls of a book keep. A call costs nothing; its contract is the law.

ghost use Rattle.swift_shared_book.specs.Calls.{AddedRootsKeep, AppliedTurnsKeep, BegunTurnsKeep, EmptyBooksBegin};

/// The rule holds of the book that `Book::new` gives, with one seat (our own).
pub fn empty_books_begin()
    ensures { EmptyBooksBegin }
{}

/// The next root, as `Book::add_root` adds it, keeps the rule (our own).
pub fn added_roots_keep()
    ensures { AddedRootsKeep }
{}

/// A turn that `Book::begin` begins keeps the rule (our own).
pub fn begun_turns_keep()
    ensures { BegunTurnsKeep }
{}

/// A turn that an executor has played and that `Book::apply` applies keeps the rule (our own).
pub fn applied_turns_keep()
    ensures { AppliedTurnsKeep }
{}
