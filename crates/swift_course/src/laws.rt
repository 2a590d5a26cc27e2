//! What holds of runs that are under way. A call costs nothing; its contract is the law.

ghost use Rattle.swift_course.specs.Frames.{FramesGoOn};
ghost use Rattle.swift_course.specs.Reports.{RunsAreLegal, RunsAreOrderly, SeatsLearn};
ghost use Rattle.swift_course.specs.Rule.{GivesAreKept, JoinsAreKept, PartsAreKept, SeatsLearnOf};
ghost use Rattle.swift_course.specs.Seats.{AccountsMayBeOpened, RunsBegin, SeatsMayBeGathered, SomeTicketsMayBeParted, TicketsMayBeParted};
ghost use Rattle.swift_course.specs.Steps.{BooksMayStay, RootsMayBeAdded, TicketsMayBeOrdered, TurnsMayBeApplied, TurnsMayBegin};
ghost use Rattle.swift_course.specs.Whole.{RunsAreWhole};

/// The rule holds of a run that has not begun, with one seat (our own).
pub fn runs_begin()
    ensures { RunsBegin }
{}

/// What a seat knows of the book is true (our own).
pub fn seats_learn()
    ensures { SeatsLearn }
{}

/// A book that is given back unchanged keeps the rule (our own).
pub fn books_may_stay()
    ensures { BooksMayStay }
{}

/// The next root, added by the seat that adds roots, keeps the rule (our own).
pub fn roots_may_be_added()
    ensures { RootsMayBeAdded }
{}

/// The turn of a seat's ticket that begins keeps the rule (our own).
pub fn turns_may_begin()
    ensures { TurnsMayBegin }
{}

/// The turn of a seat's ticket that is applied, with its record in the seat's account, keeps the rule (our own).
pub fn turns_may_be_applied()
    ensures { TurnsMayBeApplied }
{}

/// What a seat may do with its first ticket it may do with any other (our own).
pub fn tickets_may_be_ordered()
    ensures { TicketsMayBeOrdered }
{}

/// The first tickets of a seat, however many, that get a seat of their own keep the rule (our own).
pub fn some_tickets_may_be_parted()
    ensures { SomeTicketsMayBeParted }
{}

/// A ticket that gets a seat of its own keeps the rule (our own).
pub fn tickets_may_be_parted()
    ensures { TicketsMayBeParted }
{}

/// A seat for the next executor keeps the rule (our own).
pub fn accounts_may_be_opened()
    ensures { AccountsMayBeOpened }
{}

/// A seat that takes in another keeps the rule (our own).
pub fn seats_may_be_gathered()
    ensures { SeatsMayBeGathered }
{}

/// The report of a run whose accounts are all in one seat is legal (our own).
pub fn runs_are_legal()
    ensures { RunsAreLegal }
{}

/// Where the turns of each executor have begun in order, the blocks of that report are in order too (our own).
pub fn runs_are_orderly()
    ensures { RunsAreOrderly }
{}

/// That report is the fold of a whole one, which is legal with its blocks in order and has each turn of the run (our own).
pub fn runs_are_whole()
    ensures { RunsAreWhole }
{}

/// What follows from a turn is the same by the frame that has had it, which is in the job, as by the record of the turn (our own).
pub fn frames_go_on()
    ensures { FramesGoOn }
{}

/// What a seat of the lock knows of the book is true (our own).
pub fn seats_of_locks_learn()
    ensures { SeatsLearnOf }
{}

/// What a step of the run leaves may be given back to the lock (our own).
pub fn gives_are_kept()
    ensures { GivesAreKept }
{}

/// A seat of the lock may be parted as the run allows (our own).
pub fn parts_are_kept()
    ensures { PartsAreKept }
{}

/// A seat of the lock may take in another as the run allows (our own).
pub fn joins_are_kept()
    ensures { JoinsAreKept }
{}
