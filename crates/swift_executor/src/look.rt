//! A look at an executor while a run goes on.

ghost use Rattle.std.specs.Prelude.{◌≡◌};
ghost use Rattle.swift_executor.specs.Exec.{IsBookOf, IsDeskOf, has_found};
ghost use Rattle.swift_executor.specs.Held.{IsOfBook, IsResting};
ghost use Rattle.swift_executor.specs.Looks.{IsSeen, Looks};

use crate::desk::Desk;
use crate::exec::Exec;
use crate::resting::TakenState;
use crate::state::ExecState;
use std::sync::Wait;
use swift_shared_book::BookLock;
use swift_word::{Begun, PendingLeft};

/// Whoever looks at executors (our own).
pub trait Onlooker {
    /// Called with the state of an executor that no worker holds, which is read by its calls: its fields, its journal, its checkpoint,
    /// and the tasks whose jobs are ready.
    ///
    /// No job is chosen, the state keeps what an executor keeps, and its turns are its part of a history that led to a book of its script.
    fn see(&mut self, state: &ExecState)
        requires { IsSeen state.now };
}

/// What came of a look (our own).
#[derive(Clone, Copy, Debug, PartialEq, Eq)]
pub enum LookOutcome {
    /// No worker held the executor, and its state was shown; and whether jobs are left. Where there are, whoever has looked has to see
    /// that a worker comes.
    Free(PendingLeft),
    /// A worker holds the executor.
    Busy,
}

// Shows a state to an onlooker. Its seat takes the book and gives it back, by which its turns are known to stand in a history.
fn show<R: Wait, L: Onlooker>(rt: &R, held: &mut TakenState, book: &BookLock, onlooker: &mut L)
    requires rests { IsResting held.old }
    requires book { IsOfBook book.now held.old }
    ensures same { held.new ≡ held.old }
    ensures seen { IsSeen held.old.state }
{
    let taken = book.lock(rt, &mut held.seat);
    book.leave(&mut held.seat, taken);
    onlooker.see(&held.state);
}

impl Exec {
    /// Shows the executor's state to an onlooker, where no worker holds it, and gives it back as it was (our own). `Busy` where a worker
    /// holds it; then nothing is shown.
    ///
    /// The book is the executor's own. It is taken and given back by the seat in the state, which has all turns of the executor, so that
    /// they are known to be its part of a history that led there. It takes no memory. It waits for the lock of the book.
    pub fn look<R: Wait, L: Onlooker>(
        &self,
        rt: &R,
        desk: &mut Desk,
        book: &BookLock,
        onlooker: &mut L,
    ) -> LookOutcome
        requires desk { IsDeskOf self.now desk.old }
        requires book { IsBookOf self.now book.now }
        ensures desk { desk.new ≡ has_found desk.new.found desk.new.moved desk.old }
        ensures looks { Looks self.now.inbox result desk.old desk.new }
    {
        match self.word.begin(&mut desk.seat) {
            Begun::Busy => LookOutcome::Busy,
            Begun::Run(_, resting) => {
                let mut held = resting.into_held();
                show(rt, &mut held, book, onlooker);
                LookOutcome::Free(self.leave(&mut desk.seat, held))
            }
        }
    }
}
