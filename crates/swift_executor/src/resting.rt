//! The state of an executor while no worker holds it, and what a worker holds of it.

ghost use Rattle.std.specs.Prelude.{◌≡◌, None};
ghost use Rattle.swift_executor.specs.Held.{IsResting};
ghost use Rattle.swift_executor.specs.Taken.{taken_of};

use crate::aside::Aside;
use crate::inbox::Taker;
use crate::state::ExecState;
use crate::state_name::{StateImage, StateName};
use std::marker::Model;
use swift_job::spend_all;
use swift_shared_book::BookSeat;
use swift_word::Named;

/// What a worker holds of an executor: its state, the right to take its jobs out of the inbox, and the seat by which it takes
/// the book. Its type keeps that they go together, whatever step of a visit comes next: each job that was taken is ready, chosen or
/// journalled, and the seat has the executor's turns and the tickets of its jobs.
pub struct TakenState {
    pub state: ExecState,
    pub taker: Taker,
    pub seat: BookSeat,
    /// Whether its turns are known to have begun in order: each once the last root was there, and while no other was under way.
    pub is_orderly: bool,
    /// Room for turns that are played and not committed yet. Between two visits it means nothing.
    pub asides: Vec<Aside>,
}

impl Model for TakenState {
    ghost use Rattle.std.specs.Coded.{codes};
    ghost use Rattle.swift_script.specs.Codes.{expression_code, statement_code, block_code};
    ghost use Rattle.swift_executor.specs.Taken.{TakenView, taken_of};

    ghost Value = { TakenView };

    ghost coded = { Prim.hlevel (codes, expression_code, statement_code (block_code (Prim.hlevel (codes, expression_code)) (Prim.hlevel (codes, expression_code)))) };

    ghost use Rattle.swift_executor.specs.Held.{GoesTogether};

    ghost view = { λ h. taken_of h.state h.taker h.seat h.is_orderly };

    ghost invariant = { λ h. GoesTogether (taken_of h.state h.taker h.seat h.is_orderly) };
}

/// The state of an executor while no worker holds it: no job is chosen. Where it is dropped, its jobs are spent.
pub struct Resting {
    held: Box<TakenState>,
}

impl Model for Resting {
    ghost use Rattle.std.specs.Coded.{codes};
    ghost use Rattle.swift_script.specs.Codes.{expression_code, statement_code, block_code};
    ghost use Rattle.swift_executor.specs.Taken.{TakenView};

    ghost Value = { TakenView };

    ghost coded = { Prim.hlevel (codes, expression_code, statement_code (block_code (Prim.hlevel (codes, expression_code)) (Prim.hlevel (codes, expression_code)))) };

    ghost use Rattle.swift_executor.specs.Held.{IsResting};

    ghost view = { λ r. r.held.value };

    ghost invariant = { λ r. IsResting r.held.value };
}

impl Named for Resting {
    type Name = StateName;

    type Image = StateImage;

    ghost use Rattle.swift_executor.specs.Exec.{image_of, name_of};

    ghost name = { λ r. name_of r };

    ghost image = { λ r. image_of r };
}

impl Resting {
    /// The state that a worker has held.
    pub fn new(held: Box<TakenState>) -> Resting
        requires { held.value.state.chosen ≡ None }
        ensures same { result ≡ held.value }
        ensures rests { IsResting held.value }
    {
        let taken: &TakenState = &held;
        let state = &taken.state;
        let _ = &state.home;
        Resting { held }
    }

    /// The state, for the worker that holds it.
    pub fn into_held(self) -> Box<TakenState>
        ensures same { result.value ≡ self }
        ensures rests { IsResting self }
    {
        let Resting { held } = self;
        held
    }

    /// The state, the right to take its jobs, the seat by which it took the book, and whether its turns are known to have begun in order.
    pub fn into_parts(self) -> (ExecState, Taker, BookSeat, bool)
        ensures same { taken_of result.0 result.1 result.2 result.3 ≡ self }
        ensures rests { IsResting self }
    {
        let held = Box::into_inner(self.into_held());
        let TakenState {
            state,
            taker,
            seat,
            is_orderly,
            asides: _,
        } = held;
        (state, taker, seat, is_orderly)
    }
}

/// Spends the jobs of a state.
pub fn spend_held(held: TakenState)
    requires { held.state.chosen ≡ None }
{
    let TakenState {
        state,
        taker: _,
        seat: _,
        is_orderly: _,
        asides: _,
    } = held;
    let (jobs, _journal, _fields, _checkpoint) = state.into_parts();
    spend_all(jobs);
}

impl Drop for Resting {
    fn drop(self) {
        spend_held(Box::into_inner(self.into_held()));
    }
}
