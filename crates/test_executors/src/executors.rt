//! Calls on executors that threads share.

// Calls that a gate makes.
mod acting;
// Calls, by words.
pub(crate) mod call;
// Calls, one after another.
pub(crate) mod callee;
// A case.
pub(crate) mod case;
// What is left of executors.
pub(crate) mod end;
// What the calls of a case work on.
mod stage;
// What calls answered.
pub(crate) mod tell;

ghost use Rattle.std.specs.Prelude.{◌≡◌, Some};

use crate::desks::{BookOf, Booked, Setting};
use crate::executors::case::{CasePlan, plan_of, play_on};
use crate::executors::stage::CaseStage;
use std::alloc::AllocGlobal;
use std::marker::Brand;
use std::random::RandomSource;
use std::sync::Wait;
use test_support::{CaseFault, Said};

/// For how many bytes that a case says there is room at first.
pub(crate) const ROOM: usize = 8192;

// For how many jobs and desks there is room. A job is given up where it is refused a place beyond these.
pub(crate) const JOBS: usize = 64;

pub(crate) const DOORS: usize = 16;

/// Makes the calls of a case on the executors of its script, and writes what each answered.
pub fn calls<R>(rt: &R, text: &str, out: &mut Said) -> Result<(), CaseFault>
where
    R: Wait + RandomSource + AllocGlobal,
{
    let Some(plan) = plan_of(text) else {
        return Err(CaseFault::Form);
    };
    let mut said = Said::with_room(rt.alloc(), ROOM)?;
    let mut played = play(rt, plan, &mut said);
    if played == Err(CaseFault::Granted) {
        said.clear();
        played = play(rt, plan.without_last(), &mut said);
    }
    out.part(&said);
    played
}

// Makes the calls of a case on executors that threads share.
fn play<R>(rt: &R, plan: CasePlan<'_>, out: &mut Said) -> Result<(), CaseFault>
where
    R: Wait + RandomSource + AllocGlobal,
{
    let alloc = rt.alloc();
    let setting = Setting::read(alloc, plan.script)?;
    let booked = setting.booked(alloc)?;
    play_of::<Brand, R>(rt, setting, booked, plan, out)
}

// Makes the calls of a case on executors that threads share, with a book that is known by its type.
fn play_of<K, R>(
    rt: &R,
    setting: Setting,
    booked: Booked,
    plan: CasePlan<'_>,
    out: &mut Said,
) -> Result<(), CaseFault>
where
    K: BookOf,
    R: Wait + RandomSource + AllocGlobal,
    requires { Some booked ≡ K.lock }
{
    let alloc = rt.alloc();
    let mut stage: CaseStage<K> = CaseStage::new(alloc, setting, booked)?;
    stage.open_all(alloc, plan.workers, plan.room)?;
    play_on(rt, stage, plan.calls, out)
}
