//! Outcomes of orders of turns.

ghost use Rattle.std.specs.Prelude.{◌≡◌, ◌⊎◌, ◌<◌, ◌+◌, IfOk, IfSome, None, map};
ghost use Rattle.std.specs.Arc.{arc_value};
ghost use Rattle.explorer_answers.specs.Found.{IsFound};
ghost use Rattle.explorer_json.specs.AnswerJson.{answer_json as json_of};
ghost use Rattle.nuchapay.specs.Searches.{IsExplored, IsKept, IsSaidOf};

use crate::progress::say_no_progress;
use expectations::{Answer, Expectation, ExpectationError, Misread, ask};
use explorer_answers::{answer_text, answered};
use explorer_json::answer_json;
use explorer_page::{PageError, SearchHeading, SearchedFile, page_text};
use nuchapay_tool::SearchFormat;
use std::alloc::{AllocError, AllocFailed, Global};
use std::sync::Arc;
use swift_explorer::{Exploration, FoundOutcomes};
use swift_script::{Script, ScriptFault, read};
use swift_workers::RunFault;

// Each time that a search has gone on from this many histories more, it says how far it is: a small script takes a second for them.
const PART: usize = 8_192;

// Says on standard error how far a search is that has still to go on. The search goes on where that fails: its list is what was asked for.
fn say_progress(rt: &HostRuntime, search: &Exploration) {
    if search.to_go() == 0 {
        return;
    }
    let outcomes = search.outcomes();
    let noun = if outcomes == 1 { "outcome" } else { "outcomes" };
    let _ = eprintln!(rt;
        "nuchapay: {} states searched, {} to go, {outcomes} {noun} so far",
        search.gone_on(),
        search.to_go(),
    );
}

// What a search has found.
fn found_by(search: Exploration) -> FoundOutcomes
    ensures { IsFound search.script search.limit result }
{
    search.finish()
}

// By how many steps a search of so many histories dives: it costs a small part of the time.
fn steps_of_dives(limit: usize) -> usize {
    (limit / 4).max(1_000)
}

// What `explore` finds, and how far it is now and then.
pub(crate) fn search_all(
    rt: &HostRuntime,
    script: &Arc<Script>,
    limit: usize,
) -> Result<FoundOutcomes, AllocError>
    ensures { IfOk result (IsFound (arc_value script.now) limit) }
{
    let mut search = Exploration::new(rt.alloc(), script, limit)?;
    'parts: while search.to_go() > 0 {
        search = search.advance(PART)?;
        if search.met_limit() {
            let dived = search.dive(steps_of_dives(limit))?;
            return Ok(found_by(dived));
        }
        say_progress(rt, &search);
    }
    Ok(found_by(search))
}

/// What a search says (our own).
#[derive(Drop)]
pub struct SearchAnswer {
    /// What it says to what was expected.
    pub answer: Answer,
    /// That, and what it has found, as it is to be printed.
    pub text: Vec<u8>,
    /// The same as JSON, where it is to be kept in a file.
    pub saved: Option<Vec<u8>>,
}

/// Why a search was not made, or not to its end.
#[derive(Clone, Copy)]
pub enum ExploreFault {
    /// The script was refused.
    Script(ScriptFault),
    /// What is expected is none of this script.
    Misread(Misread),
    /// The run of a schedule that was found was refused.
    Run(RunFault),
    /// No memory was left.
    Memory,
}

impl From<AllocError> for ExploreFault {
    fn from(_fault: AllocError) -> ExploreFault {
        ExploreFault::Memory
    }
}

impl<T: Drop> From<AllocFailed<T>> for ExploreFault {
    fn from(_fault: AllocFailed<T>) -> ExploreFault {
        ExploreFault::Memory
    }
}

impl From<ScriptFault> for ExploreFault {
    fn from(fault: ScriptFault) -> ExploreFault {
        ExploreFault::Script(fault)
    }
}

impl From<ExpectationError> for ExploreFault {
    fn from(error: ExpectationError) -> ExploreFault {
        match error {
            ExpectationError::Memory => ExploreFault::Memory,
            ExpectationError::Misread(fault) => ExploreFault::Misread(fault),
        }
    }
}

impl From<PageError> for ExploreFault {
    fn from(error: PageError) -> ExploreFault {
        match error {
            PageError::Memory => ExploreFault::Memory,
            PageError::Unfinished => ExploreFault::Run(RunFault::Unfinished),
            PageError::Illegal => ExploreFault::Run(RunFault::Illegal),
        }
    }
}

// What a search says that has found this, in a format.
fn said_of(
    alloc: Global,
    heading: SearchHeading<'_>,
    script: &Arc<Script>,
    asked: &[Expectation],
    found: &FoundOutcomes,
    format: SearchFormat,
) -> Result<Vec<u8>, ExploreFault>
    ensures { IfOk result (λ text. IsSaidOf format heading.entry (arc_value script.now) asked.now found.now text.items) }
{
    let text = match format {
        SearchFormat::Text => answer_text(alloc, script, asked, found)?,
        SearchFormat::Json => answer_json(alloc, heading.text, script, asked, found)?,
        SearchFormat::Html => page_text(
            alloc,
            heading,
            SearchedFile::Script,
            script,
            asked,
            found,
        )?,
    };
    Ok(text)
}

// What is kept in a file, where something is.
fn kept_of(
    alloc: Global,
    text: &[u8],
    script: &Script,
    asked: &[Expectation],
    found: &FoundOutcomes,
    save: bool,
) -> Result<Option<Vec<u8>>, AllocError>
    ensures { IfOk result (IsKept save (json_of text.now script.now asked.now found.now)) }
{
    if !save {
        return Ok(None);
    }
    let json = answer_json(alloc, text, script, asked, found)?;
    Ok(Some(json))
}

/// What a search of the histories of the script that `heading.text` spells says, of which at most `limit` are kept, to the expectations of
/// these words and of the script's comments, and perhaps that no root ends with a fault; in this format, and where this says so as JSON
/// beside it, to be kept. How far it is, it says on standard error now and then, and at its end which tasks repeat their turns, where that
/// is seen.
pub fn explored(
    rt: &HostRuntime,
    heading: SearchHeading<'_>,
    limit: u32,
    words: &[&str],
    without_fault: bool,
    format: SearchFormat,
    save: bool,
) -> Result<SearchAnswer, ExploreFault>
    ensures { IfOk result (λ x. IsExplored heading.entry limit (map (λ w. w.now) words.now) without_fault format save x.answer x.text.items x.saved) }
{
    let alloc = rt.alloc();
    let script = Arc::new(alloc, read(alloc, heading.text)?)?;
    let asked = ask(alloc, &script, heading.text, words, without_fault)?;
    let found = search_all(rt, &script, limit as usize)?;
    say_no_progress(rt, &script, &found)?;
    let answer = answered(alloc, &script, &asked, &found)?;
    let text = said_of(alloc, heading, &script, &asked, &found, format)?;
    let saved = kept_of(alloc, heading.text, &script, &asked, &found, save)?;
    Ok(SearchAnswer {
        answer,
        text,
        saved,
    })
}

// The place of the outcome with this number, from 1, where there are so many.
pub(crate) fn place_of(many: usize, number: u32) -> Option<usize>
    ensures some { IfSome result (λ place. (place < many) × (place + 1 ≡ number)) }
    ensures none { result ≡ None → (number ≡ 0) ⊎ (many < number) }
{
    if number == 0 || number as usize > many {
        return None;
    }
    Some(number as usize - 1)
}
