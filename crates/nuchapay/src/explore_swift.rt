//! Outcomes of orders of turns of a Swift file.

ghost use Rattle.std.specs.Prelude.{◌≡◌, IfOk, map};
ghost use Rattle.std.specs.Arc.{arc_value};
ghost use Rattle.explorer_json.specs.SwiftJson.{swift_answer_json as json_of};
ghost use Rattle.nuchapay.specs.Searches.{IsKept};
ghost use Rattle.nuchapay.specs.SwiftSearches.{IsSwiftExplored, IsSwiftSaidOf};

use crate::explore::{ExploreFault, SearchAnswer, search_all};
use crate::progress::say_may_spin;
use expectations::{Expectation, ask};
use explorer_answers::{swift_answer_text, swift_answered};
use explorer_json::swift_answer_json;
use explorer_page::{SearchHeading, SearchedFile, page_text};
use nuchapay_tool::SearchFormat;
use std::alloc::{AllocError, Global};
use std::sync::Arc;
use swift_explorer::FoundOutcomes;
use swift_script::{Script, read};
use swift_translation::MethodPlace;

// What a search says that has found this, in a format.
fn swift_said_of(
    alloc: Global,
    heading: SearchHeading<'_>,
    script: &Arc<Script>,
    asked: &[Expectation],
    found: &FoundOutcomes,
    format: SearchFormat,
) -> Result<Vec<u8>, ExploreFault>
    ensures { IfOk result (λ text. IsSwiftSaidOf format heading.entry (arc_value script.now) asked.now found.now text.items) }
{
    let text = match format {
        SearchFormat::Text => swift_answer_text(alloc, script, asked, found)?,
        SearchFormat::Json => swift_answer_json(alloc, heading.text, script, asked, found)?,
        SearchFormat::Html => page_text(alloc, heading, SearchedFile::Swift, script, asked, found)?,
    };
    Ok(text)
}

// What is kept in a file, where something is.
fn swift_kept_of(
    alloc: Global,
    text: &[u8],
    script: &Script,
    asked: &[Expectation],
    found: &FoundOutcomes,
    save: bool,
) -> Result<Option<Vec<u8>>, AllocError>
    ensures { IfOk result (IsKept save (json_of text.now script.now asked.now found.now)) }
{
    if !save {
        return Ok(None);
    }
    let json = swift_answer_json(alloc, text, script, asked, found)?;
    Ok(Some(json))
}

/// What a search says of the script that a Swift file becomes, as `explored` does of any script; but an outcome counts only where Swift has
/// it, too. The methods of the script are from these lines of the file.
pub fn explored_swift(
    rt: &HostRuntime,
    heading: SearchHeading<'_>,
    places: &[MethodPlace],
    limit: u32,
    words: &[&str],
    without_fault: bool,
    format: SearchFormat,
    save: bool,
) -> Result<SearchAnswer, ExploreFault>
    ensures { IfOk result (λ x. IsSwiftExplored heading.entry limit (map (λ w. w.now) words.now) without_fault format save x.answer x.text.items x.saved) }
{
    let alloc = rt.alloc();
    let script = Arc::new(alloc, read(alloc, heading.text)?)?;
    let asked = ask(alloc, &script, heading.text, words, without_fault)?;
    let found = search_all(rt, &script, limit as usize)?;
    say_may_spin(rt, heading.name, places, &script, &found)?;
    let answer = swift_answered(alloc, &script, &asked, &found)?;
    let text = swift_said_of(alloc, heading, &script, &asked, &found, format)?;
    let saved = swift_kept_of(alloc, heading.text, &script, &asked, &found, save)?;
    Ok(SearchAnswer {
        answer,
        text,
        saved,
    })
}
