//! What is explained of a refusal or a fault.

ghost use Rattle.std.specs.Prelude.{◌≡◌, IfOk};
ghost use Rattle.std.specs.String.{string_bytes};
ghost use Rattle.nuchapay_tool.specs.Pages.{page_text, scripts_text};

use std::alloc::{AllocError, Global};

/// What is explained of a refusal of a script or of a run, or of a fault of a turn (our own). All are texts for people.
#[derive(Clone, Copy)]
pub struct Page {
    /// The word that it is asked by, as `S7` or `overflow`.
    pub name: &'static str,
    /// What it says in a word.
    pub title: &'static str,
    /// When it comes.
    pub when: &'static str,
    /// What becomes of the script, the run or the turn.
    pub outcome: &'static str,
    /// What to do.
    pub help: &'static str,
    /// A script for which it comes; none where no script makes it come.
    pub scripts: Option<ScriptPair>,
}

/// A script with a mistake, and the same one mended (our own). Each line is indented by four spaces and ended by a line feed.
#[derive(Clone, Copy)]
pub struct ScriptPair {
    /// The script that is refused, or of which a task ends with the fault.
    pub wrong: &'static str,
    /// The script that is accepted, and whose tasks all end with a value.
    pub mended: &'static str,
}

/// The text of a page (our own), in time and memory linear in it.
///
/// # Errors
///
/// `AllocError` where there is no memory for the text.
pub fn explain(alloc: Global, page: &Page) -> Result<String, AllocError>
    ensures { IfOk result (λ text. string_bytes text ≡ page_text page.now) }
{
    let scripts = example(alloc, page.scripts)?;
    let parts = [
        page.name,
        " ",
        page.title,
        "\n\nWhen: ",
        page.when,
        "\nThen: ",
        page.outcome,
        "\nWhat to do: ",
        page.help,
        "\n",
        scripts.as_str(),
    ];
    parts.as_slice().concat(alloc)
}

// The part of a page that has its scripts; empty where it has none.
fn example(alloc: Global, scripts: Option<ScriptPair>) -> Result<String, AllocError>
    ensures { IfOk result (λ text. string_bytes text ≡ scripts_text scripts) }
{
    let Some(found) = scripts else {
        return Ok(String::new(alloc));
    };
    let parts = [
        "\nFor example:\n\n",
        found.wrong,
        "\nMended:\n\n",
        found.mended,
    ];
    parts.as_slice().concat(alloc)
}
