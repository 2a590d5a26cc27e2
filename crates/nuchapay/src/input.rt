//! The text of a script.

ghost use Rattle.std.specs.Prelude.{◌≡◌, IfErr, IfOk};
ghost use Rattle.nuchapay.specs.Inputs.{IsReadOf, IsUnreadOf};
ghost use Rattle.nuchapay.specs.declared.input.NoScript.TheVariants.{Memory};

use crate::output::{say_checked, tell};
use nuchapay_tool::{
    Checked, FileRefusal, Input, Language, Question, Source, read_input, refused_file,
    refused_file_json,
};
use std::alloc::{AllocError, Global};
use std::fs::File;
use std::io;
use swift_report::write_all;
use swift_syntax::Refusal;
use swift_tool::ToolFault;
use swift_translation::{MethodPlace, SwiftScript, Translation, refusal_help, translate};

/// The text of a script, and from which lines of a Swift file its methods are.
#[derive(Drop)]
pub struct ReadScript {
    /// The text.
    pub text: Vec<u8>,
    /// The methods that are from lines of a Swift file; none where it is not made of one.
    pub places: Vec<MethodPlace>,
}

/// Why there is no script.
#[derive(Drop)]
pub enum NoScript {
    /// It could not be read.
    Unread(io::Error),
    /// It is this text of Swift, which the subset does not take, and this says why.
    Refused(Vec<u8>, Refusal),
    /// No memory was left for the script that a Swift file becomes.
    Memory,
}

impl From<io::Error> for NoScript {
    fn from(error: io::Error) -> NoScript {
        NoScript::Unread(error)
    }
}

impl From<AllocError> for NoScript {
    ghost from_gives = { λ _ e. e ≡ Memory };

    fn from(_fault: AllocError) -> NoScript {
        NoScript::Memory
    }
}

/// What a script is called.
pub fn name_of(source: Source<'_>) -> &str {
    match source {
        Source::Stdin => "<stdin>",
        Source::File(path) => path,
    }
}

/// A script; of a text of Swift that which it becomes.
pub fn script(rt: &HostRuntime, input: Input<'_>) -> Result<ReadScript, NoScript> {
    let text = text_of(rt, input.source)?;
    script_in(rt.alloc(), input.language, text)
}

/// The script that a text of a language is, or becomes: of Swift, what is written of the tree that its tokens spell. What is read of it
/// afterwards is read as a script, also where it was made of Swift: so `check` says that such a text is accepted only where the script is
/// that it becomes.
///
/// # Errors
///
/// `Refused` with the text where the subset of Swift does not take it, and `Memory` where none was left; never `Unread`.
pub fn script_in(alloc: Global, language: Language, text: Vec<u8>) -> Result<ReadScript, NoScript>
    ensures read { IfOk result (IsReadOf language text.items) }
    ensures refused { IfErr result (IsUnreadOf language text.items) }
{
    match language {
        Language::Script => {
            let places = Vec::new(alloc);
            Ok(ReadScript { text, places })
        }
        Language::Swift => match translate(alloc, &text)? {
            Translation::Script(SwiftScript { text, places }) => Ok(ReadScript { text, places }),
            Translation::Refused(refusal) => Err(NoScript::Refused(text, refusal)),
        },
    }
}

// What stands in a file, or comes from standard input.
fn text_of(rt: &HostRuntime, source: Source<'_>) -> io::Result<Vec<u8>> {
    match source {
        Source::Stdin => read_input(rt.alloc(), &mut rt.stdin()),
        Source::File(path) => {
            let mut file = File::open(rt, path)?;
            read_input(rt.alloc(), &mut file)
        }
    }
}

/// Says why there is no script to answer this question about, with the system's word where it could not be read. Where the question wants
/// a refusal as JSON, standard output has it, and else standard error. The status to end with.
pub fn say_no_script(rt: &HostRuntime, name: &str, question: &Question<'_>, why: NoScript) -> u8 {
    match why {
        NoScript::Unread(error) => {
            let _ = eprintln!(rt; "nuchapay: {name}: {error}");
            4
        }
        NoScript::Refused(text, refusal) => {
            let why = FileRefusal {
                code: refusal.rule.name(),
                title: refusal.rule.title(),
                help: refusal_help(&text, refusal),
                from: refusal.from,
                to: refusal.to,
            };
            match question {
                Question::CheckJson => say_json(rt, name, &text, why),
                Question::Check(colour) => say_refused(rt, name, &text, *colour, why),
                _ => say_refused(rt, name, &text, false, why),
            }
        }
        NoScript::Memory => tell(rt, Err(ToolFault::from(AllocError))),
    }
}

// Says on standard error why a text of Swift is refused, with colours where this says so. The status to end with.
fn say_refused(rt: &HostRuntime, name: &str, text: &[u8], colour: bool, why: FileRefusal) -> u8 {
    match refused_file(rt.alloc(), name, text, colour, why) {
        Ok(said) => match write_all(&mut rt.stderr(), said.as_bytes()) {
            Ok(()) => 3,
            Err(_) => 4,
        },
        Err(fault) => tell(rt, Err(ToolFault::from(fault))),
    }
}

// Says as JSON why a text of Swift is refused, on standard output. The status to end with.
fn say_json(rt: &HostRuntime, name: &str, text: &[u8], why: FileRefusal) -> u8 {
    let said = refused_file_json(rt.alloc(), name, text, why);
    say_checked(rt, said.map(Checked::Refused))
}
