//! What helps to mend a refusal.

ghost use Rattle.std.specs.Prelude.{◌≡◌, IfOk, List, [], Ok};

use std::alloc::{AllocError, Global};

/// A second token that is concerned (our own).
#[derive(Clone, Copy)]
pub struct Note {
    /// How many tokens come before it.
    pub place: usize,
    /// What is said of it.
    pub label: &'static str,
}

/// Where something is to be written (our own). Tokens are named by how many come before them.
#[derive(Clone, Copy)]
pub enum FixPlace {
    /// After this token.
    After(usize),
    /// In the place of all from the first of these tokens to the last.
    Over(usize, usize),
}

/// What to write, and where (our own). Who offers it looks first whether the text is read further so.
#[derive(Drop)]
pub struct Fix {
    /// Where.
    pub place: FixPlace,
    /// What.
    pub text: Vec<u8>,
}

impl Fix {
    /// This text at a place, if there was memory for it.
    pub(crate) fn at(
        place: FixPlace,
        text: Result<Vec<u8>, AllocError>,
    ) -> Result<Option<Fix>, AllocError> {
        match text {
            Ok(text) => Ok(Some(Fix { place, text })),
            Err(error) => Err(error),
        }
    }

    /// These bytes in the place of a token.
    pub(crate) fn over(
        alloc: Global,
        place: usize,
        bytes: &[u8],
    ) -> Result<Option<Fix>, AllocError> {
        Fix::at(FixPlace::Over(place, place), Vec::from_slice(alloc, bytes))
    }
}

/// What helps to mend a refusal (our own). Texts have ASCII bytes where the names of the tokens have.
#[derive(Drop)]
pub struct Hint {
    /// What could have stood there, and what was found; empty where that says nothing.
    pub expected: Vec<u8>,
    /// What to do; empty where nothing better is known than what is said of every such refusal.
    pub help: Vec<u8>,
    /// The second token that is concerned.
    pub note: Option<Note>,
    /// What to write.
    pub fix: Option<Fix>,
}

impl Hint {
    /// Nothing that helps.
    pub fn none(alloc: Global) -> Hint
        ensures { result.help.items ≡ [] }
    {
        Hint {
            expected: Vec::new(alloc),
            help: Vec::new(alloc),
            note: None,
            fix: None,
        }
    }

    /// What helps, where nothing is said of what could have stood there. The parts come as the calls that make them gave them.
    pub(crate) fn of(
        alloc: Global,
        help: Result<Vec<u8>, AllocError>,
        note: Option<Note>,
        fix: Result<Option<Fix>, AllocError>,
    ) -> Result<Hint, AllocError>
        ensures { IfOk result (λ h. help ≡ Ok h.help) }
    {
        let help = help?;
        let fix = fix?;
        Ok(Hint {
            expected: Vec::new(alloc),
            help,
            note,
            fix,
        })
    }
}
