//! From which lines of a Swift file turns are.

use nuchapay_tool::Language;
use std::alloc::{AllocError, Global};
use std::str;
use swift_translation::{MethodPlace, method_line, places_text};

/// A script, and from which lines of a Swift file its methods are; none where it is not made of one.
#[derive(Clone, Copy)]
pub struct ScriptFile<'a> {
    /// What the file is called.
    pub name: &'a str,
    /// In which language the file is.
    pub language: Language,
    /// The text of the script.
    pub text: &'a [u8],
    /// The methods that are from lines of the file.
    pub places: &'a [MethodPlace],
}

// What is said under a title; nothing where there is nothing to say.
fn under(alloc: Global, title: &str, said: &[u8]) -> Result<Vec<u8>, AllocError> {
    let mut text = Vec::new(alloc);
    if !said.is_empty() {
        text.extend_from_slice(title.as_bytes())?;
        text.extend_from_slice(said)?;
    }
    Ok(text)
}

/// From which lines of a Swift file each method is, as it is told behind a run or a search; nothing of a script.
pub fn methods_text(alloc: Global, file: ScriptFile<'_>) -> Result<Vec<u8>, AllocError> {
    let lines = places_text(alloc, file.name, file.places)?;
    under(alloc, "\nmethods\n", &lines)
}

// The method of the turn that a text explains: the fourth word of its first line.
fn method_in(said: &[u8]) -> &str {
    match str::from_utf8(said) {
        Ok(text) => text.split(' ').nth(3).unwrap_or(""),
        Err(_) => "",
    }
}

/// From which lines of a Swift file the turn's method is that a text explains, as it is told behind it; nothing of a script.
pub fn method_text(
    alloc: Global,
    file: ScriptFile<'_>,
    said: &[u8],
) -> Result<Vec<u8>, AllocError> {
    let name = method_in(said).as_bytes();
    let line = method_line(alloc, file.name, name, file.places)?;
    under(alloc, "file\n", &line)
}
