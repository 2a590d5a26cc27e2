//! Parts of the printed form of a script.

use crate::words::Words;
use std::alloc::{AllocError, Global};

// The place of the word `actor` of the actor at a place, in text order.
fn actor_word(printed: &Words<'_>, actor: usize) -> usize {
    let mut place = printed.find(b"actor", 0);
    for _ in 0..actor {
        place = printed.find(b"actor", place.saturating_add(1));
    }
    place
}

/// The place of the word `func` of a method of an actor; past the last word where it is not there.
pub(crate) fn method_word(printed: &Words<'_>, actor: usize, name: &[u8]) -> usize {
    for place in actor_word(printed, actor)..printed.len() {
        if printed.word(place) == b"func".as_slice()
            && printed.word(place.saturating_add(1)) == name
        {
            return place;
        }
    }
    printed.len()
}

// The place of the last word of the method whose word `func` stands at a place; past the last word where it is not there.
fn method_end(printed: &Words<'_>, word: usize) -> usize {
    let mut depth: usize = 0;
    for place in word..printed.len() {
        match printed.word(place) {
            b"{" => depth = depth.saturating_add(1),
            b"}" => {
                depth = depth.saturating_sub(1);
                if depth == 0 {
                    return place;
                }
            }
            _ => {}
        }
    }
    printed.len()
}

/// The text of the method whose word `func` stands at a place.
pub(crate) fn method_text<'a>(printed: &Words<'a>, word: usize) -> &'a [u8] {
    printed.from_to(word, method_end(printed, word))
}

// The place of the word that names a parameter of that method, by its place among them.
fn parameter_word(word: usize, place: usize) -> usize {
    // `func NAME ( A , B , C )`
    word.saturating_add(3)
        .saturating_add(place.saturating_mul(2))
}

// The places of the words that name the first `count` parameters of that method.
fn parameter_words(alloc: Global, word: usize, count: usize) -> Result<Vec<usize>, AllocError> {
    let mut found = Vec::with_capacity(alloc, count)?;
    for place in 0..count {
        found.push(parameter_word(word, place))?;
    }
    Ok(found)
}

// Whether a `let` makes a number, and not a task.
fn is_number(printed: &Words<'_>, word: usize) -> bool {
    // `let NAME = spawn`
    !matches!(printed.word(word.saturating_add(3)), b"spawn" | b"detach")
}

// The variable at this place has this word as its name: past the last word where another one has another name.
fn note_name(
    found: &mut Vec<usize>,
    printed: &Words<'_>,
    variable: usize,
    word: usize,
) -> Result<(), AllocError> {
    if variable >= found.len() {
        found.push(word)?;
    } else if printed.word(found[variable]) != printed.word(word) {
        found[variable] = printed.len();
    }
    Ok(())
}

// Where the names of that method's variables are looked for.
#[derive(Drop)]
struct NameSearch {
    // The place of the word that names each variable.
    found: Vec<usize>,
    // How many variables stand, and how many did before each block that is open.
    standing: usize,
    outer: Vec<usize>,
}

impl NameSearch {
    // Goes on with the word at a place.
    fn take(&mut self, printed: &Words<'_>, place: usize) -> Result<(), AllocError> {
        match printed.word(place) {
            b"{" => self.begin_block(),
            b"}" => {
                self.end_block();
                Ok(())
            }
            b"let" => self.add(printed, place),
            _ => Ok(()),
        }
    }

    fn begin_block(&mut self) -> Result<(), AllocError> {
        self.outer.push(self.standing)?;
        Ok(())
    }

    fn end_block(&mut self) {
        if let Some(standing) = self.outer.pop() {
            self.standing = standing;
        }
    }

    // The variable that the `let` at a place makes.
    fn add(&mut self, printed: &Words<'_>, place: usize) -> Result<(), AllocError> {
        if is_number(printed, place) {
            note_name(
                &mut self.found,
                printed,
                self.standing,
                place.saturating_add(1),
            )?;
            self.standing = self.standing.saturating_add(1);
        }
        Ok(())
    }
}

// The places of the words that name the variables of that method, which has so many parameters.
fn variable_words(
    alloc: Global,
    printed: &Words<'_>,
    word: usize,
    count: usize,
) -> Result<Vec<usize>, AllocError> {
    let mut search = NameSearch {
        found: parameter_words(alloc, word, count)?,
        standing: count,
        outer: Vec::new(alloc),
    };
    for place in word..method_end(printed, word) {
        search.take(printed, place)?;
    }
    let NameSearch { found, .. } = search;
    Ok(found)
}

/// The names of that method's variables, those of its `count` parameters first. A variable has the place that follows those which stand
/// where it is made, so variables of blocks that are not inside one another share places: where their names differ, an empty one stands
/// there.
pub(crate) fn variables_of<'a>(
    alloc: Global,
    printed: &Words<'a>,
    word: usize,
    count: usize,
) -> Result<Vec<&'a [u8]>, AllocError> {
    let words = variable_words(alloc, printed, word, count)?;
    let mut names = Vec::with_capacity(alloc, words.len())?;
    for place in &words {
        names.push(printed.word(*place))?;
    }
    Ok(names)
}
