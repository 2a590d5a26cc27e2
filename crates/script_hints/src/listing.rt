//! What is said of what could stand at a place.

use crate::text::HintText;
use script_context::{Blamed, Candidate, Expected};
use script_tokens::{Keyword, Mark, Token};
use std::alloc::{AllocError, Global};

// What many candidates at once are called.
#[derive(Clone, Copy)]
struct Kinds {
    is_statement: bool,
    is_expression: bool,
    is_operator: bool,
    is_number: bool,
}

fn kinds_of(expected: &Expected) -> Kinds {
    let is_number = expected.has("1");
    Kinds {
        is_statement: expected.has("let"),
        is_expression: is_number && expected.has("(") && expected.has("x"),
        is_operator: expected.has("+"),
        is_number,
    }
}

// Whether a candidate is one of what is named by one word.
fn is_covered(kinds: Kinds, candidate: Candidate) -> bool {
    match candidate {
        Candidate::Name => kinds.is_statement || kinds.is_expression,
        Candidate::Number => true,
        Candidate::Key(keyword) => is_key_covered(kinds, keyword),
        Candidate::Sign(mark) => is_sign_covered(kinds, mark),
    }
}

fn is_key_covered(kinds: Kinds, keyword: Keyword) -> bool {
    (kinds.is_statement && begins_statement(keyword)) || (kinds.is_expression && is_atom(keyword))
}

fn is_sign_covered(kinds: Kinds, mark: Mark) -> bool {
    match mark {
        Mark::Minus => kinds.is_operator || kinds.is_number,
        Mark::Open | Mark::Bang | Mark::At => kinds.is_expression,
        _ => kinds.is_operator && is_operator(mark),
    }
}

fn begins_statement(keyword: Keyword) -> bool {
    !matches!(
        keyword,
        Keyword::Else | Keyword::Func | Keyword::Var | Keyword::Invariant
    )
}

fn is_atom(keyword: Keyword) -> bool {
    matches!(keyword, Keyword::Priority | Keyword::Cancelled)
}

fn is_operator(mark: Mark) -> bool {
    match mark {
        Mark::Plus | Mark::Minus | Mark::Times | Mark::And | Mark::Or => true,
        Mark::Equal | Mark::Unequal => true,
        Mark::Less | Mark::AtMost | Mark::Greater | Mark::AtLeast => true,
        _ => false,
    }
}

// Words in a list, with commas between them, and `or` before the last one.
#[derive(Drop)]
struct Listing {
    text: HintText,
    // How many are still to come.
    left: usize,
    is_begun: bool,
}

impl Listing {
    fn comma(&mut self) {
        if self.is_begun {
            self.text.say(if self.left <= 1 { " or " } else { ", " });
        }
        self.is_begun = true;
        self.left = self.left.saturating_sub(1);
    }

    fn say(&mut self, is_there: bool, words: &str) {
        if is_there {
            self.comma();
            self.text.say(words);
        }
    }
}

// How many words a list has.
fn length_of(kinds: Kinds, expected: &Expected) -> usize {
    let mut count = 0usize;
    for candidate in &expected.candidates {
        if !is_covered(kinds, *candidate) {
            count = count.saturating_add(1);
        }
    }
    let values = kinds.is_expression || kinds.is_number;
    count
        .saturating_add(usize::from(kinds.is_statement))
        .saturating_add(usize::from(values))
        .saturating_add(usize::from(kinds.is_operator))
}

/// What could stand at the place that is blamed, and what stands there; empty where nothing could.
pub(crate) fn list_expected(
    alloc: Global,
    blamed: Blamed<'_>,
    expected: &Expected,
) -> Result<Vec<u8>, AllocError> {
    let kinds = kinds_of(expected);
    let mut list = Listing {
        text: HintText::new(alloc),
        left: length_of(kinds, expected),
        is_begun: false,
    };
    if list.left > 0 {
        list.text.say("expected ");
        say_kinds(&mut list, kinds, expected);
        say_others(&mut list, kinds, expected, blamed);
        say_found(&mut list.text, blamed);
    }
    list.text.finish()
}

// What many candidates at once are called.
fn say_kinds(list: &mut Listing, kinds: Kinds, expected: &Expected) {
    list.say(kinds.is_statement, statement_called(expected));
    list.say(kinds.is_expression, "an expression");
    list.say(kinds.is_number && !kinds.is_expression, "a number");
    list.say(kinds.is_operator, operator_called(expected));
}

// All other candidates.
fn say_others(list: &mut Listing, kinds: Kinds, expected: &Expected, blamed: Blamed<'_>) {
    for candidate in &expected.candidates {
        if !is_covered(kinds, *candidate) {
            say_candidate(list, *candidate, blamed);
        }
    }
}

// What a statement is called: not all of them stand in a group or an `assume`.
fn statement_called(expected: &Expected) -> &'static str {
    if expected.has("return") {
        "a statement"
    } else {
        "another statement"
    }
}

// What an operator is called: behind a comparison none stands that compares.
fn operator_called(expected: &Expected) -> &'static str {
    if expected.has("<") {
        "an operator"
    } else {
        "an operator that does not compare"
    }
}

fn say_candidate(list: &mut Listing, candidate: Candidate, blamed: Blamed<'_>) {
    list.comma();
    match candidate {
        Candidate::Name => list.text.say(name_called(blamed)),
        _ => list.text.quote(candidate.spelling()),
    }
}

// What a name is called that could stand at the place, by what stands before it.
fn name_called(blamed: Blamed<'_>) -> &'static str {
    let Some(before) = blamed.place.checked_sub(1) else {
        return "a name";
    };
    match blamed.tokens.get(before) {
        Some(Token::Key(keyword)) => name_after(*keyword),
        Some(Token::Sign(mark)) => name_behind(*mark),
        _ => "a name",
    }
}

fn name_behind(mark: Mark) -> &'static str {
    match mark {
        Mark::Dot => "a method's name",
        Mark::At => "a task local's name",
        Mark::Open | Mark::Comma => "a parameter's name",
        Mark::Assign => "an actor's name",
        _ => "a name",
    }
}

fn name_after(keyword: Keyword) -> &'static str {
    match keyword {
        Keyword::Func => "a method's name",
        Keyword::Actor | Keyword::Assume | Keyword::Await => "an actor's name",
        Keyword::Spawn | Keyword::Detach | Keyword::Unless => "an actor's name",
        Keyword::Var => "a field's name",
        Keyword::Let => "a variable's name",
        Keyword::Root => "a root's name",
        Keyword::Executor | Keyword::On => "an executor's name",
        Keyword::Local | Keyword::Bind => "a task local's name",
        Keyword::Group | Keyword::Add | Keyword::Next => "a group's name",
        Keyword::Task => "a task's name",
        Keyword::Cancel => "the name of a task or a group",
        _ => "a name",
    }
}

fn say_found(text: &mut HintText, blamed: Blamed<'_>) {
    match blamed.tokens.get(blamed.place) {
        Some(token) => {
            text.say(found_called(token));
            text.quote(blamed.found);
        }
        None => text.say(", found the end of the text"),
    }
}

fn found_called(token: &Token) -> &'static str {
    match token {
        Token::Key(_) => ", found the keyword ",
        Token::Name(_) => ", found the name ",
        Token::Num(_) => ", found the number ",
        Token::Huge => ", found a number that is too large, ",
        _ => ", found ",
    }
}
