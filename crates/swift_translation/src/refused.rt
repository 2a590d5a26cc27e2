//! What helps where a file is refused.

use crate::line::{Line, line_at};
use crate::mistakes::mistake_help;
use swift_syntax::{Refusal, Rule};
use swift_types::limits::BYTES;

/// What to do about a refusal: a text of printable ASCII. Linear in the text.
pub fn refusal_help(text: &[u8], refusal: Refusal) -> &'static str {
    help_of(text, line_at(text, refusal.from), refusal)
}

// What to do.
fn help_of(text: &[u8], line: Line<'_>, refusal: Refusal) -> &'static str {
    if let Some(help) = help_by_place(text, line, refusal) {
        return help;
    }
    let many = refusal.to.saturating_sub(refusal.from);
    match mistake_help(refusal.rule, line.left, line.right, many) {
        Some(help) => help,
        None => refusal.rule.help(),
    }
}

// What to do, where more than the words beside what is blamed tells it.
fn help_by_place(text: &[u8], line: Line<'_>, refusal: Refusal) -> Option<&'static str> {
    let blamed = text.get(refusal.from..refusal.to).unwrap_or(b"");
    match refusal.rule {
        Rule::NotYet if blamed == b"do".as_slice() => Some(DO_HELP),
        Rule::TooLarge if text.len() > BYTES => Some(LONG_HELP),
        Rule::Unexpected if refusal.from >= text.len() => Some(end_help(text)),
        Rule::Unexpected if line.left.is_empty() && is_statement(blamed) => Some(MAIN_HELP),
        Rule::Outside if line.left.is_empty() && is_statement(blamed) => Some(MAIN_HELP),
        Rule::Unexpected => part_help(line.left, blamed),
        _ => None,
    }
}

// What to do about a text that ends too early.
fn end_help(text: &[u8]) -> &'static str {
    let has_main = (0..text.len()).any(|place| text[place..].starts_with(b"@main"));
    if has_main { BRACE_HELP } else { MAIN_HELP }
}

// Whether a word begins a statement.
fn is_statement(word: &[u8]) -> bool {
    const WORDS: [&[u8]; 8] = [
        b"await", b"try", b"print", b"Task", b"for", b"while", b"if", b"do",
    ];
    WORDS.iter().any(|each| *each == word)
}

// What to do about a token that has no end, or that gives a case a value.
fn part_help(left: &[u8], blamed: &[u8]) -> Option<&'static str> {
    match blamed {
        [b'/', b'*', ..] => Some(COMMENT_HELP),
        [b'"'] => Some(TEXT_HELP),
        [b'"', .., last] if *last != b'"' => Some(TEXT_HELP),
        [b'('] if left.trim_ascii_start().starts_with(b"case ") => Some(CASE_HELP),
        _ => None,
    }
}

// What to do about a `do` that is not taken.
const DO_HELP: &str =
    "what a `do` catches is a `try await` of a call or task behind `=`, `return` or nothing, in the `do` itself: put an `if`, a loop, `throw` and `async let` with it into a method or function that is `async throws`";

// What to do about a text that is too long.
const LONG_HELP: &str =
    "a file has at most 65,536 bytes: keep the actors and tasks that the question is about";

// What to do where a file has no `main`, or statements outside of it.
const MAIN_HELP: &str =
    "statements stand in `main`, which a file has once: `@main struct Main { static func main() async { .. } }`";

// What to do where a text ends inside of braces.
const BRACE_HELP: &str = "the file ends here, and some `{` is still open: write its `}`";

// What to do about a comment that does not end.
const COMMENT_HELP: &str = "the comment has no end: write `*/`";

// What to do about a text that does not end.
const TEXT_HELP: &str = "a text ends on its line, with a quote";

// What to do about a case of an enum with a value.
const CASE_HELP: &str =
    "a case has no value: write its name alone, and keep the value in a field of the actor";
