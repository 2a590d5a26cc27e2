//! Expectations in the comments of a script.

ghost use Rattle.std.specs.Prelude.{◌≡◌, ◌≤◌, ◌++◌, IfOk, OnOk, Some, length, map, option_to_list};
ghost use Rattle.std.specs.List.{prefix_len};
ghost use Rattle.std.specs.Option.{option_map};
ghost use Rattle.script_tokens.specs.Bytes.{is_name_byte, is_no_line_feed};
ghost use Rattle.expectations.specs.Comments.{after_word, begins_name, comment_in, expected, expected_first, expected_here, expected_in, is_blank, unblanked};

use std::alloc::{AllocError, Global};

/// The text of an expectation in a comment, and where it stands.
#[derive(Clone, Copy)]
pub(crate) struct Commented<'a> {
    pub text: &'a [u8],
    /// Its line, from 1.
    pub line: usize,
    /// How many bytes of its line stand before it.
    pub before: usize,
}

// Whether a byte may stand in a name.
fn name_byte(byte: u8) -> bool
    ensures { result ≡ is_name_byte byte }
{
    byte.is_ascii_alphanumeric() || byte == b'_'
}

// Whether a text begins with a byte of a name.
fn begins_name(bytes: &[u8]) -> bool
    ensures { result ≡ begins_name bytes.now }
{
    match bytes {
        [first, ..] => name_byte(*first),
        [] => false,
    }
}

// How many bytes stand before the first LF.
fn line_len(bytes: &[u8]) -> usize
    ensures len { result ≡ prefix_len is_no_line_feed bytes.now }
    ensures within { result ≤ length bytes.now }
{
    bytes.iter().take_while(|b| **b != b'\n').count()
}

// How many blanks stand at the front.
fn blank_len(bytes: &[u8]) -> usize
    ensures len { result ≡ prefix_len is_blank bytes.now }
    ensures within { result ≤ length bytes.now }
{
    bytes
        .iter()
        .take_while(|b| **b == b' ' || **b == b'\t')
        .count()
}

// The comment of a line, without its two slashes.
fn comment_in(line: &[u8]) -> Option<&[u8]>
    ensures { option_map (λ x. x.now) result ≡ comment_in line.now }
{
    let mut rest = line;
    'bytes: while let [first, after @ ..] = rest {
        if *first == b'/'
            && let [b'/', comment @ ..] = after
        {
            return Some(comment);
        }
        rest = after;
    }
    None
}

// A text without the blanks at its front.
fn unblanked(bytes: &[u8]) -> &[u8]
    ensures { result.now ≡ unblanked bytes.now }
{
    &bytes[blank_len(bytes)..]
}

// What is after the word `expect` at the front, and blanks.
fn after_word(bytes: &[u8]) -> Option<&[u8]>
    ensures { option_map (λ x. x.now) result ≡ after_word bytes.now }
{
    if bytes.starts_with(b"expect") && !begins_name(&bytes[6..]) {
        Some(unblanked(&bytes[6..]))
    } else {
        None
    }
}

// The expectation of a comment.
fn expected_in(comment: &[u8]) -> Option<&[u8]>
    ensures { option_map (λ x. x.now) result ≡ expected_in (Some comment.now) }
{
    match comment {
        [b':', rest @ ..] => after_word(unblanked(rest)),
        _ => None,
    }
}

// The expectation of the line at the front of a text.
fn expected_first(text: &[u8]) -> Option<&[u8]>
    ensures { option_map (λ x. x.now) result ≡ expected_first text.now }
{
    let comment = comment_in(&text[..line_len(text)])?;
    expected_in(comment)
}

// The expectation of the line at the front of a text, where the line begins there.
fn expected_here(begins: bool, text: &[u8]) -> Option<&[u8]>
    ensures { option_map (λ x. x.now) result ≡ expected_here begins text.now }
{
    if begins { expected_first(text) } else { None }
}

// One more expectation, where there is one: that of a line which stands at the front of `rest`.
fn add<'a>(
    found: &mut Vec<Commented<'a>>,
    expectation: Option<&'a [u8]>,
    line: usize,
    rest: &[u8],
) -> Result<(), AllocError>
    ensures { OnOk result (map (λ c. c.text.now) found.new.items ≡ map (λ c. c.text.now) found.old.items ++ option_to_list (option_map (λ x. x.now) expectation.entry)) }
{
    if let Some(text) = expectation {
        let before = line_len(rest).saturating_sub(text.len());
        found.push(Commented { text, line, before })?;
    }
    Ok(())
}

/// The expectations in the comments of a script, in order. Linear in the text.
///
/// # Errors
///
/// `AllocError` where no memory was left.
pub(crate) fn in_comments(alloc: Global, text: &[u8]) -> Result<Vec<Commented<'_>>, AllocError>
    ensures { IfOk result (λ found. map (λ c. c.text.now) found.items ≡ expected text.now) }
{
    let mut found = Vec::new(alloc);
    let mut begins = true;
    let mut line: usize = 1;
    for at in 0..text.len() {
        let rest = &text[at..];
        add(&mut found, expected_here(begins, rest), line, rest)?;
        begins = text[at] == b'\n';
        if begins {
            line = line.saturating_add(1);
        }
    }
    Ok(found)
}
