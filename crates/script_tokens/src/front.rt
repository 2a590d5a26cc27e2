//! What stands at the front of a text.

ghost use Rattle.std.specs.Prelude.{◌≡◌, ◌≤◌, ◌<◌, length, drop};
ghost use Rattle.std.specs.List.{prefix_len};
ghost use Rattle.std.specs.Option.{option_map};
ghost use Rattle.script_tokens.specs.Bytes.{is_no_line_feed};
ghost use Rattle.script_tokens.specs.Lexes.{pair_of, single_of, mark_at, front_of};
ghost use Rattle.script_tokens.specs.Pieces.{lexeme_piece};

use crate::class::{digit, digits_len, letter, line_len, name_len, space};
use crate::lexeme::Lexeme;
use crate::mark::Mark;
use crate::number::number;
use crate::word::word;

/// The mark of two bytes.
fn pair(first: u8, second: u8) -> Option<Mark>
    ensures { result ≡ pair_of first second }
{
    match (first, second) {
        (b'=', b'=') => Some(Mark::Equal),
        (b'!', b'=') => Some(Mark::Unequal),
        (b'<', b'=') => Some(Mark::AtMost),
        (b'>', b'=') => Some(Mark::AtLeast),
        (b'&', b'&') => Some(Mark::And),
        (b'|', b'|') => Some(Mark::Or),
        _ => None,
    }
}

/// The mark of one byte.
fn single(byte: u8) -> Option<Mark>
    ensures { result ≡ single_of byte }
{
    match byte {
        b'(' => Some(Mark::Open),
        b')' => Some(Mark::Close),
        b'{' => Some(Mark::OpenBrace),
        b'}' => Some(Mark::CloseBrace),
        b';' => Some(Mark::Semicolon),
        b',' => Some(Mark::Comma),
        b'.' => Some(Mark::Dot),
        b'=' => Some(Mark::Assign),
        b'!' => Some(Mark::Bang),
        b'+' => Some(Mark::Plus),
        b'-' => Some(Mark::Minus),
        b'*' => Some(Mark::Times),
        b'<' => Some(Mark::Less),
        b'>' => Some(Mark::Greater),
        b'@' => Some(Mark::At),
        _ => None,
    }
}

/// What is left of a text from its first LF on.
fn line_end(bytes: &[u8]) -> &[u8]
    ensures end { result.now ≡ drop (prefix_len is_no_line_feed bytes.now) bytes.now }
    ensures shorter { length result.now ≤ length bytes.now }
{
    let (_, after) = bytes.split_at(line_len(bytes));
    after
}

/// What a byte that begins no number, word or white space begins: a mark of two bytes, a comment, a mark of one
/// byte, or nothing. Also what is after it.
#[tactic(auto, unfolding(crate::specs::Lexes::mark_at))]
fn mark(first: u8, rest: &[u8]) -> (Option<Lexeme<'_>>, &[u8])
    ensures front { (option_map lexeme_piece result.0, result.1.now) ≡ mark_at first rest.now }
    ensures shorter { length result.1.now ≤ length rest.now }
{
    let alone = match single(first) {
        Some(mark) => Lexeme::Sign(mark),
        None => Lexeme::Stray,
    };
    match rest {
        [] => (Some(alone), rest),
        [second, behind @ ..] => match pair(first, *second) {
            Some(mark) => (Some(Lexeme::Sign(mark)), behind),
            None => {
                if first == b'/' && *second == b'/' {
                    (None, line_end(behind))
                } else {
                    (Some(alone), rest)
                }
            }
        },
    }
}

/// The lexeme at the front, or none where what stands there separates tokens, and what is after it.
#[tactic(auto, unfolding(crate::specs::Lexes::front_at))]
pub(crate) fn front(bytes: &[u8]) -> (Option<Lexeme<'_>>, &[u8])
    requires { 0 < length bytes.now }
    ensures front { (option_map lexeme_piece result.0, result.1.now) ≡ front_of bytes.now }
    ensures shorter { length result.1.now < length bytes.now }
{
    match bytes {
        [] => (None, bytes),
        [first, rest @ ..] => {
            if space(*first) {
                (None, rest)
            } else if digit(*first) {
                let (digits, after) = bytes.split_at(digits_len(bytes));
                (Some(number(digits)), after)
            } else if letter(*first) {
                let (name, after) = bytes.split_at(name_len(bytes));
                (Some(word(name)), after)
            } else {
                mark(*first, rest)
            }
        }
    }
}
