//! What stands at the front of a text.

ghost use Rattle.std.specs.Prelude.{◌≡◌, ◌≤◌, ◌<◌, false, length};
ghost use Rattle.swift_syntax.specs.Fronts.{block_comment_at, front_of, line_comment_at, number_before, number_of, other_at, pair_of, quoted_at, short_at, sign_as, sign_at, single_of, slashed_at, triple_of, word_as};
ghost use Rattle.swift_syntax.specs.Words.{word_of};

use crate::class::{blanks_len, digit, digits_len, letter, line_len, name_len, space};
use crate::sign::Sign;
use crate::token::TokenKind;
use crate::word::word_of;

/// What stands at the front of a text.
#[derive(Clone, Copy)]
pub(crate) enum Piece {
    /// White space, or a comment.
    Space,
    /// An LF.
    Line,
    /// A token.
    Token(TokenKind),
}

fn sign(sign: Sign) -> Piece
    ensures { result ≡ Piece.Token (TokenKind.Sign sign) }
{
    Piece::Token(TokenKind::Sign(sign))
}

// The sign of three bytes.
fn triple(first: u8, second: u8, third: u8) -> Option<Sign>
    ensures { result ≡ triple_of first second third }
{
    match (first, second, third) {
        (b'.', b'.', b'<') => Some(Sign::Below),
        (b'.', b'.', b'.') => Some(Sign::Through),
        _ => None,
    }
}

// The sign of two bytes.
fn pair(first: u8, second: u8) -> Option<Sign>
    ensures { result ≡ pair_of first second }
{
    match (first, second) {
        (b'=', b'=') => Some(Sign::Equal),
        (b'!', b'=') => Some(Sign::Unequal),
        (b'<', b'=') => Some(Sign::AtMost),
        (b'>', b'=') => Some(Sign::AtLeast),
        (b'&', b'&') => Some(Sign::And),
        (b'|', b'|') => Some(Sign::Or),
        (b'?', b'?') => Some(Sign::Coalesce),
        (b'-', b'>') => Some(Sign::Arrow),
        (b'+', b'=') => Some(Sign::AddAssign),
        (b'-', b'=') => Some(Sign::SubtractAssign),
        (b'*', b'=') => Some(Sign::MultiplyAssign),
        (b'/', b'=') => Some(Sign::Foreign),
        (b'%', b'=') => Some(Sign::Foreign),
        (b'<', b'<') => Some(Sign::Foreign),
        (b'>', b'>') => Some(Sign::Foreign),
        _ => None,
    }
}

// The sign of one byte.
fn single(byte: u8) -> Option<Sign>
    ensures { result ≡ single_of byte }
{
    match byte {
        b'(' => Some(Sign::Open),
        b')' => Some(Sign::Close),
        b'{' => Some(Sign::OpenBrace),
        b'}' => Some(Sign::CloseBrace),
        b'[' => Some(Sign::OpenBracket),
        b']' => Some(Sign::CloseBracket),
        b';' => Some(Sign::Semicolon),
        b',' => Some(Sign::Comma),
        b'.' => Some(Sign::Dot),
        b':' => Some(Sign::Colon),
        b'=' => Some(Sign::Assign),
        b'!' => Some(Sign::Bang),
        b'+' => Some(Sign::Plus),
        b'-' => Some(Sign::Minus),
        b'*' => Some(Sign::Times),
        b'<' => Some(Sign::Less),
        b'>' => Some(Sign::Greater),
        b'?' => Some(Sign::Question),
        b'$' => Some(Sign::Dollar),
        b'@' => Some(Sign::At),
        b'/' | b'%' | b'&' | b'|' | b'^' | b'~' => Some(Sign::Foreign),
        _ => None,
    }
}

// The sign of one byte, or a byte that begins nothing.
fn lone(byte: u8) -> Piece
    ensures { result ≡ sign_as (single_of byte) }
{
    match single(byte) {
        Some(found) => sign(found),
        None => Piece::Token(TokenKind::Stray),
    }
}

// A sign of one or two bytes, or a byte that begins nothing.
fn short_sign(first: u8, rest: &[u8]) -> (Piece, &[u8])
    ensures front { (result.0, result.1.now) ≡ short_at first rest.now }
    ensures shorter { length result.1.now ≤ length rest.now }
{
    match rest {
        [] => (lone(first), rest),
        [second, behind @ ..] => match pair(first, *second) {
            Some(found) => (sign(found), behind),
            None => (lone(first), rest),
        },
    }
}

// The longest sign at the front, or a byte that begins nothing.
#[tactic(auto, unfolding(crate::specs::Fronts::sign_at))]
fn any_sign(first: u8, rest: &[u8]) -> (Piece, &[u8])
    ensures front { (result.0, result.1.now) ≡ sign_at first rest.now }
    ensures shorter { length result.1.now ≤ length rest.now }
{
    match rest {
        [second, third, behind @ ..] => match triple(first, *second, *third) {
            Some(found) => (sign(found), behind),
            None => short_sign(first, rest),
        },
        _ => short_sign(first, rest),
    }
}

// A comment up to the end of its line, after its two slashes.
fn line_comment(bytes: &[u8]) -> (Piece, &[u8])
    ensures front { (result.0, result.1.now) ≡ line_comment_at bytes.now }
    ensures shorter { length result.1.now ≤ length bytes.now }
{
    let (_, said) = bytes.split_at(blanks_len(bytes));
    if said.starts_with(b"invariant:") {
        let (_, after) = said.split_at(10);
        return (Piece::Token(TokenKind::Invariant), after);
    }
    if said.starts_with(b"executor:") {
        let (_, after) = said.split_at(9);
        return (Piece::Token(TokenKind::Executor), after);
    }
    if said.starts_with(b"expect:") {
        let (_, after) = said.split_at(7);
        return (Piece::Token(TokenKind::Expect), after);
    }
    let (_, after) = bytes.split_at(line_len(bytes));
    (Piece::Space, after)
}

// A comment between `/*` and `*/`, after its first two bytes. A further `/*` in it is not taken.
fn block_comment(bytes: &[u8]) -> (Piece, &[u8])
    ensures front { (result.0, result.1.now) ≡ block_comment_at bytes.now }
    ensures shorter { length result.1.now ≤ length bytes.now }
{
    let mut rest = bytes;
    while let [first, second, after @ ..] = rest {
        if *first == b'*' && *second == b'/' {
            return (Piece::Space, after);
        }
        if *first == b'/' && *second == b'*' {
            return (Piece::Token(TokenKind::Stray), after);
        }
        let (_, behind) = rest.split_at(1);
        rest = behind;
    }
    let (_, end) = rest.split_at(rest.len());
    (Piece::Token(TokenKind::Stray), end)
}

// A string, after its first quotation mark.
fn quoted(bytes: &[u8]) -> (Piece, &[u8])
    ensures front { (result.0, result.1.now) ≡ quoted_at bytes.now false TokenKind.Text }
    ensures shorter { length result.1.now ≤ length bytes.now }
{
    let mut rest = bytes;
    let mut kind = TokenKind::Text;
    let mut is_escaped = false;
    while let [byte, after @ ..] = rest {
        if is_escaped {
            is_escaped = false;
            if *byte == b'(' {
                kind = TokenKind::Interpolated;
            }
        } else if *byte == b'"' {
            return (Piece::Token(kind), after);
        } else if *byte == b'\n' {
            return (Piece::Token(TokenKind::Stray), rest);
        } else {
            is_escaped = *byte == b'\\';
        }
        rest = after;
    }
    (Piece::Token(TokenKind::Stray), rest)
}

// The value of a number that these digits spell.
fn number(digits: &[u8]) -> TokenKind
    ensures { result ≡ number_of digits.now }
{
    let mut value: u64 = 0;
    for d in digits {
        if *d != b'_' {
            // A tenth of the greatest `Int`: with one more digit it would be too large.
            if value > 922337203685477580 {
                return TokenKind::Huge;
            }
            value = value * 10 + u64::from(d.saturating_sub(b'0'));
        }
    }
    if value > 9223372036854775807 {
        TokenKind::Huge
    } else {
        TokenKind::Number(value as i64)
    }
}

// Digits are no number where a letter stands right behind them, as in `0x10`.
fn number_piece(digits: &[u8], after: &[u8]) -> TokenKind
    ensures { result ≡ number_before digits.now after.now }
{
    match after {
        [byte, ..] => {
            if letter(*byte) {
                TokenKind::Stray
            } else {
                number(digits)
            }
        }
        [] => number(digits),
    }
}

fn word_kind(name: &[u8]) -> TokenKind
    ensures { result ≡ word_as (word_of name.now) }
{
    match word_of(name) {
        Some(word) => TokenKind::Key(word),
        None => TokenKind::Name,
    }
}

// What a slash begins: a comment, or a sign.
#[tactic(auto, unfolding(crate::specs::Fronts::slashed_at))]
fn slashed(first: u8, rest: &[u8]) -> (Piece, &[u8])
    ensures front { (result.0, result.1.now) ≡ slashed_at first rest.now }
    ensures shorter { length result.1.now ≤ length rest.now }
{
    if let [second, behind @ ..] = rest {
        if first == b'/' && *second == b'/' {
            return line_comment(behind);
        }
        if first == b'/' && *second == b'*' {
            return block_comment(behind);
        }
    }
    any_sign(first, rest)
}

// What a byte begins that is no letter or digit.
fn other_piece(first: u8, rest: &[u8]) -> (Piece, &[u8])
    ensures front { (result.0, result.1.now) ≡ other_at first rest.now }
    ensures shorter { length result.1.now ≤ length rest.now }
{
    if first == b'\n' {
        (Piece::Line, rest)
    } else if space(first) {
        (Piece::Space, rest)
    } else if first == b'"' {
        quoted(rest)
    } else {
        slashed(first, rest)
    }
}

/// What stands at the front, and what is after it.
#[tactic(auto, unfolding(crate::specs::Fronts::front_at))]
pub(crate) fn front(bytes: &[u8]) -> (Piece, &[u8])
    requires { 0 < length bytes.now }
    ensures front { (result.0, result.1.now) ≡ front_of bytes.now }
    ensures shorter { length result.1.now < length bytes.now }
{
    match bytes {
        [] => (Piece::Space, bytes),
        [first, rest @ ..] => {
            if digit(*first) {
                let (digits, after) = bytes.split_at(digits_len(bytes));
                (Piece::Token(number_piece(digits, after)), after)
            } else if letter(*first) {
                let (name, after) = bytes.split_at(name_len(bytes));
                (Piece::Token(word_kind(name)), after)
            } else {
                other_piece(*first, rest)
            }
        }
    }
}
