//! Which braces and parentheses are open at a place.

ghost use Rattle.std.specs.Prelude.{MatchOption};
ghost use Rattle.script_context.specs.Declarations.{HasNoKey, IsLastKey};

use crate::spelled::{is_key, is_sign};
use script_tokens::{Keyword, Mark, Token};

/// How many of these marks are open before a place, each closed by its own.
fn depth(tokens: &[Token], place: usize, open: Mark, close: Mark) -> usize {
    let mut deep = 0usize;
    for at in 0..place {
        if is_sign(tokens, at, open) {
            deep = deep.saturating_add(1);
        } else if is_sign(tokens, at, close) {
            deep = deep.saturating_sub(1);
        }
    }
    deep
}

/// How many braces are open before a place.
pub fn braces_at(tokens: &[Token], place: usize) -> usize {
    depth(tokens, place, Mark::OpenBrace, Mark::CloseBrace)
}

// Where the innermost of these marks stands that is open before a place.
fn innermost(tokens: &[Token], place: usize, open: Mark, close: Mark) -> Option<usize> {
    let mut closed = 0usize;
    for at in (0..place).rev() {
        if is_sign(tokens, at, close) {
            closed = closed.saturating_add(1);
        } else if is_sign(tokens, at, open) {
            if closed == 0 {
                return Some(at);
            }
            closed -= 1;
        }
    }
    None
}

/// Where the innermost brace stands that is open before a place.
pub fn open_brace(tokens: &[Token], place: usize) -> Option<usize> {
    innermost(tokens, place, Mark::OpenBrace, Mark::CloseBrace)
}

/// Where the innermost parenthesis stands that is open before a place.
pub fn open_parenthesis(tokens: &[Token], place: usize) -> Option<usize> {
    innermost(tokens, place, Mark::Open, Mark::Close)
}

/// Where this keyword stands that begins the innermost open block of its kind: `group g {`, `assume B {` and `bind L = 1 {`.
pub fn open_block(tokens: &[Token], place: usize, keyword: Keyword) -> Option<usize> {
    let mut closed = 0usize;
    for at in (0..place).rev() {
        if is_sign(tokens, at, Mark::CloseBrace) {
            closed = closed.saturating_add(1);
        } else if is_sign(tokens, at, Mark::OpenBrace) {
            if closed > 0 {
                closed -= 1;
            } else if let Some(head) = head_of(tokens, at, keyword) {
                return Some(head);
            }
        }
    }
    None
}

// Where this keyword stands, if it begins the block of a brace: nothing between the two ends a statement.
fn head_of(tokens: &[Token], brace: usize, keyword: Keyword) -> Option<usize> {
    for at in (0..brace).rev() {
        if is_key(tokens, at, keyword) {
            return Some(at);
        }
        if is_sign(tokens, at, Mark::Semicolon)
            || is_sign(tokens, at, Mark::OpenBrace)
            || is_sign(tokens, at, Mark::CloseBrace)
        {
            return None;
        }
    }
    None
}

/// Where the last of this keyword before a place stands.
pub fn last_key(tokens: &[Token], place: usize, keyword: Keyword) -> Option<usize>
    ensures { MatchOption result (HasNoKey tokens.now place keyword) (IsLastKey tokens.now place keyword) }
{
    let mut at = place;
    while at > 0 {
        at -= 1;
        if is_key(tokens, at, keyword) {
            return Some(at);
        }
    }
    None
}

/// Where the first of this keyword stands, from a place on and before another.
pub fn first_key(tokens: &[Token], from: usize, to: usize, keyword: Keyword) -> Option<usize> {
    (from..to).find(|at| is_key(tokens, *at, keyword))
}

/// Where the declaration of a place begins: the last keyword of one that no brace holds.
pub fn declaration_of(tokens: &[Token], place: usize) -> usize {
    let mut from = 0;
    let mut deep = 0usize;
    for at in 0..place {
        if is_sign(tokens, at, Mark::OpenBrace) {
            deep = deep.saturating_add(1);
        } else if is_sign(tokens, at, Mark::CloseBrace) {
            deep = deep.saturating_sub(1);
        } else if deep == 0 && begins_declaration(tokens, at) {
            from = at;
        }
    }
    from
}

fn begins_declaration(tokens: &[Token], place: usize) -> bool {
    is_key(tokens, place, Keyword::Actor)
        || is_key(tokens, place, Keyword::Root)
        || is_key(tokens, place, Keyword::Local)
        || is_key(tokens, place, Keyword::Executor)
}

/// Where the next of this mark stands, from a place on; the number of tokens where none does.
pub fn next_sign(tokens: &[Token], from: usize, mark: Mark) -> usize {
    (from..tokens.len())
        .find(|at| is_sign(tokens, *at, mark))
        .unwrap_or(tokens.len())
}
