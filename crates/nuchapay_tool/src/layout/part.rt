//! What a token is to the layout.

use script_tokens::{Keyword, Mark, Token};

/// What a token is to the layout.
#[derive(Clone, Copy)]
pub(crate) enum LayoutPart {
    /// A name, a number or a keyword.
    Word,
    /// The keyword that an actor or a method begins with.
    Head,
    /// The keyword `else`.
    Else,
    /// The parenthesis of arguments or parameters, after a name.
    Open,
    /// A parenthesis round an expression.
    Round,
    /// A parenthesis that closes either.
    Close,
    /// The brace that a block or an actor begins with.
    OpenBrace,
    /// The brace that it ends with.
    CloseBrace,
    /// A semicolon.
    Semicolon,
    /// A comma.
    Comma,
    /// What binds to the token behind it without a space: a dot, which has none before it either.
    Dot,
    /// What binds to the token behind it without a space: `@`, and `-` and `!` in front of what they apply to.
    Prefix,
    /// A sign between two expressions, or that of an assignment.
    Infix,
}

// What a keyword is to the layout.
fn part_of_keyword(keyword: Keyword) -> LayoutPart {
    match keyword {
        Keyword::Actor | Keyword::Func => LayoutPart::Head,
        Keyword::Else => LayoutPart::Else,
        _ => LayoutPart::Word,
    }
}

// Whether an expression begins after a token, so that a sign there has nothing before it.
fn begins(before: &Token) -> bool {
    match before {
        Token::Sign(mark) => !matches!(mark, Mark::Close),
        Token::Key(Keyword::Priority | Keyword::Cancelled) => false,
        Token::Key(_) => true,
        _ => false,
    }
}

// What a mark is to the layout, by the token before it.
fn part_of_mark(before: &Token, mark: Mark) -> LayoutPart {
    match mark {
        Mark::Open if matches!(before, Token::Name(_)) => LayoutPart::Open,
        Mark::Open => LayoutPart::Round,
        Mark::Close => LayoutPart::Close,
        Mark::OpenBrace => LayoutPart::OpenBrace,
        Mark::CloseBrace => LayoutPart::CloseBrace,
        Mark::Semicolon => LayoutPart::Semicolon,
        Mark::Comma => LayoutPart::Comma,
        Mark::Dot => LayoutPart::Dot,
        Mark::At | Mark::Bang => LayoutPart::Prefix,
        Mark::Minus if begins(before) => LayoutPart::Prefix,
        _ => LayoutPart::Infix,
    }
}

/// What the token at a place is to the layout.
pub(crate) fn part_at(tokens: &[Token], place: usize) -> LayoutPart {
    let Some(token) = tokens.get(place) else {
        return LayoutPart::Word;
    };
    if place == 0 {
        return part_of(&Token::Stray, token);
    }
    part_of(&tokens[place - 1], token)
}

// What a token is to the layout, by the token before it.
fn part_of(before: &Token, token: &Token) -> LayoutPart {
    match token {
        Token::Key(keyword) => part_of_keyword(*keyword),
        Token::Sign(mark) => part_of_mark(before, *mark),
        _ => LayoutPart::Word,
    }
}
