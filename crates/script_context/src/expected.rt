//! What could stand at a place.

ghost use Rattle.std.specs.Prelude.{◌≡◌, IfOk, IsTrue, map};
ghost use Rattle.script_tokens.specs.Pieces.{piece};
ghost use Rattle.script_parser.specs.declared.fault.Kind.TheVariants.{EndsEarly};
ghost use Rattle.script_context.specs.BegunInside.{IsBegun};

use crate::blamed::Blamed;
use crate::braces::{declaration_of, last_key, next_sign};
use script_parser::{Kind, ParseFault, ReadError, parse};
use script_tokens::{Keyword, Mark, NameText, Token};
use std::alloc::{AllocError, Global};

/// A token that could stand at a place.
#[derive(Clone, Copy)]
pub enum Candidate {
    /// Any name.
    Name,
    /// Any number.
    Number,
    /// This keyword.
    Key(Keyword),
    /// This mark.
    Sign(Mark),
}

static CANDIDATES: [Candidate; 59] = [
    Candidate::Name,
    Candidate::Number,
    Candidate::Key(Keyword::Actor),
    Candidate::Key(Keyword::Add),
    Candidate::Key(Keyword::Assume),
    Candidate::Key(Keyword::At),
    Candidate::Key(Keyword::Await),
    Candidate::Key(Keyword::Background),
    Candidate::Key(Keyword::Bind),
    Candidate::Key(Keyword::Cancel),
    Candidate::Key(Keyword::Cancelled),
    Candidate::Key(Keyword::Check),
    Candidate::Key(Keyword::Detach),
    Candidate::Key(Keyword::Else),
    Candidate::Key(Keyword::Executor),
    Candidate::Key(Keyword::Fifo),
    Candidate::Key(Keyword::Func),
    Candidate::Key(Keyword::Group),
    Candidate::Key(Keyword::High),
    Candidate::Key(Keyword::If),
    Candidate::Key(Keyword::Invariant),
    Candidate::Key(Keyword::Let),
    Candidate::Key(Keyword::Local),
    Candidate::Key(Keyword::Low),
    Candidate::Key(Keyword::Medium),
    Candidate::Key(Keyword::Next),
    Candidate::Key(Keyword::On),
    Candidate::Key(Keyword::Pinned),
    Candidate::Key(Keyword::Priority),
    Candidate::Key(Keyword::Return),
    Candidate::Key(Keyword::Root),
    Candidate::Key(Keyword::Spawn),
    Candidate::Key(Keyword::Task),
    Candidate::Key(Keyword::Throw),
    Candidate::Key(Keyword::Unless),
    Candidate::Key(Keyword::Var),
    Candidate::Key(Keyword::While),
    Candidate::Key(Keyword::Yield),
    Candidate::Sign(Mark::Open),
    Candidate::Sign(Mark::Close),
    Candidate::Sign(Mark::OpenBrace),
    Candidate::Sign(Mark::CloseBrace),
    Candidate::Sign(Mark::Semicolon),
    Candidate::Sign(Mark::Comma),
    Candidate::Sign(Mark::Dot),
    Candidate::Sign(Mark::Assign),
    Candidate::Sign(Mark::Bang),
    Candidate::Sign(Mark::Plus),
    Candidate::Sign(Mark::Minus),
    Candidate::Sign(Mark::Times),
    Candidate::Sign(Mark::Equal),
    Candidate::Sign(Mark::Unequal),
    Candidate::Sign(Mark::Less),
    Candidate::Sign(Mark::AtMost),
    Candidate::Sign(Mark::Greater),
    Candidate::Sign(Mark::AtLeast),
    Candidate::Sign(Mark::And),
    Candidate::Sign(Mark::Or),
    Candidate::Sign(Mark::At),
];

impl Candidate {
    /// How it is spelled; a name as `x`, a number as `1`.
    pub fn spelling(self) -> &'static [u8] {
        match self {
            Candidate::Name => b"x",
            Candidate::Number => b"1",
            Candidate::Key(keyword) => keyword.spelling(),
            Candidate::Sign(mark) => mark.spelling(),
        }
    }

    fn token(self, alloc: Global) -> Result<Token, AllocError> {
        match self {
            Candidate::Name => Ok(Token::Name(NameText::from_slice(alloc, b"x")?)),
            Candidate::Number => Ok(Token::Num(1)),
            Candidate::Key(keyword) => Ok(Token::Key(keyword)),
            Candidate::Sign(mark) => Ok(Token::Sign(mark)),
        }
    }
}

/// What could stand at a place, as the grammar has it.
#[derive(Drop)]
pub struct Expected {
    /// In the order of the keywords and the marks, names and numbers first.
    pub candidates: Vec<Candidate>,
}

impl Expected {
    /// Whether what is spelled so could stand there; a name as `x`, a number as `1`.
    pub fn has(&self, spelling: &str) -> bool {
        for candidate in &self.candidates {
            if candidate.spelling() == spelling.as_bytes() {
                return true;
            }
        }
        false
    }
}

fn copy_of(alloc: Global, token: &Token) -> Result<Token, AllocError> {
    match token {
        Token::Num(number) => Ok(Token::Num(*number)),
        Token::Huge => Ok(Token::Huge),
        Token::Name(text) => Ok(Token::Name(NameText::from_slice(alloc, text)?)),
        Token::Key(keyword) => Ok(Token::Key(*keyword)),
        Token::Sign(mark) => Ok(Token::Sign(*mark)),
        Token::Stray => Ok(Token::Stray),
    }
}

// The tokens before a place that say what could stand there: of its declaration from `from` on the head and the last method alone, since
// the methods of an actor do not depend on one another.
fn probe_of(
    alloc: Global,
    tokens: &[Token],
    from: usize,
    to: usize,
) -> Result<Vec<Token>, AllocError> {
    let method = last_key(tokens, to, Keyword::Func).unwrap_or(0);
    let head = next_sign(tokens, from, Mark::OpenBrace);
    let mut found = Vec::new(alloc);
    for at in from..to {
        if (at <= head || at >= method)
            && let Some(token) = tokens.get(at)
        {
            found.push(copy_of(alloc, token)?)?;
        }
    }
    Ok(found)
}

fn is_at_end(fault: ParseFault) -> bool
    ensures { IsTrue result → fault.kind ≡ EndsEarly }
{
    match fault.kind {
        Kind::EndsEarly => true,
        _ => false,
    }
}

// Whether tokens are a script, or the beginning of one.
fn begins_script(alloc: Global, tokens: &[Token]) -> Result<bool, AllocError>
    ensures { IfOk result (λ begins. IsTrue begins → IsBegun (map piece tokens.now)) }
{
    let error = match parse(alloc, tokens) {
        Ok(_) => return Ok(true),
        Err(error) => error,
    };
    match error {
        ReadError::Memory => Err(AllocError),
        ReadError::Fault(fault) => Ok(is_at_end(fault)),
    }
}

/// What could stand at the place that is blamed, after the tokens of its method or its declaration. In the time of some sixty readings of
/// these.
pub fn find_expected(alloc: Global, blamed: Blamed<'_>) -> Result<Expected, AllocError> {
    let tokens = blamed.tokens;
    let to = blamed.place.min(tokens.len());
    let mut probe = probe_of(alloc, tokens, declaration_of(tokens, to), to)?;
    let mut candidates = Vec::new(alloc);
    for candidate in &CANDIDATES {
        probe.push(candidate.token(alloc)?)?;
        if begins_script(alloc, &probe)? {
            candidates.push(*candidate)?;
        }
        let _ = probe.pop();
    }
    Ok(Expected { candidates })
}
