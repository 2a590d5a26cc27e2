//! What declares a name, and where.

ghost use Rattle.std.specs.Prelude.{◌⊎◌, MatchOption, ◌≡◌, ◌≤◌, ◌<◌, ◌+◌, IsTrue, IfSome, Some};
ghost use Rattle.script_context.specs.Declarations.{Declares, called, HasNoKey, IsActorOf, IsDeclared, IsNamedAs};
ghost use Rattle.script_context.specs.Words.{name_at};
ghost use Rattle.script_tokens.specs.declared.keyword.Keyword.TheVariants.{Actor};

use crate::braces::{first_key, last_key, open_block};
use crate::spelled::{is_key, is_sign, name_at};
use script_tokens::{Keyword, Mark, Token};

/// What a name is declared as.
#[derive(Clone, Copy, PartialEq, Eq)]
pub enum Declared {
    Executor,
    Local,
    Actor,
    Root,
    Field,
    Method,
    Parameter,
    Variable,
    Task,
    Group,
}

impl Declared {
    /// What it is called.
    pub fn called(self) -> &'static str
        ensures { result.now ≡ called self }
    {
        match self {
            Declared::Executor => "an executor",
            Declared::Local => "a task local",
            Declared::Actor => "an actor",
            Declared::Root => "a root",
            Declared::Field => "a field",
            Declared::Method => "a method",
            Declared::Parameter => "a parameter",
            Declared::Variable => "a variable",
            Declared::Task => "a task",
            Declared::Group => "a group",
        }
    }

    /// What is said of the place where it is declared.
    pub fn label(self) -> &'static str {
        match self {
            Declared::Executor => "this executor is declared here",
            Declared::Local => "this task local is declared here",
            Declared::Actor => "this actor is declared here",
            Declared::Root => "this root is declared here",
            Declared::Field => "this field is declared here",
            Declared::Method => "this method is declared here",
            Declared::Parameter => "this parameter is declared here",
            Declared::Variable => "this variable is declared here",
            Declared::Task => "this task is declared here",
            Declared::Group => "this group is declared here",
        }
    }

    /// Whether it stands in a method, and for a part of it.
    pub fn is_inner(self) -> bool {
        matches!(
            self,
            Declared::Parameter | Declared::Variable | Declared::Task | Declared::Group
        )
    }
}

/// What the name at a place is declared as there; none where it is used.
pub fn declared_at(tokens: &[Token], place: usize) -> Option<Declared>
    ensures { IfSome result (IsDeclared tokens.now place) }
{
    let _ = name_at(tokens, place)?;
    let before = place.checked_sub(1)?;
    match tokens.get(before) {
        Some(Token::Key(keyword)) => by_keyword(tokens, place, *keyword),
        Some(Token::Sign(Mark::Open | Mark::Comma)) => {
            if is_parameter(tokens, place) {
                Some(Declared::Parameter)
            } else {
                None
            }
        }
        _ => None,
    }
}

fn by_keyword(tokens: &[Token], place: usize, keyword: Keyword) -> Option<Declared>
    ensures { IfSome result (Declares keyword) }
{
    match keyword {
        Keyword::Executor => Some(Declared::Executor),
        Keyword::Local => Some(Declared::Local),
        Keyword::Actor => Some(Declared::Actor),
        Keyword::Root => Some(Declared::Root),
        Keyword::Var => Some(Declared::Field),
        Keyword::Func => Some(Declared::Method),
        Keyword::Group => Some(Declared::Group),
        Keyword::Let => Some(let_of(tokens, place)),
        _ => None,
    }
}

// What a `let` declares: a task where one is made.
fn let_of(tokens: &[Token], place: usize) -> Declared
    ensures { (result ≡ Declared.Variable) ⊎ (result ≡ Declared.Task) }
{
    let value = place.saturating_add(2);
    if is_key(tokens, value, Keyword::Spawn) || is_key(tokens, value, Keyword::Detach) {
        Declared::Task
    } else {
        Declared::Variable
    }
}

// Whether the parenthesis before a name is that of a method's head.
fn is_parameter(tokens: &[Token], place: usize) -> bool {
    for at in (0..place).rev() {
        if is_sign(tokens, at, Mark::Open) {
            return at >= 2 && is_key(tokens, at - 2, Keyword::Func);
        }
        if name_at(tokens, at).is_none() && !is_sign(tokens, at, Mark::Comma) {
            return false;
        }
    }
    false
}

/// The place of an actor's name, by the name: where it is declared first.
pub fn actor_named(tokens: &[Token], name: &[u8]) -> Option<usize>
    ensures { IfSome result (λ at. IsNamedAs tokens.now at name.now Declared.Actor) }
{
    named_as(tokens, 0, tokens.len(), name, Declared::Actor)
}

/// Where a name is first declared as this, from a place on and before another.
pub fn named_as(
    tokens: &[Token],
    from: usize,
    to: usize,
    name: &[u8],
    kind: Declared,
) -> Option<usize>
    ensures named { IfSome result (λ at. IsNamedAs tokens.now at name.now kind) }
    ensures from { IfSome result (λ at. from ≤ at) }
    ensures to { IfSome result (λ at. at < to) }
{
    (from..to).find(|at| is_named(tokens, *at, name) && declared_at(tokens, *at) == Some(kind))
}

/// Whether this name stands at a place.
pub fn is_named(tokens: &[Token], place: usize, name: &[u8]) -> bool
    ensures { IsTrue result → name_at tokens.now place ≡ Some name.now }
{
    match name_at(tokens, place) {
        Some(found) => found == name,
        None => false,
    }
}

/// The place of the name of the actor in which a place lies: of the last one before it.
pub fn actor_of(tokens: &[Token], place: usize) -> Option<usize>
    ensures { MatchOption result (HasNoKey tokens.now place Actor) (IsActorOf tokens.now place) }
{
    match last_key(tokens, place, Keyword::Actor) {
        Some(keyword) => Some(keyword + 1),
        None => None,
    }
}

/// Where what an actor declares ends, by the place of its name: at the next actor, or at the end. Roots and others that stand between
/// declare no fields and no methods.
pub fn actor_end(tokens: &[Token], actor: usize) -> usize {
    first_key(tokens, actor, tokens.len(), Keyword::Actor).unwrap_or(tokens.len())
}

/// The place of the name of the actor whose fields can be named at a place: of the `assume` around it, or of its own.
pub fn fields_of(tokens: &[Token], place: usize) -> Option<usize> {
    match open_block(tokens, place, Keyword::Assume) {
        Some(keyword) => actor_named(tokens, name_at(tokens, keyword.saturating_add(1))?),
        None => actor_of(tokens, place),
    }
}

/// Whether what is declared at a place in a method still stands at a later one of the same method: no block that holds it was closed.
pub fn still_stands(tokens: &[Token], declared: usize, kind: Declared, place: usize) -> bool {
    let mut deep = 0usize;
    for at in declared..place {
        if is_key(tokens, at, Keyword::Func) {
            return false;
        }
        if is_sign(tokens, at, Mark::OpenBrace) {
            deep = deep.saturating_add(1);
        } else if is_sign(tokens, at, Mark::CloseBrace) {
            if deep == 0 {
                return false;
            }
            deep -= 1;
            if deep == 0 && kind == Declared::Group {
                return false;
            }
        }
    }
    kind == Declared::Parameter || deep > 0 || kind != Declared::Group
}

/// Whether what is declared at one place can be named at another by its kind: where its actor or its method is that of the place.
pub fn is_seen(tokens: &[Token], declared: usize, kind: Declared, place: usize) -> bool {
    match kind {
        Declared::Field => match fields_of(tokens, place) {
            Some(actor) => actor < declared && declared < actor_end(tokens, actor),
            None => false,
        },
        Declared::Method => true,
        _ if kind.is_inner() => { declared < place && still_stands(tokens, declared, kind, place) }
        _ => true,
    }
}
