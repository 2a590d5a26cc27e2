//! Which words are keywords.

ghost use Rattle.std.specs.Prelude.{◌≡◌};
ghost use Rattle.std.specs.Str.{bytes_eq};
ghost use Rattle.script_tokens.specs.Keywords.{keyword_of, keyword_of_two, keyword_of_three, keyword_of_four, keyword_of_five, keyword_of_six, keyword_of_eight, keyword_of_nine, keyword_of_ten};
ghost use Rattle.script_tokens.specs.Lexes.{word_of};
ghost use Rattle.script_tokens.specs.Pieces.{lexeme_piece};

use crate::keyword::Keyword;
use crate::lexeme::Lexeme;

/// The lexeme of a word.
#[tactic(auto, unfolding(crate::specs::Lexes::word_of))]
pub(crate) fn word(bytes: &[u8]) -> Lexeme<'_>
    ensures { lexeme_piece result ≡ word_of bytes.now }
{
    match keyword(bytes) {
        Some(keyword) => Lexeme::Key(keyword),
        None => Lexeme::Name(bytes),
    }
}

/// The keyword that a word is. Words of other lengths are not compared.
fn keyword(word: &[u8]) -> Option<Keyword>
    ensures { result ≡ keyword_of word.now }
{
    match word.len() {
        2 => of_two(word),
        3 => of_three(word),
        4 => of_four(word),
        5 => of_five(word),
        6 => of_six(word),
        8 => of_eight(word),
        9 => of_nine(word),
        10 => of_ten(word),
        _ => None,
    }
}

fn same(a: &[u8], b: &[u8]) -> bool
    ensures { result ≡ bytes_eq a.now b.now }
{
    a == b
}

fn of_two(word: &[u8]) -> Option<Keyword>
    ensures { result ≡ keyword_of_two word.now }
{
    if same(word, Keyword::At.spelling()) {
        Some(Keyword::At)
    } else if same(word, Keyword::If.spelling()) {
        Some(Keyword::If)
    } else if same(word, Keyword::On.spelling()) {
        Some(Keyword::On)
    } else {
        None
    }
}

fn of_three(word: &[u8]) -> Option<Keyword>
    ensures { result ≡ keyword_of_three word.now }
{
    if same(word, Keyword::Add.spelling()) {
        Some(Keyword::Add)
    } else if same(word, Keyword::Let.spelling()) {
        Some(Keyword::Let)
    } else if same(word, Keyword::Low.spelling()) {
        Some(Keyword::Low)
    } else if same(word, Keyword::Var.spelling()) {
        Some(Keyword::Var)
    } else {
        None
    }
}

fn of_four(word: &[u8]) -> Option<Keyword>
    ensures { result ≡ keyword_of_four word.now }
{
    if same(word, Keyword::Bind.spelling()) {
        Some(Keyword::Bind)
    } else if same(word, Keyword::Else.spelling()) {
        Some(Keyword::Else)
    } else if same(word, Keyword::Fifo.spelling()) {
        Some(Keyword::Fifo)
    } else if same(word, Keyword::Func.spelling()) {
        Some(Keyword::Func)
    } else if same(word, Keyword::High.spelling()) {
        Some(Keyword::High)
    } else if same(word, Keyword::Next.spelling()) {
        Some(Keyword::Next)
    } else if same(word, Keyword::Root.spelling()) {
        Some(Keyword::Root)
    } else if same(word, Keyword::Task.spelling()) {
        Some(Keyword::Task)
    } else {
        None
    }
}

fn of_five(word: &[u8]) -> Option<Keyword>
    ensures { result ≡ keyword_of_five word.now }
{
    if same(word, Keyword::Actor.spelling()) {
        Some(Keyword::Actor)
    } else if same(word, Keyword::Await.spelling()) {
        Some(Keyword::Await)
    } else if same(word, Keyword::Check.spelling()) {
        Some(Keyword::Check)
    } else if same(word, Keyword::Group.spelling()) {
        Some(Keyword::Group)
    } else if same(word, Keyword::Local.spelling()) {
        Some(Keyword::Local)
    } else if same(word, Keyword::Spawn.spelling()) {
        Some(Keyword::Spawn)
    } else if same(word, Keyword::Throw.spelling()) {
        Some(Keyword::Throw)
    } else if same(word, Keyword::While.spelling()) {
        Some(Keyword::While)
    } else if same(word, Keyword::Yield.spelling()) {
        Some(Keyword::Yield)
    } else {
        None
    }
}

fn of_six(word: &[u8]) -> Option<Keyword>
    ensures { result ≡ keyword_of_six word.now }
{
    if same(word, Keyword::Assume.spelling()) {
        Some(Keyword::Assume)
    } else if same(word, Keyword::Cancel.spelling()) {
        Some(Keyword::Cancel)
    } else if same(word, Keyword::Detach.spelling()) {
        Some(Keyword::Detach)
    } else if same(word, Keyword::Medium.spelling()) {
        Some(Keyword::Medium)
    } else if same(word, Keyword::Pinned.spelling()) {
        Some(Keyword::Pinned)
    } else if same(word, Keyword::Return.spelling()) {
        Some(Keyword::Return)
    } else if same(word, Keyword::Unless.spelling()) {
        Some(Keyword::Unless)
    } else {
        None
    }
}

fn of_eight(word: &[u8]) -> Option<Keyword>
    ensures { result ≡ keyword_of_eight word.now }
{
    if same(word, Keyword::Executor.spelling()) {
        Some(Keyword::Executor)
    } else if same(word, Keyword::Priority.spelling()) {
        Some(Keyword::Priority)
    } else {
        None
    }
}

fn of_nine(word: &[u8]) -> Option<Keyword>
    ensures { result ≡ keyword_of_nine word.now }
{
    if same(word, Keyword::Cancelled.spelling()) {
        Some(Keyword::Cancelled)
    } else if same(word, Keyword::Invariant.spelling()) {
        Some(Keyword::Invariant)
    } else {
        None
    }
}

fn of_ten(word: &[u8]) -> Option<Keyword>
    ensures { result ≡ keyword_of_ten word.now }
{
    if same(word, Keyword::Background.spelling()) {
        Some(Keyword::Background)
    } else {
        None
    }
}
