//! Words that are no names.

ghost use Rattle.std.specs.Prelude.{◌≡◌, bytes_eq, position};
ghost use Rattle.std.specs.List.{list_any, slice_get};
ghost use Rattle.swift_syntax.specs.Words as words;

/// A word that is no name in the subset.
#[derive(Clone, Copy, PartialEq, Eq)]
pub enum Word {
    /// `actor`
    Actor,
    /// `async`
    Async,
    /// `await`
    Await,
    /// `case`
    Case,
    /// `catch`
    Catch,
    /// `class`
    Class,
    /// `do`
    Do,
    /// `else`
    Else,
    /// `enum`
    Enum,
    /// `false`
    False,
    /// `fileprivate`
    Fileprivate,
    /// `final`
    Final,
    /// `for`
    For,
    /// `func`
    Func,
    /// `guard`
    Guard,
    /// `if`
    If,
    /// `import`
    Import,
    /// `in`
    In,
    /// `init`
    Init,
    /// `internal`
    Internal,
    /// `let`
    Let,
    /// `nonisolated`
    Nonisolated,
    /// `private`
    Private,
    /// `public`
    Public,
    /// `return`
    Return,
    /// `self`
    Own,
    /// `static`
    Static,
    /// `struct`
    Struct,
    /// `throw`
    Throw,
    /// `throws`
    Throws,
    /// `true`
    True,
    /// `try`
    Try,
    /// `var`
    Var,
    /// `while`
    While,
    /// A keyword of Swift that begins nothing in the subset, as `switch`.
    Foreign,
}

// How the keywords are spelled.
static SPELLINGS: [&[u8]; 34] = [
    b"actor",
    b"async",
    b"await",
    b"case",
    b"catch",
    b"class",
    b"do",
    b"else",
    b"enum",
    b"false",
    b"fileprivate",
    b"final",
    b"for",
    b"func",
    b"guard",
    b"if",
    b"import",
    b"in",
    b"init",
    b"internal",
    b"let",
    b"nonisolated",
    b"private",
    b"public",
    b"return",
    b"self",
    b"static",
    b"struct",
    b"throw",
    b"throws",
    b"true",
    b"try",
    b"var",
    b"while",
];

// What they are, in the same order.
static WORDS: [Word; 34] = [
    Word::Actor,
    Word::Async,
    Word::Await,
    Word::Case,
    Word::Catch,
    Word::Class,
    Word::Do,
    Word::Else,
    Word::Enum,
    Word::False,
    Word::Fileprivate,
    Word::Final,
    Word::For,
    Word::Func,
    Word::Guard,
    Word::If,
    Word::Import,
    Word::In,
    Word::Init,
    Word::Internal,
    Word::Let,
    Word::Nonisolated,
    Word::Private,
    Word::Public,
    Word::Return,
    Word::Own,
    Word::Static,
    Word::Struct,
    Word::Throw,
    Word::Throws,
    Word::True,
    Word::Try,
    Word::Var,
    Word::While,
];

// Keywords of Swift that begin nothing in the subset.
static FOREIGN: [&[u8]; 23] = [
    b"as",
    b"associatedtype",
    b"break",
    b"continue",
    b"default",
    b"defer",
    b"deinit",
    b"extension",
    b"fallthrough",
    b"inout",
    b"is",
    b"nil",
    b"operator",
    b"protocol",
    b"repeat",
    b"rethrows",
    b"Self",
    b"some",
    b"subscript",
    b"super",
    b"switch",
    b"typealias",
    b"where",
];

/// The word that these bytes spell, if they are no name.
pub(crate) fn word_of(name: &[u8]) -> Option<Word>
    ensures { result ≡ words.word_of name.now }
{
    match place_of(&SPELLINGS, name) {
        Some(place) => word_at(&WORDS, place),
        None => {
            if is_among(&FOREIGN, name) {
                Some(Word::Foreign)
            } else {
                None
            }
        }
    }
}

fn word_at(words: &[Word], place: usize) -> Option<Word>
    ensures { result ≡ slice_get words.now place }
{
    match words.get(place) {
        Some(word) => Some(*word),
        None => None,
    }
}

fn place_of(words: &[&[u8]], name: &[u8]) -> Option<usize>
    ensures { result ≡ position (λ word. bytes_eq word.now name.now) words.now }
{
    words.iter().position(|word| *word == name)
}

fn is_among(words: &[&[u8]], name: &[u8]) -> bool
    ensures { result ≡ list_any (λ word. bytes_eq word.now name.now) words.now }
{
    words.iter().any(|word| *word == name)
}
