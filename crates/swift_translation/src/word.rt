//! Words that a script keeps.

ghost use Rattle.std.specs.Prelude.{◌≡◌, bytes_eq};
ghost use Rattle.std.specs.List.{list_any};
ghost use Rattle.swift_translation.specs.Names.{is_kept};

/// The keywords of scripts.
pub const WORDS: [&[u8]; 36] = [
    b"actor",
    b"add",
    b"assume",
    b"at",
    b"await",
    b"background",
    b"bind",
    b"cancel",
    b"cancelled",
    b"check",
    b"detach",
    b"else",
    b"executor",
    b"fifo",
    b"func",
    b"group",
    b"high",
    b"if",
    b"invariant",
    b"let",
    b"local",
    b"low",
    b"medium",
    b"next",
    b"on",
    b"pinned",
    b"priority",
    b"return",
    b"root",
    b"spawn",
    b"task",
    b"throw",
    b"unless",
    b"var",
    b"while",
    b"yield",
];

/// Whether a name is a keyword of scripts.
pub(crate) fn is_kept(name: &[u8]) -> bool
    ensures { result ≡ is_kept name.now }
{
    is_among(&WORDS, name)
}

fn is_among(words: &[&[u8]], name: &[u8]) -> bool
    ensures { result ≡ list_any (λ word. bytes_eq word.now name.now) words.now }
{
    words.iter().any(|word| *word == name)
}
