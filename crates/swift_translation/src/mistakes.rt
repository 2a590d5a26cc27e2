//! Forms that are often written and that the subset does not have, and what to write in place of them (our own).

ghost use Rattle.std.specs.Prelude.{◌≡◌, Contains, IfSome, IsTrue, map};
ghost use Rattle.swift_translation.specs.MistakesInside.{Meets, Stand, begins_with, is_digit_first};

use swift_syntax::Rule;

/// The word before what is blamed, what is blamed, the word after it, and what to write. Each of the first three is as it is spelled, `0` for
/// any number, `"` for any text, or empty where any may stand there.
pub(crate) type Words = [&'static str; 4];

const HELP: usize = 3;

// A word of a row, as it stands in the table.
macro_rules! word {
    (_) => {
        ""
    };
    ($spelling:literal) => {
        $spelling
    };
}

// A table of rows `[the word before, what is blamed, the word after] => what to write;`, with `_` where any may stand.
macro_rules! rows {
    ($([$($word:tt)*] => $help:literal;)*) => {
        [$([$(word!($word),)* $help]),*]
    };
}

// Tokens that do not fit.
static UNEXPECTED: [Words; 53] = rows! {
    ["(" "Int" ","] =>
        "a method gives one value: give the other one by a method of its own, or keep it in a field";
    ["(" "Bool" ","] =>
        "a method gives one value: give the other one by a method of its own, or keep it in a field";
    [")" "->" _] =>
        "a function is no value here: write what it does where it is called";
    [_ "->" _] =>
        "leave the type of the closure out: what it returns tells it";
    ["=" "{" _] =>
        "a function is no value here: write a method, or a function outside of actors";
    ["AsyncStream" "<" _] =>
        "there are no streams: have one method that puts a value and one that takes it";
    [_ "<" _] =>
        "there are no type parameters: write it for Int or Bool";
    ["nonisolated" "func" _] =>
        "leave `nonisolated` out, and await the method: it then runs as the others of its actor";
    [_ "func" _] =>
        "write it as a method of the actor, or as a function outside of actors";
    ["weak" "self" _] =>
        "leave the list out, and name the actor by its instance: it is there to the end of the program";
    ["unowned" "self" _] =>
        "leave the list out, and name the actor by its instance: it is there to the end of the program";
    ["0" "..<" _] =>
        "a range stands behind `for k in` alone; there is no chance: hand a value to a method for each";
    ["." "self" _] =>
        "a group stands alone or behind `let x =` or `return`, with `await` or `try await`: for `try?`, put it into a function";
    ["main" "." _] =>
        "there are no queues: a task is made by `Task { .. }`";
    ["let" "(" _] =>
        "there are no tuples: take each value by itself, as `let x = await a` and then `let y = await b`";
    ["var" "(" _] =>
        "there are no tuples: take each value by itself, as `var x = a` and then `var y = b`";
    ["Int" "?" _] =>
        "there are no optionals: keep a Bool beside the value, or a number that no value has, as -1";
    ["Bool" "?" _] =>
        "there are no optionals: keep a second Bool that tells whether there is a value";
    ["if" "let" _] =>
        "there are no optionals: test a Bool that tells whether there is a value";
    ["if" "var" _] =>
        "there are no optionals: test a Bool that tells whether there is a value";
    ["guard" "let" _] =>
        "there are no optionals: test a Bool that tells whether there is a value";
    ["while" "let" _] =>
        "there are no optionals: test a Bool, or count what is left";
    ["Int" "{" _] =>
        "there are no computed properties: make it a method, as `func total() -> Int { .. }`";
    ["Bool" "{" _] =>
        "there are no computed properties: make it a method, as `func isEmpty() -> Bool { .. }`";
    ["Int" "=" _] =>
        "a parameter has no default: give the value at each call";
    ["Bool" "=" _] =>
        "a parameter has no default: give the value at each call";
    ["0" "." "0"] =>
        "numbers are whole: count in a smaller unit, as cents";
    [_ "struct" _] =>
        "keep its values as fields of an actor: there are no structs";
    [_ "class" _] =>
        "keep its fields in an actor: a class is one of an executor alone";
    [_ "protocol" _] =>
        "name the actors themselves: there are no protocols";
    [_ "extension" _] =>
        "write its methods in the actor: there are no extensions";
    [_ "typealias" _] =>
        "write the type itself";
    [_ "static" _] =>
        "write it as a global `let`, outside of the actor";
    [_ "deinit" _] =>
        "an instance is there to the end of the program: leave it out";
    ["public" "init" _] =>
        "leave `public` out";
    ["+" "+" _] =>
        "write `x += 1`";
    ["-" "-" _] =>
        "write `x -= 1`";
    ["withCheckedContinuation" "{" _] =>
        "there are no continuations: wait in a loop, as `while !isReady && tries < 3 { tries += 1; await Task.yield() }`";
    ["withCheckedThrowingContinuation" "{" _] =>
        "there are no continuations: wait in a loop, as `while !isReady && tries < 3 { tries += 1; await Task.yield() }`";
    ["withUnsafeContinuation" "{" _] =>
        "there are no continuations: wait in a loop, as `while !isReady && tries < 3 { tries += 1; await Task.yield() }`";
    ["Int" "async" _] =>
        "`async` stands before `->`";
    ["Bool" "async" _] =>
        "`async` stands before `->`";
    ["Int" "throws" _] =>
        "`throws` stands before `->`";
    ["Bool" "throws" _] =>
        "`throws` stands before `->`";
    [_ "mutating" _] =>
        "leave `mutating` out: each method of an actor may set its fields";
    [_ "lazy" _] =>
        "leave `lazy` out";
    ["0" "," _] =>
        "declare each by itself: `let a = 1` and then `let b = 2`";
    ["0" "{" "didSet"] =>
        "there are no observers: set both where the field is set";
    ["0" "{" "willSet"] =>
        "there are no observers: set both where the field is set";
    ["if" "case" _] =>
        "compare by `==`: there are no patterns";
    ["withDiscardingTaskGroup" "{" _] =>
        "write `withTaskGroup(of: Void.self)`";
    ["run" "{" _] =>
        "write an actor of your own: its instance has an executor of its own, as the main actor has";
    [_ "," _] =>
        "there are no tuples, and one name is declared at a time";
};

// Forms outside of the subset.
static OUTSIDE: [Words; 37] = rows! {
    ["func" "main" _] =>
        "write `static func main() async`: what throws in it stands in a `do` with `catch`, or behind `try?`";
    [_ "struct" _] =>
        "keep its values as fields of an actor: there are no structs";
    ["in" "[" _] =>
        "there are no collections: count over a range, as `for k in 0..<3`";
    [_ "[" _] =>
        "there are no collections: keep each value in a field of its own, or only how many there are";
    [_ "Set" _] =>
        "there are no collections: keep each value in a field of its own, or only how many there are";
    [_ "Array" _] =>
        "there are no collections: keep each value in a field of its own, or only how many there are";
    [_ "Dictionary" _] =>
        "there are no collections: keep each value in a field of its own, or only how many there are";
    [_ "AsyncStream" _] =>
        "there are no streams: have one method that puts a value and one that takes it";
    [_ "\"" _] =>
        "there is no text as a value: let a number stand for each";
    [_ "String" _] =>
        "there is no text as a value: let a number stand for each";
    [_ "Character" _] =>
        "there is no text as a value: let a number stand for each";
    [_ "Double" _] =>
        "numbers are whole: write `Int`, and count in a smaller unit, as cents";
    [_ "Float" _] =>
        "numbers are whole: write `Int`, and count in a smaller unit, as cents";
    [_ "TimeInterval" _] =>
        "there is no time: any delay is among the orders, so `await Task.yield()` stands for each";
    [_ "Date" _] =>
        "there is no time: any delay is among the orders, so `await Task.yield()` stands for each";
    [_ "Duration" _] =>
        "there is no time: any delay is among the orders, so `await Task.yield()` stands for each";
    [_ "UInt" _] =>
        "write `Int`";
    [_ "Int64" _] =>
        "write `Int`";
    [_ "UInt64" _] =>
        "write `Int`";
    [_ "Int32" _] =>
        "write `Int`";
    [_ "UInt32" _] =>
        "write `Int`";
    [_ "UInt8" _] =>
        "write `Int`";
    [_ "Task" _] =>
        "a task is kept in a `let` of the method that makes it: `let task = Task { .. }`";
    [_ "switch" _] =>
        "write it as `if` and `else if`";
    [_ "break" _] =>
        "put a Bool into the test of the loop, and set it here";
    [_ "continue" _] =>
        "put what follows into an `if`";
    [_ "defer" _] =>
        "write it before each `return`, and at the end";
    [_ "repeat" _] =>
        "write it as `while`";
    [_ "inout" _] =>
        "return the value, and assign it where the call is";
    [_ "nil" _] =>
        "there are no optionals: keep a Bool beside the value, or a number that no value has, as -1";
    [_ "some" _] =>
        "name the type itself";
    [_ "any" _] =>
        "name the type itself";
    [_ "@" "MainActor"] =>
        "write an actor of your own: its instance has an executor of its own, as the main actor has";
    [_ "@" "Sendable"] =>
        "leave it out";
    [_ "@" "discardableResult"] =>
        "leave it out, and write `_ =` before a call whose value is not wanted";
    [_ "@" "escaping"] =>
        "a function is no value here: write what it does where it is called";
    [_ "where" _] =>
        "put an `if` into the loop";
};

// Names that are not declared.
static UNKNOWN: [Words; 9] = rows! {
    [_ "fatalError" _] =>
        "write `precondition(false)`: it ends the process, too";
    [_ "preconditionFailure" _] =>
        "write `precondition(false)`: it ends the process, too";
    [_ "assertionFailure" _] =>
        "write `assert(false)`";
    [_ "max" _] =>
        "write `a > b ? a : b`";
    [_ "min" _] =>
        "write `a < b ? a : b`";
    [_ "abs" _] =>
        "write `a < 0 ? 0 - a : a`";
    [_ "sleep" _] =>
        "write `await Task.yield()`: any delay is among the orders";
    [_ "usleep" _] =>
        "write `await Task.yield()`: any delay is among the orders";
    [_ "Date" _] =>
        "there is no time: any delay is among the orders, so `await Task.yield()` stands for each";
};

// Forms that are not taken yet.
static NOT_YET: [Words; 2] = rows! {
    ["," "returning" _] =>
        "leave `returning:` out: what the closure returns tells the type";
    ["let" _ ":"] =>
        "give it a value where it is declared: `var x = 0`, and assign it later";
};

// White space that is missing.
static SPACES: [Words; 1] = rows! {
    ["try" "!" _] =>
        "there is no `try!`: write `try` in a method that throws, or `try?` with a value behind `??`";
};

// Whether a byte is part of a name.
fn is_name(byte: u8) -> bool {
    byte == b'_' || byte.is_ascii_alphanumeric()
}

fn is_digit_first(word: &[u8]) -> bool
    ensures { result ≡ is_digit_first word.now }
{
    match word {
        [first, ..] => b'0' <= *first && *first <= b'9',
        [] => false,
    }
}

fn begins_with(word: &[u8], byte: u8) -> bool
    ensures { result ≡ begins_with byte word.now }
{
    match word {
        [first, ..] => *first == byte,
        [] => false,
    }
}

// Whether a word fits a pattern.
fn meets(pattern: &str, word: &[u8]) -> bool
    ensures { IsTrue result → Meets pattern.now word.now }
{
    match pattern {
        "" => true,
        "0" => is_digit_first(word),
        "\"" => begins_with(word, b'"'),
        _ => pattern.as_bytes() == word,
    }
}

// The word, or the sign, that ends there.
fn word_before(left: &[u8]) -> &[u8] {
    let mut start = 0;
    let mut end = 0;
    for place in 0..left.len() {
        let byte = left[place];
        if byte == b' ' || byte == b'\t' {
            continue;
        }
        let goes_on = is_name(byte) && 0 < place && is_name(left[place - 1]);
        if !goes_on && !is_arrow(left, place) {
            start = place;
        }
        end = place + 1;
    }
    left.get(start..end).unwrap_or(b"")
}

// Whether `->` ends there.
fn is_arrow(left: &[u8], place: usize) -> bool {
    0 < place && place < left.len() && left[place] == b'>' && left[place - 1] == b'-'
}

// The word, or the sign, that begins there.
fn word_after(right: &[u8]) -> &[u8] {
    let start = right.iter().position(|byte| *byte != b' ').unwrap_or(0);
    let rest = right.get(start..).unwrap_or(b"");
    match rest.iter().position(|byte| !is_name(*byte)) {
        Some(0) => rest.get(..1).unwrap_or(b""),
        Some(end) => rest.get(..end).unwrap_or(b""),
        None => rest,
    }
}

/// What is blamed, and the words around it.
#[derive(Clone, Copy)]
pub(crate) struct Around<'a> {
    pub before: &'a [u8],
    pub blamed: &'a [u8],
    pub after: &'a [u8],
}

// Whether these words stand there.
fn stand(words: &Words, around: Around<'_>) -> bool
    ensures { IsTrue result → Stand (map (λ x. x.now) words.now) around.entry.before.now around.entry.blamed.now around.entry.after.now }
{
    meets(words[0], around.before)
        && meets(words[1], around.blamed)
        && meets(words[2], around.after)
}

// The first of these forms that stands there.
fn find(table: &'static [Words], around: Around<'_>) -> Option<&'static Words>
    ensures known { IfSome result (λ words. Contains (map (map (λ x. x.now)) table.now) (map (λ x. x.now) words.now)) }
    ensures stand { IfSome result (λ words. Stand (map (λ x. x.now) words.now) around.entry.before.now around.entry.blamed.now around.entry.after.now) }
{
    for words in table {
        if stand(words, around) {
            return Some(words);
        }
    }
    None
}

/// What to write in place of a form that is often written, by the rule that it breaks, what stands to the left of it on its line, and the
/// text from it on, of which so many bytes are to blame. Nothing where it is no such form.
pub(crate) fn mistake_help(
    rule: Rule,
    left: &[u8],
    right: &[u8],
    many: usize,
) -> Option<&'static str> {
    let table: &'static [Words] = match rule {
        Rule::Unexpected => &UNEXPECTED,
        Rule::Outside => &OUTSIDE,
        Rule::UnknownName => &UNKNOWN,
        Rule::NotYet => &NOT_YET,
        Rule::Spaces => &SPACES,
        _ => return None,
    };
    let around = Around {
        before: word_before(left),
        blamed: right.get(..many).unwrap_or(right),
        after: word_after(right.get(many..).unwrap_or(b"")),
    };
    let words = find(table, around)?;
    Some(words[HELP])
}
