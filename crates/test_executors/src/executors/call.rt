//! Calls, by words.

/// What a call does.
#[derive(Clone, Copy)]
pub enum Verb {
    Root,
    Enqueue,
    Run,
    Ending,
    Allowance,
    Look,
}

/// A call, with its one or two numbers.
#[derive(Clone, Copy)]
pub struct CaseCall {
    pub verb: Verb,
    pub first: u32,
    pub second: u32,
}

// What a call of this name does.
fn verb_of(word: &str) -> Option<Verb> {
    match word {
        "root" => Some(Verb::Root),
        "enqueue" => Some(Verb::Enqueue),
        "run" => Some(Verb::Run),
        "ending" => Some(Verb::Ending),
        "allowance" => Some(Verb::Allowance),
        "look" => Some(Verb::Look),
        _ => None,
    }
}

/// A number, or this one where `#` stands.
pub fn number(word: &str, count: u32) -> Option<u32> {
    if word == "#" {
        return Some(count);
    }
    word.parse::<u32>().ok()
}

/// `VERB NUMBER`, or `VERB NUMBER WORD NUMBER`.
pub fn call_of(text: &str, count: u32) -> Option<CaseCall> {
    let mut words = text.split(' ');
    let verb = verb_of(words.next()?)?;
    let first = number(words.next()?, count)?;
    let _word = words.next();
    let second = match words.next() {
        Some(word) => number(word, count)?,
        None => 0,
    };
    Some(CaseCall {
        verb,
        first,
        second,
    })
}
