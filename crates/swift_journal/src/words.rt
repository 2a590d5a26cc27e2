//! Numbers, and what is written as numbers.

ghost use Rattle.std.specs.Prelude.{◌≡◌, ◌+◌, ◌≤◌, ℤ, pos, [], ◌∷◌, ◌++◌, length, map, reverse, drop, take, slice_index_or, vec_capacity, vec_len, IfOk, OnErr, OnOk};
ghost use Rattle.swift_journal.specs.Words.{skip_bindings as after_bindings, first_pair, narrowed, number_at, numbers_of, pair_words, pairs_from, AreNarrow, rounded};
ghost use Rattle.script_code.specs.Seen.{pair_of};

use crate::tail::Tail;
use script_code::Binding;
use std::alloc::{AllocError, Global};
use swift_locals::Bindings;
use swift_types::LocalId;

// The first `count` words, or all where there are fewer, and what follows them.
pub fn split(words: &[i64], count: usize) -> (&[i64], &[i64])
    ensures front { result.0.now ≡ take count words.now }
    ensures back { result.1.now ≡ drop count words.now }
{
    words.split_at(count.min(words.len()))
}

// The words after `count` bindings.
pub fn skip_bindings(words: &[i64], count: usize) -> &[i64]
    ensures { result.now ≡ after_bindings count words.now }
{
    split(split(words, count).1, count).1
}

// The word at a place: 0 past the end.
pub fn word_at(words: &[i64], place: usize) -> i64
    ensures { result ≡ slice_index_or words.now place (pos 0) }
{
    if place < words.len() { words[place] } else { 0 }
}

// A word as a number of 32 bits: 0 where it is none.
pub fn narrow(word: i64) -> u32
    ensures { result ≡ narrowed word }
{
    match u32::try_from(word) {
        Ok(number) => number,
        Err(_) => 0,
    }
}

// The word at a place, as a number of 32 bits.
pub fn number_at(words: &[i64], place: usize) -> u32
    ensures { result ≡ number_at words.now place }
{
    narrow(word_at(words, place))
}

// A length of 32 bits. A longer list counts as too large for memory.
pub fn short(length: usize) -> Result<u32, AllocError>
    ensures { IfOk result (λ n. n ≡ length) }
{
    if length <= 0xFFFF_FFFF {
        Ok(length as u32)
    } else {
        Err(AllocError)
    }
}

// Up to `FEW` words are appended one at a time: for few it takes a fraction of what a copy of memory does.
const FEW: usize = 8;

// Appends words for which there is room, one at a time.
fn push_each(words: &mut Vec<i64>, more: &[i64])
    requires { vec_len words.old + length more.now ≤ vec_capacity words.old }
    ensures { words.new.items ≡ words.old.items ++ more.now }
{
    for word in more {
        words.push_reserved(*word);
    }
}

// Appends words to a list, which stays as it was where a growth is refused.
pub fn append_words(words: &mut Vec<i64>, more: &[i64]) -> Result<(), AllocError>
    ensures words { OnOk result (words.new.items ≡ words.old.items ++ more.now) }
    ensures same { OnErr result (words.new.items ≡ words.old.items) }
{
    if more.len() > FEW || more.len() > words.capacity() - words.len() {
        return append_many(words, more);
    }
    push_each(words, more);
    Ok(())
}

// Appends words by a copy of memory. It is a function of its own, so that few words take no call.
#[inline(never)]
fn append_many(words: &mut Vec<i64>, more: &[i64]) -> Result<(), AllocError>
    ensures words { OnOk result (words.new.items ≡ words.old.items ++ more.now) }
    ensures same { OnErr result (words.new.items ≡ words.old.items) }
{
    words.extend_from_slice(more)
}

// Appends a number of 32 bits.
pub fn write_number(words: &mut Tail, number: u32) -> Result<(), AllocError>
    ensures before { words.new.before ≡ words.old.before }
    ensures words { OnOk result (words.new.written ≡ words.old.written ++ pos number ∷ []) }
    ensures narrow { OnOk result (narrowed (pos number) ≡ number) }
{
    words.push(i64::from(number))
}

// Appends numbers of 32 bits.
pub fn write_numbers(words: &mut Tail, numbers: &[u32]) -> Result<(), AllocError>
    ensures before { words.new.before ≡ words.old.before }
    ensures words { OnOk result (words.new.written ≡ words.old.written ++ map pos numbers.now) }
    ensures narrow { OnOk result (numbers_of (map pos numbers.now) ≡ numbers.now) }
{
    for number in numbers {
        words.push(i64::from(*number))?;
    }
    Ok(())
}

// Appends a local and a value.
fn write_pair(words: &mut Tail, local: LocalId, value: i64) -> Result<(), AllocError>
    ensures before { words.new.before ≡ words.old.before }
    ensures words { OnOk result (words.new.written ≡ words.old.written ++ pair_words ((local.0, value) ∷ [])) }
    ensures narrow { OnOk result (narrowed (pos local.0) ≡ local.0) }
{
    words.push(i64::from(local.0))?;
    words.push(value)?;
    Ok(())
}

// The local and the value that come first.
fn read_pair(words: &[i64]) -> (LocalId, i64)
    ensures { (result.0.0, result.1) ≡ first_pair words.now }
{
    (LocalId(narrow(word_at(words, 0))), word_at(words, 1))
}

// Appends bindings, each as its local and its value.
pub fn write_own(words: &mut Tail, own: &[Binding]) -> Result<(), AllocError>
    ensures before { words.new.before ≡ words.old.before }
    ensures words { OnOk result (words.new.written ≡ words.old.written ++ pair_words (map pair_of own.now)) }
    ensures narrow { OnOk result (AreNarrow (map pair_of own.now)) }
{
    for binding in own {
        write_pair(words, binding.local, binding.value)?;
    }
    Ok(())
}

// Appends bindings, the outermost first.
pub fn write_bindings(words: &mut Tail, bindings: &Bindings) -> Result<(), AllocError>
    ensures before { words.new.before ≡ words.old.before }
    ensures words { OnOk result (words.new.written ≡ words.old.written ++ pair_words (reverse bindings.now)) }
    ensures narrow { OnOk result (AreNarrow (reverse bindings.now)) }
{
    for place in 0..bindings.depth() {
        let (local, value) = bindings.entry(place);
        write_pair(words, local, value)?;
    }
    Ok(())
}

// The words as numbers of 32 bits.
pub fn read_numbers(alloc: Global, words: &[i64]) -> Result<Vec<u32>, AllocError>
    ensures { IfOk result (λ numbers. numbers.items ≡ numbers_of words.now) }
{
    let mut numbers = Vec::new(alloc);
    for word in words {
        numbers.push(narrow(*word))?;
    }
    Ok(numbers)
}

// The first `count` bindings of the words, as they were written.
pub fn read_own(alloc: Global, words: &[i64], count: usize) -> Result<Vec<Binding>, AllocError>
    ensures { IfOk result (λ own. map pair_of own.items ≡ pairs_from count words.now) }
{
    let mut own = Vec::new(alloc);
    let mut rest = words;
    for _ in 0..count {
        let (local, value) = read_pair(rest);
        own.push(Binding { local, value })?;
        rest = split(rest, 2).1;
    }
    Ok(own)
}

// The first `count` bindings of the words, of which the outermost was written first.
pub fn read_bindings(alloc: Global, words: &[i64], count: usize) -> Result<Bindings, AllocError>
    ensures { IfOk result (λ bindings. bindings ≡ reverse (pairs_from count words.now)) }
{
    let mut bindings = Bindings::new(alloc);
    let mut rest = words;
    for _ in 0..count {
        let (local, value) = read_pair(rest);
        bindings.bind(local, value)?;
        rest = split(rest, 2).1;
    }
    Ok(bindings)
}
