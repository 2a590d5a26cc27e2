//! Lines of a Swift file, with their indentation.

ghost use Rattle.std.specs.Prelude.{◌≡◌, ◌++◌, [], IsFalse, IfOk};
ghost use Rattle.std.specs.Fmt.{decimal, signed_decimal};
ghost use Rattle.plain_parts.specs.Pages as pages;
ghost use Rattle.plain_parts.specs.Pages.{GoesOn, ended, indent, line_text};

use std::alloc::{AllocError, Global};

/// Lines that are being written (our own). Where memory runs out they end there, and `into_text` says so: who writes them asks at the end alone.
pub struct Page {
    text: Vec<u8>,
    is_cut: bool,
}

impl Drop for Page {
    fn drop(self) {
        let Page { text, is_cut: _ } = self;
        drop(text);
    }
}

/// How deep lines are indented inside of a block: one level more, up to a thousand.
pub fn deeper(depth: usize) -> usize
    ensures { result ≡ pages.deeper depth }
{
    if depth < 1000 { depth + 1 } else { depth }
}

/// A count that is one more; from a million on it stays.
pub fn one_more(count: usize) -> usize
    ensures { result ≡ pages.one_more count }
{
    if count < 1000000 { count + 1 } else { count }
}

impl Page {
    /// No lines.
    pub fn new(alloc: Global) -> Page
        ensures { result.text.items ≡ [] }
    {
        Page {
            text: Vec::new(alloc),
            is_cut: false,
        }
    }

    /// The lines.
    ///
    /// # Errors
    ///
    /// `AllocError` where there was no memory for some of them.
    pub fn into_text(self) -> Result<Vec<u8>, AllocError>
        ensures { IfOk result (λ text. IsFalse self.is_cut × (text.items ≡ self.text.items)) }
    {
        let Page { text, is_cut } = self;
        if is_cut { Err(AllocError) } else { Ok(text) }
    }

    /// Goes on with a line.
    pub fn say(&mut self, words: &str)
        ensures { GoesOn self.old self.new words.now }
    {
        self.say_bytes(words.as_bytes())
    }

    /// Goes on with a line, by the bytes of a name.
    pub fn say_bytes(&mut self, bytes: &[u8])
        ensures { GoesOn self.old self.new bytes.now }
    {
        if !self.is_cut && self.text.extend_from_slice(bytes).is_err() {
            self.is_cut = true;
        }
    }

    /// Goes on with a line, by a number.
    pub fn say_number(&mut self, number: i64)
        ensures { GoesOn self.old self.new (signed_decimal number) }
    {
        if !self.is_cut {
            match number.to_string(*self.text.allocator()) {
                Ok(digits) => self.say(&digits),
                Err(_) => self.is_cut = true,
            }
        }
    }

    /// Goes on with a line, by a count.
    pub fn say_count(&mut self, count: usize)
        ensures { GoesOn self.old self.new (decimal count) }
    {
        if !self.is_cut {
            match count.to_string(*self.text.allocator()) {
                Ok(digits) => self.say(&digits),
                Err(_) => self.is_cut = true,
            }
        }
    }

    /// Begins a line: four spaces for each level.
    #[tactic(auto, using(crate::proofs::Pages::one_level))]
    pub fn begin(&mut self, depth: usize)
        ensures { GoesOn self.old self.new (indent depth) }
    {
        if depth == 0 {
            self.say("")
        } else {
            self.say("    ");
            self.begin(depth - 1)
        }
    }

    /// Ends a line.
    pub fn end(&mut self, words: &str)
        ensures { GoesOn self.old self.new (ended words.now) }
    {
        self.say(words);
        self.say("\n")
    }

    /// A whole line.
    pub fn line(&mut self, depth: usize, words: &str)
        ensures { GoesOn self.old self.new (line_text depth words.now) }
    {
        self.begin(depth);
        self.end(words)
    }
}
