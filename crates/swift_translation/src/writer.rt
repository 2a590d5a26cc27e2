//! A text that is written.

ghost use Rattle.std.specs.Prelude.{◌≡◌, [], decimal, IsFalse, IsTrue};
ghost use Rattle.std.specs.Fmt.{signed_decimal};
ghost use Rattle.swift_translation.specs.StatementTexts.{indent_text, line_text};
ghost use Rattle.swift_translation.specs.WritingInside.{GoesOn};

use std::alloc::Global;
use swift_syntax::{Breach, Rule};

/// A text that is written. That there was no memory, or that a rule is broken, is noted once.
#[derive(Drop)]
pub(crate) struct Writer {
    /// What is written so far.
    pub text: Vec<u8>,
    /// Whether something is missing: there was no memory for it, or a rule is broken.
    pub is_partial: bool,
    /// The first rule that is broken.
    pub refused: Option<Breach>,
}

impl Writer {
    /// Nothing.
    pub(crate) fn new(alloc: Global) -> Writer
        ensures empty { result.text.items ≡ [] }
        ensures memory { IsFalse result.is_partial }
    {
        Writer {
            text: Vec::new(alloc),
            is_partial: false,
            refused: None,
        }
    }

    /// Notes that a token breaks a rule, unless a refusal was noted before.
    pub(crate) fn refuse(&mut self, rule: Rule, place: usize)
        ensures text { GoesOn self.old self.new [] }
        ensures noted { IsTrue self.new.is_partial }
    {
        self.is_partial = true;
        if self.refused.is_none() {
            self.refused = Some(Breach { rule, token: place });
        }
    }

    /// Puts bytes after the others.
    pub(crate) fn bytes(&mut self, bytes: &[u8])
        ensures { GoesOn self.old self.new bytes.now }
    {
        if self.text.extend_from_slice(bytes).is_err() {
            self.is_partial = true;
        }
    }

    /// Puts a text after what is there.
    pub(crate) fn say(&mut self, text: &str)
        ensures { GoesOn self.old self.new text.now }
    {
        self.bytes(text.as_bytes());
    }

    /// Puts the digits of a number after what is there.
    pub(crate) fn number(&mut self, alloc: Global, number: i64)
        ensures { GoesOn self.old self.new (signed_decimal number) }
    {
        match number.to_string(alloc) {
            Ok(digits) => self.bytes(digits.as_bytes()),
            Err(_) => self.is_partial = true,
        }
    }

    /// Puts the digits of a place after what is there.
    pub(crate) fn place(&mut self, alloc: Global, place: usize)
        ensures { GoesOn self.old self.new (decimal place) }
    {
        match place.to_string(alloc) {
            Ok(digits) => self.bytes(digits.as_bytes()),
            Err(_) => self.is_partial = true,
        }
    }

    // Puts four spaces after what is there, so many times.
    fn indent(&mut self, many: usize)
        ensures { GoesOn self.old self.new (indent_text many) }
    {
        if many != 0 {
            self.say("    ");
            self.indent(many - 1)
        }
    }

    /// Begins a line of a body in which so many blocks are open.
    #[tactic(auto, unfolding(crate::specs::StatementTexts::line_text))]
    pub(crate) fn line(&mut self, open_blocks: usize)
        ensures { GoesOn self.old self.new (line_text open_blocks) }
    {
        self.say("\n        ");
        self.indent(open_blocks)
    }
}
