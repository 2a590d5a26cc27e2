//! Texts that are being written.

ghost use Rattle.std.specs.Prelude.{◌≡◌, [], false, IfOk};
ghost use Rattle.swift_report.specs.Text.{exit_text, method_text, resume_text};
ghost use Rattle.run_pictures.specs.Drawn.{cancelled_text, env_text, turn_text};
ghost use Rattle.run_pictures.specs.SaysInside.{Says};

use crate::picture::boxes::TurnBox;
use crate::picture::pieces::{number, say};
use crate::picture::word;
use itoa::Integer;
use std::alloc::{AllocError, Global};
use swift_events::Origin;
use swift_journal::BriefExit;
use swift_script::Script;
use swift_types::{Ending, MethodId, Resume, RootId};

/// A text that is being written. Where memory runs out it ends there, and `whole` says so: who writes it asks at the end alone.
pub(crate) struct PictureText {
    pub bytes: Vec<u8>,
    pub is_cut: bool,
}

impl Drop for PictureText {
    fn drop(self) {
        let PictureText { bytes, is_cut: _ } = self;
        drop(bytes);
    }
}

impl PictureText {
    /// A text that goes on after these bytes.
    pub(crate) fn after(bytes: Vec<u8>) -> PictureText
        ensures { result.bytes.items ≡ bytes.items }
    {
        PictureText {
            bytes,
            is_cut: false,
        }
    }

    /// Nothing.
    pub(crate) fn new(alloc: Global) -> PictureText
        ensures { result.bytes.items ≡ [] }
    {
        PictureText::after(Vec::new(alloc))
    }

    /// The text, if there was memory for all of it.
    pub(crate) fn into_bytes(self) -> Result<Vec<u8>, AllocError>
        ensures whole { IfOk result (λ bytes. self.is_cut ≡ false) }
        ensures bytes { IfOk result (λ bytes. bytes.items ≡ self.bytes.items) }
    {
        let PictureText { bytes, is_cut } = self;
        if is_cut { Err(AllocError) } else { Ok(bytes) }
    }

    /// What is written so far.
    pub(crate) fn bytes(&self) -> &[u8]
        ensures { result.now ≡ self.now.bytes.items }
    {
        &self.bytes
    }

    /// Whether there was memory for all of it.
    pub(crate) fn whole(&self) -> Result<(), AllocError> {
        if self.is_cut { Err(AllocError) } else { Ok(()) }
    }

    /// Begins anew, unless memory ran out.
    pub(crate) fn clear(&mut self) {
        self.bytes.clear();
    }

    /// What was done beside this text: where it ran out of memory, the text ends here.
    pub(crate) fn need(&mut self, done: Result<(), AllocError>) {
        if done.is_err() {
            self.is_cut = true;
        }
    }

    /// Goes on with these bytes.
    pub(crate) fn say(&mut self, words: &[u8])
        ensures { Says self.old self.new words.now }
    {
        if !self.is_cut {
            self.is_cut = say(&mut self.bytes, words).is_err();
        }
    }

    /// Goes on with a number in decimal.
    pub(crate) fn number<I: Integer>(&mut self, value: I)
        ensures { Says self.old self.new (I.text value) }
    {
        if !self.is_cut {
            self.is_cut = number(&mut self.bytes, value).is_err();
        }
    }

    /// Goes on with these words, and in them for each `$` with one of these numbers, in order.
    pub(crate) fn fill(&mut self, words: &str, numbers: &[usize]) {
        self.fill_with(words, "", numbers)
    }

    /// The same, and for each `@` with this text.
    pub(crate) fn fill_with(&mut self, words: &str, text: &str, numbers: &[usize]) {
        let mut next = 0_usize;
        for part in words.as_bytes().split_inclusive(|byte| is_hole(*byte)) {
            match part {
                [before @ .., b'@'] => {
                    self.say(before);
                    self.say(text.as_bytes())
                }
                [before @ .., b'$'] => {
                    self.say(before);
                    self.number_at(numbers, next);
                    next = next.saturating_add(1);
                }
                _ => self.say(part),
            }
        }
    }

    // Goes on with the number at a place, if there is one.
    fn number_at(&mut self, numbers: &[usize], place: usize) {
        if let Some(number) = numbers.get(place) {
            self.number(*number)
        }
    }

    /// Goes on with these bytes as XML wants them.
    pub(crate) fn escaped(&mut self, text: &[u8]) {
        for byte in text {
            match *byte {
                b'<' => self.say(b"&lt;"),
                b'&' => self.say(b"&amp;"),
                other => self.say(&[other]),
            }
        }
    }

    /// Goes on with at most `most` bytes of a text, the last two of which are dots where some are left out, as XML wants them.
    pub(crate) fn fitting(&mut self, text: &[u8], most: usize) {
        if text.len() <= most {
            return self.escaped(text);
        }
        let (head, _) = text.split_at(most.saturating_sub(2));
        self.escaped(head);
        self.say(b"..")
    }

    /// Goes on with the last part of a file's path as XML wants it: a control character is a question mark.
    pub(crate) fn file_name(&mut self, path: &str) {
        for byte in last_part(path.as_bytes()) {
            match *byte {
                b'<' => self.say(b"&lt;"),
                b'&' => self.say(b"&amp;"),
                0..32 => self.say(b"?"),
                other => self.say(&[other]),
            }
        }
    }

    /// Goes on with what a turn began with.
    pub(crate) fn resume(&mut self, resume: Resume)
        ensures { Says self.old self.new (resume_text resume) }
    {
        if !self.is_cut {
            self.is_cut = word::resume(&mut self.bytes, resume).is_err();
        }
    }

    /// Goes on with how a turn ended.
    pub(crate) fn exit(&mut self, script: &Script, exit: BriefExit)
        ensures { Says self.old self.new (exit_text script.now exit) }
    {
        if !self.is_cut {
            self.is_cut = word::exit(&mut self.bytes, script, exit).is_err();
        }
    }

    /// Goes on with how a task ended.
    pub(crate) fn ending(&mut self, ending: Ending) {
        if !self.is_cut {
            let done = word::ending(&mut self.bytes, ending);
            self.need(done);
        }
    }

    /// Goes on with a method by its names, that of its actor first.
    pub(crate) fn method(&mut self, script: &Script, method: MethodId)
        ensures { Says self.old self.new (method_text script.now method.0) }
    {
        if !self.is_cut {
            self.is_cut = word::method(&mut self.bytes, script, method).is_err();
        }
    }

    /// Goes on with where the task of this number comes from.
    pub(crate) fn origin(&mut self, script: &Script, task: usize, origin: Origin) {
        match origin {
            Origin::Root => {
                let name = match u32::try_from(task) {
                    Ok(root) => script.root_name(RootId(root)),
                    Err(_) => &[],
                };
                self.say(b"root ");
                self.say(name)
            }
            Origin::Child(owner, _) => self.fill("child t$", &[owner.0 as usize]),
            Origin::Spawned(by) => self.fill("spawned t$", &[by.0 as usize]),
            Origin::Detached(by) => self.fill("detached t$", &[by.0 as usize]),
        }
    }

    /// Goes on with a turn, by its task and its number there.
    pub(crate) fn turn(&mut self, turn: &TurnBox)
        ensures { Says self.old self.new (turn_text turn.now) }
    {
        self.say(b"t");
        self.number(turn.task.0);
        self.say(b".");
        self.number(turn.number)
    }

    // Goes on with a word where a task was cancelled.
    fn cancelled(&mut self, cancelled: bool)
        ensures { Says self.old self.new (cancelled_text cancelled) }
    {
        if cancelled {
            self.say(b" c1")
        }
    }

    /// Goes on with what a turn was given: its task's priority, and whether the task was cancelled, where it was.
    pub(crate) fn env(&mut self, turn: &TurnBox)
        ensures { Says self.old self.new (env_text turn.now.env) }
    {
        self.say(b"p");
        self.number(turn.env.priority.number());
        self.cancelled(turn.env.cancelled)
    }
}

// Whether a byte of a line stands for something else.
fn is_hole(byte: u8) -> bool {
    byte == b'$' || byte == b'@'
}

// The last part of a path.
fn last_part(path: &[u8]) -> &[u8] {
    let mut from = 0_usize;
    for (place, byte) in path.iter().enumerate() {
        if *byte == b'/' {
            from = place.saturating_add(1);
        }
    }
    path.get(from..).unwrap_or(path)
}
