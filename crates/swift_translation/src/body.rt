//! A body that is written: its open blocks, and the methods that are put into it.

ghost use Rattle.std.specs.Prelude.{◌≡◌, [], IsFalse};
ghost use Rattle.swift_translation.specs.Bodies as bodies;
ghost use Rattle.swift_translation.specs.Bodies.{context_of, entered, fresh, last_of, opened, popped};
ghost use Rattle.swift_translation.specs.WritingInside.{GoesOn, progress_of};

use crate::frame::Frame;
use crate::source::{Context, Source};
use crate::writer::Writer;
use swift_syntax::Rule;

/// A body that is written.
#[derive(Drop)]
pub(crate) struct Body<'a> {
    pub source: Source<'a>,
    /// The methods that the one is put into that is written, from the outermost one on.
    pub callers: Vec<Frame>,
    /// Whether the end of each open block is written.
    pub blocks: Vec<bool>,
    /// How many methods were put in.
    pub serial: usize,
}

impl<'a> Body<'a> {
    /// A body of which nothing is written.
    pub(crate) fn new(source: Source<'a>) -> Body<'a>
        ensures source { result.source ≡ source.entry }
        ensures progress { progress_of result ≡ fresh }
    {
        Body {
            source,
            callers: Vec::new(source.alloc),
            blocks: Vec::new(source.alloc),
            serial: 0,
        }
    }

    /// Where a statement is written now, of the method that was put in as the one of this number.
    pub(crate) fn context(&self, serial: usize) -> Context<'a>
        ensures { result ≡ context_of self.now.source (progress_of self.now) serial }
    {
        Context {
            source: self.source,
            open_blocks: self.blocks.iter().filter(|b| **b).count(),
            serial,
        }
    }

    /// Opens a block, whose end is written or not.
    pub(crate) fn open(&mut self, out: &mut Writer, is_written: bool)
        ensures text { GoesOn out.old out.new [] }
        ensures source { self.new.source ≡ self.old.source }
        ensures progress { IsFalse out.new.is_partial → progress_of self.new ≡ opened is_written (progress_of self.old) }
    {
        if self.blocks.push(is_written).is_err() {
            out.refuse(Rule::Memory, 0)
        }
    }

    /// Closes the innermost block. Whether its end is written, if there is one.
    pub(crate) fn pop(&mut self) -> Option<bool>
        ensures block { result ≡ last_of (progress_of self.old).blocks }
        ensures source { self.new.source ≡ self.old.source }
        ensures progress { progress_of self.new ≡ popped (progress_of self.old) }
    {
        let last = self.blocks.last().copied();
        self.blocks.pop();
        last
    }

    /// Goes into a method that is put in, out of another one, and counts it.
    pub(crate) fn enter(&mut self, out: &mut Writer, caller: Frame)
        ensures text { GoesOn out.old out.new [] }
        ensures source { self.new.source ≡ self.old.source }
        ensures progress { IsFalse out.new.is_partial → progress_of self.new ≡ entered caller (progress_of self.old) }
    {
        self.serial = self.serial.saturating_add(1);
        if self.callers.push(caller).is_err() {
            out.refuse(Rule::Memory, 0)
        }
    }

    /// Goes back to the method that the one is put into that is written, if there is one.
    pub(crate) fn leave(&mut self) -> Option<Frame>
        ensures caller { result ≡ last_of (progress_of self.old).callers }
        ensures source { self.new.source ≡ self.old.source }
        ensures progress { progress_of self.new ≡ bodies.left (progress_of self.old) }
    {
        let last = self.callers.last().copied();
        self.callers.pop();
        last
    }

    /// Whether a unit stands in itself where it is put into a method.
    pub(crate) fn is_inside(&self, frame: Frame, unit: usize) -> bool {
        frame.unit == unit || self.callers.iter().any(|f| f.unit == unit)
    }
}
