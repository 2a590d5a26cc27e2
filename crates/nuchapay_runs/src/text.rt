//! Texts that are being written.

ghost use Rattle.std.specs.Prelude.{◌≡◌, [], false, true, IfOk};
ghost use Rattle.swift_report.specs.Text.{exit_text, method_text, resume_text};
ghost use Rattle.nuchapay_runs.specs.Noted.{called_text};
ghost use Rattle.nuchapay_runs.specs.Notes.{change_text, place_text};
ghost use Rattle.nuchapay_runs.specs.SaysInside.{Says};
ghost use Rattle.task_names.specs.Names.{task_name};

use crate::notes::{write_change, write_place};
use crate::number::number;
use itoa::Integer;
use run_pictures::Change;
use run_pictures::picture::word;
use std::alloc::{AllocError, Global};
use swift_events::Origin;
use swift_journal::BriefExit;
use swift_script::Script;
use swift_types::{Ending, ExecId, MethodId, Resume, TaskId};
use task_names::put_task_name;

/// A text that is being written. Where memory runs out it ends there, and `into_bytes` says so: who writes it asks at the end alone.
pub(crate) struct Text {
    pub bytes: Vec<u8>,
    pub is_cut: bool,
}

impl Drop for Text {
    fn drop(self) {
        let Text { bytes, is_cut: _ } = self;
        drop(bytes);
    }
}

impl Text {
    /// Nothing.
    pub(crate) fn new(alloc: Global) -> Text
        ensures { result.bytes.items ≡ [] }
    {
        Text {
            bytes: Vec::new(alloc),
            is_cut: false,
        }
    }

    /// The text, if there was memory for all of it.
    pub(crate) fn into_bytes(self) -> Result<Vec<u8>, AllocError>
        ensures whole { IfOk result (λ bytes. self.is_cut ≡ false) }
        ensures bytes { IfOk result (λ bytes. bytes.items ≡ self.bytes.items) }
    {
        let Text { bytes, is_cut } = self;
        if is_cut { Err(AllocError) } else { Ok(bytes) }
    }

    /// Memory ran out for a part of it.
    pub(crate) fn cut(&mut self)
        ensures { self.new.is_cut ≡ true }
    {
        self.is_cut = true;
    }

    /// Goes on with these bytes.
    pub(crate) fn say(&mut self, words: &[u8])
        ensures { Says self.old self.new words.now }
    {
        if !self.is_cut {
            self.is_cut = self.bytes.extend_from_slice(words).is_err();
        }
    }

    /// Goes on with a number in decimal.
    pub(crate) fn number<I: Integer>(&mut self, value: I)
        ensures { Says self.old self.new (I.text value) }
    {
        if !self.is_cut {
            self.is_cut = number(&mut self.bytes, value).is_err();
        }
    }

    /// Goes on with a field by its names.
    pub(crate) fn place(&mut self, script: &Script, executor: ExecId, actor: usize, field: usize)
        ensures { Says self.old self.new (place_text script.now executor.0 actor field) }
    {
        if !self.is_cut {
            self.is_cut = write_place(&mut self.bytes, script, executor, actor, field).is_err();
        }
    }

    /// Goes on with a change.
    pub(crate) fn change(&mut self, script: &Script, executor: ExecId, change: &Change)
        ensures { Says self.old self.new (change_text script.now executor.0 change.now) }
    {
        if !self.is_cut {
            self.is_cut = write_change(&mut self.bytes, script, executor, change).is_err();
        }
    }

    /// Goes on with a method by its names.
    pub(crate) fn method(&mut self, script: &Script, method: MethodId)
        ensures { Says self.old self.new (method_text script.now method.0) }
    {
        if !self.is_cut {
            self.is_cut = word::method(&mut self.bytes, script, method).is_err();
        }
    }

    /// Goes on with the name of a task of a run whose tasks come from there.
    pub(crate) fn task(&mut self, script: &Script, endings: &[(Origin, Ending)], task: TaskId)
        ensures { Says self.old self.new (task_name script.now endings.now task.0) }
    {
        if !self.is_cut {
            self.is_cut = put_task_name(&mut self.bytes, script, endings, task).is_err();
        }
    }

    /// Goes on with what a task is called, beside its number.
    pub(crate) fn called(&mut self, script: &Script, endings: &[(Origin, Ending)], task: TaskId)
        ensures { Says self.old self.new (called_text script.now endings.now task.0) }
    {
        self.say(b"t");
        self.number(task.0);
        self.say(b" is ");
        self.task(script, endings, task)
    }

    /// Goes on with what a turn began with.
    pub(crate) fn resume(&mut self, resume: Resume)
        ensures { Says self.old self.new (resume_text resume) }
    {
        if !self.is_cut {
            self.is_cut = word::resume(&mut self.bytes, resume).is_err();
        }
    }

    /// Goes on with how a turn ended.
    pub(crate) fn exit(&mut self, script: &Script, exit: BriefExit)
        ensures { Says self.old self.new (exit_text script.now exit) }
    {
        if !self.is_cut {
            self.is_cut = word::exit(&mut self.bytes, script, exit).is_err();
        }
    }
}
