//! The script of a case.

use crate::desks::booked::Booked;
use std::alloc::Global;
use std::sync::Arc;
use swift_script::{Script, ScriptFaultKind, read};
use test_support::CaseFault;

/// A script.
pub struct Setting {
    pub(crate) script: Arc<Script>,
}

impl Drop for Setting {
    fn drop(self) {
        let Setting { script } = self;
        drop(script);
    }
}

impl Setting {
    /// The script of a text.
    pub fn read(alloc: Global, text: &str) -> Result<Setting, CaseFault> {
        match read(alloc, text.as_bytes()) {
            Ok(script) => Ok(Setting {
                script: Arc::new(alloc, script)?,
            }),
            Err(fault) if fault.kind == ScriptFaultKind::Memory => Err(CaseFault::Memory),
            Err(_) => Err(CaseFault::Script),
        }
    }

    /// How many executors it has.
    pub fn executor_count(&self) -> usize {
        self.script.executor_count()
    }

    /// How many actors it has.
    pub fn actor_count(&self) -> usize {
        self.script.actor_count()
    }

    /// A book without tasks, for threads to share.
    pub fn booked(&self, alloc: Global) -> Result<Booked, CaseFault> {
        Booked::new(alloc, Arc::clone(&self.script)?)
    }
}
