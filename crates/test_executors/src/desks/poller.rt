//! What polls turns.

use futures::task::{Doorbell, Solo};
use std::alloc::AllocGlobal;
use std::io;
use std::random::RandomSource;

/// What polls the turns of one thread.
pub struct Poller {
    pub(crate) solo: Solo,
}

impl Drop for Poller {
    fn drop(self) {
        let Poller { solo } = self;
        drop(solo);
    }
}

impl Poller {
    /// What polls the turns of this thread. Refused where there is no memory.
    pub fn new<R: RandomSource + AllocGlobal>(rt: &R) -> io::Result<Poller> {
        let solo = Solo::new(rt, Doorbell::spinning())?;
        Ok(Poller { solo })
    }
}
