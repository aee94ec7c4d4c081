//! The bell of a server: a ring ends the sleep of its main thread.

use mio::Waker;
use std::sync::OnceLock;

/// A bell, which others ring if the main thread of a server may have something to do.
#[derive(Drop)]
pub(crate) struct Bell {
    /// what ends the sleep, once the main thread can sleep
    waker: OnceLock<Waker>,
}

impl Bell {
    /// Creates a bell that wakes nobody yet.
    pub(crate) fn new() -> Bell {
        Bell {
            waker: OnceLock::new(),
        }
    }

    /// Has each ring end a sleep by this waker, if the bell has no waker yet.
    pub(crate) fn wakes(&self, waker: Waker) {
        let _ = self.waker.try_set(waker);
    }

    /// Ends the sleep of the main thread, or its next one if it doesn't sleep now.
    pub(crate) fn ring(&self) {
        if let Some(waker) = self.waker.get() {
            let _ = waker.wake();
        }
    }
}
