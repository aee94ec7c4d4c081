//! A watcher of a session's lines, for a server that keeps its sheet in a file.

use crate::bell::Bell;
use ps_lines::{Outcome, Watcher};
use std::sync::atomic::{AtomicBool, Ordering};

/// A watcher that sets a mark, and rings the bell, if its session is pushed changes of the sheet's own replica that the
/// sheet lacked.
#[derive(Clone, Copy)]
pub(crate) struct Marker<'a> {
    /// the mark that all sessions share
    pub(crate) mark: &'a AtomicBool,
    /// the bell that wakes the main thread
    pub(crate) bell: &'a Bell,
}

impl Watcher for Marker<'_> {
    fn saw(&mut self, _line: &[u8], outcome: Outcome) {
        if let Outcome::Elsewhere = outcome {
            self.mark.store(true, Ordering::SeqCst);
            self.bell.ring();
        }
    }
}
