//! A sink over memory. Contracts know its bytes exactly.
ghost use Rattle.std.specs.Prelude.{◌≡◌, Some, []};
ghost use Rattle.ps_grid.specs.Blanks.{IsBlankOf};

use crate::device::{Failed, Sink};
use ps_grid::GhostCount;
use std::alloc::Global;
use std::sync::ledger::{Blank, Ledger};

/// A sink that stores the bytes put on it. A `put` that runs out of memory fails, and leaves the bytes as they were.
#[derive(Drop)]
pub struct MemorySink<L: Ledger> {
    /// The bytes put so far.
    pub bytes: Vec<u8>,
    /// How many calls failed, for contracts only.
    pub failed: GhostCount<L>,
}

impl<L: Ledger> MemorySink<L> {
    /// Creates an empty sink, without an allocation.
    ///
    /// `blank` is the right to open the ledger `L`, in which contracts count the failed calls.
    pub fn new(alloc: Global, blank: Blank) -> MemorySink<L>
        requires { IsBlankOf blank L.name L.parts }
        ensures empty { result.bytes.items ≡ [] }
        ensures calm { result.failed ≡ 0 }
    {
        MemorySink {
            bytes: Vec::new(alloc),
            failed: GhostCount::new(blank),
        }
    }
}

impl<L: Ledger> Sink for MemorySink<L> {
    ghost contents = { λ sink. Some sink.bytes.items };

    ghost waiting = { λ sink. [] };

    ghost failures = { λ sink. sink.failed };

    ghost holds_back = { ⊥ };

    fn put(&mut self, piece: &[u8]) -> Result<usize, Failed> {
        if self.bytes.extend_from_slice(piece).is_err() {
            self.failed.rise();
            return Err(Failed);
        }
        Ok(piece.len())
    }

    fn flush(&mut self) -> Result<(), Failed> {
        Ok(())
    }
}
